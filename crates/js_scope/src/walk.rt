//! What expressions mention, in source order.

ghost use Rattle.std.specs.Prelude.{◌≡◌, ◌++◌, OnOk};
ghost use Rattle.std.specs.List.{flat_map};
ghost use Rattle.std.specs.Option.{option_map};
ghost use Rattle.js_tree.specs.Mentions as tree;
ghost use Rattle.js_scope.specs.Mentioning as spec;

use crate::mention::{Inside, Mention, push, push_owned};
use crate::properties::push_repeats;
use js_tree::{Expr, ExprForm, Field};
use js_value::{FuncNo, NoMemory, Place};
use std::alloc::Global;
use std::collections::VecDeque;

/// A walk over code, with what is known of the functions that it names by their numbers.
#[derive(Clone, Copy)]
pub struct Walk<'a, 'i> {
    pub alloc: Global,
    /// The number of the first function that something is known of.
    pub first: usize,
    pub insides: &'i VecDeque<Inside<'a>>,
}

impl<'a> Walk<'a, '_> {
    /// What is known of a function.
    pub fn inside(&self, f: FuncNo) -> Option<&Inside<'a>>
        ensures { tree.none_inside (option_map (λ i. spec.inside_of i.now) result) ≡ tree.nth self.now.first (spec.known self.now) f }
    {
        if f.0 < self.first {
            return None;
        }
        self.insides.get(f.0 - self.first)
    }

    /// What a function expression mentions (13).
    #[tactic(auto, unfolding(crate::specs::Mentioning::as_expression))]
    fn in_function(&self, f: FuncNo, mentions: &mut Vec<Mention<'a>>) -> Result<(), NoMemory>
        ensures { OnOk result (spec.told mentions.new.items ≡ spec.told mentions.old.items ++ spec.expression self.now f) }
    {
        match self.inside(f) {
            None => Ok(()),
            Some(inside) => push_owned(inside, mentions),
        }
    }

    /// What a function declaration mentions (13).
    #[tactic(auto, unfolding(crate::specs::Mentioning::as_declaration))]
    pub fn in_declaration(&self, f: FuncNo, mentions: &mut Vec<Mention<'a>>) -> Result<(), NoMemory>
        ensures { OnOk result (spec.told mentions.new.items ≡ spec.told mentions.old.items ++ spec.declaration self.now f) }
    {
        match self.inside(f) {
            None => Ok(()),
            Some(inside) => Ok(mentions.extend_from_slice(inside.mentions.as_slice())?),
        }
    }
}

impl<'a> Walk<'a, '_> {
    #[cycle(expr_mentions)]
    fn in_exprs(&self, all: &'a [Expr], mentions: &mut Vec<Mention<'a>>) -> Result<(), NoMemory>
        ensures { OnOk result (spec.told mentions.new.items ≡ spec.told mentions.old.items ++ spec.in_exprs self.now all.now) }
    {
        for e in all {
            self.in_expr(e, mentions)?;
        }
        Ok(())
    }

    #[cycle(expr_mentions)]
    fn in_elements(
        &self,
        all: &'a [Option<Expr>],
        mentions: &mut Vec<Mention<'a>>,
    ) -> Result<(), NoMemory>
        ensures { OnOk result (spec.told mentions.new.items ≡ spec.told mentions.old.items ++ flat_map (spec.in_maybe self.now) all.now) }
    {
        for e in all {
            if let Some(e) = e {
                self.in_expr(e, mentions)?;
            }
        }
        Ok(())
    }

    #[cycle(expr_mentions)]
    fn in_fields(&self, all: &'a [Field], mentions: &mut Vec<Mention<'a>>) -> Result<(), NoMemory>
        ensures { OnOk result (spec.told mentions.new.items ≡ spec.told mentions.old.items ++ spec.in_fields self.now all.now) }
    {
        for field in all {
            self.in_field(field, mentions)?;
        }
        Ok(())
    }

    #[cycle(expr_mentions)]
    fn in_field(&self, field: &'a Field, mentions: &mut Vec<Mention<'a>>) -> Result<(), NoMemory>
        ensures { OnOk result (spec.told mentions.new.items ≡ spec.told mentions.old.items ++ (spec.in_field self.now field.now).1) }
    {
        match field {
            Field::Value(_, _, e) => self.in_expr(e, mentions),
            Field::Getter(_, _, f) => self.in_function(*f, mentions),
            Field::Setter(_, _, f) => self.in_function(*f, mentions),
        }
    }

    #[cycle(expr_mentions)]
    pub fn in_expr(&self, e: &'a Expr, mentions: &mut Vec<Mention<'a>>) -> Result<(), NoMemory>
        ensures { OnOk result (spec.told mentions.new.items ≡ spec.told mentions.old.items ++ (spec.in_expr self.now e.now).0) }
    {
        self.in_form(&e.form, e.at, mentions)
    }

    /// What an expression mentions where it is assigned to.
    #[cycle(expr_mentions)]
    pub fn in_target(&self, e: &'a Expr, mentions: &mut Vec<Mention<'a>>) -> Result<(), NoMemory>
        ensures { OnOk result (spec.told mentions.new.items ≡ spec.told mentions.old.items ++ (spec.in_expr self.now e.now).1) }
    {
        self.in_target_form(&e.form, e.at, mentions)
    }

    #[cycle(expr_mentions)]
    fn in_target_form(
        &self,
        form: &'a ExprForm,
        at: Place,
        mentions: &mut Vec<Mention<'a>>,
    ) -> Result<(), NoMemory>
        ensures { OnOk result (spec.told mentions.new.items ≡ spec.told mentions.old.items ++ (spec.in_form self.now form.now at).1) }
    {
        match form {
            ExprForm::Name(name) => push(mentions, Mention::Assigns(at, name)),
            _ => self.in_form(form, at, mentions),
        }
    }

    #[cycle(expr_mentions)]
    fn in_form(
        &self,
        form: &'a ExprForm,
        at: Place,
        mentions: &mut Vec<Mention<'a>>,
    ) -> Result<(), NoMemory>
        ensures { OnOk result (spec.told mentions.new.items ≡ spec.told mentions.old.items ++ (spec.in_form self.now form.now at).0) }
    {
        match form {
            ExprForm::This | ExprForm::Literal(_) => Ok(()),
            ExprForm::Name(name) => push(mentions, Mention::Reads(at, name)),
            ExprForm::ArrayLit(items) => self.in_elements(items.as_slice(), mentions),
            ExprForm::ObjectLit(fields) => {
                self.in_fields(fields.as_slice(), mentions)?;
                push_repeats(self.alloc, fields.as_slice(), mentions)
            }
            ExprForm::Func(f) => self.in_function(*f, mentions),
            ExprForm::Member(object, _) => self.in_expr(object, mentions),
            ExprForm::Index(object, key) => {
                self.in_expr(object, mentions)?;
                self.in_expr(key, mentions)
            }
            ExprForm::Call(callee, args) => {
                self.in_expr(callee, mentions)?;
                self.in_exprs(args.as_slice(), mentions)
            }
            ExprForm::New(callee, args) => {
                self.in_expr(callee, mentions)?;
                self.in_exprs(args.as_slice(), mentions)
            }
            ExprForm::Unary(_, a) => self.in_expr(a, mentions),
            ExprForm::Binary(_, a, b) => {
                self.in_expr(a, mentions)?;
                self.in_expr(b, mentions)
            }
            ExprForm::Logic(_, a, b) => {
                self.in_expr(a, mentions)?;
                self.in_expr(b, mentions)
            }
            ExprForm::Conditional(test, a, b) => {
                self.in_expr(test, mentions)?;
                self.in_expr(a, mentions)?;
                self.in_expr(b, mentions)
            }
            ExprForm::Assign(a, _, b) => {
                self.in_target(a, mentions)?;
                self.in_expr(b, mentions)
            }
            ExprForm::Step(_, a) => self.in_target(a, mentions),
            ExprForm::Comma(a, b) => {
                self.in_expr(a, mentions)?;
                self.in_expr(b, mentions)
            }
            ExprForm::Input(kind, text) => push(mentions, Mention::Takes(at, *kind, text)),
            ExprForm::HostCall(_, _, args) => self.in_exprs(args.as_slice(), mentions),
        }
    }
}
