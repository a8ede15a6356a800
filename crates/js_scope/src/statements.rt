//! What statements mention, in source order.

ghost use Rattle.std.specs.Prelude.{◌≡◌, ◌++◌, OnOk};
ghost use Rattle.js_scope.specs.Mentioning as spec;

use crate::mention::{Mention, push_unbound};
use crate::walk::Walk;
use js_tree::{Case, Catch, Declarator, Expr, Finally, ForStart, ForTarget, Stmt, StmtForm};
use js_value::{Box, NoMemory};
use std::slice::from_ref;

impl<'a> Walk<'a, '_> {
    fn in_maybe(&self, e: &'a Option<Expr>, mentions: &mut Vec<Mention<'a>>) -> Result<(), NoMemory>
        ensures { OnOk result (spec.told mentions.new.items ≡ spec.told mentions.old.items ++ spec.in_maybe self.now e.now) }
    {
        match e {
            None => Ok(()),
            Some(e) => self.in_expr(e, mentions),
        }
    }

    fn in_declarators(
        &self,
        all: &'a [Declarator],
        mentions: &mut Vec<Mention<'a>>,
    ) -> Result<(), NoMemory>
        ensures { OnOk result (spec.told mentions.new.items ≡ spec.told mentions.old.items ++ spec.in_declarators self.now all.now) }
    {
        for d in all {
            self.in_maybe(&d.init, mentions)?;
        }
        Ok(())
    }

    fn in_start(&self, from: &'a ForStart, mentions: &mut Vec<Mention<'a>>) -> Result<(), NoMemory>
        ensures { OnOk result (spec.told mentions.new.items ≡ spec.told mentions.old.items ++ spec.in_start self.now from.now) }
    {
        match from {
            ForStart::Nothing => Ok(()),
            ForStart::Expr(e) => self.in_expr(e, mentions),
            ForStart::Var(all) => self.in_declarators(all.as_slice(), mentions),
        }
    }

    fn in_for_target(
        &self,
        to: &'a ForTarget,
        mentions: &mut Vec<Mention<'a>>,
    ) -> Result<(), NoMemory>
        ensures { OnOk result (spec.told mentions.new.items ≡ spec.told mentions.old.items ++ spec.in_for_target self.now to.now) }
    {
        match to {
            ForTarget::Expr(e) => self.in_target(e, mentions),
            ForTarget::Var(_, _) => Ok(()),
        }
    }

    /// Puts behind the others what statements mention.
    #[cycle(stmt_mentions)]
    pub fn in_stmts(&self, all: &'a [Stmt], mentions: &mut Vec<Mention<'a>>) -> Result<(), NoMemory>
        ensures { OnOk result (spec.told mentions.new.items ≡ spec.told mentions.old.items ++ spec.in_stmts self.now all.now) }
    {
        for s in all {
            self.in_stmt(s, mentions)?;
        }
        Ok(())
    }

    #[cycle(stmt_mentions)]
    fn in_cases(&self, all: &'a [Case], mentions: &mut Vec<Mention<'a>>) -> Result<(), NoMemory>
        ensures { OnOk result (spec.told mentions.new.items ≡ spec.told mentions.old.items ++ spec.in_cases self.now all.now) }
    {
        for c in all {
            self.in_case(c, mentions)?;
        }
        Ok(())
    }

    #[cycle(stmt_mentions)]
    fn in_case(&self, c: &'a Case, mentions: &mut Vec<Mention<'a>>) -> Result<(), NoMemory>
        ensures { OnOk result (spec.told mentions.new.items ≡ spec.told mentions.old.items ++ spec.in_case self.now c.now) }
    {
        self.in_maybe(&c.test, mentions)?;
        self.in_stmts(c.body.as_slice(), mentions)
    }

    /// A handler binds its name in its body (12.14).
    #[cycle(stmt_mentions)]
    fn in_catch(&self, c: &'a Catch, mentions: &mut Vec<Mention<'a>>) -> Result<(), NoMemory>
        ensures { OnOk result (spec.told mentions.new.items ≡ spec.told mentions.old.items ++ spec.in_catch self.now c.now) }
    {
        let mut inside = Vec::new(self.alloc);
        self.in_stmts(c.body.as_slice(), &mut inside)?;
        push_unbound(self.alloc, from_ref(&c.name), inside.as_slice(), mentions)
    }

    #[cycle(stmt_mentions)]
    fn in_handler(
        &self,
        handler: &'a Option<Box<Catch>>,
        mentions: &mut Vec<Mention<'a>>,
    ) -> Result<(), NoMemory>
        ensures { OnOk result (spec.told mentions.new.items ≡ spec.told mentions.old.items ++ spec.in_handler self.now handler.now) }
    {
        match handler {
            None => Ok(()),
            Some(handler) => self.in_catch(handler, mentions),
        }
    }

    #[cycle(stmt_mentions)]
    fn in_last(
        &self,
        last: &'a Option<Box<Finally>>,
        mentions: &mut Vec<Mention<'a>>,
    ) -> Result<(), NoMemory>
        ensures { OnOk result (spec.told mentions.new.items ≡ spec.told mentions.old.items ++ spec.in_last self.now last.now) }
    {
        match last {
            None => Ok(()),
            Some(last) => self.in_finally(last, mentions),
        }
    }

    #[cycle(stmt_mentions)]
    fn in_finally(&self, f: &'a Finally, mentions: &mut Vec<Mention<'a>>) -> Result<(), NoMemory>
        ensures { OnOk result (spec.told mentions.new.items ≡ spec.told mentions.old.items ++ spec.in_finally self.now f.now) }
    {
        self.in_stmts(f.body.as_slice(), mentions)
    }

    #[cycle(stmt_mentions)]
    fn in_stmt(&self, s: &'a Stmt, mentions: &mut Vec<Mention<'a>>) -> Result<(), NoMemory>
        ensures { OnOk result (spec.told mentions.new.items ≡ spec.told mentions.old.items ++ spec.in_stmt self.now s.now) }
    {
        self.in_stmt_form(&s.form, mentions)
    }

    #[cycle(stmt_mentions)]
    fn in_stmt_form(
        &self,
        form: &'a StmtForm,
        mentions: &mut Vec<Mention<'a>>,
    ) -> Result<(), NoMemory>
        ensures { OnOk result (spec.told mentions.new.items ≡ spec.told mentions.old.items ++ spec.in_stmt_form self.now form.now) }
    {
        match form {
            StmtForm::Var(all) => self.in_declarators(all.as_slice(), mentions),
            StmtForm::FuncDecl(f) => self.in_declaration(*f, mentions),
            StmtForm::Eval(e) => self.in_expr(e, mentions),
            StmtForm::Block(body) => self.in_stmts(body.as_slice(), mentions),
            StmtForm::Empty | StmtForm::Continue | StmtForm::Break => Ok(()),
            StmtForm::If(test, then, None) => {
                self.in_expr(test, mentions)?;
                self.in_stmt(then, mentions)
            }
            StmtForm::If(test, then, Some(other)) => {
                self.in_expr(test, mentions)?;
                self.in_stmt(then, mentions)?;
                self.in_stmt(other, mentions)
            }
            StmtForm::DoWhile(body, test) => {
                self.in_stmt(body, mentions)?;
                self.in_expr(test, mentions)
            }
            StmtForm::While(test, body) => {
                self.in_expr(test, mentions)?;
                self.in_stmt(body, mentions)
            }
            StmtForm::For(from, test, step, body) => {
                self.in_header(from, test, step, mentions)?;
                self.in_stmt(body, mentions)
            }
            StmtForm::ForIn(to, object, body) => {
                self.in_for_target(to, mentions)?;
                self.in_expr(object, mentions)?;
                self.in_stmt(body, mentions)
            }
            StmtForm::Return(e) => self.in_maybe(e, mentions),
            StmtForm::Switch(e, cases) => {
                self.in_expr(e, mentions)?;
                self.in_cases(cases.as_slice(), mentions)
            }
            StmtForm::Throw(e) => self.in_expr(e, mentions),
            StmtForm::Try(body, handler, last) => {
                self.in_stmts(body.as_slice(), mentions)?;
                self.in_handler(handler, mentions)?;
                self.in_last(last, mentions)
            }
        }
    }

    /// The header of a `for` (12.6.3).
    fn in_header(
        &self,
        from: &'a ForStart,
        test: &'a Option<Expr>,
        step: &'a Option<Expr>,
        mentions: &mut Vec<Mention<'a>>,
    ) -> Result<(), NoMemory>
        ensures { OnOk result (spec.told mentions.new.items ≡ spec.told mentions.old.items ++ spec.in_header self.now from.now test.now step.now) }
    {
        self.in_start(from, mentions)?;
        self.in_maybe(test, mentions)?;
        self.in_maybe(step, mentions)
    }
}
