//! Expressions (11). What writes a function is a parameter, so that trees and functions are two recursions.

ghost use Rattle.std.specs.Prelude.{◌≡◌, ◌++◌, OnOk, true, false};
ghost use Rattle.script_text.specs.Expressions as spec;
ghost use Rattle.token_sheets.specs.Sheets.{put_all};
ghost use Rattle.script_text.specs.Pieces.{separated, behind_commas};
ghost use Rattle.script_text.specs.Printing.{function_to};
ghost use Rattle.js_printer.specs.Writes.{Writes};

use crate::leftmost::calls;
use js_tree::{Expr, ExprForm, Field, Func, StepOp};
use js_value::{FuncNo, Kind, NoMemory, Text};
use script_text::Gap;
use std::alloc::Global;
use token_sheets::{
    Sheet, assignment_operator, binary_level, is_in, is_number, key, level, literal, logic_level,
    logic_operator, operator, two_literals, unary_operator,
};

/// Writes trees whose functions are these.
#[derive(Clone, Copy)]
pub struct Printer<'a, F> {
    pub alloc: Global,
    pub funcs: &'a [Func],
    /// How deep functions may still stand in one another.
    pub depth: usize,
    pub function: F,
}

impl<F: Fn(Global, &[Func], &mut Sheet, usize, FuncNo, bool) -> Result<(), NoMemory>> Printer<
    '_,
    F,
> {
    /// A function behind the word that begins it, with or without its name.
    pub fn function(&self, page: &mut Sheet, f: FuncNo, named: bool) -> Result<(), NoMemory>
        requires { Writes self.now.funcs.now self.now.depth (F.pre self.now.function) (F.post self.now.function) }
        ensures { OnOk result (page.new ≡ put_all (function_to self.now.depth self.now.funcs.now named f) page.old) }
    {
        (self.function)(self.alloc, self.funcs, page, self.depth, f, named)
    }

    #[cycle(expression)]
    #[tactic(auto, using(token_sheets::proofs::Putting::appended))]
    pub fn grouped(
        &self,
        page: &mut Sheet,
        form: &ExprForm,
        is_grouped: bool,
        allows_in: bool,
    ) -> Result<(), NoMemory>
        requires { Writes self.now.funcs.now self.now.depth (F.pre self.now.function) (F.post self.now.function) }
        ensures { OnOk result (page.new ≡ put_all (spec.if_grouped is_grouped allows_in (spec.printed_form (function_to self.now.depth self.now.funcs.now) form.now)) page.old) }
    {
        if !is_grouped {
            return self.form(page, form, allows_in);
        }
        page.opening(b"(")?;
        self.form(page, form, true)?;
        page.closing(b")")
    }

    /// An expression where one of at least a level is taken, and where `in` is an operator or not.
    #[cycle(expression)]
    #[tactic(auto, using(token_sheets::proofs::Putting::appended))]
    pub fn expr(
        &self,
        page: &mut Sheet,
        e: &Expr,
        wanted: u8,
        allows_in: bool,
    ) -> Result<(), NoMemory>
        requires { Writes self.now.funcs.now self.now.depth (F.pre self.now.function) (F.post self.now.function) }
        ensures { OnOk result (page.new ≡ put_all (spec.expr (function_to self.now.depth self.now.funcs.now) wanted allows_in e.now) page.old) }
    {
        let is_grouped = (level(&e.form) < wanted) | (is_in(&e.form) & !allows_in);
        self.grouped(page, &e.form, is_grouped, allows_in)
    }

    /// What stands before a point.
    #[cycle(expression)]
    #[tactic(auto, using(token_sheets::proofs::Putting::appended))]
    fn object(&self, page: &mut Sheet, e: &Expr, allows_in: bool) -> Result<(), NoMemory>
        requires { Writes self.now.funcs.now self.now.depth (F.pre self.now.function) (F.post self.now.function) }
        ensures { OnOk result (page.new ≡ put_all (spec.object allows_in (spec.printed (function_to self.now.depth self.now.funcs.now) e.now)) page.old) }
    {
        let is_grouped = (level(&e.form) < 16) | is_number(&e.form);
        self.grouped(page, &e.form, is_grouped, allows_in)
    }

    #[cycle(expression)]
    #[tactic(auto, using(token_sheets::proofs::Putting::appended))]
    fn callee_of_new(&self, page: &mut Sheet, e: &Expr, allows_in: bool) -> Result<(), NoMemory>
        requires { Writes self.now.funcs.now self.now.depth (F.pre self.now.function) (F.post self.now.function) }
        ensures { OnOk result (page.new ≡ put_all (spec.callee_of_new allows_in (spec.printed (function_to self.now.depth self.now.funcs.now) e.now)) page.old) }
    {
        let is_grouped = (level(&e.form) < 16) | calls(&e.form);
        self.grouped(page, &e.form, is_grouped, allows_in)
    }

    #[cycle(expression)]
    #[tactic(auto, using(crate::proofs::Forms::forms))]
    fn form(&self, page: &mut Sheet, form: &ExprForm, allows_in: bool) -> Result<(), NoMemory>
        requires { Writes self.now.funcs.now self.now.depth (F.pre self.now.function) (F.post self.now.function) }
        ensures { OnOk result (page.new ≡ put_all (spec.tokens (spec.printed_form (function_to self.now.depth self.now.funcs.now) form.now) allows_in) page.old) }
    {
        match form {
            ExprForm::This => page.word(b"this"),
            ExprForm::Name(units) => page.reference(self.alloc, units),
            ExprForm::Literal(value) => literal(self.alloc, page, value),
            ExprForm::ArrayLit(items) => {
                page.opening(b"[")?;
                self.elements(page, items.as_slice())?;
                page.closing(b"]")
            }
            ExprForm::ObjectLit(fields) => {
                page.opening(b"{")?;
                self.fields(page, fields.as_slice())?;
                page.closing(b"}")
            }
            ExprForm::Func(f) => {
                page.word(b"function")?;
                self.function(page, *f, true)
            }
            ExprForm::Member(object, key) => {
                self.object(page, object, allows_in)?;
                page.inner(b".")?;
                page.named(self.alloc, key, Gap::Loose)
            }
            ExprForm::Index(object, key) => {
                self.expr(page, object, 16, allows_in)?;
                self.index(page, key)
            }
            ExprForm::Call(callee, args) => {
                self.expr(page, callee, 16, allows_in)?;
                self.arguments(page, args.as_slice())
            }
            ExprForm::New(callee, args) => {
                page.word(b"new")?;
                self.callee_of_new(page, callee, allows_in)?;
                self.arguments(page, args.as_slice())
            }
            ExprForm::Unary(op, a) => {
                unary_operator(page, *op)?;
                self.expr(page, a, 14, allows_in)
            }
            ExprForm::Binary(op, a, b) => {
                let level = binary_level(*op);
                self.expr(page, a, level, allows_in)?;
                page.word(operator(*op))?;
                self.expr(page, b, level + 1, allows_in)
            }
            ExprForm::Logic(op, a, b) => {
                let level = logic_level(*op);
                self.expr(page, a, level, allows_in)?;
                page.word(logic_operator(*op))?;
                self.expr(page, b, level + 1, allows_in)
            }
            ExprForm::Conditional(test, a, b) => {
                self.expr(page, test, 4, allows_in)?;
                self.choice(page, a, b"?", true)?;
                self.choice(page, b, b":", allows_in)
            }
            ExprForm::Assign(a, op, b) => {
                self.expr(page, a, 16, allows_in)?;
                page.word(assignment_operator(*op))?;
                self.expr(page, b, 2, allows_in)
            }
            ExprForm::Step(op, a) => self.step(page, a, *op, allows_in),
            ExprForm::Comma(a, b) => {
                self.expr(page, a, 1, allows_in)?;
                page.closing(b",")?;
                self.expr(page, b, 2, allows_in)
            }
            ExprForm::Input(kind, text) => self.input(page, *kind, text),
            ExprForm::HostCall(kind, text, args) => {
                self.host_call(page, args.as_slice(), *kind, text)
            }
        }
    }

    /// `[key]`
    #[cycle(expression)]
    #[tactic(auto, using(token_sheets::proofs::Putting::appended), unfolding(script_text::specs::Expressions::index))]
    fn index(&self, page: &mut Sheet, key: &Expr) -> Result<(), NoMemory>
        requires { Writes self.now.funcs.now self.now.depth (F.pre self.now.function) (F.post self.now.function) }
        ensures { OnOk result (page.new ≡ put_all (spec.index (spec.printed (function_to self.now.depth self.now.funcs.now) key.now)) page.old) }
    {
        page.inner(b"[")?;
        self.expr(page, key, 1, true)?;
        page.closing(b"]")
    }

    /// `(a, b)`
    #[cycle(expression)]
    #[tactic(auto, using(token_sheets::proofs::Putting::appended))]
    fn arguments(&self, page: &mut Sheet, all: &[Expr]) -> Result<(), NoMemory>
        requires { Writes self.now.funcs.now self.now.depth (F.pre self.now.function) (F.post self.now.function) }
        ensures { OnOk result (page.new ≡ put_all (spec.in_parentheses (separated (spec.argument (function_to self.now.depth self.now.funcs.now)) all.now)) page.old) }
    {
        page.inner(b"(")?;
        self.values(page, all)?;
        page.closing(b")")
    }

    #[cycle(expression)]
    #[tactic(auto, using(token_sheets::proofs::Putting::appended))]
    fn values(&self, page: &mut Sheet, all: &[Expr]) -> Result<(), NoMemory>
        requires { Writes self.now.funcs.now self.now.depth (F.pre self.now.function) (F.post self.now.function) }
        ensures { OnOk result (page.new ≡ put_all (separated (spec.argument (function_to self.now.depth self.now.funcs.now)) all.now) page.old) }
    {
        if let [first, more @ ..] = all {
            self.expr(page, first, 2, true)?;
            for e in more {
                page.closing(b",")?;
                self.expr(page, e, 2, true)?;
            }
        }
        Ok(())
    }

    /// `, a, b`
    #[cycle(expression)]
    #[tactic(auto, using(token_sheets::proofs::Putting::appended))]
    fn values_behind(&self, page: &mut Sheet, all: &[Expr]) -> Result<(), NoMemory>
        requires { Writes self.now.funcs.now self.now.depth (F.pre self.now.function) (F.post self.now.function) }
        ensures { OnOk result (page.new ≡ put_all (behind_commas (spec.argument (function_to self.now.depth self.now.funcs.now)) all.now) page.old) }
    {
        for e in all {
            page.closing(b",")?;
            self.expr(page, e, 2, true)?;
        }
        Ok(())
    }

    /// The inside of an array literal (11.1.4).
    #[cycle(expression)]
    #[tactic(auto, using(token_sheets::proofs::Putting::appended))]
    fn elements(&self, page: &mut Sheet, all: &[Option<Expr>]) -> Result<(), NoMemory>
        requires { Writes self.now.funcs.now self.now.depth (F.pre self.now.function) (F.post self.now.function) }
        ensures { OnOk result (page.new ≡ put_all (spec.elements (function_to self.now.depth self.now.funcs.now) all.now) page.old) }
    {
        if let [first, more @ ..] = all {
            if let Some(e) = first {
                self.expr(page, e, 2, true)?;
            }
            for e in more {
                page.closing(b",")?;
                if let Some(e) = e {
                    self.expr(page, e, 2, true)?;
                }
            }
        }
        last_comma(page, all)
    }

    /// The inside of an object literal (11.1.5).
    #[cycle(expression)]
    #[tactic(auto, using(token_sheets::proofs::Putting::appended))]
    fn fields(&self, page: &mut Sheet, all: &[Field]) -> Result<(), NoMemory>
        requires { Writes self.now.funcs.now self.now.depth (F.pre self.now.function) (F.post self.now.function) }
        ensures { OnOk result (page.new ≡ put_all (separated (spec.printed_field (function_to self.now.depth self.now.funcs.now)) all.now) page.old) }
    {
        if let [first, more @ ..] = all {
            self.field(page, first)?;
            for f in more {
                page.closing(b",")?;
                self.field(page, f)?;
            }
        }
        Ok(())
    }

    #[cycle(expression)]
    #[tactic(auto, using(token_sheets::proofs::Putting::appended))]
    fn field(&self, page: &mut Sheet, field: &Field) -> Result<(), NoMemory>
        requires { Writes self.now.funcs.now self.now.depth (F.pre self.now.function) (F.post self.now.function) }
        ensures { OnOk result (page.new ≡ put_all (spec.printed_field (function_to self.now.depth self.now.funcs.now) field.now) page.old) }
    {
        match field {
            Field::Value(_, text, e) => {
                key(self.alloc, page, text, Gap::Loose)?;
                page.closing(b":")?;
                self.expr(page, e, 2, true)
            }
            Field::Getter(_, text, f) => {
                page.word(b"get")?;
                key(self.alloc, page, text, Gap::Tight)?;
                self.function(page, *f, false)
            }
            Field::Setter(_, text, f) => {
                page.word(b"set")?;
                key(self.alloc, page, text, Gap::Tight)?;
                self.function(page, *f, false)
            }
        }
    }

    /// `? a` and `: b` of a conditional expression (11.12).
    #[cycle(expression)]
    #[tactic(auto, using(token_sheets::proofs::Putting::appended), unfolding(script_text::specs::Expressions::branch))]
    fn choice(
        &self,
        page: &mut Sheet,
        e: &Expr,
        sign: &[u8],
        allows_in: bool,
    ) -> Result<(), NoMemory>
        requires { Writes self.now.funcs.now self.now.depth (F.pre self.now.function) (F.post self.now.function) }
        ensures { OnOk result (page.new ≡ put_all (spec.branch sign.now allows_in (spec.printed (function_to self.now.depth self.now.funcs.now) e.now)) page.old) }
    {
        page.word(sign)?;
        self.expr(page, e, 2, allows_in)
    }

    /// `++` and `--` (11.3, 11.4.4, 11.4.5).
    #[cycle(expression)]
    #[tactic(auto, using(token_sheets::proofs::Putting::appended))]
    fn step(&self, page: &mut Sheet, a: &Expr, op: StepOp, allows_in: bool) -> Result<(), NoMemory>
        requires { Writes self.now.funcs.now self.now.depth (F.pre self.now.function) (F.post self.now.function) }
        ensures { OnOk result (page.new ≡ put_all (spec.stepped op allows_in (spec.printed (function_to self.now.depth self.now.funcs.now) a.now)) page.old) }
    {
        match op {
            StepOp::PreUp => {
                page.prefix(b"++")?;
                self.expr(page, a, 14, allows_in)
            }
            StepOp::PreDown => {
                page.prefix(b"--")?;
                self.expr(page, a, 14, allows_in)
            }
            StepOp::PostUp => {
                self.expr(page, a, 16, allows_in)?;
                page.closing(b"++")
            }
            StepOp::PostDown => {
                self.expr(page, a, 16, allows_in)?;
                page.closing(b"--")
            }
        }
    }

    #[tactic(auto, using(token_sheets::proofs::Putting::appended))]
    fn input(&self, page: &mut Sheet, kind: Kind, text: &Text) -> Result<(), NoMemory>
        ensures { OnOk result (page.new ≡ put_all (spec.input kind text.now) page.old) }
    {
        page.word(b"__abstract")?;
        page.inner(b"(")?;
        two_literals(self.alloc, page, kind, text)?;
        page.closing(b")")
    }

    #[cycle(expression)]
    #[tactic(auto, using(token_sheets::proofs::Putting::appended), unfolding(script_text::specs::Expressions::host_call))]
    fn host_call(
        &self,
        page: &mut Sheet,
        args: &[Expr],
        kind: Kind,
        text: &Text,
    ) -> Result<(), NoMemory>
        requires { Writes self.now.funcs.now self.now.depth (F.pre self.now.function) (F.post self.now.function) }
        ensures { OnOk result (page.new ≡ put_all (spec.host_call kind text.now (behind_commas (spec.argument (function_to self.now.depth self.now.funcs.now)) args.now)) page.old) }
    {
        host_call_start(self.alloc, page, kind, text)?;
        self.values_behind(page, args)?;
        page.closing(b")")
    }
}

/// `__residual("number", "now"`
fn host_call_start(alloc: Global, page: &mut Sheet, kind: Kind, text: &Text) -> Result<(), NoMemory>
    ensures { OnOk result (page.new ≡ put_all (spec.host_call_start kind text.now) page.old) }
{
    page.word(b"__residual")?;
    page.inner(b"(")?;
    two_literals(alloc, page, kind, text)?;
    Ok(())
}

fn ends_in_elision(all: &[Option<Expr>]) -> bool
    ensures { result ≡ spec.ends_in_elision all.now }
{
    match all.last() {
        Some(None) => true,
        _ => false,
    }
}

/// An elision at the end takes a comma of its own (11.1.4).
fn last_comma(page: &mut Sheet, all: &[Option<Expr>]) -> Result<(), NoMemory>
    ensures { OnOk result (page.new ≡ put_all (spec.last_comma (spec.ends_in_elision all.now)) page.old) }
{
    if ends_in_elision(all) {
        page.closing(b",")
    } else {
        Ok(())
    }
}
