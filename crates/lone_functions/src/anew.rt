//! Code copied for a script of its own.

ghost use Rattle.std.specs.Prelude.{◌≡◌, map, IfOk};
ghost use Rattle.std.specs.Option.{option_map};
ghost use Rattle.lone_functions.specs.Anew as spec;

use js_tree::{Elements, Expr, ExprForm, Exprs, Field, Fields};
use js_value::{Box, FuncNo, NoMemory, Place, Primitive, Seq};
use std::alloc::Global;

/// The place of every part that is copied.
pub const START: Place = Place(0);

/// Copies of code for a script in which the function with the number `first` comes first.
#[derive(Clone, Copy)]
pub struct Anew {
    pub alloc: Global,
    pub first: usize,
}

/// A copy of a value.
fn copy(alloc: Global, value: &Primitive) -> Result<Primitive, NoMemory>
    ensures { IfOk result (λ copied. copied ≡ value.now) }
{
    match value {
        Primitive::Undefined => Ok(Primitive::Undefined),
        Primitive::Null => Ok(Primitive::Null),
        Primitive::Boolean(b) => Ok(Primitive::Boolean(*b)),
        Primitive::Number(n) => Ok(Primitive::Number(*n)),
        Primitive::Text(text) => Ok(Primitive::Text(text.copy(alloc)?)),
    }
}

impl Anew {
    /// The number of a function among those from the first one on.
    pub fn number(&self, f: FuncNo) -> FuncNo
        ensures { result ≡ spec.number self.now.first f }
    {
        FuncNo(f.0.saturating_sub(self.first))
    }

    #[cycle(expression_copies)]
    fn exprs(&self, all: &[Expr]) -> Result<Exprs, NoMemory>
        ensures { IfOk result (λ copies. copies ≡ map (spec.expr self.now.first) all.now) }
    {
        let mut copies = Seq::new(self.alloc);
        for e in all {
            copies.push(self.expr(e)?)?;
        }
        Ok(copies)
    }

    #[cycle(expression_copies)]
    fn elements(&self, all: &[Option<Expr>]) -> Result<Elements, NoMemory>
        ensures { IfOk result (λ copies. copies ≡ map (option_map (spec.expr self.now.first)) all.now) }
    {
        let mut copies = Seq::new(self.alloc);
        for e in all {
            match e {
                None => copies.push(None)?,
                Some(e) => copies.push(Some(self.expr(e)?))?,
            }
        }
        Ok(copies)
    }

    #[cycle(expression_copies)]
    fn fields(&self, all: &[Field]) -> Result<Fields, NoMemory>
        ensures { IfOk result (λ copies. copies ≡ map (spec.field self.now.first) all.now) }
    {
        let mut copies = Seq::new(self.alloc);
        for f in all {
            copies.push(self.field(f)?)?;
        }
        Ok(copies)
    }

    #[cycle(expression_copies)]
    fn field(&self, field: &Field) -> Result<Field, NoMemory>
        ensures { IfOk result (λ copy. copy ≡ spec.field self.now.first field.now) }
    {
        match field {
            Field::Value(_, key, e) => {
                Ok(Field::Value(START, key.copy(self.alloc)?, self.expr(e)?))
            }
            Field::Getter(_, key, f) => Ok(Field::Getter(
                START,
                key.copy(self.alloc)?,
                self.number(*f),
            )),
            Field::Setter(_, key, f) => Ok(Field::Setter(
                START,
                key.copy(self.alloc)?,
                self.number(*f),
            )),
        }
    }

    #[cycle(expression_copies)]
    pub fn expr(&self, e: &Expr) -> Result<Expr, NoMemory>
        ensures { IfOk result (λ copy. copy ≡ spec.expr self.now.first e.now) }
    {
        Ok(Expr {
            at: START,
            form: Box::new(self.alloc, self.form(&e.form)?)?,
        })
    }

    #[cycle(expression_copies)]
    fn form(&self, form: &ExprForm) -> Result<ExprForm, NoMemory>
        ensures { IfOk result (λ copy. copy ≡ spec.form self.now.first form.now) }
    {
        match form {
            ExprForm::This => Ok(ExprForm::This),
            ExprForm::Name(name) => Ok(ExprForm::Name(name.copy(self.alloc)?)),
            ExprForm::Literal(value) => Ok(ExprForm::Literal(copy(self.alloc, value)?)),
            ExprForm::ArrayLit(items) => Ok(ExprForm::ArrayLit(self.elements(items.as_slice())?)),
            ExprForm::ObjectLit(fields) => Ok(ExprForm::ObjectLit(self.fields(fields.as_slice())?)),
            ExprForm::Func(f) => Ok(ExprForm::Func(self.number(*f))),
            ExprForm::Member(object, key) => {
                Ok(ExprForm::Member(self.expr(object)?, key.copy(self.alloc)?))
            }
            ExprForm::Index(object, key) => Ok(ExprForm::Index(
                self.expr(object)?,
                self.expr(key)?,
            )),
            ExprForm::Call(callee, args) => {
                Ok(ExprForm::Call(self.expr(callee)?, self.exprs(args.as_slice())?))
            }
            ExprForm::New(callee, args) => {
                Ok(ExprForm::New(self.expr(callee)?, self.exprs(args.as_slice())?))
            }
            ExprForm::Unary(op, a) => Ok(ExprForm::Unary(*op, self.expr(a)?)),
            ExprForm::Binary(op, a, b) => Ok(ExprForm::Binary(*op, self.expr(a)?, self.expr(b)?)),
            ExprForm::Logic(op, a, b) => Ok(ExprForm::Logic(*op, self.expr(a)?, self.expr(b)?)),
            ExprForm::Conditional(test, a, b) => {
                Ok(ExprForm::Conditional(self.expr(test)?, self.expr(a)?, self.expr(b)?))
            }
            ExprForm::Assign(a, op, b) => Ok(ExprForm::Assign(self.expr(a)?, *op, self.expr(b)?)),
            ExprForm::Step(op, a) => Ok(ExprForm::Step(*op, self.expr(a)?)),
            ExprForm::Comma(a, b) => Ok(ExprForm::Comma(self.expr(a)?, self.expr(b)?)),
            ExprForm::Input(kind, name) => Ok(ExprForm::Input(*kind, name.copy(self.alloc)?)),
            ExprForm::HostCall(kind, name, args) => {
                Ok(ExprForm::HostCall(*kind, name.copy(self.alloc)?, self.exprs(args.as_slice())?))
            }
        }
    }

    pub fn maybe(&self, e: &Option<Expr>) -> Result<Option<Expr>, NoMemory>
        ensures { IfOk result (λ copy. copy ≡ option_map (spec.expr self.now.first) e.now) }
    {
        match e {
            None => Ok(None),
            Some(e) => Ok(Some(self.expr(e)?)),
        }
    }
}
