//! Statements and functions copied for a script of their own.

ghost use Rattle.std.specs.Prelude.{◌≡◌, map, IfOk};
ghost use Rattle.std.specs.Option.{option_map};
ghost use Rattle.lone_functions.specs.Anew as spec;

use crate::anew::{Anew, START};
use js_tree::{
    Case, Cases, Catch, Declarator, Declarators, Finally, ForStart, ForTarget, Func, Name, Names,
    Stmt, StmtForm, Stmts,
};
use js_value::{Box, NoMemory, Seq};

impl Anew {
    fn declarator(&self, d: &Declarator) -> Result<Declarator, NoMemory>
        ensures { IfOk result (λ copy. copy ≡ spec.declarator self.now.first d.now) }
    {
        Ok(Declarator {
            at: START,
            name: d.name.copy(self.alloc)?,
            init: self.maybe(&d.init)?,
        })
    }

    fn declarators(&self, all: &[Declarator]) -> Result<Declarators, NoMemory>
        ensures { IfOk result (λ copies. copies ≡ map (spec.declarator self.now.first) all.now) }
    {
        let mut copies = Seq::new(self.alloc);
        for d in all {
            copies.push(self.declarator(d)?)?;
        }
        Ok(copies)
    }

    fn for_start(&self, from: &ForStart) -> Result<ForStart, NoMemory>
        ensures { IfOk result (λ copy. copy ≡ spec.for_start self.now.first from.now) }
    {
        match from {
            ForStart::Nothing => Ok(ForStart::Nothing),
            ForStart::Expr(e) => Ok(ForStart::Expr(self.expr(e)?)),
            ForStart::Var(all) => Ok(ForStart::Var(self.declarators(all.as_slice())?)),
        }
    }

    fn for_target(&self, to: &ForTarget) -> Result<ForTarget, NoMemory>
        ensures { IfOk result (λ copy. copy ≡ spec.for_target self.now.first to.now) }
    {
        match to {
            ForTarget::Expr(e) => Ok(ForTarget::Expr(self.expr(e)?)),
            ForTarget::Var(_, name) => Ok(ForTarget::Var(START, name.copy(self.alloc)?)),
        }
    }

    fn name(&self, name: &Name) -> Result<Name, NoMemory>
        ensures { IfOk result (λ copy. copy ≡ spec.name self.now.first name.now) }
    {
        Ok(Name {
            at: START,
            text: name.text.copy(self.alloc)?,
        })
    }

    fn maybe_name(&self, name: &Option<Name>) -> Result<Option<Name>, NoMemory>
        ensures { IfOk result (λ copy. copy ≡ option_map (spec.name self.now.first) name.now) }
    {
        match name {
            None => Ok(None),
            Some(name) => Ok(Some(self.name(name)?)),
        }
    }

    fn names(&self, all: &[Name]) -> Result<Names, NoMemory>
        ensures { IfOk result (λ copies. copies ≡ map (spec.name self.now.first) all.now) }
    {
        let mut copies = Seq::new(self.alloc);
        for name in all {
            copies.push(self.name(name)?)?;
        }
        Ok(copies)
    }
}

impl Anew {
    #[cycle(statement_copies)]
    fn stmts(&self, all: &[Stmt]) -> Result<Stmts, NoMemory>
        ensures { IfOk result (λ copies. copies ≡ map (spec.stmt self.now.first) all.now) }
    {
        let mut copies = Seq::new(self.alloc);
        for s in all {
            copies.push(self.stmt(s)?)?;
        }
        Ok(copies)
    }

    #[cycle(statement_copies)]
    fn cases(&self, all: &[Case]) -> Result<Cases, NoMemory>
        ensures { IfOk result (λ copies. copies ≡ map (spec.case self.now.first) all.now) }
    {
        let mut copies = Seq::new(self.alloc);
        for c in all {
            copies.push(self.case(c)?)?;
        }
        Ok(copies)
    }

    #[cycle(statement_copies)]
    fn case(&self, c: &Case) -> Result<Case, NoMemory>
        ensures { IfOk result (λ copy. copy ≡ spec.case self.now.first c.now) }
    {
        Ok(Case {
            test: self.maybe(&c.test)?,
            body: self.stmts(c.body.as_slice())?,
        })
    }

    #[cycle(statement_copies)]
    fn handler(&self, c: &Option<Box<Catch>>) -> Result<Option<Box<Catch>>, NoMemory>
        ensures { IfOk result (λ copy. copy ≡ option_map (spec.catch self.now.first) c.now) }
    {
        match c {
            None => Ok(None),
            Some(c) => Ok(Some(Box::new(self.alloc, self.catch(c)?)?)),
        }
    }

    #[cycle(statement_copies)]
    fn catch(&self, c: &Catch) -> Result<Catch, NoMemory>
        ensures { IfOk result (λ copy. copy ≡ spec.catch self.now.first c.now) }
    {
        Ok(Catch {
            at: START,
            name: c.name.copy(self.alloc)?,
            body: self.stmts(c.body.as_slice())?,
        })
    }

    #[cycle(statement_copies)]
    fn last(&self, f: &Option<Box<Finally>>) -> Result<Option<Box<Finally>>, NoMemory>
        ensures { IfOk result (λ copy. copy ≡ option_map (spec.final self.now.first) f.now) }
    {
        match f {
            None => Ok(None),
            Some(f) => Ok(Some(Box::new(self.alloc, self.finally(f)?)?)),
        }
    }

    #[cycle(statement_copies)]
    fn finally(&self, f: &Finally) -> Result<Finally, NoMemory>
        ensures { IfOk result (λ copy. copy ≡ spec.final self.now.first f.now) }
    {
        Ok(Finally {
            body: self.stmts(f.body.as_slice())?,
        })
    }

    #[cycle(statement_copies)]
    fn other(&self, s: &Option<Stmt>) -> Result<Option<Stmt>, NoMemory>
        ensures { IfOk result (λ copy. copy ≡ option_map (spec.stmt self.now.first) s.now) }
    {
        match s {
            None => Ok(None),
            Some(s) => Ok(Some(self.stmt(s)?)),
        }
    }

    #[cycle(statement_copies)]
    fn stmt(&self, s: &Stmt) -> Result<Stmt, NoMemory>
        ensures { IfOk result (λ copy. copy ≡ spec.stmt self.now.first s.now) }
    {
        Ok(Stmt {
            at: START,
            form: Box::new(self.alloc, self.stmt_form(&s.form)?)?,
        })
    }

    #[cycle(statement_copies)]
    fn stmt_form(&self, form: &StmtForm) -> Result<StmtForm, NoMemory>
        ensures { IfOk result (λ copy. copy ≡ spec.stmt_form self.now.first form.now) }
    {
        match form {
            StmtForm::Var(all) => Ok(StmtForm::Var(self.declarators(all.as_slice())?)),
            StmtForm::FuncDecl(f) => Ok(StmtForm::FuncDecl(self.number(*f))),
            StmtForm::Eval(e) => Ok(StmtForm::Eval(self.expr(e)?)),
            StmtForm::Block(body) => Ok(StmtForm::Block(self.stmts(body.as_slice())?)),
            StmtForm::Empty => Ok(StmtForm::Empty),
            StmtForm::If(test, then, other) => {
                Ok(StmtForm::If(self.expr(test)?, self.stmt(then)?, self.other(other)?))
            }
            StmtForm::DoWhile(body, test) => Ok(StmtForm::DoWhile(
                self.stmt(body)?,
                self.expr(test)?,
            )),
            StmtForm::While(test, body) => Ok(StmtForm::While(self.expr(test)?, self.stmt(body)?)),
            StmtForm::For(from, test, step, body) => Ok(StmtForm::For(
                Box::new(self.alloc, self.for_start(from)?)?,
                Box::new(self.alloc, self.maybe(test)?)?,
                Box::new(self.alloc, self.maybe(step)?)?,
                self.stmt(body)?,
            )),
            StmtForm::ForIn(to, object, body) => {
                Ok(StmtForm::ForIn(
                    Box::new(self.alloc, self.for_target(to)?)?,
                    self.expr(object)?,
                    self.stmt(body)?,
                ))
            }
            StmtForm::Continue => Ok(StmtForm::Continue),
            StmtForm::Break => Ok(StmtForm::Break),
            StmtForm::Return(e) => Ok(StmtForm::Return(self.maybe(e)?)),
            StmtForm::Switch(e, cases) => {
                Ok(StmtForm::Switch(self.expr(e)?, self.cases(cases.as_slice())?))
            }
            StmtForm::Throw(e) => Ok(StmtForm::Throw(self.expr(e)?)),
            StmtForm::Try(body, handler, last) => {
                Ok(StmtForm::Try(
                    self.stmts(body.as_slice())?,
                    self.handler(handler)?,
                    self.last(last)?,
                ))
            }
        }
    }
}

impl Anew {
    /// A copy of a function with its name.
    pub fn func(&self, f: &Func) -> Result<Func, NoMemory>
        ensures { IfOk result (λ copy. copy ≡ spec.func self.now.first f.now) }
    {
        Ok(Func {
            at: START,
            name: self.maybe_name(&f.name)?,
            params: self.names(f.params.as_slice())?,
            directive: f.directive,
            body: self.stmts(f.body.as_slice())?,
        })
    }

    /// A copy of a function without its name.
    pub fn nameless(&self, f: &Func) -> Result<Func, NoMemory>
        ensures { IfOk result (λ copy. copy ≡ spec.nameless self.now.first f.now) }
    {
        Ok(Func {
            at: START,
            name: None,
            params: self.names(f.params.as_slice())?,
            directive: f.directive,
            body: self.stmts(f.body.as_slice())?,
        })
    }
}
