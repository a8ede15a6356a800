//! Statements (12), functions (13) and scripts (14) whose parts are such as reading gives.

ghost use Rattle.std.specs.Prelude.{◌≡◌, ◌&&◌, ◌||◌, count_by, nat_le, is_none, is_some, slice_get};
ghost use Rattle.std.specs.List.{list_all};
ghost use Rattle.js_tree.specs.declared.statement.Case.{out-Case};
ghost use Rattle.js_grammar.specs.Readable as spec;
ghost use Rattle.readable_trees.specs.Ends as ends;
ghost use Rattle.js_grammar.specs.ReadableExpressions as expressions;
ghost use Rattle.js_grammar.specs.ReadableWords as words;

use crate::expressions::Code;
use crate::words::is_identifier;
use js_tree::{
    Case, Catch, Declarator, Expr, Finally, ForStart, ForTarget, Func, Name, Script, Stmt, StmtForm,
};
use js_value::{Box, FuncNo};

impl Code<'_> {
    /// Whether a function declaration has a name (13).
    fn has_name(&self, f: FuncNo) -> bool
        ensures { result ≡ spec.has_name (slice_get self.now.functions.now f.0) }
    {
        match self.functions.get(f.0) {
            None => false,
            Some(f) => f.name.is_some(),
        }
    }

    fn is_declarator(&self, d: &Declarator) -> bool
        ensures { result ≡ spec.is_declarator self.now.functions.now d.now }
    {
        is_identifier(&d.name) && self.is_maybe(&d.init)
    }

    fn all_declare(&self, all: &[Declarator]) -> bool
        ensures { result ≡ list_all (spec.is_declarator self.now.functions.now) all.now }
    {
        all.iter().all(|d| self.is_declarator(d))
    }

    /// Whether these are one declarator or more (12.2).
    #[tactic(auto, using(crate::proofs::Forms::declarators))]
    fn are_declarators(&self, all: &[Declarator]) -> bool
        ensures { result ≡ spec.are_declarators self.now.functions.now all.now }
    {
        !all.is_empty() && self.all_declare(all)
    }

    fn is_start(&self, from: &ForStart) -> bool
        ensures { result ≡ spec.is_start self.now.functions.now from.now }
    {
        match from {
            ForStart::Nothing => true,
            ForStart::Expr(e) => self.is_expr(e),
            ForStart::Var(all) => self.are_declarators(all.as_slice()),
        }
    }

    fn is_for_target(&self, to: &ForTarget) -> bool
        ensures { result ≡ spec.is_for_target self.now.functions.now to.now }
    {
        match to {
            ForTarget::Expr(e) => self.is_expr(e) && self.is_target(e),
            ForTarget::Var(_, name) => is_identifier(name),
        }
    }

    /// The header of a `for` (12.6.3).
    fn is_header(&self, from: &ForStart, test: &Option<Expr>, step: &Option<Expr>) -> bool
        ensures { result ≡ (spec.is_start self.now.functions.now from.now && expressions.is_maybe self.now.functions.now test.now && expressions.is_maybe self.now.functions.now step.now) }
    {
        self.is_start(from) && self.is_maybe(test) && self.is_maybe(step)
    }
}

/// How many clauses are the default (12.11).
fn defaults(all: &[Case]) -> usize
    ensures { result ≡ count_by (λ c. is_none (out-Case c).test) all.now }
{
    all.iter().filter(|c| c.test.is_none()).count()
}

/// Whether a `try` has a handler or a last part (12.14).
fn has_end(handler: &Option<Box<Catch>>, last: &Option<Box<Finally>>) -> bool
    ensures { result ≡ (is_some handler.now || is_some last.now) }
{
    handler.is_some() || last.is_some()
}

impl Code<'_> {
    fn is_declaration(&self, s: &Stmt) -> bool
        ensures { result ≡ (spec.in_stmt self.now.functions.now s.now).is_declaration }
    {
        matches!(&*s.form, StmtForm::FuncDecl(_))
    }

    /// Whether a statement ends in an `if` without `else` (12.5).
    #[cycle(ends_in_if)]
    fn ends_in_if(&self, s: &Stmt) -> bool
        ensures { result ≡ (spec.in_stmt self.now.functions.now s.now).ends_in_if }
    {
        self.form_ends_in_if(&s.form)
    }

    #[cycle(ends_in_if)]
    fn form_ends_in_if(&self, form: &StmtForm) -> bool
        ensures { result ≡ (spec.in_stmt_form self.now.functions.now form.now).ends_in_if }
    {
        match form {
            StmtForm::If(_, _, None) => true,
            StmtForm::If(_, _, Some(other)) => self.ends_in_if(other),
            StmtForm::While(_, body) | StmtForm::For(_, _, _, body) | StmtForm::ForIn(_, _, body) =>
                self.ends_in_if(body),
            _ => false,
        }
    }
}

impl Code<'_> {
    #[cycle(is_stmt)]
    fn is_part(&self, s: &Stmt) -> bool
        ensures { result ≡ spec.is_part (spec.in_stmt self.now.functions.now s.now) }
    {
        self.is_stmt(s) && !self.is_declaration(s)
    }

    #[cycle(is_stmt)]
    fn are_parts(&self, all: &[Stmt]) -> bool
        ensures { result ≡ list_all (λ s. spec.is_part (spec.in_stmt self.now.functions.now s)) all.now }
    {
        for s in all {
            if !self.is_part(s) {
                return false;
            }
        }
        true
    }

    #[cycle(is_stmt)]
    fn is_case(&self, c: &Case) -> bool
        ensures { result ≡ (spec.in_case self.now.functions.now c.now).readable }
    {
        self.is_maybe(&c.test) && self.are_parts(c.body.as_slice())
    }

    #[cycle(is_stmt)]
    fn are_cases(&self, all: &[Case]) -> bool
        ensures { result ≡ list_all (λ c. (spec.in_case self.now.functions.now c).readable) all.now }
    {
        for c in all {
            if !self.is_case(c) {
                return false;
            }
        }
        true
    }

    #[cycle(is_stmt)]
    fn are_clauses(&self, all: &[Case]) -> bool
        ensures { result ≡ (list_all (λ c. (spec.in_case self.now.functions.now c).readable) all.now && nat_le (count_by (λ c. is_none (out-Case c).test) all.now) 1) }
    {
        self.are_cases(all) && defaults(all) <= 1
    }

    #[cycle(is_stmt)]
    fn is_catch(&self, c: &Catch) -> bool
        ensures { result ≡ spec.in_catch self.now.functions.now c.now }
    {
        is_identifier(&c.name) && self.are_parts(c.body.as_slice())
    }

    #[cycle(is_stmt)]
    fn is_finally(&self, f: &Finally) -> bool
        ensures { result ≡ spec.in_finally self.now.functions.now f.now }
    {
        self.are_parts(f.body.as_slice())
    }

    #[cycle(is_stmt)]
    fn is_handler(&self, handler: &Option<Box<Catch>>) -> bool
        ensures { result ≡ ends.in_handler self.now.functions.now handler.now }
    {
        match handler {
            None => true,
            Some(handler) => self.is_catch(handler),
        }
    }

    #[cycle(is_stmt)]
    fn is_last(&self, last: &Option<Box<Finally>>) -> bool
        ensures { result ≡ ends.in_last self.now.functions.now last.now }
    {
        match last {
            None => true,
            Some(last) => self.is_finally(last),
        }
    }

    #[cycle(is_stmt)]
    fn is_stmt(&self, s: &Stmt) -> bool
        ensures { result ≡ (spec.in_stmt self.now.functions.now s.now).readable }
    {
        self.is_stmt_form(&s.form)
    }

    #[cycle(is_stmt)]
    fn is_stmt_form(&self, form: &StmtForm) -> bool
        ensures { result ≡ (spec.in_stmt_form self.now.functions.now form.now).readable }
    {
        match form {
            StmtForm::Empty | StmtForm::Continue | StmtForm::Break => true,
            StmtForm::Var(all) => self.are_declarators(all.as_slice()),
            StmtForm::FuncDecl(f) => self.has_name(*f),
            StmtForm::Eval(e) | StmtForm::Throw(e) => self.is_expr(e),
            StmtForm::Block(body) => self.are_parts(body.as_slice()),
            StmtForm::If(test, then, None) => self.is_expr(test) && self.is_part(then),
            StmtForm::If(test, then, Some(other)) => {
                self.is_expr(test)
                    && self.is_part(then)
                    && !self.ends_in_if(then)
                    && self.is_part(other)
            }
            StmtForm::DoWhile(body, test) => self.is_part(body) && self.is_expr(test),
            StmtForm::While(test, body) => self.is_expr(test) && self.is_part(body),
            StmtForm::For(from, test, step, body) => {
                self.is_header(from, test, step) && self.is_part(body)
            }
            StmtForm::ForIn(to, object, body) => {
                self.is_for_target(to) && self.is_expr(object) && self.is_part(body)
            }
            StmtForm::Return(e) => self.is_maybe(e),
            StmtForm::Switch(e, cases) => self.is_expr(e) && self.are_clauses(cases.as_slice()),
            StmtForm::Try(body, handler, last) => {
                if !has_end(handler, last) {
                    return false;
                }
                self.are_parts(body.as_slice()) && self.is_handler(handler) && self.is_last(last)
            }
        }
    }

    fn are_elements(&self, all: &[Stmt]) -> bool
        ensures { result ≡ spec.are_elements self.now.functions.now all.now }
    {
        all.iter().all(|s| self.is_stmt(s))
    }
}

fn are_parameters(all: &[Name]) -> bool
    ensures { result ≡ list_all (λ (p : Name). words.is_identifier p.text) all.now }
{
    all.iter().all(|p| is_identifier(&p.text))
}

impl Code<'_> {
    fn is_name_or_none(&self, name: &Option<Name>) -> bool
        ensures { result ≡ spec.is_name_or_none self.now.functions.now name.now }
    {
        match name {
            None => true,
            Some(name) => is_identifier(&name.text),
        }
    }

    fn is_function(&self, f: &Func) -> bool
        ensures { result ≡ spec.is_function self.now.functions.now f.now }
    {
        !f.directive
            && self.is_name_or_none(&f.name)
            && are_parameters(f.params.as_slice())
            && self.are_elements(f.body.as_slice())
    }

    fn are_functions(&self, all: &[Func]) -> bool
        ensures { result ≡ list_all (spec.is_function self.now.functions.now) all.now }
    {
        all.iter().all(|f| self.is_function(f))
    }
}

/// Whether the parts of a script are such as reading gives, each by itself.
#[tactic(auto, unfolding(js_grammar::specs::Readable::are_parts_readable))]
pub fn are_parts_readable(script: &Script) -> bool
    ensures { result ≡ spec.are_parts_readable script.now }
{
    let code = Code {
        functions: script.funcs.as_slice(),
    };
    !script.directive
        && code.are_elements(script.body.as_slice())
        && code.are_functions(script.funcs.as_slice())
}
