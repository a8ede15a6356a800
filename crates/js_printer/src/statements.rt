//! Statements (12) and the bodies of functions (13).

ghost use Rattle.std.specs.Prelude.{Bool, List, codes, ◌≡◌, [], OnOk, true, false};
ghost use Rattle.std.specs.List.{flat_map};
ghost use Rattle.js_value.specs.declared.place.FuncNo.{FuncNo as Number};
ghost use Rattle.script_text.specs.Expressions.{expr, maybe_expr};
ghost use Rattle.script_text.specs.Statements as spec;
ghost use Rattle.token_sheets.specs.Sheets.{put_all};
ghost use Rattle.script_text.specs.Pieces.{Piece, word, separated};
ghost use Rattle.script_text.specs.Printing.{bound_names, function_to};
ghost use Rattle.js_printer.specs.Writes.{Writes};

use crate::expressions::Printer;
use crate::leftmost::starts;
use js_tree::{
    Case, Catch, Declarator, Expr, Finally, ForStart, ForTarget, Func, Name, Stmt, StmtForm,
};
use js_value::{FuncNo, NoMemory, Text};
use script_text::Gap;
use std::alloc::Global;
use token_sheets::Sheet;

/// Whether a statement is a block (12.1).
fn is_block(s: &Stmt) -> bool
    ensures { (function : Bool → Number → List Piece) → result ≡ (spec.shown function s.now).is_block }
{
    match &*s.form {
        StmtForm::Block(_) => true,
        _ => false,
    }
}

/// Whether the last token of a statement is `}`, and not `;`.
#[cycle(ends_in_brace)]
#[tactic(auto, using(crate::proofs::StatementForms::ends))]
fn ends_in_brace(s: &Stmt) -> bool
    ensures { (function : Bool → Number → List Piece) → result ≡ (spec.shown function s.now).ends_in_brace }
{
    form_ends_in_brace(&s.form)
}

#[cycle(ends_in_brace)]
#[tactic(auto, using(crate::proofs::StatementForms::ends))]
fn form_ends_in_brace(form: &StmtForm) -> bool
    ensures { (function : Bool → Number → List Piece) → result ≡ (spec.shown_form function form.now).ends_in_brace }
{
    match form {
        StmtForm::FuncDecl(_)
        | StmtForm::Block(_)
        | StmtForm::Switch(_, _)
        | StmtForm::Try(_, _, _) => true,
        StmtForm::If(_, a, other) => match other {
            None => ends_in_brace(a),
            Some(b) => ends_in_brace(b),
        },
        StmtForm::While(_, body) => ends_in_brace(body),
        StmtForm::For(_, _, _, body) => ends_in_brace(body),
        StmtForm::ForIn(_, _, body) => ends_in_brace(body),
        _ => false,
    }
}

fn begin_braces(page: &mut Sheet) -> Result<(), NoMemory>
    ensures { OnOk result (page.new ≡ put_all spec.begin_braces page.old) }
{
    page.word(b"{")?;
    page.open()?;
    page.end_line()
}

fn end_braces(page: &mut Sheet) -> Result<(), NoMemory>
    ensures { OnOk result (page.new ≡ put_all spec.end_braces page.old) }
{
    page.close();
    page.word(b"}")
}

/// `{}`
fn empty_braces(page: &mut Sheet) -> Result<(), NoMemory>
    ensures { OnOk result (page.new ≡ put_all (spec.in_braces true []) page.old) }
{
    page.opening(b"{")?;
    page.closing(b"}")
}

fn use_strict(page: &mut Sheet) -> Result<(), NoMemory>
    ensures { OnOk result (page.new ≡ put_all (spec.directive true) page.old) }
{
    page.word(b"\"use strict\"")?;
    page.closing(b";")?;
    page.end_line()
}

/// The line that the directive of strict code stands on (14.1).
fn directive(page: &mut Sheet, is_directive: bool) -> Result<(), NoMemory>
    ensures { OnOk result (page.new ≡ put_all (spec.directive is_directive) page.old) }
{
    if is_directive {
        use_strict(page)
    } else {
        Ok(())
    }
}

/// Ends the line, unless this holds.
fn line_end_unless(page: &mut Sheet, holds: bool) -> Result<(), NoMemory>
    ensures { OnOk result (page.new ≡ put_all (spec.line_end_unless holds) page.old) }
{
    if holds { Ok(()) } else { page.end_line() }
}

/// `else` (12.5).
#[tactic(auto, using(token_sheets::proofs::Putting::appended), unfolding(script_text::specs::Statements::else_word))]
fn else_word(page: &mut Sheet, is_block: bool) -> Result<(), NoMemory>
    ensures { OnOk result (page.new ≡ put_all (spec.else_word is_block) page.old) }
{
    line_end_unless(page, is_block)?;
    page.word(b"else")
}

/// `for (`
fn for_word(page: &mut Sheet) -> Result<(), NoMemory>
    ensures { OnOk result (page.new ≡ put_all spec.for_word page.old) }
{
    page.word(b"for")?;
    page.opening(b"(")
}

/// `catch (name)`
#[tactic(auto, unfolding(script_text::specs::Statements::catch_head))]
fn catch_head(alloc: Global, page: &mut Sheet, text: &Text) -> Result<(), NoMemory>
    ensures { OnOk result (page.new ≡ put_all (spec.catch_head text.now) page.old) }
{
    page.word(b"catch")?;
    page.opening(b"(")?;
    page.named(alloc, text, Gap::Loose)?;
    page.closing(b")")
}

/// The parameters of a function in their parentheses (13).
#[tactic(auto, using(token_sheets::proofs::Putting::appended))]
fn parameters(alloc: Global, page: &mut Sheet, all: &[Name]) -> Result<(), NoMemory>
    ensures { OnOk result (page.new ≡ put_all (spec.parameters all.now) page.old) }
{
    page.opening(b"(")?;
    names(alloc, page, all)?;
    page.closing(b")")
}

#[tactic(auto, using(token_sheets::proofs::Putting::appended))]
fn names(alloc: Global, page: &mut Sheet, all: &[Name]) -> Result<(), NoMemory>
    ensures { OnOk result (page.new ≡ put_all (separated spec.parameter all.now) page.old) }
{
    if let [first, more @ ..] = all {
        page.named(alloc, &first.text, Gap::Loose)?;
        for x in more {
            page.closing(b",")?;
            page.named(alloc, &x.text, Gap::Loose)?;
        }
    }
    Ok(())
}

/// The own name of a function, where it is wanted.
fn own_name(
    alloc: Global,
    page: &mut Sheet,
    own: &Option<Name>,
    named: bool,
) -> Result<(), NoMemory>
    ensures { OnOk result (page.new ≡ put_all (spec.own_name named own.now) page.old) }
{
    match own {
        Some(own) if named => page.named(alloc, &own.text, Gap::Tight),
        _ => Ok(()),
    }
}

impl<F: Fn(Global, &[Func], &mut Sheet, usize, FuncNo, bool) -> Result<(), NoMemory>> Printer<
    '_,
    F,
> {
    fn maybe_expr(&self, page: &mut Sheet, e: &Option<Expr>) -> Result<(), NoMemory>
        requires { Writes self.now.funcs.now self.now.depth (F.pre self.now.function) (F.post self.now.function) }
        ensures { OnOk result (page.new ≡ put_all (maybe_expr (function_to self.now.depth self.now.funcs.now) e.now) page.old) }
    {
        match e {
            None => Ok(()),
            Some(e) => self.expr(page, e, 1, true),
        }
    }

    /// A word with an expression in parentheses.
    #[tactic(auto, using(token_sheets::proofs::Putting::appended), unfolding(script_text::specs::Statements::head))]
    fn head(&self, page: &mut Sheet, first: &[u8], test: &Expr) -> Result<(), NoMemory>
        requires { Writes self.now.funcs.now self.now.depth (F.pre self.now.function) (F.post self.now.function) }
        ensures { OnOk result (page.new ≡ put_all (spec.head (function_to self.now.depth self.now.funcs.now) first.now test.now) page.old) }
    {
        page.word(first)?;
        page.opening(b"(")?;
        self.expr(page, test, 1, true)?;
        page.closing(b")")
    }

    fn initialiser(
        &self,
        page: &mut Sheet,
        init: &Option<Expr>,
        allows_in: bool,
    ) -> Result<(), NoMemory>
        requires { Writes self.now.funcs.now self.now.depth (F.pre self.now.function) (F.post self.now.function) }
        ensures { OnOk result (page.new ≡ put_all (spec.initialiser (function_to self.now.depth self.now.funcs.now) allows_in init.now) page.old) }
    {
        let Some(e) = init else {
            return Ok(());
        };
        page.word(b"=")?;
        self.expr(page, e, 2, allows_in)
    }

    #[tactic(auto, using(token_sheets::proofs::Putting::appended))]
    fn declarator(&self, page: &mut Sheet, d: &Declarator, allows_in: bool) -> Result<(), NoMemory>
        requires { Writes self.now.funcs.now self.now.depth (F.pre self.now.function) (F.post self.now.function) }
        ensures { OnOk result (page.new ≡ put_all (spec.declarator (function_to self.now.depth self.now.funcs.now) allows_in d.now) page.old) }
    {
        page.named(self.alloc, &d.name, Gap::Loose)?;
        self.initialiser(page, &d.init, allows_in)
    }

    #[tactic(auto, using(token_sheets::proofs::Putting::appended))]
    fn declarator_list(
        &self,
        page: &mut Sheet,
        all: &[Declarator],
        allows_in: bool,
    ) -> Result<(), NoMemory>
        requires { Writes self.now.funcs.now self.now.depth (F.pre self.now.function) (F.post self.now.function) }
        ensures { OnOk result (page.new ≡ put_all (separated (spec.declarator (function_to self.now.depth self.now.funcs.now) allows_in) all.now) page.old) }
    {
        if let [first, more @ ..] = all {
            self.declarator(page, first, allows_in)?;
            for d in more {
                page.closing(b",")?;
                self.declarator(page, d, allows_in)?;
            }
        }
        Ok(())
    }

    /// `var` with its declarators (12.2).
    #[tactic(auto, using(token_sheets::proofs::Putting::appended))]
    fn declarators(
        &self,
        page: &mut Sheet,
        all: &[Declarator],
        allows_in: bool,
    ) -> Result<(), NoMemory>
        requires { Writes self.now.funcs.now self.now.depth (F.pre self.now.function) (F.post self.now.function) }
        ensures { OnOk result (page.new ≡ put_all (spec.declarators (function_to self.now.depth self.now.funcs.now) allows_in all.now) page.old) }
    {
        page.word(b"var")?;
        self.declarator_list(page, all, allows_in)
    }

    /// The expression of an expression statement (12.4).
    fn evaluation(&self, page: &mut Sheet, e: &Expr) -> Result<(), NoMemory>
        requires { Writes self.now.funcs.now self.now.depth (F.pre self.now.function) (F.post self.now.function) }
        ensures { OnOk result (page.new ≡ put_all (spec.evaluation (function_to self.now.depth self.now.funcs.now) e.now) page.old) }
    {
        self.grouped(page, &e.form, starts(&e.form), true)
    }

    /// The first part of a `for` header, where `in` is no operator (12.6.3).
    fn for_start(&self, page: &mut Sheet, from: &ForStart) -> Result<(), NoMemory>
        requires { Writes self.now.funcs.now self.now.depth (F.pre self.now.function) (F.post self.now.function) }
        ensures { OnOk result (page.new ≡ put_all (spec.for_start (function_to self.now.depth self.now.funcs.now) from.now) page.old) }
    {
        match from {
            ForStart::Nothing => Ok(()),
            ForStart::Expr(e) => self.expr(page, e, 1, false),
            ForStart::Var(all) => self.declarators(page, all.as_slice(), false),
        }
    }

    /// What a `for`-`in` assigns to (12.6.4).
    fn for_target(&self, page: &mut Sheet, to: &ForTarget) -> Result<(), NoMemory>
        requires { Writes self.now.funcs.now self.now.depth (F.pre self.now.function) (F.post self.now.function) }
        ensures { OnOk result (page.new ≡ put_all (spec.for_target (function_to self.now.depth self.now.funcs.now) to.now) page.old) }
    {
        match to {
            ForTarget::Expr(e) => self.expr(page, e, 16, false),
            ForTarget::Var(_, text) => {
                page.word(b"var")?;
                page.named(self.alloc, text, Gap::Loose)
            }
        }
    }

    /// `; test; step)`
    #[tactic(auto, using(token_sheets::proofs::Putting::appended), unfolding(script_text::specs::Statements::for_rest))]
    fn for_rest(
        &self,
        page: &mut Sheet,
        test: &Option<Expr>,
        step: &Option<Expr>,
    ) -> Result<(), NoMemory>
        requires { Writes self.now.funcs.now self.now.depth (F.pre self.now.function) (F.post self.now.function) }
        ensures { OnOk result (page.new ≡ put_all (spec.for_rest (function_to self.now.depth self.now.funcs.now) test.now step.now) page.old) }
    {
        page.closing(b";")?;
        self.maybe_expr(page, test)?;
        page.closing(b";")?;
        self.maybe_expr(page, step)?;
        page.closing(b")")
    }

    #[tactic(auto, using(token_sheets::proofs::Putting::appended), unfolding(script_text::specs::Statements::for_head))]
    fn for_head(
        &self,
        page: &mut Sheet,
        from: &ForStart,
        test: &Option<Expr>,
        step: &Option<Expr>,
    ) -> Result<(), NoMemory>
        requires { Writes self.now.funcs.now self.now.depth (F.pre self.now.function) (F.post self.now.function) }
        ensures { OnOk result (page.new ≡ put_all (spec.for_head (function_to self.now.depth self.now.funcs.now) from.now test.now step.now) page.old) }
    {
        for_word(page)?;
        self.for_start(page, from)?;
        self.for_rest(page, test, step)
    }

    /// `in object)`
    #[tactic(auto, using(token_sheets::proofs::Putting::appended), unfolding(script_text::specs::Statements::in_rest))]
    fn in_rest(&self, page: &mut Sheet, object: &Expr) -> Result<(), NoMemory>
        requires { Writes self.now.funcs.now self.now.depth (F.pre self.now.function) (F.post self.now.function) }
        ensures { OnOk result (page.new ≡ put_all (spec.in_rest (function_to self.now.depth self.now.funcs.now) object.now) page.old) }
    {
        page.word(b"in")?;
        self.expr(page, object, 1, true)?;
        page.closing(b")")
    }

    #[tactic(auto, using(token_sheets::proofs::Putting::appended), unfolding(script_text::specs::Statements::for_in_head))]
    fn for_in_head(&self, page: &mut Sheet, to: &ForTarget, object: &Expr) -> Result<(), NoMemory>
        requires { Writes self.now.funcs.now self.now.depth (F.pre self.now.function) (F.post self.now.function) }
        ensures { OnOk result (page.new ≡ put_all (spec.for_in_head (function_to self.now.depth self.now.funcs.now) to.now object.now) page.old) }
    {
        for_word(page)?;
        self.for_target(page, to)?;
        self.in_rest(page, object)
    }

    /// What stands behind the body of a `do` (12.6.1).
    #[tactic(auto, using(token_sheets::proofs::Putting::appended), unfolding(script_text::specs::Statements::end_of_do))]
    fn end_of_do(&self, page: &mut Sheet, ends_in_brace: bool, test: &Expr) -> Result<(), NoMemory>
        requires { Writes self.now.funcs.now self.now.depth (F.pre self.now.function) (F.post self.now.function) }
        ensures { OnOk result (page.new ≡ put_all (spec.end_of_do (function_to self.now.depth self.now.funcs.now) ends_in_brace test.now) page.old) }
    {
        line_end_unless(page, ends_in_brace)?;
        self.head(page, b"while", test)
    }

    fn label(&self, page: &mut Sheet, test: &Option<Expr>) -> Result<(), NoMemory>
        requires { Writes self.now.funcs.now self.now.depth (F.pre self.now.function) (F.post self.now.function) }
        ensures { OnOk result (page.new ≡ put_all (spec.label (function_to self.now.depth self.now.funcs.now) test.now) page.old) }
    {
        match test {
            None => page.word(b"default"),
            Some(e) => {
                page.word(b"case")?;
                self.expr(page, e, 1, true)
            }
        }
    }

    /// `case test:` and `default:` (12.11).
    #[tactic(auto, using(token_sheets::proofs::Putting::appended))]
    fn clause_start(&self, page: &mut Sheet, test: &Option<Expr>) -> Result<(), NoMemory>
        requires { Writes self.now.funcs.now self.now.depth (F.pre self.now.function) (F.post self.now.function) }
        ensures { OnOk result (page.new ≡ put_all (spec.clause_start (spec.label (function_to self.now.depth self.now.funcs.now) test.now)) page.old) }
    {
        self.label(page, test)?;
        page.closing(b":")?;
        page.open()?;
        page.end_line()
    }

    /// A statement without the end of its last line.
    #[cycle(statement)]
    #[tactic(auto, using(token_sheets::proofs::Putting::appended))]
    fn statement(&self, page: &mut Sheet, s: &Stmt) -> Result<(), NoMemory>
        requires { Writes self.now.funcs.now self.now.depth (F.pre self.now.function) (F.post self.now.function) }
        ensures { OnOk result (page.new ≡ put_all (spec.shown (function_to self.now.depth self.now.funcs.now) s.now).pieces page.old) }
    {
        self.statement_form(page, &s.form)
    }

    #[cycle(statement)]
    #[tactic(auto, using(token_sheets::proofs::Putting::appended))]
    fn statement_form(&self, page: &mut Sheet, form: &StmtForm) -> Result<(), NoMemory>
        requires { Writes self.now.funcs.now self.now.depth (F.pre self.now.function) (F.post self.now.function) }
        ensures { OnOk result (page.new ≡ put_all (spec.shown_form (function_to self.now.depth self.now.funcs.now) form.now).pieces page.old) }
    {
        match form {
            StmtForm::Var(all) => {
                self.declarators(page, all.as_slice(), true)?;
                page.closing(b";")
            }
            StmtForm::FuncDecl(f) => {
                page.word(b"function")?;
                self.function(page, *f, true)
            }
            StmtForm::Eval(e) => {
                self.evaluation(page, e)?;
                page.closing(b";")
            }
            StmtForm::Block(body) => self.block(page, body.as_slice()),
            StmtForm::Empty => page.closing(b";"),
            StmtForm::If(test, a, other) => {
                self.first_part(page, a, test)?;
                match other {
                    None => Ok(()),
                    Some(b) => self.other_part(page, b, is_block(a)),
                }
            }
            StmtForm::DoWhile(body, test) => {
                self.do_part(page, body)?;
                self.end_of_do(page, ends_in_brace(body), test)?;
                page.closing(b";")
            }
            StmtForm::While(test, body) => {
                self.head(page, b"while", test)?;
                self.statement(page, body)
            }
            StmtForm::For(from, test, step, body) => {
                self.for_head(page, from, test, step)?;
                self.statement(page, body)
            }
            StmtForm::ForIn(to, object, body) => {
                self.for_in_head(page, to, object)?;
                self.statement(page, body)
            }
            StmtForm::Continue => {
                page.word(b"continue")?;
                page.closing(b";")
            }
            StmtForm::Break => {
                page.word(b"break")?;
                page.closing(b";")
            }
            StmtForm::Return(e) => {
                page.word(b"return")?;
                self.maybe_expr(page, e)?;
                page.closing(b";")
            }
            StmtForm::Switch(e, cases) => {
                self.head(page, b"switch", e)?;
                self.clauses(page, cases.as_slice())
            }
            StmtForm::Throw(e) => {
                page.word(b"throw")?;
                self.expr(page, e, 1, true)?;
                page.closing(b";")
            }
            StmtForm::Try(body, handler, last) => {
                self.try_block(page, body.as_slice())?;
                match handler {
                    None => match last {
                        None => Ok(()),
                        Some(last) => self.last(page, last),
                    },
                    Some(handler) => {
                        self.handler(page, handler)?;
                        match last {
                            None => Ok(()),
                            Some(last) => self.last(page, last),
                        }
                    }
                }
            }
        }
    }

    /// `if (test) a`
    #[cycle(statement)]
    #[tactic(auto, using(token_sheets::proofs::Putting::appended))]
    fn first_part(&self, page: &mut Sheet, a: &Stmt, test: &Expr) -> Result<(), NoMemory>
        requires { Writes self.now.funcs.now self.now.depth (F.pre self.now.function) (F.post self.now.function) }
        ensures { OnOk result (page.new ≡ put_all (spec.shown (function_to self.now.depth self.now.funcs.now) a.now).pieces (put_all (spec.head (function_to self.now.depth self.now.funcs.now) (codes "if") test.now) page.old)) }
    {
        self.head(page, b"if", test)?;
        self.statement(page, a)
    }

    /// `else b`
    #[cycle(statement)]
    #[tactic(auto, using(token_sheets::proofs::Putting::appended))]
    fn other_part(&self, page: &mut Sheet, b: &Stmt, is_block: bool) -> Result<(), NoMemory>
        requires { Writes self.now.funcs.now self.now.depth (F.pre self.now.function) (F.post self.now.function) }
        ensures { OnOk result (page.new ≡ put_all (spec.shown (function_to self.now.depth self.now.funcs.now) b.now).pieces (put_all (spec.else_word is_block) page.old)) }
    {
        else_word(page, is_block)?;
        self.statement(page, b)
    }

    /// `do body`
    #[cycle(statement)]
    #[tactic(auto, using(token_sheets::proofs::Putting::appended))]
    fn do_part(&self, page: &mut Sheet, body: &Stmt) -> Result<(), NoMemory>
        requires { Writes self.now.funcs.now self.now.depth (F.pre self.now.function) (F.post self.now.function) }
        ensures { OnOk result (page.new ≡ put_all (spec.shown (function_to self.now.depth self.now.funcs.now) body.now).pieces (put_all (word (codes "do")) page.old)) }
    {
        page.word(b"do")?;
        self.statement(page, body)
    }

    /// `try` with its block (12.14).
    #[cycle(statement)]
    #[tactic(auto, using(token_sheets::proofs::Putting::appended))]
    fn try_block(&self, page: &mut Sheet, body: &[Stmt]) -> Result<(), NoMemory>
        requires { Writes self.now.funcs.now self.now.depth (F.pre self.now.function) (F.post self.now.function) }
        ensures { OnOk result (page.new ≡ put_all (spec.block (spec.shown (function_to self.now.depth self.now.funcs.now)) body.now) (put_all (word (codes "try")) page.old)) }
    {
        page.word(b"try")?;
        self.block(page, body)
    }

    #[cycle(statement)]
    #[tactic(auto, using(token_sheets::proofs::Putting::appended))]
    fn handler(&self, page: &mut Sheet, handler: &Catch) -> Result<(), NoMemory>
        requires { Writes self.now.funcs.now self.now.depth (F.pre self.now.function) (F.post self.now.function) }
        ensures { OnOk result (page.new ≡ put_all (spec.shown_catch (function_to self.now.depth self.now.funcs.now) handler.now) page.old) }
    {
        catch_head(self.alloc, page, &handler.name)?;
        page.bind_name(self.alloc, &handler.name)?;
        self.block(page, handler.body.as_slice())?;
        page.release();
        Ok(())
    }

    #[cycle(statement)]
    #[tactic(auto, using(token_sheets::proofs::Putting::appended))]
    fn last(&self, page: &mut Sheet, last: &Finally) -> Result<(), NoMemory>
        requires { Writes self.now.funcs.now self.now.depth (F.pre self.now.function) (F.post self.now.function) }
        ensures { OnOk result (page.new ≡ put_all (spec.shown_finally (function_to self.now.depth self.now.funcs.now) last.now) page.old) }
    {
        page.word(b"finally")?;
        self.block(page, last.body.as_slice())
    }

    /// A block (12.1).
    #[cycle(statement)]
    #[tactic(auto, using(token_sheets::proofs::Putting::appended))]
    fn block(&self, page: &mut Sheet, body: &[Stmt]) -> Result<(), NoMemory>
        requires { Writes self.now.funcs.now self.now.depth (F.pre self.now.function) (F.post self.now.function) }
        ensures { OnOk result (page.new ≡ put_all (spec.block (spec.shown (function_to self.now.depth self.now.funcs.now)) body.now) page.old) }
    {
        if body.is_empty() {
            return empty_braces(page);
        }
        begin_braces(page)?;
        self.lines(page, body)?;
        end_braces(page)
    }

    /// Statements, each of which ends its last line.
    #[cycle(statement)]
    #[tactic(auto, using(token_sheets::proofs::Putting::appended))]
    pub fn lines(&self, page: &mut Sheet, body: &[Stmt]) -> Result<(), NoMemory>
        requires { Writes self.now.funcs.now self.now.depth (F.pre self.now.function) (F.post self.now.function) }
        ensures { OnOk result (page.new ≡ put_all (spec.lines (spec.shown (function_to self.now.depth self.now.funcs.now)) body.now) page.old) }
    {
        for s in body {
            self.statement(page, s)?;
            page.end_line()?;
        }
        Ok(())
    }

    /// The clauses of a `switch` in their braces (12.11).
    #[cycle(statement)]
    #[tactic(auto, using(token_sheets::proofs::Putting::appended))]
    fn clauses(&self, page: &mut Sheet, all: &[Case]) -> Result<(), NoMemory>
        requires { Writes self.now.funcs.now self.now.depth (F.pre self.now.function) (F.post self.now.function) }
        ensures { OnOk result (page.new ≡ put_all (spec.clauses (spec.shown_case (function_to self.now.depth self.now.funcs.now)) all.now) page.old) }
    {
        if all.is_empty() {
            return empty_switch(page);
        }
        begin_braces(page)?;
        self.clause_list(page, all)?;
        end_braces(page)
    }

    #[cycle(statement)]
    #[tactic(auto, using(token_sheets::proofs::Putting::appended))]
    fn clause_list(&self, page: &mut Sheet, all: &[Case]) -> Result<(), NoMemory>
        requires { Writes self.now.funcs.now self.now.depth (F.pre self.now.function) (F.post self.now.function) }
        ensures { OnOk result (page.new ≡ put_all (flat_map (spec.shown_case (function_to self.now.depth self.now.funcs.now)) all.now) page.old) }
    {
        for c in all {
            self.clause(page, c)?;
        }
        Ok(())
    }

    #[cycle(statement)]
    #[tactic(auto, using(token_sheets::proofs::Putting::appended))]
    fn clause(&self, page: &mut Sheet, c: &Case) -> Result<(), NoMemory>
        requires { Writes self.now.funcs.now self.now.depth (F.pre self.now.function) (F.post self.now.function) }
        ensures { OnOk result (page.new ≡ put_all (spec.shown_case (function_to self.now.depth self.now.funcs.now) c.now) page.old) }
    {
        self.clause_start(page, &c.test)?;
        self.lines(page, c.body.as_slice())?;
        page.close();
        Ok(())
    }
}

impl<F: Fn(Global, &[Func], &mut Sheet, usize, FuncNo, bool) -> Result<(), NoMemory>> Printer<
    '_,
    F,
> {
    /// The statements of code, behind its directive.
    #[tactic(auto, using(token_sheets::proofs::Putting::appended))]
    pub fn code(&self, page: &mut Sheet, is_directive: bool, body: &[Stmt]) -> Result<(), NoMemory>
        requires { Writes self.now.funcs.now self.now.depth (F.pre self.now.function) (F.post self.now.function) }
        ensures { OnOk result (page.new ≡ put_all (spec.code (function_to self.now.depth self.now.funcs.now) is_directive body.now) page.old) }
    {
        directive(page, is_directive)?;
        self.lines(page, body)
    }

    /// The body of a function (13).
    #[tactic(auto, using(token_sheets::proofs::Putting::appended))]
    fn body(&self, page: &mut Sheet, f: &Func) -> Result<(), NoMemory>
        requires { Writes self.now.funcs.now self.now.depth (F.pre self.now.function) (F.post self.now.function) }
        ensures { OnOk result (page.new ≡ put_all (spec.body (function_to self.now.depth self.now.funcs.now) f.now) page.old) }
    {
        let body = f.body.as_slice();
        if body.is_empty() & !f.directive {
            return empty_braces(page);
        }
        begin_braces(page)?;
        self.code(page, f.directive, body)?;
        end_braces(page)
    }

    /// A function behind the word that begins it, with or without its name.
    #[tactic(auto, using(token_sheets::proofs::Putting::appended))]
    pub fn func(&self, page: &mut Sheet, f: &Func, named: bool) -> Result<(), NoMemory>
        requires { Writes self.now.funcs.now self.now.depth (F.pre self.now.function) (F.post self.now.function) }
        ensures { OnOk result (page.new ≡ put_all (spec.func (function_to self.now.depth self.now.funcs.now) (bound_names named self.now.funcs.now f.now) named f.now) page.old) }
    {
        own_name(self.alloc, page, &f.name, named)?;
        page.bind(self.alloc, self.funcs, f, named)?;
        parameters(self.alloc, page, f.params.as_slice())?;
        self.body(page, f)?;
        page.release();
        Ok(())
    }
}

/// `{ }`
fn empty_switch(page: &mut Sheet) -> Result<(), NoMemory>
    ensures { OnOk result (page.new ≡ put_all (spec.in_switch true []) page.old) }
{
    page.word(b"{")?;
    page.word(b"}")
}
