//! Statements (12).

ghost use Rattle.std.specs.Prelude.{◌≡◌, ◌<◌, ◌≤◌, length, IfOk};
ghost use Rattle.js_grammar.specs.Blocks as blocks;
ghost use Rattle.js_grammar.specs.Declarators as declarators;
ghost use Rattle.js_grammar.specs.Marks as marks;
ghost use Rattle.js_grammar.specs.Reading.{grammar};
ghost use Rattle.js_grammar.specs.Rest.{part, repeat};
ghost use Rattle.js_grammar.specs.Statements as spec;
ghost use Rattle.token_reader.specs.Reader.{rest_of, closed_by, IsAnswer};
ghost use Rattle.js_parse.specs.Headers.{returned, whole_of, IsHeader};
ghost use Rattle.token_marks.specs.Beginnings.{named};

use crate::parser::Parser;
use js_tree::{
    Case, Cases, Catch, Declarator, Declarators, Expr, Feature, Finally, ForStart, ForTarget,
    Keyword, Name, Punctuator, ReadRefused, Stmt, StmtForm, Stmts, Token, TokenForm,
};
use js_value::{Box, NoMemory, Place, Seq};
use std::alloc::Global;
use token_marks::{Beginning, Jump, barred, is_target};
use token_reader::Closer;

/// The header of a `for`.
#[derive(Debug, Drop)]
pub enum Header {
    Parts(ForStart, Option<Expr>, Option<Expr>),
    In(ForTarget, Expr),
}

/// The statement of a header and a body.
fn whole(alloc: Global, header: Header, body: Stmt) -> Result<StmtForm, NoMemory>
    ensures { IfOk result (λ form. form ≡ whole_of header body) }
{
    match header {
        Header::Parts(from, test, step) => Ok(StmtForm::For(
            Box::new(alloc, from)?,
            Box::new(alloc, test)?,
            Box::new(alloc, step)?,
            body,
        )),
        Header::In(to, object) => Ok(StmtForm::ForIn(Box::new(alloc, to)?, object, body)),
    }
}

impl<'a> Parser<'a> {
    /// The initialiser of a declared name, and its place (12.2).
    #[cycle(reading)]
    #[tactic(auto, unfolding(js_grammar::specs::Rest::next))]
    pub fn initialiser(
        &mut self,
        allows_in: bool,
        name: Name,
    ) -> Result<(Declarator, Place), ReadRefused>
        ensures answer { IsAnswer (declarators.initialiser grammar allows_in name) (rest_of self.old.reader) (rest_of self.new.reader) result }
        ensures within { length self.new.reader.rest.now ≤ length self.old.reader.rest.now }
    {
        let Name { at: named, text } = name;
        if !self.reader.take(Punctuator::Assign) {
            let only = Declarator {
                at: named,
                name: text,
                init: None,
            };
            return Ok((only, named));
        }
        let at = self.reader.here();
        let x = self.assignment(allows_in)?;
        let whole = Declarator {
            at: named,
            name: text,
            init: Some(x),
        };
        Ok((whole, at))
    }

    /// Declarators behind those so far.
    #[cycle(reading)]
    #[tactic(auto, using(js_grammar::proofs::Unrolled::declarators_unroll), unfolding(js_grammar::specs::Rest::next))]
    pub fn more_declarators(
        &mut self,
        allows_in: bool,
        mut so_far: Declarators,
    ) -> Result<Declarators, ReadRefused>
        ensures answer { IsAnswer (repeat (declarators.more_declarators grammar allows_in) so_far) (rest_of self.old.reader) (rest_of self.new.reader) result }
        ensures within { length self.new.reader.rest.now ≤ length self.old.reader.rest.now }
    {
        'turn: loop {
            if !self.reader.take(Punctuator::Comma) {
                return Ok(so_far);
            }
            let name = self.reader.declared_name()?;
            let (d, _) = self.initialiser(allows_in, name)?;
            so_far.push(d)?;
        }
    }

    /// Declarators behind the first one.
    #[cycle(reading)]
    #[tactic(auto, unfolding(js_grammar::specs::Declarators::declarators_behind))]
    pub fn declarators_behind(
        &mut self,
        allows_in: bool,
        first: Declarator,
    ) -> Result<Declarators, ReadRefused>
        ensures answer { IsAnswer (declarators.declarators_behind grammar allows_in first) (rest_of self.old.reader) (rest_of self.new.reader) result }
        ensures within { length self.new.reader.rest.now ≤ length self.old.reader.rest.now }
    {
        let mut all = Seq::new(self.reader.alloc);
        all.push(first)?;
        self.more_declarators(allows_in, all)
    }

    /// A statement that is part of another.
    #[cycle(reading)]
    #[tactic(auto, unfolding(js_grammar::specs::Rest::part))]
    pub fn inner_statement(&mut self) -> Result<Stmt, ReadRefused>
        ensures answer { IsAnswer (part grammar.statement) (rest_of self.old.reader) (rest_of self.new.reader) result }
        ensures left { IfOk result (λ _. length self.new.reader.rest.now < length self.old.reader.rest.now) }
        ensures within { length self.new.reader.rest.now ≤ length self.old.reader.rest.now }
    {
        let opened = self.reader.enter()?;
        let t = self.statement()?;
        self.reader.leave(opened);
        Ok(t)
    }

    /// Statements behind those so far.
    #[cycle(reading)]
    #[tactic(auto, using(crate::proofs::Laws::statements_unroll))]
    pub fn more_statements(
        &mut self,
        closer: Closer,
        mut so_far: Stmts,
    ) -> Result<Stmts, ReadRefused>
        ensures answer { IsAnswer (repeat (blocks.more_statements grammar (closed_by closer)) so_far) (rest_of self.old.reader) (rest_of self.new.reader) result }
        ensures within { length self.new.reader.rest.now ≤ length self.old.reader.rest.now }
    {
        'turn: loop {
            if self.reader.is_closed(closer) {
                return Ok(so_far);
            }
            let t = self.inner_statement()?;
            so_far.push(t)?;
        }
    }

    /// Statements up to what ends them (12.1).
    #[cycle(reading)]
    #[tactic(auto, unfolding(js_grammar::specs::Blocks::statements))]
    pub fn statements(&mut self, closer: Closer) -> Result<Stmts, ReadRefused>
        ensures answer { IsAnswer (blocks.statements grammar (closed_by closer)) (rest_of self.old.reader) (rest_of self.new.reader) result }
        ensures within { length self.new.reader.rest.now ≤ length self.old.reader.rest.now }
    {
        self.more_statements(closer, Seq::new(self.reader.alloc))
    }

    /// Statements up to the brace that closes (12.1).
    #[cycle(reading)]
    #[tactic(auto, unfolding(js_grammar::specs::Blocks::statements_behind_brace))]
    pub fn statements_behind_brace(&mut self) -> Result<Stmts, ReadRefused>
        ensures answer { IsAnswer (blocks.statements_behind_brace grammar) (rest_of self.old.reader) (rest_of self.new.reader) result }
        ensures within { length self.new.reader.rest.now ≤ length self.old.reader.rest.now }
    {
        let body = self.statements(Closer::Brace)?;
        self.reader.expect(Punctuator::RightBrace)?;
        Ok(body)
    }

    /// Statements in braces (12.1).
    #[cycle(reading)]
    pub fn braced(&mut self) -> Result<Stmts, ReadRefused>
        ensures answer { IsAnswer (blocks.braced grammar) (rest_of self.old.reader) (rest_of self.new.reader) result }
        ensures within { length self.new.reader.rest.now ≤ length self.old.reader.rest.now }
    {
        self.reader.expect(Punctuator::LeftBrace)?;
        self.statements_behind_brace()
    }

    /// A block (12.1).
    #[cycle(reading)]
    pub fn block_behind(&mut self, at: Place) -> Result<Stmt, ReadRefused>
        ensures answer { IsAnswer (spec.block_behind grammar at) (rest_of self.old.reader) (rest_of self.new.reader) result }
        ensures within { length self.new.reader.rest.now ≤ length self.old.reader.rest.now }
    {
        let body = self.statements_behind_brace()?;
        self.reader.finish_stmt(at, StmtForm::Block(body))
    }

    /// `var` with its declarators (12.2).
    #[cycle(reading)]
    #[tactic(auto, unfolding(js_grammar::specs::Statements::var_behind))]
    pub fn var_behind(&mut self, at: Place) -> Result<Stmt, ReadRefused>
        ensures answer { IsAnswer (spec.var_behind grammar at) (rest_of self.old.reader) (rest_of self.new.reader) result }
        ensures within { length self.new.reader.rest.now ≤ length self.old.reader.rest.now }
    {
        let name = self.reader.declared_name()?;
        let (first, _) = self.initialiser(true, name)?;
        let all = self.declarators_behind(true, first)?;
        self.reader.end_declarators(&all)?;
        self.reader.finish_stmt(at, StmtForm::Var(all))
    }

    /// An expression statement (12.4).
    #[cycle(reading)]
    #[tactic(auto, using(js_grammar::proofs::Unrolled::assignment_tied), unfolding(js_grammar::specs::Primary::expression_by))]
    pub fn expression_statement(&mut self) -> Result<Stmt, ReadRefused>
        ensures answer { IsAnswer (spec.expression_statement grammar) (rest_of self.old.reader) (rest_of self.new.reader) result }
        ensures left { IfOk result (λ _. length self.new.reader.rest.now < length self.old.reader.rest.now) }
        ensures within { length self.new.reader.rest.now ≤ length self.old.reader.rest.now }
    {
        let left = self.assignment(true)?;
        let x = self.more_commas(true, left)?;
        self.reader.end_expression()?;
        self.reader.finish_stmt(x.at, StmtForm::Eval(x))
    }

    /// An expression statement, or a label (12.12), which is not supported.
    #[cycle(reading)]
    #[tactic(auto, unfolding(js_grammar::specs::Statements::expression_here))]
    pub fn expression_here(&mut self) -> Result<Stmt, ReadRefused>
        ensures answer { IsAnswer (spec.expression_here grammar) (rest_of self.old.reader) (rest_of self.new.reader) result }
        ensures left { IfOk result (λ _. length self.new.reader.rest.now < length self.old.reader.rest.now) }
        ensures within { length self.new.reader.rest.now ≤ length self.old.reader.rest.now }
    {
        let at = self.reader.here();
        let colon = self.reader.sees_colon_second();
        match self.reader.rest.first() {
            Some(
                Token {
                    form: TokenForm::Name(name),
                    ..
                },
            ) if colon => match barred(name) {
                Some(what) => Err(ReadRefused::Unsupported(at, what)),
                None => Err(ReadRefused::Unsupported(at, Feature::Label)),
            },
            _ => self.expression_statement(),
        }
    }

    /// An expression in parentheses.
    #[cycle(reading)]
    pub fn head(&mut self) -> Result<Expr, ReadRefused>
        ensures answer { IsAnswer (spec.head grammar) (rest_of self.old.reader) (rest_of self.new.reader) result }
        ensures within { length self.new.reader.rest.now ≤ length self.old.reader.rest.now }
    {
        self.reader.expect(Punctuator::LeftParenthesis)?;
        self.group_behind()
    }

    /// `else` with its statement (12.5).
    #[cycle(reading)]
    #[tactic(auto, unfolding(js_grammar::specs::Rest::next))]
    pub fn else_part(&mut self) -> Result<Option<Stmt>, ReadRefused>
        ensures answer { IsAnswer (spec.else_part grammar) (rest_of self.old.reader) (rest_of self.new.reader) result }
        ensures within { length self.new.reader.rest.now ≤ length self.old.reader.rest.now }
    {
        if !self.reader.take_word(Keyword::Else) {
            return Ok(None);
        }
        let t = self.inner_statement()?;
        Ok(Some(t))
    }

    /// `if` (12.5).
    #[cycle(reading)]
    #[tactic(auto, unfolding(js_grammar::specs::Statements::if_behind))]
    pub fn if_behind(&mut self, at: Place) -> Result<Stmt, ReadRefused>
        ensures answer { IsAnswer (spec.if_behind grammar at) (rest_of self.old.reader) (rest_of self.new.reader) result }
        ensures within { length self.new.reader.rest.now ≤ length self.old.reader.rest.now }
    {
        let test = self.head()?;
        let then_part = self.inner_statement()?;
        let other = self.else_part()?;
        self.reader
            .finish_stmt(at, StmtForm::If(test, then_part, other))
    }

    /// `do` (12.6.1).
    #[cycle(reading)]
    #[tactic(auto, unfolding(js_grammar::specs::Statements::do_behind))]
    pub fn do_behind(&mut self, at: Place) -> Result<Stmt, ReadRefused>
        ensures answer { IsAnswer (spec.do_behind grammar at) (rest_of self.old.reader) (rest_of self.new.reader) result }
        ensures within { length self.new.reader.rest.now ≤ length self.old.reader.rest.now }
    {
        let body = self.inner_statement()?;
        self.reader.expect_word(Keyword::While)?;
        let test = self.head()?;
        self.reader.end_do()?;
        self.reader.finish_stmt(at, StmtForm::DoWhile(body, test))
    }

    /// `while` (12.6.2).
    #[cycle(reading)]
    #[tactic(auto, unfolding(js_grammar::specs::Statements::while_behind))]
    pub fn while_behind(&mut self, at: Place) -> Result<Stmt, ReadRefused>
        ensures answer { IsAnswer (spec.while_behind grammar at) (rest_of self.old.reader) (rest_of self.new.reader) result }
        ensures within { length self.new.reader.rest.now ≤ length self.old.reader.rest.now }
    {
        let test = self.head()?;
        let body = self.inner_statement()?;
        self.reader.finish_stmt(at, StmtForm::While(test, body))
    }

    /// An expression, unless this punctuator comes next.
    #[cycle(reading)]
    pub fn expression_unless(&mut self, close: Punctuator) -> Result<Option<Expr>, ReadRefused>
        ensures answer { IsAnswer (spec.expression_unless grammar (marks.punctuator close)) (rest_of self.old.reader) (rest_of self.new.reader) result }
        ensures within { length self.new.reader.rest.now ≤ length self.old.reader.rest.now }
    {
        if self.reader.sees(close) {
            return Ok(None);
        }
        let x = self.expression(true)?;
        Ok(Some(x))
    }

    /// The tests of a `for` header, behind its first part (12.6.3).
    #[cycle(reading)]
    #[tactic(auto, unfolding(js_grammar::specs::Statements::for_parts))]
    pub fn for_parts(&mut self, from: ForStart) -> Result<Header, ReadRefused>
        ensures answer { IsHeader (spec.for_parts grammar from) (rest_of self.old.reader) (rest_of self.new.reader) result }
        ensures within { length self.new.reader.rest.now ≤ length self.old.reader.rest.now }
    {
        self.reader.expect(Punctuator::Semicolon)?;
        let test = self.expression_unless(Punctuator::Semicolon)?;
        self.reader.expect(Punctuator::Semicolon)?;
        let step = self.expression_unless(Punctuator::RightParenthesis)?;
        self.reader.expect(Punctuator::RightParenthesis)?;
        Ok(Header::Parts(from, test, step))
    }

    /// The object of a `for`-`in` header, behind `in` (12.6.4).
    #[cycle(reading)]
    #[tactic(auto, unfolding(js_grammar::specs::Statements::for_in))]
    pub fn for_in(&mut self, to: ForTarget) -> Result<Header, ReadRefused>
        ensures answer { IsHeader (spec.for_in grammar to) (rest_of self.old.reader) (rest_of self.new.reader) result }
        ensures within { length self.new.reader.rest.now ≤ length self.old.reader.rest.now }
    {
        let object = self.expression(true)?;
        self.reader.expect(Punctuator::RightParenthesis)?;
        Ok(Header::In(to, object))
    }

    /// A header with `var` (12.6.3, 12.6.4).
    #[cycle(reading)]
    #[tactic(auto, unfolding(js_grammar::specs::Rest::next, js_grammar::specs::Statements::for_var))]
    pub fn for_var(&mut self) -> Result<Header, ReadRefused>
        ensures answer { IsHeader (spec.for_var grammar) (rest_of self.old.reader) (rest_of self.new.reader) result }
        ensures within { length self.new.reader.rest.now ≤ length self.old.reader.rest.now }
    {
        let name = self.reader.declared_name()?;
        if self.reader.take_word(Keyword::In) {
            return self.for_in(ForTarget::Var(name.at, name.text));
        }
        let (first, at) = self.initialiser(false, name)?;
        if self.reader.take_word(Keyword::In) {
            return Err(ReadRefused::Unsupported(at, Feature::ForInInitialiser));
        }
        let all = self.declarators_behind(false, first)?;
        self.for_parts(ForStart::Var(all))
    }

    /// A header that begins with an expression (12.6.3, 12.6.4).
    #[cycle(reading)]
    #[tactic(auto, unfolding(js_grammar::specs::Rest::next, js_grammar::specs::Statements::for_expression))]
    pub fn for_expression(&mut self) -> Result<Header, ReadRefused>
        ensures answer { IsHeader (spec.for_expression grammar) (rest_of self.old.reader) (rest_of self.new.reader) result }
        ensures within { length self.new.reader.rest.now ≤ length self.old.reader.rest.now }
    {
        let x = self.expression(false)?;
        if !self.reader.take_word(Keyword::In) {
            return self.for_parts(ForStart::Expr(x));
        }
        if !is_target(&x) {
            return Err(ReadRefused::Syntax(x.at));
        }
        self.for_in(ForTarget::Expr(x))
    }

    /// What stands in the parentheses of a `for` (12.6.3, 12.6.4).
    #[cycle(reading)]
    #[tactic(auto, unfolding(js_grammar::specs::Rest::next))]
    pub fn for_header(&mut self) -> Result<Header, ReadRefused>
        ensures answer { IsHeader (spec.for_header grammar) (rest_of self.old.reader) (rest_of self.new.reader) result }
        ensures within { length self.new.reader.rest.now ≤ length self.old.reader.rest.now }
    {
        let without = self.reader.sees(Punctuator::Semicolon);
        if self.reader.take_word(Keyword::Var) {
            return self.for_var();
        }
        if without {
            return self.for_parts(ForStart::Nothing);
        }
        self.for_expression()
    }

    /// `for` (12.6.3, 12.6.4).
    #[cycle(reading)]
    #[tactic(auto, unfolding(js_grammar::specs::Rest::part, js_grammar::specs::Statements::for_behind))]
    pub fn for_behind(&mut self, at: Place) -> Result<Stmt, ReadRefused>
        ensures answer { IsAnswer (spec.for_behind grammar at) (rest_of self.old.reader) (rest_of self.new.reader) result }
        ensures within { length self.new.reader.rest.now ≤ length self.old.reader.rest.now }
    {
        self.reader.expect(Punctuator::LeftParenthesis)?;
        let opened = self.reader.enter()?;
        let header = self.for_header()?;
        self.reader.leave(opened);
        let body = self.inner_statement()?;
        let form = whole(self.reader.alloc, header, body)?;
        self.reader.finish_stmt(at, form)
    }

    /// What `return` gives, where there is something (12.9).
    #[cycle(reading)]
    pub fn returned(&mut self) -> Result<Option<Expr>, ReadRefused>
        ensures answer { IsAnswer returned (rest_of self.old.reader) (rest_of self.new.reader) result }
        ensures within { length self.new.reader.rest.now ≤ length self.old.reader.rest.now }
    {
        if self.reader.sees(Punctuator::Semicolon) || self.reader.sees(Punctuator::RightBrace) {
            return Ok(None);
        }
        let x = self.expression(true)?;
        Ok(Some(x))
    }

    /// `return` (12.9).
    #[cycle(reading)]
    #[tactic(auto, unfolding(js_grammar::specs::Statements::return_behind))]
    pub fn return_behind(&mut self, at: Place) -> Result<Stmt, ReadRefused>
        ensures answer { IsAnswer (spec.return_behind grammar at) (rest_of self.old.reader) (rest_of self.new.reader) result }
        ensures within { length self.new.reader.rest.now ≤ length self.old.reader.rest.now }
    {
        if self.reader.is_line_ended() {
            return self.reader.finish_stmt(at, StmtForm::Return(None));
        }
        let x = self.returned()?;
        self.reader.end_expression()?;
        self.reader.finish_stmt(at, StmtForm::Return(x))
    }

    /// The statements of a clause (12.11).
    #[cycle(reading)]
    pub fn case_behind(&mut self, test: Option<Expr>) -> Result<Case, ReadRefused>
        ensures answer { IsAnswer (spec.case_behind grammar test) (rest_of self.old.reader) (rest_of self.new.reader) result }
        ensures within { length self.new.reader.rest.now ≤ length self.old.reader.rest.now }
    {
        self.reader.expect(Punctuator::Colon)?;
        let body = self.statements(Closer::Case)?;
        Ok(Case { test, body })
    }

    /// A clause with its test (12.11).
    #[cycle(reading)]
    pub fn tested_case(&mut self) -> Result<Case, ReadRefused>
        ensures answer { IsAnswer (spec.tested_case grammar) (rest_of self.old.reader) (rest_of self.new.reader) result }
        ensures within { length self.new.reader.rest.now ≤ length self.old.reader.rest.now }
    {
        let test = self.expression(true)?;
        self.case_behind(Some(test))
    }

    /// Clauses behind those so far. `defaults` where one is the default.
    #[cycle(reading)]
    #[tactic(auto, using(js_grammar::proofs::Unrolled::cases_unroll), unfolding(js_grammar::specs::Rest::next))]
    pub fn more_cases(
        &mut self,
        mut so_far: Cases,
        mut defaults: bool,
    ) -> Result<Cases, ReadRefused>
        ensures answer { IsAnswer (repeat (spec.more_cases grammar) (so_far, defaults)) (rest_of self.old.reader) (rest_of self.new.reader) result }
        ensures within { length self.new.reader.rest.now ≤ length self.old.reader.rest.now }
    {
        'turn: loop {
            if self.reader.take(Punctuator::RightBrace) {
                return Ok(so_far);
            }
            if self.reader.take_word(Keyword::Case) {
                let case = self.tested_case()?;
                so_far.push(case)?;
                continue;
            }
            if defaults {
                return self.reader.unexpected();
            }
            self.reader.expect_word(Keyword::Default)?;
            let case = self.case_behind(None)?;
            so_far.push(case)?;
            defaults = true;
        }
    }

    /// `switch` (12.11).
    #[cycle(reading)]
    #[tactic(auto, unfolding(js_grammar::specs::Statements::switch_behind))]
    pub fn switch_behind(&mut self, at: Place) -> Result<Stmt, ReadRefused>
        ensures answer { IsAnswer (spec.switch_behind grammar at) (rest_of self.old.reader) (rest_of self.new.reader) result }
        ensures within { length self.new.reader.rest.now ≤ length self.old.reader.rest.now }
    {
        let x = self.head()?;
        self.reader.expect(Punctuator::LeftBrace)?;
        let cases = self.more_cases(Seq::new(self.reader.alloc), false)?;
        self.reader.finish_stmt(at, StmtForm::Switch(x, cases))
    }

    /// `throw` (12.13).
    #[cycle(reading)]
    #[tactic(auto, unfolding(js_grammar::specs::Statements::throw_behind))]
    pub fn throw_behind(&mut self, at: Place) -> Result<Stmt, ReadRefused>
        ensures answer { IsAnswer (spec.throw_behind grammar at) (rest_of self.old.reader) (rest_of self.new.reader) result }
        ensures within { length self.new.reader.rest.now ≤ length self.old.reader.rest.now }
    {
        if self.reader.begins_line() {
            return self.reader.unexpected();
        }
        let x = self.expression(true)?;
        self.reader.end_expression()?;
        self.reader.finish_stmt(at, StmtForm::Throw(x))
    }

    /// `catch` (12.14).
    #[cycle(reading)]
    #[tactic(auto, unfolding(js_grammar::specs::Rest::next))]
    pub fn catch_part(&mut self) -> Result<Option<Box<Catch>>, ReadRefused>
        ensures answer { IsAnswer (spec.catch_part grammar) (rest_of self.old.reader) (rest_of self.new.reader) result }
        ensures within { length self.new.reader.rest.now ≤ length self.old.reader.rest.now }
    {
        if !self.reader.take_word(Keyword::Catch) {
            return Ok(None);
        }
        self.reader.expect(Punctuator::LeftParenthesis)?;
        let Name { at, text } = self.reader.catch_name()?;
        let body = self.braced()?;
        let handler = Catch {
            at,
            name: text,
            body,
        };
        Ok(Some(Box::new(self.reader.alloc, handler)?))
    }

    /// `finally` (12.14).
    #[cycle(reading)]
    #[tactic(auto, unfolding(js_grammar::specs::Rest::next))]
    pub fn finally_part(&mut self) -> Result<Option<Box<Finally>>, ReadRefused>
        ensures answer { IsAnswer (spec.finally_part grammar) (rest_of self.old.reader) (rest_of self.new.reader) result }
        ensures within { length self.new.reader.rest.now ≤ length self.old.reader.rest.now }
    {
        if !self.reader.take_word(Keyword::Finally) {
            return Ok(None);
        }
        let body = self.braced()?;
        Ok(Some(Box::new(self.reader.alloc, Finally { body })?))
    }

    /// `try` (12.14).
    #[cycle(reading)]
    #[tactic(auto, unfolding(js_grammar::specs::Statements::try_behind))]
    pub fn try_behind(&mut self, at: Place) -> Result<Stmt, ReadRefused>
        ensures answer { IsAnswer (spec.try_behind grammar at) (rest_of self.old.reader) (rest_of self.new.reader) result }
        ensures within { length self.new.reader.rest.now ≤ length self.old.reader.rest.now }
    {
        let body = self.braced()?;
        let handler = self.catch_part()?;
        let last = self.finally_part()?;
        if handler.is_none() && last.is_none() {
            return self.reader.unexpected();
        }
        self.reader
            .finish_stmt(at, StmtForm::Try(body, handler, last))
    }

    /// What is behind the first token of a statement that begins with one of its own.
    #[cycle(reading)]
    pub fn begun(&mut self, at: Place, first: Beginning) -> Result<Stmt, ReadRefused>
        ensures answer { IsAnswer (spec.begun grammar at (named first)) (rest_of self.old.reader) (rest_of self.new.reader) result }
        ensures within { length self.new.reader.rest.now ≤ length self.old.reader.rest.now }
    {
        match first {
            Beginning::Block => self.block_behind(at),
            Beginning::Empty => self.reader.finish_stmt(at, StmtForm::Empty),
            Beginning::Var => self.var_behind(at),
            Beginning::If => self.if_behind(at),
            Beginning::Do => self.do_behind(at),
            Beginning::While => self.while_behind(at),
            Beginning::For => self.for_behind(at),
            Beginning::Continue => self.reader.jump_behind(Jump::Continue, at),
            Beginning::Break => self.reader.jump_behind(Jump::Break, at),
            Beginning::Return => self.return_behind(at),
            Beginning::With => Err(ReadRefused::Unsupported(at, Feature::With)),
            Beginning::Switch => self.switch_behind(at),
            Beginning::Throw => self.throw_behind(at),
            Beginning::Try => self.try_behind(at),
            Beginning::Debugger => Err(ReadRefused::Unsupported(at, Feature::Debugger)),
            Beginning::Function => Err(ReadRefused::Unsupported(at, Feature::FunctionInBlock)),
        }
    }

    /// A statement (12).
    #[cycle(reading)]
    #[tactic(auto, using(js_grammar::proofs::Unrolled::statement_tied), unfolding(js_grammar::specs::Rest::next, js_grammar::specs::Statements::statement))]
    pub fn statement(&mut self) -> Result<Stmt, ReadRefused>
        ensures answer { IsAnswer grammar.statement (rest_of self.old.reader) (rest_of self.new.reader) result }
        ensures left { IfOk result (λ _. length self.new.reader.rest.now < length self.old.reader.rest.now) }
        ensures within { length self.new.reader.rest.now ≤ length self.old.reader.rest.now }
    {
        let at = self.reader.here();
        match self.reader.take_beginning() {
            Some(first) => self.begun(at, first),
            None => self.expression_here(),
        }
    }

    /// A statement, or a function declaration (14).
    #[cycle(reading)]
    #[tactic(auto, using(js_grammar::proofs::Unrolled::element_tied, js_grammar::proofs::Unrolled::statement_tied), unfolding(js_grammar::specs::Statements::element))]
    pub fn element(&mut self) -> Result<Stmt, ReadRefused>
        ensures answer { IsAnswer grammar.element (rest_of self.old.reader) (rest_of self.new.reader) result }
        ensures left { IfOk result (λ _. length self.new.reader.rest.now < length self.old.reader.rest.now) }
        ensures within { length self.new.reader.rest.now ≤ length self.old.reader.rest.now }
    {
        let at = self.reader.here();
        if self.reader.sees_word(Keyword::Function) {
            let f = self.function_declaration(at)?;
            return self.reader.finish_stmt(at, StmtForm::FuncDecl(f));
        }
        self.statement()
    }
}
