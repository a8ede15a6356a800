//! Expressions (11.3 to 11.14), from loose to tight.

ghost use Rattle.std.specs.Prelude.{◌<◌, ◌≤◌, length, IfOk, IfSome};
ghost use Rattle.js_grammar.specs.Expressions as spec;
ghost use Rattle.js_grammar.specs.Primary as primary;
ghost use Rattle.js_grammar.specs.Reading.{grammar};
ghost use Rattle.js_grammar.specs.Rest.{part, repeat};
ghost use Rattle.js_parse.specs.Frames as frames;
ghost use Rattle.js_parse.specs.Frames.{IsPart};
ghost use Rattle.token_reader.specs.Reader.{rest_of, IsAnswer};

use crate::parser::Parser;
use js_tree::{Expr, ExprForm, Feature, Punctuator, ReadRefused, StepOp};
use js_value::{BinaryOp, Place, UnaryOp};
use token_marks::{is_delete, is_name, is_target};

impl<'a> Parser<'a> {
    /// Any expression (11.14).
    #[cycle(reading)]
    #[tactic(auto, unfolding(js_grammar::specs::Primary::expression_by))]
    pub fn expression(&mut self, allows_in: bool) -> Result<Expr, ReadRefused>
        ensures answer { IsAnswer (primary.expression_by grammar (grammar.assignment allows_in) allows_in) (rest_of self.old.reader) (rest_of self.new.reader) result }
        ensures left { IfOk result (λ _. length self.new.reader.rest.now < length self.old.reader.rest.now) }
        ensures within { length self.new.reader.rest.now ≤ length self.old.reader.rest.now }
    {
        let left = self.assignment(allows_in)?;
        self.more_commas(allows_in, left)
    }

    /// Expressions behind commas.
    #[cycle(reading)]
    #[tactic(auto, using(js_grammar::proofs::Unrolled::commas_unroll), unfolding(js_grammar::specs::Rest::next))]
    pub fn more_commas(&mut self, allows_in: bool, mut left: Expr) -> Result<Expr, ReadRefused>
        ensures answer { IsAnswer (repeat (primary.more_commas grammar allows_in) left) (rest_of self.old.reader) (rest_of self.new.reader) result }
        ensures within { length self.new.reader.rest.now ≤ length self.old.reader.rest.now }
    {
        'turn: loop {
            if !self.reader.take(Punctuator::Comma) {
                return Ok(left);
            }
            let right = self.assignment(allows_in)?;
            left = self.reader.finish(left.at, ExprForm::Comma(left, right))?;
        }
    }

    /// An assignment, or a tighter expression (11.13).
    #[cycle(reading)]
    #[tactic(auto, using(js_grammar::proofs::Unrolled::assignment_tied), unfolding(js_grammar::specs::Expressions::assignment))]
    pub fn assignment(&mut self, allows_in: bool) -> Result<Expr, ReadRefused>
        ensures answer { IsAnswer (grammar.assignment allows_in) (rest_of self.old.reader) (rest_of self.new.reader) result }
        ensures left { IfOk result (λ _. length self.new.reader.rest.now < length self.old.reader.rest.now) }
        ensures within { length self.new.reader.rest.now ≤ length self.old.reader.rest.now }
    {
        let x = self.conditional(allows_in)?;
        self.perhaps_assigned(allows_in, x)
    }

    /// The operator of an assignment and its value behind the target, where there are some (11.13).
    #[cycle(reading)]
    #[tactic(auto, unfolding(js_grammar::specs::Rest::next))]
    pub fn perhaps_assigned(&mut self, allows_in: bool, x: Expr) -> Result<Expr, ReadRefused>
        ensures answer { IsAnswer (frames.assigned allows_in x) (rest_of self.old.reader) (rest_of self.new.reader) result }
        ensures within { length self.new.reader.rest.now ≤ length self.old.reader.rest.now }
    {
        if self.reader.begins_line() && self.reader.is_behind_postfix() {
            return Ok(x);
        }
        match self.reader.take_assignment_operator() {
            Some(op) => self.assigned(allows_in, x, op),
            None => Ok(x),
        }
    }

    /// The value of an assignment, behind its operator.
    #[cycle(reading)]
    #[tactic(auto, unfolding(js_grammar::specs::Rest::part))]
    pub fn assigned(
        &mut self,
        allows_in: bool,
        target: Expr,
        op: Option<BinaryOp>,
    ) -> Result<Expr, ReadRefused>
        ensures answer { IsAnswer (spec.assigned grammar allows_in target op) (rest_of self.old.reader) (rest_of self.new.reader) result }
        ensures within { length self.new.reader.rest.now ≤ length self.old.reader.rest.now }
    {
        if !is_target(&target) {
            return Err(ReadRefused::Syntax(target.at));
        }
        let opened = self.reader.enter()?;
        let value = self.assignment(allows_in)?;
        self.reader.leave(opened);
        self.reader
            .finish(target.at, ExprForm::Assign(target, op, value))
    }

    /// A conditional, or a tighter expression (11.12).
    #[cycle(reading)]
    #[tactic(auto, unfolding(js_grammar::specs::Expressions::conditional))]
    pub fn conditional(&mut self, allows_in: bool) -> Result<Expr, ReadRefused>
        ensures answer { IsAnswer (spec.conditional grammar allows_in) (rest_of self.old.reader) (rest_of self.new.reader) result }
        ensures left { IfOk result (λ _. length self.new.reader.rest.now < length self.old.reader.rest.now) }
        ensures within { length self.new.reader.rest.now ≤ length self.old.reader.rest.now }
    {
        let test = self.operation(allows_in)?;
        self.chosen(allows_in, test)
    }

    /// The branches of a conditional behind its test, where there are some (11.12).
    #[cycle(reading)]
    #[tactic(auto, unfolding(js_grammar::specs::Rest::next))]
    pub fn chosen(&mut self, allows_in: bool, test: Expr) -> Result<Expr, ReadRefused>
        ensures answer { IsAnswer (frames.chosen allows_in test) (rest_of self.old.reader) (rest_of self.new.reader) result }
        ensures within { length self.new.reader.rest.now ≤ length self.old.reader.rest.now }
    {
        if !self.reader.take(Punctuator::Question) {
            return Ok(test);
        }
        let yes_part = self.branch(true)?;
        self.reader.expect(Punctuator::Colon)?;
        let no_part = self.branch(allows_in)?;
        self.reader
            .finish(test.at, ExprForm::Conditional(test, yes_part, no_part))
    }

    /// A branch of a conditional.
    #[cycle(reading)]
    #[tactic(auto, unfolding(js_grammar::specs::Rest::part))]
    pub fn branch(&mut self, allows_in: bool) -> Result<Expr, ReadRefused>
        ensures answer { IsAnswer (part (grammar.assignment allows_in)) (rest_of self.old.reader) (rest_of self.new.reader) result }
        ensures within { length self.new.reader.rest.now ≤ length self.old.reader.rest.now }
    {
        let opened = self.reader.enter()?;
        let x = self.assignment(allows_in)?;
        self.reader.leave(opened);
        Ok(x)
    }

    /// A prefix operator with its operand (11.4), where one comes next.
    #[cycle(reading)]
    #[tactic(auto, unfolding(js_grammar::specs::Rest::next, js_grammar::specs::Expressions::unary))]
    pub fn prefixed(&mut self) -> Result<Option<Expr>, ReadRefused>
        ensures answer { IsPart (spec.unary grammar) (spec.postfix grammar) (rest_of self.old.reader) (rest_of self.new.reader) result }
        ensures left { IfOk result (λ found. IfSome found (λ _. length self.new.reader.rest.now < length self.old.reader.rest.now)) }
        ensures within { length self.new.reader.rest.now ≤ length self.old.reader.rest.now }
    {
        let at = self.reader.here();
        if let Some(op) = self.reader.take_unary() {
            let x = self.unary_behind(at, op)?;
            return Ok(Some(x));
        }
        if let Some(op) = self.reader.take_prefix_step() {
            let x = self.step_behind(at, op)?;
            return Ok(Some(x));
        }
        Ok(None)
    }

    /// A prefix operator with its operand, or a tighter expression (11.4).
    #[cycle(reading)]
    #[tactic(auto, using(js_grammar::proofs::Unrolled::unary_tied))]
    pub fn unary(&mut self) -> Result<Expr, ReadRefused>
        ensures answer { IsAnswer grammar.unary (rest_of self.old.reader) (rest_of self.new.reader) result }
        ensures left { IfOk result (λ _. length self.new.reader.rest.now < length self.old.reader.rest.now) }
        ensures within { length self.new.reader.rest.now ≤ length self.old.reader.rest.now }
    {
        match self.prefixed()? {
            Some(x) => Ok(x),
            None => self.postfix(),
        }
    }

    /// The operand of a prefix operator.
    #[cycle(reading)]
    #[tactic(auto, unfolding(js_grammar::specs::Rest::part))]
    pub fn unary_behind(&mut self, at: Place, op: UnaryOp) -> Result<Expr, ReadRefused>
        ensures answer { IsAnswer (spec.unary_behind grammar at op) (rest_of self.old.reader) (rest_of self.new.reader) result }
        ensures within { length self.new.reader.rest.now ≤ length self.old.reader.rest.now }
    {
        let opened = self.reader.enter()?;
        let x = self.unary()?;
        self.reader.leave(opened);
        if is_delete(op) && is_name(&x) {
            return Err(ReadRefused::Unsupported(at, Feature::DeleteName));
        }
        self.reader.finish(at, ExprForm::Unary(op, x))
    }

    /// The operand of `++` or `--`.
    #[cycle(reading)]
    #[tactic(auto, unfolding(js_grammar::specs::Rest::part))]
    pub fn step_behind(&mut self, at: Place, op: StepOp) -> Result<Expr, ReadRefused>
        ensures answer { IsAnswer (spec.step_behind grammar at op) (rest_of self.old.reader) (rest_of self.new.reader) result }
        ensures within { length self.new.reader.rest.now ≤ length self.old.reader.rest.now }
    {
        let opened = self.reader.enter()?;
        let x = self.unary()?;
        self.reader.leave(opened);
        if !is_target(&x) {
            return Err(ReadRefused::Syntax(x.at));
        }
        self.reader.finish(at, ExprForm::Step(op, x))
    }
}
