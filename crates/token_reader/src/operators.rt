//! Operators that come next.

ghost use Rattle.std.specs.Prelude.{◌≡◌, ◌<◌, ◌≤◌, drop, length, is_some, IfOk, IfSome};
ghost use Rattle.std.specs.Option.{option_map};
ghost use Rattle.js_grammar.specs.Climbing.{levels, tight};
ghost use Rattle.js_grammar.specs.Expressions as expressions;
ghost use Rattle.js_grammar.specs.Marks as marks;
ghost use Rattle.js_grammar.specs.Operators as operators;
ghost use Rattle.js_grammar.specs.Rest as spec;
ghost use Rattle.token_marks.specs.Levels.{found_of, number};
ghost use Rattle.token_reader.specs.Parts as parts;
ghost use Rattle.token_reader.specs.Reader.{rest_of, IsAnswer, IsTaken};

use crate::reader::Reader;
use js_tree::{Expr, ExprForm, Punctuator, ReadRefused, StepOp, Token, TokenForm};
use js_value::{BinaryOp, NoMemory, UnaryOp};
use token_marks::{
    Level, Operator, assignment, is_postfix, is_target, literal, postfix, prefix, tight, unary,
};

impl<'a> Reader<'a> {
    /// Takes the next token where it is the operator of an assignment.
    pub fn take_assignment_operator(&mut self) -> Option<Option<BinaryOp>>
        ensures taken { IsTaken operators.assignment_operator (rest_of self.old) (rest_of self.new) result }
        ensures left { IfSome result (λ _. length self.new.rest.now < length self.old.rest.now) }
        ensures within { length self.new.rest.now ≤ length self.old.rest.now }
    {
        let op = assignment(&self.rest.first()?.form)?;
        self.pass();
        Some(op)
    }

    /// Takes the next token where it is a postfix operator.
    pub fn take_postfix(&mut self) -> Option<StepOp>
        ensures taken { IsTaken operators.postfix_operator (rest_of self.old) (rest_of self.new) result }
        ensures left { IfSome result (λ _. length self.new.rest.now < length self.old.rest.now) }
        ensures within { length self.new.rest.now ≤ length self.old.rest.now }
    {
        let op = postfix(&self.rest.first()?.form)?;
        self.pass();
        Some(op)
    }

    /// Takes the next token where it is `++` or `--`.
    pub fn take_prefix_step(&mut self) -> Option<StepOp>
        ensures taken { IsTaken operators.prefix_step (rest_of self.old) (rest_of self.new) result }
        ensures left { IfSome result (λ _. length self.new.rest.now < length self.old.rest.now) }
        ensures within { length self.new.rest.now ≤ length self.old.rest.now }
    {
        let op = prefix(&self.rest.first()?.form)?;
        self.pass();
        Some(op)
    }

    /// Takes the next token where it is another prefix operator.
    pub fn take_unary(&mut self) -> Option<UnaryOp>
        ensures taken { IsTaken operators.unary_operator (rest_of self.old) (rest_of self.new) result }
        ensures left { IfSome result (λ _. length self.new.rest.now < length self.old.rest.now) }
        ensures within { length self.new.rest.now ≤ length self.old.rest.now }
    {
        let op = unary(&self.rest.first()?.form)?;
        self.pass();
        Some(op)
    }

    /// The operator that comes next, with its level, where that is tighter than this.
    pub fn next_operator(&self, level: Level, allows_in: bool) -> Option<(Operator, Level)>
        ensures { option_map found_of result ≡ spec.of_first (tight (number level) (drop (number level) (levels allows_in))) self.now.rest.now }
    {
        match self.rest.first() {
            Some(token) => tight(level, allows_in, &token.form),
            None => None,
        }
    }

    /// Takes the next token where it is `this` or a literal.
    pub fn take_literal(&mut self) -> Result<Option<ExprForm>, NoMemory>
        ensures taken { IfOk result (λ found. IsTaken marks.literal (rest_of self.old) (rest_of self.new) found) }
        ensures left { IfOk result (λ found. IfSome found (λ _. length self.new.rest.now < length self.old.rest.now)) }
        ensures within { length self.new.rest.now ≤ length self.old.rest.now }
    {
        let Some(token) = self.rest.first() else {
            return Ok(None);
        };
        let Some(form) = literal(self.alloc, &token.form)? else {
            return Ok(None);
        };
        self.pass();
        Ok(Some(form))
    }

    /// Whether the next token would begin a regular expression.
    pub fn sees_regular_expression(&self) -> bool
        ensures { result ≡ is_some (spec.of_first operators.regular_expression self.now.rest.now) }
    {
        matches!(
            self.rest.first(),
            Some(Token {
                form: TokenForm::Punctuator(Punctuator::Slash | Punctuator::SlashAssign),
                ..
            })
        )
    }

    /// Whether the token directly before is a postfix operator.
    pub fn is_behind_postfix(&self) -> bool
        ensures { result ≡ expressions.is_postfix (rest_of self.now).last }
    {
        match self.last {
            Some(token) => is_postfix(token),
            None => false,
        }
    }

    /// A postfix operator behind an operand, where there is one (11.3).
    #[tactic(auto, unfolding(js_grammar::specs::Rest::next))]
    pub fn stepped(&mut self, x: Expr) -> Result<Expr, ReadRefused>
        ensures answer { IsAnswer (parts.stepped x) (rest_of self.old) (rest_of self.new) result }
        ensures within { length self.new.rest.now ≤ length self.old.rest.now }
    {
        if self.begins_line() {
            return Ok(x);
        }
        let Some(op) = self.take_postfix() else {
            return Ok(x);
        };
        if !is_target(&x) {
            return Err(ReadRefused::Syntax(x.at));
        }
        self.finish(x.at, ExprForm::Step(op, x))
    }
}
