//! Primary expressions, members, `new` and calls (11.1, 11.2).

ghost use Rattle.std.specs.Prelude.{◌<◌, ◌≤◌, length, IfOk};
ghost use Rattle.js_grammar.specs.Primary as spec;
ghost use Rattle.js_grammar.specs.Reading.{grammar};
ghost use Rattle.js_grammar.specs.Rest.{repeat};
ghost use Rattle.js_parse.specs.Frames.{IsFirst};
ghost use Rattle.token_reader.specs.Reader.{rest_of, IsAnswer};

use crate::frames::First;
use crate::parser::Parser;
use js_tree::{Elements, Expr, ExprForm, Exprs, Feature, Field, Keyword, Punctuator, ReadRefused};
use js_value::{Place, Seq, Text};
use token_marks::{is_abstract, is_residual};
use token_reader::Params;

impl<'a> Parser<'a> {
    // ---- primary expressions, members and calls

    /// Members and calls behind an expression.
    #[cycle(reading)]
    #[tactic(auto, using(js_grammar::proofs::Unrolled::members_unroll), unfolding(js_grammar::specs::Rest::next))]
    pub fn more_members(&mut self, calls: bool, mut left: Expr) -> Result<Expr, ReadRefused>
        ensures answer { IsAnswer (repeat (spec.more_members grammar calls) left) (rest_of self.old.reader) (rest_of self.new.reader) result }
        ensures within { length self.new.reader.rest.now ≤ length self.old.reader.rest.now }
    {
        'turn: loop {
            if self.reader.take(Punctuator::Dot) {
                left = self.reader.dotted_behind(left)?;
            } else if self.reader.take(Punctuator::LeftBracket) {
                left = self.index_behind(left)?;
            } else if calls && self.reader.take(Punctuator::LeftParenthesis) {
                left = self.call_behind(left)?;
            } else {
                return Ok(left);
            }
        }
    }

    /// The key of a member, behind its bracket (11.2.1).
    #[cycle(reading)]
    #[tactic(auto, unfolding(js_grammar::specs::Rest::part))]
    pub fn index_behind(&mut self, object: Expr) -> Result<Expr, ReadRefused>
        ensures answer { IsAnswer (spec.index_behind grammar object) (rest_of self.old.reader) (rest_of self.new.reader) result }
        ensures within { length self.new.reader.rest.now ≤ length self.old.reader.rest.now }
    {
        let opened = self.reader.enter()?;
        let key = self.expression(true)?;
        self.reader.expect(Punctuator::RightBracket)?;
        self.reader.leave(opened);
        self.reader.finish(object.at, ExprForm::Index(object, key))
    }

    /// The arguments of a call, behind their parenthesis (11.2.3).
    #[cycle(reading)]
    pub fn call_behind(&mut self, callee: Expr) -> Result<Expr, ReadRefused>
        ensures answer { IsAnswer (spec.call_behind grammar callee) (rest_of self.old.reader) (rest_of self.new.reader) result }
        ensures within { length self.new.reader.rest.now ≤ length self.old.reader.rest.now }
    {
        let args = self.arguments_behind()?;
        self.reader.finish(callee.at, ExprForm::Call(callee, args))
    }

    /// Arguments up to the parenthesis that closes (11.2.4).
    #[cycle(reading)]
    #[tactic(auto, unfolding(js_grammar::specs::Rest::next, js_grammar::specs::Rest::part, js_grammar::specs::Primary::arguments_behind))]
    pub fn arguments_behind(&mut self) -> Result<Exprs, ReadRefused>
        ensures answer { IsAnswer (spec.arguments_behind grammar) (rest_of self.old.reader) (rest_of self.new.reader) result }
        ensures within { length self.new.reader.rest.now ≤ length self.old.reader.rest.now }
    {
        let opened = self.reader.enter()?;
        let none = Seq::new(self.reader.alloc);
        if self.reader.take(Punctuator::RightParenthesis) {
            self.reader.leave(opened);
            return Ok(none);
        }
        let args = self.more_arguments(none)?;
        self.reader.leave(opened);
        Ok(args)
    }

    /// Arguments behind those so far.
    #[cycle(reading)]
    #[tactic(auto, using(js_grammar::proofs::Unrolled::arguments_unroll), unfolding(js_grammar::specs::Rest::next))]
    pub fn more_arguments(&mut self, mut so_far: Exprs) -> Result<Exprs, ReadRefused>
        ensures answer { IsAnswer (repeat (spec.more_arguments grammar) so_far) (rest_of self.old.reader) (rest_of self.new.reader) result }
        ensures within { length self.new.reader.rest.now ≤ length self.old.reader.rest.now }
    {
        'turn: loop {
            let x = self.assignment(true)?;
            so_far.push(x)?;
            if !self.reader.take(Punctuator::Comma) {
                self.reader.expect(Punctuator::RightParenthesis)?;
                return Ok(so_far);
            }
        }
    }

    /// A primary expression (11.1), or the beginning of a `new` or of an object literal.
    #[cycle(reading)]
    #[tactic(auto, unfolding(js_grammar::specs::Rest::next))]
    pub fn operand(&mut self) -> Result<First, ReadRefused>
        ensures answer { IsFirst (spec.operand grammar) (rest_of self.old.reader) (rest_of self.new.reader) result }
        ensures left { IfOk result (λ _. length self.new.reader.rest.now < length self.old.reader.rest.now) }
        ensures within { length self.new.reader.rest.now ≤ length self.old.reader.rest.now }
    {
        let at = self.reader.here();
        if self.reader.sees_word(Keyword::Function) {
            let x = self.function_here(at)?;
            return Ok(First::Whole(x));
        }
        if let Some(form) = self.reader.take_literal()? {
            let x = self.reader.finish(at, form)?;
            return Ok(First::Whole(x));
        }
        if let Some(text) = self.reader.take_name()? {
            let x = self.named_behind(at, text)?;
            return Ok(First::Whole(x));
        }
        self.enclosed_or_new(at)
    }

    /// An array or an expression in parentheses, or the beginning of an object or of a `new` (11.1.4 to 11.1.6).
    #[cycle(reading)]
    #[tactic(auto, unfolding(js_grammar::specs::Rest::next, js_grammar::specs::Primary::enclosed_or_new))]
    pub fn enclosed_or_new(&mut self, at: Place) -> Result<First, ReadRefused>
        ensures answer { IsFirst (spec.enclosed_or_new grammar at (spec.new_behind grammar at)) (rest_of self.old.reader) (rest_of self.new.reader) result }
        ensures left { IfOk result (λ _. length self.new.reader.rest.now < length self.old.reader.rest.now) }
        ensures within { length self.new.reader.rest.now ≤ length self.old.reader.rest.now }
    {
        if self.reader.take(Punctuator::LeftBracket) {
            let x = self.array_behind(at)?;
            return Ok(First::Whole(x));
        }
        if self.reader.take(Punctuator::LeftBrace) {
            return Ok(First::Object(at));
        }
        if self.reader.take(Punctuator::LeftParenthesis) {
            let x = self.group_behind()?;
            return Ok(First::Whole(x));
        }
        self.new_or_none(at)
    }

    /// The beginning of a `new` (11.2.2), or no operand.
    #[tactic(auto, unfolding(js_grammar::specs::Rest::next, js_grammar::specs::Primary::new_or_none))]
    pub fn new_or_none(&mut self, at: Place) -> Result<First, ReadRefused>
        ensures answer { IsFirst (spec.new_or_none at (spec.new_behind grammar at)) (rest_of self.old.reader) (rest_of self.new.reader) result }
        ensures left { IfOk result (λ _. length self.new.reader.rest.now < length self.old.reader.rest.now) }
        ensures within { length self.new.reader.rest.now ≤ length self.old.reader.rest.now }
    {
        if self.reader.take_word(Keyword::New) {
            return Ok(First::New(at));
        }
        if self.reader.sees_regular_expression() {
            return Err(ReadRefused::Unsupported(at, Feature::RegularExpression));
        }
        self.reader.unexpected()
    }

    /// A name, or one of the two forms.
    #[cycle(reading)]
    pub fn named_behind(&mut self, at: Place, text: Text) -> Result<Expr, ReadRefused>
        ensures answer { IsAnswer (spec.named_behind grammar at text) (rest_of self.old.reader) (rest_of self.new.reader) result }
        ensures within { length self.new.reader.rest.now ≤ length self.old.reader.rest.now }
    {
        if is_abstract(&text) {
            return self.reader.input(at);
        }
        if is_residual(&text) {
            return self.host_call(at);
        }
        self.reader.name(at, text)
    }

    /// `("number", "now", a, b)`
    #[cycle(reading)]
    #[tactic(auto, unfolding(js_grammar::specs::Rest::part, js_grammar::specs::Primary::residual_behind))]
    pub fn host_call(&mut self, at: Place) -> Result<Expr, ReadRefused>
        ensures answer { IsAnswer (spec.residual_behind grammar at) (rest_of self.old.reader) (rest_of self.new.reader) result }
        ensures within { length self.new.reader.rest.now ≤ length self.old.reader.rest.now }
    {
        let what = Feature::ResidualForm;
        self.reader.shape(at, what, Punctuator::LeftParenthesis)?;
        let opened = self.reader.enter()?;
        let kind = self.reader.shape_kind(at, what)?;
        self.reader.shape(at, what, Punctuator::Comma)?;
        let name = self.reader.shape_string(at, what)?;
        let args = self.more_host_arguments(at, Seq::new(self.reader.alloc))?;
        let form = ExprForm::HostCall(kind, name, args);
        let x = self.reader.finish(at, form)?;
        self.reader.leave(opened);
        Ok(x)
    }

    /// Arguments of a host call behind those so far.
    #[cycle(reading)]
    #[tactic(auto, using(js_grammar::proofs::Unrolled::host_arguments_unroll))]
    pub fn more_host_arguments(
        &mut self,
        at: Place,
        mut so_far: Exprs,
    ) -> Result<Exprs, ReadRefused>
        ensures answer { IsAnswer (repeat (spec.more_host_arguments grammar at) so_far) (rest_of self.old.reader) (rest_of self.new.reader) result }
        ensures within { length self.new.reader.rest.now ≤ length self.old.reader.rest.now }
    {
        'turn: loop {
            if !self.reader.shape_follows(at, Feature::ResidualForm)? {
                return Ok(so_far);
            }
            let x = self.assignment(true)?;
            so_far.push(x)?;
        }
    }

    /// The elements of an array literal (11.1.4).
    #[cycle(reading)]
    #[tactic(auto, unfolding(js_grammar::specs::Rest::part, js_grammar::specs::Primary::array_behind))]
    pub fn array_behind(&mut self, at: Place) -> Result<Expr, ReadRefused>
        ensures answer { IsAnswer (spec.array_behind grammar at) (rest_of self.old.reader) (rest_of self.new.reader) result }
        ensures within { length self.new.reader.rest.now ≤ length self.old.reader.rest.now }
    {
        let opened = self.reader.enter()?;
        let items = self.more_items(Seq::new(self.reader.alloc))?;
        self.reader.leave(opened);
        self.reader.finish(at, ExprForm::ArrayLit(items))
    }

    /// Elements behind those so far.
    #[cycle(reading)]
    #[tactic(auto, using(js_grammar::proofs::Unrolled::items_unroll), unfolding(js_grammar::specs::Rest::next))]
    pub fn more_items(&mut self, mut so_far: Elements) -> Result<Elements, ReadRefused>
        ensures answer { IsAnswer (repeat (spec.more_elements grammar) so_far) (rest_of self.old.reader) (rest_of self.new.reader) result }
        ensures within { length self.new.reader.rest.now ≤ length self.old.reader.rest.now }
    {
        'turn: loop {
            if self.reader.take(Punctuator::RightBracket) {
                return Ok(so_far);
            }
            if self.reader.take(Punctuator::Comma) {
                so_far.push(None)?;
                continue;
            }
            let x = self.assignment(true)?;
            so_far.push(Some(x))?;
            if !self.reader.take(Punctuator::Comma) {
                self.reader.expect(Punctuator::RightBracket)?;
                return Ok(so_far);
            }
        }
    }

    /// A getter (11.1.5).
    #[cycle(reading)]
    pub fn getter(&mut self) -> Result<Field, ReadRefused>
        ensures answer { IsAnswer (spec.getter grammar) (rest_of self.old.reader) (rest_of self.new.reader) result }
        ensures left { IfOk result (λ _. length self.new.reader.rest.now < length self.old.reader.rest.now) }
        ensures within { length self.new.reader.rest.now ≤ length self.old.reader.rest.now }
    {
        let start = self.reader.here();
        self.reader.expect_name()?;
        let at = self.reader.here();
        let key = self.reader.expect_property_name()?;
        let f = self.accessor(start, Params::No)?;
        Ok(Field::Getter(at, key, f))
    }

    /// A setter (11.1.5).
    #[cycle(reading)]
    pub fn setter(&mut self) -> Result<Field, ReadRefused>
        ensures answer { IsAnswer (spec.setter grammar) (rest_of self.old.reader) (rest_of self.new.reader) result }
        ensures left { IfOk result (λ _. length self.new.reader.rest.now < length self.old.reader.rest.now) }
        ensures within { length self.new.reader.rest.now ≤ length self.old.reader.rest.now }
    {
        let start = self.reader.here();
        self.reader.expect_name()?;
        let at = self.reader.here();
        let key = self.reader.expect_property_name()?;
        let f = self.accessor(start, Params::One)?;
        Ok(Field::Setter(at, key, f))
    }

    /// An expression in parentheses, behind the first (11.1.6).
    #[cycle(reading)]
    #[tactic(auto, unfolding(js_grammar::specs::Rest::part, js_grammar::specs::Primary::group_behind))]
    pub fn group_behind(&mut self) -> Result<Expr, ReadRefused>
        ensures answer { IsAnswer (spec.group_behind grammar) (rest_of self.old.reader) (rest_of self.new.reader) result }
        ensures within { length self.new.reader.rest.now ≤ length self.old.reader.rest.now }
    {
        let opened = self.reader.enter()?;
        let x = self.expression(true)?;
        self.reader.expect(Punctuator::RightParenthesis)?;
        self.reader.leave(opened);
        Ok(x)
    }

    /// A function expression (13).
    #[cycle(reading)]
    pub fn function_here(&mut self, at: Place) -> Result<Expr, ReadRefused>
        ensures answer { IsAnswer (spec.function_here grammar at) (rest_of self.old.reader) (rest_of self.new.reader) result }
        ensures left { IfOk result (λ _. length self.new.reader.rest.now < length self.old.reader.rest.now) }
        ensures within { length self.new.reader.rest.now ≤ length self.old.reader.rest.now }
    {
        let f = self.function_expression(at)?;
        self.reader.finish(at, ExprForm::Func(f))
    }
}
