//! Where a statement ends (7.9, by a rule of this project's own).

ghost use Rattle.std.specs.Prelude.{◌≡◌, ◌≤◌, length};
ghost use Rattle.js_grammar.specs.Ends as spec;
ghost use Rattle.js_grammar.specs.Marks as marks;
ghost use Rattle.js_grammar.specs.Reading.{grammar};
ghost use Rattle.js_grammar.specs.Statements.{continues_var};
ghost use Rattle.token_reader.specs.Reader.{rest_of, IsAnswer};

use crate::reader::Reader;
use js_tree::{Declarators, Punctuator, ReadRefused};
use token_marks::{continues_declared, extends, joins, last_has_init};

impl<'a> Reader<'a> {
    /// Whether a statement that ends in an expression may end before the next token without a semicolon.
    fn may_end_expression(&self) -> bool
        ensures { result ≡ spec.may_end (spec.continues_expression (rest_of self.now).last) self.now.rest.now }
    {
        let stepped = self.is_behind_postfix();
        match self.rest.first() {
            None => true,
            Some(token) => {
                self.sees(Punctuator::RightBrace)
                    || token.line_before
                        && !(joins(&token.form) || extends(&token.form) && !stepped)
            }
        }
    }

    /// Whether a `var` without a last initialiser may end before the next token without a semicolon.
    fn may_end_declared(&self) -> bool
        ensures { result ≡ spec.may_end spec.continues_declared self.now.rest.now }
    {
        match self.rest.first() {
            None => true,
            Some(token) => {
                self.sees(Punctuator::RightBrace)
                    || token.line_before && !continues_declared(&token.form)
            }
        }
    }

    /// Whether a `do` may end before the next token without a semicolon.
    fn may_end_do(&self) -> bool
        ensures { result ≡ spec.may_end spec.continues_do self.now.rest.now }
    {
        match self.rest.first() {
            None => true,
            Some(token) => self.sees(Punctuator::RightBrace) || token.line_before,
        }
    }

    /// The end of a statement that ends in an expression.
    #[tactic(auto, unfolding(js_grammar::specs::Rest::next, js_grammar::specs::Ends::ends))]
    pub fn end_expression(&mut self) -> Result<(), ReadRefused>
        ensures answer { IsAnswer (spec.ends spec.continues_expression) (rest_of self.old) (rest_of self.new) result }
        ensures within { length self.new.rest.now ≤ length self.old.rest.now }
    {
        if self.take(Punctuator::Semicolon) || self.may_end_expression() {
            return Ok(());
        }
        self.unexpected()
    }

    /// The end of a `do`.
    #[tactic(auto, unfolding(js_grammar::specs::Rest::next, js_grammar::specs::Ends::ends))]
    pub fn end_do(&mut self) -> Result<(), ReadRefused>
        ensures answer { IsAnswer (spec.ends (λ last. spec.continues_do)) (rest_of self.old) (rest_of self.new) result }
        ensures within { length self.new.rest.now ≤ length self.old.rest.now }
    {
        if self.take(Punctuator::Semicolon) || self.may_end_do() {
            return Ok(());
        }
        self.unexpected()
    }

    /// The end of a `var`.
    #[tactic(auto, unfolding(js_grammar::specs::Rest::next, js_grammar::specs::Ends::ends))]
    pub fn end_declarators(&mut self, all: &Declarators) -> Result<(), ReadRefused>
        ensures answer { IsAnswer (spec.ends (continues_var grammar all.now)) (rest_of self.old) (rest_of self.new) result }
        ensures within { length self.new.rest.now ≤ length self.old.rest.now }
    {
        if last_has_init(all.as_slice()) {
            return self.end_expression();
        }
        if self.take(Punctuator::Semicolon) || self.may_end_declared() {
            return Ok(());
        }
        self.unexpected()
    }
}
