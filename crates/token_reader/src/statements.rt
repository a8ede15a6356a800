//! Where statements begin and end (12).

ghost use Rattle.std.specs.Prelude.{◌≡◌, ◌<◌, ◌≤◌, Ok, drop, length, is_some, IfSome};
ghost use Rattle.std.specs.Option.{option_map};
ghost use Rattle.js_grammar.specs.Ends.{line_ends};
ghost use Rattle.js_grammar.specs.Functions as functions;
ghost use Rattle.js_grammar.specs.Marks as marks;
ghost use Rattle.js_grammar.specs.Reading.{grammar};
ghost use Rattle.js_grammar.specs.Rest.{of_first};
ghost use Rattle.js_grammar.specs.Statements as spec;
ghost use Rattle.token_marks.specs.Beginnings.{form_of, named};
ghost use Rattle.token_reader.specs.Reader.{rest_of, closed_by, IsAnswer, IsTaken};

use crate::reader::Reader;
use js_tree::{Feature, Punctuator, ReadRefused, Stmt, Token, TokenForm};
use js_value::Place;
use token_marks::{Beginning, Jump, barred, begins, ends_case, is_use_strict, jump_form};

/// What ends a list of statements.
#[derive(Clone, Copy, Debug, PartialEq, Eq)]
pub enum Closer {
    End,
    Brace,
    Case,
}

impl<'a> Reader<'a> {
    /// Takes the next token where a statement begins with it.
    pub fn take_beginning(&mut self) -> Option<Beginning>
        ensures taken { IsTaken spec.beginning (rest_of self.old) (rest_of self.new) (option_map named result) }
        ensures left { IfSome result (λ _. length self.new.rest.now < length self.old.rest.now) }
        ensures within { length self.new.rest.now ≤ length self.old.rest.now }
    {
        let first = begins(&self.rest.first()?.form)?;
        self.pass();
        Some(first)
    }

    /// Whether the token behind the next one is a colon.
    pub fn sees_colon_second(&self) -> bool
        ensures { result ≡ is_some (of_first marks.colon (drop 1 self.now.rest.now)) }
    {
        match self.rest.get(1) {
            Some(
                Token {
                    form: TokenForm::Punctuator(mark),
                    ..
                },
            ) => *mark == Punctuator::Colon,
            _ => false,
        }
    }

    /// Whether a line end or the end of the text comes next.
    pub fn is_line_ended(&self) -> bool
        ensures { line_ends (rest_of self.now) ≡ Ok (result, rest_of self.now) }
    {
        self.begins_line() || self.is_ended()
    }

    /// `continue` or `break` (12.7, 12.8).
    #[tactic(auto, unfolding(js_grammar::specs::Rest::next))]
    pub fn jump_behind(&mut self, jump: Jump, at: Place) -> Result<Stmt, ReadRefused>
        ensures answer { IsAnswer (spec.jump_behind grammar (form_of jump) at) (rest_of self.old) (rest_of self.new) result }
        ensures within { length self.new.rest.now ≤ length self.old.rest.now }
    {
        if self.is_line_ended() {
            return self.finish_stmt(at, jump_form(jump));
        }
        let name_at = self.here();
        if let Some(name) = self.take_name()? {
            if let Some(what) = barred(&name) {
                return Err(ReadRefused::Unsupported(name_at, what));
            }
            return Err(ReadRefused::Unsupported(name_at, Feature::Label));
        }
        self.end_expression()?;
        self.finish_stmt(at, jump_form(jump))
    }

    /// Whether the next token is `"use strict"`.
    pub fn sees_use_strict(&self) -> bool
        ensures { result ≡ functions.starts_with_use_strict self.now.rest.now }
    {
        match self.rest.first() {
            Some(token) => is_use_strict(token),
            None => false,
        }
    }

    /// Whether what ends a list of statements comes next.
    pub fn is_closed(&self, closer: Closer) -> bool
        ensures { closed_by closer (rest_of self.now) ≡ Ok (result, rest_of self.now) }
    {
        match closer {
            Closer::End => self.is_ended(),
            Closer::Brace => self.sees(Punctuator::RightBrace),
            Closer::Case => self.sees_case_end(),
        }
    }

    /// Whether the next token ends a clause of a `switch`.
    fn sees_case_end(&self) -> bool
        ensures { result ≡ spec.starts_with_case_end grammar self.now.rest.now }
    {
        match self.rest.first() {
            Some(token) => ends_case(&token.form),
            None => false,
        }
    }
}
