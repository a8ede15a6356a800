//! Names, members and inputs (11.1.2, 11.2.1).

ghost use Rattle.std.specs.Prelude.{◌≡◌, ◌≤◌, drop, length, is_some};
ghost use Rattle.js_grammar.specs.Marks as marks;
ghost use Rattle.js_grammar.specs.Primary as spec;
ghost use Rattle.js_grammar.specs.Reading.{grammar};
ghost use Rattle.js_grammar.specs.Rest.{of_first};
ghost use Rattle.token_reader.specs.Reader.{rest_of, IsAnswer};

use crate::reader::Reader;
use js_tree::{Expr, ExprForm, Feature, Punctuator, ReadRefused, Token, TokenForm};
use js_value::{Kind, Place, Text};
use token_marks::barred;

impl<'a> Reader<'a> {
    // ---- the two forms for inputs and host calls

    /// Takes the punctuator that the shape of a form wants next.
    #[tactic(auto, unfolding(js_grammar::specs::Rest::next))]
    pub fn shape(&mut self, at: Place, what: Feature, mark: Punctuator) -> Result<(), ReadRefused>
        ensures answer { IsAnswer (spec.in_shape at what (marks.punctuator mark)) (rest_of self.old) (rest_of self.new) result }
        ensures within { length self.new.rest.now ≤ length self.old.rest.now }
    {
        if self.is_ended() {
            return self.unexpected();
        }
        if self.take(mark) {
            return Ok(());
        }
        Err(ReadRefused::Unsupported(at, what))
    }

    /// Takes the type that the shape of a form wants next.
    #[tactic(auto, unfolding(js_grammar::specs::Rest::next))]
    pub fn shape_kind(&mut self, at: Place, what: Feature) -> Result<Kind, ReadRefused>
        ensures answer { IsAnswer (spec.in_shape at what marks.kind_string) (rest_of self.old) (rest_of self.new) result }
        ensures within { length self.new.rest.now ≤ length self.old.rest.now }
    {
        if self.is_ended() {
            return self.unexpected();
        }
        match self.take_kind() {
            Some(kind) => Ok(kind),
            None => Err(ReadRefused::Unsupported(at, what)),
        }
    }

    /// Takes the string that the shape of a form wants next.
    #[tactic(auto, unfolding(js_grammar::specs::Rest::next))]
    pub fn shape_string(&mut self, at: Place, what: Feature) -> Result<Text, ReadRefused>
        ensures answer { IsAnswer (spec.in_shape at what marks.string) (rest_of self.old) (rest_of self.new) result }
        ensures within { length self.new.rest.now ≤ length self.old.rest.now }
    {
        if self.is_ended() {
            return self.unexpected();
        }
        match self.take_string()? {
            Some(text) => Ok(text),
            None => Err(ReadRefused::Unsupported(at, what)),
        }
    }

    /// Takes the comma before an argument, or the end of a host call. Answers whether an argument follows.
    #[tactic(auto, unfolding(js_grammar::specs::Rest::next))]
    pub fn shape_follows(&mut self, at: Place, what: Feature) -> Result<bool, ReadRefused>
        ensures answer { IsAnswer (spec.in_shape at what spec.comma_or_end) (rest_of self.old) (rest_of self.new) result }
        ensures within { length self.new.rest.now ≤ length self.old.rest.now }
    {
        if self.is_ended() {
            return self.unexpected();
        }
        if self.take(Punctuator::Comma) {
            return Ok(true);
        }
        if self.take(Punctuator::RightParenthesis) {
            return Ok(false);
        }
        Err(ReadRefused::Unsupported(at, what))
    }

    /// `("number", "n")`
    #[tactic(auto, unfolding(js_grammar::specs::Primary::abstract_behind, js_grammar::specs::Rest::part))]
    pub fn input(&mut self, at: Place) -> Result<Expr, ReadRefused>
        ensures answer { IsAnswer (spec.abstract_behind at) (rest_of self.old) (rest_of self.new) result }
        ensures within { length self.new.rest.now ≤ length self.old.rest.now }
    {
        self.shape(at, Feature::AbstractForm, Punctuator::LeftParenthesis)?;
        let opened = self.enter()?;
        let kind = self.shape_kind(at, Feature::AbstractForm)?;
        self.shape(at, Feature::AbstractForm, Punctuator::Comma)?;
        let name = self.shape_string(at, Feature::AbstractForm)?;
        self.shape(at, Feature::AbstractForm, Punctuator::RightParenthesis)?;
        let x = self.finish(at, ExprForm::Input(kind, name))?;
        self.leave(opened);
        Ok(x)
    }

    /// A name, unless it isn't supported.
    pub fn name(&mut self, at: Place, text: Text) -> Result<Expr, ReadRefused>
        ensures answer { IsAnswer (spec.name_behind at text) (rest_of self.old) (rest_of self.new) result }
        ensures same { self.new.rest.now ≡ self.old.rest.now }
    {
        if let Some(what) = barred(&text) {
            return Err(ReadRefused::Unsupported(at, what));
        }
        self.finish(at, ExprForm::Name(text))
    }

    /// Whether `get` or `set` comes next.
    pub fn sees_accessor(&self, word: &[u8]) -> bool
        ensures { result ≡ is_some (of_first (marks.accessor_word word.now) self.now.rest.now) }
    {
        match self.rest.first() {
            Some(
                Token {
                    form: TokenForm::Name(text),
                    ..
                },
            ) => text.is_spelled(word),
            _ => false,
        }
    }

    /// Whether the token behind the next one names a property.
    pub fn sees_property_second(&self) -> bool
        ensures { result ≡ is_some (of_first marks.property_name (drop 1 self.now.rest.now)) }
    {
        match self.rest.get(1) {
            Some(
                Token {
                    form: TokenForm::Punctuator(_),
                    ..
                },
            ) => false,
            Some(_) => true,
            None => false,
        }
    }

    /// The name of a member, behind its dot (11.2.1).
    pub fn dotted_behind(&mut self, object: Expr) -> Result<Expr, ReadRefused>
        ensures answer { IsAnswer (spec.dotted_behind grammar object) (rest_of self.old) (rest_of self.new) result }
        ensures within { length self.new.rest.now ≤ length self.old.rest.now }
    {
        let key = self.expect_identifier_name()?;
        self.finish(object.at, ExprForm::Member(object, key))
    }
}
