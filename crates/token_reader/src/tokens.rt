//! Tokens by what they are in a production.

ghost use Rattle.std.specs.Prelude.{◌≡◌, ◌<◌, ◌≤◌, length, is_some, IfOk, IfSome};
ghost use Rattle.js_grammar.specs.Marks as marks;
ghost use Rattle.js_grammar.specs.Operators as operators;
ghost use Rattle.js_grammar.specs.Rest as spec;
ghost use Rattle.token_reader.specs.Reader.{rest_of, IsAnswer, IsTaken};

use crate::reader::Reader;
use js_tree::{ExprForm, Keyword, LogicOp, Punctuator, ReadRefused, StepOp, Token, TokenForm};
use js_value::{BinaryOp, Kind, NoMemory, Primitive, Text, UnaryOp};
use token_marks::{kind_of, property_name, spelled, text_of};

impl<'a> Reader<'a> {
    // ---- names and literals

    /// Whether the next token is a name.
    pub fn sees_name(&self) -> bool
        ensures { result ≡ is_some (spec.of_first marks.identifier self.now.rest.now) }
    {
        matches!(
            self.rest.first(),
            Some(Token {
                form: TokenForm::Name(_),
                ..
            })
        )
    }

    /// Whether the next token is a string.
    pub fn sees_string(&self) -> bool
        ensures { result ≡ is_some (spec.of_first marks.string self.now.rest.now) }
    {
        matches!(
            self.rest.first(),
            Some(Token {
                form: TokenForm::Str(_),
                ..
            })
        )
    }

    /// Takes the next token where it is a name.
    pub fn take_name(&mut self) -> Result<Option<Text>, NoMemory>
        ensures taken { IfOk result (λ found. IsTaken marks.identifier (rest_of self.old) (rest_of self.new) found) }
        ensures left { IfOk result (λ found. IfSome found (λ _. length self.new.rest.now < length self.old.rest.now)) }
        ensures within { length self.new.rest.now ≤ length self.old.rest.now }
    {
        match self.rest.first() {
            Some(
                Token {
                    form: TokenForm::Name(text),
                    ..
                },
            ) => {
                let text = text.copy(self.alloc)?;
                self.pass();
                Ok(Some(text))
            }
            _ => Ok(None),
        }
    }

    /// Takes the next token, which has to be a name.
    #[tactic(auto, unfolding(js_grammar::specs::Rest::next))]
    pub fn expect_name(&mut self) -> Result<Text, ReadRefused>
        ensures answer { IsAnswer (spec.expect marks.identifier) (rest_of self.old) (rest_of self.new) result }
        ensures left { IfOk result (λ _. length self.new.rest.now < length self.old.rest.now) }
        ensures within { length self.new.rest.now ≤ length self.old.rest.now }
    {
        match self.take_name()? {
            Some(text) => Ok(text),
            None => self.unexpected(),
        }
    }

    /// Takes the next token where it is a string.
    pub fn take_string(&mut self) -> Result<Option<Text>, NoMemory>
        ensures taken { IfOk result (λ found. IsTaken marks.string (rest_of self.old) (rest_of self.new) found) }
        ensures left { IfOk result (λ found. IfSome found (λ _. length self.new.rest.now < length self.old.rest.now)) }
        ensures within { length self.new.rest.now ≤ length self.old.rest.now }
    {
        match self.rest.first() {
            Some(
                Token {
                    form: TokenForm::Str(text),
                    ..
                },
            ) => {
                let text = text.copy(self.alloc)?;
                self.pass();
                Ok(Some(text))
            }
            _ => Ok(None),
        }
    }

    /// Takes the next token where it is a string that names a type.
    pub fn take_kind(&mut self) -> Option<Kind>
        ensures taken { IsTaken marks.kind_string (rest_of self.old) (rest_of self.new) result }
        ensures left { IfSome result (λ _. length self.new.rest.now < length self.old.rest.now) }
        ensures within { length self.new.rest.now ≤ length self.old.rest.now }
    {
        match self.rest.first() {
            Some(
                Token {
                    form: TokenForm::Str(text),
                    ..
                },
            ) => {
                let kind = kind_of(text)?;
                self.pass();
                Some(kind)
            }
            _ => None,
        }
    }

    /// Takes the next token, which has to be a name or a reserved word.
    #[tactic(auto, unfolding(js_grammar::specs::Rest::next))]
    pub fn expect_identifier_name(&mut self) -> Result<Text, ReadRefused>
        ensures answer { IsAnswer (spec.expect marks.identifier_name) (rest_of self.old) (rest_of self.new) result }
        ensures left { IfOk result (λ _. length self.new.rest.now < length self.old.rest.now) }
        ensures within { length self.new.rest.now ≤ length self.old.rest.now }
    {
        let text = match self.rest.first() {
            Some(
                Token {
                    form: TokenForm::Name(text),
                    ..
                },
            ) => text.copy(self.alloc)?,
            Some(
                Token {
                    form: TokenForm::Reserved(word),
                    ..
                },
            ) => text_of(self.alloc, spelled(*word))?,
            _ => return self.unexpected(),
        };
        self.pass();
        Ok(text)
    }

    /// Takes the next token, which has to name a property.
    #[tactic(auto, unfolding(js_grammar::specs::Rest::next))]
    pub fn expect_property_name(&mut self) -> Result<Text, ReadRefused>
        ensures answer { IsAnswer (spec.expect marks.property_name) (rest_of self.old) (rest_of self.new) result }
        ensures left { IfOk result (λ _. length self.new.rest.now < length self.old.rest.now) }
        ensures within { length self.new.rest.now ≤ length self.old.rest.now }
    {
        let text = match self.rest.first() {
            Some(token) => property_name(self.alloc, &token.form)?,
            None => None,
        };
        match text {
            Some(text) => {
                self.pass();
                Ok(text)
            }
            None => self.unexpected(),
        }
    }
}
