//! Names that are declared (12.14, 13).

ghost use Rattle.std.specs.Prelude.{◌<◌, ◌≤◌, length, IfOk};
ghost use Rattle.js_grammar.specs.Functions as spec;
ghost use Rattle.js_grammar.specs.Reading.{grammar};
ghost use Rattle.js_grammar.specs.Rest.{repeat};
ghost use Rattle.token_reader.specs.Parts.{catch_name};
ghost use Rattle.token_reader.specs.Reader.{rest_of, params_by, IsAnswer};

use crate::reader::Reader;
use js_tree::{Name, Names, Punctuator, ReadRefused};
use js_value::Seq;
use token_marks::{barred, form_name};

/// Which parameters a function may have: any, none as a getter, or one as a setter.
#[derive(Clone, Copy, Debug, PartialEq, Eq)]
pub enum Params {
    Any,
    No,
    One,
}

impl<'a> Reader<'a> {
    /// A name that something declares.
    #[tactic(auto, unfolding(js_grammar::specs::Functions::declared_name))]
    pub fn declared_name(&mut self) -> Result<Name, ReadRefused>
        ensures answer { IsAnswer spec.declared_name (rest_of self.old) (rest_of self.new) result }
        ensures left { IfOk result (λ _. length self.new.rest.now < length self.old.rest.now) }
        ensures within { length self.new.rest.now ≤ length self.old.rest.now }
    {
        let at = self.here();
        let text = self.expect_name()?;
        if let Some(what) = barred(&text) {
            return Err(ReadRefused::Unsupported(at, what));
        }
        if let Some(what) = form_name(&text) {
            return Err(ReadRefused::Unsupported(at, what));
        }
        Ok(Name { at, text })
    }

    /// Parameters behind those so far.
    #[tactic(auto, using(js_grammar::proofs::Unrolled::parameters_unroll), unfolding(js_grammar::specs::Rest::next))]
    fn more_parameters(&mut self, mut so_far: Names) -> Result<Names, ReadRefused>
        ensures answer { IsAnswer (repeat spec.more_parameters so_far) (rest_of self.old) (rest_of self.new) result }
        ensures within { length self.new.rest.now ≤ length self.old.rest.now }
    {
        'turn: loop {
            let name = self.declared_name()?;
            so_far.push(name)?;
            if !self.take(Punctuator::Comma) {
                self.expect(Punctuator::RightParenthesis)?;
                return Ok(so_far);
            }
        }
    }

    /// The parameters of a function, up to the parenthesis that closes (13).
    #[tactic(auto, unfolding(js_grammar::specs::Rest::next, js_grammar::specs::Functions::parameters))]
    fn parameters(&mut self) -> Result<Names, ReadRefused>
        ensures answer { IsAnswer spec.parameters (rest_of self.old) (rest_of self.new) result }
        ensures within { length self.new.rest.now ≤ length self.old.rest.now }
    {
        let none = Seq::new(self.alloc);
        if self.take(Punctuator::RightParenthesis) {
            return Ok(none);
        }
        self.more_parameters(none)
    }

    fn no_parameter(&mut self) -> Result<Names, ReadRefused>
        ensures answer { IsAnswer (spec.no_parameter grammar) (rest_of self.old) (rest_of self.new) result }
        ensures within { length self.new.rest.now ≤ length self.old.rest.now }
    {
        self.expect(Punctuator::RightParenthesis)?;
        Ok(Seq::new(self.alloc))
    }

    fn one_parameter(&mut self) -> Result<Names, ReadRefused>
        ensures answer { IsAnswer (spec.one_parameter grammar) (rest_of self.old) (rest_of self.new) result }
        ensures within { length self.new.rest.now ≤ length self.old.rest.now }
    {
        let name = self.declared_name()?;
        self.expect(Punctuator::RightParenthesis)?;
        let mut all = Seq::new(self.alloc);
        all.push(name)?;
        Ok(all)
    }

    /// The parameters that a function may have, up to the parenthesis that closes.
    pub fn parameters_by(&mut self, params: Params) -> Result<Names, ReadRefused>
        ensures answer { IsAnswer (params_by params) (rest_of self.old) (rest_of self.new) result }
        ensures within { length self.new.rest.now ≤ length self.old.rest.now }
    {
        match params {
            Params::Any => self.parameters(),
            Params::No => self.no_parameter(),
            Params::One => self.one_parameter(),
        }
    }

    /// The name of what was thrown, behind its parenthesis (12.14).
    #[tactic(auto, unfolding(js_grammar::specs::Rest::part))]
    pub fn catch_name(&mut self) -> Result<Name, ReadRefused>
        ensures answer { IsAnswer catch_name (rest_of self.old) (rest_of self.new) result }
        ensures within { length self.new.rest.now ≤ length self.old.rest.now }
    {
        let opened = self.enter()?;
        let name = self.declared_name()?;
        self.expect(Punctuator::RightParenthesis)?;
        self.leave(opened);
        Ok(name)
    }
}
