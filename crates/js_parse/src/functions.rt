//! Functions and source elements (13, 14).

ghost use Rattle.std.specs.Prelude.{◌<◌, ◌≤◌, length, IfOk};
ghost use Rattle.js_grammar.specs.Functions as spec;
ghost use Rattle.js_grammar.specs.Reading.{grammar};
ghost use Rattle.js_grammar.specs.Rest.{repeat};
ghost use Rattle.token_reader.specs.Reader.{rest_of, closed_by, params_by, IsAnswer};

use crate::parser::Parser;
use js_tree::{Feature, Func, Keyword, Name, Punctuator, ReadRefused, Stmt, Stmts};
use js_value::{FuncNo, Place, Seq};
use token_marks::is_string_statement;
use token_reader::{Closer, Params};

impl<'a> Parser<'a> {
    /// One more source element. `leads` where all before it are directives. Answers whether it is one (14.1).
    #[cycle(reading)]
    #[tactic(auto, unfolding(js_grammar::specs::Rest::part))]
    pub fn element_behind(&mut self, leads: bool) -> Result<(Stmt, bool), ReadRefused>
        ensures answer { IsAnswer (spec.element_behind grammar leads) (rest_of self.old.reader) (rest_of self.new.reader) result }
        ensures left { IfOk result (λ _. length self.new.reader.rest.now < length self.old.reader.rest.now) }
        ensures within { length self.new.reader.rest.now ≤ length self.old.reader.rest.now }
    {
        let at = self.reader.here();
        let is_string = self.reader.sees_string();
        let is_strict = self.reader.sees_use_strict();
        let opened = self.reader.enter()?;
        let t = self.element()?;
        self.reader.leave(opened);
        let is_directive = leads && is_string && is_string_statement(&t);
        if is_strict && is_directive {
            return Err(ReadRefused::Unsupported(at, Feature::StrictCode));
        }
        Ok((t, is_directive))
    }

    /// Source elements up to what ends them (14).
    #[cycle(reading)]
    #[tactic(auto, unfolding(js_grammar::specs::Functions::elements))]
    pub fn elements(&mut self, closer: Closer) -> Result<Stmts, ReadRefused>
        ensures answer { IsAnswer (spec.elements grammar (closed_by closer)) (rest_of self.old.reader) (rest_of self.new.reader) result }
        ensures within { length self.new.reader.rest.now ≤ length self.old.reader.rest.now }
    {
        self.more_elements(closer, Seq::new(self.reader.alloc), true)
    }

    /// Source elements behind those so far.
    #[cycle(reading)]
    #[tactic(auto, using(crate::proofs::Laws::elements_unroll))]
    pub fn more_elements(
        &mut self,
        closer: Closer,
        mut so_far: Stmts,
        mut leads: bool,
    ) -> Result<Stmts, ReadRefused>
        ensures answer { IsAnswer (repeat (spec.more_elements grammar (closed_by closer)) (so_far, leads)) (rest_of self.old.reader) (rest_of self.new.reader) result }
        ensures within { length self.new.reader.rest.now ≤ length self.old.reader.rest.now }
    {
        'turn: loop {
            if self.reader.is_closed(closer) {
                return Ok(so_far);
            }
            let (t, is_directive) = self.element_behind(leads)?;
            so_far.push(t)?;
            leads = is_directive;
        }
    }

    /// A body in its braces (13).
    #[cycle(reading)]
    #[tactic(auto, unfolding(js_grammar::specs::Rest::part, js_grammar::specs::Functions::function_body))]
    pub fn function_body(&mut self) -> Result<Stmts, ReadRefused>
        ensures answer { IsAnswer (spec.function_body grammar) (rest_of self.old.reader) (rest_of self.new.reader) result }
        ensures left { IfOk result (λ _. length self.new.reader.rest.now < length self.old.reader.rest.now) }
        ensures within { length self.new.reader.rest.now ≤ length self.old.reader.rest.now }
    {
        self.reader.expect(Punctuator::LeftBrace)?;
        let opened = self.reader.enter()?;
        let body = self.elements(Closer::Brace)?;
        self.reader.leave(opened);
        self.reader.expect(Punctuator::RightBrace)?;
        Ok(body)
    }

    /// What stands behind the name of a function, or behind the key of an accessor (13).
    #[cycle(reading)]
    #[tactic(auto, unfolding(js_grammar::specs::Rest::part, js_grammar::specs::Functions::function_behind))]
    pub fn function_behind(
        &mut self,
        at: Place,
        name: Option<Name>,
        params: Params,
    ) -> Result<Func, ReadRefused>
        ensures answer { IsAnswer (spec.function_behind grammar at name (params_by params)) (rest_of self.old.reader) (rest_of self.new.reader) result }
        ensures left { IfOk result (λ _. length self.new.reader.rest.now < length self.old.reader.rest.now) }
        ensures within { length self.new.reader.rest.now ≤ length self.old.reader.rest.now }
    {
        self.reader.expect(Punctuator::LeftParenthesis)?;
        let opened = self.reader.enter()?;
        let params = self.reader.parameters_by(params)?;
        self.reader.leave(opened);
        let body = self.function_body()?;
        Ok(Func {
            at,
            name,
            params,
            directive: false,
            body,
        })
    }

    /// The function of an accessor (11.1.5).
    #[cycle(reading)]
    #[tactic(auto, unfolding(js_grammar::specs::Rest::numbered, js_grammar::specs::Functions::accessor))]
    pub fn accessor(&mut self, at: Place, params: Params) -> Result<FuncNo, ReadRefused>
        ensures answer { IsAnswer (spec.accessor grammar at (params_by params)) (rest_of self.old.reader) (rest_of self.new.reader) result }
        ensures left { IfOk result (λ _. length self.new.reader.rest.now < length self.old.reader.rest.now) }
        ensures within { length self.new.reader.rest.now ≤ length self.old.reader.rest.now }
    {
        let n = self.reader.begin(at)?;
        let f = self.function_behind(at, None, params)?;
        self.reader.keep(n, f)
    }

    /// A function that may be without a name (13).
    #[cycle(reading)]
    #[tactic(auto, unfolding(js_grammar::specs::Rest::numbered, js_grammar::specs::Functions::function_expression))]
    pub fn function_expression(&mut self, at: Place) -> Result<FuncNo, ReadRefused>
        ensures answer { IsAnswer (spec.function_expression grammar at) (rest_of self.old.reader) (rest_of self.new.reader) result }
        ensures left { IfOk result (λ _. length self.new.reader.rest.now < length self.old.reader.rest.now) }
        ensures within { length self.new.reader.rest.now ≤ length self.old.reader.rest.now }
    {
        self.reader.expect_word(Keyword::Function)?;
        let named = self.reader.sees_name();
        let n = self.reader.begin(at)?;
        let name = if named {
            Some(self.reader.declared_name()?)
        } else {
            None
        };
        let f = self.function_behind(at, name, Params::Any)?;
        self.reader.keep(n, f)
    }

    /// A function declaration (13).
    #[cycle(reading)]
    #[tactic(auto, unfolding(js_grammar::specs::Rest::numbered, js_grammar::specs::Functions::function_declaration))]
    pub fn function_declaration(&mut self, at: Place) -> Result<FuncNo, ReadRefused>
        ensures answer { IsAnswer (spec.function_declaration grammar at) (rest_of self.old.reader) (rest_of self.new.reader) result }
        ensures left { IfOk result (λ _. length self.new.reader.rest.now < length self.old.reader.rest.now) }
        ensures within { length self.new.reader.rest.now ≤ length self.old.reader.rest.now }
    {
        self.reader.expect_word(Keyword::Function)?;
        let n = self.reader.begin(at)?;
        let name = self.reader.declared_name()?;
        let f = self.function_behind(at, Some(name), Params::Any)?;
        self.reader.keep(n, f)
    }
}
