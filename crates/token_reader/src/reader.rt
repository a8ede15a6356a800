//! What is left of the tokens while they are read, and the steps that productions are made of.

ghost use Rattle.std.specs.Prelude.{◌≡◌, ◌<◌, ◌≤◌, length, is_some, true, IfOk};
ghost use Rattle.js_grammar.specs.Marks as marks;
ghost use Rattle.js_grammar.specs.Rest as spec;
ghost use Rattle.token_reader.specs.Reader.{all_of, rest_of, taken, IsAnswer, IsTaken};

use js_tree::{
    Expr, ExprForm, Func, Keyword, Punctuator, ReadRefused, Stmt, StmtForm, Stmts, Token,
    TokenForm, Tokens,
};
use js_value::{Box, FuncNo, NoMemory, Place, Seq, Text};
use std::alloc::Global;
use tree_heights::{is_stmt_within, is_within};

/// The tokens that are left, and what has been read of the others.
#[derive(Drop)]
pub struct Reader<'a> {
    pub alloc: Global,
    pub rest: &'a [Token],
    /// The length of the text.
    pub end: Place,
    /// The token directly before.
    pub last: Option<&'a Token>,
    /// How many parts may be open at once, and how many are.
    pub limit: u32,
    pub opened: u32,
    pub functions: Vec<Func>,
}

impl<'a> Reader<'a> {
    /// All tokens of a text. So many parts may be open at once, and no tree may be higher.
    pub fn new(alloc: Global, tokens: &'a Tokens, limit: u32) -> Reader<'a>
        ensures { rest_of result ≡ all_of tokens.now limit }
    {
        Reader {
            alloc,
            rest: tokens.items.as_slice(),
            end: tokens.end,
            last: None,
            limit,
            opened: 0,
            functions: Vec::new(alloc),
        }
    }

    /// The place of the next token, or the length of the text at its end.
    pub fn here(&self) -> Place
        ensures { result ≡ spec.place_of self.now.rest.now self.now.end }
    {
        match self.rest.first() {
            Some(token) => token.at,
            None => self.end,
        }
    }

    /// Whether no token is left.
    pub fn is_ended(&self) -> bool
        ensures { result ≡ spec.is_empty self.now.rest.now }
    {
        self.rest.is_empty()
    }

    /// Whether the next token stands on a later line than the one before it.
    pub fn begins_line(&self) -> bool
        ensures { result ≡ spec.begins_line self.now.rest.now }
    {
        match self.rest.first() {
            Some(token) => token.line_before,
            None => false,
        }
    }

    /// Goes behind the next token.
    pub fn pass(&mut self)
        ensures state { rest_of self.new ≡ spec.passed (rest_of self.old) }
        ensures left { 0 < length self.old.rest.now → length self.new.rest.now < length self.old.rest.now }
        ensures within { length self.new.rest.now ≤ length self.old.rest.now }
    {
        if let Some((first, rest)) = self.rest.split_first() {
            self.last = Some(first);
            self.rest = rest;
        } else {
            self.last = None;
        }
    }

    /// The next token can't go on.
    pub fn unexpected<A>(&self) -> Result<A, ReadRefused>
        ensures { IsAnswer spec.unexpected (rest_of self.now) (rest_of self.now) result }
    {
        Err(ReadRefused::Syntax(self.here()))
    }

    // ---- single tokens

    /// Whether the next token is this punctuator.
    pub fn sees(&self, mark: Punctuator) -> bool
        ensures { result ≡ is_some (spec.of_first (marks.punctuator mark) self.now.rest.now) }
    {
        match self.rest.first() {
            Some(
                Token {
                    form: TokenForm::Punctuator(found),
                    ..
                },
            ) => *found == mark,
            _ => false,
        }
    }

    /// Whether the next token is this reserved word.
    pub fn sees_word(&self, word: Keyword) -> bool
        ensures { result ≡ is_some (spec.of_first (marks.reserved word) self.now.rest.now) }
    {
        match self.rest.first() {
            Some(
                Token {
                    form: TokenForm::Reserved(found),
                    ..
                },
            ) => *found == word,
            _ => false,
        }
    }

    /// Takes the next token where it is this punctuator.
    pub fn take(&mut self, mark: Punctuator) -> bool
        ensures taken { IsTaken (marks.punctuator mark) (rest_of self.old) (rest_of self.new) (taken result) }
        ensures left { result ≡ true → length self.new.rest.now < length self.old.rest.now }
        ensures within { length self.new.rest.now ≤ length self.old.rest.now }
    {
        match self.rest.first() {
            Some(
                Token {
                    form: TokenForm::Punctuator(found),
                    ..
                },
            ) if *found == mark => {
                self.pass();
                true
            }
            _ => false,
        }
    }

    /// Takes the next token where it is this reserved word.
    pub fn take_word(&mut self, word: Keyword) -> bool
        ensures taken { IsTaken (marks.reserved word) (rest_of self.old) (rest_of self.new) (taken result) }
        ensures left { result ≡ true → length self.new.rest.now < length self.old.rest.now }
        ensures within { length self.new.rest.now ≤ length self.old.rest.now }
    {
        match self.rest.first() {
            Some(
                Token {
                    form: TokenForm::Reserved(found),
                    ..
                },
            ) if *found == word => {
                self.pass();
                true
            }
            _ => false,
        }
    }

    /// Takes the next token, which has to be this punctuator.
    #[tactic(auto, unfolding(js_grammar::specs::Rest::next))]
    pub fn expect(&mut self, mark: Punctuator) -> Result<(), ReadRefused>
        ensures answer { IsAnswer (spec.expect (marks.punctuator mark)) (rest_of self.old) (rest_of self.new) result }
        ensures left { IfOk result (λ _. length self.new.rest.now < length self.old.rest.now) }
        ensures within { length self.new.rest.now ≤ length self.old.rest.now }
    {
        if self.take(mark) {
            Ok(())
        } else {
            self.unexpected()
        }
    }

    /// Takes the next token, which has to be this reserved word.
    #[tactic(auto, unfolding(js_grammar::specs::Rest::next))]
    pub fn expect_word(&mut self, word: Keyword) -> Result<(), ReadRefused>
        ensures answer { IsAnswer (spec.expect (marks.reserved word)) (rest_of self.old) (rest_of self.new) result }
        ensures left { IfOk result (λ _. length self.new.rest.now < length self.old.rest.now) }
        ensures within { length self.new.rest.now ≤ length self.old.rest.now }
    {
        if self.take_word(word) {
            Ok(())
        } else {
            self.unexpected()
        }
    }

    // ---- open parts, functions and finished parts

    /// Begins a part that is counted as open. Answers how many parts were open.
    #[tactic(auto, unfolding(js_grammar::specs::Rest::enter))]
    pub fn enter(&mut self) -> Result<u32, ReadRefused>
        ensures answer { IsAnswer spec.enter (rest_of self.old) (rest_of self.new) result }
        ensures same { self.new.rest.now ≡ self.old.rest.now }
    {
        if self.is_ended() {
            return Err(ReadRefused::Syntax(self.end));
        }
        if self.opened >= self.limit {
            return Err(ReadRefused::Nested(self.here()));
        }
        let opened = self.opened;
        self.opened += 1;
        Ok(opened)
    }

    /// Ends a part, so that so many are open.
    #[tactic(auto, unfolding(js_grammar::specs::Rest::leave))]
    pub fn leave(&mut self, opened: u32)
        ensures answer { IsAnswer (spec.leave opened) (rest_of self.old) (rest_of self.new) (Ok tt) }
        ensures same { self.new.rest.now ≡ self.old.rest.now }
    {
        self.opened = opened;
    }

    /// Begins a function. Answers its number.
    #[tactic(auto, unfolding(js_grammar::specs::Rest::begin))]
    pub fn begin(&mut self, at: Place) -> Result<usize, ReadRefused>
        ensures answer { IsAnswer (spec.begin at) (rest_of self.old) (rest_of self.new) result }
        ensures same { self.new.rest.now ≡ self.old.rest.now }
        ensures within { IfOk result (λ n. n < length self.new.functions.items) }
    {
        let n = self.functions.len();
        self.functions.push(Func {
            at,
            name: None,
            params: Seq::new(self.alloc),
            directive: false,
            body: Seq::new(self.alloc),
        })?;
        Ok(n)
    }

    /// Keeps a function that was begun.
    #[tactic(auto, unfolding(js_grammar::specs::Rest::keep))]
    pub fn keep(&mut self, n: usize, f: Func) -> Result<FuncNo, ReadRefused>
        ensures answer { IsAnswer (spec.keep n f) (rest_of self.old) (rest_of self.new) result }
        ensures same { self.new.rest.now ≡ self.old.rest.now }
    {
        if let Some(place) = self.functions.get_mut(n) {
            *place = f;
        }
        Ok(FuncNo(n))
    }

    /// An expression, unless it is nested too deep.
    #[tactic(auto, unfolding(js_grammar::specs::Rest::finish))]
    pub fn finish(&self, at: Place, form: ExprForm) -> Result<Expr, ReadRefused>
        ensures { IsAnswer (spec.finish at form) (rest_of self.now) (rest_of self.now) result }
    {
        let x = Expr {
            at,
            form: Box::new(self.alloc, form)?,
        };
        if is_within(self.functions.as_slice(), self.limit, &x) {
            Ok(x)
        } else {
            Err(ReadRefused::Nested(at))
        }
    }

    /// A statement, unless it is nested too deep.
    #[tactic(auto, unfolding(js_grammar::specs::Rest::finish_stmt))]
    pub fn finish_stmt(&self, at: Place, form: StmtForm) -> Result<Stmt, ReadRefused>
        ensures { IsAnswer (spec.finish_stmt at form) (rest_of self.now) (rest_of self.now) result }
    {
        let t = Stmt {
            at,
            form: Box::new(self.alloc, form)?,
        };
        if is_stmt_within(self.functions.as_slice(), self.limit, &t) {
            Ok(t)
        } else {
            Err(ReadRefused::Nested(at))
        }
    }
}
