//! What a token is where a statement begins or ends (7.9, 12).

ghost use Rattle.std.specs.Prelude.{◌≡◌};
ghost use Rattle.std.specs.Option.{option_map};
ghost use Rattle.js_tree.specs.declared.token.TokenForm.TheVariants as form;
ghost use Rattle.js_grammar.specs.Ends as ends;
ghost use Rattle.js_grammar.specs.Marks as marks;
ghost use Rattle.js_grammar.specs.Reading.{grammar};
ghost use Rattle.js_grammar.specs.Statements as spec;
ghost use Rattle.token_marks.specs.Beginnings.{form_of, named};

use js_tree::{Keyword, Punctuator, StmtForm, Token, TokenForm};

/// The two jumps that may have a label.
#[derive(Clone, Copy, Debug, PartialEq, Eq)]
pub enum Jump {
    Continue,
    Break,
}

/// The statements that begin with a token of their own.
#[derive(Clone, Copy, Debug, PartialEq, Eq)]
pub enum Beginning {
    Block,
    Empty,
    Var,
    If,
    Do,
    While,
    For,
    Continue,
    Break,
    Return,
    With,
    Switch,
    Throw,
    Try,
    Debugger,
    Function,
}

/// The statement that a jump is (12.7, 12.8).
pub fn jump_form(jump: Jump) -> StmtForm
    ensures { result ≡ form_of jump }
{
    match jump {
        Jump::Continue => StmtForm::Continue,
        Jump::Break => StmtForm::Break,
    }
}

fn worded_beginning(word: Keyword) -> Option<Beginning>
    ensures { option_map named result ≡ spec.beginning (form.Reserved word) }
{
    match word {
        Keyword::Var => Some(Beginning::Var),
        Keyword::If => Some(Beginning::If),
        Keyword::Do => Some(Beginning::Do),
        Keyword::While => Some(Beginning::While),
        Keyword::For => Some(Beginning::For),
        Keyword::Continue => Some(Beginning::Continue),
        Keyword::Break => Some(Beginning::Break),
        Keyword::Return => Some(Beginning::Return),
        Keyword::With => Some(Beginning::With),
        Keyword::Switch => Some(Beginning::Switch),
        Keyword::Throw => Some(Beginning::Throw),
        Keyword::Try => Some(Beginning::Try),
        Keyword::Debugger => Some(Beginning::Debugger),
        Keyword::Function => Some(Beginning::Function),
        _ => None,
    }
}

/// The statement that begins with a token.
pub fn begins(token: &TokenForm) -> Option<Beginning>
    ensures { option_map named result ≡ spec.beginning token.now }
{
    match token {
        TokenForm::Punctuator(Punctuator::LeftBrace) => Some(Beginning::Block),
        TokenForm::Punctuator(Punctuator::Semicolon) => Some(Beginning::Empty),
        TokenForm::Reserved(word) => worded_beginning(*word),
        _ => None,
    }
}

/// Whether a token goes on with an expression however that ends.
pub fn joins(token: &TokenForm) -> bool
    ensures { result ≡ ends.joins token.now }
{
    match token {
        TokenForm::Punctuator(
            Punctuator::Comma
            | Punctuator::Question
            | Punctuator::Colon
            | Punctuator::Or
            | Punctuator::And
            | Punctuator::BitOr
            | Punctuator::BitXor
            | Punctuator::BitAnd
            | Punctuator::Equal
            | Punctuator::NotEqual
            | Punctuator::Same
            | Punctuator::NotSame
            | Punctuator::Less
            | Punctuator::Greater
            | Punctuator::LessEqual
            | Punctuator::GreaterEqual
            | Punctuator::Shl
            | Punctuator::Sar
            | Punctuator::Shr
            | Punctuator::Plus
            | Punctuator::Minus
            | Punctuator::Star
            | Punctuator::Slash
            | Punctuator::Percent,
        ) => true,
        TokenForm::Reserved(Keyword::InstanceOf | Keyword::In) => true,
        _ => false,
    }
}

/// Whether a token goes on with an expression that ends in no postfix operator.
pub fn extends(token: &TokenForm) -> bool
    ensures { result ≡ ends.extends token.now }
{
    match token {
        TokenForm::Punctuator(
            Punctuator::LeftParenthesis
            | Punctuator::LeftBracket
            | Punctuator::Dot
            | Punctuator::Assign
            | Punctuator::PlusAssign
            | Punctuator::MinusAssign
            | Punctuator::StarAssign
            | Punctuator::SlashAssign
            | Punctuator::PercentAssign
            | Punctuator::ShlAssign
            | Punctuator::SarAssign
            | Punctuator::ShrAssign
            | Punctuator::BitAndAssign
            | Punctuator::BitOrAssign
            | Punctuator::BitXorAssign,
        ) => true,
        _ => false,
    }
}

/// Whether a token goes on with a declared name.
pub fn continues_declared(token: &TokenForm) -> bool
    ensures { result ≡ ends.continues_declared token.now }
{
    match token {
        TokenForm::Punctuator(Punctuator::Comma | Punctuator::Assign) => true,
        _ => false,
    }
}

/// Whether a token ends a clause of a `switch` (12.11).
pub fn ends_case(token: &TokenForm) -> bool
    ensures { result ≡ spec.ends_case grammar token.now }
{
    match token {
        TokenForm::Reserved(Keyword::Case | Keyword::Default) => true,
        TokenForm::Punctuator(Punctuator::RightBrace) => true,
        _ => false,
    }
}

/// Whether a token is the string `use strict`, written without escapes (14.1).
pub fn is_use_strict(token: &Token) -> bool
    ensures { result ≡ marks.is_use_strict token.now }
{
    match &token.form {
        TokenForm::Str(text) => {
            text.is_spelled(b"use strict")
                && token.end.0 >= token.at.0
                && token.end.0 - token.at.0 == 12
        }
        _ => false,
    }
}
