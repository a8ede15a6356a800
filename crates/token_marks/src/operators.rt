//! Operators by their tokens.

ghost use Rattle.std.specs.Prelude.{◌≡◌, drop, IfOk, Some};
ghost use Rattle.js_grammar.specs.Marks as marks;
ghost use Rattle.js_grammar.specs.Operators as operators;
ghost use Rattle.js_grammar.specs.Climbing.{levels, tight};
ghost use Rattle.js_grammar.specs.Expressions as expressions;
ghost use Rattle.js_grammar.specs.Reading.{grammar};
ghost use Rattle.token_marks.specs.declared.operators.Operator.TheVariants as operator;
ghost use Rattle.token_marks.specs.Levels.{found_of, number};
ghost use Rattle.std.specs.Option.{option_map, option_or};

use js_tree::{ExprForm, Keyword, LogicOp, Punctuator, StepOp, Token, TokenForm};
use js_value::{BinaryOp, NoMemory, Primitive, UnaryOp};
use std::alloc::Global;

/// An operator with two operands that groups to the left (11.5 to 11.11).
#[derive(Clone, Copy, Debug, PartialEq, Eq)]
pub enum Operator {
    Binary(BinaryOp),
    Logic(LogicOp),
}

/// The levels of these operators, from loose to tight. None of them is of level `Any`.
#[derive(Clone, Copy, Debug, PartialEq, Eq)]
pub enum Level {
    Any,
    Or,
    And,
    BitOr,
    BitXor,
    BitAnd,
    Equality,
    Relational,
    Shift,
    Additive,
    Multiplicative,
}

/// `*`, `/` and `%` (11.5).
fn multiplicative(token: &TokenForm) -> Option<BinaryOp>
    ensures { result ≡ operators.multiplicative_operator token.now }
{
    match token {
        TokenForm::Punctuator(Punctuator::Star) => Some(BinaryOp::Mul),
        TokenForm::Punctuator(Punctuator::Slash) => Some(BinaryOp::Div),
        TokenForm::Punctuator(Punctuator::Percent) => Some(BinaryOp::Rem),
        _ => None,
    }
}

/// `+` and `-` (11.6).
fn additive(token: &TokenForm) -> Option<BinaryOp>
    ensures { result ≡ operators.additive_operator token.now }
{
    match token {
        TokenForm::Punctuator(Punctuator::Plus) => Some(BinaryOp::Add),
        TokenForm::Punctuator(Punctuator::Minus) => Some(BinaryOp::Sub),
        _ => None,
    }
}

/// Shifts (11.7).
fn shift(token: &TokenForm) -> Option<BinaryOp>
    ensures { result ≡ operators.shift_operator token.now }
{
    match token {
        TokenForm::Punctuator(Punctuator::Shl) => Some(BinaryOp::Shl),
        TokenForm::Punctuator(Punctuator::Sar) => Some(BinaryOp::Sar),
        TokenForm::Punctuator(Punctuator::Shr) => Some(BinaryOp::Shr),
        _ => None,
    }
}

/// Relations (11.8), with `in` where it is an operator.
fn relational(allows_in: bool, token: &TokenForm) -> Option<BinaryOp>
    ensures { result ≡ expressions.relational_operator grammar allows_in token.now }
{
    match token {
        TokenForm::Punctuator(Punctuator::Less) => Some(BinaryOp::Less),
        TokenForm::Punctuator(Punctuator::Greater) => Some(BinaryOp::Greater),
        TokenForm::Punctuator(Punctuator::LessEqual) => Some(BinaryOp::LessEqual),
        TokenForm::Punctuator(Punctuator::GreaterEqual) => Some(BinaryOp::GreaterEqual),
        TokenForm::Reserved(Keyword::InstanceOf) => Some(BinaryOp::InstanceOf),
        TokenForm::Reserved(Keyword::In) if allows_in => Some(BinaryOp::In),
        _ => None,
    }
}

/// Equalities (11.9).
fn equality(token: &TokenForm) -> Option<BinaryOp>
    ensures { result ≡ operators.equality_operator token.now }
{
    match token {
        TokenForm::Punctuator(Punctuator::Equal) => Some(BinaryOp::Equal),
        TokenForm::Punctuator(Punctuator::NotEqual) => Some(BinaryOp::NotEqual),
        TokenForm::Punctuator(Punctuator::Same) => Some(BinaryOp::Same),
        TokenForm::Punctuator(Punctuator::NotSame) => Some(BinaryOp::NotSame),
        _ => None,
    }
}

/// `&` (11.10).
fn bit_and(token: &TokenForm) -> Option<BinaryOp>
    ensures { result ≡ operators.bit_and_operator token.now }
{
    match token {
        TokenForm::Punctuator(Punctuator::BitAnd) => Some(BinaryOp::BitAnd),
        _ => None,
    }
}

/// `^` (11.10).
fn bit_xor(token: &TokenForm) -> Option<BinaryOp>
    ensures { result ≡ operators.bit_xor_operator token.now }
{
    match token {
        TokenForm::Punctuator(Punctuator::BitXor) => Some(BinaryOp::BitXor),
        _ => None,
    }
}

/// `|` (11.10).
fn bit_or(token: &TokenForm) -> Option<BinaryOp>
    ensures { result ≡ operators.bit_or_operator token.now }
{
    match token {
        TokenForm::Punctuator(Punctuator::BitOr) => Some(BinaryOp::BitOr),
        _ => None,
    }
}

/// The operator of an assignment that a token is (11.13): that of a compound one, or none.
pub fn assignment(token: &TokenForm) -> Option<Option<BinaryOp>>
    ensures { result ≡ operators.assignment_operator token.now }
{
    let TokenForm::Punctuator(mark) = token else {
        return None;
    };
    match mark {
        Punctuator::Assign => Some(None),
        Punctuator::PlusAssign => Some(Some(BinaryOp::Add)),
        Punctuator::MinusAssign => Some(Some(BinaryOp::Sub)),
        Punctuator::StarAssign => Some(Some(BinaryOp::Mul)),
        Punctuator::SlashAssign => Some(Some(BinaryOp::Div)),
        Punctuator::PercentAssign => Some(Some(BinaryOp::Rem)),
        Punctuator::ShlAssign => Some(Some(BinaryOp::Shl)),
        Punctuator::SarAssign => Some(Some(BinaryOp::Sar)),
        Punctuator::ShrAssign => Some(Some(BinaryOp::Shr)),
        Punctuator::BitAndAssign => Some(Some(BinaryOp::BitAnd)),
        Punctuator::BitOrAssign => Some(Some(BinaryOp::BitOr)),
        Punctuator::BitXorAssign => Some(Some(BinaryOp::BitXor)),
        _ => None,
    }
}

/// `++` or `--` behind an operand (11.3).
pub fn postfix(token: &TokenForm) -> Option<StepOp>
    ensures { result ≡ operators.postfix_operator token.now }
{
    match token {
        TokenForm::Punctuator(Punctuator::PlusPlus) => Some(StepOp::PostUp),
        TokenForm::Punctuator(Punctuator::MinusMinus) => Some(StepOp::PostDown),
        _ => None,
    }
}

/// `++` or `--` before an operand (11.4.4, 11.4.5).
pub fn prefix(token: &TokenForm) -> Option<StepOp>
    ensures { result ≡ operators.prefix_step token.now }
{
    match token {
        TokenForm::Punctuator(Punctuator::PlusPlus) => Some(StepOp::PreUp),
        TokenForm::Punctuator(Punctuator::MinusMinus) => Some(StepOp::PreDown),
        _ => None,
    }
}

/// The other prefix operators (11.4).
pub fn unary(token: &TokenForm) -> Option<UnaryOp>
    ensures { result ≡ operators.unary_operator token.now }
{
    match token {
        TokenForm::Reserved(Keyword::Delete) => Some(UnaryOp::Delete),
        TokenForm::Reserved(Keyword::Void) => Some(UnaryOp::Void),
        TokenForm::Reserved(Keyword::TypeOf) => Some(UnaryOp::TypeOf),
        TokenForm::Punctuator(Punctuator::Plus) => Some(UnaryOp::Plus),
        TokenForm::Punctuator(Punctuator::Minus) => Some(UnaryOp::Minus),
        TokenForm::Punctuator(Punctuator::BitNot) => Some(UnaryOp::BitNot),
        TokenForm::Punctuator(Punctuator::Not) => Some(UnaryOp::Not),
        _ => None,
    }
}

/// `&&` (11.11).
fn and(token: &TokenForm) -> Option<LogicOp>
    ensures { result ≡ operators.and_operator token.now }
{
    match token {
        TokenForm::Punctuator(Punctuator::And) => Some(LogicOp::And),
        _ => None,
    }
}

/// `||` (11.11).
fn or(token: &TokenForm) -> Option<LogicOp>
    ensures { result ≡ operators.or_operator token.now }
{
    match token {
        TokenForm::Punctuator(Punctuator::Or) => Some(LogicOp::Or),
        _ => None,
    }
}

/// The operator found at a tighter level, or else this one.
fn binary_or(
    tighter: Option<(Operator, Level)>,
    op: Option<BinaryOp>,
    level: Level,
) -> Option<(Operator, Level)>
    ensures { option_map found_of result ≡ option_or (option_map found_of tighter) (option_map (λ o. found_of (operator.Binary o, level)) op) }
{
    match (tighter, op) {
        (Some(found), _) => Some(found),
        (None, Some(op)) => Some((Operator::Binary(op), level)),
        (None, None) => None,
    }
}

/// The operator found at a tighter level, or else this one.
fn logic_or(
    tighter: Option<(Operator, Level)>,
    op: Option<LogicOp>,
    level: Level,
) -> Option<(Operator, Level)>
    ensures { option_map found_of result ≡ option_or (option_map found_of tighter) (option_map (λ o. found_of (operator.Logic o, level)) op) }
{
    match (tighter, op) {
        (Some(found), _) => Some(found),
        (None, Some(op)) => Some((Operator::Logic(op), level)),
        (None, None) => None,
    }
}

/// The operator that a token is, with its level, where that is tighter than this.
pub fn tight(level: Level, allows_in: bool, token: &TokenForm) -> Option<(Operator, Level)>
    ensures { option_map found_of result ≡ tight (number level) (drop (number level) (levels allows_in)) token.now }
{
    match level {
        Level::Any => {
            let tighter = tight(Level::Or, allows_in, token);
            logic_or(tighter, or(token), Level::Or)
        }
        Level::Or => {
            let tighter = tight(Level::And, allows_in, token);
            logic_or(tighter, and(token), Level::And)
        }
        Level::And => {
            let tighter = tight(Level::BitOr, allows_in, token);
            binary_or(tighter, bit_or(token), Level::BitOr)
        }
        Level::BitOr => {
            let tighter = tight(Level::BitXor, allows_in, token);
            binary_or(tighter, bit_xor(token), Level::BitXor)
        }
        Level::BitXor => {
            let tighter = tight(Level::BitAnd, allows_in, token);
            binary_or(tighter, bit_and(token), Level::BitAnd)
        }
        Level::BitAnd => {
            let tighter = tight(Level::Equality, allows_in, token);
            binary_or(tighter, equality(token), Level::Equality)
        }
        Level::Equality => {
            let tighter = tight(Level::Relational, allows_in, token);
            binary_or(tighter, relational(allows_in, token), Level::Relational)
        }
        Level::Relational => {
            let tighter = tight(Level::Shift, allows_in, token);
            binary_or(tighter, shift(token), Level::Shift)
        }
        Level::Shift => {
            let tighter = tight(Level::Additive, allows_in, token);
            binary_or(tighter, additive(token), Level::Additive)
        }
        Level::Additive => {
            let tighter = tight(Level::Multiplicative, allows_in, token);
            binary_or(tighter, multiplicative(token), Level::Multiplicative)
        }
        Level::Multiplicative => None,
    }
}

/// `this` or a literal (11.1.1, 11.1.3).
pub fn literal(alloc: Global, token: &TokenForm) -> Result<Option<ExprForm>, NoMemory>
    ensures { IfOk result (λ form. form ≡ marks.literal token.now) }
{
    match token {
        TokenForm::Reserved(Keyword::This) => Ok(Some(ExprForm::This)),
        TokenForm::Reserved(Keyword::Null) => Ok(Some(ExprForm::Literal(Primitive::Null))),
        TokenForm::Reserved(Keyword::True) => Ok(Some(ExprForm::Literal(Primitive::Boolean(true)))),
        TokenForm::Reserved(Keyword::False) => {
            Ok(Some(ExprForm::Literal(Primitive::Boolean(false))))
        }
        TokenForm::Number(n) => Ok(Some(ExprForm::Literal(Primitive::Number(*n)))),
        TokenForm::Str(text) => Ok(Some(ExprForm::Literal(Primitive::Text(text.copy(alloc)?)))),
        _ => Ok(None),
    }
}

/// Whether a prefix operator is `delete` (11.4.1).
pub fn is_delete(op: UnaryOp) -> bool
    ensures { result ≡ expressions.is_delete grammar op }
{
    match op {
        UnaryOp::Delete => true,
        _ => false,
    }
}

/// Whether a token is a postfix operator (11.3).
pub fn is_postfix(token: &Token) -> bool
    ensures { result ≡ expressions.is_postfix (Some token.now) }
{
    match postfix(&token.form) {
        Some(_) => true,
        None => false,
    }
}
