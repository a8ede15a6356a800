//! Tokens by what they stand for: names, literals and operators, and how tight these bind.

ghost use Rattle.std.specs.Prelude.{◌≡◌, [], OnOk, true, false};
ghost use Rattle.js_tree.specs.declared.expression.ExprForm.{out-ExprForm};
ghost use Rattle.js_tree.specs.Lexing as lexing;
ghost use Rattle.script_text.specs.Expressions as spec;
ghost use Rattle.token_sheets.specs.Sheets.{put_all};

use crate::sheet::Sheet;
use js_tree::{ExprForm, LogicOp, StepOp, is_name_part, is_name_start};
use js_value::{BinaryOp, Kind, NoMemory, Primitive, Text, UnaryOp};
use script_text::Gap;
use std::alloc::Global;

/// A literal (7.8).
pub fn literal(alloc: Global, page: &mut Sheet, value: &Primitive) -> Result<(), NoMemory>
    ensures { OnOk result (page.new ≡ put_all (spec.literal value.now) page.old) }
{
    match value {
        Primitive::Undefined => page.word(b"undefined"),
        Primitive::Null => page.word(b"null"),
        Primitive::Boolean(true) => page.word(b"true"),
        Primitive::Boolean(false) => page.word(b"false"),
        Primitive::Number(n) => page.number(alloc, *n),
        Primitive::Text(text) => page.quoted(alloc, text, Gap::Loose),
    }
}

fn is_ascii_start(u: u16) -> bool
    ensures { result ≡ spec.is_ascii_start u }
{
    u < 128 && is_name_start(char::from(u as u8))
}

fn is_ascii_part(u: u16) -> bool
    ensures { result ≡ spec.is_ascii_part u }
{
    u < 128 && is_name_part(char::from(u as u8))
}

fn are_ascii_parts(key: &[u16]) -> bool
    ensures { result ≡ spec.are_ascii_parts key.now }
{
    for u in key {
        if !is_ascii_part(*u) {
            return false;
        }
    }
    true
}

/// Whether a key is an identifier name of ASCII alone (7.6).
fn is_ascii_name(key: &[u16]) -> bool
    ensures { result ≡ spec.is_ascii_name key.now }
{
    match key {
        [] => false,
        [first, more @ ..] => is_ascii_start(*first) && are_ascii_parts(more),
    }
}

/// A key of a literal, and what may stand behind it (11.1.5).
pub fn key(alloc: Global, page: &mut Sheet, key: &Text, behind: Gap) -> Result<(), NoMemory>
    ensures { OnOk result (page.new ≡ put_all (spec.key_before behind key.now) page.old) }
{
    if is_ascii_name(key.as_slice()) {
        return page.named(alloc, key, behind);
    }
    page.quoted(alloc, key, behind)
}

/// The two literals of an input or of a host call.
#[tactic(auto, unfolding(script_text::specs::Expressions::two_literals))]
pub fn two_literals(
    alloc: Global,
    page: &mut Sheet,
    kind: Kind,
    text: &Text,
) -> Result<(), NoMemory>
    ensures { OnOk result (page.new ≡ put_all (spec.two_literals kind text.now) page.old) }
{
    page.word(kind_text(kind))?;
    page.closing(b",")?;
    page.quoted(alloc, text, Gap::Loose)
}

fn kind_text(kind: Kind) -> &'static [u8]
    ensures { result.now ≡ spec.kind_text kind }
{
    match kind {
        Kind::Number => b"\"number\"",
        Kind::Boolean => b"\"boolean\"",
        Kind::Text => b"\"string\"",
    }
}

/// How an operator is written (11.5 to 11.10).
pub fn operator(op: BinaryOp) -> &'static [u8]
    ensures { result.now ≡ spec.operator op }
{
    match op {
        BinaryOp::Add => b"+",
        BinaryOp::Sub => b"-",
        BinaryOp::Mul => b"*",
        BinaryOp::Div => b"/",
        BinaryOp::Rem => b"%",
        BinaryOp::Shl => b"<<",
        BinaryOp::Sar => b">>",
        BinaryOp::Shr => b">>>",
        BinaryOp::BitAnd => b"&",
        BinaryOp::BitOr => b"|",
        BinaryOp::BitXor => b"^",
        BinaryOp::Less => b"<",
        BinaryOp::Greater => b">",
        BinaryOp::LessEqual => b"<=",
        BinaryOp::GreaterEqual => b">=",
        BinaryOp::Equal => b"==",
        BinaryOp::NotEqual => b"!=",
        BinaryOp::Same => b"===",
        BinaryOp::NotSame => b"!==",
        BinaryOp::In => b"in",
        BinaryOp::InstanceOf => b"instanceof",
    }
}

/// How the operator of an assignment is written (11.13). Those that no assignment is compounded with are written likewise.
pub fn assignment_operator(op: Option<BinaryOp>) -> &'static [u8]
    ensures { result.now ≡ spec.assignment_operator op }
{
    match op {
        None => b"=",
        Some(BinaryOp::Add) => b"+=",
        Some(BinaryOp::Sub) => b"-=",
        Some(BinaryOp::Mul) => b"*=",
        Some(BinaryOp::Div) => b"/=",
        Some(BinaryOp::Rem) => b"%=",
        Some(BinaryOp::Shl) => b"<<=",
        Some(BinaryOp::Sar) => b">>=",
        Some(BinaryOp::Shr) => b">>>=",
        Some(BinaryOp::BitAnd) => b"&=",
        Some(BinaryOp::BitOr) => b"|=",
        Some(BinaryOp::BitXor) => b"^=",
        Some(BinaryOp::Less) => b"<=",
        Some(BinaryOp::Greater) => b">=",
        Some(BinaryOp::LessEqual) => b"<==",
        Some(BinaryOp::GreaterEqual) => b">==",
        Some(BinaryOp::Equal) => b"===",
        Some(BinaryOp::NotEqual) => b"!==",
        Some(BinaryOp::Same) => b"====",
        Some(BinaryOp::NotSame) => b"!===",
        Some(BinaryOp::In) => b"in=",
        Some(BinaryOp::InstanceOf) => b"instanceof=",
    }
}

/// How an operator is written (11.11).
pub fn logic_operator(op: LogicOp) -> &'static [u8]
    ensures { result.now ≡ spec.logic_operator op }
{
    match op {
        LogicOp::And => b"&&",
        LogicOp::Or => b"||",
    }
}

/// An operator before its operand (11.4).
pub fn unary_operator(page: &mut Sheet, op: UnaryOp) -> Result<(), NoMemory>
    ensures { OnOk result (page.new ≡ put_all (spec.unary_operator op) page.old) }
{
    match op {
        UnaryOp::Plus => page.prefix(b"+"),
        UnaryOp::Minus => page.prefix(b"-"),
        UnaryOp::Not => page.prefix(b"!"),
        UnaryOp::BitNot => page.prefix(b"~"),
        UnaryOp::TypeOf => page.word(b"typeof"),
        UnaryOp::Void => page.word(b"void"),
        UnaryOp::Delete => page.word(b"delete"),
    }
}

/// How tight an operator binds (11.5 to 11.10).
pub fn binary_level(op: BinaryOp) -> u8
    ensures { result ≡ spec.binary_level op }
{
    match op {
        BinaryOp::Mul | BinaryOp::Div | BinaryOp::Rem => 13,
        BinaryOp::Add | BinaryOp::Sub => 12,
        BinaryOp::Shl | BinaryOp::Sar | BinaryOp::Shr => 11,
        BinaryOp::Less
        | BinaryOp::Greater
        | BinaryOp::LessEqual
        | BinaryOp::GreaterEqual
        | BinaryOp::InstanceOf
        | BinaryOp::In => 10,
        BinaryOp::Equal | BinaryOp::NotEqual | BinaryOp::Same | BinaryOp::NotSame => 9,
        BinaryOp::BitAnd => 8,
        BinaryOp::BitXor => 7,
        BinaryOp::BitOr => 6,
    }
}

/// How tight an operator binds (11.11).
pub fn logic_level(op: LogicOp) -> u8
    ensures { result ≡ spec.logic_level op }
{
    match op {
        LogicOp::And => 5,
        LogicOp::Or => 4,
    }
}

pub fn is_postfix(op: StepOp) -> bool
    ensures { result ≡ spec.is_postfix op }
{
    match op {
        StepOp::PreUp | StepOp::PreDown => false,
        StepOp::PostUp | StepOp::PostDown => true,
    }
}

/// How tight an expression is, from 1 for a comma to 17 for a primary expression.
pub fn level(form: &ExprForm) -> u8
    ensures { result ≡ spec.level (out-ExprForm form.now) }
{
    match form {
        ExprForm::Comma(_, _) => 1,
        ExprForm::Assign(_, _, _) => 2,
        ExprForm::Conditional(_, _, _) => 3,
        ExprForm::Logic(op, _, _) => logic_level(*op),
        ExprForm::Binary(op, _, _) => binary_level(*op),
        ExprForm::Unary(_, _) => 14,
        ExprForm::Step(op, _) => if is_postfix(*op) { 15 } else { 14 },
        ExprForm::Call(_, _)
        | ExprForm::New(_, _)
        | ExprForm::Member(_, _)
        | ExprForm::Index(_, _) => 16,
        ExprForm::This
        | ExprForm::Name(_)
        | ExprForm::Literal(_)
        | ExprForm::ArrayLit(_)
        | ExprForm::ObjectLit(_)
        | ExprForm::Func(_)
        | ExprForm::Input(_, _)
        | ExprForm::HostCall(_, _, _) => 17,
    }
}

pub fn is_number(form: &ExprForm) -> bool
    ensures { result ≡ spec.is_number (out-ExprForm form.now) }
{
    match form {
        ExprForm::Literal(Primitive::Number(_)) => true,
        _ => false,
    }
}

pub fn is_in(form: &ExprForm) -> bool
    ensures { result ≡ spec.is_in (out-ExprForm form.now) }
{
    match form {
        ExprForm::Binary(BinaryOp::In, _, _) => true,
        _ => false,
    }
}
