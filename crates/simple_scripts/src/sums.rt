//! Tells which expressions are sums of a simple script.

ghost use Rattle.std.specs.Prelude.{◌≡◌, min};
ghost use Rattle.std.specs.List.{list_all};
ghost use Rattle.js_value.specs.declared.primitive.Primitive.TheVariants as primitive;
ghost use Rattle.js_tree.specs.declared.expression.ExprForm.TheOpen.{ExprForm-F};
ghost use Rattle.simple_scripts.specs.SimpleScripts as simple;
ghost use Rattle.simple_scripts.specs.declared.sums.Sum.TheVariants as sum;
ghost use Rattle.simple_scripts.specs.Sums as spec;

use crate::words::is_simple_name;
use js_tree::{Declarator, Expr, ExprForm, Stmt, StmtForm};
use js_value::{BinaryOp, GREATEST_NUMBER, Primitive, UnaryOp};

/// A sum has at most this many terms.
const MOST_TERMS: u32 = 20;

/// What an expression is as a sum.
#[derive(Clone, Copy)]
pub enum Sum {
    Nothing,
    /// A literal, which `-` may stand before.
    Literal,
    /// So many terms, or more than a sum may have.
    Terms(u32),
}

/// The number of terms, or one more than a sum may have.
fn at_most(terms: u32) -> Sum
    ensures { result ≡ sum.Terms (min terms 21) }
{
    Sum::Terms(terms.min(MOST_TERMS + 1))
}

/// The sum or difference of two sums.
fn joined(a: Sum, b: Sum) -> Sum
    ensures { result ≡ spec.joined a b }
{
    match (a, b) {
        (Sum::Literal, Sum::Literal) => at_most(2),
        (Sum::Literal, Sum::Terms(n)) => at_most(n.saturating_add(1)),
        (Sum::Terms(m), Sum::Literal) => at_most(m.saturating_add(1)),
        (Sum::Terms(m), Sum::Terms(n)) => at_most(m.saturating_add(n)),
        _ => Sum::Nothing,
    }
}

/// The negation of a sum, which has to be a literal.
fn negative(a: Sum) -> Sum
    ensures { result ≡ spec.negative a }
{
    match a {
        Sum::Literal => Sum::Terms(1),
        _ => Sum::Nothing,
    }
}

/// A number as a sum: a literal, unless it is out of range.
fn number(n: i64) -> Sum
    ensures { result ≡ spec.counted (simple.sum_form (ExprForm-F.Literal (primitive.Number n))) }
{
    if 0 <= n && n <= GREATEST_NUMBER {
        Sum::Literal
    } else {
        Sum::Nothing
    }
}

#[cycle(sum)]
#[tactic(auto, using(crate::proofs::Counting::counting))]
fn sum_of(e: &Expr) -> Sum
    ensures { result ≡ spec.counted (simple.sum_in e.now) }
{
    sum_of_form(&e.form)
}

#[cycle(sum)]
#[tactic(auto, using(crate::proofs::Counting::counting))]
fn sum_of_form(form: &ExprForm) -> Sum
    ensures { result ≡ spec.counted (spec.form_sum form.now) }
{
    match form {
        ExprForm::Literal(Primitive::Number(n)) => number(*n),
        ExprForm::Name(name) if is_simple_name(name.as_slice()) => Sum::Terms(1),
        ExprForm::Unary(UnaryOp::Minus, a) => negative(sum_of(a)),
        ExprForm::Binary(BinaryOp::Add, a, b) => joined(sum_of(a), sum_of(b)),
        ExprForm::Binary(BinaryOp::Sub, a, b) => joined(sum_of(a), sum_of(b)),
        _ => Sum::Nothing,
    }
}

fn is_short(sum: Sum) -> bool
    ensures { result ≡ spec.is_short sum }
{
    match sum {
        Sum::Nothing => false,
        Sum::Literal => true,
        Sum::Terms(n) => n <= MOST_TERMS,
    }
}

fn is_simple_init(init: &Option<Expr>) -> bool
    ensures { result ≡ simple.is_simple_init init.now }
{
    match init {
        None => true,
        Some(e) => is_short(sum_of(e)),
    }
}

fn is_simple_declarator(one: &Declarator) -> bool
    ensures { result ≡ simple.is_simple_declarator one.now }
{
    is_simple_name(one.name.as_slice()) && is_simple_init(&one.init)
}

fn are_simple_declarators(all: &[Declarator]) -> bool
    ensures { result ≡ list_all simple.is_simple_declarator all.now }
{
    all.iter().all(|one| is_simple_declarator(one))
}

fn is_simple_statement(s: &Stmt) -> bool
    ensures { result ≡ simple.is_simple_statement s.now }
{
    match &*s.form {
        StmtForm::Var(all) => are_simple_declarators(all.as_slice()),
        _ => false,
    }
}

/// Whether all statements are `var` statements of sums.
pub fn are_simple_statements(all: &[Stmt]) -> bool
    ensures { result ≡ list_all simple.is_simple_statement all.now }
{
    all.iter().all(|s| is_simple_statement(s))
}
