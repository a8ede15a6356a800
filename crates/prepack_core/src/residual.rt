//! The residual of variables.

ghost use Rattle.std.specs.Prelude.{◌≡◌, ◌+◌, ◌<◌, length, take, map, Some, IsTrue, IfOk, OnOk};
ghost use Rattle.std.specs.List.{IsDistinct};
ghost use Rattle.std.specs.Map.{keys_of};
ghost use Rattle.std.specs.Str.{bytes_eq};
ghost use Rattle.js_value.specs.declared.primitive.Primitive.TheVariants as primitive;
ghost use Rattle.residual_form.specs.Snapshot as spec;
ghost use Rattle.simple_runs.specs.PlainVariables.{are_plain_variables};
ghost use Rattle.prepack_core.specs.Values.{primitive_of};
ghost use Rattle.prepack_core.specs.Written.{Rebuilds};

use crate::value::{Number, Value};
use crate::variables::Variables;
use js_printer::print;
use js_tree::{Declarator, Declarators, Expr, ExprForm, Script, Stmt, StmtForm};
use js_value::{Box, NoMemory, Place, Primitive, Seq, Text, UnaryOp};
use place_free_text::place_free_text;
use residual_form::small_form_law;
use simple_runs::snapshot_law;
use std::alloc::Global;

/// A literal.
fn literal(alloc: Global, value: Primitive) -> Result<Expr, NoMemory>
    ensures { IfOk result (λ e. e ≡ spec.literal value) }
{
    let form = Box::new(alloc, ExprForm::Literal(value))?;
    Ok(Expr { at: Place(0), form })
}

/// The constant of a number: its literal, negated where it is negative.
fn number(alloc: Global, n: Number) -> Result<Expr, NoMemory>
    ensures { IfOk result (λ e. Some e ≡ spec.constant (primitive.Number n.value)) }
{
    if n.value >= 0 {
        return literal(alloc, Primitive::Number(n.value));
    }
    let operand = literal(alloc, Primitive::Number(-n.value))?;
    let form = Box::new(alloc, ExprForm::Unary(UnaryOp::Minus, operand))?;
    Ok(Expr { at: Place(0), form })
}

/// The constant of a value; none for undefined.
fn constant(alloc: Global, value: Value) -> Result<Option<Expr>, NoMemory>
    ensures { IfOk result (λ init. init ≡ spec.constant (primitive_of value)) }
{
    match value {
        Value::Undefined => Ok(None),
        Value::Number(n) => Ok(Some(number(alloc, n)?)),
    }
}

/// A declarator of a name with a value.
fn variable(alloc: Global, name: &Text, value: Value) -> Result<Declarator, NoMemory>
    ensures { IfOk result (λ d. d ≡ spec.variable (name.now, primitive_of value)) }
{
    let name = name.copy(alloc)?;
    let init = constant(alloc, value)?;
    Ok(Declarator {
        at: Place(0),
        name,
        init,
    })
}

/// Puts the declarator of the variable at a position behind those before it.
fn push_at(
    alloc: Global,
    declarators: &mut Declarators,
    variables: &Variables,
    i: usize,
) -> Result<(), NoMemory>
    requires within { i < length variables.now }
    requires before { declarators.old ≡ map spec.variable (take i variables.now) }
    ensures { OnOk result (declarators.new ≡ map spec.variable (take (i + 1) variables.now)) }
{
    let Some((name, value)) = variables.at(i) else {
        unreachable!()
    };
    declarators.push(variable(alloc, name, value)?)
}

/// The declarators of all variables, in order.
fn declarators(alloc: Global, variables: &Variables) -> Result<Declarators, NoMemory>
    ensures { IfOk result (λ ds. ds ≡ map spec.variable variables.now) }
{
    let mut declarators = Seq::new(alloc);
    for i in 0..variables.len() {
        push_at(alloc, &mut declarators, variables, i)?;
    }
    Ok(declarators)
}

/// The script that declares variables with their values: one `var` statement, or nothing where there is none.
fn snapshot(alloc: Global, variables: &Variables) -> Result<Script, NoMemory>
    ensures script { IfOk result (λ s. s ≡ spec.snapshot variables.now) }
    ensures plain { IsTrue (are_plain_variables variables.now) }
    ensures distinct { IsDistinct bytes_eq (keys_of variables.now) }
{
    let funcs = Seq::new(alloc);
    let mut body = Seq::new(alloc);
    if variables.len() == 0 {
        return Ok(Script {
            directive: false,
            body,
            funcs,
        });
    }
    let form = Box::new(alloc, StmtForm::Var(declarators(alloc, variables)?))?;
    body.push(Stmt { at: Place(0), form })?;
    Ok(Script {
        directive: false,
        body,
        funcs,
    })
}

/// The text of the residual of variables: one `var` statement, or nothing where there is no variable.
pub fn residual_text(alloc: Global, variables: &Variables) -> Result<Vec<u8>, NoMemory>
    ensures { IfOk result (λ text. Rebuilds variables.now text.items) }
{
    // Laws of the definitions, with nothing to run: the text gives back a script that is the same but for places, and that script
    // rebuilds the variables.
    snapshot_law();
    small_form_law();
    place_free_text();
    let script = snapshot(alloc, variables)?;
    Ok(print(alloc, &script)?.into_vec())
}
