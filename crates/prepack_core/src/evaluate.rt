//! Runs a simple script.

ghost use Rattle.std.specs.Prelude.{◌≡◌, [], ◌∷◌, IsTrue, IfOk, OnOk};
ghost use Rattle.std.specs.List.{list_all, flat_map};
ghost use Rattle.js_tree.specs.Count as count;
ghost use Rattle.simple_scripts.specs.Simple.{names_in, names_in_init, declared_names};
ghost use Rattle.js_tree.specs.Parts.{declarators_in};
ghost use Rattle.simple_scripts.specs.SimpleScripts.{sum_in, is_simple_declarator, is_simple_statement, is_simple};
ghost use Rattle.js_tree.specs.declared.statement.StmtForm.{out-StmtForm};
ghost use Rattle.simple_scripts.specs.Sums.{form_sum};
ghost use Rattle.simple_runs.specs.Events.{Heap};
ghost use Rattle.simple_runs.specs.Simple.{evaluation, negation, arithmetic, declarator_rule, declarators_rule, statement as run_of_statement, declared};
ghost use Rattle.prepack_core.specs.Evaluates as spec;
ghost use Rattle.prepack_core.specs.Values.{primitive_of};
ghost use Rattle.prepack_core.specs.declared.evaluate.Stop.TheVariants.{Left, NoMemory as OutOfMemory};

use crate::value::{Number, Value};
use crate::variables::Variables;
use js_tree::{Declarator, Expr, ExprForm, Script, Stmt, StmtForm};
use js_value::{BinaryOp, NoMemory, Place, Primitive, Why, add, negate, subtract};
use std::alloc::Global;

/// Where and why a run leaves the profile.
#[derive(Clone, Copy, Debug, PartialEq, Eq)]
pub struct Departure {
    pub at: Place,
    pub why: Why,
}

/// Why a run doesn't come to its end.
#[derive(Clone, Copy, Debug, PartialEq, Eq)]
pub enum Stop {
    Left(Departure),
    NoMemory,
}

impl From<Departure> for Stop {
    ghost from_gives = { λ d s. s ≡ Left d };

    fn from(departure: Departure) -> Stop {
        Stop::Left(departure)
    }
}

impl From<NoMemory> for Stop {
    ghost from_gives = { λ _ s. s ≡ OutOfMemory };

    fn from(_: NoMemory) -> Stop {
        Stop::NoMemory
    }
}

/// The number of an operand.
fn number_of(value: Value, at: Place) -> Result<Number, Departure>
    ensures { spec.IsNumberOf value at result }
{
    match value {
        Value::Number(n) => Ok(n),
        Value::Undefined => Err(Departure {
            at,
            why: Why::NotANumber,
        }),
    }
}

/// The negation of an operand, at the place of the operator (11.4.7).
fn negation(value: Value, at: Place) -> Result<Value, Departure>
    ensures { (heap : Heap) → spec.Comes (negation at (primitive_of value)) heap 0 result }
{
    let n = number_of(value, at)?;
    match negate(n.value) {
        Ok(value) => Ok(Value::Number(Number { value })),
        Err(why) => Err(Departure { at, why }),
    }
}

/// The sum of two numbers, or their difference for `-` (11.6.3).
fn combine(op: BinaryOp, a: i64, b: i64) -> Result<i64, Why>
    ensures { result ≡ spec.combined op a b }
{
    match op {
        BinaryOp::Sub => subtract(a, b),
        _ => add(a, b),
    }
}

/// The sum or the difference of two operands, at the place of the expression (11.6).
fn operation(op: BinaryOp, a: Value, b: Value, at: Place) -> Result<Value, Departure>
    ensures { (heap : Heap) → spec.Comes (arithmetic at (spec.combined op) (primitive_of a)
        (primitive_of b)) heap 0 result }
{
    let x = number_of(a, at)?;
    let y = number_of(b, at)?;
    match combine(op, x.value, y.value) {
        Ok(value) => Ok(Value::Number(Number { value })),
        Err(why) => Err(Departure { at, why }),
    }
}

/// The value of an expression. No name is missing and no form is other than a sum's, so the run has a rule for each.
#[cycle(value)]
fn value_of(e: &Expr, variables: &Variables) -> Result<Value, Departure>
    requires sum { IsTrue (spec.is_sum (sum_in e.now)) }
    requires bound { IsTrue (list_all (spec.is_bound variables.now) (names_in e.now)) }
    ensures { spec.Comes (evaluation e.now) variables.now (count.in_expr e.now) result }
{
    value_of_form(&e.form, e.at, variables)
}

#[cycle(value)]
fn value_of_form(form: &ExprForm, at: Place, variables: &Variables) -> Result<Value, Departure>
    requires sum { IsTrue (spec.is_sum (form_sum form.now)) }
    requires bound { IsTrue (list_all (spec.is_bound variables.now) (spec.form_names form.now)) }
    ensures { spec.Comes (spec.form_evaluation form.now at) variables.now (count.in_form form.now) result }
{
    match form {
        ExprForm::Literal(Primitive::Number(value)) => {
            Ok(Value::Number(Number { value: *value }))
        }
        ExprForm::Name(name) => match variables.get(name) {
            Some(value) => Ok(value),
            None => unreachable!(),
        },
        ExprForm::Unary(_, a) => negation(value_of(a, variables)?, at),
        ExprForm::Binary(op, a, b) => {
            let x = value_of(a, variables)?;
            let y = value_of(b, variables)?;
            operation(*op, x, y, at)
        }
        _ => unreachable!(),
    }
}

/// Assigns the value of an initialiser, where there is one (12.2).
fn run_declarator(
    alloc: Global,
    declarator: &Declarator,
    variables: &mut Variables,
) -> Result<(), Stop>
    requires simple { IsTrue (is_simple_declarator declarator.now) }
    requires bound { IsTrue (spec.are_bound variables.old (names_in_init declarator.now.init)) }
    ensures runs { spec.RunsTo (declarator_rule declarator.now.name declarator.now.init) variables.old
        (count.in_maybe declarator.now.init) result variables.new }
    ensures bound { OnOk result (spec.KeepsBound variables.old variables.new) }
{
    let Some(init) = &declarator.init else {
        return Ok(());
    };
    let value = value_of(init, variables)?;
    variables.put(declarator.name.copy(alloc)?, value)?;
    Ok(())
}

/// Runs the declarators of one `var` in turn.
fn run_declarators(
    alloc: Global,
    declarators: &[Declarator],
    variables: &mut Variables,
) -> Result<(), Stop>
    requires simple { IsTrue (list_all is_simple_declarator declarators.now) }
    requires bound { IsTrue (spec.are_bound variables.old (spec.names_in_declarators declarators.now)) }
    ensures runs { spec.RunsTo (declarators_rule declarators.now) variables.old
        (count.in_declarators declarators.now) result variables.new }
    ensures bound { OnOk result (spec.KeepsBound variables.old variables.new) }
{
    for declarator in declarators {
        run_declarator(alloc, declarator, variables)?;
    }
    Ok(())
}

/// The declarators of a statement, which has none where it is no `var`.
fn declarators_of(statement: &Stmt) -> &[Declarator]
    ensures { result.now ≡ declarators_in (out-StmtForm statement.now.form) }
{
    match &*statement.form {
        StmtForm::Var(declarators) => declarators.as_slice(),
        _ => &[],
    }
}

/// Runs a statement, which is a `var`.
fn run_statement(alloc: Global, statement: &Stmt, variables: &mut Variables) -> Result<(), Stop>
    requires simple { IsTrue (is_simple_statement statement.now) }
    requires bound { IsTrue (spec.are_bound variables.old
        (spec.names_in_declarators (declarators_in (out-StmtForm statement.now.form)))) }
    ensures runs { spec.RunsTo (run_of_statement statement.now) variables.old
        (count.in_stmt statement.now) result variables.new }
    ensures bound { OnOk result (spec.KeepsBound variables.old variables.new) }
{
    run_declarators(alloc, declarators_of(statement), variables)
}

/// Binds the names of some declarators that aren't bound yet to undefined.
fn declare_names(
    alloc: Global,
    declarators: &[Declarator],
    variables: &mut Variables,
) -> Result<(), NoMemory>
    requires { IsTrue (list_all is_simple_declarator declarators.now) }
    ensures { OnOk result (variables.new ≡ spec.declared_after variables.old
        (flat_map (λ d. d.name ∷ []) declarators.now)) }
{
    for declarator in declarators {
        variables.declare(alloc, &declarator.name)?;
    }
    Ok(())
}

/// The names that a script declares, bound to undefined in the order of their first declarations (10.5).
fn declared_variables(alloc: Global, body: &[Stmt]) -> Result<Variables, NoMemory>
    requires { IsTrue (list_all is_simple_statement body.now) }
    ensures { IfOk result (λ variables. variables ≡ declared (declared_names body.now)) }
{
    let mut variables = Variables::new(alloc);
    for statement in body {
        declare_names(alloc, declarators_of(statement), &mut variables)?;
    }
    Ok(variables)
}

/// The variables that a simple script leaves, or where and why its run leaves the profile.
pub fn evaluate(alloc: Global, script: &Script) -> Result<Variables, Stop>
    requires { IsTrue (is_simple script.now) }
    ensures { spec.Evaluates script.now result }
{
    let body = script.body.as_slice();
    let mut variables = declared_variables(alloc, body)?;
    for statement in body {
        run_statement(alloc, statement, &mut variables)?;
    }
    Ok(variables)
}
