//! The order in which code names the functions of its script.

ghost use Rattle.std.specs.Prelude.{◌≡◌, ◌++◌, map, IfOk, OnOk};
ghost use Rattle.js_grammar.specs.FunctionOrder as spec;
ghost use Rattle.readable_trees.specs.Items.{told};
ghost use Rattle.readable_trees.specs.Inputs.{numbers};

use crate::items::{Item, in_stmts};
use js_tree::{Func, Script, Stmt};
use js_value::{FuncNo, NoMemory};
use std::alloc::Global;
use std::collections::VecDeque;

/// Puts the functions among these before the others.
fn push_functions(items: Vec<Item>, behind: &mut VecDeque<FuncNo>) -> Result<(), NoMemory>
    ensures { OnOk result (map (λ (f : FuncNo). f.0) behind.new.items ≡ numbers (told items.entry.items) ++ map (λ (f : FuncNo). f.0) behind.old.items) }
{
    let mut items = items;
    while let Some(item) = items.pop() {
        if let Item::Function(f) = item {
            behind.push_front(f)?;
        }
    }
    Ok(())
}

/// Puts the functions that a body names before the others.
#[tactic(auto, using(crate::proofs::Named::body_named))]
fn push_named(alloc: Global, body: &[Stmt], behind: &mut VecDeque<FuncNo>) -> Result<(), NoMemory>
    ensures { OnOk result (map (λ (f : FuncNo). f.0) behind.new.items ≡ spec.in_body body.now ++ map (λ (f : FuncNo). f.0) behind.old.items) }
{
    let mut items = Vec::new(alloc);
    in_stmts(body, &mut items)?;
    push_functions(items, behind)
}

/// Whether functions stand in the order in which these are named, and those inside them.
fn are_named(alloc: Global, all: &[Func], behind: VecDeque<FuncNo>) -> Result<bool, NoMemory>
    ensures { IfOk result (λ b. b ≡ spec.are_named_from 0 (map (λ (f : FuncNo). f.0) behind.items) all.now) }
{
    let mut behind = behind;
    let mut number = 0;
    for f in all {
        match behind.pop_front() {
            Some(next) if next.0 == number => push_named(alloc, f.body.as_slice(), &mut behind)?,
            _ => return Ok(false),
        }
        number += 1;
    }
    Ok(behind.is_empty())
}

/// Whether each function is named once, in source order: an outer one comes before those inside it. Each body is walked once.
#[tactic(auto, unfolding(js_grammar::specs::FunctionOrder::are_in_source_order))]
pub fn are_in_source_order(alloc: Global, script: &Script) -> Result<bool, NoMemory>
    ensures { IfOk result (λ b. b ≡ spec.are_in_source_order script.now) }
{
    let mut behind = VecDeque::new(alloc);
    push_named(alloc, script.body.as_slice(), &mut behind)?;
    are_named(alloc, script.funcs.as_slice(), behind)
}
