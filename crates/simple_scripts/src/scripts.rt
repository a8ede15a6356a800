//! Tells which scripts are simple.

ghost use Rattle.std.specs.Prelude.{◌≡◌, IfOk};
ghost use Rattle.simple_scripts.specs.SimpleScripts as simple;

use crate::names::reads_declared;
use crate::sums::are_simple_statements;
use js_tree::Script;
use js_value::NoMemory;
use std::alloc::Global;

/// Whether a script is simple: `var` statements whose initialisers are sums of at most twenty terms, however grouped, with
/// simple names, and no name read that isn't declared.
#[tactic(auto, unfolding(crate::specs::SimpleScripts::is_simple))]
pub fn is_simple(alloc: Global, script: &Script) -> Result<bool, NoMemory>
    ensures { IfOk result (λ b. b ≡ simple.is_simple script.now) }
{
    if script.directive || script.funcs.len() > 0 {
        return Ok(false);
    }
    if !are_simple_statements(script.body.as_slice()) {
        return Ok(false);
    }
    reads_declared(alloc, script.body.as_slice())
}
