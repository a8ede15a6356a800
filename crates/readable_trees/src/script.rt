//! Scripts that reading can give.

ghost use Rattle.std.specs.Prelude.{◌≡◌, is_none, IfOk};
ghost use Rattle.js_tree.specs.Early.{early_fault};
ghost use Rattle.js_grammar.specs.Readable as spec;

use crate::inputs::are_inputs_alike;
use crate::order::are_in_source_order;
use crate::statements::are_parts_readable;
use js_tree::{ReadRefused, Script};
use js_value::NoMemory;
use std::alloc::Global;

/// Whether the early checks (16) find no fault.
fn passes_early_checks(alloc: Global, script: &Script) -> Result<bool, NoMemory>
    ensures { IfOk result (λ b. b ≡ is_none (early_fault script.now)) }
{
    match js_scope::check(alloc, script) {
        Ok(()) => Ok(true),
        Err(ReadRefused::NoMemory) => Err(NoMemory),
        Err(_) => Ok(false),
    }
}

/// Whether a script is one that reading can give: its names, keys and literals are such as a text gives, its parts stand where
/// the grammar takes them (11, 12, 13), its functions are in source order, each input has one type, and it passes the early
/// checks (16). Places aren't looked at. `NoMemory` comes only where there is no memory.
#[tactic(auto, unfolding(js_grammar::specs::Readable::is_readable))]
pub fn is_readable(alloc: Global, script: &Script) -> Result<bool, NoMemory>
    ensures { IfOk result (λ b. b ≡ spec.is_readable script.now) }
{
    if !are_parts_readable(script) || !are_in_source_order(alloc, script)? {
        return Ok(false);
    }
    if !are_inputs_alike(alloc, script)? {
        return Ok(false);
    }
    passes_early_checks(alloc, script)
}
