//! Reads texts.

ghost use Rattle.std.specs.Prelude.{◌<◌, ◌^◌, length};
ghost use Rattle.js_tree.specs.Refusals.{Gives};
ghost use Rattle.script_reader.specs.Reads.{reads};

use js_lex::lex;
use js_parse::parse;
use js_scope::check;
use js_tree::{ReadRefused, Script};
use std::alloc::Global;

/// The script of a text (7, 11 to 14), whose early checks (16) find nothing, or the first fault with its place. At most
/// `limit` parts are open at once, and no tree is higher. `NoMemory` comes only where there is no memory.
#[tactic(auto, unfolding(crate::specs::Reads::reads, js_grammar::specs::Checked::read_checked))]
pub fn read(alloc: Global, text: &[u8], limit: u32) -> Result<Script, ReadRefused>
    requires { length text.now < 2 ^ 32 }
    ensures { Gives (reads text.now limit) result }
{
    let tokens = lex(alloc, text)?;
    let script = parse(alloc, &tokens, limit)?;
    check(alloc, &script)?;
    Ok(script)
}
