//! From the bytes of a text to its script.
#![tactic(auto)]

mod script;

ghost use Rattle.std.specs.Prelude.{◌≡◌, ◌*◌, ◌≤◌, ℕ, List, Ok, IsTrue, length};
ghost use Rattle.js_tree.specs.declared.statement.Script.{Script};
ghost use Rattle.js_tree.specs.Count.{nodes};
ghost use Rattle.simple_scripts.specs.SimpleScripts.{is_simple};
ghost use Rattle.script_reader.specs.Reads.{reads};

pub use script::read;

/// The script of a text has few nodes where it is simple: at most 20 for 21 bytes. A law, with nothing to run.
pub fn few_nodes_law()
    ensures { (text : List ℕ) (limit : ℕ) (s : Script) → reads text limit ≡ Ok s → IsTrue (is_simple s) →
        21 * nodes s ≤ 20 * length text }
{}
