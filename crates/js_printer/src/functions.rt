//! Functions by their numbers, and whole scripts.

ghost use Rattle.std.specs.Prelude.{◌≡◌, OnOk, IfOk, IsTrue};
ghost use Rattle.js_grammar.specs.Readable.{is_readable};
ghost use Rattle.js_printer.specs.GivesBack.{GivesBack};
ghost use Rattle.token_sheets.specs.Sheets.{put_all};
ghost use Rattle.script_text.specs.CodeLine as line;
ghost use Rattle.script_text.specs.Printing as spec;

use crate::expressions::Printer;
use early_back::early_back;
use js_tree::{Func, Script};
use js_value::{Bytes, FuncNo, NoMemory, Text};
use lexing_back::lexing_back;
use reading_back::reading_back;
use std::alloc::Global;
use token_sheets::Sheet;

/// A function by its number, with functions inside it to a depth.
#[tactic(auto, unfolding(script_text::specs::Printing::function_to))]
fn function(
    alloc: Global,
    funcs: &[Func],
    page: &mut Sheet,
    depth: usize,
    f: FuncNo,
    named: bool,
) -> Result<(), NoMemory>
    ensures { OnOk result (page.new ≡ put_all (spec.function_to depth funcs.now named f) page.old) }
{
    if depth == 0 {
        return Ok(());
    }
    let Some(found) = funcs.get(f.0) else {
        return Ok(());
    };
    Printer {
        alloc,
        funcs,
        depth: depth - 1,
        function,
    }
    .func(page, found, named)
}

/// Puts the tokens of a script.
fn script(alloc: Global, script: &Script, page: &mut Sheet) -> Result<(), NoMemory>
    ensures { OnOk result (page.new ≡ put_all (spec.script_pieces script.now) page.old) }
{
    let funcs = script.funcs.as_slice();
    Printer {
        alloc,
        funcs,
        depth: funcs.len(),
        function,
    }
    .code(page, script.directive, script.body.as_slice())
}

/// Puts the tokens of a function's code.
#[tactic(auto, using(token_sheets::proofs::Putting::appended))]
fn code(alloc: Global, script: &Script, f: FuncNo, page: &mut Sheet) -> Result<(), NoMemory>
    ensures { OnOk result (page.new ≡ put_all (line.code_pieces script.now f) page.old) }
{
    page.word(b"function")?;
    let funcs = script.funcs.as_slice();
    function(alloc, funcs, page, funcs.len(), f, false)
}

/// The text of a script: its tokens with parentheses where a part is looser than its place takes, each statement on lines of
/// its own. It ends with a line end, or is empty. Of a script that reading can give the text lexes and reads back to the script.
#[tactic(auto, using(token_sheets::proofs::Putting::on_lines), unfolding(script_text::specs::Printing::script_text))]
pub fn print(alloc: Global, script: &Script) -> Result<Bytes, NoMemory>
    ensures text { IfOk result (λ b. b ≡ spec.script_text script.now) }
    ensures back { IsTrue (is_readable script.now) → IfOk result (λ b. GivesBack b script.now) }
{
    // Laws of the definitions, with nothing to run.
    lexing_back();
    reading_back();
    early_back();
    let mut page = Sheet::lines(alloc);
    crate::functions::script(alloc, script, &mut page)?;
    Ok(page.into_bytes())
}

/// The code of a function on one line: its tokens without its own name, one space between them. The `k`-th of the given names,
/// from 1, is `%k` wherever it is read or assigned to and the code around doesn't bind it. Empty but for the word `function`
/// where the script has no such function.
#[tactic(auto, using(token_sheets::proofs::Putting::on_code), unfolding(script_text::specs::CodeLine::code_text))]
pub fn code_text(
    alloc: Global,
    script: &Script,
    f: FuncNo,
    names: &[Text],
) -> Result<Bytes, NoMemory>
    ensures { IfOk result (λ b. b ≡ line.code_text script.now f names.now) }
{
    let mut page = Sheet::code(alloc, names)?;
    code(alloc, script, f, &mut page)?;
    Ok(page.into_bytes())
}
