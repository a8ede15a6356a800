//! From the bytes of a source to the text of its residual.

ghost use Rattle.std.specs.Prelude.{◌≤◌, length, IfOk, IfErr};
ghost use Rattle.prepack_core.specs.Evaluates.{IsReportOf};
ghost use Rattle.prepack_core.specs.Promises.{IsResidualOf, IsFinished, IsReason};

use crate::evaluate::{Stop, evaluate};
use crate::report::Report;
use crate::residual::residual_text;
use js_tree::{Feature, ReadRefused};
use js_value::{NoMemory, Place};
use script_reader::{few_nodes_law, read};
use simple_runs::{simple_listing_law, simple_run_law};
use simple_scripts::is_simple;
use std::alloc::Global;

/// At most this many parts of a source are open at once, and no tree of it is higher.
const NESTING_LIMIT: u32 = 200;

impl From<NoMemory> for Report {
    ghost use Rattle.std.specs.Prelude.{◌≡◌};
    ghost use Rattle.prepack_core.specs.declared.report.Report.TheVariants as report;

    ghost from_gives = { λ _ r. r ≡ report.NoMemory };

    fn from(_: NoMemory) -> Report {
        Report::NoMemory
    }
}

impl From<ReadRefused> for Report {
    ghost use Rattle.std.specs.Prelude.{◌≡◌};
    ghost use Rattle.prepack_core.specs.Evaluates.{report_of_refusal};

    ghost from_gives = { λ e r. r ≡ report_of_refusal e };

    fn from(refused: ReadRefused) -> Report {
        match refused {
            ReadRefused::Syntax(at) => Report::Syntax(at),
            ReadRefused::Unsupported(at, feature) => Report::Unsupported(at, feature),
            ReadRefused::Nested(at) => Report::Nested(at),
            ReadRefused::NoMemory => Report::NoMemory,
        }
    }
}

/// The report of a run that stopped.
fn report_of(stop: Stop) -> Report
    ensures { IsReportOf stop result }
{
    match stop {
        Stop::Left(departure) => Report::Stuck(departure.at, departure.why),
        Stop::NoMemory => Report::NoMemory,
    }
}

/// The text of the residual of a source, or why there is none.
pub fn answer(alloc: Global, steps: u64, source: &[u8]) -> Result<Vec<u8>, Report>
    requires enough { 1000000 ≤ steps }
    requires short { length source.now ≤ 1048576 }
    ensures ok { IfOk result (λ text. IsResidualOf steps source.now text.items) }
    ensures finished { IfOk result (λ _. IsFinished steps source.now) }
    ensures err { IfErr result (λ r. IsReason steps source.now r) }
{
    let script = read(alloc, source, NESTING_LIMIT)?;
    if !is_simple(alloc, &script)? {
        return Err(Report::Unsupported(Place(0), Feature::NotBuilt));
    }
    // Laws of the definitions, with nothing to run: the budget is enough for a simple script of a text of this size, and its run
    // by the rules of the whole language is that by its own.
    few_nodes_law();
    simple_run_law();
    simple_listing_law();
    match evaluate(alloc, &script) {
        Err(stop) => Err(report_of(stop)),
        Ok(variables) => Ok(residual_text(alloc, &variables)?),
    }
}
