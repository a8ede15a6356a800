ghost use Rattle.std.specs.Prelude.{◌≡◌, ◌≢◌, ◌↔◌, ◌⊎◌, ◌+◌, ◌<◌, ◌≤◌, None, IsTrue, IsSome, IfOk, IfErr, map, length, string_bytes};
ghost use Rattle.pp_io.specs.Streams.{Rose, before_left, IsEmptied};
ghost use Rattle.prepack_core.specs.Words.{command};
ghost use Rattle.prepack_core.specs.Promises.{IsResidualOf, IsFinished, IsNoScript, IsUnsupported, IsNested};
ghost use Rattle.js_value.specs.declared.place.Place.{Place};
ghost use Rattle.js_value.specs.declared.why.Why.{Why};
ghost use Rattle.js_tree.specs.declared.refusal.Feature.{Feature};
ghost use Rattle.prepack_core.specs.Top.{bytes_given, IsTextOf, IsAnswered, IsStopped, reads_whole, writes, HasReason, IsRefusal, IsRead, IsDelivered, IsTold, Expects};

use crate::answer::answer;
use crate::{Command, Fetched, Report, Status, fetch, read_words, tell, write_text};
use host_box::Host;
use pp_io::{Sink, Source};
use std::alloc::Global;

/// Reads a source, and answers it with the text of its residual.
fn eval<S: Source>(alloc: Global, steps: u64, source: &mut S) -> Result<Vec<u8>, Report>
    requires { 1000000 ≤ steps }
    ensures ok { IfOk result (λ text. IsRead (S.left source.old) (S.left source.new)
        (λ bytes. IsResidualOf steps bytes text.items)) }
    ensures finished { IfOk result (λ _. IsRead (S.left source.old) (S.left source.new)
        (λ bytes. IsFinished steps bytes)) }
    ensures err { IfErr result (HasReason steps (S.left source.old) (S.left source.new)
        (S.faults source.old) (S.faults source.new)) }
    ensures front { S.left source.old ≡ before_left
        (bytes_given (S.left source.old) (S.left source.new)) (S.left source.new) }
    ensures most { length (bytes_given (S.left source.old) (S.left source.new)) ≤ 1048577 }
    ensures turns { S.turns source.new ≤ S.turns source.old + 1048577 }
{
    match fetch(alloc, source) {
        Fetched::Whole(bytes) => answer(alloc, steps, &bytes),
        Fetched::TooLarge => Err(Report::TooLarge),
        Fetched::Failed => Err(Report::ReadFault),
        Fetched::NoMemory => Err(Report::NoMemory),
    }
}

/// Reads the words, and does what they ask for.
fn run_words<S: Source>(alloc: Global, words: &[String], source: &mut S) -> Result<Vec<u8>, Report>
    ensures ok { IfOk result (λ text. IsRead (S.left source.old) (S.left source.new)
        (λ bytes. IsTextOf (command (map string_bytes words.now)) bytes text.items)) }
    ensures answered { IfOk result (λ _. IsRead (S.left source.old) (S.left source.new)
        (λ bytes. IsAnswered (command (map string_bytes words.now)) bytes)) }
    ensures asked { IfOk result (λ _. command (map string_bytes words.now) ≢ None) }
    ensures err { IfErr result (IsRefusal (command (map string_bytes words.now)) (S.left source.old)
        (S.left source.new) (S.faults source.old) (S.faults source.new)) }
    ensures front { S.left source.old ≡ before_left
        (bytes_given (S.left source.old) (S.left source.new)) (S.left source.new) }
    ensures most { length (bytes_given (S.left source.old) (S.left source.new)) ≤ 1048577 }
    ensures turns { S.turns source.new ≤ S.turns source.old + 1048577 }
    ensures unread { command (map string_bytes words.now) ≡ None → source.new ≡ source.old }
{
    match read_words(words) {
        None => Err(Report::Usage),
        Some(Command::Eval(steps)) => eval(alloc, steps, source),
    }
}

/// Does all that the program does: reads a source, and writes its residual to `out`. Where it doesn't, one line on `diag` says
/// why; a fault of `diag` changes no status. All output stands before the first byte is written. The host is dropped before
/// the return. Want of memory may take the place of any other answer before the first byte is written, but never of `Usage`.
pub fn prepack<S: Source, T: Sink, D: Sink>(
    alloc: Global,
    words: &[String],
    source: &mut S,
    out: &mut T,
    diag: &mut D,
    host: Box<dyn Host>,
) -> Status
    // The words alone decide on `Usage`, and then nothing is read.
    ensures usage { (result ≡ Status.Usage) ↔ (command (map string_bytes words.now) ≡ None) }
    ensures unread { command (map string_bytes words.now) ≡ None → source.new ≡ source.old }

    // What is read is a front of what was left, at most one byte past the limit, and the whole of it where the status says
    // something of the text.
    ensures front { S.left source.old ≡ before_left
        (bytes_given (S.left source.old) (S.left source.new)) (S.left source.new) }
    ensures most { length (bytes_given (S.left source.old) (S.left source.new)) ≤ 1048577 }
    ensures turns { S.turns source.new ≤ S.turns source.old + 1048577 }
    ensures whole { IsTrue (reads_whole result) → IsEmptied (S.left source.new) }

    // A source is too large exactly by its bytes, and faults come from the objects that were handed in.
    ensures too_large { result ≡ Status.TooLarge → IsSome (S.left source.old) →
        length (bytes_given (S.left source.old) (S.left source.new)) ≡ 1048577 }
    ensures too_large_only { 1048576 < length (bytes_given (S.left source.old) (S.left source.new)) →
        (result ≡ Status.TooLarge) ⊎ (result ≡ Status.NoMemory) }
    ensures read_fault { result ≡ Status.ReadFault → Rose (S.faults source.old) (S.faults source.new) }
    ensures write_fault { result ≡ Status.WriteFault → Rose (T.faults out.old) (T.faults out.new) }

    // What goes to `out` is a whole residual of the source, a front of one where a write failed, or nothing.
    ensures delivered { IsDelivered (command (map string_bytes words.now)) (S.left source.old)
        (S.left source.new) result (T.held out.old) (T.held out.new) }
    ensures unwritten { IsTrue (writes result) ⊎ (out.new ≡ out.old) }

    // What goes to `diag` is the line of the status, with why it comes.
    ensures told { IsTold (command (map string_bytes words.now)) (S.left source.old) (S.left source.new)
        (S.faults source.old) (S.faults source.new) result (D.held diag.old) (D.held diag.new)
        (D.faults diag.old) (D.faults diag.new) }
    ensures quiet { result ≡ Status.Done → diag.new ≡ diag.old }

    // Each answer comes where it is due, unless there was no memory.
    ensures complete { (Rose (T.faults out.old) (T.faults out.new) → ⊥) →
        Expects (IsAnswered (command (map string_bytes words.now))) Status.Done (S.left source.old)
        (S.faults source.old) (S.faults source.new) result }
    ensures stuck { (at : Place) (why : Why) → Expects
        (IsStopped (command (map string_bytes words.now)) at why) Status.Stuck (S.left source.old)
        (S.faults source.old) (S.faults source.new) result }
    ensures syntax { (at : Place) → command (map string_bytes words.now) ≢ None →
        Expects (λ bytes. IsNoScript bytes at) Status.Syntax (S.left source.old)
        (S.faults source.old) (S.faults source.new) result }
    ensures nested { (at : Place) → command (map string_bytes words.now) ≢ None →
        Expects (λ bytes. IsNested bytes at) Status.Nested (S.left source.old)
        (S.faults source.old) (S.faults source.new) result }
    ensures unsupported { (at : Place) (feature : Feature) →
        command (map string_bytes words.now) ≢ None →
        Expects (λ bytes. IsUnsupported bytes at feature) Status.Unsupported (S.left source.old)
        (S.faults source.old) (S.faults source.new) result }
{
    drop(host);
    match run_words(alloc, words, source) {
        Ok(text) => {
            if write_text(out, &text) {
                return Status::Done;
            }
            tell(diag, &Report::WriteFault);
            Status::WriteFault
        }
        Err(report) => {
            tell(diag, &report);
            report.status()
        }
    }
}
