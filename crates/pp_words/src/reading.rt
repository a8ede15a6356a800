ghost use Rattle.std.specs.Prelude.{◌≡◌, map, string_bytes, Some, None, [], false, IfOk, IfErr};
ghost use Rattle.pp_words.specs.Words as spec;
ghost use Rattle.pp_words.specs.Line.{form};
ghost use Rattle.pp_words.specs.declared.command.WordsRefused.TheVariants.{Usage};

use crate::item::{all_digits, capped};
use crate::items::{read_items, read_worlds};
use crate::line::{parse, values};
use crate::{Command, WordsRefused};
use clap::error::ErrorKind;
use std::alloc::Global;

fn budget(word: &[u8]) -> Option<u64>
    ensures { result ≡ spec.budget word.now }
{
    if word.is_empty() || !all_digits(word) || word.len() > 9 {
        return None;
    }
    let steps = capped(word);
    if 1 <= steps && steps <= 100_000_000 {
        Some(steps)
    } else {
        None
    }
}

fn steps(values: &[&str]) -> Option<u64>
    ensures { result ≡ spec.steps (map (λ v. v.now) values.now) }
{
    match values {
        [] => Some(1_000_000),
        [value] => budget(value.as_bytes()),
        _ => None,
    }
}

/// The command of plain words.
fn named(alloc: Global, steps: u64, words: &[&str]) -> Result<Command, WordsRefused>
    ensures ok { IfOk result (λ c. spec.named steps (map (λ w. w.now) words.now) ≡ Some c) }
    ensures err { IfErr result (λ e. e ≡ Usage → spec.named steps (map (λ w. w.now) words.now) ≡ None) }
{
    match words {
        [name] if *name == "eval" => Ok(Command::Eval(steps)),
        [name, items @ ..] if *name == "run" => Ok(Command::Run(steps, read_items(alloc, items)?)),
        [name, items @ ..] if *name == "check" => {
            Ok(Command::Check(steps, read_worlds(alloc, items)?))
        }
        _ => Err(WordsRefused::Usage),
    }
}

/// The values of the option and the plain words.
fn divide<'a>(
    alloc: Global,
    words: &'a [String],
) -> Result<(Vec<&'a str>, Vec<&'a str>), WordsRefused>
    ensures ok { IfOk result (λ p. form false [] [] (map string_bytes words.entry.now) ≡ Some (map (λ v. v.now) p.0.items, map (λ w. w.now) p.1.items)) }
    ensures err { IfErr result (λ e. e ≡ Usage → form false [] [] (map string_bytes words.entry.now) ≡ None) }
{
    match parse(alloc, words) {
        Ok(matches) => Ok((
            values(alloc, &matches, "steps")?,
            values(alloc, &matches, "words")?,
        )),
        Err(error) if error.kind() == ErrorKind::OutOfMemory => Err(WordsRefused::NoMemory),
        Err(_) => Err(WordsRefused::Usage),
    }
}

/// What the values of the option and the plain words ask for.
fn asked(alloc: Global, values: &[&str], plain: &[&str]) -> Result<Command, WordsRefused>
    ensures ok { IfOk result (λ c. spec.asked (map (λ v. v.now) values.now, map (λ w. w.now) plain.now) ≡ Some c) }
    ensures err { IfErr result (λ e. e ≡ Usage → spec.asked (map (λ v. v.now) values.now, map (λ w. w.now) plain.now) ≡ None) }
{
    match steps(values) {
        Some(steps) => named(alloc, steps, plain),
        None => Err(WordsRefused::Usage),
    }
}

/// What the words behind the program's name ask for. They are refused as usage exactly where they have another form.
#[tactic(auto, using(crate::proofs::Agreement::of_no_parts))]
pub fn words(alloc: Global, words: &[String]) -> Result<Command, WordsRefused>
    ensures ok { IfOk result (λ c. spec.command (map string_bytes words.now) ≡ Some c) }
    ensures err { IfErr result (λ e. e ≡ Usage → spec.command (map string_bytes words.now) ≡ None) }
{
    let (values, plain) = divide(alloc, words)?;
    asked(alloc, values.as_slice(), plain.as_slice())
}
