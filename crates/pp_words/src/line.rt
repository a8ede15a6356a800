ghost use Rattle.std.specs.Prelude.{◌≡◌, ◌⊎◌, IfErr, IfOk, IsSomeAnd, None, false, [], map, string_bytes};
ghost use Rattle.clap.specs.Walk.{rows_of};
ghost use Rattle.clap.specs.Matches.{found_of};
ghost use Rattle.clap.specs.Values.{kind_of};
ghost use Rattle.clap.specs.declared.error.kind.ErrorKind.TheVariants.{OutOfMemory};
ghost use Rattle.pp_words.specs.Line.{form, Shows, values_at};

use clap::{Arg, ArgAction, ArgMatches, Command, Error};
use std::alloc::{AllocError, Global};

/// What the words give to the option and to the rest.
pub fn parse<'a>(alloc: Global, words: &'a [String]) -> Result<ArgMatches<'a>, Error>
    // The words are of the form, and the matches are what it says.
    ensures ok { IfOk result (λ m. IsSomeAnd (form false [] [] (map string_bytes words.entry.now)) (λ q. Shows (rows_of (found_of m)) q.0 q.1)) }

    // There was no memory, or the words are of another form.
    ensures err { IfErr result (λ e. (kind_of e ≡ OutOfMemory) ⊎ (form false [] [] (map string_bytes words.entry.now) ≡ None)) }
{
    let steps = Arg::new(alloc, "steps")
        .long("steps")
        .action(ArgAction::Append);
    let rest = Arg::new(alloc, "words").action(ArgAction::Append);
    let command = Command::new(alloc, "prepack")
        .no_binary_name(true)
        .disable_help_flag(true)
        .arg(steps)?
        .arg(rest)?;
    command.try_get_matches_from(words)
}

/// The values of an argument.
#[tactic(auto, using(crate::proofs::Rows::shown_values))]
pub fn values<'a>(
    alloc: Global,
    matches: &ArgMatches<'a>,
    id: &str,
) -> Result<Vec<&'a str>, AllocError>
    ensures { IfOk result (λ all. map (λ v. v.now) all.items ≡ values_at id.now (rows_of (found_of matches.now))) }
{
    match matches.get_raw(id) {
        Some(values) => Vec::from_slice(alloc, values),
        None => Ok(Vec::new(alloc)),
    }
}
