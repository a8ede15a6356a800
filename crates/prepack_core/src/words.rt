ghost use Rattle.std.specs.Prelude.{◌≡◌, map, string_bytes};
ghost use Rattle.prepack_core.specs.Words.{command};

/// What the program is to do.
#[derive(Clone, Copy, Debug, PartialEq, Eq)]
pub enum Command {
    /// Evaluate a script, with this budget of steps.
    Eval(u64),
}

/// The command that the words give, or none where they have another form.
pub fn read_words(words: &[String]) -> Option<Command>
    ensures { result ≡ command (map string_bytes words.now) }
{
    match words {
        [word] if word.as_str() == "eval" => Some(Command::Eval(1_000_000)),
        _ => None,
    }
}
