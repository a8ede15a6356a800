//! The words of the command line.
#![tactic(auto)]

ghost use Rattle.std.specs.Prelude.{◌≡◌, [], ◌∷◌, None, pos, codes, true, false};
ghost use Rattle.js_value.specs.declared.primitive.Primitive.TheVariants as value;
ghost use Rattle.pp_words.specs.Words.{command, item};

mod command;
mod item;
mod items;
mod line;
mod reading;

pub use command::{Command, Item, Items, WordsRefused, Worlds};
pub use reading::words;

/// Cases of the form of the words, worked out by hand.
pub fn words_cases()
    ensures none { command [] ≡ None }
    ensures eval { command (codes "eval" ∷ []) ≡ Some (Command.Eval 1000000) }
    ensures eval_item { command (codes "eval" ∷ codes "x" ∷ []) ≡ None }
    ensures run_alone { command (codes "run" ∷ []) ≡ Some (Command.Run 1000000 []) }
    ensures given_twice { command (codes "run" ∷ codes "k=1" ∷ codes "k=2" ∷ []) ≡ None }
    ensures check_alone { command (codes "check" ∷ []) ≡ Some (Command.Check 1000000 ([] ∷ [])) }
    ensures empty_worlds { command (codes "check" ∷ codes "/" ∷ codes "/" ∷ []) ≡
        Some (Command.Check 1000000 ([] ∷ [] ∷ [] ∷ [])) }
    ensures answer_after_world { command (codes "check" ∷ codes "=1" ∷ codes "/" ∷ codes "=2" ∷ []) ≡
        Some (Command.Check 1000000 ((record { name = []; value = value.Number (pos 1); threw = false } ∷ []) ∷
        (record { name = []; value = value.Number (pos 2); threw = false } ∷ []) ∷ [])) }
    ensures slash_of_run { command (codes "run" ∷ codes "/" ∷ []) ≡ None }
    ensures no_equals { command (codes "run" ∷ codes "k" ∷ []) ≡ None }
    ensures zero_steps { command (codes "--steps" ∷ codes "0" ∷ codes "eval" ∷ []) ≡ None }
    ensures steps { command (codes "eval" ∷ codes "--steps=5" ∷ []) ≡ Some (Command.Eval 5) }
    ensures two_steps { command (codes "--steps" ∷ codes "5" ∷ codes "--steps" ∷ codes "6" ∷ codes "eval" ∷ []) ≡ None }
    ensures help { command (codes "--help" ∷ []) ≡ None }
    ensures quoted { item (codes "='5") ≡ Some (record { name = []; value = value.Text (codes "5"); threw = false }) }
    ensures threw { item (codes "=!5") ≡ Some (record { name = []; value = value.Number (pos 5); threw = true }) }
{}
