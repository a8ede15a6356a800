ghost use Rattle.std.specs.Prelude.{◌≡◌, ◌≤◌, ◌↔◌, List, ℕ, OnOk, OnErr, IfSome, Contains};
ghost use Rattle.std.specs.declared.option.Option.{Option};
ghost use Rattle.std.specs.Option.{option_map};
ghost use Rattle.host_box.specs.Hosts.{given, thrown, after_answers, Replies, numbers_after_call, CallHasCause};
ghost use Rattle.host_box.specs.declared.answer.Answer.{Answer};

use crate::Reply;
use js_value::{Kind, NoMemory, Primitive, Prims, Text};

/// What answers the host calls of a script. Whether it tells its answers, and whether it tells the numbers of its calls
/// that fail, never changes.
pub trait Host: Drop {
    /// The answers that are left, where the host tells them.
    ghost answers: { Self → Option (List Answer) };

    /// The numbers of its later calls that fail, counted from the next, where the host tells them.
    ghost failing: { Self → Option (List ℕ) };

    /// How often a call has failed.
    ghost host_faults: { Self → ℕ };

    /// Puts an answer that is given behind those that are left, or changes nothing.
    fn supply(&mut self, value: Primitive) -> Result<(), NoMemory>
        ensures ok { OnOk result (answers self.new ≡ after_answers (answers self.old) (given value)) }
        ensures err { OnErr result ((answers self.new ≡ answers self.old) ×
            (host_faults self.new ≡ host_faults self.old)) }
        ensures failing { failing self.new ≡ failing self.old }
        ensures faults { host_faults self.old ≤ host_faults self.new };

    /// Puts an answer that is thrown behind those that are left, or changes nothing.
    fn supply_throw(&mut self, value: Primitive) -> Result<(), NoMemory>
        ensures ok { OnOk result (answers self.new ≡ after_answers (answers self.old) (thrown value)) }
        ensures err { OnErr result ((answers self.new ≡ answers self.old) ×
            (host_faults self.new ≡ host_faults self.old)) }
        ensures failing { failing self.new ≡ failing self.old }
        ensures faults { host_faults self.old ≤ host_faults self.new };

    /// Asks for the answer to one call.
    fn call(&mut self, name: &Text, args: &Prims, kind: Kind) -> Reply
        ensures answer { Replies (answers self.old) (answers self.new) result }
        ensures cause { CallHasCause (host_faults self.old) (host_faults self.new) result }
        ensures faults { host_faults self.old ≤ host_faults self.new }
        ensures told { IfSome (failing self.old) (λ numbers. (result ≡ Reply.Failed) ↔ Contains numbers 1) }
        ensures failing { failing self.new ≡ option_map numbers_after_call (failing self.old) };
}
