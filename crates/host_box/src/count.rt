ghost use Rattle.std.specs.Prelude.{◌≡◌, ◌≤◌, ◌↔◌, ℕ, pos, [], None, Some, IfErr, Contains};
ghost use Rattle.std.specs.Option.{option_map};
ghost use Rattle.host_box.specs.Hosts.{Replies, numbers_after_call, CallHasCause, next_reply, next_count};

use crate::{Host, Reply};
use js_value::{GREATEST_NUMBER, Kind, NoMemory, Primitive, Prims, Text};
use std::marker::Model;

/// Answers the n-th call by the number n, as far as there are numbers. It tells no answers, and drops those that are supplied.
#[derive(Drop)]
pub struct CountHost {
    calls: i64,
}

impl Model for CountHost {
    ghost use Rattle.std.specs.Prelude.{ℤ};

    ghost Value = { ℤ };

    ghost view = { λ h. h.calls };
}

impl CountHost {
    /// A host that wasn't called yet.
    pub fn new() -> CountHost
        ensures { result ≡ pos 0 }
    {
        CountHost { calls: 0 }
    }
}

impl Host for CountHost {
    ghost answers = { λ _. None };

    ghost failing = { λ _. Some [] };

    ghost host_faults = { λ _. 0 };

    /// It takes no memory.
    fn supply(&mut self, _value: Primitive) -> Result<(), NoMemory>
        ensures never_refused { IfErr result (λ _. ⊥) }
        ensures same { self.new ≡ self.old }
    {
        Ok(())
    }

    /// It takes no memory.
    fn supply_throw(&mut self, _value: Primitive) -> Result<(), NoMemory>
        ensures never_refused { IfErr result (λ _. ⊥) }
        ensures same { self.new ≡ self.old }
    {
        Ok(())
    }

    /// The number of the call. It takes no memory.
    fn call(&mut self, _name: &Text, _args: &Prims, _kind: Kind) -> Reply
        ensures answer { Replies None None result }
        ensures cause { CallHasCause 0 0 result }
        ensures faults { 0 ≤ 0 }
        ensures told { (result ≡ Reply.Failed) ↔ Contains {X = ℕ} [] 1 }
        ensures failing { Some [] ≡ option_map numbers_after_call (Some []) }
        ensures next { result ≡ next_reply self.old }
        ensures count { self.new ≡ next_count self.old }
    {
        if self.calls >= GREATEST_NUMBER {
            return Reply::Ended;
        }
        self.calls += 1;
        Reply::Given(Primitive::Number(self.calls))
    }
}
