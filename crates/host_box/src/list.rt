ghost use Rattle.std.specs.Prelude.{◌≡◌, ◌≤◌, ◌↔◌, ◌∷◌, ◌++◌, ℕ, [], Some, OnOk, OnErr, Contains};
ghost use Rattle.std.specs.Option.{option_map};
ghost use Rattle.host_box.specs.Hosts.{given, thrown, Replies, numbers_after_call, CallHasCause, IsFirst};

use crate::{Answer, Host, Reply};
use js_value::{Kind, NoMemory, Primitive, Prims, Text};
use std::alloc::Global;
use std::collections::VecDeque;
use std::marker::Model;

/// A queue of answers, at first empty. It tells its answers, and that no call of it fails.
#[derive(Drop)]
pub struct ListHost {
    queue: VecDeque<Answer>,
}

impl Model for ListHost {
    ghost use Rattle.std.specs.Prelude.{List};
    ghost use Rattle.host_box.specs.declared.answer.Answer.{Answer};

    ghost Value = { List Answer };

    ghost view = { λ h. h.queue.items };
}

impl ListHost {
    /// A host without answers.
    pub fn new(alloc: Global) -> ListHost
        ensures { result ≡ [] }
    {
        ListHost {
            queue: VecDeque::new(alloc),
        }
    }

    /// Puts an answer behind those that are left, or changes nothing.
    fn push(&mut self, answer: Answer) -> Result<(), NoMemory>
        ensures ok { OnOk result (self.new ≡ self.old ++ answer ∷ []) }
        ensures err { OnErr result (self.new ≡ self.old) }
    {
        match self.queue.push_back(answer) {
            Ok(()) => Ok(()),
            Err(_) => Err(NoMemory),
        }
    }
}

impl Host for ListHost {
    ghost answers = { λ h. Some h };

    ghost failing = { λ _. Some [] };

    ghost host_faults = { λ _. 0 };

    fn supply(&mut self, value: Primitive) -> Result<(), NoMemory> {
        self.push(Answer {
            value,
            threw: false,
        })
    }

    fn supply_throw(&mut self, value: Primitive) -> Result<(), NoMemory> {
        self.push(Answer { value, threw: true })
    }

    /// The first answer that is left, which is taken away. It takes no memory.
    fn call(&mut self, _name: &Text, _args: &Prims, _kind: Kind) -> Reply
        ensures answer { Replies (Some self.old) (Some self.new) result }
        ensures cause { CallHasCause 0 0 result }
        ensures faults { 0 ≤ 0 }
        ensures told { (result ≡ Reply.Failed) ↔ Contains {X = ℕ} [] 1 }
        ensures failing { Some [] ≡ option_map numbers_after_call (Some []) }
        ensures first { IsFirst self.old result }
    {
        match self.queue.pop_front() {
            Some(
                Answer {
                    value,
                    threw: false,
                },
            ) => Reply::Given(value),
            Some(Answer { value, threw: true }) => Reply::Thrown(value),
            None => Reply::Ended,
        }
    }
}
