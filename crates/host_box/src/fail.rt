ghost use Rattle.std.specs.Prelude.{◌≡◌, ◌≢◌, ◌+◌, ◌-◌, ◌^◌, ◌≤◌, ◌↔◌, [], Some, min, IsTrue, OnOk, OnErr, Contains};
ghost use Rattle.std.specs.Option.{option_map};
ghost use Rattle.host_box.specs.FailHosts.{FailReplies};
ghost use Rattle.host_box.specs.Hosts.{given, thrown, after_answers, numbers_later, Replies, numbers_after_call, CallHasCause};

use crate::{Host, ListHost, Reply};
use js_value::{Kind, NoMemory, Primitive, Prims, Text};
use pp_io::fails_next;
use std::alloc::Global;
use std::marker::Model;

/// A queue of answers, at first empty, whose calls with given numbers fail. It tells its answers, and these numbers.
#[derive(Drop)]
pub struct FailHost {
    answers: ListHost,
    fail: Vec<u64>,
    calls: u64,
    faults: u64,
}

impl Model for FailHost {
    ghost use Rattle.host_box.specs.FailHosts.{FailState};

    ghost Value = { FailState };

    ghost view = { λ h. record { answers = h.answers; fail = h.fail.items; calls = h.calls; faults = h.faults } };
}

/// Counts a call, and says whether it fails by these numbers.
fn count_call(calls: &mut u64, fail: &[u64]) -> bool
    ensures fails { IsTrue result ↔ Contains (numbers_later calls.old fail.now) 1 }
    ensures later { numbers_later calls.new fail.now ≡ numbers_after_call (numbers_later calls.old fail.now) }
{
    let _calls = *calls;
    fails_next(calls, fail)
}

impl FailHost {
    /// A host without answers, whose calls with these numbers, counted from 1, fail.
    pub fn new(alloc: Global, fail: Vec<u64>) -> FailHost
        ensures { result ≡ record { answers = []; fail = fail.items; calls = 0; faults = 0 } }
    {
        FailHost {
            answers: ListHost::new(alloc),
            fail,
            calls: 0,
            faults: 0,
        }
    }
}

impl Host for FailHost {
    ghost answers = { λ h. Some h.answers };

    ghost failing = { λ h. Some (numbers_later h.calls h.fail) };

    ghost host_faults = { λ h. h.faults };

    fn supply(&mut self, value: Primitive) -> Result<(), NoMemory>
        ensures ok { OnOk result (Some self.new.answers ≡ after_answers (Some self.old.answers) (given value)) }
        ensures err { OnErr result ((Some self.new.answers ≡ Some self.old.answers) × (self.new.faults ≡ self.old.faults)) }
        ensures failing { Some (numbers_later self.new.calls self.new.fail) ≡ Some (numbers_later self.old.calls self.old.fail) }
        ensures faults { self.old.faults ≤ self.new.faults }
        ensures uncounted { self.new.faults ≡ self.old.faults }
    {
        self.answers.supply(value)
    }

    fn supply_throw(&mut self, value: Primitive) -> Result<(), NoMemory>
        ensures ok { OnOk result (Some self.new.answers ≡ after_answers (Some self.old.answers) (thrown value)) }
        ensures err { OnErr result ((Some self.new.answers ≡ Some self.old.answers) × (self.new.faults ≡ self.old.faults)) }
        ensures failing { Some (numbers_later self.new.calls self.new.fail) ≡ Some (numbers_later self.old.calls self.old.fail) }
        ensures faults { self.old.faults ≤ self.new.faults }
        ensures uncounted { self.new.faults ≡ self.old.faults }
    {
        self.answers.supply_throw(value)
    }

    /// The first answer that is left, which is taken away, unless the call fails. It takes no memory.
    fn call(&mut self, name: &Text, args: &Prims, kind: Kind) -> Reply
        ensures answer { Replies (Some self.old.answers) (Some self.new.answers) result }
        ensures cause { CallHasCause self.old.faults self.new.faults result }
        ensures faults { self.old.faults ≤ self.new.faults }
        ensures told { (result ≡ Reply.Failed) ↔ Contains (numbers_later self.old.calls self.old.fail) 1 }
        ensures failing { Some (numbers_later self.new.calls self.new.fail) ≡
            option_map numbers_after_call (Some (numbers_later self.old.calls self.old.fail)) }
        ensures first { FailReplies self.old result }
        ensures counted { result ≡ Reply.Failed → self.new.faults ≡ min (self.old.faults + 1) (2 ^ 64 - 1) }
        ensures uncounted { result ≢ Reply.Failed → self.new.faults ≡ self.old.faults }
    {
        if count_call(&mut self.calls, &self.fail) {
            self.faults = self.faults.saturating_add(1);
            return Reply::Failed;
        }
        self.answers.call(name, args, kind)
    }
}
