ghost use Rattle.std.specs.Prelude.{◌≡◌, ◌≤◌, ◌↔◌, ◌∷◌, ◌++◌, [], Some, OnOk, OnErr, IfSome, Contains, false, true};
ghost use Rattle.std.specs.Option.{option_map};
ghost use Rattle.host_box.specs.Hosts.{given, thrown, after_answers, Replies, numbers_after_call, CallHasCause};
ghost use Rattle.host_box.specs.Inners.{answers_of, failing_of, faults_of};
ghost use Rattle.host_box.specs.Recorders.{event, calls_after, ended_after};

use crate::inner::Inner;
use crate::{Calls, Host, HostEvent, ListHost, Reply};
use js_value::{Kind, NoMemory, Primitive, Prims, Text};
use std::alloc::Global;

/// A recorder round a host, which passes each call on once. It keeps the calls that were answered, given or thrown, and counts
/// those that found no answer.
#[derive(Drop)]
pub struct RecordHost {
    alloc: Global,
    inner: Inner,
    calls: Calls,
    ended: u64,
}

impl RecordHost {
    /// A recorder round a boxed host.
    pub fn new(alloc: Global, inner: Box<dyn Host>) -> RecordHost
        ensures inner { result.inner ≡ Inner.Boxed inner }
        ensures record { (result.calls ≡ []) × (result.ended ≡ 0) }
    {
        RecordHost {
            alloc,
            inner: Inner::Boxed(inner),
            calls: Calls::new(alloc),
            ended: 0,
        }
    }

    /// A recorder round a queue, without a box.
    pub fn of_list(alloc: Global, inner: ListHost) -> RecordHost
        ensures inner { result.inner ≡ Inner.Queued inner }
        ensures record { (result.calls ≡ []) × (result.ended ≡ 0) }
    {
        RecordHost {
            alloc,
            inner: Inner::Queued(inner),
            calls: Calls::new(alloc),
            ended: 0,
        }
    }

    /// The calls that were answered, in order.
    pub fn calls(&self) -> &Calls
        ensures { result.now ≡ self.now.calls }
    {
        &self.calls
    }

    /// How many calls found no answer.
    pub fn ended(&self) -> u64
        ensures { result ≡ self.now.ended }
    {
        self.ended
    }

    /// Puts an answer that is given behind those that are left, or changes nothing.
    pub fn supply(&mut self, value: Primitive) -> Result<(), NoMemory>
        ensures ok { OnOk result (answers_of answers self.new.inner ≡
            after_answers (answers_of answers self.old.inner) (given value)) }
        ensures err { OnErr result
            ((answers_of answers self.new.inner ≡ answers_of answers self.old.inner) ×
            (faults_of host_faults self.new.inner ≡ faults_of host_faults self.old.inner)) }
        ensures failing { failing_of failing self.new.inner ≡ failing_of failing self.old.inner }
        ensures faults { faults_of host_faults self.old.inner ≤ faults_of host_faults self.new.inner }
        ensures record { (self.new.calls ≡ self.old.calls) × (self.new.ended ≡ self.old.ended) }
    {
        self.inner.supply(value)
    }

    /// Puts an answer that is thrown behind those that are left, or changes nothing.
    pub fn supply_throw(&mut self, value: Primitive) -> Result<(), NoMemory>
        ensures ok { OnOk result (answers_of answers self.new.inner ≡
            after_answers (answers_of answers self.old.inner) (thrown value)) }
        ensures err { OnErr result
            ((answers_of answers self.new.inner ≡ answers_of answers self.old.inner) ×
            (faults_of host_faults self.new.inner ≡ faults_of host_faults self.old.inner)) }
        ensures failing { failing_of failing self.new.inner ≡ failing_of failing self.old.inner }
        ensures faults { faults_of host_faults self.old.inner ≤ faults_of host_faults self.new.inner }
        ensures record { (self.new.calls ≡ self.old.calls) × (self.new.ended ≡ self.old.ended) }
    {
        self.inner.supply_throw(value)
    }

    /// Puts a call at the end of the record, or changes nothing.
    fn push(
        &mut self,
        name: &Text,
        args: &Prims,
        kind: Kind,
        answer: &Primitive,
        threw: bool,
    ) -> Result<(), NoMemory>
        ensures ok { OnOk result (self.new.calls ≡
            self.old.calls ++ event name.now args.now kind answer.now threw ∷ []) }
        ensures err { OnErr result (self.new.calls ≡ self.old.calls) }
        ensures rest { (self.new.inner ≡ self.old.inner) × (self.new.ended ≡ self.old.ended) }
    {
        let event = HostEvent::of_call(self.alloc, name, args, kind, answer, threw)?;
        self.calls.push(event)
    }

    /// Asks the inner host for the answer to one call. Want of memory for the record comes after the answer was taken.
    pub fn call(&mut self, name: &Text, args: &Prims, kind: Kind) -> Reply
        ensures answer { Replies (answers_of answers self.old.inner)
            (answers_of answers self.new.inner) result }
        ensures cause { CallHasCause (faults_of host_faults self.old.inner)
            (faults_of host_faults self.new.inner) result }
        ensures faults { faults_of host_faults self.old.inner ≤ faults_of host_faults self.new.inner }
        ensures told { IfSome (failing_of failing self.old.inner)
            (λ numbers. (result ≡ Reply.Failed) ↔ Contains numbers 1) }
        ensures failing { failing_of failing self.new.inner ≡
            option_map numbers_after_call (failing_of failing self.old.inner) }
        ensures calls { self.new.calls ≡ calls_after self.old.calls name.now args.now kind result }
        ensures ended { self.new.ended ≡ ended_after self.old.ended result }
    {
        match self.inner.call(name, args, kind) {
            Reply::Given(value) => match self.push(name, args, kind, &value, false) {
                Ok(()) => Reply::Given(value),
                Err(NoMemory) => Reply::NoMemory,
            },
            Reply::Thrown(value) => match self.push(name, args, kind, &value, true) {
                Ok(()) => Reply::Thrown(value),
                Err(NoMemory) => Reply::NoMemory,
            },
            Reply::Ended => {
                self.ended = self.ended.saturating_add(1);
                Reply::Ended
            }
            Reply::Failed => Reply::Failed,
            Reply::NoMemory => Reply::NoMemory,
        }
    }
}
