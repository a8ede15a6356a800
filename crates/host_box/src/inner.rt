ghost use Rattle.std.specs.Prelude.{◌≡◌, ◌≤◌, ◌↔◌, OnOk, OnErr, IfSome, Contains};
ghost use Rattle.std.specs.Option.{option_map};
ghost use Rattle.host_box.specs.Hosts.{given, thrown, after_answers, Replies, numbers_after_call, CallHasCause};
ghost use Rattle.host_box.specs.Inners.{answers_of, failing_of, faults_of};

use crate::{Host, ListHost, Reply};
use js_value::{Kind, NoMemory, Primitive, Prims, Text};

/// The host that a recorder asks. A queue takes no box.
#[derive(Drop)]
pub enum Inner {
    Boxed(Box<dyn Host>),
    Queued(ListHost),
}

impl Inner {
    pub(crate) fn supply(&mut self, value: Primitive) -> Result<(), NoMemory>
        ensures ok { OnOk result (answers_of answers self.new ≡
            after_answers (answers_of answers self.old) (given value)) }
        ensures err { OnErr result ((answers_of answers self.new ≡ answers_of answers self.old) ×
            (faults_of host_faults self.new ≡ faults_of host_faults self.old)) }
        ensures failing { failing_of failing self.new ≡ failing_of failing self.old }
        ensures faults { faults_of host_faults self.old ≤ faults_of host_faults self.new }
    {
        match self {
            Inner::Boxed(host) => host.supply(value),
            Inner::Queued(host) => host.supply(value),
        }
    }

    pub(crate) fn supply_throw(&mut self, value: Primitive) -> Result<(), NoMemory>
        ensures ok { OnOk result (answers_of answers self.new ≡
            after_answers (answers_of answers self.old) (thrown value)) }
        ensures err { OnErr result ((answers_of answers self.new ≡ answers_of answers self.old) ×
            (faults_of host_faults self.new ≡ faults_of host_faults self.old)) }
        ensures failing { failing_of failing self.new ≡ failing_of failing self.old }
        ensures faults { faults_of host_faults self.old ≤ faults_of host_faults self.new }
    {
        match self {
            Inner::Boxed(host) => host.supply_throw(value),
            Inner::Queued(host) => host.supply_throw(value),
        }
    }

    pub(crate) fn call(&mut self, name: &Text, args: &Prims, kind: Kind) -> Reply
        ensures answer { Replies (answers_of answers self.old) (answers_of answers self.new) result }
        ensures cause { CallHasCause (faults_of host_faults self.old)
            (faults_of host_faults self.new) result }
        ensures faults { faults_of host_faults self.old ≤ faults_of host_faults self.new }
        ensures told { IfSome (failing_of failing self.old)
            (λ numbers. (result ≡ Reply.Failed) ↔ Contains numbers 1) }
        ensures failing { failing_of failing self.new ≡
            option_map numbers_after_call (failing_of failing self.old) }
    {
        match self {
            Inner::Boxed(host) => host.call(name, args, kind),
            Inner::Queued(host) => host.call(name, args, kind),
        }
    }
}
