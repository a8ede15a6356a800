//! What answers the host calls of a script: hosts that give and throw, and a recorder round them.
#![tactic(auto)]

ghost use Rattle.std.specs.Prelude.{◌≡◌, [], ◌∷◌, pos};
ghost use Rattle.js_value.specs.declared.primitive.Primitive.TheVariants.{Number};
ghost use Rattle.host_box.specs.Hosts.{next_reply, next_count, numbers_later, numbers_after_call};
ghost use Rattle.host_box.specs.Recorders.{ended_after};

mod answer;
mod count;
mod event;
mod fail;
mod host;
mod inner;
mod list;
mod record;

pub use answer::{Answer, Reply};
pub use count::CountHost;
pub use event::{Calls, HostEvent};
pub use fail::FailHost;
pub use host::Host;
pub use list::ListHost;
pub use record::RecordHost;

/// Cases of what calls do, worked out by hand: the last number of a count, the numbers of calls that fail, the last value of a u64.
pub fn host_cases()
    ensures first { next_reply (pos 0) ≡ Reply.Given (Number (pos 1)) }
    ensures last { next_reply (pos 9007199254740990) ≡ Reply.Given (Number (pos 9007199254740991)) }
    ensures past { next_reply (pos 9007199254740991) ≡ Reply.Ended }
    ensures stays { next_count (pos 9007199254740991) ≡ pos 9007199254740991 }
    ensures later { numbers_later 2 (2 ∷ 4 ∷ 3 ∷ []) ≡ 2 ∷ 1 ∷ [] }
    ensures after_call { numbers_after_call (1 ∷ 4 ∷ 0 ∷ []) ≡ 3 ∷ 0 ∷ [] }
    ensures ended { ended_after 7 Reply.Ended ≡ 8 }
    ensures last_ended { ended_after 18446744073709551615 Reply.Ended ≡ 18446744073709551615 }
    ensures failed { ended_after 7 Reply.Failed ≡ 7 }
{}
