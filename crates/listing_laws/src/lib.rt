//! Laws on listings: heaps that are the same but for the numbers of their objects, cells and functions have equal listings.
#![tactic(auto)]

ghost use Rattle.listing_laws.specs.Renamed.{SameListing, QueueIsClosed};

/// Two heaps that are the same but for the numbers of objects, cells and functions, as far as a walk can tell, have equal listings,
/// and two runs that left them agree.
#[tactic(auto, using(crate::proofs::Law::same_listing))]
pub fn same_listing_law()
    ensures { SameListing }
{}

/// In a valid heap the items of the queue, all of them there, are a set that the walk doesn't leave: it may serve as the one among
/// which a renaming is said.
#[tactic(auto, using(crate::proofs::Queues::queue_is_closed))]
pub fn queue_is_closed_law()
    ensures { QueueIsClosed }
{}
