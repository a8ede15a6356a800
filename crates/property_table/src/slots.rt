//! Slots, by which the entries of a map have an order of their own.

ghost use Rattle.std.specs.Prelude.{◌≡◌, ◌++◌, ◌∷◌, [], ◌<◌, ◌≤◌, ◌-◌, None, Some, length, slice_index, slice_set, take, OnOk};
ghost use Rattle.std.specs.List.{swap_remove};
ghost use Rattle.std.specs.Vec.{vec_len, vec_capacity};
ghost use Rattle.property_table.specs.Slots.{AreFew, ArePlaced, named};

use js_value::NoMemory;
use std::alloc::Global;

/// The indices of a map's entries in the order of creation.
#[derive(Drop)]
pub struct Slots {
    /// The index of an entry for each slot, or none where the entry was removed.
    pub indices: Vec<Option<usize>>,
    /// The slot of each entry.
    pub slot_of: Vec<usize>,
    ghost placed: { ArePlaced indices.items slot_of.items },
}

impl Slots {
    pub fn new(alloc: Global) -> Slots
        ensures indices { result.indices.items ≡ [] }
        ensures slot_of { result.slot_of.items ≡ [] }
    {
        Slots {
            indices: Vec::new(alloc),
            slot_of: Vec::new(alloc),
        }
    }

    /// Makes room for one more entry.
    pub fn reserve(&mut self) -> Result<(), NoMemory>
        ensures indices { self.new.indices.items ≡ self.old.indices.items }
        ensures slot_of { self.new.slot_of.items ≡ self.old.slot_of.items }
        ensures room { OnOk result (vec_len self.new.indices < vec_capacity self.new.indices) }
        ensures room_of { OnOk result (vec_len self.new.slot_of < vec_capacity self.new.slot_of) }
    {
        self.indices.reserve(1)?;
        self.slot_of.reserve(1)?;
        Ok(())
    }

    /// One more entry, which comes last.
    pub fn push(&mut self)
        requires room { vec_len self.old.indices < vec_capacity self.old.indices }
        requires room_of { vec_len self.old.slot_of < vec_capacity self.old.slot_of }
        ensures indices { self.new.indices.items ≡ self.old.indices.items ++ Some (length self.old.slot_of.items) ∷ [] }
        ensures slot_of { self.new.slot_of.items ≡ self.old.slot_of.items ++ length self.old.indices.items ∷ [] }
    {
        let slot = self.indices.len();
        let _ = self.indices.push(Some(self.slot_of.len()));
        let _ = self.slot_of.push(slot);
    }

    /// Takes the entry at an index out, into whose place the last entry goes.
    pub fn take_out(&mut self, n: usize)
        requires { n < length self.old.slot_of.items }
        ensures indices { self.new.indices.items ≡ slice_set (slice_set self.old.indices.items (slice_index self.old.slot_of.items (length self.old.slot_of.items - 1)) (Some n)) (slice_index self.old.slot_of.items n) None }
        ensures slot_of { self.new.slot_of.items ≡ swap_remove self.old.slot_of.items n 0 }
    {
        let slot = self.slot_of[n];
        let last = self.slot_of[self.slot_of.len() - 1];
        self.indices[last] = Some(n);
        self.indices[slot] = None;
        self.slot_of.swap_remove(n);
    }

    /// Closes the gaps where more than half of the slots are empty, in the time that emptying them took.
    pub fn close_up(&mut self)
        ensures named { named self.new.indices.items ≡ named self.old.indices.items }
        ensures number { length self.new.slot_of.items ≡ length self.old.slot_of.items }
        ensures few { AreFew self.new.indices.items self.new.slot_of.items }
    {
        if self.indices.len() / 2 > self.slot_of.len() {
            let count = move_up(&mut self.indices, &mut self.slot_of);
            self.indices.truncate(count);
        }
    }
}

/// Moves the indices to the first slots, in their order, and counts them.
fn move_up(indices: &mut [Option<usize>], slot_of: &mut [usize]) -> usize
    requires { ArePlaced indices.old slot_of.old }
    ensures placed { ArePlaced (take result indices.new) slot_of.new }
    ensures named { named (take result indices.new) ≡ named indices.old }
    ensures count { (result ≡ length slot_of.new) × (result ≤ length indices.new) }
{
    let mut count = 0;
    for slot in 0..indices.len() {
        if let Some(n) = indices[slot] {
            indices[count] = Some(n);
            slot_of[n] = count;
            count += 1;
        }
    }
    count
}
