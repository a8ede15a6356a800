//! The inputs of a run.

ghost use Rattle.std.specs.Prelude.{◌≡◌, [], OnErr, OnOk};
ghost use Rattle.std.specs.Option.{option_copied};
ghost use Rattle.plain_heap.specs.Heap.{lookup, put_at};

use js_value::{NoMemory, Primitive, Text};
use property_table::PropertyTable;
use std::alloc::Global;
use std::marker::Model;

/// The values of inputs by their names, as a world has them. To look one up doesn't take longer where there are more.
#[derive(Drop)]
pub struct Inputs {
    table: PropertyTable<Primitive>,
}

impl Model for Inputs {
    ghost use Rattle.std.specs.Prelude.{List, ℕ};
    ghost use Rattle.js_value.specs.declared.primitive.Primitive.{Primitive};

    ghost Value = { List (List ℕ × Primitive) };

    ghost view = { λ i. i.table };
}

impl Inputs {
    /// No inputs.
    pub fn new(alloc: Global) -> Inputs
        ensures { result ≡ [] }
    {
        Inputs {
            table: PropertyTable::new(alloc),
        }
    }

    /// Gives a name this value in place of an earlier one. Where there is no memory for it, nothing changes.
    pub fn insert(&mut self, alloc: Global, name: Text, value: Primitive) -> Result<(), NoMemory>
        ensures ok { OnOk result (self.new ≡ put_at name value self.old) }
        ensures err { OnErr result (self.new ≡ self.old) }
    {
        self.table.insert(alloc, &name, value)
    }

    /// The value of a name.
    pub fn get(&self, name: &Text) -> Option<&Primitive>
        ensures { option_copied result ≡ lookup name.now self.now }
    {
        self.table.get(name)
    }
}
