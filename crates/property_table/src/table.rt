//! Properties by their keys.

ghost use Rattle.std.specs.Prelude.{◌≡◌, ◌<◌, ◌∷◌, [], true, None, Some, length, is_ok, is_some, slice_get, IfErr, IfNone, IfSome, OnErr, OnOk};
ghost use Rattle.std.specs.Option.{option_copied};
ghost use Rattle.plain_heap.specs.Heap.{lookup, put_at, without};
ghost use Rattle.plain_heap.specs.Valid.{are_distinct};

use crate::slots::Slots;
use indexmap::IndexMap;
use js_value::{NoMemory, Text};
use std::alloc::Global;
use std::marker::Model;

/// Properties by their keys, each key once, in the order of their creation. On average over its calls none but `at` takes longer
/// where there are more of them, nor where many were removed.
#[derive(Drop)]
pub struct PropertyTable<V> {
    map: IndexMap<Text, V>,
    slots: Slots,
}

impl<V> Model for PropertyTable<V> {
    ghost use Rattle.std.specs.Prelude.{List, ℕ};
    ghost use Rattle.property_table.specs.Slots.{in_order, AreEntries};

    ghost Value = { List (List ℕ × V) };

    ghost view = { λ t. in_order t.map.entries t.slots.indices.items };

    ghost invariant = { λ t. AreEntries t.map.entries t.slots.indices.items t.slots.slot_of.items };
}

impl<V: Drop> PropertyTable<V> {
    /// No properties.
    pub fn new(alloc: Global) -> PropertyTable<V>
        ensures { result ≡ [] }
    {
        PropertyTable {
            map: IndexMap::new(alloc),
            slots: Slots::new(alloc),
        }
    }

    /// How many properties there are. No key stands twice.
    pub fn len(&self) -> usize
        ensures len { result ≡ length self.now }
        ensures once { are_distinct self.now ≡ true }
    {
        self.map.len()
    }

    /// The value at a key.
    pub fn get(&self, key: &Text) -> Option<&V>
        ensures value { option_copied result ≡ lookup key.now self.now }
    {
        self.map.get(key)
    }

    /// Gives a key that is there another value; the place of the key stays. A value for another key comes back.
    pub fn replace(&mut self, key: &Text, value: V) -> Result<(), V>
        ensures found { is_ok result ≡ is_some (lookup key.now self.old) }
        ensures ok { OnOk result (self.new ≡ put_at key.now value self.old) }
        ensures err { OnErr result (self.new ≡ self.old) }
        ensures value_returned { IfErr result (λ v. v ≡ value) }
    {
        match self.map.get_index_of(key) {
            Some(n) => {
                self.map[n] = value;
                Ok(())
            }
            None => Err(value),
        }
    }

    /// Gives a key this value: a key that is there keeps its place, and a new one comes last. Only a new key takes memory.
    /// Where there is none, the table is as it was.
    pub fn insert(&mut self, alloc: Global, key: &Text, value: V) -> Result<(), NoMemory>
        ensures ok { OnOk result (self.new ≡ put_at key.now value self.old) }
        ensures err { OnErr result (self.new ≡ self.old) }
    {
        match self.replace(key, value) {
            Ok(()) => Ok(()),
            Err(value) => self.add(key.copy(alloc)?, value),
        }
    }

    /// Takes a new key in, which comes last.
    fn add(&mut self, key: Text, value: V) -> Result<(), NoMemory>
        requires { lookup key self.old ≡ None }
        ensures ok { OnOk result (self.new ≡ put_at key value self.old) }
        ensures err { OnErr result (self.new ≡ self.old) }
    {
        self.slots.reserve()?;
        self.map.insert(key, value)?;
        self.slots.push();
        Ok(())
    }

    /// Takes the property at a key out, and says whether there was one. It takes no memory.
    pub fn remove(&mut self, key: &Text) -> bool
        ensures found { result ≡ is_some (lookup key.now self.old) }
        ensures removed { self.new ≡ without key.now self.old }
    {
        match self.map.get_index_of(key) {
            Some(n) => {
                self.map.swap_remove_index(n);
                self.slots.take_out(n);
                self.slots.close_up();
                true
            }
            None => false,
        }
    }

    /// The properties in their order.
    pub fn iter(&self) -> Properties<'_, V>
        ensures { result ≡ self.now }
    {
        Properties {
            map: &self.map,
            slots: self.slots.indices.as_slice(),
        }
    }

    /// The property at a position, in the order of creation: at once where no slot is empty, else by a walk, so that `iter` is the
    /// way to all of them.
    pub fn at(&self, i: usize) -> (&Text, &V)
        requires { i < length self.now }
        ensures { slice_get self.now i ≡ Some (result.0.now, result.1.now) }
    {
        if self.slots.indices.len() == self.map.len() {
            if let Some(n) = self.slots.indices[i] {
                if let Some(property) = self.map.get_index(n) {
                    return property;
                }
            }
        }
        let mut properties = self.iter();
        for _ in 0..i {
            properties.next();
        }
        properties.next().unwrap()
    }
}

/// Properties that are still to be shown.
#[derive(Drop)]
pub struct Properties<'a, V> {
    map: &'a IndexMap<Text, V>,
    slots: &'a [Option<usize>],
}

impl<'a, V> Model for Properties<'a, V> {
    ghost use Rattle.std.specs.Prelude.{List, ℕ};
    ghost use Rattle.property_table.specs.Slots.{in_order};

    ghost Value = { List (List ℕ × V) };

    ghost view = { λ p. in_order p.map.now.entries p.slots.now };
}

impl<'a, V> Properties<'a, V> {
    /// The next property, with its key.
    pub fn next(&mut self) -> Option<(&'a Text, &'a V)>
        ensures some { IfSome result (λ p. self.old ≡ (p.0.now, p.1.now) ∷ self.new) }
        ensures none { IfNone result (self.old ≡ []) }
    {
        while let [slot, rest @ ..] = self.slots {
            self.slots = rest;
            if let Some(n) = slot {
                if let Some(property) = self.map.get_index(*n) {
                    return Some(property);
                }
            }
        }
        None
    }
}
