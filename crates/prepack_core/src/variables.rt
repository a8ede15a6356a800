ghost use Rattle.std.specs.Prelude.{◌≡◌, [], length, slice_get, IsTrue, OnOk};
ghost use Rattle.std.specs.List.{IsDistinct};
ghost use Rattle.std.specs.Map.{keys_of};
ghost use Rattle.std.specs.Str.{bytes_eq};
ghost use Rattle.std.specs.Option.{option_map};
ghost use Rattle.simple_scripts.specs.SimpleNames.{is_simple_name};
ghost use Rattle.simple_runs.specs.Events as machine;
ghost use Rattle.simple_runs.specs.PlainVariables.{are_plain_variables};
ghost use Rattle.prepack_core.specs.Values.{primitive_of};

use crate::value::Value;
use indexmap::IndexMap;
use js_value::{NoMemory, Text};
use std::alloc::Global;
use std::marker::Model;

/// The variables of a simple script: the properties that the global object got, in the order of their creation.
#[derive(Drop)]
pub struct Variables {
    map: IndexMap<Text, Value>,
}

impl Model for Variables {
    ghost use Rattle.simple_runs.specs.Events.{Heap};

    ghost Value = { Heap };

    ghost use Rattle.std.specs.Prelude.{IsTrue};
    ghost use Rattle.std.specs.List.{list_all};
    ghost use Rattle.simple_scripts.specs.SimpleNames.{is_simple_name};
    ghost use Rattle.prepack_core.specs.Values.{shown};

    ghost view = { λ v. shown v.map.entries };

    ghost invariant = { λ v. IsTrue (list_all (λ p. is_simple_name p.0) v.map.entries) };
}

impl Variables {
    pub fn new(alloc: Global) -> Variables
        ensures { result ≡ [] }
    {
        Variables {
            map: IndexMap::new(alloc),
        }
    }

    /// The value of a name, where it is bound.
    pub fn get(&self, name: &Text) -> Option<Value>
        ensures { option_map primitive_of result ≡ machine.lookup name.now self.now }
    {
        self.map.get(name).copied()
    }

    /// Puts a value to a name, which keeps its place or comes last.
    pub fn put(&mut self, name: Text, value: Value) -> Result<(), NoMemory>
        requires { IsTrue (is_simple_name name) }
        ensures { OnOk result (self.new ≡ machine.put name (primitive_of value) self.old) }
    {
        self.map.insert(name, value)?;
        Ok(())
    }

    /// Binds a name to undefined, unless it is bound.
    pub fn declare(&mut self, alloc: Global, name: &Text) -> Result<(), NoMemory>
        requires { IsTrue (is_simple_name name.now) }
        ensures { OnOk result (self.new ≡ machine.declare name.now self.old) }
    {
        if self.get(name).is_none() {
            self.put(name.copy(alloc)?, Value::Undefined)?;
        }
        Ok(())
    }

    /// How many variables there are. Each has a simple name and undefined or a number, and no name stands twice.
    pub fn len(&self) -> usize
        ensures count { result ≡ length self.now }
        ensures plain { IsTrue (are_plain_variables self.now) }
        ensures distinct { IsDistinct bytes_eq (keys_of self.now) }
    {
        self.map.len()
    }

    /// The variable at a position, in the order of creation.
    pub fn at(&self, i: usize) -> Option<(&Text, Value)>
        ensures { option_map (λ v. (v.0.now, primitive_of v.1)) result ≡ slice_get self.now i }
    {
        let (name, value) = self.map.as_slice().get_index(i)?;
        Some((name, *value))
    }
}
