//! Objects (8.6.2).

ghost use Rattle.std.specs.Prelude.{◌≡◌, List, [], length, slice_get, IfOk, MatchOption, None, Some};
ghost use Rattle.std.specs.Option.{option_copied, option_map};
ghost use Rattle.plain_heap.specs.Heap as defined;
ghost use Rattle.plain_heap.specs.Methods as methods;
ghost use Rattle.heap_values.specs.Meaning.{class_of, property_of};
ghost use Rattle.own_properties.specs.Defining.{entries};

use heap_values::{Class, ObjNo, Property, Value};
use js_value::{NoMemory, Primitive, Text};
use property_table::PropertyTable;
use std::alloc::Global;

/// An object. Its depth is the number of objects on its chain of prototypes.
#[derive(Drop)]
pub struct Object {
    pub class: Class,
    pub prototype: Option<ObjNo>,
    pub depth: usize,
    pub extensible: bool,
    pub properties: PropertyTable<Property>,
}

/// The units of `length`.
const LENGTH: [u16; 6] = [0x6c, 0x65, 0x6e, 0x67, 0x74, 0x68];

/// The key of an array's length.
fn length_key(alloc: Global) -> Result<Text, NoMemory>
    ensures { IfOk result (λ t. t ≡ methods.length_key) }
{
    Ok(Text::from_vec(Vec::from_slice(alloc, &LENGTH)?))
}

/// The properties that a new object has: an array its length (15.4.5.2).
pub fn first_properties(alloc: Global, class: &Class) -> Result<PropertyTable<Property>, NoMemory>
    ensures { IfOk result (λ ps. (environments : List defined.Environment) → entries ps ≡ defined.first_properties (class_of environments class.now)) }
{
    let mut properties = PropertyTable::new(alloc);
    if class.is_array() {
        let length = Property::Data {
            value: Value::Prim(Primitive::Number(0)),
            writable: true,
            enumerable: false,
            configurable: false,
        };
        properties.insert(alloc, &length_key(alloc)?, length)?;
    }
    Ok(properties)
}

impl Object {
    /// The object's own property of a key (8.12.1).
    pub fn own(&self, key: &Text) -> Option<&Property>
        ensures { option_map property_of (option_copied result) ≡ defined.lookup key.now (entries self.now.properties) }
    {
        self.properties.get(key)
    }
}
