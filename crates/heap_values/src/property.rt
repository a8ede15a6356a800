ghost use Rattle.std.specs.Prelude.{◌≡◌, IfOk};
ghost use Rattle.plain_heap.specs.Heap as defined;
ghost use Rattle.heap_values.specs.Meaning.{property_of};

use crate::{ObjNo, Value};
use js_value::NoMemory;
use std::alloc::Global;

/// A property (8.6.1).
#[derive(Debug, Drop)]
pub enum Property {
    Data {
        value: Value,
        writable: bool,
        enumerable: bool,
        configurable: bool,
    },
    /// The getter and the setter are functions, or undefined.
    Accessor {
        get: Option<ObjNo>,
        set: Option<ObjNo>,
        enumerable: bool,
        configurable: bool,
    },
}

impl Property {
    pub fn is_enumerable(&self) -> bool
        ensures { result ≡ defined.is_enumerable (property_of self.now) }
    {
        match self {
            Property::Data { enumerable, .. } | Property::Accessor { enumerable, .. } =>
                *enumerable,
        }
    }

    pub fn is_configurable(&self) -> bool
        ensures { result ≡ defined.is_configurable (property_of self.now) }
    {
        match self {
            Property::Data { configurable, .. } | Property::Accessor { configurable, .. } => {
                *configurable
            }
        }
    }

    /// A copy.
    pub fn copy(&self, alloc: Global) -> Result<Property, NoMemory>
        ensures { IfOk result (λ p. p ≡ self.now) }
    {
        match self {
            Property::Data {
                value,
                writable,
                enumerable,
                configurable,
            } => Ok(Property::Data {
                value: value.copy(alloc)?,
                writable: *writable,
                enumerable: *enumerable,
                configurable: *configurable,
            }),
            Property::Accessor {
                get,
                set,
                enumerable,
                configurable,
            } => Ok(Property::Accessor {
                get: *get,
                set: *set,
                enumerable: *enumerable,
                configurable: *configurable,
            }),
        }
    }
}
