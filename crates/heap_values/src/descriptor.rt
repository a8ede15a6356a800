ghost use Rattle.std.specs.Prelude.{◌≡◌};
ghost use Rattle.plain_heap.specs.Methods as defined;
ghost use Rattle.heap_values.specs.Meaning.{descriptor_of, value_of};

use crate::{ObjNo, Value};

/// What is asked of a property (8.10). A field may be absent; a getter or a setter that is there is a function or undefined.
#[derive(Debug, Drop)]
pub struct Descriptor {
    pub value: Option<Value>,
    pub writable: Option<bool>,
    pub get: Option<Option<ObjNo>>,
    pub set: Option<Option<ObjNo>>,
    pub enumerable: Option<bool>,
    pub configurable: Option<bool>,
}

impl Descriptor {
    /// The value alone.
    pub fn of_value(value: Value) -> Descriptor
        ensures { descriptor_of result ≡ defined.value_field (value_of value) }
    {
        Descriptor {
            value: Some(value),
            writable: None,
            get: None,
            set: None,
            enumerable: None,
            configurable: None,
        }
    }

    /// A data property with these attributes.
    pub fn of_data(value: Value, writable: bool, enumerable: bool, configurable: bool) -> Descriptor
        ensures { descriptor_of result ≡ defined.data_fields (value_of value) writable enumerable configurable }
    {
        Descriptor {
            value: Some(value),
            writable: Some(writable),
            get: None,
            set: None,
            enumerable: Some(enumerable),
            configurable: Some(configurable),
        }
    }

    /// IsAccessorDescriptor (8.10.1).
    pub fn is_accessor(&self) -> bool
        ensures { result ≡ defined.is_accessor (descriptor_of self.now) }
    {
        self.get.is_some() || self.set.is_some()
    }

    /// IsDataDescriptor (8.10.2).
    pub fn is_data(&self) -> bool
        ensures { result ≡ defined.is_data (descriptor_of self.now) }
    {
        self.value.is_some() || self.writable.is_some()
    }

    /// IsGenericDescriptor (8.10.3).
    pub fn is_generic(&self) -> bool
        ensures { result ≡ defined.is_generic (descriptor_of self.now) }
    {
        !self.is_accessor() && !self.is_data()
    }
}
