//! What is found of a property along prototypes, and what that comes to (8.12.2 to 8.12.5).

ghost use Rattle.std.specs.Prelude.{◌≡◌, Some};
ghost use Rattle.plain_heap.specs.Heap as heap;
ghost use Rattle.plain_heap.specs.Methods as methods;
ghost use Rattle.plain_heap.specs.Values as values;
ghost use Rattle.heap_values.specs.Meaning.{property_of};
ghost use Rattle.heap_arena.specs.Found.{got_of, putting_of};

use heap_values::{ObjNo, Property, Value};

/// A property and the object that has it.
#[derive(Drop)]
pub struct Found<'a> {
    pub holder: ObjNo,
    pub property: &'a Property,
}

/// What [[Get]] comes to (8.12.3).
#[derive(Drop)]
pub enum Got<'a> {
    Value(&'a Value),
    Undefined,
    /// This getter is to be called on the object that was asked.
    Getter(ObjNo),
}

/// What [[Put]] comes to (8.12.5).
#[derive(Clone, Copy, Debug, PartialEq, Eq)]
pub enum Putting {
    Refuse,
    /// The value of an own property changes: [[DefineOwnProperty]] with the value alone.
    Change,
    /// A property is made: [[DefineOwnProperty]] with the value and all attributes true.
    Make,
    /// This setter is to be called on the object.
    Setter(ObjNo),
}

/// What [[Get]] gives by the property that was found (8.12.3, steps 3 to 6).
pub fn got_by(p: &Property) -> Got<'_>
    ensures { (holder : values.ObjNo) → got_of result ≡ methods.got (Some (holder, property_of p.now)) }
{
    match p {
        Property::Data { value, .. } => Got::Value(value),
        Property::Accessor { get: Some(f), .. } => Got::Getter(*f),
        Property::Accessor { get: None, .. } => Got::Undefined,
    }
}

/// Whether an own property may be put (8.12.4, step 2).
pub fn can_put_own(p: &Property) -> bool
    ensures { (h : heap.Heap) (key : heap.Key) (o : heap.ObjectState) → result ≡ methods.can_put_by h key o (Some (property_of p.now)) }
{
    match p {
        Property::Data { writable, .. } => *writable,
        Property::Accessor { set, .. } => set.is_some(),
    }
}

/// Whether a property may be put by the one that is inherited (8.12.4, steps 6 to 8).
pub fn can_put_inherited(extensible: bool, p: &Property) -> bool
    ensures { (holder : values.ObjNo) → result ≡ methods.can_put_inherited extensible (Some (holder, property_of p.now)) }
{
    match p {
        Property::Data { writable, .. } => extensible && *writable,
        Property::Accessor { set, .. } => set.is_some(),
    }
}

/// What [[Put]] does by the property that was found (8.12.5, steps 4 to 6).
pub fn put_by(p: &Property) -> Putting
    ensures { (v : values.Value) (holder : values.ObjNo) → putting_of v result ≡ methods.put_found v (Some (holder, property_of p.now)) }
{
    match p {
        Property::Data { .. } => Putting::Make,
        Property::Accessor { set: Some(f), .. } => Putting::Setter(*f),
        Property::Accessor { set: None, .. } => Putting::Refuse,
    }
}
