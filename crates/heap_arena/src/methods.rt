//! The internal methods of objects that change nothing (8.12.1 to 8.12.6), and what an object is.

ghost use Rattle.std.specs.Prelude.{◌≡◌, ◌<◌, Some, length, slice_get};
ghost use Rattle.std.specs.Option.{option_and_then, option_copied, option_map};
ghost use Rattle.plain_heap.specs.Heap as defined;
ghost use Rattle.plain_heap.specs.Methods as methods;
ghost use Rattle.plain_heap.specs.Values as values;
ghost use Rattle.heap_values.specs.Meaning.{class_of, property_of};
ghost use Rattle.heap_arena.specs.Found.{found_of, got_of, is_own_data, putting_of};
ghost use Rattle.heap_arena.specs.Meaning.{heap_of};
ghost use Rattle.heap_arena.specs.Parts.{class_at, prototype_at, is_extensible_at, properties_at};

use crate::Heap;
use crate::found::{Found, Got, Putting, can_put_inherited, can_put_own, got_by, put_by};
use heap_values::{Class, ObjNo, Property};
use js_value::Text;

impl Heap {
    // ---- what an object is

    /// The class of an object, where it is there.
    pub fn class(&self, o: ObjNo) -> Option<&Class>
        ensures { option_map (class_of self.now.environments) (option_copied result) ≡ class_at (heap_of self.now) o }
    {
        match self.object(o) {
            Some(object) => Some(&object.class),
            None => None,
        }
    }

    /// The prototype of an object, where it is there and has one.
    pub fn prototype(&self, o: ObjNo) -> Option<ObjNo>
        ensures { result ≡ prototype_at (heap_of self.now) o }
    {
        match self.object(o) {
            Some(object) => object.prototype,
            None => None,
        }
    }

    /// Whether properties may be added to an object that is there.
    pub fn is_extensible(&self, o: ObjNo) -> bool
        ensures { result ≡ is_extensible_at (heap_of self.now) o }
    {
        match self.object(o) {
            Some(object) => object.extensible,
            None => false,
        }
    }

    /// How many own properties an object has, if it is there.
    pub fn prop_count(&self, o: ObjNo) -> usize
        ensures { result ≡ length (properties_at (heap_of self.now) o) }
    {
        match self.object(o) {
            Some(object) => object.properties.len(),
            None => 0,
        }
    }

    /// An own property of an object with its key, by its position in the order of creation, from 0.
    pub fn prop_at(&self, o: ObjNo, i: usize) -> (&Text, &Property)
        requires { i < length (properties_at (heap_of self.now) o) }
        ensures { slice_get (properties_at (heap_of self.now) o) i ≡ Some (result.0.now, property_of result.1.now) }
    {
        match self.object(o) {
            Some(object) => object.properties.at(i),
            None => unreachable!(),
        }
    }

    // ---- properties

    /// [[GetOwnProperty]] (8.12.1).
    pub fn get_own(&self, o: ObjNo, key: &Text) -> Option<&Property>
        ensures { option_map property_of (option_copied result) ≡ option_and_then (methods.own_property key.now) (defined.object_at (heap_of self.now) o) }
    {
        match self.object(o) {
            Some(object) => object.own(key),
            None => None,
        }
    }

    /// The property along a chain of prototypes that begins at this object, and the object that has it.
    fn find_along(&self, start: &Option<ObjNo>, key: &Text) -> Option<Found<'_>>
        ensures { option_map found_of result ≡ methods.get_property (heap_of self.now) key.now start.now }
    {
        let Some(first) = start else {
            return None;
        };
        let Some(object) = self.object(*first) else {
            return None;
        };
        let mut left = object.depth;
        let mut at = *first;
        loop {
            let Some(object) = self.object(at) else {
                return None;
            };
            if let Some(property) = object.own(key) {
                return Some(Found {
                    holder: at,
                    property,
                });
            }
            if left == 0 {
                return None;
            }
            left -= 1;
            let Some(next) = object.prototype else {
                return None;
            };
            at = next;
        }
    }

    /// [[GetProperty]] (8.12.2): the property of a key along the chain of prototypes, and the object that has it.
    pub fn find(&self, o: ObjNo, key: &Text) -> Option<Found<'_>>
        ensures { option_map found_of result ≡ methods.get_property (heap_of self.now) key.now (Some o) }
    {
        self.find_along(&Some(o), key)
    }

    /// [[Get]] (8.12.3), but for the call of a getter.
    #[tactic(auto, unfolding(plain_heap::specs::Methods::get))]
    pub fn get(&self, o: ObjNo, key: &Text) -> Got<'_>
        ensures { got_of result ≡ methods.get (heap_of self.now) o key.now }
    {
        match self.find(o, key) {
            Some(found) => got_by(found.property),
            None => Got::Undefined,
        }
    }

    /// [[CanPut]] (8.12.4), which no object says that isn't there.
    #[tactic(auto, unfolding(plain_heap::specs::Methods::can_put))]
    pub fn can_put(&self, o: ObjNo, key: &Text) -> bool
        ensures { result ≡ methods.can_put (heap_of self.now) o key.now }
    {
        let Some(object) = self.object(o) else {
            return false;
        };
        if let Some(property) = object.own(key) {
            return can_put_own(property);
        }
        match self.find_along(&object.prototype, key) {
            Some(found) => can_put_inherited(object.extensible, found.property),
            None => object.extensible,
        }
    }

    /// Whether an object has an own data property of this key.
    fn has_own_data(&self, o: ObjNo, key: &Text) -> bool
        ensures { result ≡ is_own_data (option_and_then (methods.own_property key.now) (defined.object_at (heap_of self.now) o)) }
    {
        match self.get_own(o, key) {
            Some(Property::Data { .. }) => true,
            Some(Property::Accessor { .. }) => false,
            None => false,
        }
    }

    /// [[Put]] (8.12.5) of any value, but for the change of a property and the call of a setter.
    #[tactic(auto, unfolding(plain_heap::specs::Methods::put))]
    pub fn put(&self, o: ObjNo, key: &Text) -> Putting
        ensures { (v : values.Value) → putting_of v result ≡ methods.put (heap_of self.now) o key.now v }
    {
        if !self.can_put(o, key) {
            return Putting::Refuse;
        }
        if self.has_own_data(o, key) {
            return Putting::Change;
        }
        match self.find(o, key) {
            Some(found) => put_by(found.property),
            None => Putting::Make,
        }
    }

    /// [[HasProperty]] (8.12.6).
    #[tactic(auto, unfolding(plain_heap::specs::Methods::has_property))]
    pub fn has_property(&self, o: ObjNo, key: &Text) -> bool
        ensures { result ≡ methods.has_property (heap_of self.now) o key.now }
    {
        self.find(o, key).is_some()
    }
}
