//! The internal methods of objects that change something (8.12.7, 8.12.9, 15.4.5.1).

ghost use Rattle.std.specs.Prelude.{◌≡◌, ◌≢◌, List, is_some, unwrap_or, IfOk, OnErr};
ghost use Rattle.plain_heap.specs.Heap as defined;
ghost use Rattle.plain_heap.specs.Methods as methods;
ghost use Rattle.heap_values.specs.Meaning.{descriptor_of};
ghost use Rattle.own_properties.specs.Defining.{settled_as};
ghost use Rattle.heap_arena.specs.Defines.{define_at};
ghost use Rattle.heap_arena.specs.Changes.{closed_at, deleted_at, deleted_state};
ghost use Rattle.heap_arena.specs.Meaning.{heap_of, object_of};

use crate::{Heap, Object};
use heap_values::{Descriptor, ObjNo};
use js_value::{NoMemory, Text};
use own_properties::{Defined, define_in_array};
use std::alloc::Global;

/// Takes an own property away, and says whether it isn't there any more (8.12.7).
fn delete(object: &mut Object, key: &Text) -> bool
    ensures answer { (environments : List defined.Environment) → result ≡ is_some (methods.delete key.now (object_of environments object.old)) }
    ensures made { (environments : List defined.Environment) →
        object_of environments object.new ≡ unwrap_or (methods.delete key.now (object_of environments object.old)) (object_of environments object.old) }
    ensures class { object.new.class ≡ object.old.class }
{
    let Some(property) = object.own(key) else {
        return true;
    };
    if !property.is_configurable() {
        return false;
    }
    object.properties.remove(key);
    true
}

/// Changes or makes an own property (8.12.9, 15.4.5.1).
#[tactic(auto, unfolding(plain_heap::specs::Methods::define))]
fn define_own(
    alloc: Global,
    object: &mut Object,
    key: &Text,
    d: &Descriptor,
) -> Result<Defined, NoMemory>
    ensures answer { IfOk result (λ answer. (environments : List defined.Environment) →
        methods.settled (methods.define key.now (descriptor_of d.now) (object_of environments object.old)) ≡ settled_as answer (object_of environments object.new)) }
    ensures unchanged { IfOk result (λ answer. answer ≢ Defined.Done → answer ≢ Defined.Rejected → object.new ≡ object.old) }
    ensures class { object.new.class ≡ object.old.class }
    ensures err { OnErr result (object.new ≡ object.old) }
{
    if object.class.is_array() {
        define_in_array(alloc, &mut object.properties, object.extensible, key, d)
    } else {
        own_properties::define(alloc, &mut object.properties, object.extensible, key, d)
    }
}

impl Heap {
    /// [[DefineOwnProperty]] (8.12.9, and 15.4.5.1 of arrays). Of an object that isn't there nothing is to be done. Where it
    /// isn't done nothing changes, but that an array whose length is lowered loses the elements down to the first that
    /// can't be deleted.
    pub fn define(
        &mut self,
        alloc: Global,
        o: ObjNo,
        key: &Text,
        d: &Descriptor,
    ) -> Result<Defined, NoMemory>
        ensures answer { IfOk result (λ answer. define_at o key.now (descriptor_of d.now) (heap_of self.old) ≡ (answer, heap_of self.new)) }
        ensures scopes { self.new.environments ≡ self.old.environments }
        ensures err { OnErr result (self.new ≡ self.old) }
    {
        let i = o.index();
        if i < self.objects.len() {
            define_own(alloc, &mut self.objects[i], key, d)
        } else {
            Ok(Defined::Done)
        }
    }

    /// [[Delete]] (8.12.7): takes a property of an object away, and says whether it isn't there any more. Of an object
    /// that isn't there it says no.
    pub fn remove(&mut self, o: ObjNo, key: &Text) -> bool
        ensures answer { result ≡ is_some (deleted_state o key.now (heap_of self.old)) }
        ensures heap { heap_of self.new ≡ deleted_at o key.now (heap_of self.old) }
        ensures scopes { self.new.environments ≡ self.old.environments }
    {
        let i = o.index();
        if i < self.objects.len() {
            delete(&mut self.objects[i], key)
        } else {
            false
        }
    }

    /// From now on no property can be added to an object that is there (15.2.3.10).
    pub fn prevent_extensions(&mut self, o: ObjNo)
        ensures heap { heap_of self.new ≡ closed_at o (heap_of self.old) }
        ensures scopes { self.new.environments ≡ self.old.environments }
    {
        let i = o.index();
        if i < self.objects.len() {
            let object = &mut self.objects[i];
            object.extensible = false;
        }
    }
}
