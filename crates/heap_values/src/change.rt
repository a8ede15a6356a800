//! What a change of a property comes to (8.12.9).

ghost use Rattle.std.specs.Prelude.{◌≡◌, Bool, IfOk, unwrap_or, if◌then◌else◌};
ghost use Rattle.std.specs.Option.{option_map};
ghost use Rattle.plain_heap.specs.Values as values;
ghost use Rattle.plain_heap.specs.Heap as heap;
ghost use Rattle.plain_heap.specs.Methods as defined;
ghost use Rattle.heap_values.specs.Meaning.{descriptor_of, property_of, value_of};
ghost use Rattle.heap_values.specs.Judging.{judged, Judges};

use crate::{Descriptor, ObjNo, Property, Value};
use js_value::{NoMemory, Primitive};
use std::alloc::Global;

/// Whether a property may be changed so.
#[derive(Clone, Copy, Debug, PartialEq, Eq)]
pub enum Verdict {
    Allowed,
    Rejected,
    /// The value of a built-in that is left out would have to be compared.
    OfAbsent,
}

/// A copy of the value, or of the one that stands in for it.
fn value_or(alloc: Global, value: &Option<Value>, other: &Value) -> Result<Value, NoMemory>
    ensures { IfOk result (λ v. value_of v ≡ unwrap_or (option_map value_of value.now) (value_of other.now)) }
{
    match value {
        Some(value) => value.copy(alloc),
        None => other.copy(alloc),
    }
}

/// A data property with the value and the attributes that are asked for, where they aren't absent.
fn as_data(
    alloc: Global,
    d: &Descriptor,
    value: &Value,
    writable: bool,
    enumerable: bool,
    configurable: bool,
) -> Result<Property, NoMemory>
    ensures { IfOk result (λ p. property_of p ≡ heap.data_property (unwrap_or (option_map value_of d.now.value) (value_of value.now))
        (unwrap_or d.now.writable writable) (unwrap_or d.now.enumerable enumerable) (unwrap_or d.now.configurable configurable)) }
{
    Ok(Property::Data {
        value: value_or(alloc, &d.value, value)?,
        writable: d.writable.unwrap_or(writable),
        enumerable: d.enumerable.unwrap_or(enumerable),
        configurable: d.configurable.unwrap_or(configurable),
    })
}

/// An accessor property likewise.
fn as_accessor(
    d: &Descriptor,
    get: Option<ObjNo>,
    set: Option<ObjNo>,
    enumerable: bool,
    configurable: bool,
) -> Property
    ensures { property_of result ≡ heap.Accessor (record {
      get = unwrap_or d.now.get get;
      set = unwrap_or d.now.set set;
      enumerable = unwrap_or d.now.enumerable enumerable;
      configurable = unwrap_or d.now.configurable configurable;
    }) }
{
    Property::Accessor {
        get: d.get.unwrap_or(get),
        set: d.set.unwrap_or(set),
        enumerable: d.enumerable.unwrap_or(enumerable),
        configurable: d.configurable.unwrap_or(configurable),
    }
}

/// The property that is made where there is none (step 4).
pub fn made(alloc: Global, d: &Descriptor) -> Result<Property, NoMemory>
    ensures { IfOk result (λ p. property_of p ≡ defined.made (descriptor_of d.now)) }
{
    if d.is_accessor() {
        return Ok(as_accessor(d, None, None, false, false));
    }
    let undefined = Value::Prim(Primitive::Undefined);
    as_data(alloc, d, &undefined, false, false, false)
}

/// The property as it is after the change (steps 9, 10 and 12).
pub fn changed(alloc: Global, p: &Property, d: &Descriptor) -> Result<Property, NoMemory>
    ensures { IfOk result (λ q. property_of q ≡ defined.changed (property_of p.now) (descriptor_of d.now)) }
{
    match p {
        Property::Data {
            value,
            writable,
            enumerable,
            configurable,
        } => {
            if d.is_accessor() {
                return Ok(as_accessor(d, None, None, *enumerable, *configurable));
            }
            as_data(alloc, d, value, *writable, *enumerable, *configurable)
        }
        Property::Accessor {
            get,
            set,
            enumerable,
            configurable,
        } => {
            if d.is_data() {
                let undefined = Value::Prim(Primitive::Undefined);
                return as_data(alloc, d, &undefined, false, *enumerable, *configurable);
            }
            Ok(as_accessor(d, *get, *set, *enumerable, *configurable))
        }
    }
}

/// What a property that isn't configurable never allows (step 7).
fn is_barred(p: &Property, d: &Descriptor) -> bool
    ensures { result ≡ defined.is_barred (property_of p.now) (descriptor_of d.now) }
{
    !p.is_configurable()
        && (d.configurable.unwrap_or(false)
            || d.enumerable.unwrap_or(p.is_enumerable()) != p.is_enumerable())
}

/// A change that is allowed exactly where this holds.
fn allowed_if(allowed: bool) -> Verdict
    ensures { (done rejected : defined.Defining) → defined.settled (if allowed then done else rejected) ≡ judged result (defined.settled done) (defined.settled rejected) }
{
    if allowed {
        Verdict::Allowed
    } else {
        Verdict::Rejected
    }
}

/// A value that is there must be the one that the property has (step 10.a.ii).
fn judge_value(value: &Option<Value>, old: &Value) -> Verdict
    ensures { (done rejected : defined.Defining) → defined.settled (defined.if_same_value (option_map value_of value.now) (value_of old.now) done rejected)
        ≡ judged result (defined.settled done) (defined.settled rejected) }
{
    let Some(value) = value else {
        return Verdict::Allowed;
    };
    match value.is_same(old) {
        Some(true) => Verdict::Allowed,
        Some(false) => Verdict::Rejected,
        None => Verdict::OfAbsent,
    }
}

/// Steps 8, 9.a and 10, of a data property.
fn judge_data(value: &Value, writable: bool, configurable: bool, d: &Descriptor) -> Verdict
    ensures { (enumerable : Bool) (done rejected : defined.Defining) →
        defined.settled (defined.if_allowed (heap.data_property (value_of value.now) writable enumerable configurable) (descriptor_of d.now) done rejected)
        ≡ judged result (defined.settled done) (defined.settled rejected) }
{
    if d.is_generic() {
        return Verdict::Allowed;
    }
    if d.is_accessor() {
        return allowed_if(configurable);
    }
    if configurable || writable {
        return Verdict::Allowed;
    }
    if d.writable.unwrap_or(false) {
        return Verdict::Rejected;
    }
    judge_value(&d.value, value)
}

/// Steps 8, 9.a and 11, of an accessor property.
fn judge_accessor(
    get: Option<ObjNo>,
    set: Option<ObjNo>,
    configurable: bool,
    d: &Descriptor,
) -> Verdict
    ensures { (enumerable : Bool) (done rejected : defined.Defining) →
        defined.settled (defined.if_allowed (heap.Accessor (record { get = get; set = set; enumerable = enumerable; configurable = configurable })) (descriptor_of d.now) done rejected)
        ≡ judged result (defined.settled done) (defined.settled rejected) }
{
    if d.is_generic() {
        return Verdict::Allowed;
    }
    if d.is_data() {
        return allowed_if(configurable);
    }
    allowed_if(configurable || d.set.unwrap_or(set) == set && d.get.unwrap_or(get) == get)
}

/// Steps 8 to 11.
fn judge_free(p: &Property, d: &Descriptor) -> Verdict
    ensures { (done rejected : defined.Defining) → defined.settled (defined.if_allowed (property_of p.now) (descriptor_of d.now) done rejected)
        ≡ judged result (defined.settled done) (defined.settled rejected) }
{
    match p {
        Property::Data {
            value,
            writable,
            configurable,
            ..
        } => judge_data(value, *writable, *configurable, d),
        Property::Accessor {
            get,
            set,
            configurable,
            ..
        } => judge_accessor(*get, *set, *configurable, d),
    }
}

/// Whether a property that is there may be changed so (steps 7 to 11).
pub fn judge(p: &Property, d: &Descriptor) -> Verdict
    ensures { Judges (property_of p.now) (descriptor_of d.now) result }
{
    if is_barred(p, d) {
        return Verdict::Rejected;
    }
    judge_free(p, d)
}
