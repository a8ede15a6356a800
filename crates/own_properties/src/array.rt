//! [[DefineOwnProperty]] of arrays (15.4.5.1).

ghost use Rattle.std.specs.Prelude.{◌≡◌, ◌≤◌, ◌<◌, ◌^◌, ◌≢◌, true, Some, is_some, IfOk, OnErr, OnOk, nat_eq, if◌then◌else◌, unwrap_or, ◌+◌, false};
ghost use Rattle.plain_heap.specs.Methods as methods;
ghost use Rattle.js_value.specs.Conversions.{is_same_text};
ghost use Rattle.plain_heap.specs.Heap.{DataProperty, ObjectState, put_at, lookup};
ghost use Rattle.plain_heap.specs.Methods.{length_key, then_if};
ghost use Rattle.plain_heap.specs.Values.{number as number_value};
ghost use Rattle.std.specs.List.{filter};
ghost use Rattle.std.specs.Option.{option_copied, option_map};
ghost use Rattle.heap_values.specs.Meaning.{descriptor_of, property_of, value_of};
ghost use Rattle.own_properties.specs.Defining.{Says, entries, settled_as, with_table};
ghost use Rattle.own_properties.specs.declared.answer.Defined.TheVariants as defined;
ghost use Rattle.own_properties.specs.Lengths.{HasLength, defining_other, are_at_least, keys_of, without_all};

use crate::Defined;
use crate::index::{GREATEST_LENGTH, array_index, length_of};
use crate::plain::{Unchanged, change, define};
use heap_values::{Descriptor, Property, Value};
use js_value::{NoMemory, Primitive, Text};
use property_table::PropertyTable;
use std::alloc::Global;

/// One above the index of an element that can't be deleted, else 0.
fn above_fixed(key: &Text, p: &Property) -> u64
    ensures is { result ≡ methods.above_fixed (key.now, property_of p.now) }
    ensures small { result ≤ GREATEST_LENGTH }
{
    if p.is_configurable() {
        return 0;
    }
    match array_index(key) {
        Some(n) => n + 1,
        None => 0,
    }
}

/// The length at which deleting elements from the top down ends (step 3.l): the one wanted, unless an element behind it can't be
/// deleted.
fn stop_at(wanted: u64, properties: &PropertyTable<Property>) -> u64
    requires { wanted ≤ GREATEST_LENGTH }
    ensures is { result ≡ methods.stop_at wanted (entries properties.now) }
    ensures small { result ≤ GREATEST_LENGTH }
{
    let mut stop = wanted;
    let mut rest = properties.iter();
    while let Some((key, p)) = rest.next() {
        stop = stop.max(above_fixed(key, p));
    }
    stop
}

/// The keys of the elements from an index on.
fn keys_from(
    alloc: Global,
    stop: u64,
    properties: &PropertyTable<Property>,
) -> Result<Vec<Text>, NoMemory>
    ensures { IfOk result (λ keys. keys.items ≡ keys_of (are_at_least stop properties.now)) }
{
    let mut keys = Vec::new(alloc);
    let mut rest = properties.iter();
    while let Some((key, _)) = rest.next() {
        if let Some(n) = array_index(key) {
            if stop <= n {
                keys.push(key.copy(alloc)?)?;
            }
        }
    }
    Ok(keys)
}

/// Takes the properties at these keys away.
fn remove_all(properties: &mut PropertyTable<Property>, keys: &[Text])
    ensures { properties.new ≡ without_all keys.now properties.old }
{
    for key in keys {
        properties.remove(key);
    }
}

/// A number as a value.
fn number(n: u64) -> Value
    requires { n < 2 ^ 63 }
    ensures { value_of result ≡ number_value n }
{
    Value::Prim(Primitive::Number(n as i64))
}

/// A change that leaves the property writable.
fn with_writable(alloc: Global, d: &Descriptor) -> Result<Descriptor, NoMemory>
    ensures { IfOk result (λ e. descriptor_of e ≡ record (descriptor_of d.now) { writable = Some true }) }
{
    let value = match &d.value {
        Some(value) => Some(value.copy(alloc)?),
        None => None,
    };
    Ok(Descriptor {
        value,
        writable: Some(true),
        get: d.get,
        set: d.set,
        enumerable: d.enumerable,
        configurable: d.configurable,
    })
}

/// The last change of the length (steps 3.l and 3.m).
fn last_change(stop: u64, d: &Descriptor) -> Descriptor
    requires { stop < 2 ^ 63 }
    ensures { descriptor_of result ≡ record methods.no_fields { value = Some (number_value stop); writable = Some (unwrap_or d.now.writable true) } }
{
    Descriptor {
        value: Some(number(stop)),
        writable: Some(d.writable.unwrap_or(true)),
        get: None,
        set: None,
        enumerable: None,
        configurable: None,
    }
}

/// Changes a property that is there.
fn set(properties: &mut PropertyTable<Property>, key: &Text, p: Property)
    requires { is_some (lookup key.now properties.old) ≡ true }
    ensures { properties.new ≡ put_at key.now p properties.old }
{
    let _ = properties.replace(key, p);
}

/// Takes the elements from an index on away, and changes the length; or nothing, where there is no memory.
fn cut(
    alloc: Global,
    properties: &mut PropertyTable<Property>,
    length: &Text,
    stop: u64,
    p: Property,
) -> Result<(), NoMemory>
    requires named { length.now ≡ length_key }
    requires there { is_some (lookup length_key properties.old) ≡ true }
    ensures ok { OnOk result (entries properties.new ≡ put_at length_key (property_of p) (filter (methods.is_below stop) (entries properties.old))) }
    ensures err { OnErr result (properties.new ≡ properties.old) }
{
    // It also tells that no key stands twice.
    let _count = properties.len();
    let keys = keys_from(alloc, stop, properties)?;
    remove_all(properties, keys.as_slice());
    set(properties, length, p);
    Ok(())
}

/// What deleting elements comes to (steps 3.l.iii and 3.n).
fn ended(stop: u64, wanted: u64) -> Defined
    ensures is { result ≡ (if nat_eq stop wanted then defined.Done else defined.Rejected) }
    ensures done_or_not { result ≢ defined.Done → result ≢ defined.Rejected → ⊥ }
{
    if stop == wanted {
        Defined::Done
    } else {
        Defined::Rejected
    }
}

/// The steps behind the first change of the length, which was this one (3.l to 3.n).
fn shorten_from(
    alloc: Global,
    properties: &mut PropertyTable<Property>,
    extensible: bool,
    length: &Text,
    d: &Descriptor,
    wanted: u64,
    first: Property,
) -> Result<Defined, NoMemory>
    requires named { length.now ≡ length_key }
    requires there { is_some (lookup length_key properties.old) ≡ true }
    requires small { wanted ≤ GREATEST_LENGTH }
    ensures answer { IfOk result (λ answer. (o : ObjectState) →
        methods.settled (methods.shorten wanted (descriptor_of d.now) (methods.with_property length_key (property_of first) (with_table o extensible properties.old)))
        ≡ settled_as answer (with_table o extensible properties.new)) }
    ensures unchanged { IfOk result (λ answer. answer ≢ defined.Done → answer ≢ defined.Rejected → properties.new ≡ properties.old) }
    ensures err { OnErr result (properties.new ≡ properties.old) }
{
    let stop = stop_at(wanted, properties);
    match change(alloc, Some(&first), extensible, &last_change(stop, d))? {
        Ok(p) => {
            cut(alloc, properties, length, stop, p)?;
            Ok(ended(stop, wanted))
        }
        Err(Unchanged::Rejected) => {
            cut(alloc, properties, length, stop, first)?;
            Ok(Defined::Rejected)
        }
        Err(Unchanged::OfAbsent) => Ok(Defined::OfAbsent),
    }
}

/// A length that is lowered (3.g to 3.n): the first change, and the steps behind it.
fn shorten(
    alloc: Global,
    properties: &mut PropertyTable<Property>,
    extensible: bool,
    length: &Text,
    d: &Descriptor,
    wanted: u64,
) -> Result<Defined, NoMemory>
    requires named { length.now ≡ length_key }
    requires there { is_some (lookup length_key properties.old) ≡ true }
    requires small { wanted ≤ GREATEST_LENGTH }
    ensures answer { IfOk result (λ answer.
        Says (λ o. then_if (methods.define_plain length_key (record (descriptor_of d.now) { writable = Some true }) o) (methods.shorten wanted (descriptor_of d.now)) (λ o. methods.Rejected o))
        extensible properties.old properties.new answer) }
    ensures unchanged { IfOk result (λ answer. answer ≢ defined.Done → answer ≢ defined.Rejected → properties.new ≡ properties.old) }
    ensures err { OnErr result (properties.new ≡ properties.old) }
{
    let open = with_writable(alloc, d)?;
    match change(alloc, properties.get(length), extensible, &open)? {
        Ok(first) => shorten_from(alloc, properties, extensible, length, d, wanted, first),
        Err(unchanged) => Ok(unchanged.answer()),
    }
}

/// An element at or behind the length, and the length that it raises (step 4).
fn append(
    alloc: Global,
    properties: &mut PropertyTable<Property>,
    extensible: bool,
    length: &Text,
    key: &Text,
    d: &Descriptor,
    index: u64,
) -> Result<Defined, NoMemory>
    requires named { length.now ≡ length_key }
    requires there { is_some (lookup length_key properties.old) ≡ true }
    requires apart { is_same_text key.now length_key ≡ false }
    requires small { index < GREATEST_LENGTH }
    ensures answer { IfOk result (λ answer.
        Says (λ o. then_if (methods.define_plain key.now (descriptor_of d.now) o) (λ o. methods.define_plain length_key (methods.value_field (number_value (index + 1))) o) (λ o. methods.Rejected o))
        extensible properties.old properties.new answer) }
    ensures unchanged { IfOk result (λ answer. answer ≢ defined.Done → answer ≢ defined.Rejected → properties.new ≡ properties.old) }
    ensures err { OnErr result (properties.new ≡ properties.old) }
{
    let element = match change(alloc, properties.get(key), extensible, d)? {
        Ok(element) => element,
        Err(unchanged) => return Ok(unchanged.answer()),
    };
    let raised = Descriptor::of_value(number(index + 1));
    match change(alloc, properties.get(length), extensible, &raised)? {
        Ok(p) => {
            properties.insert(alloc, key, element)?;
            set(properties, length, p);
            Ok(Defined::Done)
        }
        Err(Unchanged::Rejected) => {
            properties.insert(alloc, key, element)?;
            Ok(Defined::Rejected)
        }
        Err(Unchanged::OfAbsent) => Ok(Defined::OfAbsent),
    }
}

/// The key of an array's length.
fn length_text(alloc: Global) -> Result<Text, NoMemory>
    ensures { IfOk result (λ t. t ≡ length_key) }
{
    Ok(Text::from_vec(Vec::from_slice(alloc, &[0x6C, 0x65, 0x6E, 0x67, 0x74, 0x68])?))
}

/// The length of an array that has one: a data property, whether it is writable, and the number that it is (step 1).
fn length_in(properties: &PropertyTable<Property>, length: &Text) -> Option<(bool, u64)>
    requires { length.now ≡ length_key }
    ensures { HasLength (option_map property_of (lookup length_key properties.now)) result }
{
    match properties.get(length) {
        Some(
            Property::Data {
                value,
                writable,
                ..
            },
        ) => Some((*writable, length_of(value)?)),
        _ => None,
    }
}

/// [[DefineOwnProperty]] of an array's length (step 3), which is there.
fn set_length(
    alloc: Global,
    properties: &mut PropertyTable<Property>,
    extensible: bool,
    length: &Text,
    d: &Descriptor,
    writable: bool,
    old: u64,
) -> Result<Defined, NoMemory>
    requires named { length.now ≡ length_key }
    requires there { is_some (lookup length_key properties.old) ≡ true }
    ensures answer { IfOk result (λ answer. (p : DataProperty) → p.writable ≡ writable →
        Says (λ o. methods.set_length (descriptor_of d.now) o p old (option_map value_of d.now.value)) extensible properties.old properties.new answer) }
    ensures unchanged { IfOk result (λ answer. answer ≢ defined.Done → answer ≢ defined.Rejected → properties.new ≡ properties.old) }
    ensures err { OnErr result (properties.new ≡ properties.old) }
{
    let Some(value) = &d.value else {
        return define(alloc, properties, extensible, length, d);
    };
    let Some(wanted) = length_of(value) else {
        return Ok(Defined::BadLength);
    };
    if old <= wanted {
        return define(alloc, properties, extensible, length, d);
    }
    if !writable {
        return Ok(Defined::Rejected);
    }
    shorten(alloc, properties, extensible, length, d, wanted)
}

/// [[DefineOwnProperty]] of an array that has this length, of a property other than it (steps 4 and 5).
fn define_other(
    alloc: Global,
    properties: &mut PropertyTable<Property>,
    extensible: bool,
    length: &Text,
    key: &Text,
    d: &Descriptor,
    writable: bool,
    old: u64,
) -> Result<Defined, NoMemory>
    requires named { length.now ≡ length_key }
    requires there { is_some (lookup length_key properties.old) ≡ true }
    requires apart { is_same_text key.now length_key ≡ false }
    ensures answer { IfOk result (λ answer. (p : DataProperty) → p.writable ≡ writable →
        Says (λ o. defining_other key.now (descriptor_of d.now) o p old) extensible properties.old properties.new answer) }
    ensures unchanged { IfOk result (λ answer. answer ≢ defined.Done → answer ≢ defined.Rejected → properties.new ≡ properties.old) }
    ensures err { OnErr result (properties.new ≡ properties.old) }
{
    let Some(index) = array_index(key) else {
        return define(alloc, properties, extensible, key, d);
    };
    if index < old {
        return define(alloc, properties, extensible, key, d);
    }
    if !writable {
        return Ok(Defined::Rejected);
    }
    append(alloc, properties, extensible, length, key, d, index)
}

/// [[DefineOwnProperty]] of an array (15.4.5.1). Where it is neither done nor rejected nothing changes; a length that is lowered and
/// rejected at an element that can't be deleted keeps what was deleted.
#[tactic(auto, unfolding(plain_heap::specs::Methods::define_array))]
pub fn define_in_array(
    alloc: Global,
    properties: &mut PropertyTable<Property>,
    extensible: bool,
    key: &Text,
    d: &Descriptor,
) -> Result<Defined, NoMemory>
    ensures answer { IfOk result (λ answer. Says (methods.define_array key.now (descriptor_of d.now)) extensible properties.old properties.new answer) }
    ensures unchanged { IfOk result (λ answer. answer ≢ defined.Done → answer ≢ defined.Rejected → properties.new ≡ properties.old) }
    ensures err { OnErr result (properties.new ≡ properties.old) }
{
    let length = length_text(alloc)?;
    let Some((writable, old)) = length_in(properties, &length) else {
        return define(alloc, properties, extensible, key, d);
    };
    if *key == length {
        return set_length(alloc, properties, extensible, &length, d, writable, old);
    }
    define_other(
        alloc, properties, extensible, &length, key, d, writable, old,
    )
}
