//! [[DefineOwnProperty]] of objects that are no arrays (8.12.9).

ghost use Rattle.std.specs.Prelude.{◌≡◌, ◌≢◌, IfOk, OnErr};
ghost use Rattle.std.specs.Option.{option_copied, option_map};
ghost use Rattle.plain_heap.specs.Methods as methods;
ghost use Rattle.heap_values.specs.Meaning.{descriptor_of, property_of};
ghost use Rattle.own_properties.specs.Defining.{Changes, Says, answer_of};
ghost use Rattle.own_properties.specs.declared.answer.Defined.TheVariants as defined;

use crate::Defined;
use heap_values::{Descriptor, Property, Verdict, changed, judge, made};
use js_value::{NoMemory, Text};
use property_table::PropertyTable;
use std::alloc::Global;

/// Why a property isn't changed.
#[derive(Clone, Copy, Debug)]
pub(crate) enum Unchanged {
    Rejected,
    OfAbsent,
}

impl Unchanged {
    pub(crate) fn answer(self) -> Defined
        ensures { result ≡ answer_of self }
    {
        match self {
            Unchanged::Rejected => Defined::Rejected,
            Unchanged::OfAbsent => Defined::OfAbsent,
        }
    }
}

/// The property as it is afterwards, or why there is none (steps 3 to 13).
pub(crate) fn change(
    alloc: Global,
    found: Option<&Property>,
    extensible: bool,
    d: &Descriptor,
) -> Result<Result<Property, Unchanged>, NoMemory>
    ensures { IfOk result (Changes (option_map property_of (option_copied found.entry)) extensible (descriptor_of d.now)) }
{
    match found {
        None if extensible => Ok(Ok(made(alloc, d)?)),
        None => Ok(Err(Unchanged::Rejected)),
        Some(p) => match judge(p, d) {
            Verdict::Allowed => Ok(Ok(changed(alloc, p, d)?)),
            Verdict::Rejected => Ok(Err(Unchanged::Rejected)),
            Verdict::OfAbsent => Ok(Err(Unchanged::OfAbsent)),
        },
    }
}

/// [[DefineOwnProperty]] (8.12.9) of an object that is no array. Where it isn't done, nothing changes.
#[tactic(auto, unfolding(plain_heap::specs::Methods::define_plain))]
pub fn define(
    alloc: Global,
    properties: &mut PropertyTable<Property>,
    extensible: bool,
    key: &Text,
    d: &Descriptor,
) -> Result<Defined, NoMemory>
    ensures answer { IfOk result (λ answer. Says (methods.define_plain key.now (descriptor_of d.now)) extensible properties.old properties.new answer) }
    ensures unchanged { IfOk result (λ answer. answer ≢ defined.Done → properties.new ≡ properties.old) }
    ensures err { OnErr result (properties.new ≡ properties.old) }
{
    match change(alloc, properties.get(key), extensible, d)? {
        Ok(property) => {
            properties.insert(alloc, key, property)?;
            Ok(Defined::Done)
        }
        Err(unchanged) => Ok(unchanged.answer()),
    }
}
