//! Properties that an object literal may not give twice (11.1.5).

ghost use Rattle.std.specs.Prelude.{◌≡◌, ◌++◌, [], map, OnOk};
ghost use Rattle.js_tree.specs.Mentions as tree;
ghost use Rattle.js_scope.specs.Mentioning as spec;
ghost use Rattle.js_scope.specs.Properties as properties;

use crate::mention::{Mention, push};
use crate::names::Names;
use js_tree::Field;
use js_value::{NoMemory, Place, Text};
use std::alloc::Global;

/// How a property is given.
#[derive(Clone, Copy, Debug, PartialEq, Eq)]
enum Given {
    Value,
    Getter,
    Setter,
}

fn place(field: &Field) -> Place
    ensures { result ≡ (properties.property field.now).0 }
{
    match field {
        Field::Value(at, _, _) | Field::Getter(at, _, _) | Field::Setter(at, _, _) => *at,
    }
}

fn key(field: &Field) -> &Text
    ensures { result.now ≡ (properties.property field.now).1 }
{
    match field {
        Field::Value(_, key, _) | Field::Getter(_, key, _) | Field::Setter(_, key, _) => key,
    }
}

fn how_given(field: &Field) -> Given
    ensures { properties.given_of result ≡ (properties.property field.now).2 }
{
    match field {
        Field::Value(_, _, _) => Given::Value,
        Field::Getter(_, _, _) => Given::Getter,
        Field::Setter(_, _, _) => Given::Setter,
    }
}

/// The names of properties, by how they are given.
#[derive(Drop)]
struct Seen {
    values: Names,
    getters: Names,
    setters: Names,
}

impl Seen {
    /// Whether a property clashes with one of these: two values of one name don't clash outside strict code, nor do a
    /// getter and a setter; all others do.
    fn clashes(&self, field: &Field) -> bool
        ensures { result ≡ properties.clashes_with self.now (properties.property field.now) }
    {
        let key = key(field);
        match how_given(field) {
            Given::Value => self.getters.has(key) || self.setters.has(key),
            Given::Getter => self.values.has(key) || self.getters.has(key),
            Given::Setter => self.values.has(key) || self.setters.has(key),
        }
    }

    /// Puts a property to these.
    fn add(&mut self, alloc: Global, field: &Field) -> Result<(), NoMemory>
        ensures { OnOk result (self.new ≡ properties.with_one self.old (properties.property field.now)) }
    {
        let key = key(field);
        match how_given(field) {
            Given::Value => self.values.add(alloc, key),
            Given::Getter => self.getters.add(alloc, key),
            Given::Setter => self.setters.add(alloc, key),
        }
    }
}

/// Puts a mention of a property behind the others, where it clashes with one of these.
fn push_repeat<'a>(
    seen: &Seen,
    field: &Field,
    mentions: &mut Vec<Mention<'a>>,
) -> Result<(), NoMemory>
    ensures { OnOk result (spec.told mentions.new.items ≡ spec.told mentions.old.items ++ properties.repeat_with seen.now (properties.property field.now)) }
{
    if seen.clashes(field) {
        return push(mentions, Mention::Repeats(place(field)));
    }
    Ok(())
}

/// Puts behind the others the properties that clash with an earlier one.
pub fn push_repeats<'a>(
    alloc: Global,
    fields: &[Field],
    mentions: &mut Vec<Mention<'a>>,
) -> Result<(), NoMemory>
    ensures { OnOk result (spec.told mentions.new.items ≡ spec.told mentions.old.items ++ tree.repeated [] (map properties.property fields.now)) }
{
    let mut seen = Seen {
        values: Names::new(alloc),
        getters: Names::new(alloc),
        setters: Names::new(alloc),
    };
    for field in fields {
        push_repeat(&seen, field, mentions)?;
        seen.add(alloc, field)?;
    }
    Ok(())
}
