//! What code mentions: names, inputs, and properties given twice.

ghost use Rattle.std.specs.Prelude.{◌≡◌, ◌++◌, ◌∷◌, [], OnOk};
ghost use Rattle.js_tree.specs.Mentions as tree;
ghost use Rattle.js_tree.specs.Parts as parts;
ghost use Rattle.js_scope.specs.Mentioning as spec;

use crate::names::Names;
use js_value::{Kind, NoMemory, Place, Text};
use std::alloc::Global;

/// What code mentions at a place.
#[derive(Clone, Copy, Debug)]
pub enum Mention<'a> {
    /// A name is read.
    Reads(Place, &'a Text),
    /// A name is assigned to.
    Assigns(Place, &'a Text),
    /// A function expression's own name is assigned to (13).
    AssignsOwn(Place),
    /// An input is taken.
    Takes(Place, Kind, &'a Text),
    /// A property is given twice in a way that isn't allowed (11.1.5).
    Repeats(Place),
}

/// The own name of a function, and what its code mentions of names that it doesn't declare.
#[derive(Debug, Drop)]
pub struct Inside<'a> {
    pub name: Option<&'a Text>,
    pub mentions: Vec<Mention<'a>>,
}

/// Puts a mention behind the others.
pub fn push<'a>(mentions: &mut Vec<Mention<'a>>, mention: Mention<'a>) -> Result<(), NoMemory>
    ensures { OnOk result (spec.told mentions.new.items ≡ spec.told mentions.old.items ++ spec.mention_of mention.entry ∷ []) }
{
    mentions.push(mention)?;
    Ok(())
}

/// A mention that isn't one of these names.
fn unbound_one<'a>(names: &Names, mention: Mention<'a>) -> Option<Mention<'a>>
    ensures { spec.told_maybe result ≡ tree.unbound_one names.now (spec.mention_of mention.entry) }
{
    match mention {
        Mention::Reads(_, name) | Mention::Assigns(_, name) => {
            if names.has(name) { None } else { Some(mention) }
        }
        Mention::AssignsOwn(_) | Mention::Takes(_, _, _) | Mention::Repeats(_) => Some(mention),
    }
}

/// Puts behind the others what code mentions that has these names bound around it.
fn push_unbound_of<'a>(
    names: &Names,
    inside: &[Mention<'a>],
    mentions: &mut Vec<Mention<'a>>,
) -> Result<(), NoMemory>
    ensures { OnOk result (spec.told mentions.new.items ≡ spec.told mentions.old.items ++ tree.unbound names.now (spec.told inside.now)) }
{
    for mention in inside {
        if let Some(unbound) = unbound_one(names, *mention) {
            push(mentions, unbound)?;
        }
    }
    Ok(())
}

/// Puts behind the others what code mentions that has these names bound around it.
#[tactic(auto, using(crate::proofs::Gathered::unbound_alike))]
pub fn push_unbound<'a>(
    alloc: Global,
    names: &[Text],
    inside: &[Mention<'a>],
    mentions: &mut Vec<Mention<'a>>,
) -> Result<(), NoMemory>
    ensures { OnOk result (spec.told mentions.new.items ≡ spec.told mentions.old.items ++ tree.unbound names.now (spec.told inside.now)) }
{
    push_unbound_of(&Names::of(alloc, names)?, inside, mentions)
}

/// Whether a function's own name is this one.
fn is_own(own: Option<&Text>, name: &Text) -> bool
    ensures { result ≡ parts.is_among (spec.own_of own.entry) name.now }
{
    match own {
        None => false,
        Some(own) => *name == *own,
    }
}

/// A mention inside a function expression, as it is outside: an assignment to the function's own name stays one (13).
fn owned_one<'a>(own: Option<&Text>, mention: Mention<'a>) -> Option<Mention<'a>>
    ensures { spec.told_maybe result ≡ tree.owned_one (spec.own_of own.entry) (spec.mention_of mention.entry) }
{
    match mention {
        Mention::Reads(_, name) => {
            if is_own(own, name) {
                None
            } else {
                Some(mention)
            }
        }
        Mention::Assigns(at, name) => {
            if is_own(own, name) {
                Some(Mention::AssignsOwn(at))
            } else {
                Some(mention)
            }
        }
        Mention::AssignsOwn(_) | Mention::Takes(_, _, _) | Mention::Repeats(_) => Some(mention),
    }
}

/// Puts behind the others what a function expression mentions.
pub fn push_owned<'a>(inside: &Inside<'a>, mentions: &mut Vec<Mention<'a>>) -> Result<(), NoMemory>
    ensures { OnOk result (spec.told mentions.new.items ≡ spec.told mentions.old.items ++ tree.as_expression (spec.inside_of inside.now)) }
{
    for mention in inside.mentions.as_slice() {
        if let Some(owned) = owned_one(inside.name, *mention) {
            push(mentions, owned)?;
        }
    }
    Ok(())
}
