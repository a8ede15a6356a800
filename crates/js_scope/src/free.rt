//! The free names of functions.

ghost use Rattle.std.specs.Prelude.{◌≡◌, [], map, IfOk};
ghost use Rattle.js_value.specs.declared.place.FuncNo.{FuncNo as Number};
ghost use Rattle.js_tree.specs.Mentions as tree;
ghost use Rattle.js_scope.specs.FreeNames as spec;
ghost use Rattle.js_scope.specs.Mentioning as mentioning;

use crate::first::{first_insides, name_in};
use crate::functions::{push_name, push_names};
use crate::mention::{Inside, Mention};
use js_tree::Script;
use js_value::{FuncNo, NoMemory, Seq, Text};
use std::alloc::Global;
use std::collections::VecDeque;
use std::marker::Model;

/// The names that these mention, in order.
fn names_of(alloc: Global, mentions: &[Mention]) -> Result<Seq<Text>, NoMemory>
    ensures { IfOk result (λ names. names ≡ spec.names_in (mentioning.told mentions.now)) }
{
    let mut names = Seq::new(alloc);
    for mention in mentions {
        push_name(alloc, name_in(mention), &mut names)?;
    }
    Ok(names)
}

/// The names that each of these mentions.
fn names_of_each(alloc: Global, insides: VecDeque<Inside>) -> Result<Seq<Seq<Text>>, NoMemory>
    ensures { IfOk result (λ names. names ≡ spec.table_of (map mentioning.inside_of insides.entry.items)) }
{
    let mut insides = insides;
    let mut names = Seq::new(alloc);
    while let Some(inside) = insides.pop_front() {
        names.push(names_of(alloc, inside.mentions.as_slice())?)?;
    }
    Ok(names)
}

/// The free names of each function of a script (10.2.2): those that it or a function inside it mentions, and that no handler
/// or function around the mention binds, itself the outermost, each once, in the order in which they come first. Its own name
/// (13) is among them where it is mentioned.
#[derive(Debug, Drop)]
pub struct FreeNames {
    of_each: Seq<Seq<Text>>,
}

impl Model for FreeNames {
    ghost use Rattle.std.specs.Prelude.{List, ℕ};

    ghost Value = { List (List (List ℕ)) };

    ghost view = { λ names. names.of_each };
}

impl FreeNames {
    /// The free names of a script's functions, by one walk over its code. `NoMemory` comes only where there is no memory.
    pub fn new(alloc: Global, script: &Script) -> Result<FreeNames, NoMemory>
        ensures { IfOk result (λ names. (f : Number) → spec.of names f ≡ tree.free_names script.now f) }
    {
        let insides = first_insides(alloc, script.funcs.as_slice())?;
        Ok(FreeNames {
            of_each: names_of_each(alloc, insides)?,
        })
    }

    /// The free names of a function. A number past the functions has none.
    pub fn of(&self, f: FuncNo) -> &[Text]
        ensures { result.now ≡ spec.of self.now f }
    {
        match self.of_each.as_slice().get(f.0) {
            None => &[],
            Some(names) => names.as_slice(),
        }
    }
}

/// The free names of one function, as `FreeNames` has them. `NoMemory` comes only where there is no memory.
pub fn free_names(alloc: Global, script: &Script, f: FuncNo) -> Result<Seq<Text>, NoMemory>
    ensures { IfOk result (λ names. names ≡ tree.free_names script.now f) }
{
    let all = FreeNames::new(alloc, script)?;
    let mut names = Seq::new(alloc);
    push_names(alloc, all.of(f), &mut names)?;
    Ok(names)
}
