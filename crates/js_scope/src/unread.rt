//! What functions mention but for the names that they read, which no early check asks about.

ghost use Rattle.std.specs.Prelude.{◌≡◌, ◌++◌, map, IfOk, OnOk};
ghost use Rattle.std.specs.List.{AllZip};
ghost use Rattle.js_tree.specs.Mentions as tree;
ghost use Rattle.js_scope.specs.FreeNames.{IsUnread, unread, unread_one};
ghost use Rattle.js_scope.specs.Mentioning as spec;

use crate::functions::{from_number, inside};
use crate::mention::{Inside, Mention, push};
use js_tree::Func;
use js_value::NoMemory;
use std::alloc::Global;
use std::collections::VecDeque;

/// Puts a mention behind the others, unless it reads a name.
fn push_unread<'a>(mentions: &mut Vec<Mention<'a>>, mention: Mention<'a>) -> Result<(), NoMemory>
    ensures { OnOk result (spec.told mentions.new.items ≡ spec.told mentions.old.items ++ unread_one (spec.mention_of mention.entry)) }
{
    match mention {
        Mention::Reads(_, _) => Ok(()),
        Mention::Assigns(_, _)
        | Mention::AssignsOwn(_)
        | Mention::Takes(_, _, _)
        | Mention::Repeats(_) => push(mentions, mention),
    }
}

/// The mentions that read no name.
fn unread_mentions<'a>(
    alloc: Global,
    mentions: &[Mention<'a>],
) -> Result<Vec<Mention<'a>>, NoMemory>
    ensures { IfOk result (λ others. spec.told others.items ≡ unread (spec.told mentions.now)) }
{
    let mut others = Vec::new(alloc);
    for mention in mentions {
        push_unread(&mut others, *mention)?;
    }
    Ok(others)
}

/// The own name of a function, and what it mentions but for the names that it reads.
fn unread_inside<'a>(alloc: Global, inside: &Inside<'a>) -> Result<Inside<'a>, NoMemory>
    ensures { IfOk result (λ less. IsUnread (spec.inside_of inside.now) (spec.inside_of less)) }
{
    Ok(Inside {
        name: inside.name,
        mentions: unread_mentions(alloc, inside.mentions.as_slice())?,
    })
}

/// The own names of a script's functions, and what they mention of names that they don't declare, but for those that they read.
pub fn unread_insides<'a>(alloc: Global, all: &'a [Func]) -> Result<VecDeque<Inside<'a>>, NoMemory>
    ensures { IfOk result (λ insides. AllZip IsUnread (tree.insides_from 0 all.now) (map spec.inside_of insides.items)) }
{
    let mut insides = VecDeque::new(alloc);
    for done in 0..all.len() {
        let n = all.len() - 1 - done;
        let behind = from_number(all, n + 1);
        let next = inside(alloc, &all[n], behind, n + 1, &insides)?;
        insides.push_front(unread_inside(alloc, &next)?)?;
    }
    Ok(insides)
}
