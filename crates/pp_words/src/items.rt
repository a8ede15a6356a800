ghost use Rattle.std.specs.Prelude.{◌≡◌, ◌∷◌, List, map, Some, None, IfOk, IfErr, OnOk};
ghost use Rattle.std.specs.List.{list_any};
ghost use Rattle.pp_words.specs.Words as spec;
ghost use Rattle.pp_words.specs.declared.command.WordsRefused.TheVariants.{Usage};

use crate::item::item;
use crate::{Item, Items, WordsRefused, Worlds};
use js_value::Text;
use std::alloc::Global;
use std::mem;

fn is_named(name: &Text, item: &Item) -> bool
    ensures { result ≡ spec.is_named name.now item.now }
{
    1 <= name.len() && item.name == *name
}

fn is_given(name: &Text, done: &[Item]) -> bool
    ensures { result ≡ list_any (spec.is_named name.now) done.now }
{
    done.iter().any(|item| is_named(name, item))
}

/// Reads one word more of the items of a world.
fn push_item(alloc: Global, done: &mut Items, word: &str) -> Result<(), WordsRefused>
    ensures ok { OnOk result (spec.more_items done.old word.now ≡ Some done.new) }
    ensures err { IfErr result (λ e. e ≡ Usage → spec.more_items done.old word.now ≡ None) }
{
    let next = item(alloc, word)?;
    if is_given(&next.name, done.as_slice()) {
        return Err(WordsRefused::Usage);
    }
    done.push(next)?;
    Ok(())
}

/// The items that words spell.
pub(crate) fn read_items(alloc: Global, words: &[&str]) -> Result<Items, WordsRefused>
    ensures ok { IfOk result (λ all. spec.items (map (λ w. w.now) words.now) ≡ Some all) }
    ensures err { IfErr result (λ e. e ≡ Usage → spec.items (map (λ w. w.now) words.now) ≡ None) }
{
    let mut done = Items::new(alloc);
    for word in words {
        push_item(alloc, &mut done, word)?;
    }
    Ok(done)
}

/// Reads one word more of the items of some worlds, of which the last was begun.
fn push_word(
    alloc: Global,
    done: &mut Worlds,
    world: &mut Items,
    word: &str,
) -> Result<(), WordsRefused>
    ensures ok { OnOk result ((rest : List spec.Word) → spec.worlds_behind done.new world.new rest ≡
        spec.worlds_behind done.old world.old (word.now ∷ rest)) }
    ensures err { IfErr result (λ e. e ≡ Usage → (rest : List spec.Word) →
        spec.worlds_behind done.old world.old (word.now ∷ rest) ≡ None) }
{
    if word == "/" {
        done.push(mem::replace(world, Items::new(alloc)))?;
        return Ok(());
    }
    push_item(alloc, world, word)
}

/// The items of the worlds that words spell.
pub(crate) fn read_worlds(alloc: Global, words: &[&str]) -> Result<Worlds, WordsRefused>
    ensures ok { IfOk result (λ all. spec.worlds (map (λ w. w.now) words.now) ≡ Some all) }
    ensures err { IfErr result (λ e. e ≡ Usage → spec.worlds (map (λ w. w.now) words.now) ≡ None) }
{
    let mut done = Worlds::new(alloc);
    let mut world = Items::new(alloc);
    for word in words {
        push_word(alloc, &mut done, &mut world, word)?;
    }
    done.push(world)?;
    Ok(done)
}
