//! The names that functions bind.

ghost use Rattle.std.specs.Prelude.{◌≡◌, ◌++◌, IfOk, OnOk};
ghost use Rattle.script_text.specs.Printing as spec;

use js_scope::declared;
use js_tree::Func;
use js_value::{NoMemory, Seq, Text};
use std::alloc::Global;

/// Puts a function's own name behind the others, where it is wanted.
fn push_own(alloc: Global, f: &Func, named: bool, names: &mut Seq<Text>) -> Result<(), NoMemory>
    ensures { OnOk result (names.new ≡ names.old ++ spec.own_binding named f.now) }
{
    match &f.name {
        Some(own) if named => names.push(own.text.copy(alloc)?),
        _ => Ok(()),
    }
}

/// Puts copies of names behind the others.
fn push_all(alloc: Global, more: &[Text], names: &mut Seq<Text>) -> Result<(), NoMemory>
    ensures { OnOk result (names.new ≡ names.old ++ more.now) }
{
    for name in more {
        names.push(name.copy(alloc)?)?;
    }
    Ok(())
}

/// The names that a function binds, its own among them where it is wanted.
pub fn bound_names(
    alloc: Global,
    funcs: &[Func],
    f: &Func,
    named: bool,
) -> Result<Seq<Text>, NoMemory>
    ensures { IfOk result (λ names. names ≡ spec.bound_names named funcs.now f.now) }
{
    let mut names = Seq::new(alloc);
    push_own(alloc, f, named, &mut names)?;
    let inner = declared(alloc, f, funcs, 0)?;
    push_all(alloc, inner.as_slice(), &mut names)?;
    Ok(names)
}

/// Copies of names.
pub fn copies(alloc: Global, names: &[Text]) -> Result<Seq<Text>, NoMemory>
    ensures { IfOk result (λ copies. copies ≡ names.now) }
{
    let mut copies = Seq::new(alloc);
    push_all(alloc, names, &mut copies)?;
    Ok(copies)
}
