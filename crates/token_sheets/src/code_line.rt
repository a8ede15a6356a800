//! The code of a function on one line.

ghost use Rattle.std.specs.Prelude.{◌≡◌, ◌++◌, IfOk, OnOk};
ghost use Rattle.script_text.specs.CodeLine as spec;
ghost use Rattle.script_text.specs.CodeLine.{add};
ghost use Rattle.script_text.specs.Pieces.{Reference, Bind, Release, utf8};

use crate::name_places::{BoundNames, NumberedNames};
use itoa::Buffer;
use js_value::{Bytes, NoMemory, Seq, Text};
use std::alloc::Global;
use std::marker::Model;
use std::mem::replace;

/// The code of a function on one line, as it grows by tokens.
#[derive(Drop)]
pub struct CodeLine {
    bytes: Vec<u8>,
    names: NumberedNames,
    bound: BoundNames,
}

impl Model for CodeLine {
    ghost use Rattle.script_text.specs.CodeLine.{CodeLine as Written};

    ghost Value = { Written };

    ghost view = { λ c. record { bytes = c.bytes.items; names = c.names; bound = c.bound } };
}

/// Puts a token behind the others, with a space between.
fn push_spaced(bytes: &mut Vec<u8>, text: &[u8]) -> Result<(), NoMemory>
    ensures { OnOk result (bytes.new.items ≡ bytes.old.items ++ spec.space_behind bytes.old.items ++ text.now) }
{
    if !bytes.is_empty() {
        bytes.push(b' ')?;
    }
    bytes.extend_from_slice(text)?;
    Ok(())
}

/// Puts a name that is replaced, or its text.
fn push_replaced(
    alloc: Global,
    bytes: &mut Vec<u8>,
    k: Option<usize>,
    name: &Text,
) -> Result<(), NoMemory>
    ensures { OnOk result (bytes.new.items ≡ bytes.old.items ++ spec.space_behind bytes.old.items ++ spec.replaced k name.now) }
{
    let Some(k) = k else {
        return push_name(alloc, bytes, name);
    };
    let number = k.checked_add(1).ok_or(NoMemory)?;
    push_spaced(bytes, b"%")?;
    let mut buffer = Buffer::new();
    bytes.extend_from_slice(buffer.format(number).as_bytes())?;
    Ok(())
}

fn push_name(alloc: Global, bytes: &mut Vec<u8>, name: &Text) -> Result<(), NoMemory>
    ensures { OnOk result (bytes.new.items ≡ bytes.old.items ++ spec.space_behind bytes.old.items ++ utf8 name.now) }
{
    let text = String::from_utf16_lossy(alloc, name.as_slice())?;
    push_spaced(bytes, text.as_bytes())
}

impl CodeLine {
    /// A line without tokens, on which these names are replaced.
    pub fn new(alloc: Global, names: Seq<Text>) -> Result<CodeLine, NoMemory>
        ensures { IfOk result (λ line. line ≡ spec.empty_line names) }
    {
        Ok(CodeLine {
            bytes: Vec::new(alloc),
            names: NumberedNames::new(alloc, names)?,
            bound: BoundNames::new(alloc),
        })
    }

    pub fn into_bytes(self) -> Bytes
        ensures { result ≡ self.bytes }
    {
        Seq::from_vec(self.bytes)
    }

    /// A token, whatever may stand beside it in a text.
    pub fn token(&mut self, text: &[u8]) -> Result<(), NoMemory>
        ensures { OnOk result (self.new ≡ spec.spaced self.old text.now) }
    {
        push_spaced(&mut self.bytes, text)
    }

    /// A name that is read or assigned to.
    #[tactic(auto, unfolding(script_text::specs::CodeLine::add))]
    pub fn reference(&mut self, alloc: Global, name: &Text) -> Result<(), NoMemory>
        ensures { OnOk result (self.new ≡ add self.old (Reference name.now)) }
    {
        if self.bound.has(name) {
            return push_name(alloc, &mut self.bytes, name);
        }
        let k = self.names.position_of(name);
        push_replaced(alloc, &mut self.bytes, k, name)
    }

    /// Code begins that binds these names.
    #[tactic(auto, unfolding(script_text::specs::CodeLine::add))]
    pub fn bind(&mut self, alloc: Global, names: Seq<Text>) -> Result<(), NoMemory>
        ensures { OnOk result (self.new ≡ add self.old (Bind names)) }
    {
        let bound = replace(&mut self.bound, BoundNames::new(alloc));
        self.bound = bound.enter(alloc, names)?;
        Ok(())
    }

    /// The code that was begun last ends.
    #[tactic(auto, unfolding(script_text::specs::CodeLine::add))]
    pub fn release(&mut self)
        ensures { self.new ≡ add self.old Release }
    {
        self.bound.leave();
    }
}
