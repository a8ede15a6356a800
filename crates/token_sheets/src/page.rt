//! The lines of a text.

ghost use Rattle.std.specs.Prelude.{◌≡◌, ◌++◌, ◌*◌, replicate, OnOk};
ghost use Rattle.script_text.specs.Pieces as spec;
ghost use Rattle.script_text.specs.Pieces.{put, Token, LineEnd, Open, Close, Reference};

use js_value::{Bytes, NoMemory, Seq, Text};
use script_text::Gap;
use std::alloc::Global;
use std::marker::Model;

/// A text that grows by tokens.
#[derive(Drop)]
pub struct Page {
    bytes: Vec<u8>,
    gap: Gap,
    depth: usize,
}

impl Model for Page {
    ghost use Rattle.script_text.specs.Pieces.{Page as Written};

    ghost Value = { Written };

    ghost view = { λ p. record { bytes = p.bytes.items; gap = p.gap; depth = p.depth } };
}

fn indent(bytes: &mut Vec<u8>, depth: usize) -> Result<(), NoMemory>
    ensures { OnOk result (bytes.new.items ≡ bytes.old.items ++ replicate (2 * depth) 32) }
{
    for _turn in 0..depth {
        bytes.extend_from_slice(b"  ")?;
    }
    Ok(())
}

fn begins_with_sign(text: &[u8]) -> bool
    ensures { result ≡ spec.begins_with_sign text.now }
{
    match text {
        [b'+', ..] | [b'-', ..] => true,
        _ => false,
    }
}

/// What stands before a token.
fn begin(
    bytes: &mut Vec<u8>,
    gap: Gap,
    is_tight: bool,
    depth: usize,
    text: &[u8],
) -> Result<(), NoMemory>
    ensures { OnOk result (bytes.new.items ≡ bytes.old.items ++ spec.between gap is_tight depth text.now) }
{
    match gap {
        Gap::Start => indent(bytes, depth),
        Gap::Tight => Ok(()),
        Gap::Sign => {
            if begins_with_sign(text) {
                bytes.push(b' ')?;
            }
            Ok(())
        }
        Gap::Loose => {
            if !is_tight {
                bytes.push(b' ')?;
            }
            Ok(())
        }
    }
}

impl Page {
    pub fn new(alloc: Global) -> Page
        ensures { result ≡ spec.blank }
    {
        Page {
            bytes: Vec::new(alloc),
            gap: Gap::Start,
            depth: 0,
        }
    }

    pub fn into_bytes(self) -> Bytes
        ensures { result ≡ self.bytes }
    {
        Seq::from_vec(self.bytes)
    }

    /// Puts a token, whether no space is to stand before it, and what may stand behind it.
    #[tactic(auto, unfolding(script_text::specs::Pieces::put))]
    pub fn token(&mut self, text: &[u8], is_tight: bool, behind: Gap) -> Result<(), NoMemory>
        ensures { OnOk result (self.new ≡ put self.old (Token text.now is_tight behind)) }
    {
        begin(&mut self.bytes, self.gap, is_tight, self.depth, text)?;
        self.bytes.extend_from_slice(text)?;
        self.gap = behind;
        Ok(())
    }

    /// A name that is read or assigned to.
    #[tactic(auto, unfolding(script_text::specs::Pieces::put))]
    pub fn reference(&mut self, alloc: Global, name: &Text) -> Result<(), NoMemory>
        ensures { OnOk result (self.new ≡ put self.old (Reference name.now)) }
    {
        let text = String::from_utf16_lossy(alloc, name.as_slice())?;
        begin(
            &mut self.bytes,
            self.gap,
            false,
            self.depth,
            text.as_bytes(),
        )?;
        self.bytes.extend_from_slice(text.as_bytes())?;
        self.gap = Gap::Loose;
        Ok(())
    }

    #[tactic(auto, unfolding(script_text::specs::Pieces::put))]
    pub fn end_line(&mut self) -> Result<(), NoMemory>
        ensures { OnOk result (self.new ≡ put self.old LineEnd) }
    {
        self.bytes.push(b'\n')?;
        self.gap = Gap::Start;
        Ok(())
    }

    /// One more level of indentation.
    #[tactic(auto, unfolding(script_text::specs::Pieces::put))]
    pub fn open(&mut self) -> Result<(), NoMemory>
        ensures { OnOk result (self.new ≡ put self.old Open) }
    {
        self.depth = self.depth.checked_add(1).ok_or(NoMemory)?;
        Ok(())
    }

    /// One level of indentation less.
    #[tactic(auto, unfolding(script_text::specs::Pieces::put))]
    pub fn close(&mut self)
        ensures { self.new ≡ put self.old Close }
    {
        self.depth = self.depth.saturating_sub(1);
    }
}
