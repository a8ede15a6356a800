//! What tokens are put on.

ghost use Rattle.std.specs.Prelude.{◌≡◌, ◌∷◌, [], OnOk, IfOk};
ghost use Rattle.script_text.specs.CodeLine.{empty_line};
ghost use Rattle.token_sheets.specs.Sheets.{bytes_of, put, put_all};
ghost use Rattle.token_sheets.specs.declared.sheet.Sheet.TheVariants.{Lines as AsLines, Code as AsCode};
ghost use Rattle.script_text.specs.Pieces as spec;
ghost use Rattle.script_text.specs.Pieces.{Token, LineEnd, Open, Close, Reference, Named, Quoted, Number, Bind, Release};
ghost use Rattle.script_text.specs.Printing.{bound_names};

use crate::bound::{bound_names, copies};
use crate::code_line::CodeLine;
use crate::page::Page;
use js_tree::Func;
use js_value::{Bytes, NoMemory, Seq, Text, push_number};
use script_text::Gap;
use std::alloc::Global;

/// What tokens are put on.
#[derive(Drop)]
pub enum Sheet {
    /// The lines of a text.
    Lines(Page),
    /// The line of a function's code.
    Code(CodeLine),
}

impl Sheet {
    /// A text without tokens.
    pub fn lines(alloc: Global) -> Sheet
        ensures { result ≡ AsLines spec.blank }
    {
        Sheet::Lines(Page::new(alloc))
    }

    /// The line of a function's code without tokens, on which these names are to be replaced.
    pub fn code(alloc: Global, names: &[Text]) -> Result<Sheet, NoMemory>
        ensures { IfOk result (λ sheet. sheet ≡ AsCode (empty_line names.now)) }
    {
        let names = copies(alloc, names)?;
        Ok(Sheet::Code(CodeLine::new(alloc, names)?))
    }

    /// What was put, as bytes.
    pub fn into_bytes(self) -> Bytes
        ensures { result ≡ bytes_of self }
    {
        match self {
            Sheet::Lines(page) => page.into_bytes(),
            Sheet::Code(line) => line.into_bytes(),
        }
    }

    /// Puts a token, whether no space is to stand before it in a text, and what may stand behind it.
    #[tactic(auto, unfolding(crate::specs::Sheets::put, script_text::specs::CodeLine::add))]
    pub fn token(&mut self, text: &[u8], is_tight: bool, behind: Gap) -> Result<(), NoMemory>
        ensures { OnOk result (self.new ≡ put self.old (Token text.now is_tight behind)) }
    {
        match self {
            Sheet::Lines(page) => page.token(text, is_tight, behind),
            Sheet::Code(line) => line.token(text),
        }
    }

    /// A token with spaces around it.
    pub fn word(&mut self, text: &[u8]) -> Result<(), NoMemory>
        ensures { OnOk result (self.new ≡ put_all (spec.word text.now) self.old) }
    {
        self.token(text, false, Gap::Loose)
    }

    /// A token without a space before it.
    pub fn closing(&mut self, text: &[u8]) -> Result<(), NoMemory>
        ensures { OnOk result (self.new ≡ put_all (spec.closing text.now) self.old) }
    {
        self.token(text, true, Gap::Loose)
    }

    /// A token without a space behind it.
    pub fn opening(&mut self, text: &[u8]) -> Result<(), NoMemory>
        ensures { OnOk result (self.new ≡ put_all (spec.opening text.now) self.old) }
    {
        self.token(text, false, Gap::Tight)
    }

    /// A token without spaces around it.
    pub fn inner(&mut self, text: &[u8]) -> Result<(), NoMemory>
        ensures { OnOk result (self.new ≡ put_all (spec.inner text.now) self.old) }
    {
        self.token(text, true, Gap::Tight)
    }

    /// A sign before its operand: a space behind it only where two signs would meet.
    pub fn prefix(&mut self, text: &[u8]) -> Result<(), NoMemory>
        ensures { OnOk result (self.new ≡ put_all (spec.prefix text.now) self.old) }
    {
        self.token(text, false, Gap::Sign)
    }

    /// Ends a line of a text.
    #[tactic(auto, unfolding(crate::specs::Sheets::put, script_text::specs::CodeLine::add))]
    pub fn end_line(&mut self) -> Result<(), NoMemory>
        ensures { OnOk result (self.new ≡ put self.old LineEnd) }
    {
        match self {
            Sheet::Lines(page) => page.end_line(),
            Sheet::Code(_) => Ok(()),
        }
    }

    /// One more level of indentation.
    #[tactic(auto, unfolding(crate::specs::Sheets::put, script_text::specs::CodeLine::add))]
    pub fn open(&mut self) -> Result<(), NoMemory>
        ensures { OnOk result (self.new ≡ put self.old Open) }
    {
        match self {
            Sheet::Lines(page) => page.open(),
            Sheet::Code(_) => Ok(()),
        }
    }

    /// One level of indentation less.
    #[tactic(auto, unfolding(crate::specs::Sheets::put, script_text::specs::CodeLine::add))]
    pub fn close(&mut self)
        ensures { self.new ≡ put self.old Close }
    {
        match self {
            Sheet::Lines(page) => page.close(),
            Sheet::Code(_) => {}
        }
    }

    /// A name that is declared, or an identifier name of a property (7.6).
    #[tactic(auto, using(crate::proofs::Putting::as_tokens))]
    pub fn named(&mut self, alloc: Global, name: &Text, behind: Gap) -> Result<(), NoMemory>
        ensures { OnOk result (self.new ≡ put_all (Named name.now behind ∷ []) self.old) }
    {
        let text = String::from_utf16_lossy(alloc, name.as_slice())?;
        self.token(text.as_bytes(), false, behind)
    }

    /// A string literal (7.8.4).
    #[tactic(auto, using(crate::proofs::Putting::as_tokens))]
    pub fn quoted(&mut self, alloc: Global, text: &Text, behind: Gap) -> Result<(), NoMemory>
        ensures { OnOk result (self.new ≡ put_all (Quoted text.now behind ∷ []) self.old) }
    {
        self.token(text.quoted(alloc)?.as_slice(), false, behind)
    }

    /// A number literal (7.8.3).
    #[tactic(auto, using(crate::proofs::Putting::as_tokens))]
    pub fn number(&mut self, alloc: Global, n: i64) -> Result<(), NoMemory>
        ensures { OnOk result (self.new ≡ put_all (Number n ∷ []) self.old) }
    {
        let mut digits = Vec::new(alloc);
        push_number(&mut digits, n)?;
        self.token(digits.as_slice(), false, Gap::Loose)
    }

    /// A name that is read or assigned to (11.1.2).
    #[tactic(auto, unfolding(crate::specs::Sheets::put))]
    pub fn reference(&mut self, alloc: Global, name: &Text) -> Result<(), NoMemory>
        ensures { OnOk result (self.new ≡ put_all (Reference name.now ∷ []) self.old) }
    {
        match self {
            Sheet::Lines(page) => page.reference(alloc, name),
            Sheet::Code(line) => line.reference(alloc, name),
        }
    }

    /// Code begins that binds a name (12.14).
    #[tactic(auto, unfolding(crate::specs::Sheets::put, script_text::specs::Pieces::put))]
    pub fn bind_name(&mut self, alloc: Global, name: &Text) -> Result<(), NoMemory>
        ensures { OnOk result (self.new ≡ put self.old (Bind (name.now ∷ []))) }
    {
        match self {
            Sheet::Lines(_) => Ok(()),
            Sheet::Code(line) => {
                let mut names = Seq::new(alloc);
                names.push(name.copy(alloc)?)?;
                line.bind(alloc, names)
            }
        }
    }

    /// The code of a function begins (13).
    #[tactic(auto, unfolding(crate::specs::Sheets::put, script_text::specs::Pieces::put))]
    pub fn bind(
        &mut self,
        alloc: Global,
        funcs: &[Func],
        f: &Func,
        named: bool,
    ) -> Result<(), NoMemory>
        ensures { OnOk result (self.new ≡ put self.old (Bind (bound_names named funcs.now f.now))) }
    {
        match self {
            Sheet::Lines(_) => Ok(()),
            Sheet::Code(line) => line.bind(alloc, bound_names(alloc, funcs, f, named)?),
        }
    }

    /// The code that was begun last ends.
    #[tactic(auto, unfolding(crate::specs::Sheets::put, script_text::specs::Pieces::put))]
    pub fn release(&mut self)
        ensures { self.new ≡ put self.old Release }
    {
        match self {
            Sheet::Lines(_) => {}
            Sheet::Code(line) => line.release(),
        }
    }
}
