//! Rows of texts, and how each is tried.

use js_lex::lex;
use js_parse::parse;
use js_printer::print;
use js_tree::{ReadRefused, Script};
use js_value::Bytes;
use std::alloc::Global;
use std::process::Abort;
use std::test::Fail;

/// A text, and how its script is printed.
pub type Row = (&'static str, &'static str);

/// How many parts may be open at once, and how high a tree may be.
const LIMIT: u32 = 200;

/// The script of a text.
pub fn read(alloc: Global, text: &[u8]) -> Result<Script, ReadRefused> {
    if text.len() > 2_097_152 {
        return Err(ReadRefused::NoMemory);
    }
    parse(alloc, &lex(alloc, text)?, LIMIT)
}

/// How the script of a text is printed.
pub fn printed(alloc: Global, text: &[u8]) -> Result<Bytes, Fail> {
    let script = read(alloc, text).ok().ok_or("refused")?;
    Ok(print(alloc, &script)?)
}

/// Each text is printed as its row says, and what is printed is printed as itself.
pub fn all_print(rt: &impl Abort, alloc: Global, rows: &[Row]) -> Result<(), Fail> {
    for (source, wanted) in rows {
        let got = printed(alloc, source.as_bytes())?;
        assert_eq!(rt; got.as_slice(), wanted.as_bytes(), "of {source}");
        let again = printed(alloc, wanted.as_bytes())?;
        assert_eq!(rt; again.as_slice(), wanted.as_bytes(), "of {wanted}");
    }
    Ok(())
}
