//! A parser: its calls are the productions of the grammar in which something nests.

use token_reader::Reader;

/// Reads productions off the tokens that are left.
#[derive(Drop)]
pub struct Parser<'a> {
    pub reader: Reader<'a>,
}
