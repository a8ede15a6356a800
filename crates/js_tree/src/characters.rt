//! Characters of names.

ghost use Rattle.std.specs.Prelude.{◌≡◌, true};
ghost use Rattle.js_tree.specs.Lexing as spec;

/// A character that an identifier name may begin with (7.6).
#[tactic(auto, unfolding(crate::specs::Lexing::is_name_start, crate::specs::Lexing::is_name_part))]
pub fn is_name_start(c: char) -> bool
    ensures value { result ≡ spec.is_name_start c }
    ensures part { result ≡ true → spec.is_name_part c ≡ true }
{
    unicode_ident::is_xid_start(c) || c == '$' || c == '_'
}

/// A character that an identifier name may go on with (7.6).
#[tactic(auto, unfolding(crate::specs::Lexing::is_name_part))]
pub fn is_name_part(c: char) -> bool
    ensures { result ≡ spec.is_name_part c }
{
    unicode_ident::is_xid_continue(c) || c == '$' || c == '_' || c == '\u{200C}' || c == '\u{200D}'
}
