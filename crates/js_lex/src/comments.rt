//! Comments (7.4).

ghost use Rattle.std.specs.Prelude.{false, not, IfOk, ◌+◌, ◌≡◌, ◌<◌, ◌≤◌, ◌^◌, length, slice_index};
ghost use Rattle.std.specs.List.{prefix_len};
ghost use Rattle.js_tree.specs.Lexing as spec;

use crate::characters::{char_at, is_line_end};
use js_tree::{InputElement, ReadRefused};
use js_value::Place;

fn is_in_line(c: char) -> bool
    ensures { result ≡ not (spec.is_line_end c) }
{
    !is_line_end(c)
}

fn line_len(z: &[char]) -> usize
    ensures value { result ≡ prefix_len (λ c. not (spec.is_line_end c)) z.now }
    ensures some { 0 < length z.now → spec.is_line_end (slice_index z.now 0) ≡ false → 0 < result }
    ensures within { result ≤ length z.now }
{
    z.iter().take_while(|c| is_in_line(**c)).count()
}

/// The comment that `//` begins.
pub fn line_comment(z: &[char]) -> Result<(InputElement, usize), ReadRefused>
    requires some { 0 < length z.now }
    requires first { spec.is_line_end (slice_index z.now 0) ≡ false }
    ensures token { result ≡ spec.line_comment z.now }
    ensures within { IfOk result (λ t. (1 ≤ t.1) × (t.1 ≤ length z.now)) }
{
    Ok((InputElement::WhiteSpace, line_len(z)))
}

/// The comment that `/*` begins, from behind these two characters on.
#[tactic(auto, using(crate::proofs::Scanning::comment_step))]
pub fn block_comment(at: u32, z: &[char]) -> Result<(InputElement, usize), ReadRefused>
    requires { length z.now < 2 ^ 32 }
    ensures token { result ≡ spec.block_comment at false 2 z.now }
    ensures within { IfOk result (λ t. (1 ≤ t.1) × (t.1 ≤ length z.now + 2)) }
{
    let mut line = false;
    for (i, c) in z.iter().enumerate() {
        if *c == '*' && char_at(z, i + 1) == '/' {
            let element = if line {
                InputElement::LineEnd
            } else {
                InputElement::WhiteSpace
            };
            return Ok((element, i + 4));
        }
        line = line || is_line_end(*c);
    }
    Err(ReadRefused::Syntax(Place(at)))
}
