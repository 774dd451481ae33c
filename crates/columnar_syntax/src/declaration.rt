//! Declarations of structs and enums in a source.
ghost use Rattle.std.specs.Prelude.{◌≡◌, ◌≢◌, ◌≤◌, [], length, drop, IfSome, IfNone};
ghost use Rattle.columnar_syntax.specs.Declarations.{declared_in, follows, is_declarer};
ghost use Rattle.columnar_syntax.specs.Tokens.{tokens};

use crate::scan::token_span;

// Tests whether a declaration begins with this word.
fn begins_declaration(word: &[u8]) -> bool
    ensures { result ≡ is_declarer word.now }
{
    word == b"struct".as_slice() || word == b"enum".as_slice()
}

// Tests whether this is the token that follows the blanks.
fn next_is(text: &[u8], at: usize, token: &[u8]) -> bool
    requires { at ≤ length text.now }
    ensures { result ≡ follows token.now (tokens (drop at text.now)) }
{
    let (start, end) = token_span(text, at);
    start < end && &text[start..end] == token
}

/// Returns the position of the first `struct` or `enum` that stands before this name.
#[tactic(auto, using(crate::specs::DeclarationLaws::declared_here, crate::specs::DeclarationLaws::declared_later))]
pub(crate) fn declaration_of(text: &[u8], name: &[u8]) -> Option<usize>
    ensures within { IfSome result (λ n. n ≤ length text.now) }
    ensures some { IfSome result (λ n. tokens (drop n text.now) ≡ declared_in name.now (tokens text.now)) }
    ensures found { IfSome result (λ n. declared_in name.now (tokens text.now) ≢ []) }
    ensures none { IfNone result (declared_in name.now (tokens text.now) ≡ []) }
{
    let mut at = 0;
    while at < text.len() {
        let (start, end) = token_span(text, at);
        if begins_declaration(&text[start..end]) && next_is(text, end, name) {
            return Some(start);
        }
        at = end;
    }
    None
}
