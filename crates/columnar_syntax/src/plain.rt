//! The text of a declaration as it stands in a source file, without what is no part of its type.
ghost use Rattle.std.specs.Prelude.{◌≡◌, ◌⊎◌, ◌<◌, ◌≤◌, ◌^◌, suc, true, false, cond, IfOk, IfErr};
ghost use Rattle.columnar_syntax.specs.Plain.{begins_attribute, begins_public, begins_restricted, begun, chooses, commented, ends_well, is_open, level, next, plain, quoted, shows};
ghost use Rattle.columnar_syntax.specs.declared.text.Mistake.TheVariants.{Memory, Unended};

use crate::parts::unallocated;
use crate::scan::is_of_name;
use crate::text::{Mistake, Refused};
use std::alloc::Global;

// The part of a text in which a byte is.
#[derive(Clone, Copy, PartialEq, Drop)]
enum Mode {
    // Between words.
    Code,
    // In a word.
    Word,
    // At the last byte of what is left out.
    Ended,
    // One byte before that.
    One,
    // Two bytes before it.
    Two,
    // At the first slash of a comment that ends with its line.
    Slash,
    // At its second slash, or at a blank after it.
    Start,
    // In such a comment.
    Line,
    // At the first byte of the mark that begins a comment, in so many comments.
    Opens(usize),
    // In so many comments.
    Block(usize),
    // At the first byte of the mark that ends the innermost of so many comments.
    Closes(usize),
    // In an attribute.
    Attribute,
    // In a quoted text of an attribute.
    Value,
    // At the backslash of such a text.
    Escape,
    // At the first quote of a text.
    Quote,
    // In a quoted text.
    Text,
    // At the backslash of a quoted text.
    TextEscape,
    // In a visibility with parentheses.
    Restricted,
}

impl Mode {
    // Returns the byte, or a blank where it is no part of the type.
    fn shown(self, byte: u8) -> u8
        ensures { result ≡ cond (shows self) byte 32 }
    {
        match self {
            Mode::Code | Mode::Word | Mode::Quote => byte,
            _ => b' ',
        }
    }

    fn is_open(self) -> bool
        ensures { result ≡ is_open self }
    {
        match self {
            Mode::Code | Mode::Word | Mode::Ended | Mode::Slash | Mode::Start | Mode::Line => false,
            _ => true,
        }
    }
}

// Returns whether an attribute that chooses a column follows `#`.
fn chooses(rest: &[u8]) -> bool
    ensures { result ≡ chooses rest.now }
{
    rest.starts_with(b"[columnar(") && !rest.starts_with(b"[columnar(derive(")
}

fn begins_attribute(byte: u8, rest: &[u8]) -> bool
    ensures { result ≡ begins_attribute byte rest.now }
{
    byte == b'#' && rest.starts_with(b"[") && !chooses(rest)
}

fn begins_restricted(byte: u8, rest: &[u8]) -> bool
    ensures { result ≡ begins_restricted byte rest.now }
{
    byte == b'p'
        && (rest.starts_with(b"ub(crate)")
            || rest.starts_with(b"ub(self)")
            || rest.starts_with(b"ub(super)")
            || rest.starts_with(b"ub(in "))
}

fn begins_public(byte: u8, rest: &[u8]) -> bool
    ensures { result ≡ begins_public byte rest.now }
{
    byte == b'p' && rest.starts_with(b"ub") && (rest.len() == 2 || !is_of_name(rest[2]))
}

// Returns what a byte begins that follows no word.
fn begun(byte: u8, rest: &[u8]) -> Mode
    ensures begun { result ≡ begun byte rest.now }
    ensures level { level result ≡ 0 }
{
    if byte == b'/' && rest.starts_with(b"/") {
        Mode::Slash
    } else if byte == b'/' && rest.starts_with(b"*") {
        Mode::Opens(0)
    } else if begins_attribute(byte, rest) {
        Mode::Attribute
    } else if begins_restricted(byte, rest) {
        Mode::Restricted
    } else if begins_public(byte, rest) {
        Mode::Two
    } else if byte == b'\'' && rest.starts_with(b"\"'") {
        Mode::Two
    } else if byte == b'"' {
        Mode::Quote
    } else if is_of_name(byte) {
        Mode::Word
    } else {
        Mode::Code
    }
}

// Returns the part in which a byte is that is at the beginning of a line comment.
fn commented(byte: u8, rest: &[u8]) -> Mode
    ensures { result ≡ commented byte rest.now }
{
    match byte {
        b'\n' => Mode::Code,
        b'#' if chooses(rest) => Mode::Code,
        b' ' => Mode::Start,
        _ => Mode::Line,
    }
}

fn quoted(byte: u8) -> Mode
    ensures { result ≡ quoted byte }
{
    match byte {
        b'"' => Mode::Code,
        b'\\' => Mode::TextEscape,
        _ => Mode::Text,
    }
}

// Returns the part in which a byte is that follows one in `mode`.
fn next(mode: Mode, byte: u8, rest: &[u8]) -> Mode
    requires { level mode < 2 ^ 63 }
    ensures next { result ≡ next mode byte rest.now }
    ensures level { level result ≤ suc (level mode) }
{
    match mode {
        Mode::Code | Mode::Ended => begun(byte, rest),
        Mode::Word if is_of_name(byte) => Mode::Word,
        Mode::Word => begun(byte, rest),
        Mode::One => Mode::Ended,
        Mode::Two => Mode::One,
        Mode::Slash => Mode::Start,
        Mode::Start => commented(byte, rest),
        Mode::Line if byte == b'\n' => Mode::Code,
        Mode::Opens(d) => Mode::Block(d + 1),
        Mode::Block(d) if byte == b'*' && rest.starts_with(b"/") => Mode::Closes(d),
        Mode::Block(d) if byte == b'/' && rest.starts_with(b"*") => Mode::Opens(d),
        Mode::Closes(1) => Mode::Ended,
        Mode::Closes(d) => Mode::Block(d.saturating_sub(1)),
        Mode::Attribute if byte == b']' => Mode::Ended,
        Mode::Attribute if byte == b'"' => Mode::Value,
        Mode::Value if byte == b'"' => Mode::Attribute,
        Mode::Value if byte == b'\\' => Mode::Escape,
        Mode::Escape => Mode::Value,
        Mode::Quote | Mode::Text => quoted(byte),
        Mode::TextEscape => Mode::Text,
        Mode::Restricted if byte == b')' => Mode::Ended,
        same => same,
    }
}

/// Returns the text with its comments, attributes, visibility (`pub`, `pub(crate)`) and the contents of quoted texts as
/// blanks, so that all else keeps its position. An attribute `columnar(..)` other than `columnar(derive(..))` stays, even
/// at the beginning of a line comment: it chooses a column.
///
/// # Errors
/// `Unended` at the end of the text, if one of these has no end; `Memory`, if an allocation fails.
#[tactic(auto, using(crate::specs::PlainLaws::plain_goes_on, crate::specs::PlainLaws::mode_goes_on, crate::specs::PlainLaws::plain_ends, crate::specs::PlainLaws::mode_ends))]
pub fn plain(alloc: Global, text: &[u8]) -> Result<Vec<u8>, Refused>
    ensures ok { IfOk result (λ v. (v.items ≡ plain text.now) × (ends_well text.now ≡ true)) }
    ensures err { IfErr result (λ e. (e.mistake ≡ Memory) ⊎ ((e.mistake ≡ Unended) × (ends_well text.now ≡ false))) }
{
    let mut shown = Vec::new(alloc);
    let mut mode = Mode::Code;
    for i in 0..text.len() {
        mode = next(mode, text[i], &text[i + 1..]);
        if shown.push(mode.shown(text[i])).is_err() {
            return Err(unallocated());
        }
    }
    if mode.is_open() {
        return Err(Refused {
            at: text.len(),
            mistake: Mistake::Unended,
        });
    }
    Ok(shown)
}
