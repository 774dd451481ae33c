//! Texts of numbers and of strings, appended to bytes.
ghost use Rattle.std.specs.Prelude.{◌++◌, ◌∷◌, [], ◌<◌, ◌/◌, ◌%◌, codes, decimal};
ghost use Rattle.std.specs.Duration.{as_nanos};
ghost use Rattle.std.specs.Char.{digit_char, encode_utf8};
ghost use Rattle.std.specs.Fmt.{signed_decimal};
ghost use Rattle.std.specs.List.{flat_map};
ghost use Rattle.columnar_base.specs.Texts.{text_bytes, text_row};
ghost use Rattle.columnar_json.specs.Json.{duration_json, escaped, quoted, text_flaws, truth_json};
ghost use Rattle.columnar_json.specs.Written.{Wrote};

use crate::unwritten::Unwritten;
use columnar_strings::string::as_text;
use std::time::Duration;

/// Appends the bytes.
pub fn push_bytes(out: &mut Vec<u8>, bytes: &[u8]) -> Result<(), Unwritten>
    ensures { Wrote out.old.items out.new.items bytes.now [] result }
{
    match out.extend_from_slice(bytes) {
        Ok(()) => Ok(()),
        Err(_) => Err(Unwritten::Memory),
    }
}

/// Appends one byte.
pub fn push_byte(out: &mut Vec<u8>, byte: u8) -> Result<(), Unwritten>
    ensures { Wrote out.old.items out.new.items (byte ∷ []) [] result }
{
    match out.push(byte) {
        Ok(()) => Ok(()),
        Err(_) => Err(Unwritten::Memory),
    }
}

/// Appends the number in decimal.
pub fn push_number(out: &mut Vec<u8>, n: u64) -> Result<(), Unwritten>
    ensures { Wrote out.old.items out.new.items (decimal n) [] result }
{
    if n >= 10 {
        push_number(out, n / 10)?;
    }
    push_byte(out, b'0' + (n % 10) as u8)
}

/// Appends the number in decimal.
pub fn push_large(out: &mut Vec<u8>, n: u128) -> Result<(), Unwritten>
    ensures { Wrote out.old.items out.new.items (decimal n) [] result }
{
    if n < 1 << 64 {
        return push_number(out, n as u64);
    }
    push_large(out, n / 10)?;
    push_byte(out, b'0' + (n % 10) as u8)
}

/// Appends the number in decimal.
pub fn push_integer(out: &mut Vec<u8>, n: i64) -> Result<(), Unwritten>
    ensures { Wrote out.old.items out.new.items (signed_decimal n) [] result }
{
    if n < 0 {
        push_byte(out, b'-')?;
    }
    push_number(out, n.unsigned_abs())
}

/// Appends the number in decimal.
pub fn push_large_integer(out: &mut Vec<u8>, n: i128) -> Result<(), Unwritten>
    ensures { Wrote out.old.items out.new.items (signed_decimal n) [] result }
{
    if n < 0 {
        push_byte(out, b'-')?;
    }
    push_large(out, n.unsigned_abs())
}

// Appends a control character as `\u` and four digits.
fn push_control(out: &mut Vec<u8>, byte: u8) -> Result<(), Unwritten>
    requires { byte < 32 }
    ensures { Wrote out.old.items out.new.items (codes "\\u00" ++ (digit_char (byte / 16) ∷ digit_char (byte % 16) ∷ [])) [] result }
{
    let low = byte % 16;
    push_bytes(out, b"\\u00")?;
    push_byte(out, b'0' + byte / 16)?;
    push_byte(
        out,
        if low < 10 {
            b'0' + low
        } else {
            b'a' - 10 + low
        },
    )
}

// Appends a byte of a text, escaped where JSON wants it.
fn push_escaped(out: &mut Vec<u8>, byte: u8) -> Result<(), Unwritten>
    ensures { Wrote out.old.items out.new.items (escaped byte) [] result }
{
    match byte {
        b'"' => push_bytes(out, b"\\\""),
        b'\\' => push_bytes(out, b"\\\\"),
        8 => push_bytes(out, b"\\b"),
        b'\t' => push_bytes(out, b"\\t"),
        b'\n' => push_bytes(out, b"\\n"),
        12 => push_bytes(out, b"\\f"),
        b'\r' => push_bytes(out, b"\\r"),
        0..32 => push_control(out, byte),
        _ => push_byte(out, byte),
    }
}

// Appends the bytes of a text, escaped where JSON wants it.
fn push_all_escaped(out: &mut Vec<u8>, bytes: &[u8]) -> Result<(), Unwritten>
    ensures { Wrote out.old.items out.new.items (flat_map escaped bytes.now) [] result }
{
    for byte in bytes {
        push_escaped(out, *byte)?;
    }
    Ok(())
}

/// Appends the text between quotes.
pub fn push_quoted(out: &mut Vec<u8>, bytes: &[u8]) -> Result<(), Unwritten>
    ensures { Wrote out.old.items out.new.items (quoted bytes.now) [] result }
{
    push_bytes(out, b"\"")?;
    push_all_escaped(out, bytes)?;
    push_bytes(out, b"\"")
}

/// Appends the character between quotes.
pub fn push_character(out: &mut Vec<u8>, character: char) -> Result<(), Unwritten>
    ensures { Wrote out.old.items out.new.items (quoted (encode_utf8 character)) [] result }
{
    push_quoted(out, character.encode_utf8(&mut [0; 4]).as_bytes())
}

/// Appends the bytes of the character.
pub fn push_plain_character(out: &mut Vec<u8>, character: char) -> Result<(), Unwritten>
    ensures { Wrote out.old.items out.new.items (encode_utf8 character) [] result }
{
    push_bytes(out, character.encode_utf8(&mut [0; 4]).as_bytes())
}

/// Appends the text between quotes.
///
/// # Errors
/// `NotText` if the bytes are not UTF-8; then nothing is appended. `Memory`.
pub fn push_text(out: &mut Vec<u8>, bytes: &[u8]) -> Result<(), Unwritten>
    ensures { Wrote out.old.items out.new.items (quoted (text_bytes (text_row bytes.now))) (text_flaws (text_bytes (text_row bytes.now))) result }
{
    match as_text(bytes) {
        Ok(_) => push_quoted(out, bytes),
        Err(_) => Err(Unwritten::NotText),
    }
}

/// Appends the bytes of the text.
///
/// # Errors
/// `NotText` if the bytes are not UTF-8; then nothing is appended. `Memory`.
pub fn push_plain_text(out: &mut Vec<u8>, bytes: &[u8]) -> Result<(), Unwritten>
    ensures { Wrote out.old.items out.new.items (text_bytes (text_row bytes.now)) (text_flaws (text_bytes (text_row bytes.now))) result }
{
    match as_text(bytes) {
        Ok(_) => push_bytes(out, bytes),
        Err(_why) => Err(Unwritten::NotText),
    }
}

/// Appends `true` or `false`.
pub fn push_truth(out: &mut Vec<u8>, truth: bool) -> Result<(), Unwritten>
    ensures { Wrote out.old.items out.new.items (truth_json truth) [] result }
{
    push_bytes(out, if truth { b"true" } else { b"false" })
}

/// Appends the seconds and nanoseconds of a span of time.
pub fn push_duration(out: &mut Vec<u8>, duration: Duration) -> Result<(), Unwritten>
    ensures { Wrote out.old.items out.new.items (duration_json (as_nanos duration / 1000000000) (as_nanos duration % 1000000000)) [] result }
{
    push_bytes(out, b"{\"secs\":")?;
    push_number(out, duration.as_secs())?;
    push_bytes(out, b",\"nanos\":")?;
    push_number(out, duration.subsec_nanos() as u64)?;
    push_bytes(out, b"}")
}
