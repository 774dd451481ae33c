//! Strings as text between quotes.
ghost use Rattle.std.specs.Fmt.{debug_str};

use std::fmt::{self, Debug, Display, Formatter, Write};

/// The bytes of a string, written as text. `{}` and `{:?}` write UTF-8 as `{:?}` writes a text, such as `"cc"`, and other
/// bytes as a byte string, such as `b"c\xff"`.
#[derive(Clone, Copy)]
pub struct Quoted<'x>(pub &'x [u8]);

impl<'x> Debug for Quoted<'x> {
    ghost debug_output = { λ q. debug_str q.0.now };

    fn fmt<W: Write>(&self, f: &mut Formatter<W>) -> fmt::Result {
        match str::from_utf8(self.0) {
            Ok(text) => Debug::fmt(&text, f),
            Err(_) => write!(f, "b\"{}\"", self.0.escape_ascii()),
        }
    }
}

impl<'x> Display for Quoted<'x> {
    ghost output = { λ q. debug_str q.0.now };

    fn fmt<W: Write>(&self, f: &mut Formatter<W>) -> fmt::Result {
        Debug::fmt(self, f)
    }
}
