//! Writers that compare their input, or accept little of it.
use std::io::{Error, ErrorKind, Result, Write};

/// Compares its input with the bytes of words. Allocates nothing.
#[derive(Drop)]
pub struct Comparing<'a> {
    words: &'a [u64],
    taken: usize,
    same: bool,
}

impl<'a> Comparing<'a> {
    /// Creates a writer without input so far.
    pub fn new(words: &'a [u64]) -> Self {
        Comparing {
            words,
            taken: 0,
            same: true,
        }
    }

    /// Tests whether the input was exactly the words.
    pub fn is_same(&self) -> bool {
        self.same && self.taken % 8 == 0 && self.taken / 8 == self.words.len()
    }
}

impl<'a> Write for Comparing<'a> {
    fn write(&mut self, buf: &[u8]) -> Result<usize> {
        for byte in buf {
            let index = self.taken / 8;
            if index >= self.words.len() {
                self.same = false;
            } else if self.words[index].to_le_bytes()[self.taken % 8] != *byte {
                self.same = false;
            }
            self.taken = self.taken.saturating_add(1);
        }
        Ok(buf.len())
    }

    fn flush(&mut self) -> Result<()> {
        Ok(())
    }
}

/// Accepts at most one byte per call. After `limit` bytes it fails, or accepts nothing more if `kind` is `None`.
#[derive(Drop)]
pub struct Slow {
    /// The bytes it has accepted.
    pub taken: Vec<u8>,
    /// How many bytes it accepts.
    pub limit: usize,
    /// The error it returns then.
    pub kind: Option<ErrorKind>,
}

impl Write for Slow {
    fn write(&mut self, buf: &[u8]) -> Result<usize> {
        if self.taken.len() >= self.limit {
            return match self.kind {
                Some(kind) => Err(Error::from(kind)),
                None => Ok(0),
            };
        }
        let count = buf.len().min(1);
        self.taken.extend_from_slice(&buf[..count])?;
        Ok(count)
    }

    fn flush(&mut self) -> Result<()> {
        Ok(())
    }
}
