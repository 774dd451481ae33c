//! Writers of bytes.
ghost use Rattle.std.specs.Prelude.{ℕ, List, Option, OnOk, OnErr};
ghost use Rattle.std.specs.Io.KnownBytes.{Appends};
ghost use Rattle.columnar_core.specs.Sent.{AppendsBeginning};

use std::io::{self, Error, ErrorKind, Write};

/// Takes bytes, and may fail part of the way.
pub trait WriteBytes {
    /// Why a write failed.
    type Error: Drop;

    // the bytes that the writer holds, if they are known
    ghost contents: { Self → Option (List ℕ) };

    /// Writes all bytes.
    ///
    /// # Errors
    /// The writer's error. A beginning of the bytes was then written, but not all; nothing more is known of it. So a
    /// write of no bytes never fails.
    fn write_all(&mut self, bytes: &[u8]) -> Result<(), Self::Error>
        ensures ok { OnOk result (Appends (contents self.old) (contents self.new) bytes.now) }
        ensures err { OnErr result (AppendsBeginning (contents self.old) (contents self.new) bytes.now) };
}

/// Calls `write` until all bytes are taken. Any error ends it, also an interruption. A call that takes no bytes ends it
/// with an error of kind `WriteZero`.
impl<W: Write> WriteBytes for W {
    type Error = Error;

    ghost contents = { W.contents };

    fn write_all(&mut self, bytes: &[u8]) -> io::Result<()> {
        let mut rest = bytes;
        while !rest.is_empty() {
            let count = Write::write(self, rest)?;
            if count == 0 {
                return Err(Error::from(ErrorKind::WriteZero));
            }
            rest = &rest[count..];
        }
        Ok(())
    }
}
