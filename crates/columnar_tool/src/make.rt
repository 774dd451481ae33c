//! A store from lines of JSON.
ghost use Rattle.std.specs.Prelude.{◌≡◌};
ghost use Rattle.columnar_tool.specs.Makes.{Makes};
ghost use Rattle.columnar_tool.specs.Told.{Prints};

use crate::told::{no_memory, no_output, put, say};
use columnar_core::writer::WriteBytes;
use columnar_make::made::{Unmade, make_store};
use columnar_make::misfit::Misfit;
use columnar_schema::typed::Type;
use std::alloc::Global;
use std::io::{ErrorKind, Read, Write};

/// Prints the store of the rows that the lines of the input write. Returns the exit status: 1 if a line is no row of the
/// type, if the input cannot be read, or if memory or the output fails.
pub fn make_rows<I: Read, O: WriteBytes, E: Write>(
    alloc: Global,
    kind: &Type,
    input: &mut I,
    out: &mut O,
    err: &mut E,
) -> u8
    ensures { Makes kind.now.schema (I.remaining input.old) result (O.contents out.old) (O.contents out.new) }
{
    let mut text = Vec::new(alloc);
    match input.read_to_end(&mut text) {
        Ok(_) => {}
        Err(error) if error.kind() == ErrorKind::OutOfMemory => return no_memory(err),
        Err(_) => return say(err, "failed: cannot read the input", 1),
    }
    match make_store(alloc, kind, text.as_slice()) {
        Ok(store) => print_bytes(out, store.as_slice(), err),
        Err(unmade) => tell_unmade(unmade, err),
    }
}

// Prints bytes. Returns the exit status 0, or 1 if the output fails.
fn print_bytes<O: WriteBytes, E: Write>(out: &mut O, bytes: &[u8], err: &mut E) -> u8
    ensures { Prints bytes.now 0 result (O.contents out.old) (O.contents out.new) }
{
    match put(out, bytes) {
        Ok(()) => 0,
        Err(_) => no_output(err),
    }
}

// Writes why no store was made, and returns the status 1.
fn tell_unmade<E: Write>(unmade: Unmade, err: &mut E) -> u8
    ensures { result ≡ 1 }
{
    match unmade.why {
        Misfit::Memory => no_memory(err),
        why => {
            let _written = writeln!(err, "line {}: {why}", unmade.line);
            1
        }
    }
}
