//! Texts for the outputs, and why the program fails.
ghost use Rattle.std.specs.Prelude.{◌≡◌, IfErr, OnOk, OnErr};
ghost use Rattle.std.specs.Io.KnownBytes.{Appends};
ghost use Rattle.columnar_core.specs.Sent.{AppendsBeginning};
ghost use Rattle.columnar_tool.specs.Told.{Prints};

use columnar_core::writer::WriteBytes;
use std::alloc::AllocError;
use std::io::Write;

/// Why the program failed.
#[derive(Clone, Copy, PartialEq, Drop)]
pub enum Failure {
    /// An allocation failed.
    Memory,
    /// The file could not be read.
    Input,
    /// The output could not be written.
    Output,
}

impl From<AllocError> for Failure {
    fn from(_error: AllocError) -> Failure {
        Failure::Memory
    }
}

/// Writes all bytes.
///
/// # Errors
/// `Output`: a beginning of the bytes was written, but not all.
pub fn put<O: WriteBytes>(out: &mut O, bytes: &[u8]) -> Result<(), Failure>
    ensures printed { OnOk result (Appends (O.contents out.old) (O.contents out.new) bytes.now) }
    ensures begun { OnErr result (AppendsBeginning (O.contents out.old) (O.contents out.new) bytes.now) }
    ensures failed { IfErr result (λ e. e ≡ Failure.Output) }
{
    match out.write_all(bytes) {
        Ok(()) => Ok(()),
        Err(_) => Err(Failure::Output),
    }
}

/// Prints a text. Returns the exit status 0, or 1 if the output fails.
pub fn print<O: WriteBytes, E: Write>(out: &mut O, text: &str, err: &mut E) -> u8
    ensures { Prints text.now 0 result (O.contents out.old) (O.contents out.new) }
{
    print_with(out, text, 0, err)
}

/// Prints a text. Returns this status, or 1 if the output fails.
pub fn print_with<O: WriteBytes, E: Write>(out: &mut O, text: &str, status: u8, err: &mut E) -> u8
    ensures { Prints text.now status result (O.contents out.old) (O.contents out.new) }
{
    match put(out, text.as_bytes()) {
        Ok(()) => status,
        Err(_) => no_output(err),
    }
}

/// Writes to standard error and returns the status; a write error does not change it.
pub fn say<E: Write>(err: &mut E, text: &str, status: u8) -> u8
    ensures { result ≡ status }
{
    let _written = writeln!(err, "{text}");
    status
}

/// Writes that an allocation failed, and returns the status 1.
pub fn no_memory<E: Write>(err: &mut E) -> u8
    ensures { result ≡ 1 }
{
    say(err, "failed: no memory", 1)
}

/// Writes that the output failed, and returns the status 1.
pub fn no_output<E: Write>(err: &mut E) -> u8
    ensures { result ≡ 1 }
{
    say(err, "failed: cannot write", 1)
}

/// Writes that a file cannot be read, and returns the status 1.
pub fn cannot_read<E: Write>(path: &str, err: &mut E) -> u8
    ensures { result ≡ 1 }
{
    let _written = writeln!(err, "{path}: cannot read");
    1
}
