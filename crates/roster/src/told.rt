//! The messages of the program, and why it fails.
ghost use Rattle.std.specs.Prelude.{◌≡◌, ◌++◌, IfOk, OnOk, OnErr, string_bytes};
ghost use Rattle.std.specs.Io.KnownBytes.{Appends};
ghost use Rattle.columnar.specs.Sent.{AppendsBeginning};
ghost use Rattle.roster.specs.Told.{rows_line, refused_line, sum_line, words_line, failure_line, outcome_line, outcome_status};

use columnar::bytes::WriteBytes;
use std::alloc::{AllocError, Global};

/// The answer to a command: the exit status, and the text for the output.
#[derive(Drop)]
pub struct Answer {
    pub status: u8,
    pub text: String,
}

/// Why a command failed.
#[derive(Clone, Copy)]
pub enum Failure {
    /// An allocation failed.
    Memory,
    /// A column would exceed its maximum length.
    TooLong,
    /// A file could not be read.
    Input,
    /// The output, or a file, could not be written.
    Output,
}

impl Failure {
    /// Returns the message for the failure.
    pub fn line(self) -> &'static str
        ensures { result.now ≡ failure_line self }
    {
        match self {
            Failure::Memory => "failed: no memory\n",
            Failure::TooLong => "failed: too long\n",
            Failure::Input => "failed: cannot read\n",
            Failure::Output => "failed: cannot write\n",
        }
    }
}

/// The outcome of a command.
#[derive(Clone, Copy)]
pub enum Outcome {
    /// It succeeded, with this status.
    Done(u8),
    /// It failed.
    Failed(Failure),
    /// There is no such command.
    Misused,
}

impl Outcome {
    /// Returns the message for the error output; empty if the command succeeded.
    pub fn line(self) -> &'static str
        ensures { result.now ≡ outcome_line self }
    {
        match self {
            Outcome::Done(_) => "",
            Outcome::Failed(failure) => failure.line(),
            Outcome::Misused => "usage: roster [first | write PATH | check PATH]\n",
        }
    }

    /// Returns the exit status: 1 for a failure, 2 for a misuse.
    pub fn status(self) -> u8
        ensures { result ≡ outcome_status self }
    {
        match self {
            Outcome::Done(status) => status,
            Outcome::Failed(_) => 1,
            Outcome::Misused => 2,
        }
    }
}

/// Writes the whole text. On an error, only a proper prefix of it was written.
pub fn put<O: WriteBytes>(out: &mut O, text: &str) -> Result<(), Failure>
    ensures ok { OnOk result (Appends (O.contents out.old) (O.contents out.new) text.now) }
    ensures err { OnErr result (AppendsBeginning (O.contents out.old) (O.contents out.new) text.now) }
{
    match out.write_all(text.as_bytes()) {
        Ok(()) => Ok(()),
        Err(_) => Err(Failure::Output),
    }
}

/// Returns the line with the number of rows.
pub fn tell_rows(alloc: Global, count: usize) -> Result<String, AllocError>
    ensures { IfOk result (λ line. string_bytes line ≡ rows_line count) }
{
    format!(in alloc; "rows: {count}\n")
}

/// Returns the line with the first broken rule and its slice.
pub fn tell_fault(alloc: Global, rule: u8, slice: usize) -> Result<String, AllocError>
    ensures { IfOk result (λ line. string_bytes line ≡ refused_line rule slice) }
{
    format!(in alloc; "refused: {rule} in slice {slice}\n")
}

/// Returns the numbers in one line, separated by spaces.
pub fn tell_words(alloc: Global, words: &[u64]) -> Result<String, AllocError>
    ensures { IfOk result (λ line. string_bytes line ≡ words_line words.now) }
{
    let mut line = String::new(alloc);
    if let Some((first, rest)) = words.split_first() {
        write!(line, "{first}")?;
        for word in rest {
            write!(line, " {word}")?;
        }
    }
    writeln!(line)?;
    Ok(line)
}

/// Returns the words of a column in one line, and then its number of rows.
pub fn tell_column(alloc: Global, words: &[u64], rows: usize) -> Result<String, AllocError>
    ensures { IfOk result (λ text. string_bytes text ≡ words_line words.now ++ rows_line rows) }
{
    let mut text = tell_words(alloc, words)?;
    writeln!(text, "rows: {rows}")?;
    Ok(text)
}
