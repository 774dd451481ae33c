//! The messages of the program, and why it fails.
ghost use Rattle.std.specs.Prelude.{◌≡◌, IfOk, OnOk, OnErr, string_bytes};
ghost use Rattle.std.specs.Io.KnownBytes.{Appends};
ghost use Rattle.columnar_core.specs.Sent.{AppendsBeginning};
ghost use Rattle.event_log.specs.Told.{batch_line, counts_lines, cut_line, failure_line, foreign_line, found_lines, outcome_line, outcome_status, refused_line, torn_line};

use crate::counts::Counts;
use crate::lines::Reason;
use crate::survey::{Foreign, Found};
use columnar_core::writer::WriteBytes;
use std::alloc::{AllocError, Global};

/// The answer to a command: the exit status, and the text for the output.
#[derive(Drop)]
pub struct Answer {
    pub status: u8,
    pub text: String,
}

/// Why a command failed.
#[derive(Clone, Copy)]
pub enum Failure {
    /// An allocation failed.
    Memory,
    /// A column, or the batch, would exceed its maximum length.
    TooLong,
    /// The input, or the log, could not be read.
    Input,
    /// The input is not UTF-8.
    Utf8,
    /// The output, or the log, could not be written.
    Output,
}

impl Failure {
    /// Returns the message for the failure.
    pub fn line(self) -> &'static str
        ensures { result.now ≡ failure_line self }
    {
        match self {
            Failure::Memory => "failed: no memory\n",
            Failure::TooLong => "failed: too long\n",
            Failure::Input => "failed: cannot read\n",
            Failure::Utf8 => "failed: the input is not UTF-8\n",
            Failure::Output => "failed: cannot write\n",
        }
    }
}

/// The outcome of a command.
#[derive(Clone, Copy)]
pub enum Outcome {
    /// It succeeded, with this status.
    Done(u8),
    /// It failed.
    Failed(Failure),
    /// There is no such command.
    Misused,
}

impl Outcome {
    /// Returns the message for the error output; empty if the command succeeded.
    pub fn line(self) -> &'static str
        ensures { result.now ≡ outcome_line self }
    {
        match self {
            Outcome::Done(_) => "",
            Outcome::Failed(failure) => failure.line(),
            Outcome::Misused => "usage: event_log append FILE | sum FILE | repair FILE\n",
        }
    }

    /// Returns the exit status: 1 for a failure, 2 for a misuse.
    pub fn status(self) -> u8
        ensures { result ≡ outcome_status self }
    {
        match self {
            Outcome::Done(status) => status,
            Outcome::Failed(_) => 1,
            Outcome::Misused => 2,
        }
    }
}

/// Writes the whole text. On an error, only a proper prefix of it was written.
pub fn put<O: WriteBytes>(out: &mut O, text: &str) -> Result<(), Failure>
    ensures ok { OnOk result (Appends (O.contents out.old) (O.contents out.new) text.now) }
    ensures err { OnErr result (AppendsBeginning (O.contents out.old) (O.contents out.new) text.now) }
{
    match out.write_all(text.as_bytes()) {
        Ok(()) => Ok(()),
        Err(_) => Err(Failure::Output),
    }
}

/// Returns the message for a line that is not an event.
pub fn tell_line(alloc: Global, number: u64, reason: Reason) -> Result<String, AllocError>
    ensures { IfOk result (λ text. string_bytes text ≡ refused_line number reason) }
{
    format!(in alloc; "refused: line {number}: {}\n", reason.words())
}

/// Returns the message for bytes that are not a log.
pub fn tell_foreign(alloc: Global, foreign: Foreign) -> Result<String, AllocError>
    ensures { IfOk result (λ text. string_bytes text ≡ foreign_line foreign) }
{
    match foreign {
        Foreign::Store(number, fault) => tell_fault(alloc, number, fault.number(), fault.slice()),
        Foreign::Tail(begin) => format!(in alloc; "refused: no batch begins at byte {begin}\n"),
    }
}

// Returns the message for the first rule that a store breaks, and its slice.
fn tell_fault(alloc: Global, number: u64, rule: u8, slice: usize) -> Result<String, AllocError>
    ensures { IfOk result (λ text. string_bytes text ≡ batch_line number rule slice) }
{
    format!(in alloc; "refused: batch {number}: {rule} in slice {slice}\n")
}

/// Returns the message that refuses to append to a log with a torn tail.
pub fn tell_torn(alloc: Global, torn: usize) -> Result<String, AllocError>
    ensures { IfOk result (λ text. string_bytes text ≡ torn_line torn) }
{
    format!(in alloc; "refused: a torn tail of {torn} bytes: event_log repair cuts it\n")
}

/// Returns the message that says how many bytes were cut.
pub fn tell_cut(alloc: Global, torn: usize) -> Result<String, AllocError>
    ensures { IfOk result (λ text. string_bytes text ≡ cut_line torn) }
{
    format!(in alloc; "cut: {torn} bytes\n")
}

/// Returns the lines that report the contents of a log.
pub fn tell_survey(alloc: Global, found: Found) -> Result<String, AllocError>
    ensures { IfOk result (λ text. string_bytes text ≡ found_lines found) }
{
    let mut text = tell_counts(alloc, found.batches, found.counts)?;
    if found.torn > 0 {
        writeln!(text, "torn tail: {} bytes", found.torn)?;
    }
    Ok(text)
}

// Returns the number of batches, and of the events of each level, as text.
fn tell_counts(alloc: Global, batches: u64, counts: Counts) -> Result<String, AllocError>
    ensures { IfOk result (λ text. string_bytes text ≡ counts_lines batches counts) }
{
    let mut text = String::new(alloc);
    writeln!(text, "batches: {batches}")?;
    writeln!(text, "debug: {}", counts.debug)?;
    writeln!(text, "info: {}", counts.info)?;
    writeln!(text, "warn: {}", counts.warn)?;
    writeln!(text, "error: {}", counts.error)?;
    Ok(text)
}
