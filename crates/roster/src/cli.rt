//! The command line of the program.
ghost use Rattle.std.specs.Prelude.{◌≡◌, ◌∷◌, ℕ, List, [], IfOk, OnOk, OnErr, IsTrue, string_bytes};
ghost use Rattle.std.specs.Io.KnownBytes.{Appends};
ghost use Rattle.columnar.specs.Accepted.{Accepts};
ghost use Rattle.columnar.specs.Format.{IsSound, representable};
ghost use Rattle.columnar.specs.Frame.{framed_slices};
ghost use Rattle.columnar.specs.Row.{number};
ghost use Rattle.columnar.specs.Sent.{AppendsBeginning};
ghost use Rattle.columnar.specs.Stashes.{stash_content};
ghost use Rattle.roster.specs.Told.{outcome_line, seven_lines};
ghost use Rattle.roster.specs.Uses.{use_of, Answered, Ends, Given, Hears, Judges, ReceivedStore, ShowsAges};

use crate::group::Group;
use crate::roster::{Columns, OldColumns, Person, Unbuilt, bytes_of, everyone, tell_view};
use crate::told::{Answer, Failure, Outcome, put, tell_column, tell_fault, tell_rows};
use columnar::bytes::WriteBytes;
use columnar::bytes::indexed::encode;
use columnar::bytes::stash::Stash;
use columnar::common::Earlier;
use columnar::fault::{EitherFault, GrowError};
use columnar::{Column, ContainerBytes, Len, Push, Stored};
use std::alloc::{AllocError, Global};
use std::fs;
use std::io::{ErrorKind, Read, Write};
use std::rt::Files;

/// How a run of the program ended.
#[derive(Clone, Copy)]
pub struct Ended {
    /// The outcome of the command.
    pub outcome: Outcome,
    /// Whether the error output accepted the whole message. It does not change the status.
    pub heard: bool,
}

/// Executes the command, and writes to the error output why it failed.
pub fn run_words<R: Files, O: Write, E: Write>(
    rt: &R,
    alloc: Global,
    words: &[String],
    out: &mut O,
    err: &mut E,
) -> Ended
    ensures out { Ends ⟦<Columns as Column>⟧.format ⟦<OldColumns as Column>⟧.format (ReceivedStore R.File.contents ⟦<Columns as Column>⟧.format) (use_of words.now) result.outcome (O.contents out.old) (O.contents out.new) }
    ensures err { Hears (outcome_line result.outcome) result.heard (E.contents err.old) (E.contents err.new) }
{
    let outcome = do_words(rt, alloc, words, out);
    let heard = put(err, outcome.line()).is_ok();
    Ended { outcome, heard }
}

// Executes the command.
fn do_words<R: Files, O: Write>(rt: &R, alloc: Global, words: &[String], out: &mut O) -> Outcome
    ensures { Ends ⟦<Columns as Column>⟧.format ⟦<OldColumns as Column>⟧.format (ReceivedStore R.File.contents ⟦<Columns as Column>⟧.format) (use_of words.now) result (O.contents out.old) (O.contents out.new) }
{
    let Some(answer) = answer_words(rt, alloc, words) else {
        return Outcome::Misused;
    };
    match give(answer, out) {
        Ok(status) => Outcome::Done(status),
        Err(failure) => Outcome::Failed(failure),
    }
}

// Returns the answer to the command; `None` if there is no such command.
fn answer_words<R: Files>(
    rt: &R,
    alloc: Global,
    words: &[String],
) -> Option<Result<Answer, Failure>>
    ensures { Answered ⟦<Columns as Column>⟧.format ⟦<OldColumns as Column>⟧.format (ReceivedStore R.File.contents ⟦<Columns as Column>⟧.format) (use_of words.now) result }
{
    match words {
        [] => Some(show(alloc)),
        [word] if word.as_str() == "first" => Some(first(alloc)),
        [word, path] if word.as_str() == "write" => Some(write_roster(rt, alloc, path.as_str())),
        [word, path] if word.as_str() == "check" => Some(check(rt, alloc, path.as_str())),
        _ => None,
    }
}

// Writes the text of an answer to the output, and returns its status.
fn give<O: WriteBytes>(answer: Result<Answer, Failure>, out: &mut O) -> Result<u8, Failure>
    ensures { Given answer result (O.contents out.old) (O.contents out.new) }
{
    let answer = answer?;
    put(out, answer.text.as_str())?;
    Ok(answer.status)
}

impl From<AllocError> for Failure {
    fn from(_error: AllocError) -> Failure {
        Failure::Memory
    }
}

impl From<Unbuilt> for Failure {
    fn from(error: Unbuilt) -> Failure {
        match error {
            Unbuilt::Memory => Failure::Memory,
            Unbuilt::TooLong => Failure::TooLong,
        }
    }
}

// Returns the bytes of the roster; they are accepted as its columns.
fn roster_bytes(alloc: Global) -> Result<Vec<u8>, Failure>
    ensures { IfOk result (λ bytes. Accepts ⟦<Columns as Column>⟧.format bytes.items) }
{
    let groups = everyone(alloc)?;
    Ok(bytes_of::<Group<Person>>(alloc, groups.as_slice())?)
}

// Opens accepted bytes as a stash.
fn stash_of<C: Stored>(alloc: Global, bytes: Vec<u8>) -> Stash<C, Vec<u8>>
    requires representable { IsTrue (representable C.format) }
    requires accepted { Accepts C.format bytes.items }
    ensures content { stash_content result ≡ C.format.build (framed_slices bytes.items) }
    ensures sound { IsSound C.format (stash_content result) }
{
    match Stash::try_from_bytes(alloc, bytes) {
        Ok(opened) => opened,
        Err(_) => unreachable!(),
    }
}

// Reports the slices of the roster and the sum of the ages, read back from its bytes.
fn show(alloc: Global) -> Result<Answer, Failure>
    ensures { IfOk result (λ answer. (answer.status ≡ 0) × ShowsAges ⟦<Columns as Column>⟧.format (string_bytes answer.text)) }
{
    let opened = stash_of::<Columns>(alloc, roster_bytes(alloc)?);
    let text = tell_view(alloc, &opened.borrow())?;
    Ok(Answer { status: 0, text })
}

// Writes the roster's bytes to a file. Creates no file if building them fails.
fn write_roster<R: Files>(rt: &R, alloc: Global, path: &str) -> Result<Answer, Failure>
    ensures { IfOk result (λ answer. (answer.status ≡ 0) × (string_bytes answer.text ≡ []) × ReceivedStore R.File.contents ⟦<Columns as Column>⟧.format) }
{
    let bytes = roster_bytes(alloc)?;
    write_file(rt, path, bytes.as_slice())?;
    Ok(Answer {
        status: 0,
        text: String::new(alloc),
    })
}

// Creates a file of bytes that are accepted as the roster's columns.
fn write_file<R: Files>(rt: &R, path: &str, bytes: &[u8]) -> Result<(), Failure>
    requires { Accepts ⟦<Columns as Column>⟧.format bytes.now }
    ensures { OnOk result (ReceivedStore R.File.contents ⟦<Columns as Column>⟧.format) }
{
    match fs::create(rt, path) {
        Ok(mut file) => send_store(&mut file, bytes),
        Err(_) => Err(Failure::Output),
    }
}

// Writes bytes that are accepted as the roster's columns to a file.
fn send_store<F: WriteBytes>(file: &mut F, bytes: &[u8]) -> Result<(), Failure>
    requires { Accepts ⟦<Columns as Column>⟧.format bytes.now }
    ensures ok { OnOk result (Appends (F.contents file.old) (F.contents file.new) bytes.now) }
    ensures err { OnErr result (AppendsBeginning (F.contents file.old) (F.contents file.new) bytes.now) }
    ensures received { OnOk result (ReceivedStore F.contents ⟦<Columns as Column>⟧.format) }
{
    match file.write_all(bytes) {
        Ok(()) => Ok(()),
        Err(_) => Err(Failure::Output),
    }
}

// Reads all bytes of a file.
fn file_bytes<R: Files>(rt: &R, alloc: Global, path: &str) -> Result<Vec<u8>, Failure> {
    let mut bytes = Vec::new(alloc);
    match fs::open(rt, path) {
        Ok(mut file) => match file.read_to_end(&mut bytes) {
            Ok(_) => Ok(bytes),
            Err(error) => Err(if error.kind() == ErrorKind::OutOfMemory {
                Failure::Memory
            } else {
                Failure::Input
            }),
        },
        Err(_) => Err(Failure::Input),
    }
}

// Reports the number of rows of a file, or the first broken rule and its slice.
fn check<R: Files>(rt: &R, alloc: Global, path: &str) -> Result<Answer, Failure>
    ensures { IfOk result (λ answer. (bytes : List ℕ) × Judges ⟦<Columns as Column>⟧.format ⟦<OldColumns as Column>⟧.format bytes answer.status (string_bytes answer.text)) }
{
    let bytes = file_bytes(rt, alloc, path)?;
    judge::<Columns>(alloc, bytes)
}

// Reports the number of rows, with status 0, if the bytes are accepted as the columns or as their earlier form;
// otherwise the first broken rule, with status 1.
fn judge<C: ContainerBytes + Earlier + Len + Drop>(
    alloc: Global,
    bytes: Vec<u8>,
) -> Result<Answer, Failure>
    requires new { IsTrue (representable C.format) }
    requires old { IsTrue (representable C.Old.format) }
    ensures { IfOk result (λ answer. Judges C.format C.Old.format bytes.items answer.status (string_bytes answer.text)) }
{
    match Stash::<C, Vec<u8>>::try_from_either(alloc, bytes) {
        Ok(opened) => {
            let text = tell_rows(alloc, opened.len())?;
            Ok(Answer { status: 0, text })
        }
        Err(EitherFault::Store(fault)) => {
            let text = tell_fault(alloc, fault.number(), fault.slice())?;
            Ok(Answer { status: 1, text })
        }
        Err(EitherFault::Grow(GrowError::Memory)) => Err(Failure::Memory),
        Err(EitherFault::Grow(_)) => Err(Failure::TooLong),
    }
}

// Reports on a column of one number: its words, and its rows after its bytes were opened.
fn first(alloc: Global) -> Result<Answer, Failure>
    ensures { IfOk result (λ answer. (answer.status ≡ 0) × (string_bytes answer.text ≡ seven_lines)) }
{
    let (words, bytes) = written_seven(alloc)?;
    let opened = stash_of::<Vec<u64>>(alloc, bytes);
    let text = tell_column(alloc, words.as_slice(), opened.len())?;
    Ok(Answer { status: 0, text })
}

// Returns the words and the bytes of a column to which 7 was pushed. The bytes are accepted, and have the one row 7.
fn written_seven(alloc: Global) -> Result<(Vec<u64>, Vec<u8>), Failure>
    ensures words { IfOk result (λ r. r.0.items ≡ 16 ∷ 24 ∷ 7 ∷ []) }
    ensures accepted { IfOk result (λ r. Accepts ⟦<Vec<u64> as Column>⟧.format r.1.items) }
    ensures rows { IfOk result (λ r. ⟦<Vec<u64> as Column>⟧.format.rows (⟦<Vec<u64> as Column>⟧.format.build (framed_slices r.1.items)) ≡ number 7 ∷ []) }
{
    let mut stash = Stash::<Vec<u64>, Vec<u8>>::empty(alloc);
    if stash.push(7u64).is_err() {
        return Err(Failure::Memory);
    }
    let mut words = Vec::new(alloc);
    if encode(&mut words, &stash.borrow()).is_err() {
        return Err(Failure::Memory);
    }
    let mut bytes = Vec::new(alloc);
    if stash.write_bytes(&mut bytes).is_err() {
        return Err(Failure::Memory);
    }
    Ok((words, bytes))
}
