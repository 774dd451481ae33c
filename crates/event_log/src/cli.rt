//! The command line of the program.
ghost use Rattle.std.specs.Prelude.{◌≡◌, ℕ, List, IfOk, OnOk, OnErr, string_bytes};
ghost use Rattle.std.specs.Io.KnownBytes.{Appends};
ghost use Rattle.columnar_bytes.specs.Accepted.{Accepts};
ghost use Rattle.columnar_core.specs.Sent.{AppendsBeginning};
ghost use Rattle.columnar_bytes.specs.Streams.{IsOneStore};
ghost use Rattle.event_log.specs.Batches.{IsBatchOf};
ghost use Rattle.event_log.specs.Lines.{IsRefused};
ghost use Rattle.event_log.specs.Told.{cut_line, foreign_line, outcome_line, refused_line};
ghost use Rattle.event_log.specs.Unread.{IfLine};
ghost use Rattle.event_log.specs.Uses.{use_of, Answered, AnswersBatch, AnswersSum, AnswersUse, Ends, Given, Hears, IsObjection, MayAppend, Received, appends, repairs, sums};

use crate::batch::Batch;
use crate::lines::Reason;
use crate::reading::{Unread, text_bytes};
use crate::survey::{Foreign, Found, survey};
use crate::told::{
    Answer, Failure, Outcome, put, tell_cut, tell_foreign, tell_line, tell_survey, tell_torn,
};
use columnar_core::writer::WriteBytes;
use std::alloc::{AllocError, Global};
use std::fs::{self, OpenFile, OpenOptions};
use std::io::{Error, ErrorKind, Read, Write};
use std::rt::Files;

/// How a run of the program ended.
#[derive(Clone, Copy)]
pub struct Ended {
    /// The outcome of the command.
    pub outcome: Outcome,
    /// Whether the error output accepted the whole message. It does not change the status.
    pub heard: bool,
}

/// Executes the command, and writes to the error output why it failed.
pub fn run_words<B: Batch, R: Files, I: Read, O: Write, E: Write>(
    rt: &R,
    alloc: Global,
    words: &[String],
    input: &mut I,
    out: &mut O,
    err: &mut E,
) -> Ended
    ensures out { Ends B.format (Received R.File.contents) (use_of words.now) result.outcome (O.contents out.old) (O.contents out.new) }
    ensures err { Hears (outcome_line result.outcome) result.heard (E.contents err.old) (E.contents err.new) }
{
    let outcome = do_words::<B, _, _, _>(rt, alloc, words, input, out);
    let heard = put(err, outcome.line()).is_ok();
    Ended { outcome, heard }
}

// Executes the command.
fn do_words<B: Batch, R: Files, I: Read, O: Write>(
    rt: &R,
    alloc: Global,
    words: &[String],
    input: &mut I,
    out: &mut O,
) -> Outcome
    ensures { Ends B.format (Received R.File.contents) (use_of words.now) result (O.contents out.old) (O.contents out.new) }
{
    let Some(answer) = answer_words::<B, _, _>(rt, alloc, words, input) else {
        return Outcome::Misused;
    };
    match give(answer, out) {
        Ok(status) => Outcome::Done(status),
        Err(failure) => Outcome::Failed(failure),
    }
}

// Returns the answer to the command; `None` if there is no such command.
fn answer_words<B: Batch, R: Files, I: Read>(
    rt: &R,
    alloc: Global,
    words: &[String],
    input: &mut I,
) -> Option<Result<Answer, Failure>>
    ensures { Answered B.format (Received R.File.contents) (use_of words.now) result }
{
    match words {
        [word, path] if word.as_str() == "append" => {
            Some(append::<B, _, _>(rt, alloc, path.as_str(), input))
        }
        [word, path] if word.as_str() == "sum" => Some(sum::<B, _>(rt, alloc, path.as_str())),
        [word, path] if word.as_str() == "repair" => Some(repair::<B, _>(rt, alloc, path.as_str())),
        _ => None,
    }
}

// Writes the text of an answer to the output, and returns its status.
fn give<O: WriteBytes>(answer: Result<Answer, Failure>, out: &mut O) -> Result<u8, Failure>
    ensures { Given answer result (O.contents out.old) (O.contents out.new) }
{
    let answer = answer?;
    put(out, answer.text.as_str())?;
    Ok(answer.status)
}

impl From<AllocError> for Failure {
    fn from(_error: AllocError) -> Failure {
        Failure::Memory
    }
}

// Returns why something could not be read.
fn unread(error: Error) -> Failure {
    if error.kind() == ErrorKind::OutOfMemory {
        Failure::Memory
    } else {
        Failure::Input
    }
}

// Reads all bytes from a reader.
fn all_bytes<I: Read>(alloc: Global, input: &mut I) -> Result<Vec<u8>, Failure> {
    let mut bytes = Vec::new(alloc);
    match input.read_to_end(&mut bytes) {
        Ok(_) => Ok(bytes),
        Err(error) => Err(unread(error)),
    }
}

// Reads all bytes of a file that is not a device.
fn file_bytes<F: Read + OpenFile>(alloc: Global, file: &mut F) -> Result<Vec<u8>, Failure> {
    match file.metadata() {
        Ok(metadata) if metadata.is_file() => all_bytes(alloc, file),
        _ => Err(Failure::Input),
    }
}

// Reads all bytes of the log.
fn log_bytes<R: Files>(rt: &R, alloc: Global, path: &str) -> Result<Vec<u8>, Failure> {
    match fs::open(rt, path) {
        Ok(mut file) => file_bytes(alloc, &mut file),
        Err(error) => Err(unread(error)),
    }
}

// Reads all bytes of the log; none if there is no such file.
fn old_bytes<R: Files>(rt: &R, alloc: Global, path: &str) -> Result<Vec<u8>, Failure> {
    match fs::open(rt, path) {
        Ok(mut file) => file_bytes(alloc, &mut file),
        Err(error) if error.kind() == ErrorKind::NotFound => Ok(Vec::new(alloc)),
        Err(error) => Err(unread(error)),
    }
}

// Counts the batches, and the events of each level.
fn sum<B: Batch, R: Files>(rt: &R, alloc: Global, path: &str) -> Result<Answer, Failure>
    ensures { IfOk result (λ answer. AnswersUse B.format (Received R.File.contents) sums answer.status (string_bytes answer.text)) }
{
    let bytes = log_bytes(rt, alloc, path)?;
    sum_bytes::<B>(alloc, bytes.as_slice())
}

// Reports what the bytes of a log contain: status 3 if their tail is torn, status 1 if they are not a log.
fn sum_bytes<B: Batch>(alloc: Global, bytes: &[u8]) -> Result<Answer, Failure>
    ensures { IfOk result (λ answer. AnswersSum B.format bytes.now answer.status (string_bytes answer.text)) }
{
    match survey::<B>(alloc, bytes) {
        Ok(found) => {
            let text = tell_survey(alloc, found)?;
            let status = if found.torn == 0 { 0 } else { 3 };
            Ok(Answer { status, text })
        }
        Err(foreign) => refusal(alloc, foreign),
    }
}

// Returns the answer for bytes that are not a log.
fn refusal(alloc: Global, foreign: Foreign) -> Result<Answer, Failure>
    ensures { IfOk result (λ answer. (answer.status ≡ 1) × (string_bytes answer.text ≡ foreign_line foreign)) }
{
    let text = tell_foreign(alloc, foreign)?;
    Ok(Answer { status: 1, text })
}

// Returns the answer for a line that is not an event.
fn line_refusal(alloc: Global, number: u64, reason: Reason) -> Result<Answer, Failure>
    ensures { IfOk result (λ answer. (answer.status ≡ 1) × (string_bytes answer.text ≡ refused_line number reason)) }
{
    let text = tell_line(alloc, number, reason)?;
    Ok(Answer { status: 1, text })
}

// Appends a batch of the input's lines. Leaves the log untouched if a line is not an event, or if its tail is torn.
fn append<B: Batch, R: Files, I: Read>(
    rt: &R,
    alloc: Global,
    path: &str,
    input: &mut I,
) -> Result<Answer, Failure>
    ensures { IfOk result (λ answer. AnswersUse B.format (Received R.File.contents) appends answer.status (string_bytes answer.text)) }
{
    let bytes = all_bytes(alloc, input)?;
    match batch_bytes::<B>(alloc, bytes.as_slice()) {
        Ok(batch) => append_batch::<B, _>(rt, alloc, path, batch.as_slice()),
        Err(Unread::Failed(failure)) => Err(failure),
        Err(Unread::Line(number, reason)) => line_refusal(alloc, number, reason),
    }
}

// Returns the bytes of the batch of the input's lines.
fn batch_bytes<B: Batch>(alloc: Global, input: &[u8]) -> Result<Vec<u8>, Unread>
    ensures ok { IfOk result (λ bytes. IsBatchOf B.format input.now bytes.items) }
    ensures refused { IfLine result (IsRefused input.now) }
{
    match str::from_utf8(input) {
        Ok(text) => text_bytes::<B>(alloc, text),
        Err(_) => Err(Unread::Failed(Failure::Utf8)),
    }
}

// Appends the bytes of a batch if the log has no torn tail.
fn append_batch<B: Batch, R: Files>(
    rt: &R,
    alloc: Global,
    path: &str,
    batch: &[u8],
) -> Result<Answer, Failure>
    requires accepted { Accepts B.format batch.now }
    requires one { IsOneStore batch.now }
    ensures { IfOk result (λ answer. (old : List ℕ) × AnswersBatch B.format (Received R.File.contents) old batch.now answer.status (string_bytes answer.text)) }
{
    let old = old_bytes(rt, alloc, path)?;
    if let Some(answer) = objection::<B>(alloc, old.as_slice())? {
        return Ok(answer);
    }
    send_to_log::<B, _>(rt, path, batch)?;
    Ok(Answer {
        status: 0,
        text: String::new(alloc),
    })
}

// Returns why a batch cannot be appended to a log with these bytes; `None` if they are whole batches.
fn objection<B: Batch>(alloc: Global, old: &[u8]) -> Result<Option<Answer>, Failure>
    ensures { IfOk result (MayAppend B.format old.now) }
{
    match survey::<B>(alloc, old) {
        Ok(found) => objection_to(alloc, found),
        Err(foreign) => Ok(Some(refusal(alloc, foreign)?)),
    }
}

// Returns why a batch cannot be appended to a log with these contents.
fn objection_to(alloc: Global, found: Found) -> Result<Option<Answer>, Failure>
    ensures { IfOk result (IsObjection found) }
{
    if found.torn == 0 {
        return Ok(None);
    }
    let text = tell_torn(alloc, found.torn)?;
    Ok(Some(Answer { status: 3, text }))
}

// Appends bytes to the log; creates it if it does not exist.
fn send_to_log<B: Batch, R: Files>(rt: &R, path: &str, batch: &[u8]) -> Result<(), Failure>
    requires accepted { Accepts B.format batch.now }
    requires one { IsOneStore batch.now }
    ensures { OnOk result (Received R.File.contents batch.now) }
{
    match OpenOptions::new().append(true).create(true).open(rt, path) {
        Ok(mut file) => send::<B, _>(&mut file, batch),
        Err(_) => Err(Failure::Output),
    }
}

// Writes all bytes.
fn send<B: Batch, F: WriteBytes>(file: &mut F, bytes: &[u8]) -> Result<(), Failure>
    requires accepted { Accepts B.format bytes.now }
    requires one { IsOneStore bytes.now }
    ensures ok { OnOk result (Appends (F.contents file.old) (F.contents file.new) bytes.now) }
    ensures err { OnErr result (AppendsBeginning (F.contents file.old) (F.contents file.new) bytes.now) }
    ensures received { OnOk result (Received F.contents bytes.now) }
{
    match file.write_all(bytes) {
        Ok(()) => Ok(()),
        Err(_) => Err(Failure::Output),
    }
}

// Truncates a torn tail.
fn repair<B: Batch, R: Files>(rt: &R, alloc: Global, path: &str) -> Result<Answer, Failure>
    ensures { IfOk result (λ answer. AnswersUse B.format (Received R.File.contents) repairs answer.status (string_bytes answer.text)) }
{
    let bytes = log_bytes(rt, alloc, path)?;
    match survey::<B>(alloc, bytes.as_slice()) {
        Ok(found) => cut(rt, alloc, path, found),
        Err(foreign) => refusal(alloc, foreign),
    }
}

// Truncates the torn tail. It builds its message first, so that it changes nothing if that allocation fails.
fn cut<R: Files>(rt: &R, alloc: Global, path: &str, found: Found) -> Result<Answer, Failure>
    ensures { IfOk result (λ answer. (answer.status ≡ 0) × (string_bytes answer.text ≡ cut_line found.torn)) }
{
    let text = tell_cut(alloc, found.torn)?;
    cut_log(rt, path, found)?;
    Ok(Answer { status: 0, text })
}

// Truncates the log after its whole batches, if anything follows them.
fn cut_log<R: Files>(rt: &R, path: &str, found: Found) -> Result<(), Failure> {
    if found.torn == 0 {
        return Ok(());
    }
    match OpenOptions::new().write(true).open(rt, path) {
        Ok(file) => cut_file(&file, found.whole),
        Err(_) => Err(Failure::Output),
    }
}

// Truncates a file to this number of bytes.
fn cut_file<F: OpenFile>(file: &F, whole: usize) -> Result<(), Failure> {
    match file.set_len(whole as u64) {
        Ok(()) => Ok(()),
        Err(_) => Err(Failure::Output),
    }
}
