//! The batch of a text's lines.
ghost use Rattle.std.specs.Prelude.{◌≡◌, ◌++◌, ◌∷◌, [], map, IfOk};
ghost use Rattle.std.specs.List.{All};
ghost use Rattle.event_log.specs.Batches.{IsBatchOf};
ghost use Rattle.event_log.specs.Lines.{IsEvent, IsRefused, line_row, lines_of};
ghost use Rattle.event_log.specs.Unread.{IfLine};

use crate::batch::Batch;
use crate::lines::{Reason, event_of, first_line};
use crate::told::Failure;
use std::alloc::Global;

/// Why lines do not form a batch.
#[derive(Clone, Copy)]
pub enum Unread {
    /// The line with this number, counted from 1, is not an event.
    Line(u64, Reason),
    /// They could not be stored.
    Failed(Failure),
}

/// Returns the bytes of the batch of a text's lines, or the first line that is not an event.
pub fn text_bytes<B: Batch>(alloc: Global, text: &str) -> Result<Vec<u8>, Unread>
    ensures ok { IfOk result (λ bytes. IsBatchOf B.format text.now bytes.items) }
    ensures refused { IfLine result (IsRefused text.now) }
{
    let batch = batch_of::<B>(alloc, text)?;
    match batch.into_store(alloc) {
        Ok(bytes) => Ok(bytes),
        Err(failure) => Err(Unread::Failed(failure)),
    }
}

// Creates the batch of a text's lines.
fn batch_of<B: Batch>(alloc: Global, text: &str) -> Result<B, Unread>
    ensures ok { IfOk result (λ batch. All IsEvent (lines_of text.now) × (B.rows batch ≡ map line_row (lines_of text.now))) }
    ensures refused { IfLine result (IsRefused text.now) }
{
    let mut batch = B::none(alloc);
    let mut rest = text;
    let mut number = 0u64;
    while !rest.is_empty() {
        let (line, after) = first_line(rest);
        number = number.wrapping_add(1);
        add_line(&mut batch, line, number)?;
        rest = after;
    }
    Ok(batch)
}

// Appends the event of a line that has this number.
fn add_line<B: Batch>(batch: &mut B, line: &str, number: u64) -> Result<(), Unread>
    ensures event { IfOk result (λ u. IsEvent line.now) }
    ensures row { IfOk result (λ u. B.rows batch.new ≡ B.rows batch.old ++ (line_row line.now ∷ [])) }
    ensures refused { IfLine result (λ n. (n ≡ number) × (IsEvent line.now → ⊥)) }
{
    match event_of(line) {
        Ok(event) => match batch.add(event) {
            Ok(()) => Ok(()),
            Err(failure) => Err(Unread::Failed(failure)),
        },
        Err(reason) => Err(Unread::Line(number, reason)),
    }
}
