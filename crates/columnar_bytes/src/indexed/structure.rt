//! The structure of a store.
ghost use Rattle.std.specs.Prelude.{◌≡◌, ◌+◌, ◌/◌, ◌≤◌, ◌↔◌, length, IsOk, IfErr, OnOk};
ghost use Rattle.columnar_core.specs.Frame.{IsLegal, IsStore, framed_slices, slice_count};
ghost use Rattle.columnar_bytes.specs.StructureFaults.{IsFirstBroken};

use columnar_core::fault::StoreFault;
use columnar_core::store::{round_up, word_in_bytes};
use columnar_core::tally::Tally;

/// Accepts the bytes if and only if they are whole words that frame `expected` slices; allocates nothing.
///
/// # Errors
/// The first broken rule and its slice: the rules of the whole store, then those of the slices in order.
pub fn validate_structure(bytes: &[u8], expected: usize) -> Result<(), StoreFault>
    ensures exact { IsOk result ↔ IsLegal bytes.now expected }
    ensures fault { IfErr result (IsFirstBroken bytes.now expected) }
    ensures store { OnOk result (IsStore bytes.now) }
    ensures count { OnOk result (length (framed_slices bytes.now) ≡ expected) }
{
    validate_structure_tallied(bytes, expected, &mut Tally::new())
}

/// Does what `validate_structure` does, and counts its steps in the tally. Accepted or refused, it takes at most one
/// step for each expected slice, at most one for each slice of the table, and at most one for each word of the bytes.
///
/// # Errors
/// As `validate_structure`.
#[tactic(auto, using(crate::specs::FaultLaws::broken_refused))]
pub fn validate_structure_tallied<L>(
    bytes: &[u8],
    expected: usize,
    tally: &mut Tally<L>,
) -> Result<(), StoreFault>
    ensures exact { IsOk result ↔ IsLegal bytes.now expected }
    ensures fault { IfErr result (IsFirstBroken bytes.now expected) }
    ensures store { OnOk result (IsStore bytes.now) }
    ensures count { OnOk result (length (framed_slices bytes.now) ≡ expected) }
    ensures turns { tally.new.turns ≤ tally.old.turns + length bytes.now / 8 }
    ensures expected { tally.new.turns ≤ tally.old.turns + expected }
    ensures table { tally.new.turns ≤ tally.old.turns + slice_count bytes.now }
{
    let len = bytes.len();
    if len % 8 != 0 {
        return Err(StoreFault::NotWords(0));
    }
    if len == 0 {
        return Err(StoreFault::Empty(0));
    }
    let first = word_in_bytes(bytes, 0) as usize;
    if first < 8 || first % 8 != 0 {
        return Err(StoreFault::FirstOffset(0));
    }
    if first > len {
        return Err(StoreFault::Table(0));
    }
    if first / 8 - 1 != expected {
        return Err(StoreFault::SliceCount(0));
    }
    let mut start = first;
    for i in 0..expected {
        tally.tick();
        let end = word_in_bytes(bytes, i + 1) as usize;
        if end > len {
            return Err(StoreFault::PastEnd(i));
        }
        if end < start {
            return Err(StoreFault::Backwards(i));
        }
        start = round_up(end);
    }
    Ok(())
}
