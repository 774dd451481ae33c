//! Offsets in unary that are all known in advance: their bits are collected in words.
ghost use Rattle.std.specs.Prelude.{◌≡◌, ◌+◌, ◌^◌, ◌<◌, ◌≤◌, [], ◌∷◌, ◌++◌, length, true, false, OnOk, IfOk, IfErr};
ghost use Rattle.columnar_core.specs.Format.{IsSound, slice};
ghost use Rattle.columnar_core.specs.Bounds.{numbers, last_or};
ghost use Rattle.columnar_core.specs.Earlier.{IsTrueOfNew};
ghost use Rattle.columnar_core.specs.Elements.{words_format};
ghost use Rattle.columnar_core.specs.WordViews.{le_bytes};
ghost use Rattle.columnar_bits.specs.Bits.{bit as bit_of, truths};
ghost use Rattle.columnar_bits.specs.BoolColumns.{bools_format, owned_content, owned_bits};
ghost use Rattle.columnar_sums.specs.Unary.{all_false, runs, falls};
ghost use Rattle.columnar_sums.specs.UnaryColumns.{unaries_format, offsets_of};

use super::grow::{push_falses, push_word};
use columnar_bits::bools::Bools;
use columnar_core::container::Storage;
use columnar_core::fault::GrowError;
use columnar_core::offsets::Offsets;
use columnar_core::traits::{Index, Len};
use std::alloc::Global;

type Bits = Bools<Vec<u64>, [u64; 2]>;

// Returns the `count` bits of a word, followed by `run` clear bits and a set bit.
#[tactic(auto, using(crate::specs::PackedLaws::run_bits, crate::specs::PackedLaws::run_within))]
fn with_run(word: u64, count: usize, run: usize) -> u64
    requires fits { count + run < 64 }
    requires below { word < 2 ^ count }
    ensures bits { truths (bit_of result) (count + run + 1) ≡ truths (bit_of word) count ++ (all_false run ++ true ∷ []) }
    ensures below { result < 2 ^ (count + run + 1) }
{
    word | 1 << (count + run)
}

// Appends the offsets in unary, a word of bits at a time.
fn push_runs(bits: &mut Bits, offsets: &Vec<u64>) -> Result<(), GrowError>
    requires bits { IsSound bools_format (owned_content bits.old) }
    requires offsets { IsSound words_format (slice (le_bytes offsets.now.items)) }
    ensures ok { OnOk result (owned_bits bits.new ≡ owned_bits bits.old ++ runs 0 (numbers (words_format.rows (slice (le_bytes offsets.now.items))))) }
    ensures sound { IsSound bools_format (owned_content bits.new) }
    ensures memory { IfErr result (λ e. e ≡ GrowError.Memory) }
{
    let mut last = 0u64;
    let mut word = 0u64;
    let mut count = 0;
    for i in 0..Len::len(offsets) {
        let end = Index::get(offsets, i);
        let run = end.saturating_sub(last) as usize;
        if run < 64 - count {
            word = with_run(word, count, run);
            count += run + 1;
        } else {
            let rest = run % 64;
            push_word(bits, word, count)?;
            push_falses(bits, run - rest)?;
            word = with_run(0, 0, rest);
            count = rest + 1;
        }
        last = end;
    }
    push_word(bits, word, count)
}

// Returns the last offset; 0 if there is none.
fn last_of(offsets: &Vec<u64>) -> u64
    requires { IsSound words_format (slice (le_bytes offsets.now.items)) }
    ensures { result ≡ last_or 0 (numbers (words_format.rows (slice (le_bytes offsets.now.items)))) }
{
    let len = Len::len(offsets);
    if len == 0 {
        0
    } else {
        Index::get(offsets, len - 1)
    }
}

// Returns the bits that encode the offsets in unary, allocated at once.
//
// # Errors
// `Offset` if the offsets fall; otherwise `Length` if the last one plus their count exceeds 2^64 - 1.
pub(crate) fn in_unary(alloc: Global, offsets: &Vec<u64>) -> Result<Bits, GrowError>
    requires { IsSound words_format (slice (le_bytes offsets.now.items)) }
    ensures sound { IfOk result (λ b. IsSound bools_format (owned_content b)) }
    ensures bits { IfOk result (λ b. owned_bits b ≡ runs 0 (numbers (words_format.rows (slice (le_bytes offsets.now.items))))) }
    ensures rise { IfOk result (λ b. falls 0 (numbers (words_format.rows (slice (le_bytes offsets.now.items)))) ≡ false) }
    ensures offset { falls 0 (offsets_of offsets.now.items) ≡ true → result ≡ Err GrowError.Offset }
    ensures length { falls 0 (offsets_of offsets.now.items) ≡ false → 2 ^ 64 ≤ last_or 0 (offsets_of offsets.now.items) + length (offsets_of offsets.now.items) → result ≡ Err GrowError.Length }
    ensures err { IfErr result (λ e. IsTrueOfNew e unaries_format (words_format.rows (slice (le_bytes offsets.now.items)))) }
{
    let last = last_of(offsets);
    if !offsets.rises_to(last) {
        return Err(GrowError::Offset);
    }
    let len = match (last as usize).checked_add(Len::len(offsets)) {
        Some(len) => len,
        None => return Err(GrowError::Length),
    };
    let mut bits = <Bits as Storage>::empty(alloc);
    bits.values.reserve(len / 64)?;
    push_runs(&mut bits, offsets)?;
    Ok(bits)
}
