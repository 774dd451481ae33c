//! Columns of 64-bit numbers as offsets.
ghost use Rattle.std.specs.Prelude.{◌≡◌, ℕ, ◌+◌, ◌*◌, ◌^◌, ◌<◌, ◌≤◌, length, drop, vec_len, vec_capacity, false, IsTrue, MatchOption};
ghost use Rattle.columnar_base.specs.Format.{Fits, IsSound, bytes_held, representable};
ghost use Rattle.columnar_base.specs.Elements.{elements_rows, first_slice, word_row_of, words_format};
ghost use Rattle.columnar_core.specs.Bounds.{rises, numbers, last_or};
ghost use Rattle.columnar_core.specs.BoundLaws.{words_bounds};
ghost use Rattle.columnar_core.specs.OffsetRoomLaws.{counted_follow, counted_add};
ghost use Rattle.columnar_core.specs.Store.{slices_in};

use crate::bytes::Stored;
use crate::offsets::{
    ExtendShifted, Offsets, PushAfter, ReserveOffsets, StoredOffsets, push_shifted,
};
use crate::store::DecodedStore;
use columnar_base::fault::GrowError;
use columnar_base::tally::Tally;
use columnar_base::traits::{Column, Index, Len, Push};
use columnar_base::view::View;
pub use columnar_base::words::{Words, byte_count, word_at, word_count};
use std::ops::Range;

// The number of offsets that are compared before one test whether any decreased: the compiler unrolls their loop,
// without a branch for each.
const STRETCH: usize = 16;

// Returns the last of the `count` numbers from `from` on, or `first` if there are none; `None` if one decreases,
// starting at `first`. Takes a step for each number.
#[inline(always)]
fn risen<C: Index<Ref = u64> + Len, L>(
    column: &C,
    from: usize,
    count: usize,
    first: u64,
    tally: &mut Tally<L>,
) -> Option<u64>
    requires sound { IsSound C.format (C.content column.now) }
    requires within { from + count ≤ length (C.format.rows (C.content column.now)) }
    requires fits { from + count < 2 ^ 64 }
    ensures value { (end : ℕ) → MatchOption result (rises first (drop from (numbers (C.format.rows (C.content column.now)))) end ≡ false) (λ last. rises first (drop from (numbers (C.format.rows (C.content column.now)))) end ≡ rises last (drop (from + count) (numbers (C.format.rows (C.content column.now)))) end) }
    ensures turns { tally.new.turns ≡ tally.old.turns + count }
{
    let mut last = first;
    let mut rising = true;
    for i in 0..count {
        tally.tick();
        let next = column.get(from + i);
        if next < last {
            rising = false;
        }
        last = next;
    }
    if rising { Some(last) } else { None }
}

// Does what `rises_to` does for a column of numbers. Takes a step for each number and each stretch, and stops after the
// stretch in which one decreases.
fn rises_by_reading<C: Index<Ref = u64> + Len, L>(
    column: &C,
    end: u64,
    tally: &mut Tally<L>,
) -> bool
    requires { IsSound C.format (C.content column.now) }
    ensures value { result ≡ rises 0 (numbers (C.format.rows (C.content column.now))) end }
    ensures turns { tally.new.turns ≤ tally.old.turns + 2 * length (C.format.rows (C.content column.now)) }
{
    let count = column.len();
    let mut last = 0u64;
    let mut at = 0;
    while count - at >= STRETCH {
        tally.tick();
        let Some(next) = risen(column, at, STRETCH, last, tally) else {
            return false;
        };
        last = next;
        at += STRETCH;
    }
    risen(column, at, count - at, last, tally) == Some(end)
}

impl Offsets for Vec<u64> {
    ghost bounds = { words_bounds };

    fn offset(&self, index: usize) -> u64 {
        Index::get(self, index)
    }

    fn rises_to_tallied<L>(&self, end: u64, tally: &mut Tally<L>) -> bool {
        rises_by_reading(self, end, tally)
    }
}

impl PushAfter for Vec<u64> {
    #[inline(always)]
    fn push_after(&mut self, _last: u64, offset: u64) -> Result<(), GrowError> {
        Push::<u64>::push(self, offset)
    }
}

impl ReserveOffsets for Vec<u64> {
    ghost follow = { λ v room last os e h c. counted_follow (vec_len v) (vec_capacity v) room last os h c };

    ghost add = { λ room more os others f c. counted_add room more (last_or 0 (numbers os)) os others f c };
}

/// Reserves capacity for all offsets at once, then pushes each.
impl<W: Offsets> ExtendShifted<W> for Vec<u64> {
    fn extend_shifted_tallied<L>(
        &mut self,
        view: &W,
        range: Range<usize>,
        lower: u64,
        start: usize,
        tally: &mut Tally<L>,
    ) -> Result<(), GrowError> {
        self.reserve(range.end - range.start)?;
        push_shifted(self, view, range, lower, start, tally)
    }
}

impl<'v> Offsets for View<'v, u64> {
    ghost bounds = { words_bounds };

    fn offset(&self, index: usize) -> u64 {
        self.get(index)
    }

    fn rises_to_tallied<L>(&self, end: u64, tally: &mut Tally<L>) -> bool {
        rises_by_reading(self, end, tally)
    }
}

impl StoredOffsets for Vec<u64> {
    ghost stored_bounds = { words_bounds };

    fn rises_in_tallied<L>(
        store: &DecodedStore<'_>,
        offset: usize,
        end: u64,
        tally: &mut Tally<L>,
    ) -> bool {
        let view = View::<u64>::from_le_bytes(store.get(offset));
        rises_by_reading(&view, end, tally)
    }
}

impl<'v> StoredOffsets for View<'v, u64> {
    ghost stored_bounds = { words_bounds };

    fn rises_in_tallied<L>(
        store: &DecodedStore<'_>,
        offset: usize,
        end: u64,
        tally: &mut Tally<L>,
    ) -> bool
        requires representable { IsTrue (representable words_format) }
        requires fits { Fits words_format offset (slices_in store.now) }
        ensures value { result ≡ rises 0 (numbers (elements_rows 8 word_row_of (first_slice (drop offset (slices_in store.now))))) end }
        ensures turns { tally.new.turns ≤ tally.old.turns + 8 * bytes_held (first_slice (drop offset (slices_in store.now))) }
    {
        Vec::<u64>::rises_in_tallied(store, offset, end, tally)
    }
}
