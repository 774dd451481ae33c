//! Growth and truncation of offsets in unary.
ghost use Rattle.std.specs.Prelude.{◌≡◌, ℕ, ◌+◌, ◌-◌, ◌*◌, ◌/◌, ◌%◌, ◌^◌, ◌<◌, ◌≤◌, [], ◌∷◌, ◌++◌, length, take, drop, slice_get, slice_range, vec_capacity, Some, true, OnOk, OnErr, IfErr, refl};
ghost use Rattle.columnar_core.specs.Format.{IsSound};
ghost use Rattle.columnar_core.specs.Change.{Stayed, Took, Copied, Refused};
ghost use Rattle.columnar_core.specs.Room.{WasFull, Leaves};
ghost use Rattle.columnar_core.specs.Row.{number};
ghost use Rattle.columnar_core.specs.Elements.{word_row};
ghost use Rattle.columnar_core.specs.WordViews.{words_in, le_bytes, view_bytes};
ghost use Rattle.columnar_bits.specs.Bits.{bit as bit_of, truths};
ghost use Rattle.columnar_bits.specs.BoolColumns.{bools_format, owned_content, owned_bits, IsOfGrowth};
ghost use Rattle.columnar_bits.specs.Rooms.{bits_top};
ghost use Rattle.columnar_sums.specs.Counting.{ones, Adds};
ghost use Rattle.columnar_base.specs.Digits.{digits};
ghost use Rattle.columnar_sums.specs.RankColumns.{ranks_format, ranks_content, bits_ranked, owned_ranks, ranked_bits};
ghost use Rattle.columnar_sums.specs.RankLaws.{ranks_lawful};
ghost use Rattle.columnar_sums.specs.Rooms.{held_top};
ghost use Rattle.columnar_sums.specs.Unary.{all_false, upto};
ghost use Rattle.columnar_sums.specs.UnaryLaws.{unary_lawful};
ghost use Rattle.columnar_sums.specs.UnaryRoomLaws.{offsets_follow, offsets_then};
ghost use Rattle.columnar_sums.specs.UnaryColumns.{unaries_format, unaries_content, owned_unaries, covers_runs, last_offset, repeated};

use super::Unaries;
use crate::rank_select::RankSelect;
use columnar_bits::bools::Bools;
use columnar_core::container::{
    Borrow, Container, ExtendFrom, Reborrow, Reserve, Storage, Truncate,
};
use columnar_core::fault::GrowError;
use columnar_core::offsets::{ExtendShifted, PushAfter, ReserveOffsets};
use columnar_core::tally::Tally;
use columnar_core::traits::{Clear, Column, Index, Len, Push, PushRef};
use columnar_core::view::View;
use std::alloc::Global;
use std::ops::Range;

type Held = RankSelect<Vec<u64>, Vec<u64>, [u64; 2]>;

type Owned = Unaries<Vec<u64>, Vec<u64>, [u64; 2]>;

type Viewed<'a> = Unaries<View<'a, u64>, View<'a, u64>, View<'a, u64>>;

// Appends the `count` lowest bits of a word that has no set bit above them; all or none.
pub(crate) fn push_word(
    values: &mut Bools<Vec<u64>, [u64; 2]>,
    word: u64,
    count: usize,
) -> Result<(), GrowError>
    requires sound { IsSound bools_format (owned_content values.old) }
    requires short { count ≤ 64 }
    requires below { word < 2 ^ count }
    ensures ok { OnOk result (owned_bits values.new ≡ owned_bits values.old ++ truths (bit_of word) count) }
    ensures err { OnErr result (owned_content values.new ≡ owned_content values.old) }
    ensures sound { IsSound bools_format (owned_content values.new) }
    ensures memory { IfErr result (λ e. e ≡ GrowError.Memory) }
    ensures wanted { length (owned_bits values.old) + count < 2 ^ 64 → OnErr result (bits_top (vec_capacity values.old.values) ≤ length (owned_bits values.old) + count) }
    ensures capacity { vec_capacity values.old.values ≤ vec_capacity values.new.values }
{
    match values.push_bits(word, count) {
        Ok(()) => Ok(()),
        Err(_) => Err(GrowError::Memory),
    }
}

// Appends `count` clear bits and a set bit, in at most two words; all or none.
fn push_short(values: &mut Bools<Vec<u64>, [u64; 2]>, count: usize) -> Result<(), GrowError>
    requires sound { IsSound bools_format (owned_content values.old) }
    requires few { count < 64 }
    ensures ok { OnOk result (owned_bits values.new ≡ owned_bits values.old ++ (all_false count ++ true ∷ [])) }
    ensures err { OnErr result (owned_content values.new ≡ owned_content values.old) }
    ensures sound { IsSound bools_format (owned_content values.new) }
    ensures memory { IfErr result (λ e. e ≡ GrowError.Memory) }
    ensures wanted { length (owned_bits values.old) + (count + 1) < 2 ^ 64 → OnErr result (bits_top (vec_capacity values.old.values) ≤ length (owned_bits values.old) + (count + 1)) }
    ensures capacity { vec_capacity values.old.values ≤ vec_capacity values.new.values }
{
    push_word(values, 1 << count, count + 1)
}

// Appends `count` clear bits, up to 64 at a time; all or none.
pub(crate) fn push_falses(
    values: &mut Bools<Vec<u64>, [u64; 2]>,
    count: usize,
) -> Result<(), GrowError>
    requires sound { IsSound bools_format (owned_content values.old) }
    ensures ok { OnOk result (owned_bits values.new ≡ owned_bits values.old ++ all_false count) }
    ensures err { OnErr result (Stayed bools_format (owned_content values.old) (owned_content values.new)) }
    ensures sound { IsSound bools_format (owned_content values.new) }
    ensures memory { IfErr result (λ e. e ≡ GrowError.Memory) }
    ensures wanted { length (owned_bits values.old) + count < 2 ^ 64 → OnErr result (bits_top (vec_capacity values.old.values) ≤ length (owned_bits values.old) + count) }
    ensures capacity { vec_capacity values.old.values ≤ vec_capacity values.new.values }
{
    let start = values.len();
    let mut done = 0;
    while done < count {
        let some = (count - done).min(64);
        match values.push_bits(0, some) {
            Ok(()) => {}
            Err(_) => {
                values.truncate(start);
                return Err(GrowError::Memory);
            }
        }
        done += some;
    }
    Ok(())
}

// Appends the total as the count of each chunk from the first without one up to chunk `end`; all or none.
fn count_run(counts: &mut Vec<u64>, total: u64, end: usize) -> Result<(), GrowError>
    requires { length counts.old.items ≤ end }
    ensures ok { OnOk result ((words_in (le_bytes counts.new.items) ≡ words_in (le_bytes counts.old.items) ++ repeated (end - length counts.old.items) total) × (length counts.new.items ≡ end)) }
    ensures err { OnErr result (counts.new.items ≡ counts.old.items) }
    ensures memory { IfErr result (λ e. e ≡ GrowError.Memory) }
    ensures full { OnErr result (vec_capacity counts.old < end) }
    ensures capacity { vec_capacity counts.old ≤ vec_capacity counts.new }
{
    let before = Vec::len(counts);
    for at in before..end {
        match counts.push(total) {
            Ok(()) => {}
            Err(_) => {
                counts.truncate(before);
                return Err(GrowError::Memory);
            }
        }
    }
    Ok(())
}

// Reserves space for the words that `more` bits after the first `len` fill. Allocates nothing if they fill none.
fn make_room(bits: &mut Held, len: usize, more: usize) -> Result<(), GrowError>
    requires sound { IsSound ranks_format (owned_ranks bits.old) }
    requires len { len ≡ length (ranked_bits bits.old) }
    requires short { len + more < 2 ^ 64 }
    ensures same { owned_ranks bits.new ≡ owned_ranks bits.old }
    ensures memory { IfErr result (λ e. e ≡ GrowError.Memory) }
    ensures wanted { OnErr result (held_top bits.old ≤ len + more) }
    ensures capacity { held_top bits.old ≤ held_top bits.new }
{
    bits.values.values.reserve((len + more) / 64 - len / 64)?;
    bits.counts.reserve((len + more) / 1024 - len / 1024)?;
    Ok(())
}

// Counts all set bits if `count` more bits complete a chunk.
fn total_of(bits: &Held, start: usize, count: usize) -> u64
    requires sound { IsSound ranks_format (owned_ranks bits.now) }
    requires start { start ≡ length (ranked_bits bits.now) }
    requires short { start + count < 2 ^ 64 }
    ensures { start / 1024 < (start + count) / 1024 → result ≡ ones (ranked_bits bits.now) (length (ranked_bits bits.now)) }
{
    if (start + count) / 1024 == start / 1024 {
        return 0;
    }
    bits.rank(start) as u64
}

// Appends `count` clear bits; all or none.
fn extend_falses(bits: &mut Held, count: usize) -> Result<(), GrowError>
    requires sound { IsSound ranks_format (owned_ranks bits.old) }
    requires short { length (ranked_bits bits.old) + count < 2 ^ 64 }
    ensures ok { OnOk result (ranked_bits bits.new ≡ ranked_bits bits.old ++ all_false count) }
    ensures err { OnErr result (Stayed ranks_format (owned_ranks bits.old) (owned_ranks bits.new)) }
    ensures sound { IsSound ranks_format (owned_ranks bits.new) }
    ensures memory { IfErr result (λ e. e ≡ GrowError.Memory) }
    ensures wanted { OnErr result (held_top bits.old ≤ length (ranked_bits bits.old) + count) }
    ensures capacity { held_top bits.old ≤ held_top bits.new }
{
    let start = bits.values.len();
    let total = total_of(bits, start, count);
    push_falses(&mut bits.values, count)?;
    match count_run(&mut bits.counts, total, (start + count) / 1024) {
        Ok(()) => Ok(()),
        Err(error) => {
            bits.values.truncate(start);
            Err(error)
        }
    }
}

// Appends `count` clear bits and a set bit; all or none. Allocates the words before it writes a bit, and allocates
// nothing if the bits fill no word. Most runs are short: they complete no 1,024 bits and add at most one word.
#[inline]
fn push_run(bits: &mut Held, count: usize) -> Result<(), GrowError>
    requires sound { IsSound ranks_format (owned_ranks bits.old) }
    requires short { length (ranked_bits bits.old) + count + 1 < 2 ^ 64 }
    ensures ok { OnOk result (ranked_bits bits.new ≡ ranked_bits bits.old ++ (all_false count ++ true ∷ [])) }
    ensures err { OnErr result (Stayed ranks_format (owned_ranks bits.old) (owned_ranks bits.new)) }
    ensures sound { IsSound ranks_format (owned_ranks bits.new) }
    ensures memory { IfErr result (λ e. e ≡ GrowError.Memory) }
    ensures wanted { OnErr result (held_top bits.old ≤ length (ranked_bits bits.old) + (count + 1)) }
    ensures capacity { OnOk result (held_top bits.old ≤ held_top bits.new) }
{
    if count < 64 && bits.values.len() % 1024 + count < 1023 {
        push_short(&mut bits.values, count)?;
        return Ok(());
    }
    push_long(bits, count)
}

// Does the same as `push_run` for bits that may complete 1,024 bits or span more words. It is a function of its own to
// keep the common push small.
#[cold]
#[inline(never)]
fn push_long(bits: &mut Held, count: usize) -> Result<(), GrowError>
    requires sound { IsSound ranks_format (owned_ranks bits.old) }
    requires short { length (ranked_bits bits.old) + count + 1 < 2 ^ 64 }
    ensures ok { OnOk result (ranked_bits bits.new ≡ ranked_bits bits.old ++ (all_false count ++ true ∷ [])) }
    ensures err { OnErr result (Stayed ranks_format (owned_ranks bits.old) (owned_ranks bits.new)) }
    ensures sound { IsSound ranks_format (owned_ranks bits.new) }
    ensures memory { IfErr result (λ e. e ≡ GrowError.Memory) }
    ensures wanted { OnErr result (held_top bits.old ≤ length (ranked_bits bits.old) + (count + 1)) }
    ensures capacity { OnOk result (held_top bits.old ≤ held_top bits.new) }
{
    let before = bits.len();
    make_room(bits, before, count + 1)?;
    extend_falses(bits, count)?;
    match bits.push_bit(true) {
        Ok(()) => Ok(()),
        Err(_) => {
            bits.truncate(before);
            Err(GrowError::Memory)
        }
    }
}

// Appends a range of the bits of another column; all or none.
fn copy_bits(
    bits: &mut Held,
    other: &RankSelect<View<'_, u64>, View<'_, u64>, View<'_, u64>>,
    range: Range<usize>,
) -> Result<(), GrowError>
    requires sound { IsSound ranks_format (owned_ranks bits.old) }
    requires other { IsSound ranks_format (ranks_content view_bytes view_bytes view_bytes other.now) }
    requires ordered { range.start ≤ range.«end» }
    requires in_range { range.«end» ≤ length (bits_ranked view_bytes view_bytes other.now) }
    ensures ok { OnOk result (ranked_bits bits.new ≡ ranked_bits bits.old ++ slice_range (bits_ranked view_bytes view_bytes other.now) range.start range.«end») }
    ensures err { OnErr result (Stayed ranks_format (owned_ranks bits.old) (owned_ranks bits.new)) }
    ensures length { result ≡ Err GrowError.Length → 2 ^ 64 ≤ length (ranked_bits bits.old) + (range.«end» - range.start) }
    ensures kinds { IfErr result IsOfGrowth }
    ensures wanted { result ≡ Err GrowError.Memory → held_top bits.old ≤ length (ranked_bits bits.old) + (range.«end» - range.start) }
    ensures capacity { OnOk result (held_top bits.old ≤ held_top bits.new) }
    ensures sound { IsSound ranks_format (owned_ranks bits.new) }
{
    bits.extend_ranked_tallied(other, range, &mut Tally::new())
}

// Appends the bits of a view from bit `from` to the end of its first `n` offsets; all or none. Adds to the tally what it
// reads to find that end, but not what the copy reads.
fn copy_upto_tallied<L>(
    bits: &mut Held,
    view: &Viewed<'_>,
    from: usize,
    n: usize,
    tally: &mut Tally<L>,
) -> Result<(), GrowError>
    requires sound { IsSound ranks_format (owned_ranks bits.old) }
    requires view_sound { IsSound unaries_format (unaries_content view_bytes view_bytes view_bytes view.now) }
    requires in_range { n ≤ length (unaries_format.rows (unaries_content view_bytes view_bytes view_bytes view.now)) }
    requires ordered { from ≤ upto (bits_ranked view_bytes view_bytes view.now.bits) n }
    ensures ok { OnOk result (ranked_bits bits.new ≡ ranked_bits bits.old ++ slice_range (bits_ranked view_bytes view_bytes view.now.bits) from (upto (bits_ranked view_bytes view_bytes view.now.bits) n)) }
    ensures err { OnErr result (Stayed ranks_format (owned_ranks bits.old) (owned_ranks bits.new)) }
    ensures length { result ≡ Err GrowError.Length → 2 ^ 64 ≤ length (ranked_bits bits.old) + (upto (bits_ranked view_bytes view_bytes view.now.bits) n - from) }
    ensures kinds { IfErr result IsOfGrowth }
    ensures wanted { result ≡ Err GrowError.Memory → held_top bits.old ≤ length (ranked_bits bits.old) + (upto (bits_ranked view_bytes view_bytes view.now.bits) n - from) }
    ensures capacity { OnOk result (held_top bits.old ≤ held_top bits.new) }
    ensures sound { IsSound ranks_format (owned_ranks bits.new) }
    ensures reads { Adds (digits (length (words_in (view_bytes view.now.bits.counts))) + 1) 16 tally.old tally.new }
    ensures turns { tally.new.turns ≤ tally.old.turns + (digits (length (words_in (view_bytes view.now.bits.counts))) + 19) }
{
    let to = view.cut_end_tallied(n, tally);
    copy_bits(bits, &view.bits, from..to)
}

// Appends the bits of a view from bit `from` to the end of its first `n` offsets; all or none.
fn copy_upto(bits: &mut Held, view: &Viewed<'_>, from: usize, n: usize) -> Result<(), GrowError>
    requires sound { IsSound ranks_format (owned_ranks bits.old) }
    requires view_sound { IsSound unaries_format (unaries_content view_bytes view_bytes view_bytes view.now) }
    requires in_range { n ≤ length (unaries_format.rows (unaries_content view_bytes view_bytes view_bytes view.now)) }
    requires ordered { from ≤ upto (bits_ranked view_bytes view_bytes view.now.bits) n }
    ensures ok { OnOk result (ranked_bits bits.new ≡ ranked_bits bits.old ++ slice_range (bits_ranked view_bytes view_bytes view.now.bits) from (upto (bits_ranked view_bytes view_bytes view.now.bits) n)) }
    ensures err { OnErr result (Stayed ranks_format (owned_ranks bits.old) (owned_ranks bits.new)) }
    ensures length { result ≡ Err GrowError.Length → 2 ^ 64 ≤ length (ranked_bits bits.old) + (upto (bits_ranked view_bytes view_bytes view.now.bits) n - from) }
    ensures kinds { IfErr result IsOfGrowth }
    ensures wanted { result ≡ Err GrowError.Memory → held_top bits.old ≤ length (ranked_bits bits.old) + (upto (bits_ranked view_bytes view_bytes view.now.bits) n - from) }
    ensures capacity { OnOk result (held_top bits.old ≤ held_top bits.new) }
    ensures sound { IsSound ranks_format (owned_ranks bits.new) }
{
    copy_upto_tallied(bits, view, from, n, &mut Tally::new())
}

impl Owned {
    // Returns the last offset; 0 if there is none.
    fn last_end(&self) -> u64
        requires { IsSound unaries_format (owned_unaries self.now) }
        ensures { result ≡ last_offset (owned_unaries self.now) }
    {
        let len = self.bits.len();
        (len - self.bits.rank(len)) as u64
    }
}

impl PushAfter for Owned {
    /// Appends an offset when the last one is known.
    ///
    /// # Errors
    /// `Offset` if the offset is below the last one; otherwise `Length` if there would be more than 2^64 - 1 bits. Both
    /// are returned before any allocation.
    ///
    /// # Requires
    /// The column is well-formed, and `last` is its last offset, or 0 if it has none.
    fn push_after(&mut self, last: u64, offset: u64) -> Result<(), GrowError>
        requires sound { IsSound unaries_format (owned_unaries self.old) }
        requires last { last_offset (owned_unaries self.old) ≡ last }
        ensures ok { OnOk result (Took unaries_format (owned_unaries self.old) (owned_unaries self.new) (word_row offset ∷ [])) }
        ensures err { IfErr result (λ e. Refused unaries_format (owned_unaries self.old) (owned_unaries self.new) (word_row offset ∷ []) e) }
        ensures wanted { IfErr result (WasFull (⟦<Owned as Column>⟧.room self.old) (word_row offset ∷ [])) }
        ensures left { OnOk result (Leaves (⟦<Owned as Column>⟧.room self.old) (⟦<Owned as Column>⟧.room self.new) (word_row offset ∷ [])) }
        ensures offset { offset < last → result ≡ Err GrowError.Offset }
        ensures full { last ≤ offset → 2 ^ 64 ≤ length (ranked_bits self.old.bits) + (offset - last) + 1 → result ≡ Err GrowError.Length }
    {
        if offset < last {
            return Err(GrowError::Offset);
        }
        let len = self.bits.len();
        let run = (offset - last) as usize;
        if run >= usize::MAX - len {
            return Err(GrowError::Length);
        }
        push_run(&mut self.bits, run)
    }
}

impl Push<u64> for Owned {
    /// Does the same as `push_after` when the last offset is not known; a rank finds it.
    ///
    /// # Requires
    /// The column is well-formed.
    fn push(&mut self, item: u64) -> Result<(), GrowError>
        requires sound { IsSound unaries_format (owned_unaries self.old) }
        ensures ok { OnOk result (Took unaries_format (owned_unaries self.old) (owned_unaries self.new) (word_row item ∷ [])) }
        ensures err { IfErr result (λ e. Refused unaries_format (owned_unaries self.old) (owned_unaries self.new) (word_row item ∷ []) e) }
        ensures wanted { IfErr result (WasFull (⟦<Owned as Column>⟧.room self.old) (word_row item ∷ [])) }
        ensures left { OnOk result (Leaves (⟦<Owned as Column>⟧.room self.old) (⟦<Owned as Column>⟧.room self.new) (word_row item ∷ [])) }
        ensures offset { item < last_offset (owned_unaries self.old) → result ≡ Err GrowError.Offset }
        ensures full { last_offset (owned_unaries self.old) ≤ item → 2 ^ 64 ≤ length (ranked_bits self.old.bits) + (item - last_offset (owned_unaries self.old)) + 1 → result ≡ Err GrowError.Length }
    {
        let last = self.last_end();
        self.push_after(last, item)
    }
}

impl<'x> Push<&'x u64> for Owned {
    fn push(&mut self, item: &'x u64) -> Result<(), GrowError>
        requires sound { IsSound unaries_format (owned_unaries self.old) }
        ensures ok { OnOk result (Took unaries_format (owned_unaries self.old) (owned_unaries self.new) (word_row item.now ∷ [])) }
        ensures err { IfErr result (λ e. Refused unaries_format (owned_unaries self.old) (owned_unaries self.new) (word_row item.now ∷ []) e) }
        ensures wanted { IfErr result (WasFull (⟦<Owned as Column>⟧.room self.old) (word_row item.now ∷ [])) }
        ensures left { OnOk result (Leaves (⟦<Owned as Column>⟧.room self.old) (⟦<Owned as Column>⟧.room self.new) (word_row item.now ∷ [])) }
        ensures offset { item.now < last_offset (owned_unaries self.old) → result ≡ Err GrowError.Offset }
        ensures full { last_offset (owned_unaries self.old) ≤ item.now → 2 ^ 64 ≤ length (ranked_bits self.old.bits) + (item.now - last_offset (owned_unaries self.old)) + 1 → result ≡ Err GrowError.Length }
    {
        self.push_ref(item)
    }
}

impl PushRef<u64> for Owned {
    fn push_ref(&mut self, item: &u64) -> Result<(), GrowError>
        requires sound { IsSound unaries_format (owned_unaries self.old) }
        ensures ok { OnOk result (Took unaries_format (owned_unaries self.old) (owned_unaries self.new) (word_row item.now ∷ [])) }
        ensures err { IfErr result (λ e. Refused unaries_format (owned_unaries self.old) (owned_unaries self.new) (word_row item.now ∷ []) e) }
        ensures wanted { IfErr result (WasFull (⟦<Owned as Column>⟧.room self.old) (word_row item.now ∷ [])) }
        ensures left { OnOk result (Leaves (⟦<Owned as Column>⟧.room self.old) (⟦<Owned as Column>⟧.room self.new) (word_row item.now ∷ [])) }
        ensures offset { item.now < last_offset (owned_unaries self.old) → result ≡ Err GrowError.Offset }
        ensures full { last_offset (owned_unaries self.old) ≤ item.now → 2 ^ 64 ≤ length (ranked_bits self.old.bits) + (item.now - last_offset (owned_unaries self.old)) + 1 → result ≡ Err GrowError.Length }
    {
        Push::<u64>::push(self, *item)
    }
}

impl Clear for Owned {
    fn clear(&mut self) {
        self.bits.clear();
    }
}

impl Truncate for Owned {
    ghost lawful = { unary_lawful ranks_format ranks_lawful };

    fn truncate(&mut self, n: usize) {
        let end = self.cut_end(n);
        self.bits.truncate(end);
    }
}

impl Storage for Owned {
    fn empty(alloc: Global) -> Self {
        Unaries {
            bits: <Held as Storage>::empty(alloc),
        }
    }

    fn duplicate(&self, alloc: Global) -> Result<Self, GrowError> {
        let bits = self.bits.duplicate(alloc)?;
        Ok(Unaries { bits })
    }
}

impl Reserve for Owned {
    type Room = usize;

    ghost reserves = { Unit {0} };

    ghost covers = { covers_runs };

    fn no_room() -> usize {
        0
    }

    /// Reserves capacity for offsets of `room` bits together.
    fn reserve_room(&mut self, room: usize) -> Result<(), GrowError> {
        self.bits.reserve_room(room)
    }
}

impl<'x> ExtendFrom<Viewed<'x>> for Owned {
    fn add_room(room: usize, view: Viewed<'x>) -> usize {
        Held::add_room(room, view.bits)
    }

    /// Pushes the offsets of the range in order, or none of them.
    ///
    /// # Errors
    /// `Offset` if the first one is below the column's last offset; otherwise as a push of the offsets.
    ///
    /// # Requires
    /// Both columns are well-formed, and the range is within the view.
    fn extend_from_self(&mut self, view: Viewed<'x>, range: Range<usize>) -> Result<(), GrowError>
        requires sound { IsSound unaries_format (owned_unaries self.old) }
        requires view_sound { IsSound unaries_format (unaries_content view_bytes view_bytes view_bytes view) }
        requires ordered { range.start ≤ range.«end» }
        requires in_range { range.«end» ≤ length (unaries_format.rows (unaries_content view_bytes view_bytes view_bytes view)) }
        ensures ok { OnOk result (Copied unaries_format (owned_unaries self.old) (owned_unaries self.new) range.start (take (range.«end» - range.start) (drop range.start (unaries_format.rows (unaries_content view_bytes view_bytes view_bytes view.entry))))) }
        ensures err { IfErr result (λ e. Refused unaries_format (owned_unaries self.old) (owned_unaries self.new) (take (range.«end» - range.start) (drop range.start (unaries_format.rows (unaries_content view_bytes view_bytes view_bytes view.entry)))) e) }
        ensures wanted { IfErr result (WasFull (⟦<Owned as Column>⟧.room self.old) (take (range.«end» - range.start) (drop range.start (unaries_format.rows (unaries_content view_bytes view_bytes view_bytes view.entry))))) }
        ensures left { OnOk result (Leaves (⟦<Owned as Column>⟧.room self.old) (⟦<Owned as Column>⟧.room self.new) (take (range.«end» - range.start) (drop range.start (unaries_format.rows (unaries_content view_bytes view_bytes view_bytes view.entry))))) }
        ensures offset { (n : ℕ) → range.start < range.«end» → slice_get (unaries_format.rows (unaries_content view_bytes view_bytes view_bytes view.entry)) range.start ≡ Some (number n) → n < last_offset (owned_unaries self.old) → result ≡ Err GrowError.Offset }
    {
        let before = self.len();
        for i in range.start..range.end {
            match Push::<u64>::push(self, view.get(i)) {
                Ok(()) => {}
                Err(error) => {
                    self.truncate(before);
                    return Err(error);
                }
            }
        }
        Ok(())
    }
}

impl ReserveOffsets for Owned {
    ghost follow = { λ column room last os e h c. offsets_follow (owned_unaries column) room (held_top column.bits) last os e h c };

    ghost add = { λ room more os others f c. offsets_then room more os others f c };
}

/// The bits of the range are copied at once: bits between two set bits do not depend on what precedes them. The steps
/// of that copy, and of the one search for its end, are not added to the tally.
impl<'x> ExtendShifted<Viewed<'x>> for Owned {
    fn extend_shifted_tallied<L>(
        &mut self,
        view: &Viewed<'x>,
        range: Range<usize>,
        lower: u64,
        _start: usize,
        _tally: &mut Tally<L>,
    ) -> Result<(), GrowError> {
        let from = lower as usize + range.start;
        copy_upto(&mut self.bits, view, from, range.end)
    }
}

impl<'a> Borrow<'a> for Owned {
    type Ref = u64;

    type Borrowed = Viewed<'a>;

    type Parts = u64;

    ghost same_format = { refl };

    fn borrow(&'a self) -> Viewed<'a> {
        Unaries {
            bits: self.bits.borrow(),
        }
    }
}

impl<'a> Container<'a> for Owned {}

impl<'a, 'b> Reborrow<'b> for Viewed<'a>
where
    'a: 'b,
{
    type Short = Viewed<'b>;

    ghost same_short = { refl };

    fn reborrow(self) -> Viewed<'b> {
        Unaries {
            bits: self.bits.reborrow(),
        }
    }
}
