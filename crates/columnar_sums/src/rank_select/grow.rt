//! Growth and truncation of bit vectors with counts.
ghost use Rattle.std.specs.Prelude.{◌≡◌, ◌+◌, ◌-◌, ◌*◌, ◌/◌, ◌%◌, ◌^◌, ◌<◌, ◌≤◌, [], ◌∷◌, ◌++◌, length, slice_range, vec_capacity, OnOk, OnErr, IfOk, IfErr, IsOk, refl};
ghost use Rattle.columnar_core.specs.Row.{truth};
ghost use Rattle.columnar_core.specs.Format.{IsSound};
ghost use Rattle.columnar_core.specs.Change.{Refused, Stayed, Took};
ghost use Rattle.columnar_core.specs.WordViews.{words_in, bit_words, le_bytes, view_bytes, view_words};
ghost use Rattle.columnar_bits.specs.BoolColumns.{bools_format, owned_content, owned_bits, IsOfGrowth};
ghost use Rattle.columnar_sums.specs.Counting.{CountWords, count_before};
ghost use Rattle.columnar_sums.specs.RankColumns.{ranks_format, bits_ranked, IsRanked, owned_ranks, ranked_bits};
ghost use Rattle.columnar_sums.specs.RankLaws.{ranks_lawful};
ghost use Rattle.columnar_core.specs.Room.{WasFull, Leaves, up_to_count};
ghost use Rattle.columnar_bits.specs.Rooms.{count_room};
ghost use Rattle.columnar_sums.specs.Rooms.{held_top};

use super::RankSelect;
use super::search::one_of;
use columnar_bits::bools::{Bools, most_bits};
use columnar_core::container::{Borrow, ExtendFrom, Reborrow, Reserve, Storage, Truncate};
use columnar_core::fault::GrowError;
use columnar_core::tally::Tally;
use columnar_core::traits::{Clear, Len, Push, PushRef};
use columnar_core::view::View;
use columnar_core::words::{Words, word_at, word_count};
use std::alloc::Global;
use std::ops::Range;

type Held = RankSelect<Vec<u64>, Vec<u64>, [u64; 2]>;

type Viewed<'a> = RankSelect<View<'a, u64>, View<'a, u64>, View<'a, u64>>;

// Returns the count of the chunk before `chunk`; 0 for the first chunk.
#[tactic(auto, using(crate::specs::CountLaws::count_before_none, crate::specs::CountLaws::count_before_some))]
fn count_after(counts: View<'_, u64>, chunk: usize) -> u64
    requires { chunk ≤ length (view_words counts) }
    ensures { result ≡ count_before (view_words counts.entry) chunk }
{
    if chunk == 0 {
        0
    } else {
        word_at(counts, chunk - 1)
    }
}

// Appends the missing counts of complete chunks; all or none. Takes one step for each such chunk and for each of its
// words. It reads no word of the tail, whose bits have no count; the tail occurs only in the contract.
fn count_on<L>(
    counts: &mut Vec<u64>,
    values: View<'_, u64>,
    tail: View<'_, u64>,
    tally: &mut Tally<L>,
) -> Result<(), GrowError>
    requires exact { CountWords (bit_words (view_bytes values) (view_bytes tail)) (words_in (le_bytes counts.old.items)) }
    requires within { length counts.old.items ≤ length (view_words values) / 16 }
    requires tail { 0 < length (view_words tail) }
    requires short { length (view_words values) < 2 ^ 58 }
    ensures ok { OnOk result (CountWords (bit_words (view_bytes values.entry) (view_bytes tail.entry)) (words_in (le_bytes counts.new.items)) × (length counts.new.items ≡ length (view_words values.entry) / 16)) }
    ensures err { OnErr result (counts.new.items ≡ counts.old.items) }
    ensures memory { IfErr result (λ e. e ≡ GrowError.Memory) }
    ensures full { OnErr result (vec_capacity counts.old < length (view_words values.entry) / 16) }
    ensures capacity { vec_capacity counts.old ≤ vec_capacity counts.new }
    ensures turns { tally.new.turns + 17 * length counts.old.items ≤ tally.old.turns + 17 * (length (view_words values.entry) / 16) }
{
    let before = Vec::len(counts);
    let mut sum = count_after(counts.words(), before);
    for chunk in before..word_count(values) / 16 {
        tally.tick();
        for at in 16 * chunk..16 * chunk + 16 {
            tally.tick();
            sum += word_at(values, at).count_ones() as u64;
        }
        match counts.push(sum) {
            Ok(()) => {}
            Err(_) => {
                counts.truncate(before);
                return Err(GrowError::Memory);
            }
        }
    }
    Ok(())
}

// Adds the counts to these bits.
pub(crate) fn counted(alloc: Global, values: Bools<Vec<u64>, [u64; 2]>) -> Result<Held, GrowError>
    requires { IsSound bools_format (owned_content values) }
    ensures sound { IfOk result (λ b. IsSound ranks_format (owned_ranks b)) }
    ensures bits { IfOk result (λ b. ranked_bits b ≡ owned_bits values) }
    ensures memory { IfErr result (λ e. e ≡ GrowError.Memory) }
{
    let mut counts = Vec::new(alloc);
    counts.reserve(Vec::len(&values.values) / 16)?;
    count_on(
        &mut counts,
        values.values.words(),
        values.tail.words(),
        &mut Tally::new(),
    )?;
    Ok(RankSelect { counts, values })
}

impl Held {
    /// Appends one bit, and a count if it completes 1,024 bits. Allocates nothing if the bit does not fill a word.
    ///
    /// # Errors
    /// `Length` if and only if there are already 2^64 - 1 bits; `Memory` if an allocation fails. The bits stay the
    /// same.
    ///
    /// # Requires
    /// The column is well-formed.
    pub fn push_bit(&mut self, bit: bool) -> Result<(), GrowError>
        requires { IsSound ranks_format (owned_ranks self.old) }
        ensures ok { OnOk result (ranked_bits self.new ≡ ranked_bits self.old ++ bit ∷ []) }
        ensures err { OnErr result (Stayed ranks_format (owned_ranks self.old) (owned_ranks self.new)) }
        ensures length { result ≡ Err GrowError.Length → 2 ^ 64 ≤ length (ranked_bits self.old) + 1 }
        ensures full { 2 ^ 64 ≤ length (ranked_bits self.old) + 1 → result ≡ Err GrowError.Length }
        ensures kinds { IfErr result IsOfGrowth }
        ensures wanted { result ≡ Err GrowError.Memory → held_top self.old ≤ length (ranked_bits self.old) + 1 }
        ensures capacity { (vec_capacity self.old.values.values ≤ vec_capacity self.new.values.values) × (vec_capacity self.old.counts ≤ vec_capacity self.new.counts) }
        ensures no_memory { length (ranked_bits self.old) % 64 < 63 → IsOk result }
        ensures sound { IsSound ranks_format (owned_ranks self.new) }
    {
        if word_at(self.values.tail.words(), 1) < 63 {
            self.values.push_bit(bit)?;
            return Ok(());
        }
        let empty = <Held as Storage>::empty(*self.counts.allocator());
        let (column, pushed) = std::mem::replace(self, empty).with_last(bit);
        *self = column;
        pushed
    }

    // Pushes a bit that may fill a word, and returns the column with the result. It is a function of its own to keep
    // the common push small. It takes the column by value, so that the compiler need not keep a growing column in
    // memory for this call.
    #[cold]
    #[inline(never)]
    fn with_last(self, bit: bool) -> (Held, Result<(), GrowError>)
        requires { IsSound ranks_format (owned_ranks self) }
        ensures ok { OnOk result.1 (ranked_bits result.0 ≡ ranked_bits self ++ bit ∷ []) }
        ensures err { OnErr result.1 (Stayed ranks_format (owned_ranks self) (owned_ranks result.0)) }
        ensures length { result.1 ≡ Err GrowError.Length → 2 ^ 64 ≤ length (ranked_bits self) + 1 }
        ensures full { 2 ^ 64 ≤ length (ranked_bits self) + 1 → result.1 ≡ Err GrowError.Length }
        ensures kinds { IfErr result.1 IsOfGrowth }
        ensures wanted { result.1 ≡ Err GrowError.Memory → held_top self ≤ length (ranked_bits self) + 1 }
        ensures capacity { (vec_capacity self.values.values ≤ vec_capacity result.0.values.values) × (vec_capacity self.counts ≤ vec_capacity result.0.counts) }
        ensures no_memory { length (ranked_bits self) % 64 < 63 → IsOk result.1 }
        ensures sound { IsSound ranks_format (owned_ranks result.0) }
    {
        let mut column = self;
        let pushed = column.push_last(bit);
        (column, pushed)
    }

    // Does the same as `push_bit`, and handles a bit that completes 1,024 bits.
    fn push_last(&mut self, bit: bool) -> Result<(), GrowError>
        requires { IsSound ranks_format (owned_ranks self.old) }
        ensures ok { OnOk result (ranked_bits self.new ≡ ranked_bits self.old ++ bit ∷ []) }
        ensures err { OnErr result (Stayed ranks_format (owned_ranks self.old) (owned_ranks self.new)) }
        ensures length { result ≡ Err GrowError.Length → 2 ^ 64 ≤ length (ranked_bits self.old) + 1 }
        ensures full { 2 ^ 64 ≤ length (ranked_bits self.old) + 1 → result ≡ Err GrowError.Length }
        ensures kinds { IfErr result IsOfGrowth }
        ensures wanted { result ≡ Err GrowError.Memory → held_top self.old ≤ length (ranked_bits self.old) + 1 }
        ensures capacity { (vec_capacity self.old.values.values ≤ vec_capacity self.new.values.values) × (vec_capacity self.old.counts ≤ vec_capacity self.new.counts) }
        ensures no_memory { length (ranked_bits self.old) % 64 < 63 → IsOk result }
        ensures sound { IsSound ranks_format (owned_ranks self.new) }
    {
        if self.values.len() % 1024 < 1023 {
            self.values.push_bit(bit)?;
            return Ok(());
        }
        self.push_counted(bit)
    }

    // Does the same as `push_bit` for a bit that completes 1,024 bits. It is a function of its own to keep the common
    // push small.
    #[cold]
    #[inline(never)]
    fn push_counted(&mut self, bit: bool) -> Result<(), GrowError>
        requires sound { IsSound ranks_format (owned_ranks self.old) }
        requires completes { length (ranked_bits self.old) % 1024 ≡ 1023 }
        ensures ok { OnOk result (ranked_bits self.new ≡ ranked_bits self.old ++ bit ∷ []) }
        ensures err { OnErr result (Stayed ranks_format (owned_ranks self.old) (owned_ranks self.new)) }
        ensures length { result ≡ Err GrowError.Length → 2 ^ 64 ≤ length (ranked_bits self.old) + 1 }
        ensures full { 2 ^ 64 ≤ length (ranked_bits self.old) + 1 → result ≡ Err GrowError.Length }
        ensures kinds { IfErr result IsOfGrowth }
        ensures wanted { result ≡ Err GrowError.Memory → held_top self.old ≤ length (ranked_bits self.old) + 1 }
        ensures capacity { (vec_capacity self.old.values.values ≤ vec_capacity self.new.values.values) × (vec_capacity self.old.counts ≤ vec_capacity self.new.counts) }
        ensures sound { IsSound ranks_format (owned_ranks self.new) }
    {
        let len = self.values.len();
        if len == usize::MAX {
            return Err(GrowError::Length);
        }
        let total = self.rank(len) as u64 + one_of(bit);
        self.counts.push(total)?;
        match self.values.push_bit(bit) {
            Ok(()) => Ok(()),
            Err(error) => {
                self.counts.truncate(len / 1024);
                Err(error)
            }
        }
    }

    /// Does the same as `extend_from_self` with any column of counted bits, and adds its steps to the tally: at most
    /// one for each 16 bits, plus 64.
    ///
    /// # Requires
    /// Both columns are well-formed, and the range is within `other`.
    pub fn extend_ranked_tallied<C: Words, V: Words, W: Words, L>(
        &mut self,
        other: &RankSelect<C, V, W>,
        range: Range<usize>,
        tally: &mut Tally<L>,
    ) -> Result<(), GrowError>
        requires sound { IsSound ranks_format (owned_ranks self.old) }
        requires other { IsRanked C.bytes V.bytes W.bytes other.now }
        requires ordered { range.start ≤ range.«end» }
        requires in_range { range.«end» ≤ length (bits_ranked V.bytes W.bytes other.now) }
        ensures ok { OnOk result (ranked_bits self.new ≡ ranked_bits self.old ++ slice_range (bits_ranked V.bytes W.bytes other.now) range.start range.«end») }
        ensures err { OnErr result (Stayed ranks_format (owned_ranks self.old) (owned_ranks self.new)) }
        ensures length { result ≡ Err GrowError.Length → 2 ^ 64 ≤ length (ranked_bits self.old) + (range.«end» - range.start) }
        ensures full { 2 ^ 64 ≤ length (ranked_bits self.old) + (range.«end» - range.start) → result ≡ Err GrowError.Length }
        ensures kinds { IfErr result IsOfGrowth }
        ensures wanted { result ≡ Err GrowError.Memory → held_top self.old ≤ length (ranked_bits self.old) + (range.«end» - range.start) }
        ensures capacity { OnOk result ((vec_capacity self.old.values.values ≤ vec_capacity self.new.values.values) × (vec_capacity self.old.counts ≤ vec_capacity self.new.counts)) }
        ensures sound { IsSound ranks_format (owned_ranks self.new) }
        ensures turns { tally.new.turns ≤ tally.old.turns + ((range.«end» - range.start) / 16 + 64) }
    {
        let start = self.values.len();
        self.values
            .extend_bits_from_tallied(&other.values, range, tally)?;
        match count_on(
            &mut self.counts,
            self.values.values.words(),
            self.values.tail.words(),
            tally,
        ) {
            Ok(()) => Ok(()),
            Err(error) => {
                self.values.truncate(start);
                Err(error)
            }
        }
    }
}

impl Clear for Held {
    fn clear(&mut self) {
        self.counts.clear();
        self.values.clear();
    }
}

impl Truncate for Held {
    ghost lawful = { ranks_lawful };

    fn truncate(&mut self, n: usize) {
        self.counts.truncate(n / 1024);
        self.values.truncate(n);
    }
}

impl Storage for Held {
    fn empty(alloc: Global) -> Self {
        RankSelect {
            counts: Vec::new(alloc),
            values: <Bools<Vec<u64>, [u64; 2]> as Storage>::empty(alloc),
        }
    }

    fn duplicate(&self, alloc: Global) -> Result<Self, GrowError> {
        let counts = Vec::from_slice(alloc, self.counts.as_slice())?;
        let values = self.values.duplicate(alloc)?;
        Ok(RankSelect { counts, values })
    }
}

impl Reserve for Held {
    type Room = usize;

    ghost reserves = { Unit {0} };

    ghost covers = { up_to_count };

    fn no_room() -> usize {
        0
    }

    /// Reserves capacity for `room` bits: for the words and the counts that they complete.
    fn reserve_room(&mut self, room: usize) -> Result<(), GrowError> {
        // no column has so many bits: a saturated sum
        if room == usize::MAX {
            return Err(GrowError::Memory);
        }
        let held = self.values.len();
        self.counts
            .reserve(room / 1024 + (room % 1024 + held % 1024) / 1024)?;
        self.values
            .values
            .reserve(room / 64 + (room % 64 + held % 64) / 64)?;
        Ok(())
    }
}

/// `Memory` is returned only if the bit fills a word, that is, if 63 bits follow the last full word.
impl Push<bool> for Held {
    fn push(&mut self, item: bool) -> Result<(), GrowError>
        requires sound { IsSound ranks_format (owned_ranks self.old) }
        ensures ok { OnOk result (Took ranks_format (owned_ranks self.old) (owned_ranks self.new) (truth item ∷ [])) }
        ensures err { IfErr result (λ e. Refused ranks_format (owned_ranks self.old) (owned_ranks self.new) (truth item ∷ []) e) }
        ensures wanted { IfErr result (WasFull (count_room (length (ranked_bits self.old)) (held_top self.old)) (truth item ∷ [])) }
        ensures left { OnOk result (Leaves (count_room (length (ranked_bits self.old)) (held_top self.old)) (count_room (length (ranked_bits self.new)) (held_top self.new)) (truth item ∷ [])) }
        ensures memory { result ≡ Err GrowError.Memory → length (ranked_bits self.old) % 64 ≡ 63 }
    {
        self.push_bit(item)
    }
}

/// Pushes the referenced bit.
impl<'x> Push<&'x bool> for Held {
    fn push(&mut self, item: &'x bool) -> Result<(), GrowError>
        requires sound { IsSound ranks_format (owned_ranks self.old) }
        ensures ok { OnOk result (Took ranks_format (owned_ranks self.old) (owned_ranks self.new) (truth item.now ∷ [])) }
        ensures err { IfErr result (λ e. Refused ranks_format (owned_ranks self.old) (owned_ranks self.new) (truth item.now ∷ []) e) }
        ensures wanted { IfErr result (WasFull (count_room (length (ranked_bits self.old)) (held_top self.old)) (truth item.now ∷ [])) }
        ensures left { OnOk result (Leaves (count_room (length (ranked_bits self.old)) (held_top self.old)) (count_room (length (ranked_bits self.new)) (held_top self.new)) (truth item.now ∷ [])) }
        ensures memory { result ≡ Err GrowError.Memory → length (ranked_bits self.old) % 64 ≡ 63 }
    {
        self.push_ref(item)
    }
}

/// Pushes the referenced bit.
impl PushRef<bool> for Held {
    fn push_ref(&mut self, item: &bool) -> Result<(), GrowError>
        requires sound { IsSound ranks_format (owned_ranks self.old) }
        ensures ok { OnOk result (Took ranks_format (owned_ranks self.old) (owned_ranks self.new) (truth item.now ∷ [])) }
        ensures err { IfErr result (λ e. Refused ranks_format (owned_ranks self.old) (owned_ranks self.new) (truth item.now ∷ []) e) }
        ensures wanted { IfErr result (WasFull (count_room (length (ranked_bits self.old)) (held_top self.old)) (truth item.now ∷ [])) }
        ensures left { OnOk result (Leaves (count_room (length (ranked_bits self.old)) (held_top self.old)) (count_room (length (ranked_bits self.new)) (held_top self.new)) (truth item.now ∷ [])) }
        ensures memory { result ≡ Err GrowError.Memory → length (ranked_bits self.old) % 64 ≡ 63 }
    {
        self.push_bit(*item)
    }
}

impl<'x> ExtendFrom<Viewed<'x>> for Held {
    fn add_room(room: usize, view: Viewed<'x>) -> usize {
        room.saturating_add(most_bits(view.values.values, view.values.tail))
    }

    fn extend_from_self(&mut self, view: Viewed<'x>, range: Range<usize>) -> Result<(), GrowError> {
        self.extend_ranked_tallied(&view, range, &mut Tally::new())
    }
}

impl<'a> Borrow<'a> for Held {
    type Ref = bool;

    type Borrowed = Viewed<'a>;

    type Parts = bool;

    ghost same_format = { refl };

    fn borrow(&'a self) -> Viewed<'a> {
        RankSelect {
            counts: View::from_slice(self.counts.as_slice()),
            values: self.values.borrow(),
        }
    }
}

impl<'a, 'b> Reborrow<'b> for Viewed<'a>
where
    'a: 'b,
{
    type Short = Viewed<'b>;

    ghost same_short = { refl };

    fn reborrow(self) -> Viewed<'b> {
        RankSelect {
            counts: self.counts,
            values: self.values.reborrow(),
        }
    }
}
