//! Booleans, packed as bits.
ghost use Rattle.std.specs.Prelude.{◌≡◌, ℕ, ◌+◌, ◌-◌, ◌*◌, ◌/◌, ◌%◌, ◌^◌, ◌<◌, ◌≤◌, [], ◌∷◌, ◌++◌, length, vec_len, vec_capacity, slice_index_or, slice_range, false, OnOk, OnErr, IfErr, IsOk, refl};
ghost use Rattle.columnar_core.specs.Row.{truth};
ghost use Rattle.columnar_core.specs.Format.{IsSound};
ghost use Rattle.columnar_core.specs.Change.{Stayed, Took, Refused, WasCut};
ghost use Rattle.columnar_core.specs.WordViews.{le_bytes, view_bytes};
ghost use Rattle.columnar_bits.specs.Bits.{bit as bit_of, truths, number_of_bits};
ghost use Rattle.columnar_bits.specs.BoolColumns.{bools_format, bools_content, IsOfGrowth, bits_held, bits_in, owned_content, owned_bits, last_word, last_count, SoundBools, Tail};
ghost use Rattle.columnar_bits.specs.BoolLaws.{bools_lawful};
ghost use Rattle.columnar_bits.specs.Rooms.{count_room, bits_top};
ghost use Rattle.columnar_core.specs.Room.{WasFull, Leaves, Frees, up_to_count};

use columnar_core::container::{
    Borrow, Container, ExtendFrom, Reborrow, Reserve, Storage, Truncate,
};
use columnar_core::fault::GrowError;
use columnar_core::metered::word_or_tail;
use columnar_core::tally::Tally;
use columnar_core::traits::{Clear, Column, Index, Len, Push, PushRef};
use columnar_core::view::View;
use columnar_core::words::{Words, word_at, word_count};
use std::alloc::Global;
use std::ops::Range;

mod bytes;

pub use bytes::judged;

/// Booleans, packed as bits, lowest first.
#[derive(Clone, Copy, PartialEq, Drop)]
pub struct Bools<VC = Vec<u64>, TC = [u64; 2]> {
    /// Whole words of 64 bits.
    pub values: VC,
    /// Two words: the last bits, and their number, which is below 64. No bit from that number on is set.
    pub tail: TC,
}

impl<VC: Words, TC: Words> Column for Bools<VC, TC> {
    ghost format = { bools_format };

    ghost content = { bools_content VC.bytes TC.bytes };

    ghost room = { λ b. count_room (length (bits_held VC.bytes TC.bytes b)) (bits_top (VC.capacity b.values)) };
}

/// Returns the number of bits of whole words and a tail.
///
/// # Requires
/// Well-formed words and tail.
pub fn count_bits(values: View<'_, u64>, tail: View<'_, u64>) -> usize
    requires { SoundBools (view_bytes values) (view_bytes tail) }
    ensures { result ≡ length (bits_in (view_bytes values.entry) (view_bytes tail.entry)) }
{
    64 * word_count(values) + word_at(tail, 1) as usize
}

/// Returns at least the number of bits of whole words and a tail; any number if they are not well formed.
pub fn most_bits(values: View<'_, u64>, tail: View<'_, u64>) -> usize
    ensures { SoundBools (view_bytes values.entry) (view_bytes tail.entry) → length (bits_in (view_bytes values.entry) (view_bytes tail.entry)) ≤ result }
{
    let last = if word_count(tail) == 2 {
        word_at(tail, 1) as usize
    } else {
        0
    };
    word_count(values).saturating_mul(64).saturating_add(last)
}

/// Returns bit `index` of whole words and a tail.
///
/// # Requires
/// Well-formed words and tail, and `index` below their number of bits.
pub fn bit_at(values: View<'_, u64>, tail: View<'_, u64>, index: usize) -> bool
    requires sound { SoundBools (view_bytes values) (view_bytes tail) }
    requires in_range { index < length (bits_in (view_bytes values) (view_bytes tail)) }
    ensures { result ≡ slice_index_or (bits_in (view_bytes values.entry) (view_bytes tail.entry)) index false }
{
    (word_or_tail(values, tail, index / 64) >> (index % 64)) & 1 == 1
}

impl<VC: Words, TC: Words> Len for Bools<VC, TC> {
    fn len(&self) -> usize {
        count_bits(self.values.words(), self.tail.words())
    }
}

impl<VC: Words, TC: Words> Index for Bools<VC, TC> {
    type Ref = bool;

    fn get(&self, index: usize) -> bool {
        bit_at(self.values.words(), self.tail.words(), index)
    }
}

// Returns the lowest `count` bits of the word, and zeros above.
#[tactic(auto, using(crate::specs::BitLaws::bit_low, crate::specs::BitLaws::low_below))]
fn low_bits(word: u64, count: u64) -> u64
    requires { count < 64 }
    ensures same { (j : ℕ) → j < count → bit_of result j ≡ bit_of word j }
    ensures below { result < 2 ^ count }
{
    word & ((1 << count) - 1)
}

// Returns the lowest `at` bits of `low`, with the bits of `high` above.
#[tactic(auto, using(crate::specs::BitLaws::join_low, crate::specs::BitLaws::join_high, crate::specs::BitLaws::join_below))]
fn joined(low: u64, high: u64, at: u64) -> u64
    requires within { at < 64 }
    requires apart { low < 2 ^ at }
    ensures low { (j : ℕ) → j < at → bit_of result j ≡ bit_of low j }
    ensures high { (j : ℕ) → at ≤ j → j < 64 → bit_of result j ≡ bit_of high (j - at) }
    ensures below { (n : ℕ) → high < 2 ^ n → at + n ≤ 64 → result < 2 ^ (at + n) }
{
    low | high << at
}

// Returns the upper bits of `bits`, of `count` bits, that do not fit into a word that has `at` bits already.
#[tactic(auto, using(crate::specs::BitLaws::spill_bit, crate::specs::BitLaws::spill_below))]
fn spilled(bits: u64, at: u64, count: u64) -> u64
    requires within { (at < 64) × (count ≤ 64) }
    requires over { 64 ≤ at + count }
    requires below { bits < 2 ^ count }
    ensures same { (j : ℕ) → j < at + count - 64 → bit_of result j ≡ bit_of bits (j + (64 - at)) }
    ensures below { result < 2 ^ (at + count - 64) }
{
    if at == 0 { 0 } else { bits >> (64 - at) }
}

// Returns a word whose lowest `count` bits are those from `index` on.
#[tactic(auto, using(crate::specs::BitLaws::bit_shr, crate::specs::BitLaws::high_part, crate::specs::BoolLaws::bits_length))]
fn window(values: View<'_, u64>, tail: View<'_, u64>, index: usize, count: usize) -> u64
    requires sound { SoundBools (view_bytes values) (view_bytes tail) }
    requires short { (0 < count) × (count ≤ 64) }
    requires in_range { index + count ≤ length (bits_in (view_bytes values) (view_bytes tail)) }
    ensures { (j : ℕ) → j < count → bit_of result j ≡ slice_index_or (bits_in (view_bytes values.entry) (view_bytes tail.entry)) (index + j) false }
{
    let at = (index % 64) as u64;
    let low = word_or_tail(values, tail, index / 64) >> at;
    if at + count as u64 <= 64 {
        low
    } else {
        joined(low, word_or_tail(values, tail, index / 64 + 1), 64 - at)
    }
}

// Returns the `count` bits from `index` on as a number.
#[tactic(auto, using(crate::specs::BitLaws::range_truths))]
fn taken(values: View<'_, u64>, tail: View<'_, u64>, index: usize, count: usize) -> u64
    requires sound { SoundBools (view_bytes values) (view_bytes tail) }
    requires short { count ≤ 64 }
    requires in_range { index + count ≤ length (bits_in (view_bytes values) (view_bytes tail)) }
    ensures bits { truths (bit_of result) count ≡ slice_range (bits_in (view_bytes values.entry) (view_bytes tail.entry)) index (index + count) }
    ensures below { result < 2 ^ count }
{
    if count == 0 {
        return 0;
    }
    let window = window(values, tail, index, count);
    if count == 64 {
        window
    } else {
        low_bits(window, count as u64)
    }
}

impl<VC: Words, TC: Words> Bools<VC, TC> {
    /// Returns the `count` bits from `index` on as a number, the first bit lowest.
    ///
    /// # Requires
    /// A well-formed column with these bits, and at most 64 of them.
    #[tactic(auto, using(crate::specs::BitLaws::bits_number))]
    pub fn bits_at(&self, index: usize, count: usize) -> u64
        requires sound { IsSound bools_format (bools_content VC.bytes TC.bytes self.now) }
        requires short { count ≤ 64 }
        requires in_range { index + count ≤ length (bits_held VC.bytes TC.bytes self.now) }
        ensures bits { truths (bit_of result) count ≡ slice_range (bits_held VC.bytes TC.bytes self.now) index (index + count) }
        ensures below { result < 2 ^ count }
        ensures number { result ≡ number_of_bits (slice_range (bits_held VC.bytes TC.bytes self.now) index (index + count)) }
    {
        taken(self.values.words(), self.tail.words(), index, count)
    }
}

// Returns the last bits of a tail, and their number.
pub(crate) fn tail_parts(tail: View<'_, u64>) -> (u64, u64)
    requires { length (view_bytes tail) ≡ 16 }
    ensures word { result.0 ≡ last_word (view_bytes tail.entry) }
    ensures count { result.1 ≡ last_count (view_bytes tail.entry) }
{
    (word_at(tail, 0), word_at(tail, 1))
}

// Returns the tail of these two words.
pub(crate) fn tail_of(word: u64, count: u64) -> [u64; 2]
    ensures { Tail (le_bytes result) word count }
{
    [word, count]
}

// Returns one bit as a number.
#[tactic(auto, using(crate::specs::BoolLaws::bit_one, crate::specs::BoolLaws::bit_zero))]
fn one_bit(bit: bool) -> u64
    ensures bits { truths (bit_of result) 1 ≡ bit ∷ [] }
    ensures below { result < 2 ^ 1 }
{
    if bit { 1 } else { 0 }
}

// Returns a column without bits.
fn no_bits(alloc: Global) -> Bools<Vec<u64>, [u64; 2]>
    ensures sound { IsSound bools_format (owned_content result) }
    ensures bits { owned_bits result ≡ [] }
{
    Bools {
        values: Vec::new(alloc),
        tail: tail_of(0, 0),
    }
}

// Returns the column followed by the bits of `count` words, from bit `start` on; the capacity suffices. It takes the
// column by value: then the compiler knows that the writes change neither its length nor its address. Takes a step for
// each word.
#[inline]
fn with_words<L>(
    column: Bools<Vec<u64>, [u64; 2]>,
    values: View<'_, u64>,
    tail: View<'_, u64>,
    start: usize,
    count: usize,
    tally: &mut Tally<L>,
) -> Bools<Vec<u64>, [u64; 2]>
    requires sound { IsSound bools_format (owned_content column) }
    requires other { SoundBools (view_bytes values) (view_bytes tail) }
    requires in_range { start + 64 * count ≤ length (bits_in (view_bytes values) (view_bytes tail)) }
    requires room { vec_len column.values + count ≤ vec_capacity column.values }
    requires short { length (owned_bits column) + 64 * count < 2 ^ 64 }
    ensures bits { owned_bits result ≡ owned_bits column ++ slice_range (bits_in (view_bytes values.entry) (view_bytes tail.entry)) start (start + 64 * count) }
    ensures sound { IsSound bools_format (owned_content result) }
    ensures capacity { vec_capacity result.values ≡ vec_capacity column.values }
    ensures turns { tally.new.turns ≤ tally.old.turns + count }
{
    let mut column = column;
    for i in 0..count {
        tally.tick();
        column.append_word(taken(values, tail, start + 64 * i, 64));
    }
    column
}

impl Bools<Vec<u64>, [u64; 2]> {
    /// Appends the lowest `count` bits of `bits`, lowest first, or none. Succeeds without memory if they complete no
    /// word.
    ///
    /// # Requires
    /// A well-formed column; at most 64 bits, and no bit of `bits` set from `count` on.
    ///
    /// # Errors
    /// `Length` if and only if there would be more than 2^64 - 1 bits, or `Memory`. The column stays.
    #[inline(always)]
    pub fn push_bits(&mut self, bits: u64, count: usize) -> Result<(), GrowError>
        requires sound { IsSound bools_format (owned_content self.old) }
        requires short { count ≤ 64 }
        requires below { bits < 2 ^ count }
        ensures ok { OnOk result (owned_bits self.new ≡ owned_bits self.old ++ truths (bit_of bits) count) }
        ensures err { OnErr result (owned_content self.new ≡ owned_content self.old) }
        ensures length { result ≡ Err GrowError.Length → 2 ^ 64 ≤ length (owned_bits self.old) + count }
        ensures full { 2 ^ 64 ≤ length (owned_bits self.old) + count → result ≡ Err GrowError.Length }
        ensures kinds { IfErr result IsOfGrowth }
        ensures no_memory { length (owned_bits self.old) % 64 + count < 64 → IsOk result }
        ensures wanted { result ≡ Err GrowError.Memory → bits_top (vec_capacity self.old.values) ≤ length (owned_bits self.old) + count }
        ensures capacity { vec_capacity self.old.values ≤ vec_capacity self.new.values }
        ensures sound { IsSound bools_format (owned_content self.new) }
    {
        let (word, have) = tail_parts(self.tail.words());
        let total = have + count as u64;
        let full = joined(word, bits, have);
        if total < 64 {
            self.tail = tail_of(full, total);
            return Ok(());
        }
        if self.values.len() == usize::MAX / 64 {
            return Err(GrowError::Length);
        }
        let rest = spilled(bits, have, count as u64);
        self.values.push(full)?;
        self.tail = tail_of(rest, total - 64);
        Ok(())
    }

    // Appends the bits of a word, lowest first; the capacity suffices.
    #[inline(always)]
    fn append_word(&mut self, bits: u64)
        requires sound { IsSound bools_format (owned_content self.old) }
        requires room { vec_len self.old.values < vec_capacity self.old.values }
        requires short { length (owned_bits self.old) + 64 < 2 ^ 64 }
        ensures bits { owned_bits self.new ≡ owned_bits self.old ++ truths (bit_of bits) 64 }
        ensures sound { IsSound bools_format (owned_content self.new) }
        ensures len { vec_len self.new.values ≡ vec_len self.old.values + 1 }
        ensures capacity { vec_capacity self.new.values ≡ vec_capacity self.old.values }
    {
        let (word, have) = tail_parts(self.tail.words());
        self.values.push_reserved(joined(word, bits, have));
        self.tail = tail_of(spilled(bits, have, 64), have);
    }

    /// Appends one bit. Succeeds without memory if it completes no word.
    ///
    /// # Requires
    /// A well-formed column.
    ///
    /// # Errors
    /// As `push_bits`.
    #[inline(always)]
    pub fn push_bit(&mut self, bit: bool) -> Result<(), GrowError>
        requires { IsSound bools_format (owned_content self.old) }
        ensures ok { OnOk result (owned_bits self.new ≡ owned_bits self.old ++ bit ∷ []) }
        ensures err { OnErr result (owned_content self.new ≡ owned_content self.old) }
        ensures length { result ≡ Err GrowError.Length → 2 ^ 64 ≤ length (owned_bits self.old) + 1 }
        ensures full { 2 ^ 64 ≤ length (owned_bits self.old) + 1 → result ≡ Err GrowError.Length }
        ensures kinds { IfErr result IsOfGrowth }
        ensures no_memory { length (owned_bits self.old) % 64 < 63 → IsOk result }
        ensures wanted { result ≡ Err GrowError.Memory → bits_top (vec_capacity self.old.values) ≤ length (owned_bits self.old) + 1 }
        ensures capacity { vec_capacity self.old.values ≤ vec_capacity self.new.values }
        ensures sound { IsSound bools_format (owned_content self.new) }
    {
        let (word, have) = tail_parts(self.tail.words());
        if have < 63 {
            self.tail = tail_of(joined(word, one_bit(bit), have), have + 1);
            return Ok(());
        }
        self.push_bits(one_bit(bit), 1)
    }

    /// Appends the bits of the range of `other`, up to 64 at a time, or none. Counts its steps in the tally: at most
    /// one for each 64 bits, and one more.
    ///
    /// # Requires
    /// Well-formed columns, and a range of the bits of `other`.
    ///
    /// # Errors
    /// `Length` if and only if there would be more than 2^64 - 1 bits, or `Memory`. The bits stay.
    pub fn extend_bits_from_tallied<V: Words, T: Words, L>(
        &mut self,
        other: &Bools<V, T>,
        range: Range<usize>,
        tally: &mut Tally<L>,
    ) -> Result<(), GrowError>
        requires sound { IsSound bools_format (owned_content self.old) }
        requires other { IsSound bools_format (bools_content V.bytes T.bytes other.now) }
        requires ordered { range.start ≤ range.«end» }
        requires in_range { range.«end» ≤ length (bits_held V.bytes T.bytes other.now) }
        ensures ok { OnOk result (owned_bits self.new ≡ owned_bits self.old ++ slice_range (bits_held V.bytes T.bytes other.now) range.start range.«end») }
        ensures err { OnErr result (Stayed bools_format (owned_content self.old) (owned_content self.new)) }
        ensures length { result ≡ Err GrowError.Length → 2 ^ 64 ≤ length (owned_bits self.old) + (range.«end» - range.start) }
        ensures full { 2 ^ 64 ≤ length (owned_bits self.old) + (range.«end» - range.start) → result ≡ Err GrowError.Length }
        ensures kinds { IfErr result IsOfGrowth }
        ensures wanted { result ≡ Err GrowError.Memory → bits_top (vec_capacity self.old.values) ≤ length (owned_bits self.old) + (range.«end» - range.start) }
        ensures capacity { OnOk result (vec_capacity self.old.values ≤ vec_capacity self.new.values) }
        ensures sound { IsSound bools_format (owned_content self.new) }
        ensures turns { tally.new.turns ≤ tally.old.turns + ((range.«end» - range.start) / 64 + 1) }
    {
        let start = self.len();
        let count = range.end - range.start;
        if count > usize::MAX - start {
            return Err(GrowError::Length);
        }
        // (capacity for at least the words that are completed, reserved at once)
        let words = count / 64;
        self.values.reserve(words)?;
        let empty = no_bits(*self.values.allocator());
        let own = std::mem::replace(self, empty);
        let values = other.values.words();
        let tail = other.tail.words();
        *self = with_words(own, values, tail, range.start, words, tally);
        let rest = taken(values, tail, range.start + 64 * words, count % 64);
        match self.push_bits(rest, count % 64) {
            Ok(()) => {}
            Err(error) => {
                self.truncate(start);
                return Err(error);
            }
        }
        Ok(())
    }

    /// Appends the bits of the range of `other`, up to 64 at a time, or none.
    ///
    /// # Requires
    /// Well-formed columns, and a range of the bits of `other`.
    ///
    /// # Errors
    /// `Length` if and only if there would be more than 2^64 - 1 bits, or `Memory`. The bits stay.
    pub fn extend_bits_from<V: Words, T: Words>(
        &mut self,
        other: &Bools<V, T>,
        range: Range<usize>,
    ) -> Result<(), GrowError>
        requires sound { IsSound bools_format (owned_content self.old) }
        requires other { IsSound bools_format (bools_content V.bytes T.bytes other.now) }
        requires ordered { range.start ≤ range.«end» }
        requires in_range { range.«end» ≤ length (bits_held V.bytes T.bytes other.now) }
        ensures ok { OnOk result (owned_bits self.new ≡ owned_bits self.old ++ slice_range (bits_held V.bytes T.bytes other.now) range.start range.«end») }
        ensures err { OnErr result (Stayed bools_format (owned_content self.old) (owned_content self.new)) }
        ensures length { result ≡ Err GrowError.Length → 2 ^ 64 ≤ length (owned_bits self.old) + (range.«end» - range.start) }
        ensures full { 2 ^ 64 ≤ length (owned_bits self.old) + (range.«end» - range.start) → result ≡ Err GrowError.Length }
        ensures kinds { IfErr result IsOfGrowth }
        ensures wanted { result ≡ Err GrowError.Memory → bits_top (vec_capacity self.old.values) ≤ length (owned_bits self.old) + (range.«end» - range.start) }
        ensures capacity { OnOk result (vec_capacity self.old.values ≤ vec_capacity self.new.values) }
        ensures sound { IsSound bools_format (owned_content self.new) }
    {
        self.extend_bits_from_tallied(other, range, &mut Tally::new())
    }
}

impl Clear for Bools<Vec<u64>, [u64; 2]> {
    fn clear(&mut self)
        ensures sound { IsSound bools_format (owned_content self.new) }
        ensures rows { bools_format.rows (owned_content self.new) ≡ [] }
        ensures freed { Frees bools_format (owned_content self.old) 0 (count_room (length (owned_bits self.old)) (bits_top (vec_capacity self.old.values))) (count_room (length (owned_bits self.new)) (bits_top (vec_capacity self.new.values))) }
        ensures capacity { vec_capacity self.old.values ≤ vec_capacity self.new.values }
    {
        self.values.clear();
        self.tail = tail_of(0, 0);
    }
}

impl Truncate for Bools<Vec<u64>, [u64; 2]> {
    ghost lawful = { bools_lawful };

    fn truncate(&mut self, n: usize)
        requires sound { IsSound bools_format (owned_content self.old) }
        requires in_range { n ≤ length (bools_format.rows (owned_content self.old)) }
        ensures cut { WasCut bools_format (owned_content self.old) (owned_content self.new) n }
        ensures freed { Frees bools_format (owned_content self.old) n (count_room (length (owned_bits self.old)) (bits_top (vec_capacity self.old.values))) (count_room (length (owned_bits self.new)) (bits_top (vec_capacity self.new.values))) }
        ensures capacity { vec_capacity self.old.values ≤ vec_capacity self.new.values }
    {
        let count = (n % 64) as u64;
        let word = low_bits(
            word_or_tail(self.values.words(), self.tail.words(), n / 64),
            count,
        );
        self.values.truncate(n / 64);
        self.tail = tail_of(word, count);
    }
}

impl Storage for Bools<Vec<u64>, [u64; 2]> {
    fn empty(alloc: Global) -> Self {
        no_bits(alloc)
    }

    fn duplicate(&self, alloc: Global) -> Result<Self, GrowError> {
        let values = Vec::from_slice(alloc, self.values.as_slice())?;
        Ok(Bools {
            values,
            tail: self.tail,
        })
    }
}

impl Reserve for Bools<Vec<u64>, [u64; 2]> {
    type Room = usize;

    ghost reserves = { Unit {0} };

    ghost covers = { up_to_count };

    fn no_room() -> usize {
        0
    }

    /// Reserves capacity for `room` bits: for the words that they fill with the bits of the tail.
    fn reserve_room(&mut self, room: usize) -> Result<(), GrowError> {
        // no column has so many bits: a saturated sum
        if room == usize::MAX {
            return Err(GrowError::Memory);
        }
        let (_, have) = tail_parts(self.tail.words());
        self.values
            .reserve(room / 64 + (room % 64 + have as usize) / 64)?;
        Ok(())
    }
}

impl Push<bool> for Bools<Vec<u64>, [u64; 2]> {
    /// Appends one bit. Succeeds without memory if it completes no word.
    ///
    /// # Requires
    /// A well-formed column.
    ///
    /// # Errors
    /// As `Push::push`.
    fn push(&mut self, item: bool) -> Result<(), GrowError>
        requires sound { IsSound bools_format (owned_content self.old) }
        ensures ok { OnOk result (Took bools_format (owned_content self.old) (owned_content self.new) (truth item ∷ [])) }
        ensures err { IfErr result (λ e. Refused bools_format (owned_content self.old) (owned_content self.new) (truth item ∷ []) e) }
        ensures wanted { IfErr result (WasFull (count_room (length (owned_bits self.old)) (bits_top (vec_capacity self.old.values))) (truth item ∷ [])) }
        ensures left { OnOk result (Leaves (count_room (length (owned_bits self.old)) (bits_top (vec_capacity self.old.values))) (count_room (length (owned_bits self.new)) (bits_top (vec_capacity self.new.values))) (truth item ∷ [])) }
        ensures no_memory { length (owned_bits self.old) % 64 < 63 → IsOk result }
    {
        self.push_bit(item)
    }
}

impl<'x> Push<&'x bool> for Bools<Vec<u64>, [u64; 2]> {
    /// Appends one bit. Succeeds without memory if it completes no word.
    ///
    /// # Requires
    /// A well-formed column.
    ///
    /// # Errors
    /// As `Push::push`.
    fn push(&mut self, item: &'x bool) -> Result<(), GrowError>
        requires sound { IsSound bools_format (owned_content self.old) }
        ensures ok { OnOk result (Took bools_format (owned_content self.old) (owned_content self.new) (truth item.now ∷ [])) }
        ensures err { IfErr result (λ e. Refused bools_format (owned_content self.old) (owned_content self.new) (truth item.now ∷ []) e) }
        ensures wanted { IfErr result (WasFull (count_room (length (owned_bits self.old)) (bits_top (vec_capacity self.old.values))) (truth item.now ∷ [])) }
        ensures left { OnOk result (Leaves (count_room (length (owned_bits self.old)) (bits_top (vec_capacity self.old.values))) (count_room (length (owned_bits self.new)) (bits_top (vec_capacity self.new.values))) (truth item.now ∷ [])) }
        ensures no_memory { length (owned_bits self.old) % 64 < 63 → IsOk result }
    {
        self.push_ref(item)
    }
}

impl PushRef<bool> for Bools<Vec<u64>, [u64; 2]> {
    /// Appends one bit. Succeeds without memory if it completes no word.
    ///
    /// # Requires
    /// A well-formed column.
    ///
    /// # Errors
    /// As `Push::push`.
    fn push_ref(&mut self, item: &bool) -> Result<(), GrowError>
        requires sound { IsSound bools_format (owned_content self.old) }
        ensures ok { OnOk result (Took bools_format (owned_content self.old) (owned_content self.new) (truth item.now ∷ [])) }
        ensures err { IfErr result (λ e. Refused bools_format (owned_content self.old) (owned_content self.new) (truth item.now ∷ []) e) }
        ensures wanted { IfErr result (WasFull (count_room (length (owned_bits self.old)) (bits_top (vec_capacity self.old.values))) (truth item.now ∷ [])) }
        ensures left { OnOk result (Leaves (count_room (length (owned_bits self.old)) (bits_top (vec_capacity self.old.values))) (count_room (length (owned_bits self.new)) (bits_top (vec_capacity self.new.values))) (truth item.now ∷ [])) }
        ensures no_memory { length (owned_bits self.old) % 64 < 63 → IsOk result }
    {
        self.push_bit(*item)
    }
}

impl<'x> ExtendFrom<Bools<View<'x, u64>, View<'x, u64>>> for Bools<Vec<u64>, [u64; 2]> {
    fn add_room(room: usize, view: Bools<View<'x, u64>, View<'x, u64>>) -> usize {
        room.saturating_add(most_bits(view.values, view.tail))
    }

    fn extend_from_self(
        &mut self,
        view: Bools<View<'x, u64>, View<'x, u64>>,
        range: Range<usize>,
    ) -> Result<(), GrowError> {
        self.extend_bits_from(&view, range)
    }
}

impl<'a> Borrow<'a> for Bools<Vec<u64>, [u64; 2]> {
    type Ref = bool;

    type Borrowed = Bools<View<'a, u64>, View<'a, u64>>;

    type Parts = bool;

    ghost same_format = { refl };

    fn borrow(&'a self) -> Bools<View<'a, u64>, View<'a, u64>> {
        Bools {
            values: View::from_slice(self.values.as_slice()),
            tail: View::from_slice(&self.tail),
        }
    }
}

impl<'a> Container<'a> for Bools<Vec<u64>, [u64; 2]> {}

impl<'a, 'b> Reborrow<'b> for Bools<View<'a, u64>, View<'a, u64>>
where
    'a: 'b,
{
    type Short = Bools<View<'b, u64>, View<'b, u64>>;

    ghost same_short = { refl };

    fn reborrow(self) -> Bools<View<'b, u64>, View<'b, u64>> {
        Bools {
            values: self.values,
            tail: self.tail,
        }
    }
}

impl<'x, VC: Words, TC: Words> Index for &'x Bools<VC, TC> {
    type Ref = bool;

    fn get(&self, index: usize) -> bool {
        bit_at(self.values.words(), self.tail.words(), index)
    }
}
