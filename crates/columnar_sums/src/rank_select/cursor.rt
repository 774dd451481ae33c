//! A forward cursor over bits, which caches its current word.
ghost use Rattle.std.specs.Prelude.{◌≡◌, ℕ, ◌+◌, ◌-◌, ◌*◌, ◌/◌, ◌%◌, ◌<◌, ◌≤◌, ◌^◌, ◌↔◌, [], ◌∷◌, ◌++◌, length, max, min, slice_index_or, true, false, IsTrue, IfSome, IfNone, MatchOption};
ghost use Rattle.std.specs.List.{range_with_len};
ghost use Rattle.columnar_core.specs.WordViews.{words_in};
ghost use Rattle.columnar_bits.specs.Bits.{bit as bit_of, bit_in};
ghost use Rattle.columnar_base.specs.Digits.{digits};
ghost use Rattle.columnar_sums.specs.Counting.{ones, ones_below, place, Adds};
ghost use Rattle.columnar_sums.specs.RankColumns.{bits_ranked, IsRanked, IsAt, AreClear, IsNextTrue, AreFalseFrom, Standing};

use super::RankSelect;
use super::search::{one_of, ones_in};
use columnar_core::metered::MeteredWords;
use columnar_core::tally::Tally;
use columnar_core::traits::Len;
use columnar_core::words::Words;
use std::marker::Model;

// The number of the current word, its bits that are left, and the position of the next bit.
#[derive(Clone, Copy)]
struct Place {
    index: usize,
    rest: u64,
    pos: usize,
}

// Finds the next set bit. Loads the following words in order, up to the word that has it.
#[tactic(auto, using(crate::specs::PlaceLaws::move_on, crate::specs::PlaceLaws::after_found, crate::specs::PlaceLaws::lowest, crate::specs::PlaceLaws::none_here, crate::specs::PlaceLaws::stays, crate::specs::PlaceLaws::load_more, crate::specs::PlaceLaws::load_none))]
fn next_in<L>(words: &MeteredWords<'_, L>, place: &mut Place, tally: &mut Tally<L>) -> Option<usize>
    requires at { IsAt words.now place.old.index place.old.rest place.old.pos }
    requires short { length words.now ≤ 2 ^ 58 }
    requires last { bit_in words.now (64 * length words.now - 1) ≡ false }
    ensures at { IsAt words.now place.new.index place.new.rest place.new.pos }
    ensures found { IfSome result (λ q. (q < 64 * length words.now) × (place.old.pos ≤ q) × (bit_in words.now q ≡ true) × AreClear words.now place.old.pos q × (place.new.pos ≡ q + 1)) }
    ensures none { IfNone result (AreClear words.now place.old.pos (64 * length words.now) × (place.new.pos ≡ max place.old.pos (64 * (length words.now - 1)))) }
    ensures word { IfSome result (λ q. place.new.index ≡ q / 64) }
    ensures floor { 64 * place.new.index ≤ place.new.pos }
    ensures forward { place.old.index ≤ place.new.index }
    ensures loads { tally.new.words ≡ tally.old.words ++ range_with_len (place.old.index + 1) (place.new.index - place.old.index) }
    ensures counts { tally.new.counts ≡ tally.old.counts }
    ensures turns { tally.new.turns + place.old.index ≡ tally.old.turns + place.new.index }
{
    while place.rest == 0 {
        if place.index + 1 == words.len() {
            place.pos = place.pos.max(64 * place.index);
            return None;
        }
        tally.tick();
        place.index += 1;
        place.rest = words.read(place.index, tally);
    }
    let low = place.rest.trailing_zeros();
    let found = 64 * place.index + low as usize;
    place.rest &= !(1 << low);
    place.pos = found + 1;
    Some(found)
}

// Returns the next bit. Loads the next word if the current one is used up.
#[tactic(auto, using(crate::specs::PlaceLaws::load_more, crate::specs::PlaceLaws::load_none))]
fn step_in<L>(words: &MeteredWords<'_, L>, place: &mut Place, tally: &mut Tally<L>) -> bool
    requires at { IsAt words.now place.old.index place.old.rest place.old.pos }
    requires floor { 64 * place.old.index ≤ place.old.pos }
    requires short { length words.now ≤ 2 ^ 58 }
    requires in_range { place.old.pos < 64 * length words.now }
    requires fits { place.old.pos + 1 < 2 ^ 64 }
    ensures at { IsAt words.now place.new.index place.new.rest place.new.pos }
    ensures value { result ≡ bit_in words.now place.old.pos }
    ensures pos { place.new.pos ≡ place.old.pos + 1 }
    ensures floor { 64 * place.new.index ≤ place.new.pos }
    ensures forward { place.old.index ≤ place.new.index }
    ensures one { place.new.index ≤ place.old.index + 1 }
    ensures loads { tally.new.words ≡ tally.old.words ++ range_with_len (place.old.index + 1) (place.new.index - place.old.index) }
    ensures counts { tally.new.counts ≡ tally.old.counts }
    ensures turns { tally.new.turns ≡ tally.old.turns }
{
    if place.pos - 64 * place.index == 64 {
        place.index += 1;
        place.rest = words.read(place.index, tally);
        take_bit(words, place)
    } else {
        take_bit(words, place)
    }
}

// Returns the bit at the position, which is in the current word. Reads nothing.
fn take_bit<L>(words: &MeteredWords<'_, L>, place: &mut Place) -> bool
    requires at { IsAt words.now place.old.index place.old.rest place.old.pos }
    requires floor { 64 * place.old.index ≤ place.old.pos }
    requires inside { place.old.pos < 64 * place.old.index + 64 }
    requires fits { place.old.pos + 1 < 2 ^ 64 }
    ensures at { IsAt words.now place.new.index place.new.rest place.new.pos }
    ensures value { result ≡ bit_in words.now place.old.pos }
    ensures pos { place.new.pos ≡ place.old.pos + 1 }
    ensures index { place.new.index ≡ place.old.index }
{
    let at = place.pos - 64 * place.index;
    let bit = (place.rest >> at) & 1 == 1;
    place.rest &= !(1 << at);
    place.pos += 1;
    bit
}

// Returns the word with its lowest `count` bits cleared.
fn cleared_below(word: u64, count: u64) -> u64
    requires { count < 64 }
    ensures low { (j : ℕ) → j < count → bit_of result j ≡ false }
    ensures high { (j : ℕ) → count ≤ j → j < 64 → bit_of result j ≡ bit_of word j }
{
    (word >> count) << count
}

// Moves forward to `end` in the current word, and returns how many set bits it passed. Reads nothing.
fn skip_in<L>(words: &MeteredWords<'_, L>, place: &mut Place, end: usize) -> u64
    requires at { IsAt words.now place.old.index place.old.rest place.old.pos }
    requires floor { 64 * place.old.index ≤ place.old.pos }
    requires forward { place.old.pos ≤ end }
    requires inside { end < 64 * place.old.index + 64 }
    ensures at { IsAt words.now place.new.index place.new.rest place.new.pos }
    ensures passed { ones_below (bit_in words.now) place.old.pos + result ≡ ones_below (bit_in words.now) end }
    ensures pos { place.new.pos ≡ end }
    ensures index { place.new.index ≡ place.old.index }
{
    let at = (end - 64 * place.index) as u64;
    let passed = ones_in(place.rest, at);
    place.rest = cleared_below(place.rest, at);
    place.pos = end;
    passed
}

// Returns the place of bit `end`, with its word loaded.
fn place_at<L>(words: &MeteredWords<'_, L>, end: usize, tally: &mut Tally<L>) -> Place
    requires { end / 64 < length words.now }
    ensures at { IsAt words.now result.index result.rest result.pos }
    ensures pos { result.pos ≡ end }
    ensures index { result.index ≡ end / 64 }
    ensures words { tally.new.words ≡ tally.old.words ++ end / 64 ∷ [] }
    ensures counts { tally.new.counts ≡ tally.old.counts }
    ensures turns { tally.new.turns ≡ tally.old.turns }
{
    let index = end / 64;
    let rest = cleared_below(words.read(index, tally), (end % 64) as u64);
    Place {
        index,
        rest,
        pos: end,
    }
}

impl<CC: Words, VC: Words, WC: Words> RankSelect<CC, VC, WC> {
    // Returns the first set bit from bit `from` on, and adds to the tally the words that it loads: in order, from that of
    // `from` up to that of the bit, with a step from each to the next.
    pub(crate) fn next_true_tallied<L>(&self, from: usize, tally: &mut Tally<L>) -> Option<usize>
        requires ranked { IsRanked CC.bytes VC.bytes WC.bytes self.now }
        requires in_range { from ≤ length (bits_ranked VC.bytes WC.bytes self.now) }
        ensures found { IfSome result (λ q. (q < length (bits_ranked VC.bytes WC.bytes self.now)) × IsNextTrue (bits_ranked VC.bytes WC.bytes self.now) from q) }
        ensures none { IfNone result (AreFalseFrom (bits_ranked VC.bytes WC.bytes self.now) from) }
        ensures loads { IfSome result (λ q. tally.new.words ≡ tally.old.words ++ from / 64 ∷ [] ++ range_with_len (from / 64 + 1) (q / 64 - from / 64)) }
        ensures counts { tally.new.counts ≡ tally.old.counts }
        ensures turns { IfSome result (λ q. tally.new.turns + from / 64 ≡ tally.old.turns + q / 64) }
    {
        let words = self.metered_words();
        let mut place = place_at(&words, from, tally);
        next_in(&words, &mut place, tally)
    }
}

/// A position among the bits of a column that only moves forward. It caches the current word and the number of set bits
/// before the position. The position is a bit of that word, or the word's end.
#[derive(Drop)]
pub struct Cursor<'a, CC: Words, VC: Words, WC: Words> {
    column: &'a RankSelect<CC, VC, WC>,
    place: Place,
    rank: u64,
}

impl<'a, CC: Words, VC: Words, WC: Words> Model for Cursor<'a, CC, VC, WC> {
    ghost use Rattle.std.specs.Prelude.{length};
    ghost use Rattle.columnar_core.specs.WordViews.{words_in};
    ghost use Rattle.columnar_sums.specs.RankColumns.{bits_ranked, Standing};
    ghost use Rattle.columnar_sums.specs.Cursors.{CursorStands};

    ghost Value = { Standing };

    ghost view = { λ c. record { bits = bits_ranked VC.bytes WC.bytes c.column.now; pos = c.place.pos; word = c.place.index; counts = length (words_in (CC.bytes c.column.now.counts)) } };

    ghost invariant = { λ c. CursorStands (CC.bytes c.column.now.counts) (VC.bytes c.column.now.values.values) (WC.bytes c.column.now.values.tail) c.place.index c.place.rest c.place.pos c.rank };
}

impl<'a, CC: Words, VC: Words, WC: Words> Cursor<'a, CC, VC, WC> {
    // Creates a cursor before the first bit, with word 0 loaded.
    pub(crate) fn new<L>(
        column: &'a RankSelect<CC, VC, WC>,
        tally: &mut Tally<L>,
    ) -> Cursor<'a, CC, VC, WC>
        requires { IsRanked CC.bytes VC.bytes WC.bytes column.now }
        ensures stands { result ≡ record { bits = bits_ranked VC.bytes WC.bytes column.now; pos = 0; word = 0; counts = length (words_in (CC.bytes column.now.counts)) } }
        ensures loads { tally.new.words ≡ tally.old.words ++ 0 ∷ [] }
        ensures counts { tally.new.counts ≡ tally.old.counts }
        ensures turns { tally.new.turns ≡ tally.old.turns }
    {
        let place = place_at(&column.metered_words(), 0, tally);
        Cursor {
            column,
            place,
            rank: 0,
        }
    }

    /// Returns the position of the next bit, or the number of bits at the end. It never decreases.
    pub fn pos(&self) -> usize
        ensures value { result ≡ self.now.pos }
        ensures inside { result ≤ length self.now.bits }
    {
        self.place.pos
    }

    /// Counts the set bits before the position.
    pub fn rank(&self) -> u64
        ensures { result ≡ ones self.now.bits self.now.pos }
    {
        self.rank
    }

    // Returns the same number as `rank`, for functions that count their reads: the cursor stores it.
    pub(crate) fn trues_before(&self) -> u64
        ensures { result ≡ ones self.now.bits self.now.pos }
    {
        self.rank
    }

    /// Returns the number of bits.
    pub fn total_bits(&self) -> usize
        ensures { result ≡ length self.now.bits }
    {
        let column = self.column;
        column.len()
    }

    /// Does the same as `next_one`, and adds the words it loads to the tally. It loads the words after the current one
    /// in order, one in each step, up to the word in which it stops.
    pub fn next_one_tallied<L>(&mut self, tally: &mut Tally<L>) -> Option<usize>
        ensures bits { (self.new.bits ≡ self.old.bits) × (self.new.counts ≡ self.old.counts) }
        ensures onward { self.old.pos ≤ self.new.pos }
        ensures inside { self.new.pos ≤ length self.new.bits }
        ensures stands { (64 * self.new.word ≤ self.new.pos) × (self.new.pos ≤ 64 * self.new.word + 64) }
        ensures found { IfSome result (λ q. IsNextTrue self.old.bits self.old.pos q × (self.new.pos ≡ q + 1)) }
        ensures none { IfNone result (AreFalseFrom self.old.bits self.old.pos × (self.new.pos ≡ max self.old.pos (64 * (length self.old.bits / 64)))) }
        ensures loads { tally.new.words ≡ tally.old.words ++ range_with_len (self.old.word + 1) (self.new.word - self.old.word) }
        ensures forward { self.old.word ≤ self.new.word }
        ensures counts { tally.new.counts ≡ tally.old.counts }
        ensures turns { tally.new.turns ≡ tally.old.turns + (self.new.word - self.old.word) }
    {
        let column = self.column;
        let mut place = self.place;
        let found = next_in(&column.metered_words(), &mut place, tally);
        self.place = place;
        match found {
            Some(place) => {
                self.rank += 1;
                Some(place)
            }
            None => None,
        }
    }

    /// Does the same as `step`, and adds the word it loads to the tally. It loads at most the word after the current
    /// one.
    pub fn step_tallied<L>(&mut self, tally: &mut Tally<L>) -> Option<bool>
        ensures bits { (self.new.bits ≡ self.old.bits) × (self.new.counts ≡ self.old.counts) }
        ensures onward { self.old.pos ≤ self.new.pos }
        ensures inside { self.new.pos ≤ length self.new.bits }
        ensures stands { (64 * self.new.word ≤ self.new.pos) × (self.new.pos ≤ 64 * self.new.word + 64) }
        ensures answer { MatchOption result ((self.old.pos ≡ length self.old.bits) × (self.new.pos ≡ self.old.pos)) (λ bit. (self.old.pos < length self.old.bits) × (bit ≡ slice_index_or self.old.bits self.old.pos false) × (self.new.pos ≡ self.old.pos + 1)) }
        ensures loads { tally.new.words ≡ tally.old.words ++ range_with_len (self.old.word + 1) (self.new.word - self.old.word) }
        ensures forward { self.old.word ≤ self.new.word }
        ensures one { self.new.word ≤ self.old.word + 1 }
        ensures counts { tally.new.counts ≡ tally.old.counts }
        ensures turns { tally.new.turns ≡ tally.old.turns }
    {
        let column = self.column;
        let mut place = self.place;
        if place.pos == column.len() {
            return None;
        }
        let bit = step_in(&column.metered_words(), &mut place, tally);
        self.place = place;
        self.rank += one_of(bit);
        Some(bit)
    }

    /// Does the same as `seek_to_pos`, and adds what it reads to the tally: at most one count and 17 words in at most
    /// 16 steps, and nothing if it stays in the current word.
    ///
    /// # Requires
    /// As `seek_to_pos`.
    pub fn seek_to_pos_tallied<L>(&mut self, target: usize, tally: &mut Tally<L>) -> bool
        requires { self.old.pos ≤ target }
        ensures bits { (self.new.bits ≡ self.old.bits) × (self.new.counts ≡ self.old.counts) }
        ensures onward { self.old.pos ≤ self.new.pos }
        ensures inside { self.new.pos ≤ length self.new.bits }
        ensures stands { (64 * self.new.word ≤ self.new.pos) × (self.new.pos ≤ 64 * self.new.word + 64) }
        ensures within { IsTrue result ↔ (target < length self.old.bits) }
        ensures pos { self.new.pos ≡ min target (length self.old.bits) }
        ensures reads { Adds 1 17 tally.old tally.new }
        ensures turns { tally.new.turns ≤ tally.old.turns + 16 }
        ensures still { min target (length self.old.bits) / 64 ≡ self.old.word → tally.new ≡ tally.old }
    {
        let column = self.column;
        let len = column.len();
        let end = target.min(len);
        let mut place = self.place;
        if end / 64 == place.index {
            self.rank += skip_in(&column.metered_words::<L>(), &mut place, end);
            self.place = place;
        } else {
            self.rank = column.rank_tallied(end, tally) as u64;
            self.place = place_at(&column.metered_words(), end, tally);
        }
        target < len
    }

    /// Does the same as `seek_to_rank`, and adds what it reads to the tally: at most 33 words, and two counts more than
    /// the number of counts has binary digits. Takes at most 35 more steps than that number has digits.
    ///
    /// # Requires
    /// As `seek_to_rank`.
    pub fn seek_to_rank_tallied<L>(&mut self, rank: u64, tally: &mut Tally<L>) -> Option<usize>
        requires { ones self.old.bits self.old.pos ≤ rank }
        ensures bits { (self.new.bits ≡ self.old.bits) × (self.new.counts ≡ self.old.counts) }
        ensures onward { self.old.pos ≤ self.new.pos }
        ensures inside { self.new.pos ≤ length self.new.bits }
        ensures stands { (64 * self.new.word ≤ self.new.pos) × (self.new.pos ≤ 64 * self.new.word + 64) }
        ensures answer { result ≡ place self.old.bits rank }
        ensures pos { MatchOption result (self.new.pos ≡ length self.old.bits) (λ q. self.new.pos ≡ q + 1) }
        ensures reads { Adds (digits self.old.counts + 2) 33 tally.old tally.new }
        ensures turns { tally.new.turns ≤ tally.old.turns + (digits self.old.counts + 35) }
    {
        let column = self.column;
        match column.select_tallied(rank, tally) {
            Some(place) => {
                self.seek_to_pos_tallied(place + 1, tally);
                Some(place)
            }
            None => {
                self.seek_to_pos_tallied(column.len(), tally);
                None
            }
        }
    }

    /// Returns the position of the next set bit, at or after the cursor, and moves past it. If there is none, it
    /// returns `None` and the cursor moves to the last word.
    pub fn next_one(&mut self) -> Option<usize>
        ensures bits { (self.new.bits ≡ self.old.bits) × (self.new.counts ≡ self.old.counts) }
        ensures onward { self.old.pos ≤ self.new.pos }
        ensures inside { self.new.pos ≤ length self.new.bits }
        ensures stands { (64 * self.new.word ≤ self.new.pos) × (self.new.pos ≤ 64 * self.new.word + 64) }
        ensures found { IfSome result (λ q. IsNextTrue self.old.bits self.old.pos q × (self.new.pos ≡ q + 1)) }
        ensures none { IfNone result (AreFalseFrom self.old.bits self.old.pos × (self.new.pos ≡ max self.old.pos (64 * (length self.old.bits / 64)))) }
    {
        self.next_one_tallied(&mut Tally::new())
    }

    /// Returns the next bit and moves past it; `None` at the end.
    pub fn step(&mut self) -> Option<bool>
        ensures bits { (self.new.bits ≡ self.old.bits) × (self.new.counts ≡ self.old.counts) }
        ensures onward { self.old.pos ≤ self.new.pos }
        ensures inside { self.new.pos ≤ length self.new.bits }
        ensures stands { (64 * self.new.word ≤ self.new.pos) × (self.new.pos ≤ 64 * self.new.word + 64) }
        ensures answer { MatchOption result ((self.old.pos ≡ length self.old.bits) × (self.new.pos ≡ self.old.pos)) (λ bit. (self.old.pos < length self.old.bits) × (bit ≡ slice_index_or self.old.bits self.old.pos false) × (self.new.pos ≡ self.old.pos + 1)) }
    {
        self.step_tallied(&mut Tally::new())
    }

    /// Moves forward to bit `target` and returns true; moves to the end and returns false if there is no such bit.
    ///
    /// # Requires
    /// `target` is not before the cursor.
    pub fn seek_to_pos(&mut self, target: usize) -> bool
        requires { self.old.pos ≤ target }
        ensures bits { (self.new.bits ≡ self.old.bits) × (self.new.counts ≡ self.old.counts) }
        ensures onward { self.old.pos ≤ self.new.pos }
        ensures inside { self.new.pos ≤ length self.new.bits }
        ensures stands { (64 * self.new.word ≤ self.new.pos) × (self.new.pos ≤ 64 * self.new.word + 64) }
        ensures within { IsTrue result ↔ (target < length self.old.bits) }
        ensures pos { self.new.pos ≡ min target (length self.old.bits) }
    {
        self.seek_to_pos_tallied(target, &mut Tally::new())
    }

    /// Returns the position of the set bit that has `rank` set bits before it, and moves past it. If there is none, it
    /// returns `None` and moves to the end.
    ///
    /// # Requires
    /// At most `rank` bits before the cursor are set.
    pub fn seek_to_rank(&mut self, rank: u64) -> Option<usize>
        requires { ones self.old.bits self.old.pos ≤ rank }
        ensures bits { (self.new.bits ≡ self.old.bits) × (self.new.counts ≡ self.old.counts) }
        ensures onward { self.old.pos ≤ self.new.pos }
        ensures inside { self.new.pos ≤ length self.new.bits }
        ensures stands { (64 * self.new.word ≤ self.new.pos) × (self.new.pos ≤ 64 * self.new.word + 64) }
        ensures answer { result ≡ place self.old.bits rank }
        ensures pos { MatchOption result (self.new.pos ≡ length self.old.bits) (λ q. self.new.pos ≡ q + 1) }
    {
        self.seek_to_rank_tallied(rank, &mut Tally::new())
    }
}
