//! Iteration over all offsets of a column in unary.
ghost use Rattle.std.specs.Prelude.{◌≡◌, ◌+◌, ◌-◌, ◌≤◌, ◌++◌, [], ◌∷◌, length, IfSome, IfNone};
ghost use Rattle.std.specs.List.{range_with_len};
ghost use Rattle.columnar_sums.specs.RankColumns.{bits_ranked, IsRanked};
ghost use Rattle.columnar_sums.specs.Unary.{ends_of};

use crate::rank_select::{Cursor, RankSelect};
use columnar_core::tally::Tally;
use columnar_core::words::Words;
use std::marker::Model;

/// An iterator over the offsets of a column in unary.
#[derive(Drop)]
pub struct UnaryEnds<'a, CC: Words, VC: Words, WC: Words> {
    cursor: Cursor<'a, CC, VC, WC>,
}

impl<'a, CC: Words, VC: Words, WC: Words> Model for UnaryEnds<'a, CC, VC, WC> {
    ghost use Rattle.columnar_sums.specs.Unary.{EndsLeft, ends_after, ends_left};

    ghost Value = { EndsLeft };

    ghost view = { λ e. ends_left (ends_after e.cursor) e.cursor.word };
}

impl<'a, CC: Words, VC: Words, WC: Words> UnaryEnds<'a, CC, VC, WC> {
    // Creates an iterator over all offsets that the bits encode.
    pub(crate) fn new<L>(
        bits: &'a RankSelect<CC, VC, WC>,
        tally: &mut Tally<L>,
    ) -> UnaryEnds<'a, CC, VC, WC>
        requires { IsRanked CC.bytes VC.bytes WC.bytes bits.now }
        ensures stands { result ≡ record { left = ends_of 0 (bits_ranked VC.bytes WC.bytes bits.now); word = 0 } }
        ensures loads { tally.new.words ≡ tally.old.words ++ 0 ∷ [] }
        ensures counts { tally.new.counts ≡ tally.old.counts }
        ensures turns { tally.new.turns ≡ tally.old.turns }
    {
        UnaryEnds {
            cursor: bits.cursor_tallied(tally),
        }
    }

    /// Does the same as `next`, and adds the words it loads to the tally. It loads the words after the current one in
    /// order, one in each step, up to the word in which it stops. Each word is loaded once in a whole iteration.
    pub fn next_tallied<L>(&mut self, tally: &mut Tally<L>) -> Option<u64>
        ensures some { IfSome result (λ end. self.old.left ≡ end ∷ self.new.left) }
        ensures none { IfNone result ((self.old.left ≡ []) × (self.new.left ≡ [])) }
        ensures loads { tally.new.words ≡ tally.old.words ++ range_with_len (self.old.word + 1) (self.new.word - self.old.word) }
        ensures forward { self.old.word ≤ self.new.word }
        ensures counts { tally.new.counts ≡ tally.old.counts }
        ensures turns { tally.new.turns ≡ tally.old.turns + (self.new.word - self.old.word) }
    {
        match self.cursor.next_one_tallied(tally) {
            Some(place) => Some(place as u64 - (self.cursor.trues_before() - 1)),
            None => None,
        }
    }

    /// Returns the next offset; `None` after the last one, and from then on.
    pub fn next(&mut self) -> Option<u64>
        ensures some { IfSome result (λ end. self.old.left ≡ end ∷ self.new.left) }
        ensures none { IfNone result ((self.old.left ≡ []) × (self.new.left ≡ [])) }
    {
        self.next_tallied(&mut Tally::new())
    }
}
