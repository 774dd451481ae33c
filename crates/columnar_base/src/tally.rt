//! A tally records, for contracts only, what a function reads and how many steps its loops take. It costs nothing at
//! run time: a tally stores no fields, and its methods do nothing.
ghost use Rattle.std.specs.Prelude.{◌≡◌, ℕ, ◌+◌, List, [], ◌∷◌, ◌++◌};
ghost use Rattle.std.specs.Borrow.{ftrue};

use std::marker::{Model, PhantomData};

// A list of recorded numbers, for proofs only. It takes no bytes and owns nothing.
#[derive(Drop)]
struct Trail {
    ghost items: { List ℕ },
}

impl Model for Trail {
    ghost also_owns = { λ _. ftrue };
}

// Nothing in memory backs a trail, so only its clauses say what it holds. Their proofs are by hand.
impl Trail {
    #[inline(always)]
    fn new() -> Trail
        ensures { result.items ≡ [] }
    {
        Trail {}
    }

    #[inline(always)]
    fn with(&self, _number: u64) -> Trail
        ensures { result.items ≡ self.now.items ++ _number ∷ [] }
    {
        Trail {}
    }
}

/// The name of a tally that any function may make.
#[derive(Clone, Copy, Drop)]
pub struct Plain;

/// The reads and the steps that are recorded under the name `L`. It takes no bytes at run time.
///
/// Contracts see a tally as a `Reads`: the number of counts that were read, the numbers of the words that were read, in
/// order, and the number of loop steps.
/// Only a `Tally<Plain>` can be made. So a body that is generic in `L` can neither make a second `Tally<L>` nor reset
/// the one that it receives.
/// It could make a `Tally<Plain>` for a callee, or read past the metered views. No type forbids that, so
/// `.ci/checks/tallied_bodies` searches the code for it.
/// This holds for bodies that Rattle proves itself. Nothing in memory backs a tally, so a proof by hand (`Proof.antt`)
/// can set it to anything. Only the proofs of this file may be by hand.
#[derive(Drop)]
pub struct Tally<L = Plain> {
    counts: Trail,
    words: Trail,
    turns: Trail,
    of: PhantomData<L>,
}

impl<L> Model for Tally<L> {
    ghost use Rattle.std.specs.Prelude.{length};
    ghost use Rattle.columnar_base.specs.Reads.{Reads};

    ghost Value = { Reads };

    ghost view = { λ t. record { counts = length t.counts.items; words = t.words.items; turns = length t.turns.items } };
}

impl Tally<Plain> {
    /// Returns a tally without records: no counts, words or steps. Does nothing at run time.
    #[inline(always)]
    pub fn new() -> Tally<Plain>
        ensures { result ≡ record { counts = 0; words = []; turns = 0 } }
    {
        Tally {
            counts: Trail::new(),
            words: Trail::new(),
            turns: Trail::new(),
            of: PhantomData,
        }
    }
}

impl<L> Tally<L> {
    /// Records one step of a loop, and keeps the recorded counts and words. Does nothing at run time.
    #[inline(always)]
    pub fn tick(&mut self)
        ensures turns { self.new.turns ≡ self.old.turns + 1 }
        ensures counts { self.new.counts ≡ self.old.counts }
        ensures words { self.new.words ≡ self.old.words }
    {
        self.turns = self.turns.with(0);
    }

    /// Records that one count was read, and keeps the recorded words and steps. Does nothing at run time.
    ///
    /// Only a metered view calls it, when it reads a count. Code that reads through a view never calls it.
    #[inline(always)]
    pub fn count(&mut self)
        ensures counts { self.new.counts ≡ self.old.counts + 1 }
        ensures words { self.new.words ≡ self.old.words }
        ensures turns { self.new.turns ≡ self.old.turns }
    {
        self.counts = self.counts.with(0);
    }

    /// Records that word `index` was read, after the recorded words, and keeps the counts and the steps. Does nothing
    /// at run time.
    ///
    /// Only a metered view calls it, when it reads a word. Code that reads through a view never calls it.
    #[inline(always)]
    pub fn word(&mut self, index: u64)
        ensures words { self.new.words ≡ self.old.words ++ index ∷ [] }
        ensures counts { self.new.counts ≡ self.old.counts }
        ensures turns { self.new.turns ≡ self.old.turns }
    {
        self.words = self.words.with(index);
    }
}

const _: () = prove!(size_of::<Tally>() == 0);
