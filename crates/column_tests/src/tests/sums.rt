// Results and variants: worked stores, pushes, truncations and copies, and a run of commands.
ghost use Rattle.std.specs.Prelude.{◌≡◌, ◌++◌, [], ◌∷◌, IsTrue, IfOk};
ghost use Rattle.columnar_core.specs.Format.{IsSound, representable};
ghost use Rattle.columnar_bytes.specs.Stashes.{stash_content};
ghost use Rattle.columnar.specs.Discriminants.{discriminant_format, owned_forms, variants_of};

use super::runs::ran_from;
use columnar::bytes::indexed::validate;
use columnar::bytes::stash::{Command, Stash};
use columnar::fault::{GrowError, StoreFault};
use columnar::primitive::Bools;
use columnar::{
    Borrow, Check, Clear, Column, ContainerBytes, Discriminant, Item, Len, Push, PushRef, Results,
    Storage, Stored, Truncate, Vecs,
};
use std::alloc::{AllocError, Global};
use std::io::Error;
use std::test::Fail;
use test_support::columns::{copied, cut, row_at};
use test_support::runs::{DONE, RANGE};
use test_support::stashes::{has, opened, row_of, writes};
use test_support::stores::bytes_of;
use test_support::{equal, holds};

type Outcomes = Results<Vec<u64>, Vec<u64>>;

type Kinds = Discriminant;

// A number and a mark, or a list.
type Events = Results<(Vec<u64>, Bools), Vecs<Vec<u16>>>;

// Returns the fault of words as the store of a type, if they have one.
fn fault_of<C: Stored>(alloc: Global, words: &[u64]) -> Result<Option<StoreFault>, Error>
    requires { IsTrue (representable C.format) }
{
    let bytes = bytes_of(alloc, words)?;
    match validate::<C>(bytes.as_slice()) {
        Ok(()) => Ok(None),
        Err(fault) => Ok(Some(fault)),
    }
}

// A column of results, for the calls of the tests: only this type names its traits.
#[derive(Drop)]
struct Held {
    column: Outcomes,
    ghost sound: { IsSound ⟦<Outcomes as Column>⟧.format (⟦<Outcomes as Column>⟧.content column) },
}

impl Held {
    fn empty(alloc: Global) -> Held {
        Held {
            column: Outcomes::empty(alloc),
        }
    }

    // Creates a column of these rows.
    fn of(alloc: Global, rows: &[Result<u64, u64>]) -> Result<Held, GrowError> {
        let mut column = Outcomes::empty(alloc);
        column.push_slice(rows)?;
        Ok(Held { column })
    }

    // Pushes the first by value, the second as a reference, and the third by `push_ref`.
    fn pushes(
        &mut self,
        first: Result<u64, u64>,
        second: &Result<u64, u64>,
        third: &Result<u64, u64>,
    ) -> bool {
        self.column.push(first).is_ok()
            && self.column.push(second).is_ok()
            && self.column.push_ref(third).is_ok()
    }

    // Copies these rows of another column.
    fn copies(&mut self, source: &Held, start: usize, end: usize) -> bool {
        copied(&mut self.column, source.column.borrow(), start, end)
    }

    fn cut(&mut self, n: usize) {
        cut(&mut self.column, n);
    }

    // Returns row `index`, if there is one.
    fn row(&self, index: usize) -> Option<Result<u64, u64>> {
        row_at(&self.column, index)
    }

    // Returns the same row as a reference.
    fn lent_row(&self, index: usize) -> Option<Result<&u64, &u64>> {
        row_at(&&self.column, index)
    }

    // Returns the same row from the view.
    fn row_in_view(&self, index: usize) -> Option<Result<u64, u64>> {
        row_at(&self.column.borrow(), index)
    }

    // Tests whether these are the values and the errors.
    fn keeps(&self, oks: &[u64], errs: &[u64]) -> bool {
        self.column.oks.as_slice() == oks && self.column.errs.as_slice() == errs
    }

    // Tests whether the view is well-formed.
    fn checks(&self) -> bool {
        self.column.borrow().check().is_ok()
    }

    fn equals_its_clone(&self) -> Result<bool, AllocError> {
        Ok(self.column.clone()? == self.column)
    }

    fn duplicate(&self, alloc: Global) -> Result<Held, GrowError> {
        Ok(Held {
            column: self.column.duplicate(alloc)?,
        })
    }

    fn try_unwrap(self) -> Option<Vec<u64>> {
        self.column.try_unwrap()
    }

    fn try_unwrap_err(self) -> Option<Vec<u64>> {
        self.column.try_unwrap_err()
    }

    // Tests whether it is empty after `clear`, and what then is unwrapped.
    fn is_cleared(self) -> bool {
        let mut column = self.column;
        column.clear();
        column.is_empty() && column.unwrap().is_empty()
    }
}

#[test]
fn stores_of_outcomes(rt: HostRuntime) -> Result<(), Fail> {
    let alloc = rt.alloc();
    let words = [48, 48, 48, 64, 72, 80, 1, 2, 5, 6];
    let one_ok_too_few = [48, 48, 48, 64, 72, 80, 1, 3, 5, 6];
    let two_set = [48, 48, 48, 64, 72, 80, 3, 2, 5, 6];
    for (words, fault) in [
        (words, None),
        (one_ok_too_few, Some(StoreFault::Parts(0))),
        (two_set, Some(StoreFault::Parts(0))),
    ] {
        equal!(rt; fault_of::<Outcomes>(alloc, words.as_slice())?, fault);
    }
    let stash = opened::<Outcomes>(alloc, words.as_slice()).expect(&rt, "opened");
    holds!(rt; has(&stash, &[Ok(5), Err(6)]));
    Ok(())
}

#[test]
fn outcomes_are_pushed_and_cut(rt: HostRuntime) -> Result<(), Fail> {
    let mut column = Held::empty(rt.alloc());
    holds!(rt; column.pushes(Ok(5), &Err(6), &Err(7)));
    equal!(rt; column.row(0), Some(Ok(5)));
    equal!(rt; column.lent_row(2), Some(Err(&7)));
    equal!(rt; column.row_in_view(1), Some(Err(6)));
    holds!(rt; column.keeps(&[5], &[6, 7]));
    holds!(rt; column.equals_its_clone()?);
    column.cut(2);
    holds!(rt; column.keeps(&[5], &[6]));
    holds!(rt; column.checks());
    holds!(rt; column.duplicate(rt.alloc())?.try_unwrap().is_none());
    holds!(rt; column.is_cleared());
    Ok(())
}

#[test]
fn ranges_of_outcomes_are_copied(rt: HostRuntime) -> Result<(), Fail> {
    let source = Held::of(rt.alloc(), &[Ok(1), Err(2), Err(3), Ok(4), Err(5)])?;
    let mut column = Held::of(rt.alloc(), &[Ok(9)])?;
    holds!(rt; column.copies(&source, 1, 4));
    holds!(rt; column.keeps(&[9, 4], &[2, 3]));
    equal!(rt; column.row(2), Some(Err(3)));
    equal!(rt; column.row(3), Some(Ok(4)));
    Ok(())
}

// The first row does not determine the others.
#[test]
fn outcomes_of_one_kind_are_unwrapped(rt: HostRuntime) -> Result<(), Fail> {
    let alloc = rt.alloc();
    let oks = Held::of(alloc, &[Ok(1), Ok(2)])?
        .try_unwrap()
        .expect(&rt, "all are Ok");
    equal!(rt; oks.as_slice(), [1, 2].as_slice());
    let errs = Held::of(alloc, &[Err(3), Err(4)])?
        .try_unwrap_err()
        .expect(&rt, "all are Err");
    equal!(rt; errs.as_slice(), [3, 4].as_slice());
    holds!(rt; Held::of(alloc, &[Ok(1), Err(2)])?.try_unwrap().is_none());
    holds!(rt; Held::of(alloc, &[Err(1), Ok(2)])?.try_unwrap_err().is_none());
    holds!(rt; Outcomes::empty(alloc).unwrap_err().is_empty());
    Ok(())
}

// The words of the slices: no count and no word, the bit 1 in a tail of two; 7; the bit 1 in a tail of one; the end 2, and
// 3 and 5.
static EVENTS: [u64; 16] = [
    72, 72, 72, 88, 96, 96, 112, 120, 124, 1, 2, 7, 1, 1, 2, 327683,
];

// The same, with the first row 9 and false.
static OTHER_EVENTS: [u64; 16] = [
    72, 72, 72, 88, 96, 96, 112, 120, 124, 1, 2, 9, 0, 1, 2, 327683,
];

// Tests whether a stash writes these words after one push by value and one by reference.
fn pushes_write<S: Item + Drop, T: Item, C: ContainerBytes + Storage + Push<S> + PushRef<T>>(
    alloc: Global,
    first: S,
    second: &T,
    words: &[u64],
) -> bool
    requires representable { IsTrue (representable C.format) }
    requires first_valid { S.valid first }
    requires second_valid { T.valid second.now }
{
    let mut stash = Stash::<C, Vec<u8>>::empty(alloc);
    stash.push(first).is_ok() && stash.push_ref(second).is_ok() && writes(&stash, words)
}

#[test]
fn events_are_pushed(rt: HostRuntime) -> Result<(), Fail> {
    let alloc = rt.alloc();
    let first = Ok::<(u64, bool), &[u16]>((7, true));
    let second = Err::<(u64, bool), Vec<u16>>(Vec::from_slice(alloc, &[3u16, 5])?);
    holds!(rt; pushes_write::<_, _, Events>(alloc, first, &second, EVENTS.as_slice()));
    Ok(())
}

#[test]
fn a_run_over_events(rt: HostRuntime) -> Result<(), Fail> {
    let alloc = rt.alloc();
    let source = opened::<Events>(alloc, EVENTS.as_slice()).expect(&rt, "opened");
    let commands = [
        Command::Push(Ok::<(u64, bool), Vec<u16>>((9, false))),
        Command::Copy(1, 2),
        Command::Copy(0, 3),
        Command::Reopen,
        Command::Push(Err(Vec::new(alloc))),
        Command::Truncate(2),
    ];
    let (replies, variant, written) = ran_from(
        alloc,
        &source,
        commands.as_slice(),
        OTHER_EVENTS.as_slice(),
    )?;
    equal!(rt;
        replies.as_slice(),
        [DONE, DONE, RANGE, DONE, DONE, DONE].as_slice()
    );
    equal!(rt; variant, 0);
    holds!(rt; written);
    Ok(())
}

// A stash of variants, for the calls of the tests.
#[derive(Drop)]
struct Variants {
    stash: Stash<Kinds, Vec<u8>>,
    ghost sound: { IsSound ⟦<Kinds as Column>⟧.format (stash_content stash) },
}

impl Variants {
    // Opens accepted words.
    fn opened(alloc: Global, words: &[u64]) -> Result<Variants, Fail> {
        match opened::<Kinds>(alloc, words) {
            Some(stash) => Ok(Variants { stash }),
            None => Err(Fail::from("the words are refused")),
        }
    }

    // Tests whether it has exactly these rows.
    fn has(&self, rows: &[(u8, u64)]) -> bool {
        has(&self.stash, rows)
    }

    fn len(&self) -> usize {
        self.stash.len()
    }

    fn is_empty(&self) -> bool {
        self.stash.is_empty()
    }

    // Returns row `index`, if there is one.
    fn row(&self, index: usize) -> Option<(u8, u64)> {
        row_of(&self.stash, index)
    }

    fn is_heterogeneous(&self) -> bool {
        self.stash.borrow().is_heterogeneous()
    }

    fn homogeneous(&self) -> Option<u8> {
        self.stash.borrow().homogeneous()
    }
}

#[test]
fn stores_of_variants(rt: HostRuntime) -> Result<(), Fail> {
    let alloc = rt.alloc();
    let three = Variants::opened(alloc, &[24, 27, 56, 65536, 0, 1, 0])?;
    holds!(rt; three.has(&[(0, 0), (0, 1), (1, 0)]));
    holds!(rt; three.is_heterogeneous());
    let most = Variants::opened(alloc, &[24, 24, 40, 1, u64::MAX])?;
    equal!(rt; most.len(), usize::MAX);
    equal!(rt; most.row(usize::MAX - 1), Some((0, u64::MAX - 1)));
    equal!(rt; most.homogeneous(), Some(0));
    let last = Variants::opened(alloc, &[24, 24, 40, 256, 2])?;
    equal!(rt; last.row(1), Some((255, 1)));
    let none = Variants::opened(alloc, &[24, 24, 24])?;
    holds!(rt; none.is_empty());
    equal!(rt; none.homogeneous(), None);
    Ok(())
}

#[test]
fn stores_of_variants_that_are_refused(rt: HostRuntime) -> Result<(), Fail> {
    let variant = StoreFault::Variant(0);
    for (words, fault) in [
        // another number of earlier rows
        ([24, 27, 56, 65536, 0, 1, 1].as_slice(), variant),
        // a variant for each row, though all are equal
        ([24, 26, 48, 0, 0, 1].as_slice(), variant),
        ([24, 25, 32, 0, 0].as_slice(), variant),
        // no variant, one above 255, and no row
        ([24, 24, 40, 0, 3].as_slice(), variant),
        ([24, 24, 40, 257, 1].as_slice(), variant),
        ([24, 24, 40, 1, 0].as_slice(), variant),
        // a single word, and fewer offsets than variants
        ([24, 24, 32, 1].as_slice(), variant),
        ([24, 26, 40, 256, 0].as_slice(), variant),
        // half a word at the end of the offsets
        ([24, 24, 36, 1, 1].as_slice(), StoreFault::ElementSize(1)),
    ] {
        equal!(rt; fault_of::<Kinds>(rt.alloc(), words)?, Some(fault));
    }
    Ok(())
}

// Pushes one more row of the variant of all rows, if there is one.
fn push_again(kinds: &mut Kinds) -> Option<Result<(), GrowError>>
    requires { IsSound discriminant_format (owned_forms kinds.old.variant.items kinds.old.offset.items) }
{
    let variant = kinds.homogeneous()?;
    let rows = kinds.len() as u64;
    Some(kinds.push(variant, rows))
}

#[test]
fn no_head_wraps(rt: HostRuntime) -> Result<(), Fail> {
    let mut kinds = Kinds {
        variant: Vec::new(rt.alloc()),
        offset: Vec::from_slice(rt.alloc(), &[8, u64::MAX - 1])?,
    };
    holds!(rt; kinds.borrow().check().is_ok());
    equal!(rt; push_again(&mut kinds), Some(Ok(())));
    equal!(rt; kinds.offset.as_slice(), [8, u64::MAX].as_slice());
    holds!(rt; kinds.borrow().check().is_ok());
    equal!(rt; push_again(&mut kinds), Some(Err(GrowError::Length)));
    equal!(rt; kinds.offset.as_slice(), [8, u64::MAX].as_slice());
    Ok(())
}

// Creates the rows (0, 0), (0, 1) and (1, 0).
fn three(alloc: Global) -> Result<Kinds, GrowError>
    ensures sound { IfOk result (λ d. IsSound discriminant_format (owned_forms d.variant.items d.offset.items)) }
    ensures variants { IfOk result (λ d. variants_of (owned_forms d.variant.items d.offset.items) ≡ 0 ∷ 0 ∷ 1 ∷ []) }
{
    let mut kinds = Kinds::empty(alloc);
    kinds.push(0, 0)?;
    kinds.push(0, 1)?;
    kinds.push(1, 0)?;
    Ok(kinds)
}

#[test]
fn variants_are_pushed_and_cut(rt: HostRuntime) -> Result<(), Fail> {
    let mut kinds = three(rt.alloc())?;
    equal!(rt; kinds.variant.as_slice(), [0, 0, 1].as_slice());
    equal!(rt; kinds.offset.as_slice(), [0, 1, 0].as_slice());
    holds!(rt; kinds.is_heterogeneous());
    equal!(rt; kinds.homogeneous(), None);
    equal!(rt; row_at(&kinds, 2), Some((1, 0)));
    holds!(rt; kinds.borrow().check().is_ok());
    let other = three(rt.alloc())?;
    holds!(rt; kinds.reserve_for([other.borrow()].iter().copied()).is_ok());
    holds!(rt; kinds.clone()? == kinds);
    cut(&mut kinds, 2);
    holds!(rt; kinds.variant.is_empty());
    equal!(rt; kinds.offset.as_slice(), [1, 2].as_slice());
    equal!(rt; kinds.homogeneous(), Some(0));
    equal!(rt; row_at(&kinds, 1), Some((0, 1)));
    cut(&mut kinds, 0);
    holds!(rt; kinds.offset.is_empty());
    holds!(rt; kinds.is_empty());
    let mut again = three(rt.alloc())?.duplicate(rt.alloc())?;
    again.clear();
    holds!(rt; again.variant.is_empty() && again.offset.is_empty());
    Ok(())
}
