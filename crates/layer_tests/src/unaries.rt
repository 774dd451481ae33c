// Bounds in unary, and stores of an earlier form.
ghost use Rattle.std.specs.Prelude.{IsTrue};
ghost use Rattle.columnar_base.specs.Format.{IsSound, representable};
ghost use Rattle.columnar_sums.specs.UnaryColumns.{unaries_format, owned_unaries};

use columnar_bytes::stash::Stash;
use columnar_core::bytes::Check;
use columnar_core::container::{Borrow, ContainerBytes, Storage};
use columnar_core::earlier::Earlier;
use columnar_core::fault::{EitherFault, GrowError};
use columnar_core::offsets::Offsets;
use columnar_core::slice::Slice;
use columnar_core::traits::{Clear, Column, Index, Len, Push};
use columnar_lists::vector::Vecs;
use columnar_lists::walk::ListIter;
use columnar_primitive::empties::Empties;
use columnar_sums::unaries::Unaries;
use std::alloc::{AllocError, Global};
use std::io::Error;
use std::test::Fail;
use test_support::columns::{copied, cut, row_at, takes};
use test_support::stores::{bytes_of, front, refusal};
use test_support::{equal, holds};

type Bounds = Unaries<Vec<u64>, Vec<u64>, [u64; 2]>;

pub type Lists = Vecs<Vec<u64>, Bounds>;

type Nested = Vecs<Lists, Bounds>;

type Units = Vecs<Empties, Bounds>;

// Reports on a store: 0 if it has the earlier form, 1 if it has the type, else the number of the fault plus 10, or of
// the error plus 40; then the number of rows, or the slice of the fault; then whether `written` is written.
pub fn opened<C: Earlier + ContainerBytes + Len + Drop>(
    alloc: Global,
    words: &[u64],
    written: &[u64],
) -> Result<(u8, usize, bool), Error>
    requires new { IsTrue (representable C.format) }
    requires old { IsTrue (representable C.Old.format) }
{
    let wanted = bytes_of(alloc, written)?;
    match Stash::<C, Vec<u8>>::try_from_either(alloc, bytes_of(alloc, words)?) {
        Ok(stash) => {
            let mut bytes = Vec::new(alloc);
            let done = stash.write_bytes(&mut bytes).is_ok();
            let kind = match &stash {
                Stash::Typed(_) => 0,
                Stash::Bytes(_) => 1,
                Stash::Align(_) => 2,
            };
            Ok((
                kind,
                stash.len(),
                done && bytes.as_slice() == wanted.as_slice(),
            ))
        }
        Err(EitherFault::Store(fault)) => Ok((10 + fault.number(), fault.slice(), false)),
        Err(EitherFault::Grow(GrowError::Memory)) => Ok((41, 0, false)),
        Err(EitherFault::Grow(GrowError::Length)) => Ok((42, 0, false)),
        Err(EitherFault::Grow(_)) => Ok((43, 0, false)),
    }
}

#[test]
fn stores_of_an_earlier_form_are_read(rt: HostRuntime) -> Result<(), Error> {
    let alloc = rt.alloc();
    let new: [u64; 10] = [40, 40, 40, 56, 80, 44, 6, 1, 2, 7];
    equal!(rt; opened::<Lists>(alloc, &[24, 48, 72, 2, 2, 3, 1, 2, 7], new.as_slice())?, (0, 3, true));
    equal!(rt; opened::<Lists>(alloc, new.as_slice(), new.as_slice())?, (1, 3, true));
    equal!(rt; opened::<Lists>(alloc, &[24, 48, 72, 2, 1, 3, 1, 2, 7], &[])?, (21, 0, false));
    equal!(rt; opened::<Lists>(alloc, &[8], &[])?, (15, 0, false));
    Ok(())
}

#[test]
fn nests_of_an_earlier_form_are_read(rt: HostRuntime) -> Result<(), Error> {
    let new: [u64; 15] = [64, 64, 64, 80, 80, 80, 96, 120, 12, 4, 18, 5, 1, 2, 3];
    let answer = opened::<Nested>(
        rt.alloc(),
        &[32, 48, 64, 88, 2, 2, 1, 3, 1, 2, 3],
        new.as_slice(),
    )?;
    equal!(rt; answer, (0, 2, true));
    Ok(())
}

#[test]
fn bounds_that_are_too_large_in_unary_are_refused(rt: HostRuntime) -> Result<(), Error> {
    let alloc = rt.alloc();
    let large: [u64; 5] = [24, 32, 40, 1152921504606846976, 1152921504606846976];
    let longest: [u64; 5] = [24, 32, 40, u64::MAX, u64::MAX];
    equal!(rt; opened::<Units>(alloc, large.as_slice(), &[])?, (41, 0, false));
    equal!(rt; opened::<Units>(alloc, longest.as_slice(), &[])?, (42, 0, false));
    Ok(())
}

#[test]
fn stores_in_unary_are_judged(rt: HostRuntime) -> Result<(), Error> {
    let alloc = rt.alloc();
    equal!(rt; refusal::<Lists>(alloc, &[40, 40, 40, 56, 80, 44, 6, 1, 2, 7])?, (0, 0));
    equal!(rt; refusal::<Lists>(alloc, &[40, 40, 40, 56, 80, 44, 7, 1, 2, 7])?, (11, 0));
    equal!(rt; refusal::<Lists>(alloc, &[40, 40, 40, 56, 72, 44, 6, 1, 2])?, (11, 0));
    Ok(())
}

#[test]
fn offsets_are_pushed_in_unary(rt: HostRuntime) {
    let mut bounds = Bounds::empty(rt.alloc());
    holds!(rt; Push::<u64>::push(&mut bounds, 3) == Ok(()));
    holds!(rt; Push::<u64>::push(&mut bounds, 3) == Ok(()));
    holds!(rt; Push::<u64>::push(&mut bounds, 2) == Err(GrowError::Offset));
    holds!(rt; Push::<u64>::push(&mut bounds, u64::MAX) == Err(GrowError::Length));
    equal!(rt; bounds.bits.values.tail, [24, 5]);
}

// Tests whether a column of lists has these lengths, read one by one.
fn has_lengths<W: Index + Copy, V: Index<Ref = Slice<W>> + Len>(view: &V, lengths: &[usize]) -> bool
    requires { IsSound V.format (V.content view.now) }
{
    for i in 0..lengths.len() {
        match row_at(view, i) {
            Some(list) if list.len() == lengths[i] => {}
            _ => return false,
        }
    }
    view.len() == lengths.len()
}

// Pushes the first items as lists of these lengths; returns whether all succeed.
fn takes_lengths<'x, C: Push<&'x [u64]>>(
    column: &mut C,
    items: &'x [u64],
    lengths: &[usize],
) -> bool
    requires { IsSound C.format (C.content column.old) }
    ensures { IsSound C.format (C.content column.new) }
{
    for length in lengths {
        if !takes(column, front(items, *length)) {
            return false;
        }
    }
    true
}

// Lists with bounds in unary, for the calls of several tests.
#[derive(Drop)]
pub struct Held {
    lists: Lists,
    ghost sound: { IsSound ⟦<Lists as Column>⟧.format (⟦<Lists as Column>⟧.content lists) },
}

impl Held {
    pub fn new(alloc: Global) -> Held {
        Held {
            lists: Lists::empty(alloc),
        }
    }

    fn takes(&mut self, items: &[u64], lengths: &[usize]) -> bool {
        takes_lengths(&mut self.lists, items, lengths)
    }

    /// Pushes lists of these lengths up to the first error; returns how many succeeded.
    pub fn takes_some(&mut self, items: &[u64], lengths: &[usize]) -> usize {
        for at in 0..lengths.len() {
            if !takes(&mut self.lists, front(items, lengths[at])) {
                return at;
            }
        }
        lengths.len()
    }

    pub fn copies(&mut self, other: &Held, start: usize, end: usize) -> bool {
        copied(&mut self.lists, other.lists.borrow(), start, end)
    }

    fn cut(&mut self, n: usize) {
        cut(&mut self.lists, n);
    }

    // Tests whether it has these lengths, and passes its own test.
    pub fn is(&self, lengths: &[usize]) -> bool {
        has_lengths(&self.lists.borrow(), lengths) && self.lists.borrow().check().is_ok()
    }

    fn has_as_many_bits(&self, bits: usize) -> bool {
        self.lists.bounds.bits.len() == bits
    }
}

// Returns the numbers 0..130 in ascending order, in descending order, or in steps of 37.
fn orders(alloc: Global, order: usize) -> Result<Vec<usize>, AllocError> {
    let mut lengths = Vec::new(alloc);
    for i in 0..130 {
        lengths.push(if order == 0 {
            i
        } else if order == 1 {
            129 - i
        } else {
            i * 37 % 130
        })?;
    }
    Ok(lengths)
}

#[test]
fn lists_of_any_length_are_kept_in_unary(rt: HostRuntime) -> Result<(), Fail> {
    let alloc = rt.alloc();
    let items = [7u64; 130];
    for order in 0..3 {
        let lengths = orders(alloc, order)?;
        let lengths = lengths.as_slice();
        let mut held = Held::new(alloc);
        holds!(rt; held.takes(items.as_slice(), lengths));
        holds!(rt; held.is(lengths));
        let mut other = Held::new(alloc);
        holds!(rt; other.takes(items.as_slice(), front(lengths, 3)));
        holds!(rt; other.copies(&held, 3, 130));
        holds!(rt; other.is(lengths));
        other.cut(70);
        holds!(rt; other.is(front(lengths, 70)));
        holds!(rt; other.copies(&held, 70, 130));
        holds!(rt; other.is(lengths));
    }
    Ok(())
}

#[test]
fn a_long_list_between_empty_ones(rt: HostRuntime) -> Result<(), Fail> {
    let alloc = rt.alloc();
    let mut items = Vec::new(alloc);
    for _ in 0..1_000_000 {
        items.push(7u64)?;
    }
    let lengths = [0, 0, 1_000_000, 0, 0];
    let mut held = Held::new(alloc);
    holds!(rt; held.takes(items.as_slice(), lengths.as_slice()));
    holds!(rt; held.is(lengths.as_slice()));
    holds!(rt; held.has_as_many_bits(1_000_005));
    let mut other = Held::new(alloc);
    holds!(rt; other.copies(&held, 1, 4));
    holds!(rt; other.is([0, 1_000_000, 0].as_slice()));
    Ok(())
}

// Tests whether these are all offsets, in order.
fn are_ends(bounds: &Bounds, offsets: &[u64]) -> bool
    requires { IsSound unaries_format (owned_unaries bounds.now) }
{
    let mut ends = bounds.ends();
    for offset in offsets {
        if ends.next() != Some(*offset) {
            return false;
        }
    }
    ends.next().is_none()
}

// Pushes these offsets; returns whether all succeed.
fn takes_offsets(bounds: &mut Bounds, offsets: &[u64]) -> bool
    requires { IsSound unaries_format (owned_unaries bounds.old) }
    ensures { IsSound unaries_format (owned_unaries bounds.new) }
{
    for offset in offsets {
        if !takes(bounds, *offset) {
            return false;
        }
    }
    true
}

#[test]
fn offsets_in_unary_are_read_in_order(rt: HostRuntime) {
    let offsets = [0, 1, 71, 71, 2071, 2074, 2137, 2201];
    let mut bounds = Bounds::empty(rt.alloc());
    holds!(rt; takes_offsets(&mut bounds, offsets.as_slice()));
    holds!(rt; are_ends(&bounds, offsets.as_slice()));
    holds!(rt; bounds.rises_to(2201));
    holds!(rt; !bounds.rises_to(2200));
    bounds.clear();
    holds!(rt; are_ends(&bounds, &[]));
}

// Tests whether an iteration gives lists with this first number and this length, in order.
fn walked<V: Index<Ref = u64> + Copy, W: Offsets + Drop>(
    lists: ListIter<V, W>,
    wanted: &[(Option<u64>, usize)],
) -> bool {
    let mut at = 0usize;
    for list in lists {
        if at >= wanted.len() || (row_at(&list, 0), list.len()) != wanted[at] {
            return false;
        }
        at += 1;
    }
    at == wanted.len()
}

#[test]
fn a_walk_over_lists_gives_each_in_order(rt: HostRuntime) -> Result<(), Fail> {
    let mut held = Held::new(rt.alloc());
    holds!(rt; held.takes([7, 8, 9].as_slice(), [2, 0, 1].as_slice()));
    let wanted = [(Some(7), 2), (None, 0), (Some(7), 1)];
    let view = held.lists.borrow();
    holds!(rt; walked(view.index_iter(), wanted.as_slice()));
    holds!(rt; walked(view.into_index_iter(), wanted.as_slice()));
    Ok(())
}
