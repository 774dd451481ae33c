// Lists of rows.
ghost use Rattle.std.specs.Prelude.{IfOk, IsTrue};
ghost use Rattle.columnar_base.specs.Format.{IsSound, representable};

use columnar_core::bytes::{AsBytes, Check, Stored};
use columnar_core::container::{Borrow, ContainerBytes, ExtendFrom, Reborrow, Storage};
use columnar_core::fault::StoreFault;
use columnar_core::offsets::{Offsets, PushAfter};
use columnar_core::slice::Slice;
use columnar_core::traits::{Clear, Column, Index, Item, Len, Push, PushRef};
use columnar_core::view::View;
use columnar_lists::laws;
use columnar_lists::vector::Vecs;
use smallvec::SmallVec;
use std::alloc::{AllocError, Global};
use std::fmt::Debug;
use std::test::Fail;
use test_support::columns::{
    copied, count, cut, row_at, takes, takes_ranges, takes_ref, takes_rows,
};
use test_support::{equal, holds};

type Lists = Vecs<Vec<u64>, Vec<u64>>;

type ListsView<'a> = Vecs<View<'a, u64>, View<'a, u64>>;

type Nested = Vecs<Lists, Vec<u64>>;

// The numbers of which the lists of `Held` are ranges.
static SIX: [u64; 6] = [1, 2, 3, 4, 5, 6];

// Lists of numbers, for the calls of several tests.
#[derive(Drop)]
struct Held {
    lists: Lists,
    ghost sound: { IsSound ⟦<Lists as Column>⟧.format (⟦<Lists as Column>⟧.content lists) },
}

impl Held {
    // Creates the lists of these ranges of the six numbers.
    fn of(alloc: Global, ranges: &[(usize, usize)]) -> Result<Held, Fail> {
        let lists = ranged(alloc, View::from_slice(SIX.as_slice()), ranges)?;
        Ok(Held { lists })
    }

    fn count(&self) -> usize {
        count(&self.lists)
    }

    // Returns the length of list `row`, and its item `index`.
    fn length_and_item(&self, row: usize, index: usize) -> Option<(usize, Option<u64>)> {
        length_and_item(&self.lists.borrow(), row, index)
    }

    fn clear(&mut self) {
        self.lists.clear();
    }

    // Creates a column with space for two views of another, a range of the six numbers, and two lists of the other.
    fn roomy(alloc: Global, source: &Held) -> Result<Held, Fail> {
        let numbers = View::from_slice(SIX.as_slice());
        let views = [source.lists.borrow(), source.lists.borrow()];
        let lists = roomy(alloc, numbers, source.lists.borrow(), views.as_slice())?;
        Ok(Held { lists })
    }

    // Copies these rows of another column from a view with a shorter lifetime.
    fn copies_shorter(&mut self, source: &Held, start: usize, end: usize) -> bool {
        copied(
            &mut self.lists,
            source.lists.borrow().reborrow(),
            start,
            end,
        )
    }

    fn cut(&mut self, n: usize) {
        cut(&mut self.lists, n);
    }

    // Tests whether these are its bounds and its values.
    fn keeps(&self, bounds: &[u64], values: &[u64]) -> bool {
        keeps(&self.lists, bounds, values)
    }
}

// Creates a column of these ranges of a view's rows, each as one row.
fn ranged<V: Len + Copy, C: Storage + Push<Slice<V>>>(
    alloc: Global,
    view: V,
    ranges: &[(usize, usize)],
) -> Result<C, Fail>
    requires { IsSound V.format (V.content view) }
    ensures { IfOk result (λ c. IsSound C.format (C.content c)) }
{
    let mut column = C::empty(alloc);
    if !takes_ranges(&mut column, view, ranges) {
        return Err(Fail::from("refused"));
    }
    Ok(column)
}

// Tests whether these are the bounds and the values of lists.
fn keeps(lists: &Lists, bounds: &[u64], values: &[u64]) -> bool {
    lists.bounds.as_slice() == bounds && lists.values.as_slice() == values
}

// Returns the length of list `row` of a view, and its item `index`.
fn length_and_item<W: Index + Copy, V: Index<Ref = Slice<W>> + Len>(
    view: &V,
    row: usize,
    index: usize,
) -> Option<(usize, Option<W::Ref>)>
    requires { IsSound V.format (V.content view.now) }
{
    let list = row_at(view, row)?;
    Some((list.len(), row_at(&list, index)))
}

#[test]
fn lists_of_words(rt: HostRuntime) -> Result<(), Fail> {
    let mut held = Held::of(rt.alloc(), [(0, 2), (2, 2), (1, 6)].as_slice())?;
    equal!(rt; held.count(), 3);
    holds!(rt; held.keeps([2, 2, 7].as_slice(), [1, 2, 2, 3, 4, 5, 6].as_slice()));
    equal!(rt; held.length_and_item(2, 1), Some((5, Some(3))));
    let copy = held.lists.clone()?;
    equal!(rt; copy.bounds.as_slice(), [2, 2, 7].as_slice());
    held.clear();
    holds!(rt; held.lists.is_empty());
    Ok(())
}

// Pushes a reference to a list, a list by reference, and one by value; returns false if a push fails.
fn takes_three<'x, T: Item + Drop, C: Push<&'x T> + PushRef<T> + Push<T>>(
    column: &mut C,
    lent: &'x T,
    read: &T,
    given: T,
) -> bool
    requires sound { IsSound C.format (C.content column.old) }
    requires lent_valid { T.valid lent.now }
    requires read_valid { T.valid read.now }
    requires given_valid { T.valid given }
    ensures { IsSound C.format (C.content column.new) }
{
    takes(column, lent) && takes_ref(column, read) && takes(column, given)
}

// Pushes lists from slices, vectors and a range of a view; returns which succeed.
fn takes_each<'v, TC: ExtendFrom<View<'v, u64>> + PushRef<u64>, BC: Offsets + PushAfter>(
    lists: &mut Vecs<TC, BC>,
    items: &[u64],
    range: &Slice<View<'v, u64>>,
    owned: Vec<u64>,
) -> [bool; 7]
    requires sound { IsSound ⟦<Vecs<TC, BC> as Column>⟧.format (⟦<Vecs<TC, BC> as Column>⟧.content lists.old) }
    requires valid { ⟦<Slice<View<'v, u64>> as Item>⟧.valid range.now }
    ensures { IsSound ⟦<Vecs<TC, BC> as Column>⟧.format (⟦<Vecs<TC, BC> as Column>⟧.content lists.new) }
{
    [
        takes(lists, items),
        takes(lists, [].as_slice()),
        takes(lists, &owned),
        takes_ref(lists, &owned),
        takes_ref(lists, &items),
        takes_ref(lists, range),
        takes(lists, owned),
    ]
}

#[test]
fn lists_are_pushed_from_slices_and_vectors(rt: HostRuntime) -> Result<(), Fail> {
    let owned = Vec::from_slice(rt.alloc(), &[3u64])?;
    let pair = [1u64, 2];
    let view = View::from_slice(pair.as_slice());
    let mut lists = Lists::empty(rt.alloc());
    let taken = takes_each(&mut lists, pair.as_slice(), &Slice::new(1, 2, view), owned);
    equal!(rt; taken, [true; 7]);
    holds!(rt; lists.push_iter(pair.iter().copied()).is_ok());
    holds!(rt;
        keeps(
            &lists,
            [2, 2, 3, 4, 6, 7, 8, 10].as_slice(),
            [1, 2, 3, 3, 1, 2, 2, 3, 1, 2].as_slice()
        )
    );
    Ok(())
}

#[test]
fn lists_are_pushed_from_arrays(rt: HostRuntime) -> Result<(), Fail> {
    let pair = [1u64, 2];
    laws::array_is_the_list(&pair);
    let mut lists = Lists::empty(rt.alloc());
    holds!(rt; takes(&mut lists, &pair));
    holds!(rt; takes(&mut lists, [3u64, 4, 5]));
    holds!(rt; takes_ref(&mut lists, &[6u64]));
    holds!(rt; keeps(&lists, [2, 5, 6].as_slice(), SIX.as_slice()));
    let mut pairs = Vecs::<Vec<[u64; 2]>, Vec<u64>>::empty(rt.alloc());
    holds!(rt; takes(&mut pairs, &[[1u64, 2], [3, 4], [5, 6]]));
    equal!(rt; pairs.bounds.as_slice(), [3].as_slice());
    equal!(rt;
        pairs.values.as_slice(),
        [[1, 2], [3, 4], [5, 6]].as_slice()
    );
    Ok(())
}

#[test]
fn lists_are_pushed_from_small_vectors(rt: HostRuntime) -> Result<(), Fail> {
    let few = SmallVec::<u64, 2>::from_slice(rt.alloc(), &[1])?;
    let again = SmallVec::<u64, 2>::from_slice(rt.alloc(), &[1])?;
    let many = SmallVec::<u64, 2>::from_slice(rt.alloc(), &[2, 3, 4])?;
    let mut lists = Lists::empty(rt.alloc());
    holds!(rt; takes_three(&mut lists, &few, &many, again));
    holds!(rt; keeps(&lists, [1, 4, 5].as_slice(), [1, 2, 3, 4, 1].as_slice()));
    Ok(())
}

// Tests whether these are the bounds, and the bounds and values of the inner lists.
fn keeps_lists(nested: &Nested, bounds: &[u64], inner: &[u64], values: &[u64]) -> bool {
    nested.bounds.as_slice() == bounds && keeps(&nested.values, inner, values)
}

#[test]
fn lists_of_lists_are_pushed_from_slices(rt: HostRuntime) -> Result<(), Fail> {
    let first = [1u64, 2];
    let second = [3u64];
    let both = [first.as_slice(), second.as_slice()];
    let mut nested = Nested::empty(rt.alloc());
    holds!(rt; takes(&mut nested, both.as_slice()));
    holds!(rt; takes(&mut nested, &both[..1]));
    holds!(rt;
        keeps_lists(
            &nested,
            [2, 3].as_slice(),
            [2, 3, 5].as_slice(),
            [1, 2, 3, 1, 2].as_slice()
        )
    );
    Ok(())
}

// Creates a column with space for views, twice; pushes the range 4..6 of `numbers`, then copies rows 1 and 2 of
// `source`.
fn roomy<V: Len + Copy, W: Len + Copy, C: Storage + ExtendFrom<W> + Push<Slice<V>>>(
    alloc: Global,
    numbers: V,
    source: W,
    views: &[W],
) -> Result<C, Fail>
    requires numbers_sound { IsSound V.format (V.content numbers) }
    requires source_sound { IsSound W.format (W.content source) }
    ensures { IfOk result (λ c. IsSound C.format (C.content c)) }
{
    let mut column = C::with_capacity_for(alloc, views.iter().copied())?;
    let pushed = takes_rows(&mut column, numbers, 4, 6);
    column.reserve_for(views.iter().copied())?;
    if !pushed || !copied(&mut column, source, 1, 3) {
        return Err(Fail::from("refused"));
    }
    Ok(column)
}

#[test]
fn ranges_of_lists(rt: HostRuntime) -> Result<(), Fail> {
    let source = Held::of(rt.alloc(), [(0, 2), (2, 5), (5, 6)].as_slice())?;
    let mut held = Held::roomy(rt.alloc(), &source)?;
    holds!(rt; held.keeps([2, 5, 6].as_slice(), [5, 6, 3, 4, 5, 6].as_slice()));
    holds!(rt; held.copies_shorter(&source, 2, 2));
    equal!(rt; held.count(), 3);
    held.cut(2);
    holds!(rt; held.keeps([2, 5].as_slice(), [5, 6, 3, 4, 5].as_slice()));
    Ok(())
}

// Tests whether these are the element sizes of a type, one for each slice.
fn sizes_are<C: Stored>(alloc: Global, wanted: &[usize]) -> Result<bool, Fail>
    requires { IsTrue (representable C.format) }
{
    let mut sizes = Vec::new(alloc);
    C::element_sizes(&mut sizes)?;
    Ok(sizes.as_slice() == wanted && C::slice_count() == wanted.len())
}

#[test]
fn slices_of_lists(rt: HostRuntime) -> Result<(), Fail> {
    let values = View::from_slice([7u64, 8, 9].as_slice());
    for (bounds, wanted) in [
        ([1u64, 1, 3], Ok(())),
        ([2, 1, 3], Err(StoreFault::Bounds(0))),
        ([1, 1, 2], Err(StoreFault::Bounds(0))),
    ] {
        let lists = ListsView {
            bounds: View::from_slice(bounds.as_slice()),
            values,
        };
        equal!(rt; lists.check(), wanted);
        equal!(rt; lists.get_byte_slice(1).1.len(), 24);
    }
    holds!(rt; sizes_are::<Lists>(rt.alloc(), [8, 8].as_slice())?);
    holds!(rt; sizes_are::<Nested>(rt.alloc(), [8, 8, 8].as_slice())?);
    Ok(())
}

// Creates a column of rows 0 and 1 of a view, twice.
fn twice<V: Len + Copy, C: Storage + ExtendFrom<V>>(alloc: Global, view: V) -> Result<C, Fail>
    requires { IsSound V.format (V.content view) }
    ensures { IfOk result (λ c. IsSound C.format (C.content c)) }
{
    let mut column = C::empty(alloc);
    if !copied(&mut column, view, 0, 2) || !copied(&mut column, view, 0, 2) {
        return Err(Fail::from("refused"));
    }
    Ok(column)
}

#[test]
fn lists_of_lists(rt: HostRuntime) -> Result<(), Fail> {
    let inner = Held::of(rt.alloc(), [(0, 2), (2, 2), (2, 6)].as_slice())?;
    let nested: Nested = ranged(
        rt.alloc(),
        inner.lists.borrow(),
        [(1, 3), (0, 1)].as_slice(),
    )?;
    let copy: Nested = twice(rt.alloc(), nested.borrow())?;
    equal!(rt; copy.len(), 4);
    equal!(rt; copy.bounds.as_slice(), [2, 3, 5, 6].as_slice());
    equal!(rt; copy.values.bounds.as_slice(), [0, 4, 6, 6, 10, 12].as_slice());
    let list = row_at(&copy.borrow(), 1).expect(&rt, "row 1");
    equal!(rt; length_and_item(&list, 0, 1), Some((2, Some(2))));
    equal!(rt; copy.byte_slice(2).len(), 96);
    Ok(())
}

// Prints the rows of a view.
fn printed<V: Len + Index<Ref: Debug> + Copy>(alloc: Global, view: V) -> Result<String, AllocError>
    requires { IsSound V.format (V.content view) }
{
    format!(in alloc; "{:?}", Slice::whole(view))
}

#[test]
fn lists_print_their_rows(rt: HostRuntime) -> Result<(), Fail> {
    let held = Held::of(rt.alloc(), [(0, 2), (2, 3)].as_slice())?;
    let text = printed(rt.alloc(), held.lists.borrow())?;
    equal!(rt; text.as_str(), "[[1, 2], [3]]");
    Ok(())
}
