// Each generic impl at a concrete type, through its trait.
ghost use Rattle.std.specs.Prelude.{IfSome, IsTrue};
ghost use Rattle.columnar_core.specs.Format.{IsSound, representable};

use columnar::bytes::indexed::{DecodedStore, validate};
use columnar::common::{Tally, View};
use columnar::{
    Borrow, Check, Clear, Container, ContainerBytes, CopyAs, FromBytes, Index, IndexAs, Item, Len,
    Offsets, Push, PushRef, Reborrow, ReborrowRef, Slice, Storage, StoredOffsets, Vecs,
};
use std::alloc::Global;
use std::iter::once;
use std::test::Fail;
use test_support::stores::bytes_of;
use test_support::{equal, holds};

type Numbers = Vec<u64>;

type Pairs = (Vec<u64>, Vec<u64>);

type Lists = Vecs<Pairs, Vec<u64>>;

static NUMBERS: [u64; 5] = [16, 40, 1, 2, 3];

static PAIRS: [u64; 9] = [24, 48, 72, 1, 2, 3, 10, 20, 30];

static LISTS: [u64; 12] = [32, 48, 72, 96, 2, 3, 1, 2, 3, 10, 20, 30];

// Copies the rows of a container into another, with all operations of a container.
fn uses<'a, C: Container<'a>>(alloc: Global, source: &'a C) -> Option<C>
    requires { IsSound C.format (C.content source.now) }
    ensures { IfSome result (λ c. IsSound C.format (C.content c)) }
{
    let view = source.borrow();
    let count = view.len();
    let Ok(mut column) = C::with_capacity_for(alloc, once(view)) else {
        return None;
    };
    if column.reserve_for(once(view)).is_err() {
        return None;
    }
    if column.extend_from_self(view, 0..count).is_err() {
        return None;
    }
    if count > 0 && column.push(view.get(0)).is_err() {
        return None;
    }
    let Ok(mut copy) = column.duplicate(alloc) else {
        return None;
    };
    column.clear();
    if !column.is_empty() || count > copy.len() {
        return None;
    }
    copy.truncate(count);
    Some(copy)
}

// Creates a container of one item, pushed by value and twice by reference.
fn takes<'x, T: Item + Copy, C: Storage + Push<T> + Push<&'x T> + PushRef<T>>(
    alloc: Global,
    item: &'x T,
) -> Option<C>
    requires { T.valid item.now }
    ensures { IfSome result (λ c. IsSound C.format (C.content c)) }
{
    let mut column = C::empty(alloc);
    if Push::<T>::push(&mut column, *item).is_err() {
        return None;
    }
    if Push::<&'x T>::push(&mut column, item).is_err() {
        return None;
    }
    if column.push_ref(item).is_err() {
        return None;
    }
    Some(column)
}

// Loads a container from bytes.
fn loads<C: ContainerBytes + Storage>(alloc: Global, words: &[u64]) -> Option<C>
    requires { IsTrue (representable C.format) }
    ensures { IfSome result (λ c. IsSound C.format (C.content c)) }
{
    let Ok(bytes) = bytes_of(alloc, words) else {
        return None;
    };
    match validate::<C>(bytes.as_slice()) {
        Ok(()) => {}
        Err(_) => return None,
    }
    let store = DecodedStore::new(bytes.as_slice());
    let count = C::rows_in(&store, 0);
    match C::load(alloc, &store, 0) {
        Ok(column) if column.len() == count => Some(column),
        _ => None,
    }
}

// Returns a view of bytes that passes its own test.
fn views<'a, V: FromBytes<'a> + Check + Drop>(bytes: &'a [u8]) -> Option<V>
    requires { IsTrue (representable V.format) }
    ensures { IfSome result (λ v. IsSound V.format (V.content v)) }
{
    match validate::<V>(bytes) {
        Ok(()) => {}
        Err(_) => return None,
    }
    let mut offset = 0;
    let view = V::from_store(&DecodedStore::new(bytes), &mut offset);
    match view.check() {
        Ok(()) => Some(view),
        Err(_) => None,
    }
}

// Returns the first and the last row, if there are any.
fn ends<V: Index + Len>(view: &V) -> Option<(V::Ref, V::Ref)>
    requires { IsSound V.format (V.content view.now) }
{
    match view.last() {
        Some(last) => Some((view.get(0), last)),
        None => None,
    }
}

// Returns the same as values of another type.
fn ends_as<T: Item + Drop, V: IndexAs<T> + Len>(view: &V) -> Option<(T, T)>
    requires { IsSound V.format (V.content view.now) }
{
    if view.is_empty() {
        return None;
    }
    match view.last() {
        Some(last) => Some((view.index_as(0), last)),
        None => None,
    }
}

fn as_value<T: Item, R: CopyAs<T>>(row: R) -> T
    requires { R.valid row }
{
    row.copy_as()
}

// Returns the last offset, if the offsets rise to `end`.
fn rises<O: Offsets>(bounds: &O, end: u64) -> Option<u64>
    requires { IsSound O.format (O.content bounds.now) }
{
    let count = bounds.len();
    if count > 0 && bounds.rises_to(end) {
        Some(bounds.offset(count - 1))
    } else {
        None
    }
}

// Tests whether the offsets in bytes rise to `end`.
fn rises_in<O: StoredOffsets>(bytes: &[u8], end: u64) -> bool
    requires { IsTrue (representable O.format) }
{
    match validate::<O>(bytes) {
        Ok(()) => {}
        Err(_) => return false,
    }
    O::rises_in_tallied(&DecodedStore::new(bytes), 0, end, &mut Tally::new())
}

fn shortened<'b, V: Reborrow<'b>>(view: V) -> V::Short {
    view.reborrow()
}

fn row_shortened<'b, R: ReborrowRef<'b>>(row: R) -> R::ShortRef
    requires { R.valid row }
{
    row.reborrow_ref()
}

#[test]
fn a_container_of_numbers(rt: HostRuntime) -> Result<(), Fail> {
    let numbers = loads::<Numbers>(rt.alloc(), NUMBERS.as_slice()).expect(&rt, "numbers");
    let copy = uses(rt.alloc(), &numbers).expect(&rt, "a copy");
    equal!(rt; copy.as_slice(), [1, 2, 3].as_slice());
    let taken = takes::<u64, Numbers>(rt.alloc(), &7).expect(&rt, "taken");
    equal!(rt; taken.as_slice(), [7, 7, 7].as_slice());
    equal!(rt; taken.clone()?.as_slice(), [7, 7, 7].as_slice());
    Ok(())
}

#[test]
fn a_container_of_pairs(rt: HostRuntime) -> Result<(), Fail> {
    let pairs = loads::<Pairs>(rt.alloc(), PAIRS.as_slice()).expect(&rt, "pairs");
    let copy = uses(rt.alloc(), &pairs).expect(&rt, "a copy");
    equal!(rt; copy.0.as_slice(), [1, 2, 3].as_slice());
    equal!(rt; copy.1.as_slice(), [10, 20, 30].as_slice());
    let taken = takes::<(u64, u64), Pairs>(rt.alloc(), &(7, 70)).expect(&rt, "taken");
    equal!(rt; taken.0.as_slice(), [7, 7, 7].as_slice());
    equal!(rt; taken.1.as_slice(), [70, 70, 70].as_slice());
    Ok(())
}

#[test]
fn a_container_of_lists(rt: HostRuntime) -> Result<(), Fail> {
    let lists = loads::<Lists>(rt.alloc(), LISTS.as_slice()).expect(&rt, "lists");
    let copy = uses(rt.alloc(), &lists).expect(&rt, "a copy");
    equal!(rt; copy.bounds.as_slice(), [2, 3].as_slice());
    equal!(rt; copy.values.0.as_slice(), [1, 2, 3].as_slice());
    equal!(rt; copy.values.1.as_slice(), [10, 20, 30].as_slice());
    Ok(())
}

#[test]
fn views_of_numbers(rt: HostRuntime) -> Result<(), Fail> {
    let bytes = bytes_of(rt.alloc(), NUMBERS.as_slice())?;
    let mut view = views::<View<'_, u64>>(bytes.as_slice()).expect(&rt, "a view");
    equal!(rt; ends(&view), Some((1, 3)));
    equal!(rt; ends_as::<u64, _>(&view), Some((1, 3)));
    let short = shortened(view);
    equal!(rt; short.len(), 3);
    equal!(rt; as_value::<u64, _>(7u64), 7);
    equal!(rt; as_value::<u64, _>(&7u64), 7);
    view.clear();
    equal!(rt; ends(&view), None);
    equal!(rt; ends_as::<u64, _>(&view), None);
    Ok(())
}

#[test]
fn views_of_pairs(rt: HostRuntime) -> Result<(), Fail> {
    let bytes = bytes_of(rt.alloc(), PAIRS.as_slice())?;
    let view = views::<(View<'_, u64>, View<'_, u64>)>(bytes.as_slice()).expect(&rt, "a view");
    equal!(rt; ends(&view), Some(((1, 10), (3, 30))));
    equal!(rt; ends_as::<(u64, u64), _>(&view), Some(((1, 10), (3, 30))));
    let (first, second) = shortened(view);
    equal!(rt; first.len(), 3);
    equal!(rt; second.len(), 3);
    Ok(())
}

#[test]
fn views_of_lists(rt: HostRuntime) -> Result<(), Fail> {
    let bytes = bytes_of(rt.alloc(), LISTS.as_slice())?;
    let view = views::<Vecs<(View<'_, u64>, View<'_, u64>), View<'_, u64>>>(
        bytes.as_slice(),
    ).expect(&rt, "a view");
    let (first, last) = ends(&view).expect(&rt, "two rows");
    equal!(rt; (first.lower, first.upper), (0, 2));
    equal!(rt; (last.lower, last.upper), (2, 3));
    let short = shortened(view);
    equal!(rt; short.bounds.len(), 2);
    Ok(())
}

#[test]
fn ranges_of_a_view(rt: HostRuntime) -> Result<(), Fail> {
    let rows = [1, 2, 3, 4];
    let view = View::from_slice(rows.as_slice());
    if view.len() >= 3 {
        let range = Slice::new(1, 3, view);
        equal!(rt; ends(&range), Some((2, 3)));
        equal!(rt; ends_as::<u64, _>(&range), Some((2, 3)));
        equal!(rt; shortened(range).lower, 1);
        equal!(rt; row_shortened(range).upper, 3);
    }
    Ok(())
}

#[test]
fn offsets_rise(rt: HostRuntime) -> Result<(), Fail> {
    let numbers = loads::<Numbers>(rt.alloc(), NUMBERS.as_slice()).expect(&rt, "numbers");
    equal!(rt; rises(&numbers, 3), Some(3));
    equal!(rt; rises(&numbers, 2), None);
    equal!(rt; rises(&numbers.borrow(), 3), Some(3));
    let bytes = bytes_of(rt.alloc(), NUMBERS.as_slice())?;
    holds!(rt; rises_in::<Numbers>(bytes.as_slice(), 3));
    holds!(rt; rises_in::<View<'_, u64>>(bytes.as_slice(), 3));
    holds!(rt; !rises_in::<Numbers>(bytes.as_slice(), 4));
    Ok(())
}
