// Lists of pairs, pairs of lists, and lists of lists: pushed, written, opened and read item by item.
use columnar::bytes::ByteSlices;
use columnar::bytes::indexed::validate;
use columnar::bytes::stash::Stash;
use columnar::common::View;
use columnar::fault::StoreFault;
use columnar::{AsBytes, Borrow, Check, Len, Push, ReborrowRef, Slice, Storage, Stored, Vecs};
use std::test::Fail;
use test_support::columns::{copied, cut, item_of, row_at, takes_ranges};
use test_support::stashes::{opened, reopened, row_of, writes};
use test_support::stores::{bytes_of, is_written, refusal};
use test_support::{equal, holds};

type Pairs = (Vec<u64>, Vec<u64>);

type PairsView<'a> = (View<'a, u64>, View<'a, u64>);

type Lists = Vecs<Pairs, Vec<u64>>;

type ListsView<'a> = Vecs<PairsView<'a>, View<'a, u64>>;

type Beside = (Vec<u64>, Lists);

type BesideView<'a> = (View<'a, u64>, ListsView<'a>);

type Nested = Vecs<Lists, Vec<u64>>;

// Three pairs, in two lists of two and one.
static LISTS: [u64; 12] = [32, 48, 72, 96, 2, 3, 1, 2, 3, 10, 20, 30];

// The same lists, with the numbers 7 and 8 in another column.
static BESIDE: [u64; 15] = [40, 56, 72, 96, 120, 7, 8, 2, 3, 1, 2, 3, 10, 20, 30];

// The second list, no list, and both lists, each as a list of lists.
static NESTED: [u64; 19] = [
    40, 64, 88, 120, 152, 1, 1, 3, 1, 3, 4, 3, 1, 2, 3, 30, 10, 20, 30,
];

static FIRSTS: [u64; 3] = [1, 2, 3];

static SECONDS: [u64; 3] = [10, 20, 30];

#[test]
fn parts_of_two_lengths_are_refused(rt: HostRuntime) -> Result<(), Fail> {
    let uneven = [24, 32, 48, 1, 2, 3];
    let even = [24, 32, 40, 1, 2];
    equal!(rt; refusal::<Pairs>(rt.alloc(), uneven.as_slice())?, (10, 0));
    equal!(rt; refusal::<Pairs>(rt.alloc(), even.as_slice())?, (0, 0));
    let bytes = bytes_of(rt.alloc(), uneven.as_slice())?;
    equal!(rt;
        validate::<PairsView<'_>>(bytes.as_slice()),
        Err(StoreFault::Parts(0))
    );
    Ok(())
}

#[test]
fn a_bound_past_the_values_is_refused(rt: HostRuntime) -> Result<(), Fail> {
    let alloc = rt.alloc();
    equal!(rt; refusal::<Lists>(alloc, LISTS.as_slice())?, (0, 0));
    equal!(rt; refusal::<Beside>(alloc, BESIDE.as_slice())?, (0, 0));
    for (first, last) in [(2, 4), (4, 3), (2, 2), (4, 4)] {
        let lists = [32, 48, 72, 96, first, last, 1, 2, 3, 10, 20, 30];
        equal!(rt; refusal::<Lists>(alloc, lists.as_slice())?, (11, 0));
        let beside = [40, 56, 72, 96, 120, 7, 8, first, last, 1, 2, 3, 10, 20, 30];
        equal!(rt; refusal::<Beside>(alloc, beside.as_slice())?, (11, 1));
        let bytes = bytes_of(alloc, beside.as_slice())?;
        equal!(rt;
            validate::<BesideView<'_>>(bytes.as_slice()),
            Err(StoreFault::Bounds(1))
        );
    }
    // The values are a pair whose parts differ in length: the part's rule is checked before that of the lists.
    let values_differ = [32, 48, 72, 88, 2, 4, 1, 2, 3, 10, 20];
    equal!(rt; refusal::<Lists>(alloc, values_differ.as_slice())?, (10, 1));
    Ok(())
}

#[test]
fn lists_of_pairs_are_encoded(rt: HostRuntime) -> Result<(), Fail> {
    let pairs = (
        View::from_slice(FIRSTS.as_slice()),
        View::from_slice(SECONDS.as_slice()),
    );
    holds!(rt; pairs.check().is_ok());
    let mut lists = Stash::<Lists, Vec<u8>>::empty(rt.alloc());
    holds!(rt; takes_ranges(&mut lists, pairs, &[(0, 2), (2, 3)]));
    holds!(rt; writes(&lists, LISTS.as_slice()));
    Ok(())
}

#[test]
fn lists_of_pairs_are_opened(rt: HostRuntime) -> Result<(), Fail> {
    let lists = opened::<Lists>(rt.alloc(), LISTS.as_slice()).expect(&rt, "lists");
    equal!(rt; lists.len(), 2);
    for (row, at, wanted) in [
        (0, 0, Some((1, 10))),
        (0, 1, Some((2, 20))),
        (0, 2, None),
        (1, 0, Some((3, 30))),
        (2, 0, None),
    ] {
        equal!(rt; item_of(row_of(&lists, row), at), wanted);
    }
    Ok(())
}

#[test]
fn lists_of_pairs_are_pushed_to_again(rt: HostRuntime) -> Result<(), Fail> {
    let pairs = (
        View::from_slice(FIRSTS.as_slice()),
        View::from_slice(SECONDS.as_slice()),
    );
    holds!(rt; pairs.check().is_ok());
    let lists = opened::<Lists>(rt.alloc(), LISTS.as_slice()).expect(&rt, "lists");
    let mut loaded = lists.to_typed(rt.alloc())?;
    holds!(rt; takes_ranges(&mut loaded, pairs, &[(1, 1), (0, 3)]));
    let again = reopened(rt.alloc(), &loaded).expect(&rt, "reopened");
    equal!(rt; again.len(), 4);
    for (row, at, wanted) in [(1, 0, Some((3, 30))), (2, 0, None), (3, 2, Some((3, 30)))] {
        equal!(rt; item_of(row_of(&again, row), at), wanted);
    }
    Ok(())
}

#[test]
fn a_list_is_pushed_beside_a_number(rt: HostRuntime) -> Result<(), Fail> {
    let pairs = (
        View::from_slice(FIRSTS.as_slice()),
        View::from_slice(SECONDS.as_slice()),
    );
    holds!(rt; pairs.check().is_ok());
    let mut stash = opened::<Beside>(rt.alloc(), BESIDE.as_slice()).expect(&rt, "rows");
    holds!(rt; stash.push((9u64, Slice::new(1, 3, pairs))).is_ok());
    let wanted = [
        40, 64, 88, 128, 168, 7, 8, 9, 2, 3, 5, 1, 2, 3, 2, 3, 10, 20, 30, 20, 30,
    ];
    holds!(rt; writes(&stash, wanted.as_slice()));
    Ok(())
}

#[test]
fn a_number_beside_a_list_is_a_row(rt: HostRuntime) -> Result<(), Fail> {
    let stash = opened::<Beside>(rt.alloc(), BESIDE.as_slice()).expect(&rt, "rows");
    let view = stash.borrow();
    let (number, list) = row_at(&view, 1).expect(&rt, "row 1");
    equal!(rt; number, 8);
    equal!(rt; list.len(), 1);
    equal!(rt; row_at(&list, 0), Some((3, 30)));
    equal!(rt; view.get_byte_slice(2).1.len(), 24);
    let mut total = 0usize;
    for (_, slice) in ByteSlices::new(&view) {
        total = total.saturating_add(slice.len());
    }
    equal!(rt; total, 80);
    let mut sizes = Vec::new(rt.alloc());
    holds!(rt; Beside::element_sizes(&mut sizes).is_ok());
    equal!(rt; sizes.as_slice(), [8, 8, 8, 8].as_slice());
    Ok(())
}

#[test]
fn lists_of_lists_of_pairs_are_encoded(rt: HostRuntime) -> Result<(), Fail> {
    let lists = opened::<Lists>(rt.alloc(), LISTS.as_slice()).expect(&rt, "lists");
    let mut nested = Nested::empty(rt.alloc());
    holds!(rt; takes_ranges(&mut nested, lists.borrow(), &[(1, 2), (0, 0), (0, 2)]));
    holds!(rt; is_written(&nested, NESTED.as_slice()));
    Ok(())
}

#[test]
fn lists_of_lists_of_pairs_are_opened_copied_and_cut(rt: HostRuntime) -> Result<(), Fail> {
    let nested = opened::<Nested>(rt.alloc(), NESTED.as_slice()).expect(&rt, "nested");
    let view = nested.borrow();
    let inner = item_of(row_at(&view, 2), 1)
        .expect(&rt, "list 1 of row 2")
        .reborrow_ref();
    equal!(rt; inner.len(), 1);
    equal!(rt; row_at(&inner, 0), Some((3, 30)));
    let mut copy = Nested::empty(rt.alloc());
    holds!(rt; copied(&mut copy, view, 1, 3));
    holds!(rt; copied(&mut copy, view, 0, 1));
    equal!(rt; copy.bounds.as_slice(), [0, 2, 3].as_slice());
    equal!(rt; copy.values.bounds.as_slice(), [2, 3, 4].as_slice());
    equal!(rt;
        copy.values.values.1.as_slice(),
        [10, 20, 30, 30].as_slice()
    );
    cut(&mut copy, 2);
    equal!(rt; copy.values.values.0.as_slice(), [1, 2, 3].as_slice());
    Ok(())
}
