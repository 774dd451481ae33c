// Pairs of columns.
ghost use Rattle.std.specs.Prelude.{◌≡◌};

use crate::held::{copy_twice, grown, reads, sizes_of};
use columnar_core::bytes::Check;
use columnar_core::container::Borrow;
use columnar_core::fault::StoreFault;
use columnar_core::view::View;
use std::test::Fail;
use test_support::columns::count;
use test_support::{equal, holds};

type Pairs = (Vec<u64>, Vec<u64>);

type PairsView<'a> = (View<'a, u64>, View<'a, u64>);

#[test]
fn pairs_of_words(rt: HostRuntime) -> Result<(), Fail> {
    let others = [(4u64, 40u64), (5, 50)];
    let held = grown::<_, Pairs, _>(
        rt.alloc(),
        (1, 10),
        &(2, 20),
        &(3, 30),
        others.iter().copied(),
    )
    .expect(&rt, "grown");
    equal!(rt; held.column.0.as_slice(), [1, 2, 3, 4, 5].as_slice());
    equal!(rt; held.column.1.as_slice(), [10, 20, 30, 40, 50].as_slice());
    equal!(rt; count(&held.column), 5);
    holds!(rt; reads(&held, [(1, 10), (2, 20), (3, 30), (4, 40), (5, 50)].as_slice()));
    let view = held.column.borrow();
    let views = [view, view];
    let copies = copy_twice::<_, Pairs, _>(rt.alloc(), view, views.iter().copied(), 1, 3, 2);
    let copies = copies.expect(&rt, "copies");
    equal!(rt; copies.more.column.0.as_slice(), [1, 2, 3, 4, 5, 2, 3].as_slice());
    equal!(rt; copies.more.column.1.as_slice(), [10, 20, 30, 40, 50, 20, 30].as_slice());
    equal!(rt; copies.cut.column.0.as_slice(), [1, 2].as_slice());
    equal!(rt; copies.cut.column.1.as_slice(), [10, 20].as_slice());
    let sizes = sizes_of::<Pairs>(rt.alloc()).expect(&rt, "sizes");
    equal!(rt; sizes.as_slice(), [8, 8].as_slice());
    Ok(())
}

#[test]
fn an_uneven_pair_is_refused(rt: HostRuntime) {
    let uneven: PairsView<'_> = (
        View::from_slice([1, 2].as_slice()),
        View::from_slice([1].as_slice()),
    );
    equal!(rt; uneven.check(), Err(StoreFault::Parts(0)));
}
