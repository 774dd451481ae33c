// Worked trees and their stores.
use super::grove::{Grove, kid_of, node_of, ten, three, tree};
use columnar_core::fault::{GrowError, SumError};
use columnar_core::traits::Len;
use columnar_nested::trees::Trees;
use columnar_primitive::offsets::Fixeds;
use std::test::Fail;
use test_support::columns::row_at;
use test_support::stashes::row_of;
use test_support::stores::refusal;
use test_support::{equal, holds};

type Column = Trees<Vec<u64>>;

#[test]
fn one_tree(rt: HostRuntime) -> Result<(), Fail> {
    let alloc = rt.alloc();
    let mut grove = Grove::<Vec<u64>>::new(alloc)?;
    grove.push(ten(alloc)?)?;
    equal!(rt; grove.trees.groups.as_slice(), [0, 4].as_slice());
    equal!(rt; grove.trees.bounds.as_slice(), [0, 3, 4, 4, 4].as_slice());
    equal!(rt; grove.trees.values.as_slice(), [10, 20, 30, 40].as_slice());
    let words = [32, 48, 88, 120, 0, 4, 0, 3, 4, 4, 4, 10, 20, 30, 40];
    holds!(rt; grove.writes(words.as_slice()));
    equal!(rt; refusal::<Column>(alloc, words.as_slice())?, (0, 0));
    Ok(())
}

#[test]
fn stores_that_are_no_trees(rt: HostRuntime) -> Result<(), Fail> {
    let alloc = rt.alloc();
    for (words, wanted) in [
        // the child of 20 has no parent
        (
            [32, 48, 88, 120, 0, 4, 0, 3, 3, 3, 4, 10, 20, 30, 40],
            (18, 0),
        ),
        // a tree starts at the wrong place
        (
            [32, 48, 88, 120, 0, 3, 0, 3, 4, 4, 4, 10, 20, 30, 40],
            (18, 0),
        ),
        // the bounds fall
        (
            [32, 48, 88, 120, 0, 4, 0, 4, 3, 4, 4, 10, 20, 30, 40],
            (18, 0),
        ),
        // incomplete words in groups, bounds, values
        (
            [32, 44, 88, 120, 0, 4, 0, 3, 4, 4, 4, 10, 20, 30, 40],
            (8, 0),
        ),
        (
            [32, 48, 84, 120, 0, 4, 0, 3, 3, 3, 4, 10, 20, 30, 40],
            (8, 1),
        ),
        (
            [32, 48, 88, 116, 0, 4, 0, 3, 3, 3, 4, 10, 20, 30, 40],
            (8, 2),
        ),
        // one value too few
        (
            [32, 48, 88, 112, 0, 4, 0, 3, 4, 4, 4, 10, 20, 30, 40],
            (18, 0),
        ),
        // no group, no bound
        (
            [32, 32, 72, 104, 0, 3, 4, 4, 4, 10, 20, 30, 40, 0, 0],
            (18, 0),
        ),
        (
            [32, 48, 48, 80, 0, 4, 10, 20, 30, 40, 0, 0, 0, 0, 0],
            (18, 0),
        ),
    ] {
        equal!(rt; refusal::<Column>(alloc, words.as_slice())?, wanted);
    }
    Ok(())
}

#[test]
fn three_trees(rt: HostRuntime) -> Result<(), Fail> {
    let alloc = rt.alloc();
    let grove = three(alloc)?;
    equal!(rt; grove.trees.groups.as_slice(), [0, 3, 4, 6].as_slice());
    equal!(rt;
        grove.trees.bounds.as_slice(),
        [0, 3, 3, 3, 4, 6, 6].as_slice()
    );
    equal!(rt;
        grove.trees.values.as_slice(),
        [1, 2, 3, 100, 200, 300].as_slice()
    );
    equal!(rt; grove.trees.len(), 3);
    let root = grove.root(0);
    equal!(rt; node_of(root), Some((1, 2)));
    equal!(rt; node_of(kid_of(root, 0)), Some((2, 0)));
    equal!(rt; node_of(kid_of(root, 1)), Some((3, 0)));
    equal!(rt; node_of(grove.root(1)), Some((100, 0)));
    equal!(rt; node_of(kid_of(grove.root(2), 0)), Some((300, 0)));
    Ok(())
}

#[test]
fn no_trees(rt: HostRuntime) -> Result<(), Fail> {
    let alloc = rt.alloc();
    let empty = [32, 40, 48, 48, 0, 0];
    let mut grove = Grove::<Vec<u64>>::new(alloc)?;
    holds!(rt; grove.writes(empty.as_slice()));
    equal!(rt; refusal::<Column>(alloc, empty.as_slice())?, (0, 0));
    grove.push(ten(alloc)?)?;
    grove.clear();
    holds!(rt; grove.writes(empty.as_slice()));
    holds!(rt; grove.trees.is_empty());
    let opened = grove.reopened(alloc).expect(&rt, "accepted");
    holds!(rt; row_of(&opened, 0).is_none());
    grove.push(tree(alloc, 7, [])?)?;
    let words = [32, 48, 64, 72, 0, 1, 0, 1, 7];
    holds!(rt; grove.writes(words.as_slice()));
    Ok(())
}

#[test]
fn sums(rt: HostRuntime) -> Result<(), Fail> {
    let alloc = rt.alloc();
    let most = tree(alloc, usize::MAX - 1, [tree(alloc, 1, [])?])?;
    equal!(rt; most.sum(), Ok(usize::MAX));
    let past = tree(alloc, usize::MAX, [tree(alloc, 1, [])?])?;
    equal!(rt; past.sum(), Err(SumError::Overflow));
    let below = tree(alloc, 20, [tree(alloc, 40, [])?])?;
    let kids = [below, tree(alloc, 30, [])?];
    equal!(rt; tree(alloc, 10, kids)?.sum(), Ok(100));
    Ok(())
}

// The values are multiples of 3, level by level, or the push fails.
#[test]
fn a_refused_value(rt: HostRuntime) -> Result<(), Fail> {
    let alloc = rt.alloc();
    let mut grove = Grove::<Fixeds<3>>::new(alloc)?;
    let kids = [tree(alloc, 6, [])?, tree(alloc, 10, [])?];
    equal!(rt;
        grove.push(tree(alloc, 3u64, kids)?),
        Err(GrowError::Offset)
    );
    equal!(rt; grove.trees.groups.as_slice(), [0].as_slice());
    equal!(rt; grove.trees.bounds.as_slice(), [0].as_slice());
    equal!(rt; grove.trees.values.len(), 0);
    let below = tree(alloc, 6, [tree(alloc, 12, [])?])?;
    let kids = [below, tree(alloc, 9, [])?];
    grove.push(tree(alloc, 3, kids)?)?;
    equal!(rt; grove.trees.bounds.as_slice(), [0, 3, 4, 4, 4].as_slice());
    equal!(rt; grove.trees.values.len(), 4);
    Ok(())
}

#[test]
fn trees_by_reference(rt: HostRuntime) -> Result<(), Fail> {
    let grove = three(rt.alloc())?;
    let column = &grove.trees;
    let root = row_at(&column, 0);
    equal!(rt; node_of(root), Some((&1, 2)));
    equal!(rt; node_of(kid_of(root, 1)), Some((&3, 0)));
    Ok(())
}
