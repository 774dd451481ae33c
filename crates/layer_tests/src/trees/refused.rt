// Every call that allocates, whichever allocation fails: it succeeds, or changes nothing. An allocation that fails
// elsewhere ends the test.
ghost use Rattle.std.specs.Prelude.{IsTrue};
ghost use Rattle.columnar_core.specs.Format.{representable};

use super::forests::same_trees;
use super::grove::{Grove, ten, three, tree};
use super::lines::{broad, line};
use columnar_bytes::indexed::encode;
use columnar_bytes::stash::Stash;
use columnar_core::bytes::Stored;
use columnar_core::container::ContainerBytes;
use columnar_core::fault::{EncodeError, GrowError};
use columnar_core::owned::Owned;
use columnar_core::traits::Len;
use columnar_nested::tree::Tree;
use columnar_nested::trees::Trees;
use std::alloc::Global;
use std::test::Fail;
use test_support::keeps::{encoding_keeps, loading_keeps};
use test_support::stores::{bytes_of, is_written};
use test_support::{equal, holds};

type Column = Trees<Vec<u64>>;

// The store of 1 with children 2 and 3; 100; 200 with child 300.
static THREE: [u64; 21] = [
    32, 64, 120, 168, 0, 3, 4, 6, 0, 3, 3, 3, 4, 6, 6, 1, 2, 3, 100, 200, 300,
];

// The same, and 10 with children 20 and 30; 20 has child 40.
static FOUR: [u64; 30] = [
    32, 72, 160, 240, 0, 3, 4, 6, 10, 0, 3, 3, 3, 4, 6, 6, 9, 10, 10, 10, 1, 2, 3, 100, 200, 300,
    10, 20, 30, 40,
];

// Tests that a push of a tree succeeds, or fails without a change and then succeeds.
fn push_keeps(grove: &mut Grove<Vec<u64>>, once: Tree<u64>, again: Tree<u64>) -> bool {
    match grove.push(once) {
        Ok(()) => {}
        Err(error) => {
            let kept = grove.writes(THREE.as_slice());
            if error != GrowError::Memory || !kept || grove.push(again).is_err() {
                return false;
            }
        }
    }
    grove.writes(FOUR.as_slice())
}

#[test]
fn pushed_trees(rt: HostRuntime) -> Result<(), Fail> {
    let alloc = rt.alloc();
    let (Ok(mut grove), Ok(once), Ok(again)) = (three(alloc), ten(alloc), ten(alloc)) else {
        return Ok(());
    };
    holds!(rt; push_keeps(&mut grove, once, again));
    Ok(())
}

#[test]
fn new_columns(rt: HostRuntime) -> Result<(), Fail> {
    match Column::new(rt.alloc()) {
        Ok(trees) => holds!(rt; trees.is_empty()),
        Err(error) => equal!(rt; error, GrowError::Memory),
    }
    Ok(())
}

#[test]
fn copies(rt: HostRuntime) -> Result<(), Fail> {
    let alloc = rt.alloc();
    let (Ok(grove), Ok(tree)) = (three(alloc), ten(alloc)) else {
        return Ok(());
    };
    if let Ok(copy) = tree.clone() {
        holds!(rt; same_trees(&copy, &tree, 4));
    }
    if let Ok(copy) = grove.trees.clone() {
        holds!(rt; is_written(&copy, THREE.as_slice()));
    }
    holds!(rt; grove.writes(THREE.as_slice()));
    Ok(())
}

// A sum is right and a drop succeeds without memory.
#[test]
fn sums_and_drops(rt: HostRuntime) -> Result<(), Fail> {
    let alloc = rt.alloc();
    let (Ok(long), Ok(wide)) = (line(alloc, 3usize, 20), broad(alloc, 5usize, 9)) else {
        return Ok(());
    };
    let Ok(both) = tree(alloc, 1, [long, wide]) else {
        return Ok(());
    };
    equal!(rt; both.sum(), Ok(111));
    drop(both);
    Ok(())
}

#[test]
fn loads(rt: HostRuntime) -> Result<(), Fail> {
    let alloc = rt.alloc();
    let Ok(bytes) = bytes_of(alloc, THREE.as_slice()) else {
        return Ok(());
    };
    let mut stash = Stash::<Column, Vec<u8>>::try_from_bytes(alloc, bytes).expect(&rt, "trees");
    holds!(rt; loading_keeps(&mut stash, THREE.as_slice()));
    Ok(())
}

// Tests that the element sizes of a type are returned, or none.
fn sizes_are<C: Stored>(alloc: Global, wanted: &[usize]) -> bool
    requires { IsTrue (representable C.format) }
{
    let mut sizes = Vec::new(alloc);
    match C::element_sizes(&mut sizes) {
        Ok(()) => sizes.as_slice() == wanted,
        Err(error) => error == GrowError::Memory && sizes.is_empty(),
    }
}

#[test]
fn encodings_and_sizes(rt: HostRuntime) -> Result<(), Fail> {
    let alloc = rt.alloc();
    let Ok(grove) = three(alloc) else {
        return Ok(());
    };
    holds!(rt; encoding_keeps(alloc, &Owned(&grove.trees), THREE.as_slice()));
    holds!(rt; sizes_are::<Column>(alloc, [8, 8, 8].as_slice()));
    Ok(())
}
