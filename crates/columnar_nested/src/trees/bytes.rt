//! Trees in byte slices.
ghost use Rattle.std.specs.Prelude.{◌≡◌, ◌+◌, ◌^◌, ◌<◌, ◌≤◌, length};
ghost use Rattle.columnar_base.specs.Elements.{words_format};
ghost use Rattle.columnar_base.specs.Faults.{verdict};
ghost use Rattle.columnar_base.specs.Format.{slice, first};
ghost use Rattle.columnar_base.specs.TwoParts.{both_broken};
ghost use Rattle.columnar_base.specs.WordViews.{view_bytes, view_words};
ghost use Rattle.columnar_nested.specs.Pass.{accepts};
ghost use Rattle.columnar_nested.specs.TreesLaws.{trees_storable, trees_counted};

use super::{NodeBounds, Trees};
use columnar_base::fault::{GrowError, StoreFault};
use columnar_base::tally::Tally;
use columnar_base::traits::Len;
use columnar_base::view::View;
use columnar_core::byte_slice::ByteSlice;
use columnar_core::bytes::{AsBytes, Check, FromBytes, Stored};
use columnar_core::container::ContainerBytes;
use columnar_core::earlier::Kept;
use columnar_core::store::DecodedStore;
use columnar_core::words::{byte_count, word_at, word_count};
use std::alloc::Global;

// Validates groups and bounds as whole words, with slices counted from `from` on.
fn judged_words(groups: View<'_, u64>, bounds: View<'_, u64>, from: usize) -> Result<(), StoreFault>
    requires { from + 1 < 2 ^ 64 }
    ensures { verdict result ≡ first (both_broken words_format words_format (slice (view_bytes groups.entry)) (slice (view_bytes bounds.entry)) from) }
{
    if byte_count(groups) % 8 != 0 {
        return Err(StoreFault::ElementSize(from));
    }
    if byte_count(bounds) % 8 != 0 {
        return Err(StoreFault::ElementSize(from + 1));
    }
    Ok(())
}

// Returns whether groups and bounds satisfy the rule of trees with `nodes` nodes in all. Takes a step for each bound.
fn keep_rule<L>(
    groups: View<'_, u64>,
    bounds: View<'_, u64>,
    nodes: usize,
    tally: &mut Tally<L>,
) -> bool
    ensures value { result ≡ accepts (view_words groups.entry) (view_words bounds.entry) nodes }
    ensures turns { tally.new.turns ≤ tally.old.turns + length (view_words bounds.entry) }
{
    let places = word_count(bounds);
    let trees = word_count(groups);
    if places == 0 || word_at(bounds, 0) != 0 {
        return false;
    }
    let mut last = 0u64;
    let mut met = 0usize;
    for j in 0..places {
        tally.tick();
        let bound = word_at(bounds, j);
        if bound < last || bound < j as u64 {
            return false;
        }
        if bound == j as u64 {
            if met == trees || word_at(groups, met) != bound {
                return false;
            }
            met += 1;
        }
        last = bound;
    }
    last == nodes as u64 && places - 1 == nodes && met == trees
}

impl<TC: Stored, BC: NodeBounds> Stored for Trees<TC, BC> {
    ghost storable = { trees_storable TC.format TC.storable };

    ghost counted = { λ t. trees_counted TC.format (BC.bytes t.groups) (BC.bytes t.bounds) (TC.content t.values) (TC.counted t.values) };

    fn slice_count() -> usize {
        2 + TC::slice_count()
    }

    fn element_sizes(sizes: &mut Vec<usize>) -> Result<(), GrowError> {
        let before = sizes.len();
        sizes.push(8)?;
        let rest = match sizes.push(8) {
            Ok(()) => TC::element_sizes(sizes),
            Err(_) => Err(GrowError::Memory),
        };
        if rest.is_err() {
            sizes.truncate(before);
        }
        rest
    }

    fn judge_tallied<L>(
        store: &DecodedStore<'_>,
        offset: usize,
        tally: &mut Tally<L>,
    ) -> Result<(), StoreFault> {
        let groups = View::from_le_bytes(store.get(offset));
        let bounds = View::from_le_bytes(store.get(offset + 1));
        judged_words(groups, bounds, offset)?;
        TC::judge_tallied(store, offset + 2, tally)?;
        let nodes = TC::rows_in(store, offset + 2);
        if keep_rule(groups, bounds, nodes, tally) {
            Ok(())
        } else {
            Err(StoreFault::Tree(offset))
        }
    }

    fn rows_in(store: &DecodedStore<'_>, offset: usize) -> usize {
        word_count(View::from_le_bytes(store.get(offset))) - 1
    }
}

impl<TC: Check + Len, BC: NodeBounds> Check for Trees<TC, BC> {
    fn check_from_tallied<L>(&self, from: usize, tally: &mut Tally<L>) -> Result<(), StoreFault> {
        let groups = self.groups.words();
        let bounds = self.bounds.words();
        judged_words(groups, bounds, from)?;
        self.values.check_from_tallied(from + 2, tally)?;
        let nodes = self.values.len();
        if keep_rule(groups, bounds, nodes, tally) {
            Ok(())
        } else {
            Err(StoreFault::Tree(from))
        }
    }
}

impl<'s, TC: FromBytes<'s>> FromBytes<'s> for Trees<TC, View<'s, u64>> {
    fn from_store(store: &DecodedStore<'s>, offset: &mut usize) -> Self {
        let groups = View::<u64>::from_store(store, offset);
        let bounds = View::<u64>::from_store(store, offset);
        let values = TC::from_store(store, offset);
        Trees {
            groups,
            bounds,
            values,
        }
    }
}

impl<'s, TC: AsBytes<'s>> AsBytes<'s> for Trees<TC, View<'s, u64>> {
    fn get_byte_slice(&self, index: usize) -> (u64, ByteSlice<'s>) {
        if index == 0 {
            self.groups.get_byte_slice(0)
        } else if index == 1 {
            self.bounds.get_byte_slice(0)
        } else {
            self.values.get_byte_slice(index - 2)
        }
    }
}

/// If the bounds or the values cannot be loaded, the loaded parts are dropped.
impl<TC: ContainerBytes> ContainerBytes for Trees<TC, Vec<u64>> {
    fn byte_slice(&self, index: usize) -> ByteSlice<'_> {
        if index == 0 {
            self.groups.byte_slice(0)
        } else if index == 1 {
            self.bounds.byte_slice(0)
        } else {
            self.values.byte_slice(index - 2)
        }
    }

    fn load(alloc: Global, store: &DecodedStore<'_>, offset: usize) -> Result<Self, GrowError> {
        let groups = Vec::<u64>::load(alloc, store, offset)?;
        let bounds = Vec::<u64>::load(alloc, store, offset + 1)?;
        let values = TC::load(alloc, store, offset + 2)?;
        Ok(Trees {
            groups,
            bounds,
            values,
        })
    }
}

impl<TC: ContainerBytes + Drop> Kept for Trees<TC, Vec<u64>> {}
