//! Tests of the bounds of lists by the tests of their types.
ghost use Rattle.std.specs.Prelude.{◌≡◌, ◌+◌, ◌*◌, ◌≤◌, length, drop};
ghost use Rattle.columnar_base.specs.Format.{Fits, bytes_held, first, moved};
ghost use Rattle.columnar_base.specs.Faults.{verdict};
ghost use Rattle.columnar_core.specs.Bounds.{numbers, rises};
ghost use Rattle.columnar_core.specs.Store.{slices_in};
ghost use Rattle.columnar_schema.specs.Formats.{bounds_format};

use columnar_core::bytes::Stored;
use columnar_core::fault::StoreFault;
use columnar_core::offsets::StoredOffsets;
use columnar_core::store::DecodedStore;
use columnar_core::tally::Tally;
use columnar_primitive::offsets::Strides;
use columnar_sums::unaries::Unaries;
use columnar_syntax::schema::Bounds;

pub(crate) type Multiples = Strides<Vec<u64>, [u64; 2]>;

pub(crate) type Runs = Unaries<Vec<u64>, Vec<u64>, [u64; 2]>;

/// Returns the number of slices of the bounds.
pub fn bounds_slices(bounds: Bounds) -> usize
    ensures { result ≡ (bounds_format bounds).count }
{
    match bounds {
        Bounds::Words => 1,
        Bounds::Strides => 2,
        Bounds::Unaries => 3,
    }
}

/// Returns the number of bounds in slices that were accepted.
///
/// # Requires
/// The slices from `offset` on were accepted as these bounds.
pub fn bounds_rows(bounds: Bounds, store: &DecodedStore<'_>, offset: usize) -> usize
    requires { Fits (bounds_format bounds) offset (slices_in store.now) }
    ensures { result ≡ length ((bounds_format bounds).rows ((bounds_format bounds).build (drop offset (slices_in store.now)))) }
{
    match bounds {
        Bounds::Words => Vec::<u64>::rows_in(store, offset),
        Bounds::Strides => Multiples::rows_in(store, offset),
        Bounds::Unaries => Runs::rows_in(store, offset),
    }
}

/// Returns the first rule of bounds that the slices from `offset` on break. Adds its steps to the tally: at most 8 for
/// each byte.
///
/// # Requires
/// The store has these slices.
pub fn judge_bounds<L>(
    bounds: Bounds,
    store: &DecodedStore<'_>,
    offset: usize,
    tally: &mut Tally<L>,
) -> Result<(), StoreFault>
    requires { offset + (bounds_format bounds).count ≤ length (slices_in store.now) }
    ensures exact { verdict result ≡ first (moved offset ((bounds_format bounds).broken ((bounds_format bounds).build (drop offset (slices_in store.now))))) }
    ensures turns { tally.new.turns ≤ tally.old.turns + 8 * bytes_held ((bounds_format bounds).build (drop offset (slices_in store.now))) }
{
    match bounds {
        Bounds::Words => Vec::<u64>::judge_tallied(store, offset, tally),
        Bounds::Strides => Multiples::judge_tallied(store, offset, tally),
        Bounds::Unaries => Runs::judge_tallied(store, offset, tally),
    }
}

/// Tests whether the bounds, after a first 0, never fall and end with `end`. Adds its steps to the tally: at most 8 for
/// each byte.
///
/// # Requires
/// The slices from `offset` on were accepted as these bounds.
pub fn bounds_rise<L>(
    bounds: Bounds,
    store: &DecodedStore<'_>,
    offset: usize,
    end: u64,
    tally: &mut Tally<L>,
) -> bool
    requires { Fits (bounds_format bounds) offset (slices_in store.now) }
    ensures value { result ≡ rises 0 (numbers ((bounds_format bounds).rows ((bounds_format bounds).build (drop offset (slices_in store.now))))) end }
    ensures turns { tally.new.turns ≤ tally.old.turns + 8 * bytes_held ((bounds_format bounds).build (drop offset (slices_in store.now))) }
{
    match bounds {
        Bounds::Words => Vec::<u64>::rises_in_tallied(store, offset, end, tally),
        Bounds::Strides => Multiples::rises_in_tallied(store, offset, end, tally),
        Bounds::Unaries => Runs::rises_in_tallied(store, offset, end, tally),
    }
}
