//! Tests of the slices of columns without parts, by the tests of their types.
ghost use Rattle.std.specs.Prelude.{◌≡◌, ◌+◌, ◌*◌, ◌≤◌, length, drop};
ghost use Rattle.columnar_base.specs.Format.{Fits, bytes_held, first, moved};
ghost use Rattle.columnar_base.specs.Faults.{verdict};
ghost use Rattle.columnar_core.specs.Store.{slices_in};
ghost use Rattle.columnar_schema.specs.Formats.{bounds_format, leaf_format};
ghost use Rattle.columnar_syntax.specs.declared.schema.Leaf.TheVariants.{Text};

use crate::bounds::{Multiples, Runs};
use columnar_bits::bools::Bools;
use columnar_core::bytes::Stored;
use columnar_core::fault::StoreFault;
use columnar_core::store::DecodedStore;
use columnar_core::tally::Tally;
use columnar_primitive::chars::Chars;
use columnar_primitive::durations::Durations;
use columnar_primitive::empties::Empties;
use columnar_primitive::floats::{Doubles, Singles};
use columnar_primitive::larges::{I128s, U128s};
use columnar_primitive::numbers::{Isizes, Usizes};
use columnar_strings::string::Strings;
use columnar_syntax::schema::{Bounds, Leaf};

type Truths = Bools<Vec<u64>, [u64; 2]>;

// Returns the number of slices of texts with these bounds.
fn text_slices(bounds: Bounds) -> usize
    ensures { result ≡ (bounds_format bounds).count + 1 }
{
    match bounds {
        Bounds::Words => 2,
        Bounds::Strides => 3,
        Bounds::Unaries => 4,
    }
}

/// Returns the number of slices of a column without parts.
pub fn leaf_slices(leaf: Leaf) -> usize
    ensures { result ≡ (leaf_format leaf).count }
{
    match leaf {
        Leaf::Bool => 2,
        Leaf::Duration => 2,
        Leaf::Text(bounds) => text_slices(bounds),
        _ => 1,
    }
}

// Returns the number of texts in slices that were accepted.
fn texts_in(bounds: Bounds, store: &DecodedStore<'_>, offset: usize) -> usize
    requires { Fits (leaf_format (Text bounds)) offset (slices_in store.now) }
    ensures { result ≡ length ((leaf_format (Text bounds)).rows ((leaf_format (Text bounds)).build (drop offset (slices_in store.now)))) }
{
    match bounds {
        Bounds::Words => Strings::<Vec<u64>, Vec<u8>>::rows_in(store, offset),
        Bounds::Strides => Strings::<Multiples, Vec<u8>>::rows_in(store, offset),
        Bounds::Unaries => Strings::<Runs, Vec<u8>>::rows_in(store, offset),
    }
}

/// Returns the number of rows in slices that were accepted.
///
/// # Requires
/// The slices from `offset` on were accepted for this type.
pub fn leaf_rows(leaf: Leaf, store: &DecodedStore<'_>, offset: usize) -> usize
    requires { Fits (leaf_format leaf) offset (slices_in store.now) }
    ensures { result ≡ length ((leaf_format leaf).rows ((leaf_format leaf).build (drop offset (slices_in store.now)))) }
{
    match leaf {
        Leaf::U8 => Vec::<u8>::rows_in(store, offset),
        Leaf::U16 => Vec::<u16>::rows_in(store, offset),
        Leaf::U32 => Vec::<u32>::rows_in(store, offset),
        Leaf::U64 => Vec::<u64>::rows_in(store, offset),
        Leaf::U128 => U128s::<Vec<[u8; 16]>>::rows_in(store, offset),
        Leaf::Usize => Usizes::<Vec<u64>>::rows_in(store, offset),
        Leaf::I8 => Vec::<i8>::rows_in(store, offset),
        Leaf::I16 => Vec::<i16>::rows_in(store, offset),
        Leaf::I32 => Vec::<i32>::rows_in(store, offset),
        Leaf::I64 => Vec::<i64>::rows_in(store, offset),
        Leaf::I128 => I128s::<Vec<[u8; 16]>>::rows_in(store, offset),
        Leaf::Isize => Isizes::<Vec<i64>>::rows_in(store, offset),
        Leaf::F32 => Singles::<Vec<u32>>::rows_in(store, offset),
        Leaf::F64 => Doubles::<Vec<u64>>::rows_in(store, offset),
        Leaf::Bool => Truths::rows_in(store, offset),
        Leaf::Char => Chars::<Vec<u32>>::rows_in(store, offset),
        Leaf::Unit => Empties::<u64>::rows_in(store, offset),
        Leaf::Duration => Durations::<Vec<u64>, Vec<u32>>::rows_in(store, offset),
        Leaf::Text(bounds) => texts_in(bounds, store, offset),
    }
}

// Returns the first rule that the slices from `offset` on break, as texts with these bounds.
fn judge_texts<L>(
    bounds: Bounds,
    store: &DecodedStore<'_>,
    offset: usize,
    tally: &mut Tally<L>,
) -> Result<(), StoreFault>
    requires { offset + (leaf_format (Text bounds)).count ≤ length (slices_in store.now) }
    ensures exact { verdict result ≡ first (moved offset ((leaf_format (Text bounds)).broken ((leaf_format (Text bounds)).build (drop offset (slices_in store.now))))) }
    ensures turns { tally.new.turns ≤ tally.old.turns + 16 * bytes_held ((leaf_format (Text bounds)).build (drop offset (slices_in store.now))) }
{
    match bounds {
        Bounds::Words => Strings::<Vec<u64>, Vec<u8>>::judge_tallied(store, offset, tally),
        Bounds::Strides => Strings::<Multiples, Vec<u8>>::judge_tallied(store, offset, tally),
        Bounds::Unaries => Strings::<Runs, Vec<u8>>::judge_tallied(store, offset, tally),
    }
}

/// Returns the first rule that the slices from `offset` on break. Allocates nothing. Adds its steps to the tally: at
/// most 16 for each byte.
///
/// # Requires
/// The store has these slices.
pub fn judge_leaf<L>(
    leaf: Leaf,
    store: &DecodedStore<'_>,
    offset: usize,
    tally: &mut Tally<L>,
) -> Result<(), StoreFault>
    requires { offset + (leaf_format leaf).count ≤ length (slices_in store.now) }
    ensures exact { verdict result ≡ first (moved offset ((leaf_format leaf).broken ((leaf_format leaf).build (drop offset (slices_in store.now))))) }
    ensures turns { tally.new.turns ≤ tally.old.turns + 16 * bytes_held ((leaf_format leaf).build (drop offset (slices_in store.now))) }
{
    match leaf {
        Leaf::U8 => Vec::<u8>::judge_tallied(store, offset, tally),
        Leaf::U16 => Vec::<u16>::judge_tallied(store, offset, tally),
        Leaf::U32 => Vec::<u32>::judge_tallied(store, offset, tally),
        Leaf::U64 => Vec::<u64>::judge_tallied(store, offset, tally),
        Leaf::U128 => U128s::<Vec<[u8; 16]>>::judge_tallied(store, offset, tally),
        Leaf::Usize => Usizes::<Vec<u64>>::judge_tallied(store, offset, tally),
        Leaf::I8 => Vec::<i8>::judge_tallied(store, offset, tally),
        Leaf::I16 => Vec::<i16>::judge_tallied(store, offset, tally),
        Leaf::I32 => Vec::<i32>::judge_tallied(store, offset, tally),
        Leaf::I64 => Vec::<i64>::judge_tallied(store, offset, tally),
        Leaf::I128 => I128s::<Vec<[u8; 16]>>::judge_tallied(store, offset, tally),
        Leaf::Isize => Isizes::<Vec<i64>>::judge_tallied(store, offset, tally),
        Leaf::F32 => Singles::<Vec<u32>>::judge_tallied(store, offset, tally),
        Leaf::F64 => Doubles::<Vec<u64>>::judge_tallied(store, offset, tally),
        Leaf::Bool => Truths::judge_tallied(store, offset, tally),
        Leaf::Char => Chars::<Vec<u32>>::judge_tallied(store, offset, tally),
        Leaf::Unit => Empties::<u64>::judge_tallied(store, offset, tally),
        Leaf::Duration => Durations::<Vec<u64>, Vec<u32>>::judge_tallied(store, offset, tally),
        Leaf::Text(bounds) => judge_texts(bounds, store, offset, tally),
    }
}
