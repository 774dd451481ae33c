//! Validation of a store against a column type that is read at run time.
ghost use Rattle.std.specs.Prelude.{◌≡◌, ◌+◌, ◌*◌, ◌^◌, ◌≤◌, length, drop};
ghost use Rattle.columnar_base.specs.Elements.{bytes_format};
ghost use Rattle.columnar_base.specs.Format.{Fits, bytes_held, first, moved};
ghost use Rattle.columnar_base.specs.Faults.{verdict};
ghost use Rattle.columnar_base.specs.LongTuples.{are_level, tuple_format};
ghost use Rattle.columnar_core.specs.Store.{slices_in};
ghost use Rattle.columnar_sums.specs.Counting.{ones};
ghost use Rattle.columnar_sums.specs.RankColumns.{ranks_bits, ranks_format};
ghost use Rattle.columnar_sums.specs.Options.{options_format};
ghost use Rattle.columnar_sums.specs.Results.{results_format};
ghost use Rattle.columnar_lists.specs.Lists.{lists_format};
ghost use Rattle.columnar_lookback.specs.Lookbacks.{lookbacks_format};
ghost use Rattle.columnar_lookback.specs.Repeats.{repeats_format, starts_set};
ghost use Rattle.columnar_schema.specs.Formats.{bounds_format, columns_of, format_of};

use crate::bounds::{bounds_rise, bounds_rows, bounds_slices, judge_bounds};
use crate::cases::{Forms, close_sum};
use crate::leaf::{judge_leaf, leaf_rows, leaf_slices};
use columnar_core::bytes::{FromBytes, Stored};
use columnar_core::fault::StoreFault;
use columnar_core::store::DecodedStore;
use columnar_core::tally::Tally;
use columnar_core::traits::{Index, Len};
use columnar_core::view::View;
use columnar_lookback::lookbacks::Distances;
use columnar_lookback::lookbacks::bytes::all_reach;
use columnar_sums::rank_select::RankSelect;
use columnar_syntax::schema::{Bounds, Leaf, Schema};

type Bits = RankSelect<Vec<u64>, Vec<u64>, [u64; 2]>;

/// Returns the number of slices of a type.
///
/// # Requires
/// The type has at most 2^60 slices.
#[tactic(auto, using(crate::specs::CountLaws::tuple_count, crate::specs::CountLaws::beside_count, crate::specs::CountLaws::first_counted, crate::specs::CountLaws::others_counted, crate::specs::CountLaws::field_counted, crate::specs::CountLaws::later_counted, crate::specs::BankLaws::sum_count, crate::specs::BankLaws::cases_counted))]
pub fn slice_count_of(schema: &Schema) -> usize
    requires { (format_of schema.now).count ≤ 2 ^ 60 }
    ensures { result ≡ (format_of schema.now).count }
{
    match schema {
        Schema::Simple(leaf) => leaf_slices(*leaf),
        Schema::Optional(values) => 3 + slice_count_of(values),
        Schema::Fallible(values, errors) => 3 + (slice_count_of(values) + slice_count_of(errors)),
        Schema::Lists(bounds, values) => bounds_slices(*bounds) + slice_count_of(values),
        Schema::Solo(_, field) => slice_count_of(field),
        Schema::Tuple(_, first, others) => slice_count_of(first) + slice_count_of(others),
        Schema::Beside(field, later) => slice_count_of(field) + slice_count_of(later),
        Schema::Field(_, part) => slice_count_of(part),
        Schema::Array(_, values) => 1 + slice_count_of(values),
        Schema::Repeated(values) => 3 + slice_count_of(values),
        Schema::Recalled(values) => 4 + slice_count_of(values),
        Schema::Sum(cases) => slice_count_of(cases) + 2,
        Schema::Named(_) => leaf_slices(Leaf::Unit),
        Schema::Case(_, _, part) => slice_count_of(part),
    }
}

/// Returns the number of rows in slices that were accepted for a type.
///
/// # Requires
/// The type has at most 2^60 slices, and those from `offset` on were accepted for it.
#[tactic(auto, using(crate::specs::TypeLaws::solo_fit, crate::specs::TypeLaws::first_fit, crate::specs::TypeLaws::others_fit, crate::specs::TypeLaws::field_fit, crate::specs::TypeLaws::later_fit, crate::specs::TypeLaws::part_fit, crate::specs::BankLaws::cases_fit, crate::specs::BankLaws::indexes_fit, crate::specs::BankLaws::value_fit, crate::specs::CountLaws::tuple_count, crate::specs::CountLaws::beside_count, crate::specs::CountLaws::first_counted, crate::specs::CountLaws::others_counted, crate::specs::CountLaws::field_counted, crate::specs::CountLaws::later_counted, crate::specs::BankLaws::sum_count, crate::specs::BankLaws::cases_counted))]
pub fn rows_of(schema: &Schema, store: &DecodedStore<'_>, offset: usize) -> usize
    requires counted { (format_of schema.now).count ≤ 2 ^ 60 }
    requires fits { Fits (format_of schema.now) offset (slices_in store.now) }
    ensures { result ≡ length ((format_of schema.now).rows ((format_of schema.now).build (drop offset (slices_in store.now)))) }
{
    match schema {
        Schema::Simple(leaf) => leaf_rows(*leaf, store, offset),
        Schema::Optional(_) => Bits::rows_in(store, offset),
        Schema::Fallible(_, _) => Bits::rows_in(store, offset),
        Schema::Lists(bounds, _) => bounds_rows(*bounds, store, offset),
        Schema::Solo(_, field) => rows_of(field, store, offset),
        Schema::Tuple(_, first, others) => {
            let rows = rows_of(first, store, offset);
            rows.min(rows_of(others, store, offset + slice_count_of(first)))
        }
        Schema::Beside(field, later) => {
            let rows = rows_of(field, store, offset);
            rows.min(rows_of(later, store, offset + slice_count_of(field)))
        }
        Schema::Field(_, part) => rows_of(part, store, offset),
        Schema::Array(_, _) => bounds_rows(Bounds::Words, store, offset),
        Schema::Repeated(_) => Bits::rows_in(store, offset),
        Schema::Recalled(_) => Bits::rows_in(store, offset),
        Schema::Sum(cases) => Forms::rows_in(store, offset + slice_count_of(cases)),
        Schema::Named(_) => leaf_rows(Leaf::Unit, store, offset),
        Schema::Case(_, _, part) => rows_of(part, store, offset),
    }
}

// Counts the set bits in slices that were accepted.
fn trues_in<L>(store: &DecodedStore<'_>, offset: usize, tally: &mut Tally<L>) -> usize
    requires { Fits ranks_format offset (slices_in store.now) }
    ensures value { result ≡ ones (ranks_bits (ranks_format.build (drop offset (slices_in store.now)))) (length (ranks_bits (ranks_format.build (drop offset (slices_in store.now))))) }
    ensures turns { tally.new.turns ≤ tally.old.turns + 16 }
{
    let mut at = offset;
    let bits = RankSelect::<View<'_, u64>, View<'_, u64>, View<'_, u64>>::from_store(
        store, &mut at,
    );
    bits.rank_tallied(bits.len(), tally)
}

// Tests for one value for each set bit, in slices whose parts were accepted.
fn close_options<L>(
    values: &Schema,
    store: &DecodedStore<'_>,
    offset: usize,
    tally: &mut Tally<L>,
) -> Result<(), StoreFault>
    requires counted { (format_of values.now).count ≤ 2 ^ 60 }
    requires bits { Fits ranks_format offset (slices_in store.now) }
    requires values { Fits (format_of values.now) (offset + 3) (slices_in store.now) }
    ensures exact { verdict result ≡ first (moved offset ((options_format (format_of values.now)).broken ((options_format (format_of values.now)).build (drop offset (slices_in store.now))))) }
    ensures turns { tally.new.turns ≤ tally.old.turns + 16 }
{
    let count = rows_of(values, store, offset + 3);
    if trues_in(store, offset, tally) == count {
        Ok(())
    } else {
        Err(StoreFault::Parts(offset))
    }
}

// Tests in slices that were accepted whether the first bit, if any, is set.
fn starts_in(store: &DecodedStore<'_>, offset: usize) -> bool
    requires { Fits ranks_format offset (slices_in store.now) }
    ensures { result ≡ starts_set (ranks_bits (ranks_format.build (drop offset (slices_in store.now)))) }
{
    let mut at = offset;
    let bits = RankSelect::<View<'_, u64>, View<'_, u64>, View<'_, u64>>::from_store(
        store, &mut at,
    );
    bits.len() == 0 || bits.get(0)
}

// Tests for one value for each set bit, and whether the first row, if any, is a value, in slices whose parts were
// accepted.
fn close_repeats<L>(
    values: &Schema,
    store: &DecodedStore<'_>,
    offset: usize,
    tally: &mut Tally<L>,
) -> Result<(), StoreFault>
    requires counted { (format_of values.now).count ≤ 2 ^ 60 }
    requires bits { Fits ranks_format offset (slices_in store.now) }
    requires values { Fits (format_of values.now) (offset + 3) (slices_in store.now) }
    ensures exact { verdict result ≡ first (moved offset ((repeats_format (format_of values.now)).broken ((repeats_format (format_of values.now)).build (drop offset (slices_in store.now))))) }
    ensures turns { tally.new.turns ≤ tally.old.turns + 16 }
{
    close_options(values, store, offset, tally)?;
    if starts_in(store, offset) {
        Ok(())
    } else {
        Err(StoreFault::Lookback(offset))
    }
}

// Tests for one value for each set bit and one error for each clear bit, in slices whose parts were accepted. The
// errors start at slice `after`.
fn close_results<L>(
    values: &Schema,
    errors: &Schema,
    store: &DecodedStore<'_>,
    offset: usize,
    after: usize,
    tally: &mut Tally<L>,
) -> Result<(), StoreFault>
    requires values_counted { (format_of values.now).count ≤ 2 ^ 60 }
    requires errors_counted { (format_of errors.now).count ≤ 2 ^ 60 }
    requires after { after ≡ offset + 3 + (format_of values.now).count }
    requires bits { Fits ranks_format offset (slices_in store.now) }
    requires values { Fits (format_of values.now) (offset + 3) (slices_in store.now) }
    requires errors { Fits (format_of errors.now) after (slices_in store.now) }
    ensures exact { verdict result ≡ first (moved offset ((results_format (format_of values.now) (format_of errors.now)).broken ((results_format (format_of values.now) (format_of errors.now)).build (drop offset (slices_in store.now))))) }
    ensures turns { tally.new.turns ≤ tally.old.turns + 16 }
{
    let rows = Bits::rows_in(store, offset);
    let oks = rows_of(values, store, offset + 3);
    let errs = rows_of(errors, store, after);
    let trues = trues_in(store, offset, tally);
    if trues == oks && rows - trues == errs {
        Ok(())
    } else {
        Err(StoreFault::Parts(offset))
    }
}

// Tests for one value for each set bit and one distance for each clear bit, and whether each distance reaches a value, in
// slices whose parts were accepted. The distances are slice `after`.
fn close_lookbacks<L>(
    values: &Schema,
    store: &DecodedStore<'_>,
    offset: usize,
    after: usize,
    tally: &mut Tally<L>,
) -> Result<(), StoreFault>
    requires counted { (format_of values.now).count ≤ 2 ^ 60 }
    requires after { after ≡ offset + 3 + (format_of values.now).count }
    requires bits { Fits ranks_format offset (slices_in store.now) }
    requires values { Fits (format_of values.now) (offset + 3) (slices_in store.now) }
    requires distances { Fits bytes_format after (slices_in store.now) }
    ensures exact { verdict result ≡ first (moved offset ((lookbacks_format (format_of values.now) bytes_format).broken ((lookbacks_format (format_of values.now) bytes_format).build (drop offset (slices_in store.now))))) }
    ensures turns { tally.new.turns ≤ tally.old.turns + (16 + 8 * bytes_held (ranks_format.build (drop offset (slices_in store.now)))) }
{
    let distances = Schema::Simple(Leaf::U8);
    close_results(values, &distances, store, offset, after, tally)?;
    let mut at = offset;
    let bits = RankSelect::<View<'_, u64>, View<'_, u64>, View<'_, u64>>::from_store(
        store, &mut at,
    );
    let back = Vec::<u8>::distances_in(store, after);
    if all_reach(&bits, &back, tally) {
        Ok(())
    } else {
        Err(StoreFault::Lookback(offset))
    }
}

// Tests whether the bounds rise to the number of values, in slices whose parts were accepted.
fn close_lists<L>(
    bounds: Bounds,
    values: &Schema,
    store: &DecodedStore<'_>,
    offset: usize,
    tally: &mut Tally<L>,
) -> Result<(), StoreFault>
    requires counted { (format_of values.now).count ≤ 2 ^ 60 }
    requires bounds { Fits (bounds_format bounds) offset (slices_in store.now) }
    requires values { Fits (format_of values.now) (offset + (bounds_format bounds).count) (slices_in store.now) }
    ensures exact { verdict result ≡ first (moved offset ((lists_format (bounds_format bounds) (format_of values.now)).broken ((lists_format (bounds_format bounds) (format_of values.now)).build (drop offset (slices_in store.now))))) }
    ensures turns { tally.new.turns ≤ tally.old.turns + 8 * bytes_held ((bounds_format bounds).build (drop offset (slices_in store.now))) }
{
    let count = rows_of(values, store, offset + bounds_slices(bounds));
    if bounds_rise(bounds, store, offset, count as u64, tally) {
        Ok(())
    } else {
        Err(StoreFault::Bounds(offset))
    }
}

// Tests whether each of these fields has `rows` rows, in slices that were accepted.
fn rows_agree(schema: &Schema, store: &DecodedStore<'_>, offset: usize, rows: usize) -> bool
    requires counted { (format_of schema.now).count ≤ 2 ^ 60 }
    requires fits { Fits (format_of schema.now) offset (slices_in store.now) }
    ensures { result ≡ are_level (columns_of schema.now).head (columns_of schema.now).others rows ((format_of schema.now).build (drop offset (slices_in store.now))) }
{
    match schema {
        Schema::Beside(field, later) => {
            rows == rows_of(field, store, offset)
                && rows_agree(later, store, offset + slice_count_of(field), rows)
        }
        _ => rows == rows_of(schema, store, offset),
    }
}

// Tests whether all fields have the same number of rows, in slices that were accepted for them. The second field starts
// at slice `after`.
fn close_tuple(
    field: &Schema,
    others: &Schema,
    store: &DecodedStore<'_>,
    offset: usize,
    after: usize,
) -> Result<(), StoreFault>
    requires field_counted { (format_of field.now).count ≤ 2 ^ 60 }
    requires others_counted { (format_of others.now).count ≤ 2 ^ 60 }
    requires after { after ≡ offset + (format_of field.now).count }
    requires field_fits { Fits (format_of field.now) offset (slices_in store.now) }
    requires others_fit { Fits (format_of others.now) after (slices_in store.now) }
    ensures { verdict result ≡ first (moved offset ((tuple_format (format_of field.now) (columns_of others.now).head (columns_of others.now).others).broken ((tuple_format (format_of field.now) (columns_of others.now).head (columns_of others.now).others).build (drop offset (slices_in store.now))))) }
{
    if rows_agree(others, store, after, rows_of(field, store, offset)) {
        Ok(())
    } else {
        Err(StoreFault::Parts(offset))
    }
}

/// Returns the first rule that the slices from `offset` on break, as a column of the type. Allocates nothing. Adds its
/// steps to the tally: at most 16 for each byte.
///
/// # Requires
/// The type has at most 2^60 slices, and the store has them from `offset` on.
#[tactic(auto, using(crate::specs::BankLaws::sum_count, crate::specs::BankLaws::cases_counted, crate::specs::BankLaws::cases_room))]
pub fn judge_of<L>(
    schema: &Schema,
    store: &DecodedStore<'_>,
    offset: usize,
    tally: &mut Tally<L>,
) -> Result<(), StoreFault>
    requires counted { (format_of schema.now).count ≤ 2 ^ 60 }
    requires room { offset + (format_of schema.now).count ≤ length (slices_in store.now) }
    ensures exact { verdict result ≡ first (moved offset ((format_of schema.now).broken ((format_of schema.now).build (drop offset (slices_in store.now))))) }
    ensures turns { tally.new.turns ≤ tally.old.turns + 16 * bytes_held ((format_of schema.now).build (drop offset (slices_in store.now))) }
{
    match schema {
        Schema::Simple(leaf) => judge_leaf(*leaf, store, offset, tally),
        Schema::Optional(values) => {
            Bits::judge_tallied(store, offset, tally)?;
            judge_of(values, store, offset + 3, tally)?;
            close_options(values, store, offset, tally)
        }
        Schema::Fallible(values, errors) => {
            Bits::judge_tallied(store, offset, tally)?;
            let start = offset + 3;
            judge_of(values, store, start, tally)?;
            let after = start + slice_count_of(values);
            judge_of(errors, store, after, tally)?;
            close_results(values, errors, store, offset, after, tally)
        }
        Schema::Lists(bounds, values) => {
            judge_bounds(*bounds, store, offset, tally)?;
            judge_of(values, store, offset + bounds_slices(*bounds), tally)?;
            close_lists(*bounds, values, store, offset, tally)
        }
        Schema::Solo(_, field) => judge_of(field, store, offset, tally),
        Schema::Tuple(_, first, others) => {
            judge_of(first, store, offset, tally)?;
            let after = offset + slice_count_of(first);
            judge_of(others, store, after, tally)?;
            close_tuple(first, others, store, offset, after)
        }
        Schema::Beside(field, later) => {
            judge_of(field, store, offset, tally)?;
            judge_of(later, store, offset + slice_count_of(field), tally)
        }
        Schema::Field(_, part) => judge_of(part, store, offset, tally),
        Schema::Array(_, values) => {
            judge_bounds(Bounds::Words, store, offset, tally)?;
            judge_of(values, store, offset + 1, tally)?;
            close_lists(Bounds::Words, values, store, offset, tally)
        }
        Schema::Repeated(values) => {
            Bits::judge_tallied(store, offset, tally)?;
            judge_of(values, store, offset + 3, tally)?;
            close_repeats(values, store, offset, tally)
        }
        Schema::Recalled(values) => {
            Bits::judge_tallied(store, offset, tally)?;
            let start = offset + 3;
            judge_of(values, store, start, tally)?;
            let after = start + slice_count_of(values);
            judge_leaf(Leaf::U8, store, after, tally)?;
            close_lookbacks(values, store, offset, after, tally)
        }
        Schema::Sum(cases) => {
            judge_of(cases, store, offset, tally)?;
            close_sum(cases, store, offset, offset + slice_count_of(cases), tally)
        }
        Schema::Named(_) => judge_leaf(Leaf::Unit, store, offset, tally),
        Schema::Case(_, _, part) => judge_of(part, store, offset, tally),
    }
}
