//! Callers that use only the contracts of writes: none of these functions has a proof file.
ghost use Rattle.std.specs.Prelude.{◌≡◌, ◌<◌, ◌+◌, ◌-◌, ◌%◌, ◌^◌, ◌↔◌, ℕ, [], length, slice_get, slice_set, Some, OnOk, OnErr, IfSome, IsNone, IsTrue, Ok, true, false};
ghost use Rattle.columnar_core.specs.Format.{both, IsSound};
ghost use Rattle.columnar_core.specs.Row.{tuple, first_of, second_of};
ghost use Rattle.columnar_core.specs.Elements.{word_row};
ghost use Rattle.columnar_core.specs.Tuples.{pair_format};
ghost use Rattle.columnar_bytes.specs.Stashes.{stash_content};
ghost use Rattle.columnar_cells.specs.Wrote.{Wrote, row_at};

use columnar_bytes::stash::{ByteStore, Stash};
use columnar_cells::index_mut::IndexMut;
use columnar_cells::items::{Field, SetItem};
use columnar_cells::lent::{Lent, ValueMut};
use columnar_cells::set::SetRow;
use columnar_core::container::ContainerBytes;
use columnar_core::fault::GrowError;
use columnar_core::traits::{Column, Index, Item, Len};

type Pair = (Vec<u64>, Vec<u64>);

/// Writes row `index` of a stash, for any column that accepts such rows.
pub fn writes<T: Item + Drop, C: ContainerBytes + Drop + SetRow<T>, B: ByteStore>(
    stash: &mut Stash<C, B>,
    index: usize,
    item: T,
) -> Result<(), GrowError>
    requires sound { IsSound C.format (stash_content stash.old) }
    requires in_range { index < length (C.format.rows (stash_content stash.old)) }
    requires valid { T.valid item }
    requires fits { C.fits (row_at (C.format.rows (stash_content stash.old)) index) item }
    ensures ok { OnOk result (Wrote C.format (stash_content stash.old) (stash_content stash.new) index (T.meaning item)) }
    ensures err { OnErr result (stash.new ≡ stash.old) }
{
    stash.make_typed()?.set_row(index, item);
    Ok(())
}

/// Writes a row of a stash if there is one that the item may replace; returns whether there is.
pub fn writes_where_it_fits<T: Item + Drop, C: ContainerBytes + Drop + SetRow<T>, B: ByteStore>(
    stash: &mut Stash<C, B>,
    index: usize,
    item: T,
) -> Result<bool, GrowError>
    requires sound { IsSound C.format (stash_content stash.old) }
    requires valid { T.valid item }
    ensures err { OnErr result (stash.new ≡ stash.old) }
    ensures written { result ≡ Ok true → Wrote C.format (stash_content stash.old) (stash_content stash.new) index (T.meaning item) }
    ensures kept { result ≡ Ok false → stash_content stash.new ≡ stash_content stash.old }
{
    Ok(stash.make_typed()?.set_row_checked(index, item))
}

/// Writes a pair.
pub fn writes_pair<B: ByteStore>(stash: &mut Stash<Pair, B>, index: usize) -> Result<(), GrowError>
    requires sound { IsSound ⟦<Pair as Column>⟧.format (stash_content stash.old) }
    requires in_range { index < length (⟦<Pair as Column>⟧.format.rows (stash_content stash.old)) }
    ensures ok { OnOk result (Wrote ⟦<Pair as Column>⟧.format (stash_content stash.old) (stash_content stash.new) index (tuple (word_row 7) (word_row 9))) }
    ensures err { OnErr result (stash.new ≡ stash.old) }
{
    stash.make_typed()?.set_row(index, (7u64, 9u64));
    Ok(())
}

/// Writes the second field of a pair; the first stays the same.
pub fn writes_second<B: ByteStore>(
    stash: &mut Stash<Pair, B>,
    index: usize,
) -> Result<(), GrowError>
    requires sound { IsSound ⟦<Pair as Column>⟧.format (stash_content stash.old) }
    requires in_range { index < length (⟦<Pair as Column>⟧.format.rows (stash_content stash.old)) }
    ensures ok { OnOk result (Wrote ⟦<Pair as Column>⟧.format (stash_content stash.old) (stash_content stash.new) index (tuple (first_of (row_at (⟦<Pair as Column>⟧.format.rows (stash_content stash.old)) index)) (word_row 9))) }
    ensures err { OnErr result (stash.new ≡ stash.old) }
{
    stash.make_typed()?.set_item(index, Field::<1>, 9u64);
    Ok(())
}

/// Increments row `index` in place.
pub fn counts<B: ByteStore>(stash: &mut Stash<Vec<u64>, B>, index: usize) -> Result<(), GrowError>
    requires sound { IsSound ⟦<Vec<u64> as Column>⟧.format (stash_content stash.old) }
    requires in_range { index < length (⟦<Vec<u64> as Column>⟧.format.rows (stash_content stash.old)) }
    ensures ok { OnOk result ((n : ℕ) × ((slice_get (⟦<Vec<u64> as Column>⟧.format.rows (stash_content stash.old)) index ≡ Some (word_row n)) × Wrote ⟦<Vec<u64> as Column>⟧.format (stash_content stash.old) (stash_content stash.new) index (word_row ((n + 1) % 2 ^ 64)))) }
    ensures err { OnErr result (stash.new ≡ stash.old) }
{
    let count = stash.make_typed()?.value_mut(index);
    *count = count.wrapping_add(1);
    Ok(())
}

/// Writes row `index` through its `&mut`, for any column that gives one.
pub fn writes_value<C: ValueMut>(column: &mut C, index: usize, item: C::Value)
where
    C::Value: Drop,
    requires sound { IsSound C.format (C.content column.old) }
    requires in_range { index < length (C.format.rows (C.content column.old)) }
    ensures { Wrote C.format (C.content column.old) (C.content column.new) index (C.shown item) }
{
    *column.value_mut(index) = item;
}

/// Writes the last row through its `&mut`; returns false if there is none.
pub fn writes_last(column: &mut Vec<u64>, item: u64) -> bool
    requires { IsSound ⟦<Vec<u64> as Column>⟧.format (⟦<Vec<u64> as Column>⟧.content column.old) }
    ensures written { IsTrue result → Wrote ⟦<Vec<u64> as Column>⟧.format (⟦<Vec<u64> as Column>⟧.content column.old) (⟦<Vec<u64> as Column>⟧.content column.new) (length (⟦<Vec<u64> as Column>⟧.format.rows (⟦<Vec<u64> as Column>⟧.content column.old)) - 1) (word_row item) }
    ensures kept { result ≡ false → column.new ≡ column.old }
{
    if let Some(last) = IndexMut::last_mut(column) {
        *last = item;
        true
    } else {
        false
    }
}

/// Writes a row through its `RowMut`.
pub fn writes_lent(column: &mut Pair, index: usize)
    requires sound { IsSound ⟦<Pair as Column>⟧.format (⟦<Pair as Column>⟧.content column.old) }
    requires in_range { index < length (⟦<Pair as Column>⟧.format.rows (⟦<Pair as Column>⟧.content column.old)) }
    ensures { Wrote ⟦<Pair as Column>⟧.format (⟦<Pair as Column>⟧.content column.old) (⟦<Pair as Column>⟧.content column.new) index (tuple (word_row 7) (word_row 9)) }
{
    column.get_mut(index).set((7u64, 9u64));
}

/// Writes a row through a loan of a column, for any column that accepts such rows; returns whether it was written.
pub fn writes_through<T: Item + Drop, C: SetRow<T>>(column: &mut C, index: usize, item: T) -> bool
    requires sound { IsSound C.format (C.content column.old) }
    requires valid { T.valid item }
    ensures written { IsTrue result → Wrote C.format (C.content column.old) (C.content column.new) index (T.meaning item) }
    ensures kept { result ≡ false → column.new ≡ column.old }
{
    Lent::new(column).set_checked(index, item)
}

/// Writes a value of one part, through the part's own field.
pub fn writes_part(column: &mut Pair, index: usize)
    requires sound { IsSound ⟦<Vec<u64> as Column>⟧.format (⟦<Vec<u64> as Column>⟧.content column.old.0) }
    requires in_range { index < length (⟦<Vec<u64> as Column>⟧.format.rows (⟦<Vec<u64> as Column>⟧.content column.old.0)) }
    ensures first { Wrote ⟦<Vec<u64> as Column>⟧.format (⟦<Vec<u64> as Column>⟧.content column.old.0) (⟦<Vec<u64> as Column>⟧.content column.new.0) index (word_row 9) }
    ensures second { column.new.1 ≡ column.old.1 }
{
    *IndexMut::get_mut(&mut column.0, index) = 9;
}
