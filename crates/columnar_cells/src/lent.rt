//! Columns whose rows are borrowed for writing.
ghost use Rattle.std.specs.Prelude.{◌≡◌, ◌<◌, ◌-◌, ◌↔◌, ℕ, [], length, slice_get, Some, IfSome, IsNone, IsTrue, true, false, refl};
ghost use Rattle.std.specs.Borrow.{sem, MutBor, Lends, LendsIf};
ghost use Rattle.std.specs.Vec.{with_item};
ghost use Rattle.columnar_base.specs.Row.{Row, unit};
ghost use Rattle.columnar_base.specs.Format.{IsSound};
ghost use Rattle.columnar_cells.specs.Wrote.{Wrote, row_at};

use crate::set::{SetAny, SetRow};
use columnar_core::boxed::Boxed;
use columnar_core::element::Element;
use columnar_core::traits::{Column, Index, Item, Len};
use columnar_primitive::codes::{Coded, Codes};
use columnar_primitive::count::Count;
use columnar_primitive::empties::Empties;

/// A column that stores each row as one value, so that a `&mut` to it can be given.
pub trait ValueMut: Len {
    /// The value.
    type Value;

    // the column with value w in row i
    ghost with: { Self → ℕ → Self.Value → Self };

    // the row that a value represents
    ghost shown: { Self.Value → Row };

    // w is the value of row i
    ghost holds: { Self → ℕ → Self.Value → Type 0 };

    /// Returns a reference to the value of row `index`. Whatever is written to it, no other row changes.
    ///
    /// # Requires
    /// The column is well-formed, and `index` is less than its length.
    fn value_mut(&mut self, index: usize) -> &mut Self::Value
        requires sound { IsSound Self.format (Self.content self.old) }
        requires in_range { index < length (Self.format.rows (Self.content self.old)) }
        ensures* writes_back { sem 𝓛 (Lends Self.row Self.Value.row self.entry result (with self.old index)) }
        ensures value { holds self.old index result.now }
        ensures shows { slice_get (Self.format.rows (Self.content self.old)) index ≡ Some (shown result.now) }
        ensures leaves { (w : Self.Value) → Wrote Self.format (Self.content self.old) (Self.content (with self.old index w)) index (shown w) };
}

impl<T: Element> ValueMut for Vec<T> {
    type Value = T;

    ghost with = { λ v i w. with_item v i w };

    ghost shown = { T.meaning };

    ghost holds = { λ v i w. slice_get v.items i ≡ Some w };

    fn value_mut(&mut self, index: usize) -> &mut T {
        &mut self[index]
    }
}

/// Values for which every code is valid: no write to a code can break the column.
pub trait EveryCode: Coded {
    ghost every: { (r : Row) → Self.is_code r ≡ true };
}

impl EveryCode for usize {
    ghost every = { λ r. refl };
}

impl EveryCode for isize {
    ghost every = { λ r. refl };
}

impl EveryCode for u128 {
    ghost every = { λ r. refl };
}

impl EveryCode for i128 {
    ghost every = { λ r. refl };
}

impl EveryCode for f32 {
    ghost every = { λ r. refl };
}

impl EveryCode for f64 {
    ghost every = { λ r. refl };
}

/// Gives a reference to the code.
impl<T: EveryCode, CV: ValueMut> ValueMut for Codes<CV, T> {
    type Value = CV::Value;

    ghost with = { λ c i w. record c { values = CV.with c.values i w } };

    ghost shown = { λ w. T.row_of (CV.shown w) };

    ghost holds = { λ c i w. CV.holds c.values i w };

    fn value_mut(&mut self, index: usize) -> &mut CV::Value {
        self.values.value_mut(index)
    }
}

/// Gives a reference to the unit.
impl<CC: Count> ValueMut for Empties<CC> {
    type Value = ();

    ghost with = { λ c i w. record c { empty = w } };

    ghost shown = { λ w. unit };

    ghost holds = { λ c i w. c.empty ≡ w };

    fn value_mut(&mut self, _index: usize) -> &mut () {
        &mut self.empty
    }
}

/// Gives the reference of the inner column.
impl<C: ValueMut> ValueMut for Boxed<C> {
    type Value = C::Value;

    ghost with = { λ b i w. record b { 0 = C.with b.0 i w } };

    ghost shown = { C.shown };

    ghost holds = { λ b i w. C.holds b.0 i w };

    fn value_mut(&mut self, index: usize) -> &mut C::Value {
        self.0.value_mut(index)
    }
}

/// Gives the reference of the column.
impl<'b, C: ValueMut> ValueMut for &'b mut C {
    type Value = C::Value;

    ghost with = { λ s i w. record s { now = C.with s.now i w } };

    ghost shown = { C.shown };

    ghost holds = { λ s i w. C.holds s.now i w };

    fn value_mut(&mut self, index: usize) -> &mut C::Value {
        (**self).value_mut(index)
    }
}

/// A mutable loan of a column: rows can be written, but the column cannot grow or shrink. The contracts of `set` and
/// `set_checked` still hold for the column after the loan.
#[derive(Drop)]
pub struct Lent<'a, C> {
    column: &'a mut C,
}

impl<'a, C> Lent<'a, C> {
    /// Borrows the column.
    pub fn new(column: &'a mut C) -> Lent<'a, C>
        ensures same_reference { result.column.ghost_name ≡ column.entry.ghost_name }
        ensures column { result.column.now ≡ column.old }
    {
        Lent { column }
    }
}

impl<'b, C: Column> Column for Lent<'b, C> {
    ghost format = { C.format };

    ghost content = { λ c. C.content c.column.now };

    ghost room = { λ c rs. ⊥ };
}

impl<'b, C: Len> Len for Lent<'b, C> {
    fn len(&self) -> usize {
        self.column.len()
    }
}

impl<'b, C: ValueMut> ValueMut for Lent<'b, C> {
    type Value = C::Value;

    ghost with = { λ s i w. record s { column = record s.column { now = C.with s.column.now i w } } };

    ghost shown = { C.shown };

    ghost holds = { λ s i w. C.holds s.column.now i w };

    fn value_mut(&mut self, index: usize) -> &mut C::Value {
        self.column.value_mut(index)
    }
}

impl<'b, C: Len> Lent<'b, C> {
    /// Writes row `index` as `set_row` does. The loan is still of the same column.
    ///
    /// # Requires
    /// As `set_row`.
    pub fn set<T: Item>(&mut self, index: usize, item: T)
    where
        C: SetRow<T>,
        requires sound { IsSound C.format (C.content self.old.column.now) }
        requires in_range { index < length (C.format.rows (C.content self.old.column.now)) }
        requires valid { T.valid item }
        requires fits { C.fits (row_at (C.format.rows (C.content self.old.column.now)) index) item }
        ensures same_reference { self.new.column.ghost_name ≡ self.old.column.ghost_name }
        ensures wrote { Wrote C.format (C.content self.old.column.now) (C.content self.new.column.now) index (T.meaning item) }
    {
        self.column.set_row(index, item);
    }

    /// Writes row `index` as `set_row_checked` does, or returns false. The loan is still of the same column.
    ///
    /// # Requires
    /// The column is well-formed, and `item` is valid.
    pub fn set_checked<T: Item + Drop>(&mut self, index: usize, item: T) -> bool
    where
        C: SetRow<T>,
        requires sound { IsSound C.format (C.content self.old.column.now) }
        requires valid { T.valid item }
        ensures same_reference { self.new.column.ghost_name ≡ self.old.column.ghost_name }
        ensures exact { IsTrue result ↔ ((index < length (C.format.rows (C.content self.old.column.now))) × C.fits (row_at (C.format.rows (C.content self.old.column.now)) index) item) }
        ensures written { IsTrue result → Wrote C.format (C.content self.old.column.now) (C.content self.new.column.now) index (T.meaning item) }
        ensures kept { result ≡ false → self.new.column.now ≡ self.old.column.now }
    {
        self.column.set_row_checked(index, item)
    }
}

impl<'b, T: Item, C: SetRow<T>> SetRow<T> for Lent<'b, C> {
    ghost fits = { C.fits };

    fn may_set(&self, index: usize, item: &T) -> bool {
        self.column.may_set(index, item)
    }

    fn set_row(&mut self, index: usize, item: T) {
        self.set(index, item);
    }
}

impl<'b, T: Item, C: SetAny<T>> SetAny<T> for Lent<'b, C> {
    ghost any = { C.any };
}
