//! Columns that test whether a row is the same as an item.
ghost use Rattle.std.specs.Prelude.{◌≡◌, ◌<◌, length, slice_get, Some};
ghost use Rattle.columnar_base.specs.Row.{Row, row_eq, tuple};
ghost use Rattle.columnar_base.specs.Format.{both, IsSound};
ghost use Rattle.columnar_base.specs.Tuples.{pair_format};

mod tuples;

use columnar_base::element::Element;
use columnar_base::storage::Truncate;
use columnar_base::traits::{Column, Index, Item};
use columnar_bits::bools::Bools;
use columnar_core::boxed::Boxed;
use columnar_core::offsets::Offsets;
use columnar_core::ordered::OrderedRow;
use columnar_core::words::Words;
use columnar_primitive::codes::{Coded, Codes};
use columnar_primitive::count::Count;
use columnar_primitive::durations::Durations;
use columnar_primitive::empties::Empties;
use columnar_primitive::offsets::Strides;
use columnar_strings::string::{Strings, Text};
use columnar_sums::option::Options;
use columnar_sums::unaries::Unaries;
use std::time::Duration;

/// A column that tests whether a row is the same as an item by `kin`, the relation of its format. `kin` is an
/// equivalence that holds whenever a stored row represents the item.
pub trait SameAs<T: Item>: Column {
    /// Tests whether row `at` and the item are `kin`.
    ///
    /// # Requires
    /// The column is well-formed, `at` is less than its length, and `item` is valid.
    fn same(&self, at: usize, item: &T) -> bool
        requires sound { IsSound Self.format (Self.content self.now) }
        requires in_range { at < length (Self.format.rows (Self.content self.now)) }
        requires valid { T.valid item.now }
        ensures { (r : Row) → slice_get (Self.format.rows (Self.content self.now)) at ≡ Some r → result ≡ Self.format.kin r (T.meaning item.now) };
}

// Tests whether row `at` equals the item.
fn equals<C: Index<Ref: OrderedRow>>(column: &C, at: usize, item: &C::Ref) -> bool
    requires sound { IsSound C.format (C.content column.now) }
    requires in_range { at < length (C.format.rows (C.content column.now)) }
    ensures { (r : Row) → slice_get (C.format.rows (C.content column.now)) at ≡ Some r → result ≡ row_eq r (C.Ref.meaning item.now) }
{
    column.get(at).same_row(item)
}

impl<T: Element + OrderedRow> SameAs<T> for Vec<T> {
    fn same(&self, at: usize, item: &T) -> bool {
        equals::<Vec<T>>(self, at, item)
    }
}

impl<VC: Words, WC: Words> SameAs<bool> for Bools<VC, WC> {
    fn same(&self, at: usize, item: &bool) -> bool {
        equals(self, at, item)
    }
}

impl<CV: Index<Ref = T::Code>, T: Coded + OrderedRow> SameAs<T> for Codes<CV, T> {
    fn same(&self, at: usize, item: &T) -> bool {
        equals(self, at, item)
    }
}

impl<SC: Index<Ref = u64>, NC: Index<Ref = u32>> SameAs<Duration> for Durations<SC, NC> {
    fn same(&self, at: usize, item: &Duration) -> bool {
        equals(self, at, item)
    }
}

impl<CC: Count> SameAs<()> for Empties<CC> {
    fn same(&self, at: usize, item: &()) -> bool {
        equals(self, at, item)
    }
}

impl<BC: Words, HC: Words> SameAs<u64> for Strides<BC, HC> {
    fn same(&self, at: usize, item: &u64) -> bool {
        equals(self, at, item)
    }
}

impl<CC: Words, VC: Words, WC: Words> SameAs<u64> for Unaries<CC, VC, WC> {
    fn same(&self, at: usize, item: &u64) -> bool {
        equals(self, at, item)
    }
}

/// Tests the field in its part.
impl<P: Item, A: SameAs<P>> SameAs<(P,)> for (A,) {
    fn same(&self, at: usize, item: &(P,)) -> bool {
        self.0.same(at, &item.0)
    }
}

// Tests both fields in their parts.
fn same_two<P: Item, Q: Item, A: SameAs<P>, B: SameAs<Q>>(
    first: &A,
    second: &B,
    at: usize,
    p: &P,
    q: &Q,
) -> bool
    requires sound { IsSound (pair_format A.format B.format) (both (A.content first.now) (B.content second.now)) }
    requires in_range { at < length ((pair_format A.format B.format).rows (both (A.content first.now) (B.content second.now))) }
    requires valid_first { P.valid p.now }
    requires valid_second { Q.valid q.now }
    ensures { (r : Row) → slice_get ((pair_format A.format B.format).rows (both (A.content first.now) (B.content second.now))) at ≡ Some r → result ≡ (pair_format A.format B.format).kin r (tuple (P.meaning p.now) (Q.meaning q.now)) }
{
    first.same(at, p) && second.same(at, q)
}

/// Tests both fields in their parts.
impl<P: Item, Q: Item, A: SameAs<P>, B: SameAs<Q>> SameAs<(P, Q)> for (A, B) {
    fn same(&self, at: usize, item: &(P, Q)) -> bool {
        same_two(&self.0, &self.1, at, &item.0, &item.1)
    }
}

/// Both are absent, or both are present and their values are the same.
impl<T: Item, TC: SameAs<T> + Truncate, CC: Words, VC: Words, WC: Words> SameAs<Option<T>>
    for Options<TC, CC, VC, WC> {
    fn same(&self, at: usize, item: &Option<T>) -> bool {
        match item {
            Some(value) => self.indexes.get(at) && self.somes.same(self.indexes.rank(at), value),
            None => !self.indexes.get(at),
        }
    }
}

impl<R: Item, C: SameAs<R>> SameAs<Boxed<R>> for Boxed<C> {
    fn same(&self, at: usize, item: &Boxed<R>) -> bool {
        self.0.same(at, &item.0)
    }
}

/// Tests the content of the box.
impl<T: Item, C: SameAs<T>> SameAs<Box<T>> for Boxed<C> {
    fn same(&self, at: usize, item: &Box<T>) -> bool {
        self.0.same(at, &**item)
    }
}

/// Tests the bytes.
impl<T: Text, BC: Offsets> SameAs<T> for Strings<BC, Vec<u8>> {
    fn same(&self, at: usize, item: &T) -> bool {
        Index::get(&self, at).same_row(&item.text_bytes())
    }
}

// Items that are references.

impl<'x, T: Element + OrderedRow> SameAs<&'x T> for Vec<T> {
    fn same(&self, at: usize, item: &&'x T) -> bool {
        SameAs::<T>::same(self, at, *item)
    }
}

impl<'x, VC: Words, WC: Words> SameAs<&'x bool> for Bools<VC, WC> {
    fn same(&self, at: usize, item: &&'x bool) -> bool {
        SameAs::<bool>::same(self, at, *item)
    }
}

impl<'x, CV: Index<Ref = T::Code>, T: Coded + OrderedRow> SameAs<&'x T> for Codes<CV, T> {
    fn same(&self, at: usize, item: &&'x T) -> bool {
        SameAs::<T>::same(self, at, *item)
    }
}

impl<'x, SC: Index<Ref = u64>, NC: Index<Ref = u32>> SameAs<&'x Duration> for Durations<SC, NC> {
    fn same(&self, at: usize, item: &&'x Duration) -> bool {
        SameAs::<Duration>::same(self, at, *item)
    }
}

impl<'x, CC: Count> SameAs<&'x ()> for Empties<CC> {
    fn same(&self, at: usize, item: &&'x ()) -> bool {
        SameAs::<()>::same(self, at, *item)
    }
}

impl<'x, BC: Words, HC: Words> SameAs<&'x u64> for Strides<BC, HC> {
    fn same(&self, at: usize, item: &&'x u64) -> bool {
        SameAs::<u64>::same(self, at, *item)
    }
}

impl<'x, CC: Words, VC: Words, WC: Words> SameAs<&'x u64> for Unaries<CC, VC, WC> {
    fn same(&self, at: usize, item: &&'x u64) -> bool {
        SameAs::<u64>::same(self, at, *item)
    }
}

impl<'x, P: Item, A: SameAs<P>> SameAs<&'x (P,)> for (A,) {
    fn same(&self, at: usize, item: &&'x (P,)) -> bool {
        SameAs::<(P,)>::same(self, at, *item)
    }
}

impl<'x, P: Item, Q: Item, A: SameAs<P>, B: SameAs<Q>> SameAs<&'x (P, Q)> for (A, B) {
    fn same(&self, at: usize, item: &&'x (P, Q)) -> bool {
        SameAs::<(P, Q)>::same(self, at, *item)
    }
}

impl<'x, T: Item, TC: SameAs<T> + Truncate, CC: Words, VC: Words, WC: Words> SameAs<&'x Option<T>>
    for Options<TC, CC, VC, WC> {
    fn same(&self, at: usize, item: &&'x Option<T>) -> bool {
        SameAs::<Option<T>>::same(self, at, *item)
    }
}

impl<'x, R: Item, C: SameAs<R>> SameAs<&'x Boxed<R>> for Boxed<C> {
    fn same(&self, at: usize, item: &&'x Boxed<R>) -> bool {
        SameAs::<Boxed<R>>::same(self, at, *item)
    }
}

impl<'x, T: Item, C: SameAs<T>> SameAs<&'x Box<T>> for Boxed<C> {
    fn same(&self, at: usize, item: &&'x Box<T>) -> bool {
        SameAs::<Box<T>>::same(self, at, *item)
    }
}
