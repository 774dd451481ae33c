//! Columns whose rows are values of your own type.
ghost use Rattle.std.specs.Prelude.{◌≡◌};

use columnar_base::traits::{Column, Index, Item, Len};
use columnar_core::ordered::OrderedRow;
use std::cmp::Ordering;
use std::fmt::{self, Debug, Formatter, Write};
use std::hash::Hasher;
use std::marker::PhantomData;

/// A type of values that shows a row of their parts, read as `R`, with the names of the parts.
pub trait MakeRow<R: Item> {
    /// A row with named parts.
    type Row: Item;

    /// Makes a row with named parts from a row of the parts; both mean the same.
    ///
    /// # Requires
    /// A valid row.
    fn make_row(row: R) -> Self::Row
        requires { R.valid row }
        ensures row { Self.Row.meaning result ≡ R.meaning row }
        ensures valid { Self.Row.valid result };
}

/// A row of a column of values of type `K`: a row of their parts.
#[derive(Drop)]
#[derive_where(Clone, Copy, PartialEq; R)]
pub struct OwnRow<R, K> {
    /// The row of the parts.
    pub parts: R,
    kind: PhantomData<K>,
}

impl<R, K> OwnRow<R, K> {
    /// Makes a row of these parts.
    pub fn new(parts: R) -> OwnRow<R, K>
        ensures { result.parts ≡ parts }
    {
        OwnRow {
            parts,
            kind: PhantomData,
        }
    }
}

impl<R: Item, K: MakeRow<R>> OwnRow<R, K> {
    /// Returns the row with named parts.
    ///
    /// # Requires
    /// A valid row of the parts.
    pub fn show(self) -> K::Row
        requires { R.valid self.parts }
        ensures row { K.Row.meaning result ≡ R.meaning self.parts }
        ensures valid { K.Row.valid result }
    {
        K::make_row(self.parts)
    }
}

/// The row means the same as the row of its parts.
impl<R: Item, K> Item for OwnRow<R, K> {
    ghost meaning = { λ r. R.meaning r.parts };

    ghost valid = { λ r. R.valid r.parts };

    ghost unbuffered = { R.unbuffered };
}

/// Rows compare as their parts do. The row of a struct is the tuple of its fields, so the first field that differs decides.
/// The row of an enum is a row of variants, so the variant decides before the value.
impl<R: OrderedRow, K> OrderedRow for OwnRow<R, K> {
    ghost row_input = { R.row_input };

    fn same_row(&self, other: &Self) -> bool {
        self.parts.same_row(&other.parts)
    }

    fn compare_row(&self, other: &Self) -> Ordering {
        self.parts.compare_row(&other.parts)
    }

    fn hash_row<H: Hasher>(&self, state: &mut H) {
        self.parts.hash_row(state);
    }
}

/// Prints the parts.
impl<R: Debug, K> Debug for OwnRow<R, K> {
    fn fmt<W: Write>(&self, f: &mut Formatter<W>) -> fmt::Result {
        self.parts.fmt(f)
    }
}

/// A column of values of your own type `K`, or a view of one. It is stored as a column of their parts, with the same
/// slices and rows.
#[derive(Drop)]
#[derive_where(Clone, Copy, PartialEq; P)]
pub struct OwnRows<P, K> {
    /// The column of the parts; for a struct, a tuple with a column for each field.
    pub parts: P,
    kind: PhantomData<K>,
}

impl<P, K> OwnRows<P, K> {
    /// Makes a column of these parts.
    pub fn new(parts: P) -> OwnRows<P, K>
        ensures { result.parts ≡ parts }
    {
        OwnRows {
            parts,
            kind: PhantomData,
        }
    }
}

impl<P: Column, K> Column for OwnRows<P, K> {
    ghost format = { P.format };

    ghost content = { λ c. P.content c.parts };

    ghost room = { λ c. P.room c.parts };
}

impl<P: Len, K> Len for OwnRows<P, K> {
    fn len(&self) -> usize {
        self.parts.len()
    }
}

impl<P: Index, K> Index for OwnRows<P, K> {
    type Ref = OwnRow<P::Ref, K>;

    fn get(&self, index: usize) -> OwnRow<P::Ref, K> {
        OwnRow::new(self.parts.get(index))
    }
}

/// Reads rows through a reference, as the parts do.
impl<'x, P: Column, K> Index for &'x OwnRows<P, K>
where
    &'x P: Index,
{
    type Ref = OwnRow<<&'x P as Index>::Ref, K>;

    fn get(&self, index: usize) -> OwnRow<<&'x P as Index>::Ref, K> {
        let column: &'x OwnRows<P, K> = *self;
        let parts: &'x P = &column.parts;
        OwnRow::new(parts.get(index))
    }
}
