//! Pushes of your own values and rows: by value, by reference, and as rows that were read.
ghost use Rattle.std.specs.Prelude.{◌≡◌, [], ◌∷◌, OnOk, IfErr};
ghost use Rattle.columnar_base.specs.Format.{IsSound};
ghost use Rattle.columnar_base.specs.Change.{Took, Refused};
ghost use Rattle.columnar_base.specs.Room.{WasFull, Leaves};

use crate::rows::{OwnRow, OwnRows};
use columnar_base::fault::GrowError;
use columnar_base::traits::{Column, Item, Push, PushRef};

/// An item that can be pushed into a column of values of type `K`, stored in parts of type `P`: a value of type `K`, a
/// row of it, or a reference to either.
pub trait PushParts<P: Column, K>: Item {
    /// Appends a row that represents this item to the parts.
    ///
    /// # Requires
    /// Well-formed parts, and a valid item.
    ///
    /// # Errors
    /// As `Push::push`.
    fn push_parts(&self, parts: &mut P) -> Result<(), GrowError>
        requires sound { IsSound P.format (P.content parts.old) }
        requires valid { Self.valid self.now }
        ensures ok { OnOk result (Took P.format (P.content parts.old) (P.content parts.new) (Self.meaning self.now ∷ [])) }
        ensures err { IfErr result (λ e. Refused P.format (P.content parts.old) (P.content parts.new) (Self.meaning self.now ∷ []) e) }
        ensures wanted { Self.unbuffered → IfErr result (WasFull (P.room parts.old) (Self.meaning self.now ∷ [])) }
        ensures left { OnOk result (Leaves (P.room parts.old) (P.room parts.new) (Self.meaning self.now ∷ [])) };
}

/// A value that lends its fields as a row.
pub trait LendRow<'x>: Item {
    /// The type of the row; for an enum it has the same variants.
    type Lent: Copy + Item;

    /// Returns the row, which means the same as the value.
    ///
    /// # Requires
    /// A valid value.
    fn lend_row(&'x self) -> Self::Lent
        requires { Self.valid self.now }
        ensures row { Self.Lent.meaning result ≡ Self.meaning self.now }
        ensures valid { Self.Lent.valid result };

    /// Appends the lent row to the parts: the body of `push_parts` for such a value.
    ///
    /// # Requires
    /// Well-formed parts, and a valid value.
    ///
    /// # Errors
    /// As `Push::push`.
    final fn push_lent<P: Column, K>(&'x self, parts: &mut P) -> Result<(), GrowError>
    where
        Self::Lent: PushParts<P, K>,
        requires sound { IsSound P.format (P.content parts.old) }
        requires valid { Self.valid self.now }
        ensures ok { OnOk result (Took P.format (P.content parts.old) (P.content parts.new) (Self.meaning self.now ∷ [])) }
        ensures err { IfErr result (λ e. Refused P.format (P.content parts.old) (P.content parts.new) (Self.meaning self.now ∷ []) e) }
        ensures wanted { Self.Lent.unbuffered → IfErr result (WasFull (P.room parts.old) (Self.meaning self.now ∷ [])) }
        ensures left { OnOk result (Leaves (P.room parts.old) (P.room parts.new) (Self.meaning self.now ∷ [])) }
    {
        self.lend_row().push_parts(parts)
    }
}

impl<'x, T: PushParts<P, K>, P: Column, K> PushParts<P, K> for &'x T {
    fn push_parts(&self, parts: &mut P) -> Result<(), GrowError> {
        (**self).push_parts(parts)
    }
}

impl<R: Copy + Item, P: Push<R>, K> PushParts<P, K> for OwnRow<R, K> {
    fn push_parts(&self, parts: &mut P) -> Result<(), GrowError> {
        parts.push(self.parts)
    }
}

/// Takes values of type `K`, references to them, and rows that were read from such a column.
impl<T: PushParts<P, K> + Drop, P: Column, K> Push<T> for OwnRows<P, K> {
    fn push(&mut self, item: T) -> Result<(), GrowError> {
        self.push_ref(&item)
    }
}

impl<T: PushParts<P, K>, P: Column, K> PushRef<T> for OwnRows<P, K> {
    fn push_ref(&mut self, item: &T) -> Result<(), GrowError> {
        item.push_parts(&mut self.parts)
    }
}
