//! Views of the columns of a sum type.
ghost use Rattle.std.specs.Prelude.{◌≡◌};
ghost use Rattle.columnar_core.specs.Format.{IsSound};
ghost use Rattle.columnar_variants.specs.BankLaws.{same_leaf, same_join};

use super::{ColumnBank, IndexBank, LenBank};
use crate::cases::{Cases, Last, Nth};
use columnar_core::container::{Borrow, Named, Reborrow, ReborrowRef};
use columnar_core::traits::Item;

/// Columns that can be borrowed as views.
pub trait BorrowBank<'a>: ColumnBank {
    /// A value that is read from a view.
    type Ref: Copy + Cases;

    /// The views.
    type Borrowed: Copy + LenBank + IndexBank<Ref = Self::Ref>;

    /// Names the types that the views of the columns bring and that `Ref` and `Borrowed` leave out.
    type Parts: Item;

    /// Borrows all columns as views.
    fn borrow_columns(&'a self) -> Self::Borrowed
        ensures contents { Self.Borrowed.contents result ≡ Self.contents self.now };

    ghost same_bank: { Self.Borrowed.bank ≡ Self.bank };
}

impl<'a, A: Borrow<'a>> BorrowBank<'a> for (A,) {
    type Ref = Last<A::Ref>;

    type Borrowed = (A::Borrowed,);

    type Parts = A::Parts;

    ghost same_bank = { same_leaf A.same_format };

    fn borrow_columns(&'a self) -> (A::Borrowed,) {
        (self.0.borrow(),)
    }
}

impl<'a, A: Borrow<'a>, B: BorrowBank<'a>> BorrowBank<'a> for (A, B) {
    type Ref = Nth<A::Ref, B::Ref>;

    type Borrowed = (A::Borrowed, B::Borrowed);

    type Parts = Named<A::Parts, B::Parts>;

    ghost same_bank = { same_join A.same_format B.same_bank };

    fn borrow_columns(&'a self) -> (A::Borrowed, B::Borrowed) {
        let first = self.0.borrow();
        let others = self.1.borrow_columns();
        (first, others)
    }
}

/// Views that can be given a shorter lifetime.
pub trait ReborrowBank<'b>: ColumnBank {
    /// The views with that lifetime.
    type Short: ColumnBank;

    /// Returns the same views.
    fn reborrow_columns(self) -> Self::Short
        ensures { Self.Short.contents result ≡ Self.contents self };

    ghost same_short: { Self.Short.bank ≡ Self.bank };
}

impl<'b, A: Reborrow<'b>> ReborrowBank<'b> for (A,) {
    type Short = (A::Short,);

    ghost same_short = { same_leaf A.same_short };

    fn reborrow_columns(self) -> (A::Short,) {
        let (first,) = self;
        (first.reborrow(),)
    }
}

impl<'b, A: Reborrow<'b>, B: ReborrowBank<'b>> ReborrowBank<'b> for (A, B) {
    type Short = (A::Short, B::Short);

    ghost same_short = { same_join A.same_short B.same_short };

    fn reborrow_columns(self) -> (A::Short, B::Short) {
        let (first, others) = self;
        (first.reborrow(), others.reborrow_columns())
    }
}
