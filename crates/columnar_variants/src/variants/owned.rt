//! Views of a column of any number of variants, and copies of ranges of their rows.
ghost use Rattle.std.specs.Prelude.{◌≡◌};
ghost use Rattle.columnar_variants.specs.BankLaws.{same_variants};

use super::Variants;
use crate::bank::copy::ExtendBank;
use crate::bank::few::FewColumns;
use crate::bank::grow::{ClearBank, CutBank, ReserveBank, StorageBank};
use crate::bank::owned::{BorrowBank, ReborrowBank};
use crate::bank::push::PushCase;
use crate::bank::{ColumnBank, LenBank};
use crate::cases::{Cases, Last, Nth};
use crate::copy::extend_variants;
use crate::fronts::fronts;
use columnar_core::container::{
    Borrow, Container, ExtendFrom, Reborrow, ReborrowRef, Reserve, Storage, Truncate,
};
use columnar_core::fault::GrowError;
use columnar_core::traits::Len;
use columnar_core::view::View;
use std::ops::Range;

/// The values of the range's rows are copied for each variant, then the variants; all or none.
impl<'x, V: LenBank + Copy, B: ExtendBank<V> + CutBank + LenBank> ExtendFrom<
    Variants<V, &'x [u8], View<'x, u64>>,
> for Variants<B, Vec<u8>, Vec<u64>> {
    fn add_room(
        room: (B::Room, (usize, usize)),
        view: Variants<V, &'x [u8], View<'x, u64>>,
    ) -> (B::Room, (usize, usize)) {
        (
            B::add_room_of(room.0, view.columns),
            (
                room.1.0.saturating_add(view.indexes.variant.len()),
                room.1.1.saturating_add(view.indexes.offset.len()),
            ),
        )
    }

    fn extend_from_self(
        &mut self,
        view: Variants<V, &'x [u8], View<'x, u64>>,
        range: Range<usize>,
    ) -> Result<(), GrowError> {
        let before = fronts(&self.columns, &self.indexes, self.indexes.len());
        let firsts = fronts(&view.columns, &view.indexes, range.start);
        let lasts = fronts(&view.columns, &view.indexes, range.end);
        self.columns.extend_columns(view.columns, &firsts, &lasts)?;
        match extend_variants(
            &mut self.indexes,
            &view.indexes,
            range.start,
            range.end,
            &before,
            &firsts,
        ) {
            Ok(()) => Ok(()),
            Err(error) => {
                self.columns.cut_columns(&before);
                Err(error)
            }
        }
    }
}

impl<'a, B: BorrowBank<'a>> Borrow<'a> for Variants<B, Vec<u8>, Vec<u64>> {
    type Ref = B::Ref;

    type Borrowed = Variants<B::Borrowed, &'a [u8], View<'a, u64>>;

    type Parts = B::Parts;

    ghost same_format = { same_variants B.same_bank };

    fn borrow(&'a self) -> Variants<B::Borrowed, &'a [u8], View<'a, u64>> {
        let columns = self.columns.borrow_columns();
        let indexes = self.indexes.borrow();
        Variants { columns, indexes }
    }
}

impl<
    'a,
    B: BorrowBank<'a>
        + Clone
        + StorageBank
        + CutBank
        + LenBank
        + ClearBank
        + Drop
        + FewColumns
        + PushCase<<B as BorrowBank<'a>>::Ref>
        + ExtendBank<<B as BorrowBank<'a>>::Borrowed>,
> Container<'a> for Variants<B, Vec<u8>, Vec<u64>> {}

impl<'a, 'b, V: ReborrowBank<'b>> Reborrow<'b> for Variants<V, &'a [u8], View<'a, u64>>
where
    'a: 'b,
{
    type Short = Variants<V::Short, &'b [u8], View<'b, u64>>;

    ghost same_short = { same_variants V.same_short };

    fn reborrow(self) -> Variants<V::Short, &'b [u8], View<'b, u64>> {
        let Variants { columns, indexes } = self;
        Variants {
            columns: columns.reborrow_columns(),
            indexes: indexes.reborrow(),
        }
    }
}

/// Rows of a sum type that can be given a shorter lifetime.
pub trait ReborrowCases<'b>: Cases {
    /// The row with that lifetime.
    type ShortCases: Cases;

    /// Returns the same row.
    ///
    /// # Requires
    /// The row is valid.
    fn reborrow_cases(self) -> Self::ShortCases
        requires { Self.valid self }
        ensures variant { Self.ShortCases.variant result ≡ Self.variant self }
        ensures value { Self.ShortCases.value result ≡ Self.value self }
        ensures valid { Self.ShortCases.valid result };
}

impl<'b, C: ReborrowRef<'b>> ReborrowCases<'b> for Last<C> {
    type ShortCases = Last<C::ShortRef>;

    fn reborrow_cases(self) -> Last<C::ShortRef> {
        Last(self.0.reborrow_ref())
    }
}

impl<'b, A: ReborrowRef<'b>, B: ReborrowCases<'b>> ReborrowCases<'b> for Nth<A, B> {
    type ShortCases = Nth<A::ShortRef, B::ShortCases>;

    fn reborrow_cases(self) -> Nth<A::ShortRef, B::ShortCases> {
        match self {
            Nth::This(value) => Nth::This(value.reborrow_ref()),
            Nth::Next(other) => Nth::Next(other.reborrow_cases()),
        }
    }
}

impl<'b, C: ReborrowRef<'b>> ReborrowRef<'b> for Last<C> {
    type ShortRef = Last<C::ShortRef>;

    fn reborrow_ref(self) -> Last<C::ShortRef> {
        Last(self.0.reborrow_ref())
    }
}

impl<'b, A: ReborrowRef<'b>, B: ReborrowCases<'b>> ReborrowRef<'b> for Nth<A, B> {
    type ShortRef = Nth<A::ShortRef, B::ShortCases>;

    fn reborrow_ref(self) -> Nth<A::ShortRef, B::ShortCases> {
        self.reborrow_cases()
    }
}
