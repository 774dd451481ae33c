//! Columns that can be built from an earlier form of themselves.
ghost use Rattle.std.specs.Prelude.{◌≡◌, IfOk, IfErr};
ghost use Rattle.columnar_base.specs.Format.{IsSound};
ghost use Rattle.columnar_core.specs.Earlier.{IsEarlier, IsMadeOf, IsTrueOfNew};
ghost use Rattle.columnar_core.specs.EarlierLaws.{earlier_same, earlier_solo, earlier_pair};

use crate::boxed::Boxed;
use crate::byte_slice::sliced::Sliced;
use crate::container::ContainerBytes;
use columnar_base::fault::GrowError;
use columnar_base::traits::Column;
use std::alloc::Global;

mod tuples;

/// A column that can be built from an earlier form, in which stores may still exist. The earlier form has fewer slices,
/// or the same format.
pub trait Earlier: Column + Sized {
    /// The earlier form; the type itself if there is none.
    type Old: ContainerBytes + Drop;

    /// Builds a column with the same rows in the same order.
    ///
    /// # Requires
    /// A well-formed column of the earlier form.
    ///
    /// # Errors
    /// `Memory`; `Length` or `Offset` only if an empty column cannot hold these rows.
    fn from_old(alloc: Global, old: Self::Old) -> Result<Self, GrowError>
        requires { IsSound Self.Old.format (Self.Old.content old) }
        ensures ok { IfOk result (λ c. IsMadeOf Self.Old.format Self.format (Self.Old.content old) (Self.content c)) }
        ensures err { IfErr result (λ e. IsTrueOfNew e Self.format (Self.Old.format.rows (Self.Old.content old))) };

    ghost earlier: { IsEarlier Self.Old.format Self.format };
}

/// A column that is its own earlier form: its stores have always had today's type.
pub trait Kept: ContainerBytes + Drop {}

impl<C: Kept> Earlier for C {
    type Old = C;

    ghost earlier = { earlier_same C.format };

    fn from_old(_alloc: Global, old: C) -> Result<C, GrowError> {
        Ok(old)
    }
}

impl<T: Sliced> Kept for Vec<T> {}

/// The earlier form is that of the boxed column.
impl<C: Earlier> Earlier for Boxed<C> {
    type Old = Boxed<C::Old>;

    ghost earlier = { C.earlier };

    fn from_old(alloc: Global, old: Boxed<C::Old>) -> Result<Self, GrowError> {
        let inner = C::from_old(alloc, old.0)?;
        Ok(Boxed(inner))
    }
}

/// The earlier form is that of the part.
impl<A: Earlier> Earlier for (A,) {
    type Old = (A::Old,);

    ghost earlier = { earlier_solo A.Old.format A.format A.earlier };

    fn from_old(alloc: Global, old: (A::Old,)) -> Result<Self, GrowError> {
        let first = A::from_old(alloc, old.0)?;
        Ok((first,))
    }
}

/// The earlier form is the pair of the parts' earlier forms.
impl<A: Earlier + Drop, B: Earlier> Earlier for (A, B) {
    type Old = (A::Old, B::Old);

    ghost earlier = { earlier_pair A.Old.format A.format B.Old.format B.format A.earlier B.earlier };

    fn from_old(alloc: Global, old: (A::Old, B::Old)) -> Result<Self, GrowError> {
        let left = A::from_old(alloc, old.0)?;
        let right = B::from_old(alloc, old.1)?;
        Ok((left, right))
    }
}
