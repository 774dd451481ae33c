//! Rows of which values of a type can be made: `FromRow` from the row's side, as a bound that does not bring `Columnar`.
ghost use Rattle.std.specs.Prelude.{◌≡◌, OnOk, IfOk, IfErr};
ghost use Rattle.columnar_types.specs.Owned.{IsFit, IsWhy};

use crate::types::{Columnar, FromRow};
use columnar_base::fault::OwnError;
use columnar_base::traits::Item;
use std::alloc::Global;

/// A row of which a value of type `T` can be made.
pub trait IntoValue<T: Columnar>: Item {
    /// Returns the value that the row represents.
    ///
    /// # Errors
    /// As `FromRow::from_row`.
    ///
    /// # Requires
    /// A valid row.
    fn into_value(self, alloc: Global) -> Result<T, OwnError>
        requires { Self.valid self }
        ensures value { IfOk result (λ v. T.Item.meaning v ≡ Self.meaning self) }
        ensures valid { IfOk result T.Item.valid }
        ensures fit { OnOk result (IsFit T.unfit (Self.meaning self)) }
        ensures why { IfErr result (λ e. IsWhy e T.unfit (Self.meaning self)) };
}

impl<R: Item, T: FromRow<R>> IntoValue<T> for R {
    fn into_value(self, alloc: Global) -> Result<T, OwnError> {
        T::from_row(alloc, self)
    }
}
