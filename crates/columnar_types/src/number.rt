//! Numbers and other values that need no allocation: a value is its row.
ghost use Rattle.columnar_types.specs.Owned.{always_fit};

use crate::types::{Columnar, FromRow};
use columnar_base::element::Primitive;
use columnar_base::fault::OwnError;
use columnar_bits::bools::Bools;
use columnar_primitive::chars::Chars;
use columnar_primitive::durations::Durations;
use columnar_primitive::empties::Empties;
use columnar_primitive::floats::{Doubles, Singles};
use columnar_primitive::larges::{I128s, U128s};
use columnar_primitive::numbers::{Isizes, Usizes};
use std::alloc::Global;
use std::num::Wrapping;
use std::time::Duration;

/// A row of bytes is read by reference.
impl Columnar for u8 {
    ghost unfit = { always_fit };

    type Container = Vec<u8>;
}

impl<'a> FromRow<&'a u8> for u8 {
    fn from_row(_alloc: Global, row: &'a u8) -> Result<u8, OwnError> {
        Ok(*row)
    }
}

impl Columnar for u16 {
    ghost unfit = { always_fit };

    type Container = Vec<u16>;
}

impl FromRow<u16> for u16 {
    fn from_row(_alloc: Global, row: u16) -> Result<u16, OwnError> {
        Ok(row)
    }
}

impl Columnar for u32 {
    ghost unfit = { always_fit };

    type Container = Vec<u32>;
}

impl FromRow<u32> for u32 {
    fn from_row(_alloc: Global, row: u32) -> Result<u32, OwnError> {
        Ok(row)
    }
}

impl Columnar for u64 {
    ghost unfit = { always_fit };

    type Container = Vec<u64>;
}

impl FromRow<u64> for u64 {
    fn from_row(_alloc: Global, row: u64) -> Result<u64, OwnError> {
        Ok(row)
    }
}

impl Columnar for i8 {
    ghost unfit = { always_fit };

    type Container = Vec<i8>;
}

impl FromRow<i8> for i8 {
    fn from_row(_alloc: Global, row: i8) -> Result<i8, OwnError> {
        Ok(row)
    }
}

impl Columnar for i16 {
    ghost unfit = { always_fit };

    type Container = Vec<i16>;
}

impl FromRow<i16> for i16 {
    fn from_row(_alloc: Global, row: i16) -> Result<i16, OwnError> {
        Ok(row)
    }
}

impl Columnar for i32 {
    ghost unfit = { always_fit };

    type Container = Vec<i32>;
}

impl FromRow<i32> for i32 {
    fn from_row(_alloc: Global, row: i32) -> Result<i32, OwnError> {
        Ok(row)
    }
}

impl Columnar for i64 {
    ghost unfit = { always_fit };

    type Container = Vec<i64>;
}

impl FromRow<i64> for i64 {
    fn from_row(_alloc: Global, row: i64) -> Result<i64, OwnError> {
        Ok(row)
    }
}

impl Columnar for usize {
    ghost unfit = { always_fit };

    type Container = Usizes;
}

impl FromRow<usize> for usize {
    fn from_row(_alloc: Global, row: usize) -> Result<usize, OwnError> {
        Ok(row)
    }
}

impl Columnar for isize {
    ghost unfit = { always_fit };

    type Container = Isizes;
}

impl FromRow<isize> for isize {
    fn from_row(_alloc: Global, row: isize) -> Result<isize, OwnError> {
        Ok(row)
    }
}

impl Columnar for u128 {
    ghost unfit = { always_fit };

    type Container = U128s;
}

impl FromRow<u128> for u128 {
    fn from_row(_alloc: Global, row: u128) -> Result<u128, OwnError> {
        Ok(row)
    }
}

impl Columnar for i128 {
    ghost unfit = { always_fit };

    type Container = I128s;
}

impl FromRow<i128> for i128 {
    fn from_row(_alloc: Global, row: i128) -> Result<i128, OwnError> {
        Ok(row)
    }
}

impl Columnar for f32 {
    ghost unfit = { always_fit };

    type Container = Singles;
}

impl FromRow<f32> for f32 {
    fn from_row(_alloc: Global, row: f32) -> Result<f32, OwnError> {
        Ok(row)
    }
}

impl Columnar for f64 {
    ghost unfit = { always_fit };

    type Container = Doubles;
}

impl FromRow<f64> for f64 {
    fn from_row(_alloc: Global, row: f64) -> Result<f64, OwnError> {
        Ok(row)
    }
}

impl Columnar for char {
    ghost unfit = { always_fit };

    type Container = Chars;
}

impl FromRow<char> for char {
    fn from_row(_alloc: Global, row: char) -> Result<char, OwnError> {
        Ok(row)
    }
}

impl Columnar for () {
    ghost unfit = { always_fit };

    type Container = Empties<u64>;
}

impl FromRow<()> for () {
    fn from_row(_alloc: Global, row: ()) -> Result<(), OwnError> {
        Ok(row)
    }
}

impl Columnar for bool {
    ghost unfit = { always_fit };

    type Container = Bools<Vec<u64>, [u64; 2]>;
}

impl FromRow<bool> for bool {
    fn from_row(_alloc: Global, row: bool) -> Result<bool, OwnError> {
        Ok(row)
    }
}

impl Columnar for Duration {
    ghost unfit = { always_fit };

    type Container = Durations<Vec<u64>, Vec<u32>>;
}

impl FromRow<Duration> for Duration {
    fn from_row(_alloc: Global, row: Duration) -> Result<Duration, OwnError> {
        Ok(row)
    }
}

impl<T: Primitive> Columnar for Wrapping<T> {
    ghost unfit = { always_fit };

    type Container = Vec<Wrapping<T>>;
}

impl<T: Primitive> FromRow<Wrapping<T>> for Wrapping<T> {
    fn from_row(_alloc: Global, row: Wrapping<T>) -> Result<Wrapping<T>, OwnError> {
        Ok(row)
    }
}
