//! Elements whose columns are borrowed as views.

use columnar_base::element::{Element, Primitive};
use std::num::Wrapping;

/// An element whose `Vec` is borrowed as a `View`: every element except `u8`, whose bytes are borrowed as a slice.
pub trait Viewed: Element {}

impl<T: Primitive> Viewed for Wrapping<T> {}

impl<T: Primitive, const N: usize> Viewed for [T; N] {}

impl Viewed for u16 {}

impl Viewed for u32 {}

impl Viewed for u64 {}

impl Viewed for i8 {}

impl Viewed for i16 {}

impl Viewed for i32 {}

impl Viewed for i64 {}
