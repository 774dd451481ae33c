//! Values whose arrays are pushed as lists.
use columnar_base::element::{ArrayItem, Element, Primitive};
use std::num::Wrapping;

/// A value whose reads require nothing. An array of such values is pushed as one list.
pub trait AlwaysValid: ArrayItem {
    ghost always_valid: { (x : Self) → Self.valid x };
}

impl AlwaysValid for u8 {
    ghost always_valid = { λ x. tt };
}

impl AlwaysValid for u16 {
    ghost always_valid = { λ x. tt };
}

impl AlwaysValid for u32 {
    ghost always_valid = { λ x. tt };
}

impl AlwaysValid for u64 {
    ghost always_valid = { λ x. tt };
}

impl AlwaysValid for i8 {
    ghost always_valid = { λ x. tt };
}

impl AlwaysValid for i16 {
    ghost always_valid = { λ x. tt };
}

impl AlwaysValid for i32 {
    ghost always_valid = { λ x. tt };
}

impl AlwaysValid for i64 {
    ghost always_valid = { λ x. tt };
}

impl AlwaysValid for f32 {
    ghost always_valid = { λ x. tt };
}

impl AlwaysValid for f64 {
    ghost always_valid = { λ x. tt };
}

impl<T: Primitive> AlwaysValid for Wrapping<T> {
    ghost always_valid = { λ x. T.always_valid x.0 };
}

impl<T: Element, const N: usize> AlwaysValid for [T; N] {
    ghost always_valid = { λ x. tt };
}
