//! Items that are always valid, so that each can be pushed.
ghost use Rattle.bench.specs.ValidLaws.{option_always, result_always, nth_always};

use columnar_base::traits::Item;
use columnar_variants::cases::{Cases, Last, Nth};

/// An item that holds no view, so that each value of it is valid.
pub trait Plain: Item {
    ghost always_valid: { (x : Self) → Self.valid x };
}

impl Plain for bool {
    ghost always_valid = { λ x. tt };
}

impl Plain for u32 {
    ghost always_valid = { λ x. tt };
}

impl Plain for u64 {
    ghost always_valid = { λ x. tt };
}

impl<'x> Plain for &'x str {
    ghost always_valid = { λ x. tt };
}

impl Plain for String {
    ghost always_valid = { λ x. tt };
}

impl<T: Plain> Plain for Option<T> {
    ghost always_valid = { option_always T.valid T.always_valid };
}

impl<T: Plain, E: Plain> Plain for Result<T, E> {
    ghost always_valid = { result_always T.valid E.valid T.always_valid E.always_valid };
}

impl<A: Plain, B: Plain + Cases> Plain for Nth<A, B> {
    ghost always_valid = { nth_always A.valid B.valid A.always_valid B.always_valid };
}

impl<C: Plain> Plain for Last<C> {
    ghost always_valid = { λ x. C.always_valid x.0 };
}

impl<P: Plain, Q: Plain> Plain for (P, Q) {
    ghost always_valid = { λ x. (P.always_valid x.0, Q.always_valid x.1) };
}

impl<P: Plain, Q: Plain, R: Plain> Plain for (P, Q, R) {
    ghost always_valid = { λ x. (P.always_valid x.0, (Q.always_valid x.1, R.always_valid x.2)) };
}
