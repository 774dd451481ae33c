//! The number that a row adds to a sum of rows.
use columnar_variants::cases::{Last, Nth};

/// A row that is a number, or that consists of numbers.
pub trait Amount {
    fn amount(self) -> u64;
}

impl Amount for u64 {
    fn amount(self) -> u64 {
        self
    }
}

impl Amount for u32 {
    fn amount(self) -> u64 {
        self as u64
    }
}

impl Amount for bool {
    fn amount(self) -> u64 {
        self as u64
    }
}

/// A text counts its bytes.
impl<'a> Amount for &'a [u8] {
    fn amount(self) -> u64 {
        self.len() as u64
    }
}

impl<T: Amount + Copy> Amount for Option<T> {
    fn amount(self) -> u64 {
        match self {
            Some(value) => value.amount(),
            None => 0,
        }
    }
}

impl<T: Amount + Copy, E: Amount + Copy> Amount for Result<T, E> {
    fn amount(self) -> u64 {
        match self {
            Ok(value) => value.amount(),
            Err(error) => error.amount(),
        }
    }
}

impl<A: Amount + Copy, B: Amount + Copy> Amount for Nth<A, B> {
    fn amount(self) -> u64 {
        match self {
            Nth::This(value) => value.amount(),
            Nth::Next(other) => other.amount(),
        }
    }
}

impl<C: Amount> Amount for Last<C> {
    fn amount(self) -> u64 {
        self.0.amount()
    }
}

impl<P: Amount + Copy, Q: Amount + Copy> Amount for (P, Q) {
    fn amount(self) -> u64 {
        self.0.amount().wrapping_add(self.1.amount())
    }
}

impl<P: Amount + Copy, Q: Amount + Copy, R: Amount + Copy> Amount for (P, Q, R) {
    fn amount(self) -> u64 {
        (self.0, self.1).amount().wrapping_add(self.2.amount())
    }
}
