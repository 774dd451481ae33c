//! Values of the language as rows that name no lifetime.
use crate::container::ReborrowRef;
use columnar_base::element::ArrayItem;
use columnar_base::traits::Item;
use std::num::Wrapping;
use std::time::Duration;

impl<'b> ReborrowRef<'b> for () {
    type ShortRef = ();

    fn reborrow_ref(self) {
        self
    }
}

impl<'b> ReborrowRef<'b> for u8 {
    type ShortRef = u8;

    fn reborrow_ref(self) -> u8 {
        self
    }
}

impl<'b> ReborrowRef<'b> for u16 {
    type ShortRef = u16;

    fn reborrow_ref(self) -> u16 {
        self
    }
}

impl<'b> ReborrowRef<'b> for u32 {
    type ShortRef = u32;

    fn reborrow_ref(self) -> u32 {
        self
    }
}

impl<'b> ReborrowRef<'b> for u64 {
    type ShortRef = u64;

    fn reborrow_ref(self) -> u64 {
        self
    }
}

impl<'b> ReborrowRef<'b> for i8 {
    type ShortRef = i8;

    fn reborrow_ref(self) -> i8 {
        self
    }
}

impl<'b> ReborrowRef<'b> for i16 {
    type ShortRef = i16;

    fn reborrow_ref(self) -> i16 {
        self
    }
}

impl<'b> ReborrowRef<'b> for i32 {
    type ShortRef = i32;

    fn reborrow_ref(self) -> i32 {
        self
    }
}

impl<'b> ReborrowRef<'b> for i64 {
    type ShortRef = i64;

    fn reborrow_ref(self) -> i64 {
        self
    }
}

impl<'b, T: Item> ReborrowRef<'b> for Wrapping<T> {
    type ShortRef = Wrapping<T>;

    fn reborrow_ref(self) -> Wrapping<T> {
        self
    }
}

impl<'b, T: ArrayItem, const N: usize> ReborrowRef<'b> for [T; N] {
    type ShortRef = [T; N];

    fn reborrow_ref(self) -> [T; N] {
        self
    }
}

impl<'b> ReborrowRef<'b> for usize {
    type ShortRef = usize;

    fn reborrow_ref(self) -> usize {
        self
    }
}

impl<'b> ReborrowRef<'b> for isize {
    type ShortRef = isize;

    fn reborrow_ref(self) -> isize {
        self
    }
}

impl<'b> ReborrowRef<'b> for u128 {
    type ShortRef = u128;

    fn reborrow_ref(self) -> u128 {
        self
    }
}

impl<'b> ReborrowRef<'b> for i128 {
    type ShortRef = i128;

    fn reborrow_ref(self) -> i128 {
        self
    }
}

impl<'b> ReborrowRef<'b> for f32 {
    type ShortRef = f32;

    fn reborrow_ref(self) -> f32 {
        self
    }
}

impl<'b> ReborrowRef<'b> for f64 {
    type ShortRef = f64;

    fn reborrow_ref(self) -> f64 {
        self
    }
}

impl<'b> ReborrowRef<'b> for char {
    type ShortRef = char;

    fn reborrow_ref(self) -> char {
        self
    }
}

impl<'b> ReborrowRef<'b> for bool {
    type ShortRef = bool;

    fn reborrow_ref(self) -> bool {
        self
    }
}

impl<'b, T: ReborrowRef<'b>> ReborrowRef<'b> for Option<T> {
    type ShortRef = Option<T::ShortRef>;

    fn reborrow_ref(self) -> Option<T::ShortRef> {
        match self {
            Some(row) => Some(row.reborrow_ref()),
            None => None,
        }
    }
}

impl<'b, S: ReborrowRef<'b>, T: ReborrowRef<'b>> ReborrowRef<'b> for Result<S, T> {
    type ShortRef = Result<S::ShortRef, T::ShortRef>;

    fn reborrow_ref(self) -> Result<S::ShortRef, T::ShortRef> {
        match self {
            Ok(row) => Ok(row.reborrow_ref()),
            Err(row) => Err(row.reborrow_ref()),
        }
    }
}

impl<'b> ReborrowRef<'b> for Duration {
    type ShortRef = Duration;

    fn reborrow_ref(self) -> Duration {
        self
    }
}
