//! Items with one of several variants.
ghost use Rattle.std.specs.Prelude.{◌≡◌, ℕ, refl};
ghost use Rattle.columnar_core.specs.Row.{Row};
ghost use Rattle.columnar_variants.specs.Variants.{case};
ghost use Rattle.columnar_variants.specs.Nths.{nth_meaning, nth_variant, nth_value, nth_valid};
ghost use Rattle.columnar_variants.specs.NthCaseLaws.{nth_meant};

mod ordered;

use columnar_core::traits::Item;

/// An item of a sum type, as a row of `Variants`: a variant, and a value.
pub trait Cases: Item {
    // its variant, and the row of its value
    ghost variant: { Self → ℕ };

    ghost value: { Self → Row };

    // it represents the value of that variant
    ghost meant: { (x : Self) → Self.meaning x ≡ case (variant x) (value x) };
}

/// The first variant, or one of the variants after it: `Nth<A, Nth<B, Last<C>>>` has three variants.
#[derive(Clone, Copy, Debug, PartialEq, Eq, Drop)]
pub enum Nth<A, B> {
    This(A),
    Next(B),
}

/// The last variant.
#[derive(Clone, Copy, Debug, PartialEq, Eq, Drop)]
pub struct Last<C>(pub C);

/// As a row, it is its value with variant 0.
impl<C: Item> Item for Last<C> {
    ghost meaning = { λ x. case 0 (C.meaning x.0) };

    ghost valid = { λ x. C.valid x.0 };

    ghost unbuffered = { C.unbuffered };
}

impl<C: Item> Cases for Last<C> {
    ghost variant = { λ x. 0 };

    ghost value = { λ x. C.meaning x.0 };

    ghost meant = { λ x. refl };
}

/// As a row, it is its value with its variant; the variant of `B` is one more than in `B` alone.
impl<A: Item, B: Item> Item for Nth<A, B> {
    ghost meaning = { nth_meaning A.meaning B.meaning };

    ghost valid = { nth_valid A.valid B.valid };

    ghost unbuffered = { A.unbuffered × B.unbuffered };
}

impl<A: Item, B: Cases> Cases for Nth<A, B> {
    ghost variant = { nth_variant B.variant };

    ghost value = { nth_value A.meaning B.value };

    ghost meant = { nth_meant A.meaning B.meaning B.variant B.value B.meant };
}

impl<'x, T: Cases> Cases for &'x T {
    ghost variant = { λ x. T.variant x.now };

    ghost value = { λ x. T.value x.now };

    ghost meant = { λ x. T.meant x.now };
}
