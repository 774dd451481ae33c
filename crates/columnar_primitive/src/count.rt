//! A number of rows, alone in a slice.
ghost use Rattle.std.specs.Prelude.{◌≡◌, ℕ, length, IsTrue, refl};
ghost use Rattle.std.specs.Int.{to_le_bytes, w64};
ghost use Rattle.columnar_base.specs.Format.{Content, slice, slices_of};
ghost use Rattle.columnar_base.specs.ViewLaws.{items_counted};
ghost use Rattle.columnar_primitive.specs.Counts.{is_word, number_in};

use columnar_core::traits::{Index, Len};
use columnar_core::view::{Items, View};

/// A number alone in a slice: a `u64`, or a view of one element.
pub trait Count {
    // its slice
    ghost held: { Self → Content };

    /// Returns the number.
    ///
    /// # Requires
    /// A slice of exactly one word.
    fn count(&self) -> u64
        requires { IsTrue (is_word (held self.now)) }
        ensures { result ≡ number_in (held self.now) };

    /// Returns whether the slice has exactly one word.
    fn is_one(&self) -> bool
        ensures { result ≡ is_word (held self.now) };

    ghost one_slice: { (c : Self) → length (slices_of (held c)) ≡ 1 };
}

impl Count for u64 {
    ghost held = { λ n. slice (to_le_bytes w64 n) };

    ghost one_slice = { λ n. refl };

    fn count(&self) -> u64 {
        *self
    }

    fn is_one(&self) -> bool {
        true
    }
}

impl<'v> Count for View<'v, u64> {
    ghost held = { λ v. ⟦<View<'v, u64> as columnar_core::traits::Column>⟧.content v };

    ghost one_slice = { λ v. items_counted (to_le_bytes w64) v.items };

    fn count(&self) -> u64 {
        self.get(0)
    }

    fn is_one(&self) -> bool {
        match self.items() {
            Items::Typed(items) => items.len() == 1,
            Items::Bytes(bytes) => bytes.len() == 8,
        }
    }
}
