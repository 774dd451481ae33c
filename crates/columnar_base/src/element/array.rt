//! Arrays as rows; arrays of elements as elements, stored one element after the other.
ghost use Rattle.std.specs.Prelude.{ℕ, ◌≡◌, List, length, map, refl};
ghost use Rattle.columnar_base.specs.Arrays.{array_bytes, array_row, array_row_of, array_size};
ghost use Rattle.columnar_base.specs.ArrayLaws.{array_element, array_row_is};
ghost use Rattle.columnar_base.specs.Floats.{double_row, single_row};
ghost use Rattle.columnar_base.specs.Row.{Row, list};

use super::Element;
use crate::traits::Item;
use crate::view::element_in;

/// A value whose arrays are rows.
pub trait ArrayItem: Item {
    // the row of an array of that many items
    ghost array_row: { ℕ → List Self → Row };

    ghost is_list: { (n : ℕ) (xs : List Self) → length xs ≡ n → array_row n xs ≡ list (map Self.meaning xs) };
}

impl<T: Element> ArrayItem for T {
    ghost array_row = { λ n xs. array_row n T.size T.le_bytes T.row_of xs };

    ghost is_list = { λ n xs l. array_row_is n T.element xs l };
}

impl ArrayItem for f32 {
    ghost array_row = { λ n xs. list (map single_row xs) };

    ghost is_list = { λ n xs l. refl };
}

impl ArrayItem for f64 {
    ghost array_row = { λ n xs. list (map double_row xs) };

    ghost is_list = { λ n xs l. refl };
}

/// Its row is the list of its items' rows.
impl<T: ArrayItem, const N: usize> Item for [T; N] {
    ghost meaning = { T.array_row N };

    ghost valid = { λ x. Unit {0} };

    ghost unbuffered = { T.unbuffered };
}

impl<T: Element, const N: usize> Element for [T; N] {
    ghost size = { array_size T.size N };

    ghost align = { T.align };

    ghost le_bytes = { array_bytes N T.size T.le_bytes };

    ghost row_of = { array_row_of N T.size T.row_of };

    ghost element = { array_element N T.element };

    ghost always_valid = { λ x. tt };

    fn size() -> usize {
        if N == 0 {
            usize::MAX
        } else {
            T::size().saturating_mul(N)
        }
    }

    fn from_le_bytes(bytes: &[u8]) -> Self {
        let _length = bytes.len();
        let mut items = [element_in::<T>(bytes, 0); N];
        for i in 0..N {
            items[i] = element_in(bytes, i);
        }
        items
    }

    fn same(&self, other: &Self) -> bool {
        for i in 0..N {
            if !self[i].same(&other[i]) {
                return false;
            }
        }
        true
    }
}
