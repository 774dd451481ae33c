//! Rules that every row of a column satisfies.
ghost use Rattle.std.specs.Prelude.{◌≡◌, ℕ, ◌+◌, ◌≤◌, Bool, length, IsTrue, drop};
ghost use Rattle.columnar_base.specs.Row.{Row};
ghost use Rattle.columnar_base.specs.Format.{Fits, IsSound, representable};
ghost use Rattle.columnar_core.specs.Store.{slices_in};
ghost use Rattle.columnar_primitive.specs.Mapped.{all_pass};

use crate::flat::Flat;
use columnar_core::store::DecodedStore;
use columnar_core::tally::Tally;
use columnar_core::traits::{Index, Item, Len};

/// Says which numbers of a fixed width are codes.
pub trait Rule {
    /// The type of the numbers.
    type Code: Copy + Item;

    // whether the row of a number is the row of a code
    ghost is_code: { Row → Bool };

    /// Returns whether the number is a code.
    fn fits(code: Self::Code) -> bool
        ensures { result ≡ is_code (Self.Code.meaning code) };
}

/// Returns whether every row of accepted slices is a code. Takes a step for each row.
///
/// # Requires
/// A representable type, and accepted slices from `offset` on.
pub(crate) fn all_fit_in<T: Rule, CV: Flat<Ref = T::Code>, L>(
    store: &DecodedStore<'_>,
    offset: usize,
    tally: &mut Tally<L>,
) -> bool
    requires representable { IsTrue (representable CV.format) }
    requires fits { Fits CV.format offset (slices_in store.now) }
    ensures value { result ≡ all_pass T.is_code (CV.format.rows (CV.format.build (drop offset (slices_in store.now)))) }
    ensures turns { tally.new.turns ≤ tally.old.turns + length (CV.format.rows (CV.format.build (drop offset (slices_in store.now)))) }
{
    let rows = CV::rows_in(store, offset);
    for i in 0..rows {
        tally.tick();
        if !T::fits(CV::row_in(store, offset, i)) {
            return false;
        }
    }
    true
}

/// Returns whether every row of the column is a code. Takes a step for each row.
///
/// # Requires
/// A well-formed column.
pub(crate) fn all_fit<T: Rule, CV: Index<Ref = T::Code> + Len, L>(
    values: &CV,
    tally: &mut Tally<L>,
) -> bool
    requires { IsSound CV.format (CV.content values.now) }
    ensures value { result ≡ all_pass T.is_code (CV.format.rows (CV.content values.now)) }
    ensures turns { tally.new.turns ≤ tally.old.turns + length (CV.format.rows (CV.content values.now)) }
{
    let rows = values.len();
    for i in 0..rows {
        tally.tick();
        if !T::fits(values.get(i)) {
            return false;
        }
    }
    true
}
