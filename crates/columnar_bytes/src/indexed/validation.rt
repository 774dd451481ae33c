//! Validating that a store holds a column of a type.
ghost use Rattle.std.specs.Prelude.{◌≡◌, ◌+◌, ◌*◌, ◌/◌, ◌≤◌, ◌↔◌, length, IsTrue, IsOk, IfErr, OnOk};
ghost use Rattle.columnar_core.specs.Format.{bytes_of_all, representable};
ghost use Rattle.columnar_core.specs.Frame.{IsLegal, framed_slices, slice_count};
ghost use Rattle.columnar_bytes.specs.Accepted.{Accepts, Accepted, IsFirstFault};

use super::structure::validate_structure_tallied;
use columnar_core::bytes::Stored;
use columnar_core::fault::StoreFault;
use columnar_core::store::DecodedStore;
use columnar_core::tally::{Plain, Tally};

/// Accepts the bytes if and only if they frame a well-formed column of type `T`, a view or a container; allocates
/// nothing.
///
/// # Requires
/// A representable type.
///
/// # Errors
/// The first broken rule and its slice: those of the structure, of the parts in slice order, then the column's own.
pub fn validate<T: Stored>(bytes: &[u8]) -> Result<(), StoreFault>
    requires { IsTrue (representable T.format) }
    ensures exact { IsOk result ↔ Accepts T.format bytes.now }
    ensures fault { IfErr result (IsFirstFault T.format bytes.now) }
    ensures accepted { OnOk result (Accepted T.format bytes.now) }
{
    validate_tallied::<T, Plain>(bytes, &mut Tally::new())
}

/// Does what `validate` does, and counts its steps in the tally. Accepted or refused, it takes at most 16 steps for
/// each byte of the slices, and one for each slice of the table or of the type, whichever has fewer. If the structure
/// is refused, the bytes of the slices add none.
///
/// # Requires
/// A representable type.
///
/// # Errors
/// As `validate`.
pub fn validate_tallied<T: Stored, L>(bytes: &[u8], tally: &mut Tally<L>) -> Result<(), StoreFault>
    requires { IsTrue (representable T.format) }
    ensures exact { IsOk result ↔ Accepts T.format bytes.now }
    ensures fault { IfErr result (IsFirstFault T.format bytes.now) }
    ensures accepted { OnOk result (Accepted T.format bytes.now) }
    ensures turns { tally.new.turns ≤ tally.old.turns + (length bytes.now / 8 + 16 * bytes_of_all (framed_slices bytes.now)) }
    ensures table { tally.new.turns ≤ tally.old.turns + (slice_count bytes.now + 16 * bytes_of_all (framed_slices bytes.now)) }
    ensures expected { tally.new.turns ≤ tally.old.turns + (T.format.count + 16 * bytes_of_all (framed_slices bytes.now)) }
    ensures refused_table { ¬ IsLegal bytes.now T.format.count → tally.new.turns ≤ tally.old.turns + slice_count bytes.now }
    ensures refused { ¬ IsLegal bytes.now T.format.count → tally.new.turns ≤ tally.old.turns + T.format.count }
{
    validate_structure_tallied(bytes, T::slice_count(), tally)?;
    let mut offset = 0;
    T::validate_tallied(&DecodedStore::new(bytes), &mut offset, tally)
}
