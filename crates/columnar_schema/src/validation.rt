//! Validation of a store against a type that is read at run time.
ghost use Rattle.std.specs.Prelude.{◌≡◌, ◌+◌, ◌*◌, ◌/◌, ◌^◌, ◌≤◌, ◌↔◌, length, IsOk, IfErr, OnOk};
ghost use Rattle.columnar_core.specs.Format.{bytes_of_all};
ghost use Rattle.columnar_core.specs.Frame.{framed_slices};
ghost use Rattle.columnar_bytes.specs.Accepted.{Accepts, Accepted, IsFirstFault};
ghost use Rattle.columnar_schema.specs.Formats.{format_of};

use crate::judge::{judge_of, slice_count_of};
use columnar_bytes::indexed::validate_structure_tallied;
use columnar_core::fault::StoreFault;
use columnar_core::store::DecodedStore;
use columnar_core::tally::{Plain, Tally};
use columnar_syntax::schema::Schema;

/// Tests whether the bytes frame a well-formed column of the type, as the type's own `validate` does. Allocates
/// nothing.
///
/// # Errors
/// The first broken rule, and its slice: the fault that `validate` returns.
///
/// # Requires
/// The type has at most 2^60 slices.
pub fn validate_schema(schema: &Schema, bytes: &[u8]) -> Result<(), StoreFault>
    requires { (format_of schema.now).count ≤ 2 ^ 60 }
    ensures exact { IsOk result ↔ Accepts (format_of schema.now) bytes.now }
    ensures fault { IfErr result (IsFirstFault (format_of schema.now) bytes.now) }
    ensures accepted { OnOk result (Accepted (format_of schema.now) bytes.now) }
{
    validate_schema_tallied::<Plain>(schema, bytes, &mut Tally::new())
}

/// Does the same as `validate_schema`, and adds its steps to the tally.
///
/// # Requires
/// The type has at most 2^60 slices.
pub fn validate_schema_tallied<L>(
    schema: &Schema,
    bytes: &[u8],
    tally: &mut Tally<L>,
) -> Result<(), StoreFault>
    requires { (format_of schema.now).count ≤ 2 ^ 60 }
    ensures exact { IsOk result ↔ Accepts (format_of schema.now) bytes.now }
    ensures fault { IfErr result (IsFirstFault (format_of schema.now) bytes.now) }
    ensures accepted { OnOk result (Accepted (format_of schema.now) bytes.now) }
    ensures turns { tally.new.turns ≤ tally.old.turns + (length bytes.now / 8 + 16 * bytes_of_all (framed_slices bytes.now)) }
{
    validate_structure_tallied(bytes, slice_count_of(schema), tally)?;
    judge_of(schema, &DecodedStore::new(bytes), 0, tally)
}
