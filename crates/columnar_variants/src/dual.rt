//! Operations on a column of a sum type of two variants. Your own container has a column for the values of each variant
//! and the variants; it passes these three. The columns are in the order of their variants, 0 and 1.
ghost use Rattle.std.specs.Prelude.{◌≡◌, ◌<◌, ◌≤◌, [], ◌∷◌, length, slice_get, Some, OnOk, IfOk, IfErr};
ghost use Rattle.columnar_core.specs.Format.{IsSound};
ghost use Rattle.columnar_core.specs.Change.{Refused, Stayed, Took, WasCut};
ghost use Rattle.columnar_sums.specs.Discriminants.{forms_content, owned_forms};
ghost use Rattle.columnar_variants.specs.Variants.{case};
ghost use Rattle.columnar_variants.specs.Duals.{dual_content, dual_format};

pub mod bytes;
pub mod copy;
pub mod earlier;

use crate::case::{push_case, push_ref_case, rows_before};
use columnar_core::container::{Reserve, Truncate};
use columnar_core::fault::GrowError;
use columnar_core::traits::{Column, Index, Item, Len, Push, PushRef};
use columnar_core::words::Words;
use columnar_sums::discriminant::{Discriminant, Variants};

/// Returns the number of rows.
///
/// # Requires
/// The column is well-formed.
pub fn len_of_dual<SC: Column, TC: Column, CVar: Variants, COff: Words>(
    _firsts: &SC,
    _seconds: &TC,
    indexes: &Discriminant<CVar, COff>,
) -> usize
    requires { IsSound (dual_format SC.format TC.format) (dual_content (SC.content _firsts.now) (TC.content _seconds.now) (forms_content CVar.bytes COff.bytes indexes.now)) }
    ensures { result ≡ length ((dual_format SC.format TC.format).rows (dual_content (SC.content _firsts.now) (TC.content _seconds.now) (forms_content CVar.bytes COff.bytes indexes.now))) }
{
    indexes.len()
}

/// Returns the value of row `index`: `Ok` with a value of the first column, or `Err` with one of the second.
///
/// # Requires
/// The column is well-formed, and `index` is less than its length.
pub fn get_dual<SC: Index, TC: Index, CVar: Variants, COff: Words>(
    firsts: &SC,
    seconds: &TC,
    indexes: &Discriminant<CVar, COff>,
    index: usize,
) -> Result<SC::Ref, TC::Ref>
    requires sound { IsSound (dual_format SC.format TC.format) (dual_content (SC.content firsts.now) (TC.content seconds.now) (forms_content CVar.bytes COff.bytes indexes.now)) }
    requires in_range { index < length ((dual_format SC.format TC.format).rows (dual_content (SC.content firsts.now) (TC.content seconds.now) (forms_content CVar.bytes COff.bytes indexes.now))) }
    ensures first { IfOk result (λ r. slice_get ((dual_format SC.format TC.format).rows (dual_content (SC.content firsts.now) (TC.content seconds.now) (forms_content CVar.bytes COff.bytes indexes.now))) index ≡ Some (case 0 (SC.Ref.meaning r))) }
    ensures second { IfErr result (λ r. slice_get ((dual_format SC.format TC.format).rows (dual_content (SC.content firsts.now) (TC.content seconds.now) (forms_content CVar.bytes COff.bytes indexes.now))) index ≡ Some (case 1 (TC.Ref.meaning r))) }
    ensures first_valid { IfOk result SC.Ref.valid }
    ensures second_valid { IfErr result TC.Ref.valid }
{
    let (variant, at) = indexes.get(index);
    if variant == 0 {
        Ok(firsts.get(at as usize))
    } else {
        Err(seconds.get(at as usize))
    }
}

/// Pushes a referenced row of the first variant. On an error, all three stay the same.
///
/// # Requires
/// The column is well-formed, and `item` is valid.
pub fn push_first_ref<T: Item, SC: Truncate + PushRef<T>, TC: Column>(
    firsts: &mut SC,
    _seconds: &TC,
    indexes: &mut Discriminant<Vec<u8>, Vec<u64>>,
    item: &T,
) -> Result<(), GrowError>
    requires sound { IsSound (dual_format SC.format TC.format) (dual_content (SC.content firsts.old) (TC.content _seconds.now) (owned_forms indexes.old.variant.items indexes.old.offset.items)) }
    requires valid { T.valid item.now }
    ensures ok { OnOk result (Took (dual_format SC.format TC.format) (dual_content (SC.content firsts.old) (TC.content _seconds.now) (owned_forms indexes.old.variant.items indexes.old.offset.items)) (dual_content (SC.content firsts.new) (TC.content _seconds.now) (owned_forms indexes.new.variant.items indexes.new.offset.items)) (case 0 (T.meaning item.now) ∷ [])) }
    ensures err { IfErr result (λ e. Refused (dual_format SC.format TC.format) (dual_content (SC.content firsts.old) (TC.content _seconds.now) (owned_forms indexes.old.variant.items indexes.old.offset.items)) (dual_content (SC.content firsts.new) (TC.content _seconds.now) (owned_forms indexes.new.variant.items indexes.new.offset.items)) (case 0 (T.meaning item.now) ∷ []) e) }
{
    push_ref_case(firsts, indexes, 0, item)
}

/// Pushes a referenced row of the second variant. On an error, all three stay the same.
///
/// # Requires
/// The column is well-formed, and `item` is valid.
pub fn push_second_ref<T: Item, SC: Column, TC: Truncate + PushRef<T>>(
    _firsts: &SC,
    seconds: &mut TC,
    indexes: &mut Discriminant<Vec<u8>, Vec<u64>>,
    item: &T,
) -> Result<(), GrowError>
    requires sound { IsSound (dual_format SC.format TC.format) (dual_content (SC.content _firsts.now) (TC.content seconds.old) (owned_forms indexes.old.variant.items indexes.old.offset.items)) }
    requires valid { T.valid item.now }
    ensures ok { OnOk result (Took (dual_format SC.format TC.format) (dual_content (SC.content _firsts.now) (TC.content seconds.old) (owned_forms indexes.old.variant.items indexes.old.offset.items)) (dual_content (SC.content _firsts.now) (TC.content seconds.new) (owned_forms indexes.new.variant.items indexes.new.offset.items)) (case 1 (T.meaning item.now) ∷ [])) }
    ensures err { IfErr result (λ e. Refused (dual_format SC.format TC.format) (dual_content (SC.content _firsts.now) (TC.content seconds.old) (owned_forms indexes.old.variant.items indexes.old.offset.items)) (dual_content (SC.content _firsts.now) (TC.content seconds.new) (owned_forms indexes.new.variant.items indexes.new.offset.items)) (case 1 (T.meaning item.now) ∷ []) e) }
{
    push_ref_case(seconds, indexes, 1, item)
}

/// Pushes a row of the first variant. On an error, all three stay the same.
///
/// # Requires
/// The column is well-formed, and `item` is valid.
pub fn push_first<T: Item, SC: Truncate + Push<T>, TC: Column>(
    firsts: &mut SC,
    _seconds: &TC,
    indexes: &mut Discriminant<Vec<u8>, Vec<u64>>,
    item: T,
) -> Result<(), GrowError>
    requires sound { IsSound (dual_format SC.format TC.format) (dual_content (SC.content firsts.old) (TC.content _seconds.now) (owned_forms indexes.old.variant.items indexes.old.offset.items)) }
    requires valid { T.valid item }
    ensures ok { OnOk result (Took (dual_format SC.format TC.format) (dual_content (SC.content firsts.old) (TC.content _seconds.now) (owned_forms indexes.old.variant.items indexes.old.offset.items)) (dual_content (SC.content firsts.new) (TC.content _seconds.now) (owned_forms indexes.new.variant.items indexes.new.offset.items)) (case 0 (T.meaning item) ∷ [])) }
    ensures err { IfErr result (λ e. Refused (dual_format SC.format TC.format) (dual_content (SC.content firsts.old) (TC.content _seconds.now) (owned_forms indexes.old.variant.items indexes.old.offset.items)) (dual_content (SC.content firsts.new) (TC.content _seconds.now) (owned_forms indexes.new.variant.items indexes.new.offset.items)) (case 0 (T.meaning item) ∷ []) e) }
{
    push_case(firsts, indexes, 0, item)
}

/// Pushes a row of the second variant. On an error, all three stay the same.
///
/// # Requires
/// The column is well-formed, and `item` is valid.
pub fn push_second<T: Item, SC: Column, TC: Truncate + Push<T>>(
    _firsts: &SC,
    seconds: &mut TC,
    indexes: &mut Discriminant<Vec<u8>, Vec<u64>>,
    item: T,
) -> Result<(), GrowError>
    requires sound { IsSound (dual_format SC.format TC.format) (dual_content (SC.content _firsts.now) (TC.content seconds.old) (owned_forms indexes.old.variant.items indexes.old.offset.items)) }
    requires valid { T.valid item }
    ensures ok { OnOk result (Took (dual_format SC.format TC.format) (dual_content (SC.content _firsts.now) (TC.content seconds.old) (owned_forms indexes.old.variant.items indexes.old.offset.items)) (dual_content (SC.content _firsts.now) (TC.content seconds.new) (owned_forms indexes.new.variant.items indexes.new.offset.items)) (case 1 (T.meaning item) ∷ [])) }
    ensures err { IfErr result (λ e. Refused (dual_format SC.format TC.format) (dual_content (SC.content _firsts.now) (TC.content seconds.old) (owned_forms indexes.old.variant.items indexes.old.offset.items)) (dual_content (SC.content _firsts.now) (TC.content seconds.new) (owned_forms indexes.new.variant.items indexes.new.offset.items)) (case 1 (T.meaning item) ∷ []) e) }
{
    push_case(seconds, indexes, 1, item)
}

/// Keeps the first `n` rows. Allocates nothing.
///
/// # Requires
/// The column is well-formed, and `n` is at most its length.
pub fn truncate_dual<SC: Truncate, TC: Truncate>(
    firsts: &mut SC,
    seconds: &mut TC,
    indexes: &mut Discriminant<Vec<u8>, Vec<u64>>,
    n: usize,
)
    requires sound { IsSound (dual_format SC.format TC.format) (dual_content (SC.content firsts.old) (TC.content seconds.old) (owned_forms indexes.old.variant.items indexes.old.offset.items)) }
    requires in_range { n ≤ length ((dual_format SC.format TC.format).rows (dual_content (SC.content firsts.old) (TC.content seconds.old) (owned_forms indexes.old.variant.items indexes.old.offset.items))) }
    ensures { WasCut (dual_format SC.format TC.format) (dual_content (SC.content firsts.old) (TC.content seconds.old) (owned_forms indexes.old.variant.items indexes.old.offset.items)) (dual_content (SC.content firsts.new) (TC.content seconds.new) (owned_forms indexes.new.variant.items indexes.new.offset.items)) n }
{
    let first = rows_before(indexes, 0, n, firsts.len());
    let second = rows_before(indexes, 1, n, seconds.len());
    firsts.truncate(first);
    seconds.truncate(second);
    indexes.truncate(n);
}

/// Reserves space. The rows stay the same.
///
/// # Requires
/// The column is well-formed.
pub fn reserve_dual<SC: Reserve, TC: Reserve>(
    firsts: &mut SC,
    seconds: &mut TC,
    indexes: &mut Discriminant<Vec<u8>, Vec<u64>>,
    room: (SC::Room, TC::Room, (usize, usize)),
) -> Result<(), GrowError>
    requires { IsSound (dual_format SC.format TC.format) (dual_content (SC.content firsts.old) (TC.content seconds.old) (owned_forms indexes.old.variant.items indexes.old.offset.items)) }
    ensures stayed { Stayed (dual_format SC.format TC.format) (dual_content (SC.content firsts.old) (TC.content seconds.old) (owned_forms indexes.old.variant.items indexes.old.offset.items)) (dual_content (SC.content firsts.new) (TC.content seconds.new) (owned_forms indexes.new.variant.items indexes.new.offset.items)) }
    ensures memory { IfErr result (λ e. e ≡ GrowError.Memory) }
{
    firsts.reserve_room(room.0)?;
    seconds.reserve_room(room.1)?;
    indexes.reserve_room(room.2)
}
