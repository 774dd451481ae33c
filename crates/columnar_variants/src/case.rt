//! Operations on a single variant of a column of variants, for your own containers.
ghost use Rattle.std.specs.Prelude.{◌≡◌, ◌≤◌, length, take, OnOk, IfErr};
ghost use Rattle.columnar_core.specs.Format.{IsSound};
ghost use Rattle.columnar_sums.specs.Discriminants.{discriminant_format, forms_content, owned_forms, variants_of, times};
ghost use Rattle.columnar_variants.specs.Cases.{CaseTook, CaseRefused};

use columnar_core::container::Truncate;
use columnar_core::fault::GrowError;
use columnar_core::traits::{Item, Len, Push, PushRef};
use columnar_core::words::Words;
use columnar_sums::discriminant::{Discriminant, Variants};

/// Pushes a value to the column of its variant, and then its variant. If the second push fails, the value is removed
/// again.
///
/// # Requires
/// Both columns are well-formed, `column` has a value for each row of `variant`, and `item` is valid.
pub fn push_ref_case<T: Item, C: Truncate + PushRef<T>>(
    column: &mut C,
    indexes: &mut Discriminant<Vec<u8>, Vec<u64>>,
    variant: u8,
    item: &T,
) -> Result<(), GrowError>
    requires column { IsSound C.format (C.content column.old) }
    requires forms { IsSound discriminant_format (owned_forms indexes.old.variant.items indexes.old.offset.items) }
    requires told { length (C.format.rows (C.content column.old)) ≡ times variant (variants_of (owned_forms indexes.old.variant.items indexes.old.offset.items)) }
    requires valid { T.valid item.now }
    ensures ok { OnOk result (CaseTook C.format (C.content column.old) (C.content column.new) (owned_forms indexes.old.variant.items indexes.old.offset.items) (owned_forms indexes.new.variant.items indexes.new.offset.items) variant (T.meaning item.now)) }
    ensures err { IfErr result (λ e. CaseRefused C.format (C.content column.old) (C.content column.new) (owned_forms indexes.old.variant.items indexes.old.offset.items) (owned_forms indexes.new.variant.items indexes.new.offset.items) variant (T.meaning item.now) e) }
{
    let before = column.len();
    column.push_ref(item)?;
    match indexes.push(variant, before as u64) {
        Ok(()) => Ok(()),
        Err(error) => {
            column.truncate(before);
            Err(error)
        }
    }
}

/// Does the same as `push_ref_case` with a value.
///
/// # Requires
/// As `push_ref_case`.
pub fn push_case<T: Item, C: Truncate + Push<T>>(
    column: &mut C,
    indexes: &mut Discriminant<Vec<u8>, Vec<u64>>,
    variant: u8,
    item: T,
) -> Result<(), GrowError>
    requires column { IsSound C.format (C.content column.old) }
    requires forms { IsSound discriminant_format (owned_forms indexes.old.variant.items indexes.old.offset.items) }
    requires told { length (C.format.rows (C.content column.old)) ≡ times variant (variants_of (owned_forms indexes.old.variant.items indexes.old.offset.items)) }
    requires valid { T.valid item }
    ensures ok { OnOk result (CaseTook C.format (C.content column.old) (C.content column.new) (owned_forms indexes.old.variant.items indexes.old.offset.items) (owned_forms indexes.new.variant.items indexes.new.offset.items) variant (T.meaning item)) }
    ensures err { IfErr result (λ e. CaseRefused C.format (C.content column.old) (C.content column.new) (owned_forms indexes.old.variant.items indexes.old.offset.items) (owned_forms indexes.new.variant.items indexes.new.offset.items) variant (T.meaning item) e) }
{
    let before = column.len();
    column.push(item)?;
    match indexes.push(variant, before as u64) {
        Ok(()) => Ok(()),
        Err(error) => {
            column.truncate(before);
            Err(error)
        }
    }
}

/// Counts the rows of `variant` among the first `n`, if `all` rows have it in total. Reads no row if all rows have one
/// variant; otherwise takes a step for each row from row `n` up to the next one of `variant`.
///
/// # Requires
/// The variants are well-formed, `n` is at most their number, and `all` rows have `variant`.
pub fn rows_before<CVar: Variants, COff: Words>(
    indexes: &Discriminant<CVar, COff>,
    variant: u8,
    n: usize,
    all: usize,
) -> usize
    requires sound { IsSound discriminant_format (forms_content CVar.bytes COff.bytes indexes.now) }
    requires in_range { n ≤ length (variants_of (forms_content CVar.bytes COff.bytes indexes.now)) }
    requires all { all ≡ times variant (variants_of (forms_content CVar.bytes COff.bytes indexes.now)) }
    ensures { result ≡ times variant (take n (variants_of (forms_content CVar.bytes COff.bytes indexes.now))) }
{
    if let Some(kind) = indexes.homogeneous() {
        return if kind == variant { n } else { 0 };
    }
    for index in n..indexes.len() {
        let (kind, earlier) = indexes.get(index);
        if kind == variant {
            return earlier as usize;
        }
    }
    all
}
