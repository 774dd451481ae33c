//! Columns of a sum type of two variants that are made from an earlier form.
ghost use Rattle.std.specs.Prelude.{IfOk, IfErr};
ghost use Rattle.columnar_core.specs.Format.{IsSound};
ghost use Rattle.columnar_core.specs.Earlier.{IsMadeOf, IsTrueOfNew};
ghost use Rattle.columnar_sums.specs.Discriminants.{owned_forms};
ghost use Rattle.columnar_variants.specs.Duals.{dual_content, dual_format};

use columnar_core::earlier::Earlier;
use columnar_core::fault::GrowError;
use columnar_sums::discriminant::Discriminant;
use std::alloc::Global;

/// Makes both columns from their earlier forms. The variants stay, and the rows are the same. Fails as the conversion
/// of a column fails.
///
/// # Requires
/// The earlier column is well-formed.
pub fn from_old_dual<SC: Earlier + Drop, TC: Earlier>(
    alloc: Global,
    firsts: SC::Old,
    seconds: TC::Old,
    _indexes: &Discriminant<Vec<u8>, Vec<u64>>,
) -> Result<(SC, TC), GrowError>
    requires { IsSound (dual_format SC.Old.format TC.Old.format) (dual_content (SC.Old.content firsts) (TC.Old.content seconds) (owned_forms _indexes.now.variant.items _indexes.now.offset.items)) }
    ensures ok { IfOk result (λ p. IsMadeOf (dual_format SC.Old.format TC.Old.format) (dual_format SC.format TC.format) (dual_content (SC.Old.content firsts) (TC.Old.content seconds) (owned_forms _indexes.now.variant.items _indexes.now.offset.items)) (dual_content (SC.content p.0) (TC.content p.1) (owned_forms _indexes.now.variant.items _indexes.now.offset.items))) }
    ensures err { IfErr result (λ e. IsTrueOfNew e (dual_format SC.format TC.format) ((dual_format SC.Old.format TC.Old.format).rows (dual_content (SC.Old.content firsts) (TC.Old.content seconds) (owned_forms _indexes.now.variant.items _indexes.now.offset.items)))) }
{
    let first = SC::from_old(alloc, firsts)?;
    let second = TC::from_old(alloc, seconds)?;
    Ok((first, second))
}
