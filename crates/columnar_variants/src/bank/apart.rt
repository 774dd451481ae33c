//! Parts of a well-formed view of a sum type: each is well-formed, too.
ghost use Rattle.std.specs.Prelude.{◌≡◌, ◌<◌, ℕ};
ghost use Rattle.columnar_core.specs.Format.{IsSound, both};
ghost use Rattle.columnar_sums.specs.Discriminants.{forms_content};
ghost use Rattle.columnar_sums.specs.Results.{beside_format};
ghost use Rattle.columnar_variants.specs.Variants.{of_case, variants_format};

use super::ColumnBank;
use crate::variants::Variants;
use columnar_core::traits::Column;
use columnar_core::words::Words;
use columnar_sums::discriminant::Variants as VariantBytes;

/// Returns the columns of the values of a view: for each variant the values of its rows, in order.
///
/// # Requires
/// The view is well-formed.
pub fn columns_of<B: ColumnBank + Copy, CVar: VariantBytes + Copy, COff: Words + Copy>(
    view: Variants<B, CVar, COff>,
) -> B
    requires { IsSound (variants_format B.bank) (both (B.contents view.columns) (forms_content CVar.bytes COff.bytes view.indexes)) }
    ensures sound { IsSound B.bank.sides (B.contents result) }
    ensures rows { (v : ℕ) → v < B.bank.size → B.bank.table (B.contents result) v ≡ of_case v ((variants_format B.bank).rows (both (B.contents view.columns) (forms_content CVar.bytes COff.bytes view.indexes))) }
    ensures columns { result ≡ view.columns }
{
    view.columns
}

/// Splits the columns into that of the first variant and those of the others.
///
/// # Requires
/// The columns are well-formed.
pub fn first_and_others<A: Column, B: ColumnBank>(columns: (A, B)) -> (A, B)
    requires { IsSound (beside_format A.format B.bank.sides) (both (A.content columns.0) (B.contents columns.1)) }
    ensures first { IsSound A.format (A.content result.0) }
    ensures others { IsSound B.bank.sides (B.contents result.1) }
    ensures columns { result ≡ columns }
{
    columns
}
