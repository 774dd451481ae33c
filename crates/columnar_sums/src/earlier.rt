//! Conversion of stores of an earlier form into offsets in unary, options and results.
ghost use Rattle.std.specs.Prelude.{◌≡◌, ◌+◌, ◌^◌, ◌≤◌, length, true, false, IfOk, IfErr};
ghost use Rattle.columnar_core.specs.Format.{IsSound, slice};
ghost use Rattle.columnar_core.specs.Bounds.{last_or};
ghost use Rattle.columnar_core.specs.Earlier.{IsMadeOf, IsTrueOfNew};
ghost use Rattle.columnar_core.specs.Elements.{words_format};
ghost use Rattle.columnar_core.specs.WordViews.{le_bytes};
ghost use Rattle.columnar_sums.specs.Unary.{falls};
ghost use Rattle.columnar_sums.specs.UnaryColumns.{unaries_format, owned_unaries, offsets_of};
ghost use Rattle.columnar_sums.specs.EarlierSumLaws.{unary_fewer, earlier_options, earlier_results};

use crate::discriminant::Discriminant;
use crate::option::Options;
use crate::rank_select::{RankSelect, counted};
use crate::result::Results;
use crate::unaries::{Unaries, in_unary};
use columnar_core::earlier::{Earlier, Kept};
use columnar_core::fault::GrowError;
use std::alloc::Global;

impl Kept for RankSelect<Vec<u64>, Vec<u64>, [u64; 2]> {}

impl Kept for Discriminant<Vec<u8>, Vec<u64>> {}

/// Converts a column of numbers.
///
/// # Errors
/// `Offset` if the numbers fall; otherwise `Length` if the last number plus their count exceeds 2^64 - 1. Both are
/// returned before any allocation.
impl Earlier for Unaries<Vec<u64>, Vec<u64>, [u64; 2]> {
    type Old = Vec<u64>;

    ghost earlier = { unary_fewer };

    fn from_old(alloc: Global, old: Vec<u64>) -> Result<Self, GrowError>
        requires { IsSound words_format (slice (le_bytes old.items)) }
        ensures ok { IfOk result (λ c. IsMadeOf words_format unaries_format (slice (le_bytes old.items)) (owned_unaries c)) }
        ensures err { IfErr result (λ e. IsTrueOfNew e unaries_format (words_format.rows (slice (le_bytes old.items)))) }
        ensures offset { falls 0 (offsets_of old.items) ≡ true → result ≡ Err GrowError.Offset }
        ensures length { falls 0 (offsets_of old.items) ≡ false → 2 ^ 64 ≤ last_or 0 (offsets_of old.items) + length (offsets_of old.items) → result ≡ Err GrowError.Length }
    {
        let values = in_unary(alloc, &old)?;
        let bits = counted(alloc, values)?;
        Ok(Unaries { bits })
    }
}

/// The earlier form stores the same bits.
impl<TC: Earlier> Earlier for Options<TC, Vec<u64>, Vec<u64>, [u64; 2]> {
    type Old = Options<TC::Old, Vec<u64>, Vec<u64>, [u64; 2]>;

    ghost earlier = { earlier_options TC.Old.format TC.format TC.earlier };

    fn from_old(
        alloc: Global,
        old: Options<TC::Old, Vec<u64>, Vec<u64>, [u64; 2]>,
    ) -> Result<Self, GrowError> {
        let somes = TC::from_old(alloc, old.somes)?;
        Ok(Options {
            indexes: old.indexes,
            somes,
        })
    }
}

/// The earlier form stores the same bits.
impl<SC: Earlier + Drop, TC: Earlier> Earlier for Results<SC, TC, Vec<u64>, Vec<u64>, [u64; 2]> {
    type Old = Results<SC::Old, TC::Old, Vec<u64>, Vec<u64>, [u64; 2]>;

    ghost earlier = { earlier_results SC.Old.format SC.format TC.Old.format TC.format SC.earlier TC.earlier };

    fn from_old(
        alloc: Global,
        old: Results<SC::Old, TC::Old, Vec<u64>, Vec<u64>, [u64; 2]>,
    ) -> Result<Self, GrowError> {
        let oks = SC::from_old(alloc, old.oks)?;
        let errs = TC::from_old(alloc, old.errs)?;
        Ok(Results {
            indexes: old.indexes,
            oks,
            errs,
        })
    }
}
