//! Names of the slices of counted bits, and of columns of options, results, repeats and bounds in unary over them.
ghost use Rattle.std.specs.Prelude.{◌++◌, ◌∷◌, [], codes};
ghost use Rattle.columnar_names.specs.Names.{field_path};

use crate::names::{SliceNames, push_field, push_slice};
use columnar_base::fault::GrowError;
use columnar_bits::bools::Bools;
use columnar_core::words::Words;
use columnar_lookback::lookbacks::{Distances, Lookbacks};
use columnar_lookback::repeats::Repeats;
use columnar_sums::discriminant::{Discriminant, Variants};
use columnar_sums::option::Options;
use columnar_sums::rank_select::RankSelect;
use columnar_sums::result::Results;
use columnar_sums::unaries::Unaries;
use std::alloc::Global;

impl<CC: Words, VC: Words, WC: Words> SliceNames for RankSelect<CC, VC, WC> {
    ghost names_at = { λ p. field_path p (codes "counts") ∷ ⟦<Bools<VC, WC> as SliceNames>⟧.names_at (field_path p (codes "values")) };

    fn push_names(alloc: Global, path: &str, names: &mut Vec<String>) -> Result<(), GrowError> {
        push_slice(alloc, path, "counts", names)?;
        push_field::<Bools<VC, WC>>(alloc, path, "values", names)
    }
}

impl<CC: Words, VC: Words, WC: Words> SliceNames for Unaries<CC, VC, WC> {
    ghost names_at = { λ p. ⟦<RankSelect<CC, VC, WC> as SliceNames>⟧.names_at (field_path p (codes "bits")) };

    fn push_names(alloc: Global, path: &str, names: &mut Vec<String>) -> Result<(), GrowError> {
        push_field::<RankSelect<CC, VC, WC>>(alloc, path, "bits", names)
    }
}

impl<TC: SliceNames, CC: Words, VC: Words, WC: Words> SliceNames for Options<TC, CC, VC, WC> {
    ghost names_at = { λ p. ⟦<RankSelect<CC, VC, WC> as SliceNames>⟧.names_at (field_path p (codes "indexes")) ++ TC.names_at (field_path p (codes "somes")) };

    fn push_names(alloc: Global, path: &str, names: &mut Vec<String>) -> Result<(), GrowError> {
        push_field::<RankSelect<CC, VC, WC>>(alloc, path, "indexes", names)?;
        push_field::<TC>(alloc, path, "somes", names)
    }
}

impl<SC: SliceNames, TC: SliceNames, CC: Words, VC: Words, WC: Words> SliceNames
    for Results<SC, TC, CC, VC, WC> {
    ghost names_at = { λ p. ⟦<RankSelect<CC, VC, WC> as SliceNames>⟧.names_at (field_path p (codes "indexes")) ++ SC.names_at (field_path p (codes "oks")) ++ TC.names_at (field_path p (codes "errs")) };

    fn push_names(alloc: Global, path: &str, names: &mut Vec<String>) -> Result<(), GrowError> {
        push_field::<RankSelect<CC, VC, WC>>(alloc, path, "indexes", names)?;
        push_field::<SC>(alloc, path, "oks", names)?;
        push_field::<TC>(alloc, path, "errs", names)
    }
}

impl<TC: SliceNames, CC: Words, VC: Words, WC: Words> SliceNames for Repeats<TC, CC, VC, WC> {
    ghost names_at = { λ p. ⟦<Options<TC, CC, VC, WC> as SliceNames>⟧.names_at (field_path p (codes "inner")) };

    fn push_names(alloc: Global, path: &str, names: &mut Vec<String>) -> Result<(), GrowError> {
        push_field::<Options<TC, CC, VC, WC>>(alloc, path, "inner", names)
    }
}

impl<CVar: Variants, COff: Words> SliceNames for Discriminant<CVar, COff> {
    ghost names_at = { λ p. field_path p (codes "variant") ∷ field_path p (codes "offset") ∷ [] };

    fn push_names(alloc: Global, path: &str, names: &mut Vec<String>) -> Result<(), GrowError> {
        push_slice(alloc, path, "variant", names)?;
        push_slice(alloc, path, "offset", names)
    }
}

impl<
    TC: SliceNames,
    VC: Distances + SliceNames,
    CC: Words,
    RC: Words,
    WC: Words,
    const N: u8,
> SliceNames for Lookbacks<TC, N, VC, CC, RC, WC> {
    ghost names_at = { λ p. ⟦<Results<TC, VC, CC, RC, WC> as SliceNames>⟧.names_at (field_path p (codes "inner")) };

    fn push_names(alloc: Global, path: &str, names: &mut Vec<String>) -> Result<(), GrowError> {
        push_field::<Results<TC, VC, CC, RC, WC>>(alloc, path, "inner", names)
    }
}
