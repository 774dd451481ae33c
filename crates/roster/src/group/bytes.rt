//! The slices of groups: those of the solos, of the teams, and of the variants.
ghost use Rattle.std.specs.Prelude.{◌++◌, refl};
ghost use Rattle.columnar.specs.Discriminants.{forms_content};
ghost use Rattle.columnar.specs.DualEarlierLaws.{earlier_dual};
ghost use Rattle.columnar.specs.DualLaws.{dual_storable, dual_counted};

use super::GroupContainer;
use columnar::bytes::ByteSlice;
use columnar::bytes::indexed::DecodedStore;
use columnar::common::{Earlier, Tally, View};
use columnar::fault::{GrowError, StoreFault};
use columnar::primitive::offsets::Words;
use columnar::sums::discriminant::Variants;
use columnar::sums::variants::{
    byte_slice_of_dual, check_dual, count_dual, from_old_dual, judge_dual, load_dual, rows_in_dual,
    sizes_of_dual, slice_of_dual, view_of_dual,
};
use columnar::{AsBytes, Check, ContainerBytes, FromBytes, Len, Stored};
use std::alloc::Global;

/// Checks the rules of the solos, of the teams and of the variants, then that each variant is 0 or 1, then that there
/// are as many values as rows of their variant. The last two are reported as `Variant` and `Parts`, at the first slice.
impl<SC: Stored, TC: Stored, CVar: Variants, COff: Words> Stored
    for GroupContainer<SC, TC, CVar, COff> {
    ghost storable = { dual_storable SC.format TC.format SC.storable TC.storable };

    ghost counted = { λ g. dual_counted SC.format TC.format (SC.content g.Solo) (TC.content g.Team) (forms_content CVar.bytes COff.bytes g.indexes) (SC.counted g.Solo) (TC.counted g.Team) refl };

    fn slice_count() -> usize {
        count_dual::<SC, TC>()
    }

    fn element_sizes(sizes: &mut Vec<usize>) -> Result<(), GrowError> {
        sizes_of_dual::<SC, TC>(sizes)
    }

    fn judge_tallied<L>(
        store: &DecodedStore<'_>,
        offset: usize,
        tally: &mut Tally<L>,
    ) -> Result<(), StoreFault> {
        judge_dual::<SC, TC, L>(store, offset, tally)
    }

    fn rows_in(store: &DecodedStore<'_>, offset: usize) -> usize {
        rows_in_dual::<SC, TC>(store, offset)
    }
}

impl<SC: Check + Len, TC: Check + Len, CVar: Variants, COff: Words> Check
    for GroupContainer<SC, TC, CVar, COff> {
    fn check_from_tallied<L>(&self, from: usize, tally: &mut Tally<L>) -> Result<(), StoreFault> {
        check_dual(&self.Solo, &self.Team, &self.indexes, from, tally)
    }
}

impl<'s, SC: FromBytes<'s>, TC: FromBytes<'s>> FromBytes<'s>
    for GroupContainer<SC, TC, &'s [u8], View<'s, u64>> {
    fn from_store(store: &DecodedStore<'s>, offset: &mut usize) -> Self {
        let (solos, teams, indexes) = view_of_dual::<SC, TC>(store, offset);
        GroupContainer {
            Solo: solos,
            Team: teams,
            indexes,
        }
    }
}

impl<'s, SC: AsBytes<'s>, TC: AsBytes<'s>> AsBytes<'s>
    for GroupContainer<SC, TC, &'s [u8], View<'s, u64>> {
    fn get_byte_slice(&self, index: usize) -> (u64, ByteSlice<'s>) {
        slice_of_dual(&self.Solo, &self.Team, &self.indexes, index)
    }
}

/// If an allocation for a part fails, the parts already copied are dropped.
impl<SC: ContainerBytes + Drop, TC: ContainerBytes + Drop> ContainerBytes
    for GroupContainer<SC, TC, Vec<u8>, Vec<u64>> {
    fn byte_slice(&self, index: usize) -> ByteSlice<'_> {
        byte_slice_of_dual(&self.Solo, &self.Team, &self.indexes, index)
    }

    fn load(alloc: Global, store: &DecodedStore<'_>, offset: usize) -> Result<Self, GrowError> {
        let (solos, teams, indexes) = load_dual::<SC, TC>(alloc, store, offset)?;
        Ok(GroupContainer {
            Solo: solos,
            Team: teams,
            indexes,
        })
    }
}

/// The earlier form has the earlier forms of both columns.
impl<SC: Earlier + Drop, TC: Earlier> Earlier for GroupContainer<SC, TC, Vec<u8>, Vec<u64>> {
    type Old = GroupContainer<SC::Old, TC::Old, Vec<u8>, Vec<u64>>;

    ghost earlier = { earlier_dual SC.Old.format SC.format TC.Old.format TC.format SC.earlier TC.earlier };

    fn from_old(
        alloc: Global,
        old: GroupContainer<SC::Old, TC::Old, Vec<u8>, Vec<u64>>,
    ) -> Result<Self, GrowError> {
        let GroupContainer {
            Solo: solos,
            Team: teams,
            indexes,
        } = old;
        let (solos, teams) = from_old_dual::<SC, TC>(alloc, solos, teams, &indexes)?;
        Ok(GroupContainer {
            Solo: solos,
            Team: teams,
            indexes,
        })
    }
}
