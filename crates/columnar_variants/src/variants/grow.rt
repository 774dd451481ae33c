//! Operations of owned columns of any number of variants other than pushes.
ghost use Rattle.columnar_sums.specs.DiscriminantLaws.{discriminant_lawful};
ghost use Rattle.columnar_variants.specs.LawfulVariantLaws.{variants_lawful};

use super::Variants;
use crate::bank::LenBank;
use crate::bank::grow::{ClearBank, CutBank, ReserveBank, StorageBank};
use crate::fronts::fronts;
use columnar_core::container::{Reserve, Storage, Truncate};
use columnar_core::fault::GrowError;
use columnar_core::traits::Clear;
use columnar_sums::discriminant::Discriminant;
use std::alloc::Global;

impl<B: ClearBank> Clear for Variants<B, Vec<u8>, Vec<u64>> {
    fn clear(&mut self) {
        self.columns.clear_columns();
        self.indexes.clear();
    }
}

/// Each column keeps the values of the first `n` rows.
impl<B: CutBank + LenBank> Truncate for Variants<B, Vec<u8>, Vec<u64>> {
    ghost lawful = { variants_lawful B.bank B.is_bank B.lawful discriminant_lawful };

    fn truncate(&mut self, n: usize) {
        let fronts = fronts(&self.columns, &self.indexes, n);
        self.columns.cut_columns(&fronts);
        self.indexes.truncate(n);
    }
}

impl<B: StorageBank + CutBank + LenBank + ClearBank + Drop> Storage
    for Variants<B, Vec<u8>, Vec<u64>> {
    fn empty(alloc: Global) -> Self {
        let columns = B::empty_columns(alloc);
        let indexes = <Discriminant<Vec<u8>, Vec<u64>> as Storage>::empty(alloc);
        Variants { columns, indexes }
    }

    fn duplicate(&self, alloc: Global) -> Result<Self, GrowError> {
        let columns = self.columns.duplicate_columns(alloc)?;
        let indexes = self.indexes.duplicate(alloc)?;
        Ok(Variants { columns, indexes })
    }
}

impl<B: ReserveBank> Reserve for Variants<B, Vec<u8>, Vec<u64>> {
    type Room = (B::Room, (usize, usize));

    ghost reserves = { ⊥ };

    ghost covers = { λ r rs. ⊥ };

    fn no_room() -> (B::Room, (usize, usize)) {
        (B::no_room_in_columns(), (0, 0))
    }

    fn reserve_room(&mut self, room: (B::Room, (usize, usize))) -> Result<(), GrowError> {
        self.columns.reserve_columns(room.0)?;
        self.indexes.reserve_room(room.1)
    }
}
