//! Lists that are built from an earlier form of their bounds and values.
ghost use Rattle.columnar_lists.specs.EarlierListLaws.{earlier_lists};

use super::Vecs;
use columnar_base::fault::GrowError;
use columnar_core::earlier::Earlier;
use columnar_core::offsets::StoredOffsets;
use std::alloc::Global;

/// The earlier form is the lists over the parts' earlier forms. `Offset` is returned only if the bounds' own `from_old`
/// returns it for bounds that never decrease; none in this library does.
impl<TC: Earlier, BC: Earlier<Old: StoredOffsets> + Drop> Earlier for Vecs<TC, BC> {
    type Old = Vecs<TC::Old, BC::Old>;

    ghost earlier = { earlier_lists BC.Old.format BC.format TC.Old.format TC.format BC.earlier TC.earlier };

    fn from_old(alloc: Global, old: Vecs<TC::Old, BC::Old>) -> Result<Self, GrowError> {
        let bounds = BC::from_old(alloc, old.bounds)?;
        let values = TC::from_old(alloc, old.values)?;
        Ok(Vecs { bounds, values })
    }
}
