//! Strings that are built from an earlier form of their bounds and bytes.
ghost use Rattle.columnar_lists.specs.EarlierListLaws.{earlier_lists};

use super::Strings;
use columnar_base::fault::GrowError;
use columnar_core::earlier::Earlier;
use columnar_core::offsets::StoredOffsets;
use std::alloc::Global;

/// The earlier form is the strings over the parts' earlier forms. `Offset` is returned only if the bounds' own
/// `from_old` returns it for bounds that never decrease; none in this library does.
impl<BC: Earlier<Old: StoredOffsets> + Drop, VC: Earlier> Earlier for Strings<BC, VC> {
    type Old = Strings<BC::Old, VC::Old>;

    ghost earlier = { earlier_lists BC.Old.format BC.format VC.Old.format VC.format BC.earlier VC.earlier };

    fn from_old(alloc: Global, old: Strings<BC::Old, VC::Old>) -> Result<Self, GrowError> {
        let bounds = BC::from_old(alloc, old.bounds)?;
        let values = VC::from_old(alloc, old.values)?;
        Ok(Strings { bounds, values })
    }
}
