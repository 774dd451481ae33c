//! Names of the slices of a struct without fields: those of its column of units.
use crate::names::{NamedParts, PartNames, SliceNames};
use columnar_base::fault::GrowError;
use columnar_primitive::count::Count;
use columnar_primitive::empties::Empties;
use std::alloc::Global;

/// Units have no parts to name.
impl<CC: Count> NamedParts for Empties<CC> {
    ghost parts_at = { λ n. ⟦<Empties<CC> as SliceNames>⟧.names_at };

    fn push_parts_names<N: PartNames>(
        alloc: Global,
        path: &str,
        names: &mut Vec<String>,
    ) -> Result<(), GrowError> {
        Self::push_names(alloc, path, names)
    }
}
