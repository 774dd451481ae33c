// Made by .ci/widths.py: change .ci/widths/names.template, and not this file.
//! Names of the slices of tuples of four columns.
ghost use Rattle.std.specs.Prelude.{◌++◌};
ghost use Rattle.columnar_names.specs.Names.{field_path};

use crate::names::{NamedParts, Numbered, PartNames, SliceNames, push_field};
use columnar_base::fault::GrowError;
use std::alloc::Global;

impl<A: SliceNames, B: SliceNames, C: SliceNames, D: SliceNames> NamedParts for (A, B, C, D) {
    ghost parts_at = { λ n p. A.names_at (field_path p (n 0)) ++ (B.names_at (field_path p (n 1)) ++ (C.names_at (field_path p (n 2)) ++ (D.names_at (field_path p (n 3))))) };

    fn push_parts_names<N: PartNames>(
        alloc: Global,
        path: &str,
        names: &mut Vec<String>,
    ) -> Result<(), GrowError> {
        push_field::<A>(alloc, path, N::part_name(0), names)?;
        push_field::<B>(alloc, path, N::part_name(1), names)?;
        push_field::<C>(alloc, path, N::part_name(2), names)?;
        push_field::<D>(alloc, path, N::part_name(3), names)?;
        Ok(())
    }
}

impl<A: SliceNames, B: SliceNames, C: SliceNames, D: SliceNames> SliceNames for (A, B, C, D) {
    ghost names_at = { ⟦<(A, B, C, D) as NamedParts>⟧.parts_at ⟦<Numbered as PartNames>⟧.name_of };

    fn push_names(alloc: Global, path: &str, names: &mut Vec<String>) -> Result<(), GrowError> {
        Self::push_parts_names::<Numbered>(alloc, path, names)
    }
}
