// Made by .ci/widths.py: change .ci/widths/names.template, and not this file.
//! Names of the slices of tuples of nine columns.
ghost use Rattle.std.specs.Prelude.{◌++◌};
ghost use Rattle.columnar_names.specs.Names.{field_path};

use crate::names::{NamedParts, Numbered, PartNames, SliceNames, push_field};
use columnar_base::fault::GrowError;
use std::alloc::Global;

impl<
    A: SliceNames,
    B: SliceNames,
    C: SliceNames,
    D: SliceNames,
    E: SliceNames,
    F: SliceNames,
    G: SliceNames,
    H: SliceNames,
    I: SliceNames,
> NamedParts for (A, B, C, D, E, F, G, H, I) {
    ghost parts_at = { λ n p. A.names_at (field_path p (n 0)) ++ (B.names_at (field_path p (n 1)) ++ (C.names_at (field_path p (n 2)) ++ (D.names_at (field_path p (n 3)) ++ (E.names_at (field_path p (n 4)) ++ (F.names_at (field_path p (n 5)) ++ (G.names_at (field_path p (n 6)) ++ (H.names_at (field_path p (n 7)) ++ (I.names_at (field_path p (n 8)))))))))) };

    fn push_parts_names<N: PartNames>(
        alloc: Global,
        path: &str,
        names: &mut Vec<String>,
    ) -> Result<(), GrowError> {
        push_field::<A>(alloc, path, N::part_name(0), names)?;
        push_field::<B>(alloc, path, N::part_name(1), names)?;
        push_field::<C>(alloc, path, N::part_name(2), names)?;
        push_field::<D>(alloc, path, N::part_name(3), names)?;
        push_field::<E>(alloc, path, N::part_name(4), names)?;
        push_field::<F>(alloc, path, N::part_name(5), names)?;
        push_field::<G>(alloc, path, N::part_name(6), names)?;
        push_field::<H>(alloc, path, N::part_name(7), names)?;
        push_field::<I>(alloc, path, N::part_name(8), names)?;
        Ok(())
    }
}

impl<
    A: SliceNames,
    B: SliceNames,
    C: SliceNames,
    D: SliceNames,
    E: SliceNames,
    F: SliceNames,
    G: SliceNames,
    H: SliceNames,
    I: SliceNames,
> SliceNames for (A, B, C, D, E, F, G, H, I) {
    ghost names_at = { ⟦<(A, B, C, D, E, F, G, H, I) as NamedParts>⟧.parts_at ⟦<Numbered as PartNames>⟧.name_of };

    fn push_names(alloc: Global, path: &str, names: &mut Vec<String>) -> Result<(), GrowError> {
        Self::push_parts_names::<Numbered>(alloc, path, names)
    }
}
