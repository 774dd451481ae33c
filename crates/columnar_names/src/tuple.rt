//! Names of the slices of tuples of one and two columns.
ghost use Rattle.std.specs.Prelude.{◌++◌};
ghost use Rattle.columnar_names.specs.Names.{field_path};

use crate::names::{NamedParts, Numbered, PartNames, SliceNames, push_field};
use columnar_base::fault::GrowError;
use std::alloc::Global;

pub mod eight;
pub mod five;
pub mod four;
pub mod nine;
pub mod seven;
pub mod six;
pub mod ten;
pub mod three;

impl<A: SliceNames> NamedParts for (A,) {
    ghost parts_at = { λ n p. A.names_at (field_path p (n 0)) };

    fn push_parts_names<N: PartNames>(
        alloc: Global,
        path: &str,
        names: &mut Vec<String>,
    ) -> Result<(), GrowError> {
        push_field::<A>(alloc, path, N::part_name(0), names)
    }
}

impl<A: SliceNames> SliceNames for (A,) {
    ghost names_at = { ⟦<(A,) as NamedParts>⟧.parts_at ⟦<Numbered as PartNames>⟧.name_of };

    fn push_names(alloc: Global, path: &str, names: &mut Vec<String>) -> Result<(), GrowError> {
        Self::push_parts_names::<Numbered>(alloc, path, names)
    }
}

impl<A: SliceNames, B: SliceNames> NamedParts for (A, B) {
    ghost parts_at = { λ n p. A.names_at (field_path p (n 0)) ++ B.names_at (field_path p (n 1)) };

    fn push_parts_names<N: PartNames>(
        alloc: Global,
        path: &str,
        names: &mut Vec<String>,
    ) -> Result<(), GrowError> {
        push_field::<A>(alloc, path, N::part_name(0), names)?;
        push_field::<B>(alloc, path, N::part_name(1), names)
    }
}

impl<A: SliceNames, B: SliceNames> SliceNames for (A, B) {
    ghost names_at = { ⟦<(A, B) as NamedParts>⟧.parts_at ⟦<Numbered as PartNames>⟧.name_of };

    fn push_names(alloc: Global, path: &str, names: &mut Vec<String>) -> Result<(), GrowError> {
        Self::push_parts_names::<Numbered>(alloc, path, names)
    }
}
