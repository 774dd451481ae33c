//! Names of the slices of columns of lists, of strings and of trees.
ghost use Rattle.std.specs.Prelude.{◌++◌, ◌∷◌, codes};
ghost use Rattle.columnar_names.specs.Names.{field_path};

use crate::names::{SliceNames, push_field, push_slice};
use columnar_base::fault::GrowError;
use columnar_core::offsets::StoredOffsets;
use columnar_lists::vector::Vecs;
use columnar_nested::trees::{NodeBounds, Trees};
use columnar_strings::string::Strings;
use std::alloc::Global;

impl<TC: SliceNames, BC: StoredOffsets + SliceNames> SliceNames for Vecs<TC, BC> {
    ghost names_at = { λ p. BC.names_at (field_path p (codes "bounds")) ++ TC.names_at (field_path p (codes "values")) };

    fn push_names(alloc: Global, path: &str, names: &mut Vec<String>) -> Result<(), GrowError> {
        push_field::<BC>(alloc, path, "bounds", names)?;
        push_field::<TC>(alloc, path, "values", names)
    }
}

impl<BC: StoredOffsets + SliceNames, VC: SliceNames> SliceNames for Strings<BC, VC> {
    ghost names_at = { λ p. BC.names_at (field_path p (codes "bounds")) ++ VC.names_at (field_path p (codes "values")) };

    fn push_names(alloc: Global, path: &str, names: &mut Vec<String>) -> Result<(), GrowError> {
        push_field::<BC>(alloc, path, "bounds", names)?;
        push_field::<VC>(alloc, path, "values", names)
    }
}

impl<TC: SliceNames, BC: NodeBounds> SliceNames for Trees<TC, BC> {
    ghost names_at = { λ p. field_path p (codes "groups") ∷ field_path p (codes "bounds") ∷ TC.names_at (field_path p (codes "values")) };

    fn push_names(alloc: Global, path: &str, names: &mut Vec<String>) -> Result<(), GrowError> {
        push_slice(alloc, path, "groups", names)?;
        push_slice(alloc, path, "bounds", names)?;
        push_field::<TC>(alloc, path, "values", names)
    }
}
