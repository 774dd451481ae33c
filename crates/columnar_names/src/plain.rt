//! Names of the slices of columns that contain no other column.
ghost use Rattle.std.specs.Prelude.{◌++◌, ◌∷◌, [], codes};
ghost use Rattle.columnar_names.specs.Names.{field_path};

use crate::names::{SliceNames, push_field, push_slice};
use columnar_base::element::Element;
use columnar_base::fault::GrowError;
use columnar_base::view::View;
use columnar_bits::bools::Bools;
use columnar_core::words::Words;
use columnar_primitive::codes::{Coded, Codes};
use columnar_primitive::count::Count;
use columnar_primitive::durations::Durations;
use columnar_primitive::empties::Empties;
use columnar_primitive::flat::Flat;
use columnar_primitive::offsets::fixeds::Fixeds;
use columnar_primitive::offsets::strides::Strides;
use std::alloc::Global;

impl<T: Element> SliceNames for Vec<T> {
    ghost names_at = { λ p. p ∷ [] };

    #[tactic(auto, unfolding(crate::specs::Names::field_path))]
    fn push_names(alloc: Global, path: &str, names: &mut Vec<String>) -> Result<(), GrowError> {
        push_slice(alloc, path, "", names)
    }
}

impl<'v, T: Element> SliceNames for View<'v, T> {
    ghost names_at = { λ p. p ∷ [] };

    #[tactic(auto, unfolding(crate::specs::Names::field_path))]
    fn push_names(alloc: Global, path: &str, names: &mut Vec<String>) -> Result<(), GrowError> {
        push_slice(alloc, path, "", names)
    }
}

impl<'v, T: Element> SliceNames for &'v [T] {
    ghost names_at = { λ p. p ∷ [] };

    #[tactic(auto, unfolding(crate::specs::Names::field_path))]
    fn push_names(alloc: Global, path: &str, names: &mut Vec<String>) -> Result<(), GrowError> {
        push_slice(alloc, path, "", names)
    }
}

impl<T: Coded, CV: Flat<Ref = T::Code> + SliceNames> SliceNames for Codes<CV, T> {
    ghost names_at = { λ p. CV.names_at (field_path p (codes "values")) };

    fn push_names(alloc: Global, path: &str, names: &mut Vec<String>) -> Result<(), GrowError> {
        push_field::<CV>(alloc, path, "values", names)
    }
}

impl<SC: Flat + SliceNames, NC: Flat<Ref = u32> + SliceNames> SliceNames for Durations<SC, NC> {
    ghost names_at = { λ p. SC.names_at (field_path p (codes "seconds")) ++ NC.names_at (field_path p (codes "nanoseconds")) };

    fn push_names(alloc: Global, path: &str, names: &mut Vec<String>) -> Result<(), GrowError> {
        push_field::<SC>(alloc, path, "seconds", names)?;
        push_field::<NC>(alloc, path, "nanoseconds", names)
    }
}

impl<CC: Count> SliceNames for Empties<CC> {
    ghost names_at = { λ p. field_path p (codes "count") ∷ [] };

    fn push_names(alloc: Global, path: &str, names: &mut Vec<String>) -> Result<(), GrowError> {
        push_slice(alloc, path, "count", names)
    }
}

impl<VC: Words, TC: Words> SliceNames for Bools<VC, TC> {
    ghost names_at = { λ p. field_path p (codes "values") ∷ field_path p (codes "tail") ∷ [] };

    fn push_names(alloc: Global, path: &str, names: &mut Vec<String>) -> Result<(), GrowError> {
        push_slice(alloc, path, "values", names)?;
        push_slice(alloc, path, "tail", names)
    }
}

impl<BC: Words, HC: Words> SliceNames for Strides<BC, HC> {
    ghost names_at = { λ p. field_path p (codes "head") ∷ field_path p (codes "bounds") ∷ [] };

    fn push_names(alloc: Global, path: &str, names: &mut Vec<String>) -> Result<(), GrowError> {
        push_slice(alloc, path, "head", names)?;
        push_slice(alloc, path, "bounds", names)
    }
}

impl<const K: u64, CC: Words> SliceNames for Fixeds<K, CC> {
    ghost names_at = { λ p. field_path p (codes "count") ∷ [] };

    fn push_names(alloc: Global, path: &str, names: &mut Vec<String>) -> Result<(), GrowError> {
        push_slice(alloc, path, "count", names)
    }
}
