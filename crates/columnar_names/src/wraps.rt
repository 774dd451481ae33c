//! Names of the slices of columns that hold or lend one other column: they are those of this column.
use crate::names::{NamedParts, PartNames, SliceNames};
use columnar_base::fault::GrowError;
use columnar_core::boxed::Boxed;
use columnar_core::container::ContainerBytes;
use columnar_core::owned::Owned;
use columnar_own::rows::OwnRows;
use std::alloc::Global;
use std::rc::Rc;

impl<C: SliceNames> SliceNames for Boxed<C> {
    ghost names_at = { C.names_at };

    fn push_names(alloc: Global, path: &str, names: &mut Vec<String>) -> Result<(), GrowError> {
        C::push_names(alloc, path, names)
    }
}

impl<C: SliceNames> SliceNames for Rc<C> {
    ghost names_at = { C.names_at };

    fn push_names(alloc: Global, path: &str, names: &mut Vec<String>) -> Result<(), GrowError> {
        C::push_names(alloc, path, names)
    }
}

impl<'x, V: SliceNames> SliceNames for &'x V {
    ghost names_at = { V.names_at };

    fn push_names(alloc: Global, path: &str, names: &mut Vec<String>) -> Result<(), GrowError> {
        V::push_names(alloc, path, names)
    }
}

impl<'v, C: ContainerBytes + SliceNames> SliceNames for Owned<'v, C> {
    ghost names_at = { C.names_at };

    fn push_names(alloc: Global, path: &str, names: &mut Vec<String>) -> Result<(), GrowError> {
        C::push_names(alloc, path, names)
    }
}

/// The slices of each part have its name, that of a field or of a variant.
impl<P: NamedParts, K: PartNames> SliceNames for OwnRows<P, K> {
    ghost names_at = { P.parts_at K.name_of };

    fn push_names(alloc: Global, path: &str, names: &mut Vec<String>) -> Result<(), GrowError> {
        P::push_parts_names::<K>(alloc, path, names)
    }
}
