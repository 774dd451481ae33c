//! The bytes of an encoding, shared.
ghost use Rattle.std.specs.Prelude.{◌≡◌, ◌<◌, ◌^◌, length, IfOk};
ghost use Rattle.std.specs.Rc.{rc_slice_items};
ghost use Rattle.columnar_core.specs.Frame.{framed_slices};
ghost use Rattle.columnar_core.specs.Words.{store_bytes};

use super::ByteStore;
use std::alloc::AllocError;
use std::ops::DerefSlice;
use std::rc::RcSlice;

/// Shared bytes of an encoding: zeros between the slices, and nothing after them. Only a `Stash` makes them.
#[derive(Drop)]
pub struct AlignedBytes {
    shared: RcSlice<u8>,
    ghost tight: { rc_slice_items shared ≡ store_bytes (framed_slices (rc_slice_items shared)) },
    ghost counted: { length (rc_slice_items shared) < 2 ^ 64 },
}

impl AlignedBytes {
    ghost use Rattle.columnar_bytes.specs.AlignedBytes.{aligned_bytes};

    // Shares the bytes of an encoding.
    pub(super) fn share(encoding: Vec<u8>) -> Result<Self, AllocError>
        requires tight { encoding.items ≡ store_bytes (framed_slices encoding.items) }
        requires counted { length encoding.items < 2 ^ 64 }
        ensures { IfOk result (λ s. aligned_bytes s ≡ encoding.items) }
    {
        let shared = RcSlice::from_vec(encoding)?;
        Ok(AlignedBytes { shared })
    }
}

impl ByteStore for AlignedBytes {
    ghost use Rattle.columnar_bytes.specs.AlignedBytes.{aligned_bytes};

    ghost bytes = { aligned_bytes };

    fn as_slice(&self) -> &[u8] {
        DerefSlice::deref(&self.shared)
    }

    fn clone_store(&self) -> Result<Self, AllocError> {
        let shared = self.shared.clone()?;
        Ok(AlignedBytes { shared })
    }
}
