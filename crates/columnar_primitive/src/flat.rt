//! Columns that store each row in bytes of its own, in one slice.
ghost use Rattle.std.specs.Prelude.{◌≡◌, ◌+◌, ◌<◌, length, drop, slice_get, Some, IsTrue, refl};
ghost use Rattle.columnar_base.specs.Format.{Fits, representable};
ghost use Rattle.columnar_base.specs.RoomLaws.{Counted};
ghost use Rattle.columnar_core.specs.Store.{slices_in};
ghost use Rattle.columnar_primitive.specs.Mapped.{IsFlat};
ghost use Rattle.columnar_primitive.specs.MappedLaws.{elements_flat};

use columnar_core::bytes::Stored;
use columnar_core::container::Reserve;
use columnar_core::element::Element;
use columnar_core::store::DecodedStore;
use columnar_core::traits::{Column, Index};
use columnar_core::view::{View, element_in};

/// A column that stores each row in bytes of its own, in one slice: a `Vec` of elements, or a view of one.
pub trait Flat: Index + Stored {
    /// Returns row `index` of the column in accepted slices from `offset` on.
    ///
    /// # Requires
    /// A representable type, accepted slices, and `index` below the number of rows.
    fn row_in(store: &DecodedStore<'_>, offset: usize, index: usize) -> Self::Ref
        requires representable { IsTrue (representable Self.format) }
        requires fits { Fits Self.format offset (slices_in store.now) }
        requires in_range { index < length (Self.format.rows (Self.format.build (drop offset (slices_in store.now)))) }
        ensures row { slice_get (Self.format.rows (Self.format.build (drop offset (slices_in store.now)))) index ≡ Some (Self.Ref.meaning result) }
        ensures valid { Self.Ref.valid result };

    ghost flat: { IsFlat Self.format };

    // its validation takes no steps
    ghost still: { Self.format.turns ≡ 0 };
}

/// A column whose room depends only on the number of rows.
pub trait CountedRoom: Column {
    ghost counted_room: { (column : Self) → Counted (Self.room column) };
}

impl<T: Element> CountedRoom for Vec<T> {
    ghost counted_room = { λ v rs ss e h. rw e at h };
}

impl<'v, T: Element> CountedRoom for View<'v, T> {
    ghost counted_room = { λ v rs ss e h. h };
}

/// A column that reserves capacity for a number of rows.
pub trait ReserveCounted: Reserve {
    ghost counted_covers: { (room : Self.Room) → Counted (Self.covers room) };
}

impl<T: Element> ReserveCounted for Vec<T> {
    ghost counted_covers = { λ room rs ss e h. rw e at h };
}

impl<T: Element> Flat for Vec<T> {
    ghost flat = { elements_flat T.size T.align T.row_of T.element.positive };

    ghost still = { refl };

    fn row_in(store: &DecodedStore<'_>, offset: usize, index: usize) -> T {
        element_in(store.get(offset), index)
    }
}

impl<'v, T: Element> Flat for View<'v, T> {
    ghost flat = { elements_flat T.size T.align T.row_of T.element.positive };

    ghost still = { refl };

    fn row_in(store: &DecodedStore<'_>, offset: usize, index: usize) -> T {
        Vec::<T>::row_in(store, offset, index)
    }
}
