//! Traits of containers: columns that grow, are cut, and are borrowed as views.
ghost use Rattle.std.specs.Prelude.{List, All, ◌≡◌, ◌+◌, ◌-◌, ◌<◌, ◌≤◌, ◌↔◌, length, [], take, drop, OnOk, IfOk, IfErr, IsTrue, IsSome, IfSome, IfNone, slice_get, Some};
ghost use Rattle.std.specs.Iterator.{IsFinite, Drains};
ghost use Rattle.columnar_base.specs.Row.{unit};
ghost use Rattle.columnar_base.specs.Format.{Fits, IsSound, representable, slices_of};
ghost use Rattle.columnar_core.specs.Store.{slices_in};
ghost use Rattle.columnar_core.specs.Slices.{bytes_in, alignment};
ghost use Rattle.columnar_base.specs.Change.{Copied, Refused, Stayed};
ghost use Rattle.columnar_base.specs.Room.{WasFull, Leaves, AddsRoom, rows_of_all};

use crate::byte_slice::ByteSlice;
use crate::bytes::Stored;
use crate::store::DecodedStore;
use columnar_base::fault::GrowError;
pub use columnar_base::storage::{Reserve, Storage, Truncate};
use columnar_base::traits::{Column, CopyAs, Index, Item, Len, Push, PushRef};
use std::alloc::Global;
use std::marker::PhantomData;
use std::ops::Range;

/// A column that copies ranges of rows from views of type `V`.
pub trait ExtendFrom<V: Column + Copy>: Truncate + Reserve {
    /// Adds to `room` the capacity that the slices of `view` need.
    fn add_room(room: Self::Room, view: V) -> Self::Room
        ensures { AddsRoom V.format (V.content view) (Self.covers room) (Self.covers result) };

    /// Appends rows that represent those of the range, one each and in order, or none. A front of the view, copied into
    /// an empty column, has equal rows.
    ///
    /// # Requires
    /// A well-formed column and view, and a range of the view's rows.
    ///
    /// # Errors
    /// `Memory` only if the column has no room for the rows; `Length` or `Offset` only if the column cannot hold the rows
    /// together. The rows and the lengths of all parts stay.
    fn extend_from_self(&mut self, view: V, range: Range<usize>) -> Result<(), GrowError>
        requires sound { IsSound Self.format (Self.content self.old) }
        requires view_sound { IsSound V.format (V.content view) }
        requires ordered { range.start ≤ range.«end» }
        requires in_range { range.«end» ≤ length (V.format.rows (V.content view)) }
        ensures ok { OnOk result (Copied Self.format (Self.content self.old) (Self.content self.new) range.start (take (range.«end» - range.start) (drop range.start (V.format.rows (V.content view))))) }
        ensures err { IfErr result (λ e. Refused Self.format (Self.content self.old) (Self.content self.new) (take (range.«end» - range.start) (drop range.start (V.format.rows (V.content view)))) e) }
        ensures wanted { IfErr result (WasFull (Self.room self.old) (take (range.«end» - range.start) (drop range.start (V.format.rows (V.content view))))) }
        ensures left { OnOk result (Leaves (Self.room self.old) (Self.room self.new) (take (range.«end» - range.start) (drop range.start (V.format.rows (V.content view))))) };

    /// Does what `extend_from_self` does. Returns `None` and changes nothing if the view does not have the range of
    /// rows.
    ///
    /// # Requires
    /// A well-formed column and view.
    ///
    /// # Errors
    /// As `extend_from_self`.
    final fn extend_checked(
        &mut self,
        view: V,
        range: Range<usize>,
    ) -> Option<Result<(), GrowError>>
    where
        V: Len,
        requires sound { IsSound Self.format (Self.content self.old) }
        requires view_sound { IsSound V.format (V.content view) }
        ensures range { IsSome result ↔ ((range.start ≤ range.«end») × (range.«end» ≤ length (V.format.rows (V.content view)))) }
        ensures ok { IfSome result (λ r. OnOk r (Copied Self.format (Self.content self.old) (Self.content self.new) range.start (take (range.«end» - range.start) (drop range.start (V.format.rows (V.content view)))))) }
        ensures err { IfSome result (λ r. IfErr r (λ e. Refused Self.format (Self.content self.old) (Self.content self.new) (take (range.«end» - range.start) (drop range.start (V.format.rows (V.content view)))) e)) }
        ensures wanted { IfSome result (λ r. IfErr r (WasFull (Self.room self.old) (take (range.«end» - range.start) (drop range.start (V.format.rows (V.content view)))))) }
        ensures left { IfSome result (λ r. OnOk r (Leaves (Self.room self.old) (Self.room self.new) (take (range.«end» - range.start) (drop range.start (V.format.rows (V.content view)))))) }
        ensures stays { IfNone result (Self.content self.new ≡ Self.content self.old) }
    {
        if range.start > range.end || range.end > view.len() {
            return None;
        }
        Some(self.extend_from_self(view, range))
    }

    /// Reserves capacity for the rows of all views. The rows and the lengths of all parts stay.
    ///
    /// # Requires
    /// A well-formed column; a finite iterator that can be called.
    ///
    /// # Errors
    /// `Memory`, and no other error.
    final fn reserve_for<I: Iterator<Item = V> + Drop>(&mut self, views: I) -> Result<(), GrowError>
        requires sound { IsSound Self.format (Self.content self.old) }
        requires callable { I.can_next views }
        requires finite { IsFinite (I.remaining views) }
        ensures stayed { Stayed Self.format (Self.content self.old) (Self.content self.new) }
        ensures memory { IfErr result (λ e. e ≡ GrowError.Memory) }
        ensures room { OnOk result ((vs : List V) × (Drains I.next_gives views vs × (Self.reserves → All (λ v. IsSound V.format (V.content v)) vs → Self.room self.new (rows_of_all V.format V.content vs)))) }
    {
        let mut room = Self::no_room();
        for view in views {
            room = Self::add_room(room, view);
        }
        self.reserve_room(room)
    }

    /// Returns a column without rows, with capacity for the rows of all views.
    ///
    /// # Requires
    /// A finite iterator that can be called.
    ///
    /// # Errors
    /// `Memory`, and no other error.
    final fn with_capacity_for<I: Iterator<Item = V> + Drop>(
        alloc: Global,
        views: I,
    ) -> Result<Self, GrowError>
    where
        Self: Storage,
        requires callable { I.can_next views }
        requires finite { IsFinite (I.remaining views) }
        ensures sound { IfOk result (λ c. IsSound Self.format (Self.content c)) }
        ensures rows { IfOk result (λ c. Self.format.rows (Self.content c) ≡ []) }
        ensures memory { IfErr result (λ e. e ≡ GrowError.Memory) }
        ensures room { IfOk result (λ c. (vs : List V) × (Drains I.next_gives views vs × (Self.reserves → All (λ v. IsSound V.format (V.content v)) vs → Self.room c (rows_of_all V.format V.content vs)))) }
    {
        let mut column = Self::empty(alloc);
        column.reserve_for(views)?;
        Ok(column)
    }
}

/// A column that is borrowed for a lifetime, as a view with the same content.
pub trait Borrow<'a>: Column {
    /// The type of a row of the view.
    type Ref: Copy + Item;

    /// The type of the view.
    type Borrowed: Copy + Len + Index<Ref = Self::Ref>;

    /// Names the types that the views of the parts introduce and that `Ref` and `Borrowed` omit. No value of it is ever
    /// made.
    type Parts: Item;

    /// Returns a view of the column, well-formed if the column is; allocates nothing.
    fn borrow(&'a self) -> Self::Borrowed
        ensures content { Self.Borrowed.content result ≡ Self.content self.now }
        ensures sound { IsSound Self.format (Self.content self.now) → IsSound Self.Borrowed.format (Self.Borrowed.content result) };

    ghost same_format: { Self.Borrowed.format ≡ Self.format };
}

/// Names two types of items, for `Parts` of a column of two parts. Nothing reads a value of it.
pub struct Named<A, B> {
    first: PhantomData<A>,
    second: PhantomData<B>,
}

impl<A: Item, B: Item> Item for Named<A, B> {
    ghost meaning = { λ n. unit };

    ghost valid = { λ n. Unit {0} };
}

/// A view that can be shortened to the lifetime `'b`; nothing else changes.
pub trait Reborrow<'b>: Column {
    /// The same view with the shorter lifetime.
    type Short: Column;

    fn reborrow(self) -> Self::Short
        ensures { Self.Short.content result ≡ Self.content self };

    ghost same_short: { Self.Short.format ≡ Self.format };
}

/// A row that can be shortened to the lifetime `'b`; nothing else changes.
pub trait ReborrowRef<'b>: Item {
    /// The same row with the shorter lifetime.
    type ShortRef: Item;

    fn reborrow_ref(self) -> Self::ShortRef
        requires { Self.valid self }
        ensures row { Self.ShortRef.meaning result ≡ Self.meaning self }
        ensures valid { Self.ShortRef.valid result };
}

/// All that a container does with the views and rows of one lifetime.
pub trait Container<'a>: Borrow<'a>
    + Clone
    + Storage
    + Push<<Self as Borrow<'a>>::Ref>
    + ExtendFrom<<Self as Borrow<'a>>::Borrowed> {}

/// A column whose borrowed rows are read as values of type `T`.
pub trait BorrowIndexAs<'a, T: Item>: Borrow<'a, Ref: CopyAs<T>> {}

impl<'a, T: Item, C: Borrow<'a, Ref: CopyAs<T>>> BorrowIndexAs<'a, T> for C {}

/// A container whose rows are pushed by reference to a `T` and read as values of type `T`.
pub trait PushIndexAs<'a, T: Item>: BorrowIndexAs<'a, T> + Container<'a> + PushRef<T> {}

impl<'a, T: Item, C: BorrowIndexAs<'a, T> + Container<'a> + PushRef<T>> PushIndexAs<'a, T> for C {}

/// A container that can be written to bytes and loaded from them. Its format of bytes is that of its view.
pub trait ContainerBytes: Stored {
    /// Returns slice `index` of the column, equal to its view's.
    ///
    /// # Requires
    /// A representable type, and `index` below its number of slices.
    fn byte_slice(&self, index: usize) -> ByteSlice<'_>
        requires representable { IsTrue (representable Self.format) }
        requires in_range { index < Self.format.count }
        ensures slice { slice_get (slices_of (Self.content self.now)) index ≡ Some (bytes_in result) }
        ensures aligned { slice_get Self.format.aligns index ≡ Some (alignment result) };

    /// Loads a column from accepted slices: the same rows and slices, each part copied as a whole.
    ///
    /// # Requires
    /// A representable type, and accepted slices from `offset` on.
    ///
    /// # Errors
    /// `Memory`, and no other error.
    fn load(alloc: Global, store: &DecodedStore<'_>, offset: usize) -> Result<Self, GrowError>
        requires representable { IsTrue (representable Self.format) }
        requires fits { Fits Self.format offset (slices_in store.now) }
        ensures content { IfOk result (λ c. Self.content c ≡ Self.format.build (drop offset (slices_in store.now))) }
        ensures memory { IfErr result (λ e. e ≡ GrowError.Memory) };
}
