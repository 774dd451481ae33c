//! Growing and cutting a stash. Bytes are first loaded into a separate column, so that a refusal keeps the variant too.
ghost use Rattle.std.specs.Prelude.{◌≡◌, ◌≢◌, ◌-◌, ◌≤◌, List, length, map, [], ◌∷◌, take, drop, All, IfOk, IfErr, OnOk, OnErr};
ghost use Rattle.std.specs.Iterator.{IsFinite, HoldsAlong, Drains, Yields};
ghost use Rattle.columnar_core.specs.Format.{IsSound};
ghost use Rattle.columnar_core.specs.Change.{Took, Copied, Refused, Stayed, StoppedAt, WasCut};
ghost use Rattle.columnar_core.specs.Room.{WasFull, Leaves, Frees, rows_of_all};

use super::{ByteStore, Stash};
use columnar_core::bytes::Stored;
use columnar_core::container::{ContainerBytes, ExtendFrom, Storage, Truncate};
use columnar_core::fault::GrowError;
use columnar_core::traits::{Clear, Column, Item, Push, PushRef};
use std::alloc::Global;
use std::ops::Range;

impl<C: Stored + Storage, B: ByteStore> Clear for Stash<C, B> {
    ghost use Rattle.columnar_bytes.specs.Stashes.{stash_content, stash_room, variant_of, typed};

    /// Removes all rows, and leaves a column; allocates nothing.
    fn clear(&mut self)
        ensures sound { IsSound C.format (stash_content self.new) }
        ensures rows { C.format.rows (stash_content self.new) ≡ [] }
        ensures freed { Frees C.format (stash_content self.old) 0 (stash_room self.old) (stash_room self.new) }
        ensures variant { variant_of self.new ≡ typed }
    {
        match self {
            Stash::Typed(column) => column.clear(),
            Stash::Bytes(checked) => {
                let column = C::empty(checked.alloc);
                *self = Stash::Typed(column);
            }
            Stash::Align(checked) => {
                let column = C::empty(checked.alloc);
                *self = Stash::Typed(column);
            }
        }
    }
}

impl<T: Item + Drop, C: ContainerBytes + Drop + Push<T>, B: ByteStore> Push<T> for Stash<C, B> {
    ghost use Rattle.columnar_bytes.specs.Stashes.{stash_content, stash_room, variant_of, typed};

    /// Pushes to the column; bytes are first loaded.
    ///
    /// # Requires
    /// A well-formed stash, and a valid item.
    ///
    /// # Errors
    /// As `Push::push`, or `Memory` if the bytes cannot be loaded. The variant stays, and bytes stay.
    fn push(&mut self, item: T) -> Result<(), GrowError>
        requires sound { IsSound C.format (stash_content self.old) }
        requires valid { T.valid item }
        ensures ok { OnOk result (Took C.format (stash_content self.old) (stash_content self.new) (T.meaning item ∷ [])) }
        ensures err { IfErr result (λ e. Refused C.format (stash_content self.old) (stash_content self.new) (T.meaning item ∷ []) e) }
        ensures wanted { T.unbuffered → IfErr result (WasFull (stash_room self.old) (T.meaning item ∷ [])) }
        ensures left { OnOk result (Leaves (stash_room self.old) (stash_room self.new) (T.meaning item ∷ [])) }
        ensures typed { OnOk result (variant_of self.new ≡ typed) }
        ensures variant { OnErr result (variant_of self.new ≡ variant_of self.old) }
        ensures bytes { OnErr result (variant_of self.old ≢ typed → self.new ≡ self.old) }
    {
        if let Stash::Typed(column) = self {
            return column.push(item);
        }
        let mut column = self.aside()?;
        column.push(item)?;
        *self = Stash::Typed(column);
        Ok(())
    }
}

impl<T: Item, C: ContainerBytes + Drop + PushRef<T>, B: ByteStore> PushRef<T> for Stash<C, B> {
    ghost use Rattle.columnar_bytes.specs.Stashes.{stash_content, stash_room, variant_of, typed};

    /// Pushes by reference, as a push of `&T` does.
    ///
    /// # Requires
    /// A well-formed stash, and a valid item.
    ///
    /// # Errors
    /// As `Push::push`, or `Memory` if the bytes cannot be loaded. The variant stays, and bytes stay.
    fn push_ref(&mut self, item: &T) -> Result<(), GrowError>
        requires sound { IsSound C.format (stash_content self.old) }
        requires valid { T.valid item.now }
        ensures ok { OnOk result (Took C.format (stash_content self.old) (stash_content self.new) (T.meaning item.now ∷ [])) }
        ensures err { IfErr result (λ e. Refused C.format (stash_content self.old) (stash_content self.new) (T.meaning item.now ∷ []) e) }
        ensures wanted { T.unbuffered → IfErr result (WasFull (stash_room self.old) (T.meaning item.now ∷ [])) }
        ensures left { OnOk result (Leaves (stash_room self.old) (stash_room self.new) (T.meaning item.now ∷ [])) }
        ensures typed { OnOk result (variant_of self.new ≡ typed) }
        ensures variant { OnErr result (variant_of self.new ≡ variant_of self.old) }
        ensures bytes { OnErr result (variant_of self.old ≢ typed → self.new ≡ self.old) }
    {
        if let Stash::Typed(column) = self {
            return column.push_ref(item);
        }
        let mut column = self.aside()?;
        column.push_ref(item)?;
        *self = Stash::Typed(column);
        Ok(())
    }
}

impl<C: ContainerBytes + Drop, B: ByteStore> Stash<C, B> {
    ghost use Rattle.columnar_bytes.specs.Stashes.{stash_content, stash_room, variant_of, typed};

    /// Makes a stash of a column without rows, with capacity for the rows of all views.
    ///
    /// # Requires
    /// A finite iterator that can be called.
    ///
    /// # Errors
    /// `Memory`, and no other error.
    pub fn with_capacity_for<V: Column + Copy, I: Iterator<Item = V> + Drop>(
        alloc: Global,
        views: I,
    ) -> Result<Self, GrowError>
    where
        C: Storage + ExtendFrom<V>,
        requires callable { I.can_next views }
        requires finite { IsFinite (I.remaining views) }
        ensures variant { IfOk result (λ s. variant_of s ≡ typed) }
        ensures sound { IfOk result (λ s. IsSound C.format (stash_content s)) }
        ensures rows { IfOk result (λ s. C.format.rows (stash_content s) ≡ []) }
        ensures room { IfOk result (λ s. (vs : List V) × (Drains I.next_gives views vs × (C.reserves → All (λ v. IsSound V.format (V.content v)) vs → stash_room s (rows_of_all V.format V.content vs)))) }
        ensures memory { IfErr result (λ e. e ≡ GrowError.Memory) }
    {
        let column = C::with_capacity_for(alloc, views)?;
        Ok(Stash::Typed(column))
    }

    /// Reserves capacity in the column for the rows of all views; bytes are first loaded. The rows stay.
    ///
    /// # Requires
    /// A well-formed stash; a finite iterator that can be called.
    ///
    /// # Errors
    /// `Memory`, and no other error. The variant stays, and bytes stay.
    pub fn reserve_for<V: Column + Copy, I: Iterator<Item = V> + Drop>(
        &mut self,
        views: I,
    ) -> Result<(), GrowError>
    where
        C: ExtendFrom<V>,
        requires sound { IsSound C.format (stash_content self.old) }
        requires callable { I.can_next views }
        requires finite { IsFinite (I.remaining views) }
        ensures stayed { Stayed C.format (stash_content self.old) (stash_content self.new) }
        ensures room { OnOk result ((vs : List V) × (Drains I.next_gives views vs × (C.reserves → All (λ v. IsSound V.format (V.content v)) vs → stash_room self.new (rows_of_all V.format V.content vs)))) }
        ensures typed { OnOk result (variant_of self.new ≡ typed) }
        ensures variant { OnErr result (variant_of self.new ≡ variant_of self.old) }
        ensures bytes { OnErr result (variant_of self.old ≢ typed → self.new ≡ self.old) }
        ensures memory { IfErr result (λ e. e ≡ GrowError.Memory) }
    {
        if let Stash::Typed(column) = self {
            return column.reserve_for(views);
        }
        let mut column = self.aside()?;
        column.reserve_for(views)?;
        *self = Stash::Typed(column);
        Ok(())
    }

    /// Appends rows that represent those of the range, or none, as the column's own call; bytes are first loaded.
    ///
    /// # Requires
    /// A well-formed stash and view, and a range of the view's rows.
    ///
    /// # Errors
    /// As `ExtendFrom::extend_from_self`. The variant stays, and bytes stay.
    pub fn extend_from_self<V: Column + Copy>(
        &mut self,
        view: V,
        range: Range<usize>,
    ) -> Result<(), GrowError>
    where
        C: ExtendFrom<V>,
        requires sound { IsSound C.format (stash_content self.old) }
        requires view_sound { IsSound V.format (V.content view) }
        requires ordered { range.start ≤ range.«end» }
        requires in_range { range.«end» ≤ length (V.format.rows (V.content view)) }
        ensures ok { OnOk result (Copied C.format (stash_content self.old) (stash_content self.new) range.start (take (range.«end» - range.start) (drop range.start (V.format.rows (V.content view))))) }
        ensures err { IfErr result (λ e. Refused C.format (stash_content self.old) (stash_content self.new) (take (range.«end» - range.start) (drop range.start (V.format.rows (V.content view)))) e) }
        ensures wanted { IfErr result (WasFull (stash_room self.old) (take (range.«end» - range.start) (drop range.start (V.format.rows (V.content view))))) }
        ensures left { OnOk result (Leaves (stash_room self.old) (stash_room self.new) (take (range.«end» - range.start) (drop range.start (V.format.rows (V.content view))))) }
        ensures typed { OnOk result (variant_of self.new ≡ typed) }
        ensures variant { OnErr result (variant_of self.new ≡ variant_of self.old) }
        ensures bytes { OnErr result (variant_of self.old ≢ typed → self.new ≡ self.old) }
    {
        if let Stash::Typed(column) = self {
            return column.extend_from_self(view, range);
        }
        let mut column = self.aside()?;
        column.extend_from_self(view, range)?;
        *self = Stash::Typed(column);
        Ok(())
    }
}

impl<C: ContainerBytes + Drop, B: ByteStore> Stash<C, B> {
    ghost use Rattle.columnar_bytes.specs.Stashes.{stash_content, stash_room, variant_of, typed};

    /// Pushes the items in order. Once an item is taken, the stash is a column. Without items the variant stays, and
    /// bytes stay.
    ///
    /// # Requires
    /// A well-formed stash; a finite iterator of valid items that can be called.
    ///
    /// # Errors
    /// The first error of a push. The items before the refused one stay in the stash. If the first item is refused, the
    /// variant stays, and bytes stay.
    pub fn extend<T: Item + Drop, I: Iterator<Item = T> + Drop>(
        &mut self,
        items: I,
    ) -> Result<(), GrowError>
    where
        C: Push<T>,
        requires sound { IsSound C.format (stash_content self.old) }
        requires callable { I.can_next items }
        requires finite { IsFinite (I.remaining items) }
        requires valid { HoldsAlong I.next_gives items (All T.valid) }
        ensures ok { OnOk result ((xs : List T) × (Drains I.next_gives items xs × Took C.format (stash_content self.old) (stash_content self.new) (map T.meaning xs))) }
        ensures err { IfErr result (λ e. (xs : List T) × (rest : I) × (Yields I.next_gives items xs rest × StoppedAt C.format (stash_content self.old) (stash_content self.new) (map T.meaning xs) e)) }
        ensures wanted { T.unbuffered → IfErr result (λ e. (xs : List T) × (rest : I) × (Yields I.next_gives items xs rest × (StoppedAt C.format (stash_content self.old) (stash_content self.new) (map T.meaning xs) e × WasFull (stash_room self.old) (map T.meaning xs) e))) }
        ensures left { OnOk result ((xs : List T) × (Drains I.next_gives items xs × (Took C.format (stash_content self.old) (stash_content self.new) (map T.meaning xs) × Leaves (stash_room self.old) (stash_room self.new) (map T.meaning xs)))) }
        ensures variant { C.format.rows (stash_content self.new) ≡ C.format.rows (stash_content self.old) → variant_of self.new ≡ variant_of self.old }
        ensures bytes { C.format.rows (stash_content self.new) ≡ C.format.rows (stash_content self.old) → variant_of self.old ≢ typed → self.new ≡ self.old }
        ensures typed { C.format.rows (stash_content self.new) ≢ C.format.rows (stash_content self.old) → variant_of self.new ≡ typed }
    {
        for item in items {
            self.push(item)?;
        }
        Ok(())
    }
}

impl<C: ContainerBytes + Truncate + Drop, B: ByteStore> Stash<C, B> {
    ghost use Rattle.columnar_bytes.specs.Stashes.{stash_content, stash_room, variant_of, typed};

    /// Appends rows that represent the items, one each and in order, or none.
    ///
    /// # Requires
    /// A well-formed stash, and valid items.
    ///
    /// # Errors
    /// As `PushRef::push_slice`. The variant stays, and bytes stay.
    pub fn push_slice<T: Item>(&mut self, items: &[T]) -> Result<(), GrowError>
    where
        C: PushRef<T>,
        requires sound { IsSound C.format (stash_content self.old) }
        requires valid { All T.valid items.now }
        ensures ok { OnOk result (Took C.format (stash_content self.old) (stash_content self.new) (map T.meaning items.now)) }
        ensures err { IfErr result (λ e. Refused C.format (stash_content self.old) (stash_content self.new) (map T.meaning items.now) e) }
        ensures wanted { T.unbuffered → IfErr result (WasFull (stash_room self.old) (map T.meaning items.now)) }
        ensures left { OnOk result (Leaves (stash_room self.old) (stash_room self.new) (map T.meaning items.now)) }
        ensures typed { OnOk result (variant_of self.new ≡ typed) }
        ensures variant { OnErr result (variant_of self.new ≡ variant_of self.old) }
        ensures bytes { OnErr result (variant_of self.old ≢ typed → self.new ≡ self.old) }
    {
        if let Stash::Typed(column) = self {
            return column.push_slice(items);
        }
        let mut column = self.aside()?;
        column.push_slice(items)?;
        *self = Stash::Typed(column);
        Ok(())
    }

    /// Keeps the first `n` rows; bytes are first loaded.
    ///
    /// # Requires
    /// A well-formed stash of at least `n` rows.
    ///
    /// # Errors
    /// `Memory`, and only for bytes; the stash stays.
    pub fn truncate(&mut self, n: usize) -> Result<(), GrowError>
        requires sound { IsSound C.format (stash_content self.old) }
        requires in_range { n ≤ length (C.format.rows (stash_content self.old)) }
        ensures ok { OnOk result (WasCut C.format (stash_content self.old) (stash_content self.new) n) }
        ensures freed { OnOk result (Frees C.format (stash_content self.old) n (stash_room self.old) (stash_room self.new)) }
        ensures typed { OnOk result (variant_of self.new ≡ typed) }
        ensures stays { OnErr result (self.new ≡ self.old) }
        ensures bytes { OnErr result (variant_of self.old ≢ typed) }
        ensures memory { IfErr result (λ e. e ≡ GrowError.Memory) }
    {
        if let Stash::Typed(column) = self {
            column.truncate(n);
            return Ok(());
        }
        let mut column = self.aside()?;
        column.truncate(n);
        *self = Stash::Typed(column);
        Ok(())
    }
}
