//! Tuples of columns of equal length: columns of tuples.
ghost use Rattle.std.specs.Prelude.{◌≡◌, ◌≤◌, length, List, [], ◌∷◌, Ok, OnOk, IfOk, IfErr, IsOk};
ghost use Rattle.columnar_base.specs.Row.{Row, tuple};
ghost use Rattle.columnar_base.specs.Format.{both, IsSound};
ghost use Rattle.columnar_base.specs.Change.{Refused, Stayed, WasCut};
ghost use Rattle.columnar_base.specs.Tuples.{pair_format};
ghost use Rattle.columnar_base.specs.TupleLaws.{pair_lawful};
ghost use Rattle.columnar_base.specs.Entries.{Entry, Entered, Level, joined_entry, pushed};
ghost use Rattle.columnar_base.specs.Room.{WasFull, Leaves, KeepsRoom, pair_room};

use crate::fault::GrowError;
use crate::storage::{Reserve, Storage, Truncate};
use crate::traits::{Clear, Column, Index, Item, Len, Push, PushInto, PushRef};
use std::alloc::Global;

pub mod eight;
pub mod five;
pub mod four;
pub mod nine;
pub mod one;
pub mod seven;
pub mod six;
pub mod ten;
pub mod three;

/// Its row is the tuple of its parts' rows.
impl<S: Item, T: Item> Item for (S, T) {
    ghost meaning = { λ p. tuple (S.meaning p.0) (T.meaning p.1) };

    ghost valid = { λ p. S.valid p.0 × T.valid p.1 };

    ghost unbuffered = { S.unbuffered × T.unbuffered };
}

/// The slices of the first part, then those of the second. Each row is the tuple of the parts' rows.
impl<A: Column, B: Column> Column for (A, B) {
    ghost format = { pair_format A.format B.format };

    ghost content = { λ c. both (A.content c.0) (B.content c.1) };

    ghost room = { λ c. pair_room (A.room c.0) (B.room c.1) };
}

impl<A: Len, B: Len> Len for (A, B) {
    fn len(&self) -> usize {
        self.0.len()
    }
}

impl<A: Index, B: Index> Index for (A, B) {
    type Ref = (A::Ref, B::Ref);

    fn get(&self, index: usize) -> (A::Ref, B::Ref) {
        let first = self.0.get(index);
        let second = self.1.get(index);
        (first, second)
    }
}

/// Splits a pair of columns into its parts, both well-formed.
///
/// # Requires
/// A well-formed pair.
pub fn parts<A: Column, B: Column>(pair: (A, B)) -> (A, B)
    requires { IsSound (pair_format A.format B.format) (both (A.content pair.0) (B.content pair.1)) }
    ensures first { IsSound A.format (A.content result.0) }
    ensures second { IsSound B.format (B.content result.1) }
    ensures pair { result ≡ pair }
{
    pair
}

/// Reads rows through a reference: each row is the tuple of the parts' rows, read through references.
impl<'a, A, B> Index for &'a (A, B)
where
    A: Column,
    B: Column,
    &'a A: Index,
    &'a B: Index,
{
    type Ref = (<&'a A as Index>::Ref, <&'a B as Index>::Ref);

    fn get(&self, index: usize) -> (<&'a A as Index>::Ref, <&'a B as Index>::Ref) {
        let column: &'a (A, B) = *self;
        let first: &'a A = &column.0;
        let second: &'a B = &column.1;
        (first.get(index), second.get(index))
    }
}

impl<A: Clear, B: Clear> Clear for (A, B) {
    fn clear(&mut self) {
        self.0.clear();
        self.1.clear();
    }
}

impl<A: Truncate, B: Truncate> Truncate for (A, B) {
    ghost lawful = { pair_lawful A.format B.format A.lawful B.lawful };

    fn truncate(&mut self, n: usize) {
        self.0.truncate(n);
        self.1.truncate(n);
    }
}

impl<A: Storage, B: Storage> Storage for (A, B) {
    fn empty(alloc: Global) -> Self {
        let first = A::empty(alloc);
        let second = B::empty(alloc);
        (first, second)
    }

    fn duplicate(&self, alloc: Global) -> Result<Self, GrowError> {
        let first = self.0.duplicate(alloc)?;
        let second = self.1.duplicate(alloc)?;
        Ok((first, second))
    }
}

impl<A: Reserve, B: Reserve> Reserve for (A, B) {
    type Room = (A::Room, B::Room);

    ghost reserves = { A.reserves × B.reserves };

    ghost covers = { λ r. pair_room (A.covers r.0) (B.covers r.1) };

    fn no_room() -> (A::Room, B::Room) {
        (A::no_room(), B::no_room())
    }

    fn reserve_room(&mut self, room: (A::Room, B::Room)) -> Result<(), GrowError> {
        self.0.reserve_room(room.0)?;
        self.1.reserve_room(room.1)
    }
}

/// Takes every item with `PushInto`: tuples of items of the parts, by value or by reference.
impl<P: PushInto<(A, B)>, A: Column, B: Column> Push<P> for (A, B) {
    #[inline(always)]
    fn push(&mut self, item: P) -> Result<(), GrowError> {
        item.push_into(self)
    }
}

/// What one column receives, and how the column takes it.
pub trait Enter<C: Column> {
    // the rows to append
    ghost entry: { Self → Entry };

    // what it requires
    ghost valid: { Self → Type 0 };

    // `enter` allocates nothing but room for the rows
    ghost unbuffered: { Type 0 } = { Unit {0} };

    /// Appends rows that represent those of the entry, one each, or none.
    ///
    /// # Requires
    /// A well-formed column, and a valid entry.
    ///
    /// # Errors
    /// As `Push::push`. The rows and the lengths of all parts stay.
    fn enter(self, column: &mut C) -> Result<(), GrowError>
        requires sound { IsSound C.format (C.content column.old) }
        requires valid { Self.valid self }
        ensures ok { OnOk result (Entered C.format (C.content column.old) (C.content column.new) (Self.entry self)) }
        ensures err { IfErr result (λ e. Refused C.format (C.content column.old) (C.content column.new) (Self.entry self).rows e) }
        ensures wanted { Self.unbuffered → IfErr result (WasFull (C.room column.old) (Self.entry self).rows) }
        ensures left { OnOk result (Leaves (C.room column.old) (C.room column.new) (Self.entry self).rows) };
}

/// An item to push by value.
#[derive(Drop)]
pub struct ByValue<T>(pub T);

impl<T: Item, C: Push<T>> Enter<C> for ByValue<T> {
    ghost entry = { λ v. pushed (T.meaning v.0) };

    ghost valid = { λ v. T.valid v.0 };

    ghost unbuffered = { T.unbuffered };

    #[inline(always)]
    fn enter(self, column: &mut C) -> Result<(), GrowError> {
        column.push(self.0)
    }
}

/// An item to push by reference.
#[derive(Clone, Copy)]
pub struct ByRef<'x, T>(pub &'x T);

impl<'x, T: Item, C: PushRef<T>> Enter<C> for ByRef<'x, T> {
    ghost entry = { λ v. pushed (T.meaning v.0.now) };

    ghost valid = { λ v. T.valid v.0.now };

    ghost unbuffered = { T.unbuffered };

    #[inline(always)]
    fn enter(self, column: &mut C) -> Result<(), GrowError> {
        column.push_ref(self.0)
    }
}

/// Copies one more part, unless copying an earlier part failed.
///
/// # Requires
/// No error except `Memory` in `earlier`.
///
/// # Errors
/// The earlier error, or `Memory`.
pub fn duplicate_after<E: Drop, A: Storage>(
    earlier: Result<E, GrowError>,
    part: &A,
    alloc: Global,
) -> Result<(E, A), GrowError>
    requires { IfErr earlier (λ e. e ≡ GrowError.Memory) }
    ensures earlier { IfOk result (λ p. earlier ≡ Ok p.0) }
    ensures content { IfOk result (λ p. A.content p.1 ≡ A.content part.now) }
    ensures memory { IfErr result (λ e. e ≡ GrowError.Memory) }
{
    let earlier = earlier?;
    let copy = part.duplicate(alloc)?;
    Ok((earlier, copy))
}

/// Reserves capacity in one more part, unless an earlier part failed. Its rows stay.
///
/// # Requires
/// A well-formed part, and no error except `Memory` in `earlier`.
///
/// # Errors
/// The earlier error, or `Memory`.
pub fn reserve_after<A: Reserve>(
    earlier: Result<(), GrowError>,
    part: &mut A,
    room: A::Room,
) -> Result<(), GrowError>
    requires sound { IsSound A.format (A.content part.old) }
    requires memory { IfErr earlier (λ e. e ≡ GrowError.Memory) }
    ensures stayed { Stayed A.format (A.content part.old) (A.content part.new) }
    ensures memory { IfErr result (λ e. e ≡ GrowError.Memory) }
    ensures earlier { OnOk result (IsOk earlier) }
    ensures room { OnOk result (A.reserves → KeepsRoom (A.covers room) (A.room part.new)) }
{
    earlier?;
    part.reserve_room(room)
}

/// Cuts a part to its first `rows` rows after another part refused, and returns `error`.
///
/// # Requires
/// A well-formed part of at least `rows` rows.
#[cold]
#[inline(never)]
pub fn taken_back<A: Truncate>(part: &mut A, rows: usize, error: GrowError) -> GrowError
    requires sound { IsSound A.format (A.content part.old) }
    requires in_range { rows ≤ length (A.format.rows (A.content part.old)) }
    ensures cut { WasCut A.format (A.content part.old) (A.content part.new) rows }
    ensures error { result ≡ error }
{
    part.truncate(rows);
    error
}

/// Enters `p` into the first part and `q` into the second. If one refuses, neither changes.
///
/// # Requires
/// A well-formed pair, valid entries, and equally many rows for both parts, from the same start.
///
/// # Errors
/// The error of the part that refuses.
#[inline(always)]
pub fn enter_two<A: Truncate, B: Column, P: Enter<A>, Q: Enter<B> + Drop>(
    first: &mut A,
    second: &mut B,
    p: P,
    q: Q,
) -> Result<(), GrowError>
    requires sound { IsSound (pair_format A.format B.format) (both (A.content first.old) (B.content second.old)) }
    requires valid { P.valid p × Q.valid q }
    requires level { Level (P.entry p) (Q.entry q ∷ []) }
    ensures ok { OnOk result (Entered (pair_format A.format B.format) (both (A.content first.old) (B.content second.old)) (both (A.content first.new) (B.content second.new)) (joined_entry (P.entry p) (Q.entry q ∷ []))) }
    ensures err { IfErr result (λ e. Refused (pair_format A.format B.format) (both (A.content first.old) (B.content second.old)) (both (A.content first.new) (B.content second.new)) (joined_entry (P.entry p) (Q.entry q ∷ [])).rows e) }
    ensures wanted { P.unbuffered × Q.unbuffered → IfErr result (WasFull (pair_room (A.room first.old) (B.room second.old)) (joined_entry (P.entry p) (Q.entry q ∷ [])).rows) }
    ensures left { OnOk result (Leaves (pair_room (A.room first.old) (B.room second.old)) (pair_room (A.room first.new) (B.room second.new)) (joined_entry (P.entry p) (Q.entry q ∷ [])).rows) }
{
    let before = first.len();
    p.enter(first)?;
    match q.enter(second) {
        Ok(()) => Ok(()),
        Err(error) => Err(taken_back(first, before, error)),
    }
}

/// Pushes each field to its part. If one part refuses, neither changes.
impl<S: Item, T: Item + Drop, A: Truncate + Push<S>, B: Push<T>> PushInto<(A, B)> for (S, T) {
    #[inline(always)]
    fn push_into(self, column: &mut (A, B)) -> Result<(), GrowError> {
        let (first, second) = self;
        enter_two(
            &mut column.0,
            &mut column.1,
            ByValue(first),
            ByValue(second),
        )
    }
}

/// Pushes the fields by reference.
impl<'x, S: Item, T: Item, A: Truncate + PushRef<S>, B: PushRef<T>> PushInto<(A, B)>
    for &'x (S, T) {
    #[inline(always)]
    fn push_into(self, column: &mut (A, B)) -> Result<(), GrowError> {
        column.push_ref(self)
    }
}

impl<S: Item, T: Item, A: Truncate + PushRef<S>, B: PushRef<T>> PushRef<(S, T)> for (A, B) {
    #[inline(always)]
    fn push_ref(&mut self, item: &(S, T)) -> Result<(), GrowError> {
        enter_two(&mut self.0, &mut self.1, ByRef(&item.0), ByRef(&item.1))
    }
}
