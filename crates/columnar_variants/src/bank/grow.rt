//! Operations of owned columns of a sum type other than pushes.
ghost use Rattle.std.specs.Prelude.{◌≡◌, ℕ, ◌+◌, ◌<◌, ◌≤◌, length, slice_index, IfOk, IfErr};
ghost use Rattle.columnar_core.specs.Format.{IsSound};
ghost use Rattle.columnar_variants.specs.Variants.{BankCut, BankStayed, IsLawfulBank};
ghost use Rattle.columnar_variants.specs.VariantRows.{IsBare};
ghost use Rattle.columnar_variants.specs.LawfulVariantLaws.{leaf_lawful, join_lawful};

use super::{ColumnBank, LenBank};
use columnar_core::container::{Reserve, Storage, Truncate};
use columnar_core::fault::GrowError;
use columnar_core::traits::Clear;
use std::alloc::Global;

// Returns the number for the first variant; 0 if there is none.
pub(super) fn first_of(numbers: &[usize]) -> usize
    ensures { result ≡ slice_index numbers.now 0 }
{
    if numbers.len() == 0 { 0 } else { numbers[0] }
}

// Returns the numbers for the other variants.
pub(super) fn others_of(numbers: &[usize]) -> &[usize]
    ensures { (v : ℕ) → slice_index result.now v ≡ slice_index numbers.now (v + 1) }
{
    if numbers.len() == 0 {
        numbers
    } else {
        &numbers[1..]
    }
}

/// Columns that can remove all their values.
pub trait ClearBank: ColumnBank {
    /// Removes all values.
    fn clear_columns(&mut self)
        ensures sound { IsSound Self.bank.sides (Self.contents self.new) }
        ensures bare { IsBare Self.bank (Self.contents self.new) };
}

impl<A: Clear> ClearBank for (A,) {
    fn clear_columns(&mut self) {
        self.0.clear();
    }
}

impl<A: Clear, B: ClearBank> ClearBank for (A, B) {
    fn clear_columns(&mut self) {
        self.0.clear();
        self.1.clear_columns();
    }
}

/// Columns that can be truncated.
pub trait CutBank: ColumnBank {
    /// Keeps in each column as many first values as `fronts` says for its variant. Allocates nothing.
    ///
    /// # Requires
    /// The columns are well-formed, and each has at least as many values as `fronts` says.
    fn cut_columns(&mut self, fronts: &[usize])
        requires sound { IsSound Self.bank.sides (Self.contents self.old) }
        requires in_range { (v : ℕ) → v < Self.bank.size → slice_index fronts.now v ≤ length (Self.bank.table (Self.contents self.old) v) }
        ensures { BankCut Self.bank (Self.contents self.old) (Self.contents self.new) (slice_index fronts.now) };

    ghost lawful: { IsLawfulBank Self.bank };
}

impl<A: Truncate> CutBank for (A,) {
    ghost lawful = { leaf_lawful A.format A.lawful };

    fn cut_columns(&mut self, fronts: &[usize]) {
        self.0.truncate(first_of(fronts));
    }
}

impl<A: Truncate, B: CutBank> CutBank for (A, B) {
    ghost lawful = { join_lawful A.format B.bank A.lawful B.lawful };

    fn cut_columns(&mut self, fronts: &[usize]) {
        self.0.truncate(first_of(fronts));
        self.1.cut_columns(others_of(fronts));
    }
}

/// Columns that can be created empty, and duplicated.
pub trait StorageBank: ColumnBank {
    /// Creates columns without values. Allocates nothing.
    fn empty_columns(alloc: Global) -> Self
        ensures sound { IsSound Self.bank.sides (Self.contents result) }
        ensures bare { IsBare Self.bank (Self.contents result) };

    /// Copies the columns into new memory.
    fn duplicate_columns(&self, alloc: Global) -> Result<Self, GrowError>
        ensures contents { IfOk result (λ c. Self.contents c ≡ Self.contents self.now) }
        ensures memory { IfErr result (λ e. e ≡ GrowError.Memory) };
}

impl<A: Storage> StorageBank for (A,) {
    fn empty_columns(alloc: Global) -> Self {
        (A::empty(alloc),)
    }

    fn duplicate_columns(&self, alloc: Global) -> Result<Self, GrowError> {
        let first = self.0.duplicate(alloc)?;
        Ok((first,))
    }
}

impl<A: Storage, B: StorageBank> StorageBank for (A, B) {
    fn empty_columns(alloc: Global) -> Self {
        let first = A::empty(alloc);
        let others = B::empty_columns(alloc);
        (first, others)
    }

    fn duplicate_columns(&self, alloc: Global) -> Result<Self, GrowError> {
        let first = self.0.duplicate(alloc)?;
        let others = self.1.duplicate_columns(alloc)?;
        Ok((first, others))
    }
}

/// Columns that can reserve space.
pub trait ReserveBank: ColumnBank {
    /// Space for values of each variant.
    type Room: Copy;

    /// Returns no space.
    fn no_room_in_columns() -> Self::Room;

    /// Reserves space. The values stay the same.
    ///
    /// # Requires
    /// The columns are well-formed.
    fn reserve_columns(&mut self, room: Self::Room) -> Result<(), GrowError>
        requires { IsSound Self.bank.sides (Self.contents self.old) }
        ensures stayed { BankStayed Self.bank (Self.contents self.old) (Self.contents self.new) }
        ensures memory { IfErr result (λ e. e ≡ GrowError.Memory) };
}

impl<A: Reserve> ReserveBank for (A,) {
    type Room = (A::Room,);

    fn no_room_in_columns() -> (A::Room,) {
        (A::no_room(),)
    }

    fn reserve_columns(&mut self, room: (A::Room,)) -> Result<(), GrowError> {
        self.0.reserve_room(room.0)
    }
}

impl<A: Reserve, B: ReserveBank> ReserveBank for (A, B) {
    type Room = (A::Room, B::Room);

    fn no_room_in_columns() -> (A::Room, B::Room) {
        (A::no_room(), B::no_room_in_columns())
    }

    fn reserve_columns(&mut self, room: (A::Room, B::Room)) -> Result<(), GrowError> {
        self.0.reserve_room(room.0)?;
        self.1.reserve_columns(room.1)
    }
}
