//! Traits of owned columns that do not involve views.
ghost use Rattle.std.specs.Prelude.{◌≡◌, ℕ, ◌≤◌, ◌<◌, ◌↔◌, length, List, [], OnOk, IfOk, IfErr, IsNone, IfNone, OnSome};
ghost use Rattle.columnar_base.specs.Row.{Row};
ghost use Rattle.columnar_base.specs.Format.{Content, Format, IsSound, IsLawful};
ghost use Rattle.columnar_base.specs.Change.{Stayed, WasCut};
ghost use Rattle.columnar_base.specs.Room.{Frees, KeepsRoom};

use crate::fault::GrowError;
use crate::traits::{Clear, Column, Len};
use std::alloc::Global;

/// A column that can be cut to its first rows. A column of several parts requires only this trait to roll a part back
/// after another part refuses.
pub trait Truncate: Len {
    /// Keeps the first `n` rows; allocates nothing. There is room for the removed rows again.
    ///
    /// # Requires
    /// A well-formed column of at least `n` rows.
    fn truncate(&mut self, n: usize)
        requires sound { IsSound Self.format (Self.content self.old) }
        requires in_range { n ≤ length (Self.format.rows (Self.content self.old)) }
        ensures cut { WasCut Self.format (Self.content self.old) (Self.content self.new) n }
        ensures freed { Frees Self.format (Self.content self.old) n (Self.room self.old) (Self.room self.new) };

    /// Keeps the first `n` rows; allocates nothing. Returns `None` and changes nothing if there are fewer than `n`
    /// rows.
    ///
    /// # Requires
    /// A well-formed column.
    final fn truncate_checked(&mut self, n: usize) -> Option<()>
        requires { IsSound Self.format (Self.content self.old) }
        ensures none { IsNone result ↔ (length (Self.format.rows (Self.content self.old)) < n) }
        ensures cut { OnSome result (WasCut Self.format (Self.content self.old) (Self.content self.new) n) }
        ensures stays { IfNone result (Self.content self.new ≡ Self.content self.old) }
    {
        if n > self.len() {
            return None;
        }
        self.truncate(n);
        Some(())
    }

    ghost lawful: { IsLawful Self.format };
}

/// What an owned column does without views.
pub trait Storage: Truncate + Clear + Drop {
    /// Returns a column without rows.
    fn empty(alloc: Global) -> Self
        ensures sound { IsSound Self.format (Self.content result) }
        ensures rows { Self.format.rows (Self.content result) ≡ [] };

    /// Copies the column: the same rows in the same slices.
    ///
    /// # Errors
    /// `Memory`, and no other error.
    fn duplicate(&self, alloc: Global) -> Result<Self, GrowError>
        ensures content { IfOk result (λ c. Self.content c ≡ Self.content self.now) }
        ensures memory { IfErr result (λ e. e ≡ GrowError.Memory) };
}

/// A column that can reserve capacity for rows.
pub trait Reserve: Column {
    /// How much capacity the slices of columns need together.
    type Room: Copy;

    // a reservation promises room for rows; ⊥ if the rows of a view can need more than its slices
    ghost reserves: { Type 0 };

    // so much capacity is enough for the rows
    ghost covers: { Self.Room → List Row → Type 0 };

    /// Returns the capacity of no columns.
    fn no_room() -> Self::Room
        ensures { Self.reserves → Self.covers result [] };

    /// Reserves capacity. The rows and the lengths of all parts stay.
    ///
    /// # Requires
    /// A well-formed column.
    ///
    /// # Errors
    /// `Memory`, and no other error.
    fn reserve_room(&mut self, room: Self::Room) -> Result<(), GrowError>
        requires { IsSound Self.format (Self.content self.old) }
        ensures room { OnOk result (Self.reserves → KeepsRoom (Self.covers room) (Self.room self.new)) }
        ensures stayed { Stayed Self.format (Self.content self.old) (Self.content self.new) }
        ensures memory { IfErr result (λ e. e ≡ GrowError.Memory) };
}
