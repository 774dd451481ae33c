//! Copies of ranges of values from views of the columns of a sum type, one range for each variant.
ghost use Rattle.std.specs.Prelude.{◌≡◌, ℕ, ◌<◌, ◌≤◌, length, slice_index, OnOk, IfErr, refl};
ghost use Rattle.columnar_core.specs.Format.{IsSound};
ghost use Rattle.columnar_variants.specs.VariantCopies.{BankCopied, BankDenied};
ghost use Rattle.columnar_variants.specs.BankCopies.{ranges};
ghost use Rattle.columnar_variants.specs.BankLaws.{same_size};

use super::ColumnBank;
use super::grow::{ReserveBank, first_of, others_of};
use columnar_core::container::ExtendFrom;
use columnar_core::fault::GrowError;
use columnar_core::traits::Column;

/// Columns that can copy ranges of values from the columns of a view.
pub trait ExtendBank<V: ColumnBank + Drop>: ReserveBank {
    /// Adds the room that the view needs.
    fn add_room_of(room: Self::Room, view: V) -> Self::Room;

    /// Copies the values of each variant from the number in `firsts` up to that in `lasts`. If one column fails, all
    /// columns keep their old values.
    ///
    /// # Requires
    /// The columns and the view are well-formed, and each range is within its column of the view.
    fn extend_columns(
        &mut self,
        view: V,
        firsts: &[usize],
        lasts: &[usize],
    ) -> Result<(), GrowError>
        requires sound { IsSound Self.bank.sides (Self.contents self.old) }
        requires view_sound { IsSound V.bank.sides (V.contents view) }
        requires ordered { (v : ℕ) → v < V.bank.size → slice_index firsts.now v ≤ slice_index lasts.now v }
        requires in_range { (v : ℕ) → v < V.bank.size → slice_index lasts.now v ≤ length (V.bank.table (V.contents view) v) }
        ensures ok { OnOk result (BankCopied Self.bank (Self.contents self.old) (Self.contents self.new) (slice_index firsts.now) (ranges (V.bank.table (V.contents view)) (slice_index firsts.now) (slice_index lasts.now))) }
        ensures err { IfErr result (λ e. BankDenied Self.bank (Self.contents self.old) (Self.contents self.new) (ranges (V.bank.table (V.contents view)) (slice_index firsts.now) (slice_index lasts.now)) e) };

    // a view has as many columns
    ghost level: { V.bank.size ≡ Self.bank.size };
}

impl<V: Column + Copy, A: ExtendFrom<V>> ExtendBank<(V,)> for (A,) {
    ghost level = { refl };

    fn add_room_of(room: (A::Room,), view: (V,)) -> (A::Room,) {
        (A::add_room(room.0, view.0),)
    }

    fn extend_columns(
        &mut self,
        view: (V,),
        firsts: &[usize],
        lasts: &[usize],
    ) -> Result<(), GrowError> {
        self.0
            .extend_from_self(view.0, first_of(firsts)..first_of(lasts))
    }
}

impl<V: Column + Copy, W: ColumnBank + Drop, A: ExtendFrom<V>, B: ExtendBank<W>> ExtendBank<(V, W)>
    for (A, B) {
    ghost level = { same_size B.level };

    fn add_room_of(room: (A::Room, B::Room), view: (V, W)) -> (A::Room, B::Room) {
        (A::add_room(room.0, view.0), B::add_room_of(room.1, view.1))
    }

    fn extend_columns(
        &mut self,
        view: (V, W),
        firsts: &[usize],
        lasts: &[usize],
    ) -> Result<(), GrowError> {
        let before = self.0.len();
        self.0
            .extend_from_self(view.0, first_of(firsts)..first_of(lasts))?;
        match self
            .1
            .extend_columns(view.1, others_of(firsts), others_of(lasts))
        {
            Ok(()) => Ok(()),
            Err(error) => {
                self.0.truncate(before);
                Err(error)
            }
        }
    }
}
