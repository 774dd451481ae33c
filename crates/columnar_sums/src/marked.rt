//! Pushes a value to one column and its bit to another.
ghost use Rattle.std.specs.Prelude.{[], ◌∷◌, ◌⊎◌, length, OnOk, IfErr};
ghost use Rattle.columnar_core.specs.Row.{truth};
ghost use Rattle.columnar_core.specs.Format.{IsSound};
ghost use Rattle.columnar_core.specs.Change.{Took};
ghost use Rattle.columnar_sums.specs.RankColumns.{ranks_format, owned_ranks, ranked_bits};
ghost use Rattle.columnar_core.specs.Room.{WasFull, Leaves};
ghost use Rattle.columnar_bits.specs.Rooms.{count_room};
ghost use Rattle.columnar_sums.specs.Rooms.{held_top};
ghost use Rattle.columnar_sums.specs.Marked.{NeitherTook};

use crate::rank_select::RankSelect;
use columnar_core::container::Truncate;
use columnar_core::fault::GrowError;
use columnar_core::traits::{Item, Len, Push, PushRef};

type Held = RankSelect<Vec<u64>, Vec<u64>, [u64; 2]>;

/// Pushes a value and then its bit, or neither. If the push of the bit fails, the value is removed again.
///
/// # Requires
/// Both columns are well-formed, and `item` is valid.
#[inline(always)]
pub fn push_marked<T: Item, TC: Truncate + Push<T>>(
    values: &mut TC,
    item: T,
    indexes: &mut Held,
    bit: bool,
) -> Result<(), GrowError>
    requires values { IsSound TC.format (TC.content values.old) }
    requires valid { T.valid item }
    requires bits { IsSound ranks_format (owned_ranks indexes.old) }
    ensures value { OnOk result (Took TC.format (TC.content values.old) (TC.content values.new) (T.meaning item ∷ [])) }
    ensures bit { OnOk result (Took ranks_format (owned_ranks indexes.old) (owned_ranks indexes.new) (truth bit ∷ [])) }
    ensures err { IfErr result (λ e. NeitherTook TC.format ranks_format (TC.content values.old) (TC.content values.new) (owned_ranks indexes.old) (owned_ranks indexes.new) (T.meaning item ∷ []) (truth bit ∷ []) e) }
    ensures wanted { T.unbuffered → IfErr result (λ e. WasFull (TC.room values.old) (T.meaning item ∷ []) e ⊎ WasFull (count_room (length (ranked_bits indexes.old)) (held_top indexes.old)) (truth bit ∷ []) e) }
    ensures value_left { OnOk result (Leaves (TC.room values.old) (TC.room values.new) (T.meaning item ∷ [])) }
    ensures bit_left { OnOk result (Leaves (count_room (length (ranked_bits indexes.old)) (held_top indexes.old)) (count_room (length (ranked_bits indexes.new)) (held_top indexes.new)) (truth bit ∷ [])) }
{
    let before = values.len();
    values.push(item)?;
    match Push::<bool>::push(indexes, bit) {
        Ok(()) => Ok(()),
        Err(error) => {
            values.truncate(before);
            Err(error)
        }
    }
}

/// Does the same as `push_marked` with a value by reference.
///
/// # Requires
/// As `push_marked`.
#[inline(always)]
pub fn push_ref_marked<T: Item, TC: Truncate + PushRef<T>>(
    values: &mut TC,
    item: &T,
    indexes: &mut Held,
    bit: bool,
) -> Result<(), GrowError>
    requires values { IsSound TC.format (TC.content values.old) }
    requires valid { T.valid item.now }
    requires bits { IsSound ranks_format (owned_ranks indexes.old) }
    ensures value { OnOk result (Took TC.format (TC.content values.old) (TC.content values.new) (T.meaning item.now ∷ [])) }
    ensures bit { OnOk result (Took ranks_format (owned_ranks indexes.old) (owned_ranks indexes.new) (truth bit ∷ [])) }
    ensures err { IfErr result (λ e. NeitherTook TC.format ranks_format (TC.content values.old) (TC.content values.new) (owned_ranks indexes.old) (owned_ranks indexes.new) (T.meaning item.now ∷ []) (truth bit ∷ []) e) }
    ensures wanted { T.unbuffered → IfErr result (λ e. WasFull (TC.room values.old) (T.meaning item.now ∷ []) e ⊎ WasFull (count_room (length (ranked_bits indexes.old)) (held_top indexes.old)) (truth bit ∷ []) e) }
    ensures value_left { OnOk result (Leaves (TC.room values.old) (TC.room values.new) (T.meaning item.now ∷ [])) }
    ensures bit_left { OnOk result (Leaves (count_room (length (ranked_bits indexes.old)) (held_top indexes.old)) (count_room (length (ranked_bits indexes.new)) (held_top indexes.new)) (truth bit ∷ [])) }
{
    let rows = values.len();
    values.push_ref(item)?;
    match Push::<bool>::push(indexes, bit) {
        Ok(()) => Ok(()),
        Err(error) => {
            values.truncate(rows);
            Err(error)
        }
    }
}
