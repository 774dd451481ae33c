//! Runs of rows, copied one after another into a column.
ghost use Rattle.std.specs.Prelude.{◌≡◌, ◌-◌, ◌≤◌, length, take, drop, OnOk, IfErr};
ghost use Rattle.columnar_base.specs.Format.{IsSound};
ghost use Rattle.columnar_base.specs.Change.{Took, Refused};
ghost use Rattle.columnar_base.specs.Room.{WasFull, Leaves};

use columnar_base::fault::GrowError;
use columnar_base::traits::Column;
use columnar_core::container::ExtendFrom;
use std::ops::Range;

/// Copies the rows of the range, if there are any.
pub(crate) fn copy_run<V: Column + Copy, C: ExtendFrom<V>>(
    column: &mut C,
    view: V,
    range: Range<usize>,
) -> Result<(), GrowError>
    requires sound { IsSound C.format (C.content column.old) }
    requires view_sound { IsSound V.format (V.content view) }
    requires ordered { range.start ≤ range.«end» }
    requires in_range { range.«end» ≤ length (V.format.rows (V.content view)) }
    ensures ok { OnOk result (Took C.format (C.content column.old) (C.content column.new) (take (range.«end» - range.start) (drop range.start (V.format.rows (V.content view))))) }
    ensures err { IfErr result (λ e. Refused C.format (C.content column.old) (C.content column.new) (take (range.«end» - range.start) (drop range.start (V.format.rows (V.content view)))) e) }
    ensures wanted { IfErr result (WasFull (C.room column.old) (take (range.«end» - range.start) (drop range.start (V.format.rows (V.content view))))) }
    ensures left { OnOk result (Leaves (C.room column.old) (C.room column.new) (take (range.«end» - range.start) (drop range.start (V.format.rows (V.content view))))) }
{
    if range.start == range.end {
        return Ok(());
    }
    column.extend_from_self(view, range)
}
