//! Finds the least and the greatest row.
ghost use Rattle.std.specs.Prelude.{◌≡◌, ◌↔◌, false, [], All, Contains, IsNone, IfSome};
ghost use Rattle.std.specs.Ordering.{is_lt, is_gt};
ghost use Rattle.columnar_base.specs.Format.{IsSound};
ghost use Rattle.columnar_rows.specs.RowOrder.{row_cmp};

use columnar_base::traits::{Index, Len};
use columnar_rows::ordered::OrderedRow;

/// Finds the least row, the first of equal ones; `None` if there is no row.
pub fn min_row<S: Index<Ref: OrderedRow> + Len>(column: &S) -> Option<S::Ref>
    requires { IsSound S.format (S.content column.now) }
    ensures none { IsNone result ↔ (S.format.rows (S.content column.now) ≡ []) }
    ensures among { IfSome result (λ least. Contains (S.format.rows (S.content column.now)) (S.Ref.meaning least)) }
    ensures least { IfSome result (λ least. All (λ row. is_lt (row_cmp row (S.Ref.meaning least)) ≡ false) (S.format.rows (S.content column.now))) }
    ensures valid { IfSome result S.Ref.valid }
{
    let count = column.len();
    if count == 0 {
        return None;
    }
    let mut least = column.get(0);
    for i in 1..count {
        let row = column.get(i);
        if row.compare_row(&least).is_lt() {
            least = row;
        }
    }
    Some(least)
}

/// Finds the greatest row, the last of equal ones; `None` if there is no row.
pub fn max_row<S: Index<Ref: OrderedRow> + Len>(column: &S) -> Option<S::Ref>
    requires { IsSound S.format (S.content column.now) }
    ensures none { IsNone result ↔ (S.format.rows (S.content column.now) ≡ []) }
    ensures among { IfSome result (λ greatest. Contains (S.format.rows (S.content column.now)) (S.Ref.meaning greatest)) }
    ensures greatest { IfSome result (λ greatest. All (λ row. is_gt (row_cmp row (S.Ref.meaning greatest)) ≡ false) (S.format.rows (S.content column.now))) }
    ensures valid { IfSome result S.Ref.valid }
{
    let count = column.len();
    if count == 0 {
        return None;
    }
    let mut greatest = column.get(0);
    for i in 1..count {
        let row = column.get(i);
        if !row.compare_row(&greatest).is_lt() {
            greatest = row;
        }
    }
    Some(greatest)
}
