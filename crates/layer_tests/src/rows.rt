// Columns of given rows.
ghost use Rattle.std.specs.Prelude.{All, IfOk};
ghost use Rattle.columnar_core.specs.Format.{IsSound};

use columnar_core::container::Storage;
use columnar_core::traits::{Item, Push};
use std::alloc::Global;
use std::test::Fail;
use test_support::columns::takes;

// Creates a column and pushes these rows one by one.
pub(crate) fn pushed<T: Item + Copy, C: Storage + Push<T>>(
    alloc: Global,
    rows: &[T],
) -> Result<C, Fail>
    requires { All T.valid rows.now }
    ensures { IfOk result (λ c. IsSound C.format (C.content c)) }
{
    let mut column = C::empty(alloc);
    for i in 0..rows.len() {
        if !takes(&mut column, rows[i]) {
            return Err(Fail::from("refused"));
        }
    }
    Ok(column)
}
