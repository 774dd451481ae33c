// Columns of given rows.
ghost use Rattle.std.specs.Prelude.{IfOk};
ghost use Rattle.columnar_core.specs.Format.{IsSound};

use columnar_core::container::Storage;
use columnar_core::traits::Push;
use columnar_lookback::repeats::Repeats;
use std::alloc::Global;
use std::test::Fail;

pub(crate) type Held = Repeats<Vec<u64>>;

// Two runs of two, and one of one.
pub(crate) static RUNS: [u64; 5] = [1, 1, 2, 2, 1];

// Creates a column of these rows.
pub(crate) fn numbers<C: Storage + Push<u64> + Drop>(alloc: Global, rows: &[u64]) -> Result<C, Fail>
    ensures { IfOk result (λ c. IsSound C.format (C.content c)) }
{
    let mut column = C::empty(alloc);
    if Push::extend(&mut column, rows.iter().copied()).is_err() {
        return Err(Fail::from("refused"));
    }
    Ok(column)
}
