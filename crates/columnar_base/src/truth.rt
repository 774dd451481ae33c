//! Booleans, options and results as rows.
ghost use Rattle.std.specs.Prelude.{ℕ};
ghost use Rattle.columnar_base.specs.Row.{truth};
ghost use Rattle.columnar_base.specs.OptionRows.{option_row, option_valid};
ghost use Rattle.columnar_base.specs.ResultRows.{result_row, result_valid};

use crate::traits::Item;

impl Item for bool {
    ghost meaning = { λ b. truth b };

    ghost valid = { λ b. Unit {0} };
}

impl<T: Item> Item for Option<T> {
    ghost meaning = { option_row T.meaning };

    ghost valid = { option_valid T.valid };

    ghost unbuffered = { T.unbuffered };
}

impl<T: Item, E: Item> Item for Result<T, E> {
    ghost meaning = { result_row T.meaning E.meaning };

    ghost valid = { result_valid T.valid E.valid };

    ghost unbuffered = { T.unbuffered × E.unbuffered };
}
