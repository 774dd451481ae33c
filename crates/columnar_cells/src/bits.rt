//! Writes of one bit in columns of truth values.
ghost use Rattle.std.specs.Prelude.{⊤, ◌≡◌, ◌<◌, ◌≤◌, ◌^◌, ℕ};
ghost use Rattle.columnar_cells.specs.Wrote.{HasBit};

use crate::set::{SetAny, SetRow};
use columnar_bits::bools::Bools;

// Returns the word with bit `at` set to `item`.
fn with_bit(word: u64, at: u64, item: bool) -> u64
    requires { at < 64 }
    ensures bit { HasBit result word at item }
    ensures below { (n : ℕ) → word < 2 ^ n → at < n → n ≤ 64 → result < 2 ^ n }
{
    if item {
        word | 1 << at
    } else {
        word & !(1 << at)
    }
}

impl SetRow<bool> for Bools<Vec<u64>, [u64; 2]> {
    ghost fits = { λ r item. ⊤ };

    fn may_set(&self, _index: usize, _item: &bool) -> bool {
        true
    }

    fn set_row(&mut self, index: usize, item: bool) {
        let word = index / 64;
        let at = (index % 64) as u64;
        if word < self.values.len() {
            self.values[word] = with_bit(self.values[word], at, item);
        } else {
            self.tail[0] = with_bit(self.tail[0], at, item);
        }
    }
}

impl SetAny<bool> for Bools<Vec<u64>, [u64; 2]> {
    ghost any = { λ r item. tt };
}
