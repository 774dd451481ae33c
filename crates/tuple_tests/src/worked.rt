// Tuples of one to ten columns of numbers, and the words of tuples with few rows.
ghost use Rattle.std.specs.Prelude.{IsTrue};
ghost use Rattle.columnar_core.specs.Format.{representable};

use columnar_bytes::indexed::encode;
use columnar_core::bytes::{AsBytes, Check};
use std::alloc::Global;

pub type One = (Vec<u64>,);

pub type Two = (Vec<u64>, Vec<u64>);

pub type Three = (Vec<u64>, Vec<u64>, Vec<u64>);

pub type Six = (Vec<u64>, Vec<u64>, Vec<u64>, Vec<u64>, Vec<u64>, Vec<u64>);

pub type Seven = (
    Vec<u64>,
    Vec<u64>,
    Vec<u64>,
    Vec<u64>,
    Vec<u64>,
    Vec<u64>,
    Vec<u64>,
);

pub type Ten = (
    Vec<u64>,
    Vec<u64>,
    Vec<u64>,
    Vec<u64>,
    Vec<u64>,
    Vec<u64>,
    Vec<u64>,
    Vec<u64>,
    Vec<u64>,
    Vec<u64>,
);

// One column with the row 1.
pub static ONE: [u64; 3] = [16, 24, 1];

// Two columns with the row 1, 2.
pub static TWO: [u64; 5] = [24, 32, 40, 1, 2];

// Three columns with the row 1, 2, 3.
pub static THREE: [u64; 7] = [32, 40, 48, 56, 1, 2, 3];

// Seven columns with the row 1 to 7.
pub static SEVEN: [u64; 15] = [64, 72, 80, 88, 96, 104, 112, 120, 1, 2, 3, 4, 5, 6, 7];

// Ten columns with the row 0 to 9.
pub static TEN: [u64; 21] = [
    88, 96, 104, 112, 120, 128, 136, 144, 152, 160, 168, 0, 1, 2, 3, 4, 5, 6, 7, 8, 9,
];

// Tests whether a view passes its own test, and is written as these words.
pub fn is_written<'a, V: AsBytes<'a> + Check>(alloc: Global, view: &V, words: &[u64]) -> bool
    requires { IsTrue (representable V.format) }
{
    let mut store = Vec::new(alloc);
    encode(&mut store, view).is_ok() && store.as_slice() == words && view.check().is_ok()
}
