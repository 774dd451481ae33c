//! The length of a column's encoding.
ghost use Rattle.std.specs.Prelude.{◌≡◌, ◌+◌, ◌/◌, IsTrue};
ghost use Rattle.columnar_core.specs.Format.{representable, slices_of};
ghost use Rattle.columnar_core.specs.Words.{word_count, byte_count};

use super::slices::{byte_slice, slice_count};
use columnar_core::bytes::AsBytes;

// The greatest number of words whose bytes a `usize` can count.
const MAX_WORDS: usize = usize::MAX / 8;

/// Returns the number of words that hold `len` bytes.
pub fn words_for(len: usize) -> usize
    ensures { result ≡ (len + 7) / 8 }
{
    if len % 8 == 0 { len / 8 } else { len / 8 + 1 }
}

/// Returns the length of the column's encoding in 64-bit words, or `None` if and only if its bytes would exceed 2^64 -
/// 1.
///
/// # Requires
/// A representable type.
pub fn length_in_words<'a, S: AsBytes<'a>>(item: &S) -> Option<usize>
    requires { IsTrue (representable S.format) }
    ensures { result ≡ word_count (slices_of (S.content item.now)) }
{
    let count = slice_count(item);
    if count >= MAX_WORDS {
        return None;
    }
    let mut total = count + 1;
    for i in 0..count {
        let more = words_for(byte_slice(item, i).len());
        if more > MAX_WORDS - total {
            return None;
        }
        total += more;
    }
    Some(total)
}

/// Returns the length of the column's encoding in bytes, or `None` if and only if it would exceed 2^64 - 1.
///
/// # Requires
/// A representable type.
pub fn length_in_bytes<'a, S: AsBytes<'a>>(item: &S) -> Option<usize>
    requires { IsTrue (representable S.format) }
    ensures { result ≡ byte_count (slices_of (S.content item.now)) }
{
    match length_in_words(item) {
        Some(words) => Some(8 * words),
        None => None,
    }
}
