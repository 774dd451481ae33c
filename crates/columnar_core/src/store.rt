//! The slices of a store, read in place.
ghost use Rattle.std.specs.Prelude.{[], ◌≡◌, ◌+◌, ◌*◌, ◌<◌, ◌≤◌, ◌^◌, length, slice_index_or};
ghost use Rattle.columnar_core.specs.Bytes.{word, rounded};
ghost use Rattle.columnar_core.specs.Frame.{IsStore, framed_slices};

/// Returns word `index` of the bytes, lowest byte first.
///
/// # Requires
/// All eight bytes of the word.
pub fn word_in_bytes(bytes: &[u8], index: usize) -> u64
    requires { 8 * index + 8 ≤ length bytes.now }
    ensures { result ≡ word bytes.now index }
{
    let at = 8 * index;
    u64::from_le_bytes([
        bytes[at],
        bytes[at + 1],
        bytes[at + 2],
        bytes[at + 3],
        bytes[at + 4],
        bytes[at + 5],
        bytes[at + 6],
        bytes[at + 7],
    ])
}

/// Returns the least multiple of eight that is at least `n`.
///
/// # Requires
/// `n + 7` below 2^64.
pub fn round_up(n: usize) -> usize
    requires { n + 7 < 2 ^ 64 }
    ensures { result ≡ rounded n }
{
    8 * ((n + 7) / 8)
}

/// Bytes with a legal structure: whole words that begin with a table, whose slices lie within the bytes.
#[derive(Clone, Copy)]
pub struct DecodedStore<'a> {
    bytes: &'a [u8],
    ghost legal: { IsStore bytes.now },
}

impl<'a> DecodedStore<'a> {
    ghost use Rattle.columnar_core.specs.Store.{slices_in};

    /// Opens the store in these bytes.
    ///
    /// # Requires
    /// Bytes with a legal structure, as `validate_structure` tests.
    pub fn new(bytes: &'a [u8]) -> Self
        requires { IsStore bytes.now }
        ensures { slices_in result ≡ framed_slices bytes.now }
    {
        DecodedStore { bytes }
    }

    /// Returns the number of slices.
    pub fn len(&self) -> usize
        ensures { result ≡ length (slices_in self.now) }
    {
        word_in_bytes(self.bytes, 0) as usize / 8 - 1
    }

    /// Returns the bytes of slice `index`, without padding.
    ///
    /// # Requires
    /// `index` below the number of slices.
    pub fn get(&self, index: usize) -> &'a [u8]
        requires { index < length (slices_in self.now) }
        ensures { result.now ≡ slice_index_or (slices_in self.now) index [] }
    {
        let start = round_up(word_in_bytes(self.bytes, index) as usize);
        let end = word_in_bytes(self.bytes, index + 1) as usize;
        &self.bytes[start..end]
    }
}

/// Iterates over the slices of a store in order.
#[derive(Clone, Copy)]
pub struct Decode<'a> {
    pub(crate) store: DecodedStore<'a>,
    pub(crate) index: usize,
}

impl<'a> Decode<'a> {
    ghost use Rattle.columnar_core.specs.Store.{slices_in, slices_left};

    /// Iterates over all slices of the store.
    pub fn new(store: DecodedStore<'a>) -> Self
        ensures { slices_left result ≡ slices_in store.entry }
    {
        Decode { store, index: 0 }
    }
}

impl<'a> Iterator for Decode<'a> {
    ghost use Rattle.columnar_core.specs.Store.{slices_left};
    ghost use Rattle.std.specs.Iterator.{YieldsFirstRef, item_count};

    type Item = &'a [u8];

    ghost next_gives = { YieldsFirstRef slices_left };

    ghost remaining = { item_count slices_left };

    /// Returns the next slice, or `None` after the last one, at every further call.
    fn next(&mut self) -> Option<&'a [u8]> {
        if self.index >= self.store.len() {
            return None;
        }
        let slice = self.store.get(self.index);
        self.index += 1;
        Some(slice)
    }
}
