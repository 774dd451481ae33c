//! Iterating over consecutive stores.
ghost use Rattle.std.specs.Prelude.{◌≡◌};

use super::split::split_store;

/// Iterates over the consecutive stores with which bytes begin.
#[derive(Clone, Copy)]
pub struct Stores<'a> {
    pub(crate) bytes: &'a [u8],
}

impl<'a> Stores<'a> {
    ghost use Rattle.columnar_bytes.specs.StoresLeft.{rest_left};

    /// Returns the bytes after the last of the stores, which begin with no whole store. It is the same before and after
    /// each `next`.
    pub fn rest(&self) -> &'a [u8]
        ensures { result.now ≡ rest_left self.now }
    {
        let mut rest = self.bytes;
        while let Ok((_, after)) = split_store(rest) {
            rest = after;
        }
        rest
    }
}

impl<'a> Iterator for Stores<'a> {
    ghost use Rattle.columnar_bytes.specs.StoresLeft.{stores_left};
    ghost use Rattle.std.specs.Iterator.{YieldsFirstRef, item_count};

    type Item = &'a [u8];

    ghost next_gives = { YieldsFirstRef stores_left };

    ghost remaining = { item_count stores_left };

    /// Returns the next store, or `None` once the rest begins with no whole store, at every further call.
    fn next(&mut self) -> Option<&'a [u8]> {
        match split_store(self.bytes) {
            Ok((first, rest)) => {
                self.bytes = rest;
                Some(first)
            }
            Err(_) => None,
        }
    }
}
