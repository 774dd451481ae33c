//! Operations of the tests on a type, each as one call.
ghost use Rattle.std.specs.Prelude.{All, IsTrue};
ghost use Rattle.columnar.specs.Format.{representable};

use columnar::bytes::stash::Stash;
use columnar::fault::{GrowError, OwnError};
use columnar::{
    Borrow, Columnar, ContainerBytes, ContainerOf, FromRow, Index, Item, Len, PushRef, Ref,
    SliceNames, Storage,
};
use std::alloc::Global;

/// Tests whether the items, as a column, have these words.
pub fn are_words<T: Columnar>(alloc: Global, items: &[T], words: &[u64]) -> bool
where
    T::Container: ContainerBytes + Storage + PushRef<T>,
    requires representable { IsTrue (representable T.Container.format) }
    requires valid { All T.valid items.now }
{
    let Ok(column) = T::column_of(alloc, items) else {
        return false;
    };
    let mut bytes = Vec::new(alloc);
    if Stash::<T::Container, Vec<u8>>::Typed(column)
        .write_bytes(&mut bytes)
        .is_err()
    {
        return false;
    }
    let mut wanted = Vec::new(alloc);
    for word in words {
        if wanted.extend_from_slice(&word.to_le_bytes()).is_err() {
            return false;
        }
    }
    bytes.as_slice() == wanted.as_slice()
}

/// Tests whether the items can be read from a column of them. `slot` owns the column.
pub fn come_back<'a, T: FromRow<Ref<'a, T>> + PartialEq>(
    alloc: Global,
    slot: &'a mut Option<ContainerOf<T>>,
    items: &[T],
) -> bool
where
    T::Container: Storage + PushRef<T> + Borrow<'a>,
    requires { All T.valid items.now }
{
    come_back_or_lack_memory(alloc, slot, items) == Outcome::Same
}

/// The outcome of converting items to a column and reading them again.
#[derive(Clone, Copy, Debug, PartialEq, Eq)]
pub enum Outcome {
    /// The same items were read.
    Same,
    /// Other items were read, or an error other than an allocation failure occurred.
    Other,
    /// An allocation failed.
    NoMemory,
}

/// Does the same as `come_back`, for tests in which an allocation may fail.
pub fn come_back_or_lack_memory<'a, T: FromRow<Ref<'a, T>> + PartialEq>(
    alloc: Global,
    slot: &'a mut Option<ContainerOf<T>>,
    items: &[T],
) -> Outcome
where
    T::Container: Storage + PushRef<T> + Borrow<'a>,
    requires { All T.valid items.now }
{
    let column = match T::column_of(alloc, items) {
        Ok(column) => column,
        Err(GrowError::Memory) => return Outcome::NoMemory,
        Err(_) => return Outcome::Other,
    };
    let column: &'a ContainerOf<T> = slot.insert(column);
    let view = column.borrow();
    for index in 0..items.len().min(view.len()) {
        match T::into_owned(alloc, view.get(index)) {
            Ok(value) => {
                if value != items[index] {
                    return Outcome::Other;
                }
            }
            Err(OwnError::Memory) => return Outcome::NoMemory,
            Err(_) => return Outcome::Other,
        }
    }
    if view.len() == items.len() {
        Outcome::Same
    } else {
        Outcome::Other
    }
}

/// Tests whether numbers from an iterator, by reference and by value, become the columns of these numbers.
pub fn are_made_by_each(alloc: Global, items: &[u64]) -> bool {
    let Ok(lent) = u64::as_columns(alloc, items.iter()) else {
        return false;
    };
    let Ok(values) = Vec::from_slice(alloc, items) else {
        return false;
    };
    let Ok(given) = u64::into_columns(alloc, values.into_iter()) else {
        return false;
    };
    lent.as_slice() == items && given.as_slice() == items
}

/// Returns why a row has no value of the type, if it has none.
pub fn refusal_of<R: Item, T: FromRow<R>>(alloc: Global, row: R) -> Option<OwnError>
    requires { R.valid row }
{
    match T::into_owned(alloc, row) {
        Ok(_value) => None,
        Err(error) => Some(error),
    }
}

/// Tests whether the column of a type has bytes, and accepts values of the type by reference.
pub fn is_columnar<T: Columnar>() -> bool
where
    T::Container: ContainerBytes + PushRef<T>,
{
    true
}

/// Tests whether these are the names of the type's slices, each followed by a space.
pub fn has_names<C: SliceNames>(alloc: Global, expected: &str) -> bool {
    names_or_lack_memory::<C>(alloc, expected) == Outcome::Same
}

/// Does the same as `has_names`, for tests in which an allocation may fail.
pub fn names_or_lack_memory<C: SliceNames>(alloc: Global, expected: &str) -> Outcome {
    let names = match C::slice_names(alloc) {
        Ok(names) => names,
        Err(GrowError::Memory) => return Outcome::NoMemory,
        Err(_) => return Outcome::Other,
    };
    let mut rest = expected;
    for name in names.iter() {
        match rest.strip_prefix(name.as_str()) {
            Some(after) => rest = after.strip_prefix(" ").unwrap_or("?"),
            None => return Outcome::Other,
        }
    }
    if rest.is_empty() {
        Outcome::Same
    } else {
        Outcome::Other
    }
}
