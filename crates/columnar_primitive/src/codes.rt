//! Columns of values that are stored as a number of a fixed width, their code.
ghost use Rattle.std.specs.Prelude.{◌≡◌, ℕ, ◌+◌, ◌*◌, ◌≤◌, Bool, true, false, length, IsTrue, drop};
ghost use Rattle.columnar_base.specs.Row.{Row};
ghost use Rattle.columnar_base.specs.Format.{Fits, IsSound, representable};
ghost use Rattle.columnar_core.specs.Store.{slices_in};
ghost use Rattle.columnar_primitive.specs.Mapped.{all_pass, mapped_format};
ghost use Rattle.columnar_primitive.specs.MappedLaws.{mapped_lawful, mapped_storable, same_mapped};

use crate::flat::{CountedRoom, Flat, ReserveCounted};
use crate::rule::{Rule, all_fit, all_fit_in};
use columnar_core::byte_slice::ByteSlice;
use columnar_core::bytes::{AsBytes, Check, FromBytes, Stored};
use columnar_core::container::{
    Borrow, Container, ContainerBytes, ExtendFrom, Reborrow, Reserve, Storage, Truncate,
};
use columnar_core::earlier::Kept;
use columnar_core::fault::{GrowError, StoreFault};
use columnar_core::store::DecodedStore;
use columnar_core::tally::Tally;
use columnar_core::traits::{Clear, Column, Index, Item, Len, Push, PushRef};
use std::alloc::Global;
use std::marker::PhantomData;
use std::ops::Range;

/// A value that is stored as a number of a fixed width, its code.
pub trait Coded: Copy + Item + Rule {
    // the row of a value, from the row of its code
    ghost row_of: { Row → Row };

    /// Returns the code of the value, which is pushed without a buffer.
    ///
    /// # Requires
    /// A valid value.
    fn code(self) -> Self::Code
        requires { Self.valid self }
        ensures row { row_of (Self.Code.meaning result) ≡ Self.meaning self }
        ensures fits { Self.is_code (Self.Code.meaning result) ≡ true }
        ensures valid { Self.Code.valid result }
        ensures unbuffered { Self.Code.unbuffered };

    /// Returns the value of the code.
    ///
    /// # Requires
    /// A code of the type.
    fn from_code(code: Self::Code) -> Self
        requires { Self.is_code (Self.Code.meaning code) ≡ true }
        ensures row { Self.meaning result ≡ row_of (Self.Code.meaning code) }
        ensures valid { Self.valid result };

    /// Returns `true` only if every row is the row of a code; then validation skips the codes. `false` is always
    /// correct, and costs a step for each row.
    fn always_fits() -> bool
        ensures { IsTrue result → (r : Row) → Self.is_code r ≡ true };
}

/// A column of values of type `T`, each stored as its code.
#[derive(Clone, Copy)]
pub struct Codes<CV, T> {
    /// The codes.
    pub values: CV,
    /// The type of the values.
    pub of: PhantomData<T>,
}

impl<CV: Column, T: Coded> Column for Codes<CV, T> {
    ghost format = { mapped_format CV.format T.row_of T.is_code };

    ghost content = { λ c. CV.content c.values };

    ghost room = { λ c. CV.room c.values };
}

impl<CV: Len, T: Coded> Len for Codes<CV, T> {
    fn len(&self) -> usize {
        self.values.len()
    }
}

impl<CV: Index<Ref = T::Code>, T: Coded> Index for Codes<CV, T> {
    type Ref = T;

    fn get(&self, index: usize) -> T {
        T::from_code(self.values.get(index))
    }
}

/// Reads rows through a reference, as from the column itself.
impl<'a, CV: Index<Ref = T::Code>, T: Coded> Index for &'a Codes<CV, T> {
    type Ref = T;

    fn get(&self, index: usize) -> T {
        Index::get(*self, index)
    }
}

impl<CV: Clear + CountedRoom, T: Coded> Clear for Codes<CV, T> {
    fn clear(&mut self) {
        self.values.clear();
    }
}

impl<T: Coded, CV: Flat + CountedRoom + Push<T::Code>> Push<T> for Codes<CV, T> {
    fn push(&mut self, item: T) -> Result<(), GrowError> {
        self.values.push(item.code())
    }
}

impl<'x, T: Coded, CV: Flat + CountedRoom + Push<T::Code>> Push<&'x T> for Codes<CV, T> {
    fn push(&mut self, item: &'x T) -> Result<(), GrowError> {
        self.push_ref(item)
    }
}

impl<T: Coded, CV: Flat + CountedRoom + Push<T::Code>> PushRef<T> for Codes<CV, T> {
    fn push_ref(&mut self, item: &T) -> Result<(), GrowError> {
        Push::<T>::push(self, *item)
    }
}

impl<CV: Truncate + CountedRoom, T: Coded> Truncate for Codes<CV, T> {
    ghost lawful = { mapped_lawful CV.format T.row_of T.is_code CV.lawful };

    fn truncate(&mut self, n: usize) {
        self.values.truncate(n);
    }
}

impl<CV: Storage + CountedRoom, T: Coded> Storage for Codes<CV, T> {
    fn empty(alloc: Global) -> Self {
        let values = CV::empty(alloc);
        Codes {
            values,
            of: PhantomData,
        }
    }

    fn duplicate(&self, alloc: Global) -> Result<Self, GrowError> {
        let values = self.values.duplicate(alloc)?;
        Ok(Codes {
            values,
            of: PhantomData,
        })
    }
}

impl<CV: Reserve, T: Coded> Reserve for Codes<CV, T> {
    type Room = CV::Room;

    ghost reserves = { CV.reserves };

    ghost covers = { CV.covers };

    fn no_room() -> CV::Room {
        CV::no_room()
    }

    fn reserve_room(&mut self, room: CV::Room) -> Result<(), GrowError> {
        self.values.reserve_room(room)
    }
}

impl<
    T: Coded,
    V: Column + Copy,
    CV: Flat + CountedRoom + ReserveCounted + ExtendFrom<V>,
> ExtendFrom<Codes<V, T>> for Codes<CV, T> {
    fn add_room(room: CV::Room, view: Codes<V, T>) -> CV::Room {
        CV::add_room(room, view.values)
    }

    fn extend_from_self(
        &mut self,
        view: Codes<V, T>,
        range: Range<usize>,
    ) -> Result<(), GrowError> {
        self.values.extend_from_self(view.values, range)
    }
}

impl<'a, T: Coded, CV: Borrow<'a, Ref = T::Code>> Borrow<'a> for Codes<CV, T> {
    type Ref = T;

    type Borrowed = Codes<CV::Borrowed, T>;

    type Parts = CV::Parts;

    ghost same_format = { same_mapped T.row_of T.is_code CV.same_format };

    fn borrow(&'a self) -> Codes<CV::Borrowed, T> {
        Codes {
            values: self.values.borrow(),
            of: PhantomData,
        }
    }
}

impl<
    'a,
    T: Coded,
    CV: Flat + CountedRoom + ReserveCounted + Container<'a, Ref = T::Code>,
> Container<'a> for Codes<CV, T> {}

impl<'b, T: Coded, V: Reborrow<'b>> Reborrow<'b> for Codes<V, T> {
    type Short = Codes<V::Short, T>;

    ghost same_short = { same_mapped T.row_of T.is_code V.same_short };

    fn reborrow(self) -> Codes<V::Short, T> {
        Codes {
            values: self.values.reborrow(),
            of: PhantomData,
        }
    }
}

impl<T: Coded, CV: Flat<Ref = T::Code>> Stored for Codes<CV, T> {
    ghost storable = { mapped_storable CV.format T.row_of T.is_code CV.storable };

    ghost counted = { λ c. CV.counted c.values };

    fn slice_count() -> usize {
        CV::slice_count()
    }

    fn element_sizes(sizes: &mut Vec<usize>) -> Result<(), GrowError> {
        CV::element_sizes(sizes)
    }

    fn judge_tallied<L>(
        store: &DecodedStore<'_>,
        offset: usize,
        tally: &mut Tally<L>,
    ) -> Result<(), StoreFault> {
        CV::judge_tallied(store, offset, tally)?;
        if T::always_fits() {
            return Ok(());
        }
        if all_fit_in::<T, CV, L>(store, offset, tally) {
            Ok(())
        } else {
            Err(StoreFault::Value(offset))
        }
    }

    fn rows_in(store: &DecodedStore<'_>, offset: usize) -> usize {
        CV::rows_in(store, offset)
    }
}

impl<T: Coded, CV: Check + Flat<Ref = T::Code> + Len> Check for Codes<CV, T> {
    fn check_from_tallied<L>(&self, from: usize, tally: &mut Tally<L>) -> Result<(), StoreFault> {
        self.values.check_from_tallied(from, tally)?;
        if T::always_fits() {
            return Ok(());
        }
        if all_fit::<T, CV, L>(&self.values, tally) {
            Ok(())
        } else {
            Err(StoreFault::Value(from))
        }
    }
}

impl<'s, T: Coded, CV: FromBytes<'s> + Flat<Ref = T::Code>> FromBytes<'s> for Codes<CV, T> {
    fn from_store(store: &DecodedStore<'s>, offset: &mut usize) -> Self {
        let values = CV::from_store(store, offset);
        Codes {
            values,
            of: PhantomData,
        }
    }
}

impl<'s, T: Coded, CV: AsBytes<'s> + Flat<Ref = T::Code>> AsBytes<'s> for Codes<CV, T> {
    fn get_byte_slice(&self, index: usize) -> (u64, ByteSlice<'s>) {
        self.values.get_byte_slice(index)
    }
}

impl<T: Coded, CV: ContainerBytes + Flat<Ref = T::Code>> ContainerBytes for Codes<CV, T> {
    fn byte_slice(&self, index: usize) -> ByteSlice<'_> {
        self.values.byte_slice(index)
    }

    fn load(alloc: Global, store: &DecodedStore<'_>, offset: usize) -> Result<Self, GrowError> {
        let values = CV::load(alloc, store, offset)?;
        Ok(Codes {
            values,
            of: PhantomData,
        })
    }
}

impl<T: Coded, CV: ContainerBytes + Flat<Ref = T::Code> + Drop> Kept for Codes<CV, T> {}
