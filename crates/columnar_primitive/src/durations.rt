//! Columns of durations.
ghost use Rattle.std.specs.Prelude.{◌≡◌, ℕ, ◌+◌, ◌-◌, ◌*◌, ◌/◌, ◌%◌, ◌^◌, ◌<◌, ◌≤◌, ◌++◌, [], ◌∷◌, length, take, drop, OnOk, OnErr, IfOk, IfErr, IsTrue, true};
ghost use Rattle.std.specs.Duration.{as_nanos};
ghost use Rattle.columnar_base.specs.Row.{duration};
ghost use Rattle.columnar_base.specs.Format.{both, IsSound, slices_of};
ghost use Rattle.columnar_base.specs.Change.{Refused, Took};
ghost use Rattle.columnar_core.specs.Room.{WasFull, Leaves};
ghost use Rattle.columnar_base.specs.TwoPartsLaws.{two_counted};
ghost use Rattle.columnar_primitive.specs.Durations.{durations_format, is_part_second};
ghost use Rattle.columnar_primitive.specs.DurationLaws.{durations_lawful, durations_storable, same_durations};

use crate::flat::{CountedRoom, Flat, ReserveCounted};
use crate::rule::{Rule, all_fit, all_fit_in};
use columnar_core::byte_slice::ByteSlice;
use columnar_core::bytes::{AsBytes, Check, FromBytes, Stored};
use columnar_core::container::{
    Borrow, Container, ContainerBytes, ExtendFrom, Reborrow, Reserve, Storage, Truncate,
};
use columnar_core::earlier::Kept;
use columnar_core::fault::{GrowError, StoreFault};
use columnar_core::store::DecodedStore;
use columnar_core::tally::Tally;
use columnar_core::traits::{Clear, Column, Index, Len, Push, PushRef};
use columnar_core::two::{
    byte_slice_of_two, check_two, judge_two, load_two, sizes_of_two, slice_of_two,
};
use std::alloc::Global;
use std::ops::Range;
use std::time::Duration;

/// A column of durations: whole seconds and remaining nanoseconds.
#[derive(Clone, Copy, PartialEq)]
pub struct Durations<SC = Vec<u64>, NC = Vec<u32>> {
    /// The whole seconds.
    pub seconds: SC,
    /// The remaining nanoseconds, less than a second.
    pub nanoseconds: NC,
}

/// Nanoseconds are less than a second.
struct PartSecond;

impl Rule for PartSecond {
    type Code = u32;

    ghost is_code = { is_part_second };

    fn fits(code: u32) -> bool {
        code < 1_000_000_000
    }
}

impl<SC: Column, NC: Column> Column for Durations<SC, NC> {
    ghost format = { durations_format SC.format NC.format };

    ghost content = { λ c. both (SC.content c.seconds) (NC.content c.nanoseconds) };

    ghost room = { λ c rs. SC.room c.seconds rs × NC.room c.nanoseconds rs };
}

impl<SC: Len, NC: Len> Len for Durations<SC, NC> {
    fn len(&self) -> usize {
        self.seconds.len()
    }
}

impl<SC: Index<Ref = u64>, NC: Index<Ref = u32>> Index for Durations<SC, NC> {
    type Ref = Duration;

    fn get(&self, index: usize) -> Duration {
        let seconds = self.seconds.get(index);
        let nanoseconds = self.nanoseconds.get(index);
        duration_of(seconds, nanoseconds)
    }
}

/// Reads rows through a reference, as from the column itself.
impl<'a, SC: Index<Ref = u64>, NC: Index<Ref = u32>> Index for &'a Durations<SC, NC> {
    type Ref = Duration;

    fn get(&self, index: usize) -> Duration {
        Index::get(*self, index)
    }
}

// Returns the duration of the seconds and nanoseconds; the latter are less than a second.
fn duration_of(seconds: u64, nanoseconds: u32) -> Duration
    requires { nanoseconds % 2 ^ 32 < 1000000000 }
    ensures seconds { as_nanos result / 1000000000 ≡ seconds % 2 ^ 64 }
    ensures nanoseconds { as_nanos result % 1000000000 ≡ nanoseconds % 2 ^ 32 }
{
    Duration::new(seconds, nanoseconds)
}

impl<SC: Clear + CountedRoom, NC: Clear + CountedRoom> Clear for Durations<SC, NC> {
    fn clear(&mut self) {
        self.seconds.clear();
        self.nanoseconds.clear();
    }
}

impl<SC: Truncate + CountedRoom, NC: Truncate + CountedRoom> Truncate for Durations<SC, NC> {
    ghost lawful = { durations_lawful SC.format NC.format SC.lawful NC.lawful };

    fn truncate(&mut self, n: usize) {
        self.seconds.truncate(n);
        self.nanoseconds.truncate(n);
    }
}

impl<SC: Storage + CountedRoom, NC: Storage + CountedRoom> Storage for Durations<SC, NC> {
    fn empty(alloc: Global) -> Self {
        let seconds = SC::empty(alloc);
        let nanoseconds = NC::empty(alloc);
        Durations {
            seconds,
            nanoseconds,
        }
    }

    fn duplicate(&self, alloc: Global) -> Result<Self, GrowError> {
        let seconds = self.seconds.duplicate(alloc)?;
        let nanoseconds = self.nanoseconds.duplicate(alloc)?;
        Ok(Durations {
            seconds,
            nanoseconds,
        })
    }
}

impl<SC: Reserve, NC: Reserve> Reserve for Durations<SC, NC> {
    type Room = (SC::Room, NC::Room);

    ghost reserves = { SC.reserves × NC.reserves };

    ghost covers = { λ r rs. SC.covers r.0 rs × NC.covers r.1 rs };

    fn no_room() -> (SC::Room, NC::Room) {
        (SC::no_room(), NC::no_room())
    }

    fn reserve_room(&mut self, room: (SC::Room, NC::Room)) -> Result<(), GrowError> {
        self.seconds.reserve_room(room.0)?;
        self.nanoseconds.reserve_room(room.1)
    }
}

impl<SC: Flat + CountedRoom + Truncate + Push<u64>, NC: Flat + CountedRoom + Push<u32>> Durations<
    SC,
    NC,
> {
    /// Appends the duration of the seconds and nanoseconds.
    ///
    /// # Requires
    /// A well-formed column, and less than 10^9 nanoseconds.
    ///
    /// # Errors
    /// As `Push::push`. The rows and the lengths of all parts stay.
    pub fn push_parts(&mut self, seconds: u64, nanoseconds: u32) -> Result<(), GrowError>
        requires sound { IsSound (durations_format SC.format NC.format) (both (SC.content self.old.seconds) (NC.content self.old.nanoseconds)) }
        requires short { nanoseconds < 1000000000 }
        ensures ok { OnOk result (Took (durations_format SC.format NC.format) (both (SC.content self.old.seconds) (NC.content self.old.nanoseconds)) (both (SC.content self.new.seconds) (NC.content self.new.nanoseconds)) (duration seconds nanoseconds ∷ [])) }
        ensures err { IfErr result (λ e. Refused (durations_format SC.format NC.format) (both (SC.content self.old.seconds) (NC.content self.old.nanoseconds)) (both (SC.content self.new.seconds) (NC.content self.new.nanoseconds)) (duration seconds nanoseconds ∷ []) e) }
        ensures wanted { IfErr result (WasFull (λ rs. SC.room self.old.seconds rs × NC.room self.old.nanoseconds rs) (duration seconds nanoseconds ∷ [])) }
        ensures left { OnOk result (Leaves (λ rs. SC.room self.old.seconds rs × NC.room self.old.nanoseconds rs) (λ rs. SC.room self.new.seconds rs × NC.room self.new.nanoseconds rs) (duration seconds nanoseconds ∷ [])) }
    {
        let before = self.seconds.len();
        self.seconds.push(seconds)?;
        match self.nanoseconds.push(nanoseconds) {
            Ok(()) => Ok(()),
            Err(error) => {
                self.seconds.truncate(before);
                Err(error)
            }
        }
    }
}

impl<SC: Flat + CountedRoom + Truncate + Push<u64>, NC: Flat + CountedRoom + Push<u32>> Push<
    Duration,
> for Durations<SC, NC> {
    fn push(&mut self, item: Duration) -> Result<(), GrowError> {
        self.push_parts(item.as_secs(), item.subsec_nanos())
    }
}

impl<'x, SC: Flat + CountedRoom + Truncate + Push<u64>, NC: Flat + CountedRoom + Push<u32>> Push<
    &'x Duration,
> for Durations<SC, NC> {
    fn push(&mut self, item: &'x Duration) -> Result<(), GrowError> {
        self.push_ref(item)
    }
}

impl<SC: Flat + CountedRoom + Truncate + Push<u64>, NC: Flat + CountedRoom + Push<u32>> PushRef<
    Duration,
> for Durations<SC, NC> {
    fn push_ref(&mut self, item: &Duration) -> Result<(), GrowError> {
        Push::<Duration>::push(self, *item)
    }
}

impl<
    V: Column + Copy,
    W: Column + Copy,
    SC: Flat + CountedRoom + ReserveCounted + ExtendFrom<V>,
    NC: Flat + CountedRoom + ReserveCounted + ExtendFrom<W>,
> ExtendFrom<Durations<V, W>> for Durations<SC, NC> {
    fn add_room(room: (SC::Room, NC::Room), view: Durations<V, W>) -> (SC::Room, NC::Room) {
        (
            SC::add_room(room.0, view.seconds),
            NC::add_room(room.1, view.nanoseconds),
        )
    }

    fn extend_from_self(
        &mut self,
        view: Durations<V, W>,
        range: Range<usize>,
    ) -> Result<(), GrowError> {
        let rows = self.seconds.len();
        let start = range.start;
        let end = range.end;
        self.seconds.extend_from_self(view.seconds, start..end)?;
        match self
            .nanoseconds
            .extend_from_self(view.nanoseconds, start..end)
        {
            Ok(()) => Ok(()),
            Err(error) => {
                self.seconds.truncate(rows);
                Err(error)
            }
        }
    }
}

impl<'a, SC: Borrow<'a, Ref = u64>, NC: Borrow<'a, Ref = u32>> Borrow<'a> for Durations<SC, NC> {
    type Ref = Duration;

    type Borrowed = Durations<SC::Borrowed, NC::Borrowed>;

    type Parts = (SC::Parts, NC::Parts);

    ghost same_format = { same_durations SC.same_format NC.same_format };

    fn borrow(&'a self) -> Durations<SC::Borrowed, NC::Borrowed> {
        let seconds = self.seconds.borrow();
        let nanoseconds = self.nanoseconds.borrow();
        Durations {
            seconds,
            nanoseconds,
        }
    }
}

impl<
    'a,
    SC: Flat + CountedRoom + ReserveCounted + Container<'a, Ref = u64>,
    NC: Flat + CountedRoom + ReserveCounted + Container<'a, Ref = u32>,
> Container<'a> for Durations<SC, NC> {}

impl<'b, V: Reborrow<'b>, W: Reborrow<'b>> Reborrow<'b> for Durations<V, W> {
    type Short = Durations<V::Short, W::Short>;

    ghost same_short = { same_durations V.same_short W.same_short };

    fn reborrow(self) -> Durations<V::Short, W::Short> {
        let Durations {
            seconds,
            nanoseconds,
        } = self;
        Durations {
            seconds: seconds.reborrow(),
            nanoseconds: nanoseconds.reborrow(),
        }
    }
}

impl<SC: Flat, NC: Flat<Ref = u32>> Stored for Durations<SC, NC> {
    ghost storable = { durations_storable SC.format NC.format SC.storable NC.storable };

    ghost counted = { λ c. two_counted (slices_of (SC.content c.seconds)) (slices_of (NC.content c.nanoseconds)) (SC.counted c.seconds) (NC.counted c.nanoseconds) };

    fn slice_count() -> usize {
        SC::slice_count() + NC::slice_count()
    }

    fn element_sizes(sizes: &mut Vec<usize>) -> Result<(), GrowError> {
        sizes_of_two::<SC, NC>(sizes)
    }

    fn judge_tallied<L>(
        store: &DecodedStore<'_>,
        offset: usize,
        tally: &mut Tally<L>,
    ) -> Result<(), StoreFault> {
        judge_two::<SC, NC, L>(store, offset, tally)?;
        let middle = offset + SC::slice_count();
        let rows = SC::rows_in(store, offset);
        if rows != NC::rows_in(store, middle) {
            return Err(StoreFault::Parts(offset));
        }
        if all_fit_in::<PartSecond, NC, L>(store, middle, tally) {
            Ok(())
        } else {
            Err(StoreFault::Value(offset))
        }
    }

    fn rows_in(store: &DecodedStore<'_>, offset: usize) -> usize {
        SC::rows_in(store, offset)
    }
}

impl<SC: Check + Flat + Len, NC: Check + Flat<Ref = u32> + Len> Check for Durations<SC, NC> {
    fn check_from_tallied<L>(&self, from: usize, tally: &mut Tally<L>) -> Result<(), StoreFault> {
        check_two(&self.seconds, &self.nanoseconds, from, tally)?;
        let rows = self.seconds.len();
        if rows != self.nanoseconds.len() {
            return Err(StoreFault::Parts(from));
        }
        if all_fit::<PartSecond, NC, L>(&self.nanoseconds, tally) {
            Ok(())
        } else {
            Err(StoreFault::Value(from))
        }
    }
}

impl<'s, SC: FromBytes<'s> + Flat, NC: FromBytes<'s> + Flat<Ref = u32>> FromBytes<'s>
    for Durations<SC, NC> {
    fn from_store(store: &DecodedStore<'s>, offset: &mut usize) -> Self {
        let seconds = SC::from_store(store, offset);
        let nanoseconds = NC::from_store(store, offset);
        Durations {
            seconds,
            nanoseconds,
        }
    }
}

impl<'s, SC: AsBytes<'s> + Flat, NC: AsBytes<'s> + Flat<Ref = u32>> AsBytes<'s>
    for Durations<SC, NC> {
    fn get_byte_slice(&self, index: usize) -> (u64, ByteSlice<'s>) {
        slice_of_two(&self.seconds, &self.nanoseconds, index)
    }
}

/// If the nanoseconds cannot be loaded, the loaded seconds are dropped.
impl<SC: ContainerBytes + Flat + Drop, NC: ContainerBytes + Flat<Ref = u32>> ContainerBytes
    for Durations<SC, NC> {
    fn byte_slice(&self, index: usize) -> ByteSlice<'_> {
        byte_slice_of_two(&self.seconds, &self.nanoseconds, index)
    }

    fn load(alloc: Global, store: &DecodedStore<'_>, offset: usize) -> Result<Self, GrowError> {
        let (seconds, nanoseconds) = load_two::<SC, NC>(alloc, store, offset)?;
        Ok(Durations {
            seconds,
            nanoseconds,
        })
    }
}

impl<SC: ContainerBytes + Flat + Drop, NC: ContainerBytes + Flat<Ref = u32> + Drop> Kept
    for Durations<SC, NC> {}
