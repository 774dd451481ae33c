//! Workloads, each with a line for its time. Each workload makes one call per nest of columns, because such calls are
//! expensive to prove.
ghost use Rattle.std.specs.Prelude.{IfSome, IsTrue};
ghost use Rattle.columnar_base.specs.Format.{IsSound, representable};

use crate::amount::Amount;
use crate::clock::{line, nanos};
use crate::plain::Plain;
use crate::types::Looked;
use crate::work;
use columnar_base::storage::Storage;
use columnar_base::traits::{Index, Len, Push, PushRef};
use columnar_bytes::stash::Stash;
use columnar_core::bytes::{AsBytes, Stored};
use columnar_core::container::{ContainerBytes, ExtendFrom};
use columnar_types::types::{Columnar, ContainerOf, FromRow};
use std::alloc::Global;
use std::io::Write;
use std::rt::Clock;

/// The clock, the output for the lines, and the allocator of the workloads.
#[derive(Drop)]
pub struct Times<'a, R, O> {
    pub rt: &'a R,
    pub out: &'a mut O,
    pub alloc: Global,
}

impl<'a, R: Clock, O: Write> Times<'a, R, O> {
    /// Returns the time before a workload, in nanoseconds.
    pub fn start(&self) -> u64 {
        nanos(self.rt)
    }

    /// Prints the time of the workload that began at `start`.
    pub fn end(&mut self, name: &str, start: u64, items: usize) -> Option<()> {
        let end = nanos(self.rt);
        line(self.out, name, end.wrapping_sub(start), items)
    }

    /// Does the same for work that returns a number; printing the number forces the work.
    pub fn summed(&mut self, name: &str, start: u64, items: usize, sum: u64) -> Option<u64> {
        self.end(name, start, items)?;
        line(self.out, "#sum", sum, 1)?;
        Some(sum)
    }

    /// Returns a column of these items, each pushed by value.
    pub fn values<T: Plain + Copy, C: Storage + Push<T>>(
        &mut self,
        name: &str,
        items: &[T],
    ) -> Option<C>
        ensures { IfSome result (λ c. IsSound C.format (C.content c)) }
    {
        let start = self.start();
        let column = work::push_values::<T, C>(self.alloc, items).ok()?;
        self.end(name, start, items.len())?;
        Some(column)
    }

    /// Returns a column of these items, each pushed by reference.
    pub fn refs<T: Plain, C: Storage + PushRef<T>>(&mut self, name: &str, items: &[T]) -> Option<C>
        ensures { IfSome result (λ c. IsSound C.format (C.content c)) }
    {
        let start = self.start();
        let column = work::push_refs::<T, C>(self.alloc, items).ok()?;
        self.end(name, start, items.len())?;
        Some(column)
    }

    /// Pushes the rows of a view.
    pub fn view<V: Index + Len, C: Storage + Push<V::Ref> + Drop>(
        &mut self,
        name: &str,
        view: &V,
    ) -> Option<()>
        requires { IsSound V.format (V.content view.now) }
    {
        let start = self.start();
        let _column = work::push_view::<V, C>(self.alloc, view).ok()?;
        self.end(name, start, view.len())
    }

    /// Reads all rows of a view and adds them up.
    pub fn sum<V: Len + Index<Ref: Amount>>(&mut self, name: &str, view: &V) -> Option<u64>
        requires { IsSound V.format (V.content view.now) }
    {
        let start = self.start();
        let sum = work::sum(view);
        self.summed(name, start, view.len(), sum)
    }

    /// Copies the rows `start..end` of a view into an empty column.
    pub fn copy<V: Len + Copy, C: Storage + ExtendFrom<V> + Drop>(
        &mut self,
        name: &str,
        view: V,
        start: usize,
        end: usize,
    ) -> Option<()>
        requires { IsSound V.format (V.content view) }
    {
        let began = self.start();
        let _column = work::copied::<V, C>(self.alloc, view, start, end)?;
        self.end(name, began, end.saturating_sub(start))
    }

    /// Does the same after the first `front` rows of the view.
    pub fn copy_after<V: Len + Copy, C: Storage + ExtendFrom<V> + Drop>(
        &mut self,
        name: &str,
        view: V,
        front: usize,
        start: usize,
        end: usize,
    ) -> Option<()>
        requires { IsSound V.format (V.content view) }
    {
        let began = self.start();
        let _column = work::copied_after::<V, C>(self.alloc, view, front, start, end)?;
        self.end(name, began, end.saturating_sub(start))
    }

    /// Encodes a view as words.
    pub fn encode<'b, S: AsBytes<'b>>(&mut self, name: &str, items: usize, view: &S) -> Option<()>
        requires { IsTrue (representable S.format) }
    {
        let start = self.start();
        let _words = work::encoded(self.alloc, view)?;
        self.end(name, start, items)
    }

    /// Writes a view into a vector with capacity for `room` bytes, and returns the bytes.
    pub fn write<'b, S: AsBytes<'b>>(
        &mut self,
        name: &str,
        items: usize,
        view: &S,
        room: usize,
    ) -> Option<Vec<u8>>
        requires { IsTrue (representable S.format) }
    {
        let start = self.start();
        let bytes = work::written(self.alloc, view, room)?;
        self.end(name, start, items)?;
        Some(bytes)
    }

    /// Pushes the rows of a view, encodes them, and writes them into a vector with capacity for `room` bytes. `names`
    /// has a name for each of the three. Returns the bytes.
    pub fn stored<'b, V: Len + Copy + Index + AsBytes<'b>, C: Storage + Push<V::Ref> + Drop>(
        &mut self,
        names: [&str; 3],
        view: V,
        room: usize,
    ) -> Option<Vec<u8>>
        requires sound { IsSound V.format (V.content view) }
        requires representable { IsTrue (representable V.format) }
    {
        let items = view.len();
        let [pushed, encoded, written] = names;
        self.view::<V, C>(pushed, &view)?;
        self.encode(encoded, items, &view)?;
        self.write(written, items, &view, room)
    }

    /// Reads all rows of a view, copies the half in the middle, and copies the half that begins one row later after the
    /// first row. `names` has a name for each of the three.
    pub fn halves<V: Len + Copy + Index<Ref: Amount>, C: Storage + ExtendFrom<V> + Drop>(
        &mut self,
        names: [&str; 3],
        view: V,
    ) -> Option<()>
        requires { IsSound V.format (V.content view) }
    {
        let fourth = view.len() / 4;
        let end = view.len() - fourth;
        let [read, copied, shifted] = names;
        self.sum(read, &view)?;
        self.copy::<V, C>(copied, view, fourth, end)?;
        self.copy_after::<V, C>(shifted, view, 1, fourth + 1, end + 1)
    }

    /// Validates bytes.
    pub fn validate<C: Stored>(&mut self, name: &str, items: usize, bytes: &[u8]) -> Option<u64>
        requires { IsTrue (representable C.format) }
    {
        let start = self.start();
        let accepted = work::validated::<C>(bytes);
        self.summed(name, start, items, accepted)
    }

    /// Loads a stash into memory.
    pub fn load<C: ContainerBytes + Storage>(
        &mut self,
        name: &str,
        items: usize,
        stash: &Stash<C, Vec<u8>>,
    ) -> Option<()> {
        let start = self.start();
        let _typed = stash.to_typed(self.alloc).ok()?;
        self.end(name, start, items)
    }

    /// Returns a column of these values, made by their type.
    pub fn columns<T: Plain + Columnar<Container: Storage + PushRef<T>>>(
        &mut self,
        name: &str,
        items: &[T],
    ) -> Option<ContainerOf<T>>
        ensures { IfSome result (λ c. IsSound T.Container.format (T.Container.content c)) }
    {
        let start = self.start();
        let column = work::columns::<T>(self.alloc, items).ok()?;
        self.end(name, start, items.len())?;
        Some(column)
    }

    /// Makes a value of each row of a view.
    pub fn owned<T: FromRow<V::Ref> + Looked, V: Len + Index>(
        &mut self,
        name: &str,
        view: &V,
    ) -> Option<()>
        requires { IsSound V.format (V.content view.now) }
    {
        let start = self.start();
        let sum = work::owned_each::<T, V>(self.alloc, view)?;
        self.summed(name, start, view.len(), sum)?;
        Some(())
    }
}
