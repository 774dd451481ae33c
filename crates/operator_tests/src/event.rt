// Columns of a derived enum are sorted, merged and searched.
ghost use Rattle.columnar.specs.Format.{IsSound};

mod rows;

use crate::hashes::rises;
use columnar::fault::GrowError;
use columnar::operators::{lower_bound, max_row, merge, min_row, sort_indices, take, upper_bound};
use columnar::sums::variants::{Last, Nth};
use columnar::{Borrow, Column, Index, Len, OwnRow, PushRef, Storage};
use rows::{EventColumns, EventContainer};
use std::alloc::Global;
use std::rt::HostRuntime;
use std::test::Fail;
use test_support::columns::reads;
use test_support::{equal, holds};

// Something that happens to a machine.
#[derive(Drop)]
pub enum Event {
    Start(u64),
    Rest,
    Stop(u32),
}

type Row = OwnRow<Nth<u64, Nth<(), Last<u32>>>, Event>;

fn start(time: u64) -> Row {
    OwnRow::new(Nth::This(time))
}

fn rest() -> Row {
    OwnRow::new(Nth::Next(Nth::This(())))
}

fn stop(reason: u32) -> Row {
    OwnRow::new(Nth::Next(Nth::Next(Last(reason))))
}

// Events, for the calls that the tests make.
#[derive(Drop)]
struct Events {
    column: EventContainer,
    ghost sound: { IsSound ⟦<EventContainer as Column>⟧.format (⟦<EventContainer as Column>⟧.content column) },
}

impl Events {
    fn of(alloc: Global, events: &[Event]) -> Result<Events, GrowError> {
        let mut held = Events {
            column: EventContainer::empty(alloc),
        };
        for i in 0..events.len() {
            held.add(&events[i])?;
        }
        Ok(held)
    }

    fn add(&mut self, event: &Event) -> Result<(), GrowError> {
        self.column.push_ref(event)
    }

    fn order(&self, alloc: Global) -> Result<Vec<usize>, GrowError> {
        sort_indices(alloc, &self.column.borrow())
    }

    fn sorted(&self, alloc: Global) -> Result<Events, GrowError> {
        let view = self.column.borrow();
        let order = sort_indices(alloc, &view)?;
        let mut column = EventContainer::empty(alloc);
        take(&mut column, view, order.as_slice())?;
        Ok(Events { column })
    }

    fn merged(&self, alloc: Global, other: &Events) -> Result<Events, GrowError> {
        let mut column = EventContainer::empty(alloc);
        merge(&mut column, self.column.borrow(), other.column.borrow())?;
        Ok(Events { column })
    }

    // How many rows are less than the key, and how many are not greater
    fn bounds(&self, key: &Row) -> (usize, usize) {
        let view = self.column.borrow();
        (lower_bound(&view, key), upper_bound(&view, key))
    }

    // The least row and the greatest one
    fn ends(&self) -> (Option<Row>, Option<Row>) {
        let view = self.column.borrow();
        (min_row(&view), max_row(&view))
    }

    // The sum of the times, the number of rests, and the greatest reason
    fn by_variant(&self) -> (u64, usize, Option<u32>) {
        let view = self.column.borrow();
        let mut sum = 0u64;
        for time in view.start().into_index_iter() {
            sum = sum.saturating_add(time);
        }
        let reason = view.stop().into_index_iter().max();
        (sum, view.rest().len(), reason)
    }

    fn reads(&self, rows: &[Row]) -> bool {
        reads(&self.column.borrow(), rows)
    }
}

static MIXED: [Event; 6] = [
    Event::Stop(1),
    Event::Start(9),
    Event::Rest,
    Event::Start(3),
    Event::Stop(0),
    Event::Rest,
];

#[test]
fn events_are_sorted_by_variant_and_then_by_value(rt: HostRuntime) -> Result<(), Fail> {
    let events = Events::of(rt.alloc(), &MIXED)?;
    let order = events.order(rt.alloc())?;
    equal!(rt; order.as_slice(), [3usize, 1, 2, 5, 4, 0].as_slice());
    let sorted = events.sorted(rt.alloc())?;
    holds!(rt; sorted.reads(&[start(3), start(9), rest(), rest(), stop(0), stop(1)]));
    Ok(())
}

#[test]
fn sorted_events_are_merged(rt: HostRuntime) -> Result<(), Fail> {
    let one = Events::of(rt.alloc(), &[Event::Start(3), Event::Stop(0)])?;
    let other = Events::of(rt.alloc(), &[Event::Start(3), Event::Start(5), Event::Rest])?;
    let merged = one.merged(rt.alloc(), &other)?;
    holds!(rt; merged.reads(&[start(3), start(3), start(5), rest(), stop(0)]));
    Ok(())
}

#[test]
fn sorted_events_are_searched(rt: HostRuntime) -> Result<(), Fail> {
    let sorted = Events::of(rt.alloc(), &MIXED)?.sorted(rt.alloc())?;
    equal!(rt; sorted.bounds(&rest()), (2, 4));
    equal!(rt; sorted.bounds(&start(10)), (2, 2));
    equal!(rt; sorted.bounds(&stop(0)), (4, 5));
    equal!(rt; sorted.bounds(&start(0)), (0, 0));
    Ok(())
}

#[test]
fn least_and_greatest_events_are_found(rt: HostRuntime) -> Result<(), Fail> {
    let events = Events::of(rt.alloc(), &MIXED)?;
    holds!(rt; events.ends() == (Some(start(3)), Some(stop(1))));
    Ok(())
}

#[test]
fn values_of_each_variant_have_a_name(rt: HostRuntime) -> Result<(), Fail> {
    let events = Events::of(rt.alloc(), &MIXED)?;
    equal!(rt; events.by_variant(), (12, 2, Some(1)));
    Ok(())
}

#[test]
fn events_compare_by_variant_first(rt: HostRuntime) {
    holds!(rt; rises(&start(9), &rest()) && rises(&rest(), &stop(0)) && rises(&start(9), &stop(0)));
    holds!(rt; rises(&start(3), &start(9)) && rises(&stop(0), &stop(1)));
    holds!(rt; !rises(&rest(), &rest()) && !rises(&stop(7), &start(8)));
}
