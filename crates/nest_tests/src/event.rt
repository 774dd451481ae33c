// An event with a list, an option and an enum: each call on a stash of it.
ghost use Rattle.columnar.specs.Format.{IsSound};
ghost use Rattle.columnar.specs.Stashes.{stash_content};

mod rows;

use crate::outcome::Outcome;
use columnar::bytes::stash::Stash;
use columnar::{Borrow, Column, Columnar, Index, Len, Push, PushRef};
use rows::EventContainer;
use std::alloc::Global;
use std::rt::HostRuntime;
use std::test::Fail;
use test_support::{equal, holds};

#[derive(Drop)]
pub struct Event {
    pub time: u64,
    pub user: String,
    pub tags: Vec<String>,
    pub latency: Option<u32>,
    pub outcome: Outcome,
}

// Events, for the calls that the tests make.
#[derive(Drop)]
struct Events {
    stash: Stash<EventContainer, Vec<u8>>,
    ghost sound: { IsSound ⟦<EventContainer as Column>⟧.format (stash_content stash) },
}

impl Events {
    fn empty(alloc: Global) -> Events {
        Events {
            stash: Stash::empty(alloc),
        }
    }

    fn with_room_for(alloc: Global, other: &Events) -> Option<Events> {
        let views = [other.stash.borrow()];
        let stash = Stash::with_capacity_for(alloc, views.iter().copied()).ok()?;
        Some(Events { stash })
    }

    fn takes(&mut self, event: &Event) -> bool {
        self.stash.push_ref(event).is_ok()
    }

    fn appends(&mut self, other: &Events) -> bool {
        let count = other.stash.len();
        self.stash
            .extend_from_self(other.stash.borrow(), 0..count)
            .is_ok()
    }

    fn replaces(&self, alloc: Global, event: &mut Event, index: usize) -> bool {
        match self.stash.borrow().get_checked(index) {
            Some(row) => event.copy_from(alloc, row).is_ok(),
            None => false,
        }
    }

    fn count(&self) -> usize {
        self.stash.len()
    }
}

pub fn happened(alloc: Global, time: u64) -> Result<Event, Fail> {
    let mut tags = Vec::new(alloc);
    tags.push(format!(in alloc; "tag {time}")?)?;
    let outcome = Outcome::Retried(2, time);
    Ok(Event {
        time,
        user: format!(in alloc; "ada")?,
        tags,
        latency: None,
        outcome,
    })
}

#[test]
fn events_are_appended_and_replace_others(rt: HostRuntime) -> Result<(), Fail> {
    let alloc = rt.alloc();
    let mut one = Events::empty(alloc);
    holds!(rt; one.takes(&happened(alloc, 7)?) && one.takes(&happened(alloc, 8)?));
    let Some(mut all) = Events::with_room_for(alloc, &one) else {
        holds!(rt; false);
        return Ok(());
    };
    holds!(rt; all.appends(&one) && all.appends(&one));
    equal!(rt; all.count(), 4);
    let mut last = happened(alloc, 0)?;
    holds!(rt; all.replaces(alloc, &mut last, 3) && !all.replaces(alloc, &mut last, 4));
    equal!(rt; (last.time, last.tags.len()), (8, 1));
    holds!(rt; matches!(&last.outcome, Outcome::Retried(2, 8)));
    Ok(())
}
