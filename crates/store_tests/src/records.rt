// Your own record: a struct around a stash. Only this struct names the nested columns, so its methods are proved once,
// and its users have no nested types.
ghost use Rattle.std.specs.Prelude.{◌≡◌, ◌+◌};
ghost use Rattle.columnar_core.specs.Format.{IsSound};
ghost use Rattle.columnar_bytes.specs.Stashes.{stash_content};

use columnar::bytes::stash::Stash;
use columnar::fault::GrowError;
use columnar::{Column, Index, Len, Push};
use std::alloc::Global;
use std::test::Fail;
use test_support::equal;

// The time, the user, the level and the duration, each in its own column.
type Columns = ((Vec<u64>, Vec<u32>), (Vec<u16>, Vec<u64>));

// An event of a log.
#[derive(Clone, Copy, Debug, PartialEq, Eq)]
struct Event {
    time: u64,
    user: u32,
    level: u16,
    size: u64,
}

// A log of events
#[derive(Drop)]
struct Log {
    stash: Stash<Columns, Vec<u8>>,
    ghost sound: { IsSound ⟦<Columns as Column>⟧.format (stash_content stash) },
}

impl Log {
    fn new(alloc: Global) -> Log {
        Log {
            stash: Stash::empty(alloc),
        }
    }

    // Appends an event; changes nothing if an allocation fails or there are too many.
    fn record(&mut self, event: Event) -> Result<(), GrowError> {
        self.stash
            .push(((event.time, event.user), (event.level, event.size)))
    }

    fn len(&self) -> usize {
        self.stash.len()
    }

    // Returns event `index`, if there is one.
    fn event(&self, index: usize) -> Option<Event> {
        let view = self.stash.borrow();
        if index >= view.len() {
            return None;
        }
        let ((time, user), (level, size)) = view.get(index);
        Some(Event {
            time,
            user,
            level,
            size,
        })
    }
}

fn at(time: u64) -> Event {
    Event {
        time,
        user: 7,
        level: 2,
        size: 100,
    }
}

#[test]
fn a_log_gives_its_events_back(rt: HostRuntime) -> Result<(), Fail> {
    let mut log = Log::new(rt.alloc());
    log.record(at(10))?;
    log.record(at(20))?;
    log.record(at(30))?;
    equal!(rt; log.len(), 3);
    equal!(rt; log.event(1), Some(at(20)));
    equal!(rt; log.event(3), None);
    Ok(())
}

#[test]
fn a_log_begins_without_events(rt: HostRuntime) -> Result<(), Fail> {
    let log = Log::new(rt.alloc());
    equal!(rt; log.len(), 0);
    equal!(rt; log.event(0), None);
    Ok(())
}
