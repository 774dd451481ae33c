//! A log of events: the time, the user if known, and the tags of each.
ghost use Rattle.std.specs.Prelude.{IfErr, IfOk, ◌≡◌, length};
ghost use Rattle.columnar.specs.Format.{IsSound};
ghost use Rattle.columnar.specs.Accepted.{IsFirstFault};
ghost use Rattle.columnar.specs.Stashes.{stash_content};

use columnar::bytes::stash::{Command, Reply, Stash, run};
use columnar::fault::{GrowError, StoreFault};
use columnar::tuple::parts;
use columnar::{Borrow, Column, Index, Len, Options, Push, PushRef, Vecs};
use std::alloc::Global;
use std::io::{self, Write};

/// The times, the users if known, and the tags, each in its own column.
pub type Columns = (Vec<u64>, (Options<Vec<u64>>, Vecs<Vec<u32>>));

/// One event, as it is stored elsewhere.
pub type Event = (u64, (Option<u64>, Vec<u32>));

/// Events in order of arrival, in a column or in accepted bytes.
#[derive(Drop)]
pub struct Log {
    stash: Stash<Columns, Vec<u8>>,
    ghost sound: { IsSound ⟦<Columns as Column>⟧.format (stash_content stash) },
}

impl Log {
    /// Creates a log without events.
    pub fn new(alloc: Global) -> Log {
        Log {
            stash: Stash::empty(alloc),
        }
    }

    /// Opens a written log. Validates the bytes without copying them.
    ///
    /// # Errors
    /// The first rule that the bytes break, and its slice.
    pub fn open(alloc: Global, bytes: Vec<u8>) -> Result<Log, StoreFault>
        ensures { IfErr result (IsFirstFault ⟦<Columns as Column>⟧.format bytes.items) }
    {
        let stash = Stash::try_from_bytes(alloc, bytes)?;
        Ok(Log { stash })
    }

    /// Returns the bytes of the log; fails if an allocation fails.
    pub fn written(&self, alloc: Global) -> anyhow::Result<Vec<u8>> {
        let mut bytes = Vec::new(alloc);
        self.stash.write_bytes(&mut bytes)?;
        Ok(bytes)
    }

    /// Appends an event. On an error, the log stays the same.
    pub fn record(&mut self, time: u64, user: Option<u64>, tags: &[u32]) -> Result<(), GrowError> {
        self.stash.push((time, (user, tags)))
    }

    /// Appends an event that is stored elsewhere. On an error, the log stays the same.
    pub fn record_event(&mut self, event: &Event) -> Result<(), GrowError> {
        self.stash.push_ref(event)
    }

    /// Appends the events `from..to` of another log; returns `None` if it has no such events.
    pub fn copy(&mut self, other: &Log, from: usize, to: usize) -> Option<Result<(), GrowError>> {
        if from > to || to > other.stash.len() {
            return None;
        }
        Some(self.stash.extend_from_self(other.stash.borrow(), from..to))
    }

    /// Keeps the first `n` events; returns `None` if there are fewer.
    pub fn cut(&mut self, n: usize) -> Option<Result<(), GrowError>> {
        if n > self.stash.len() {
            return None;
        }
        Some(self.stash.truncate(n))
    }

    /// Runs commands, which copy from another log, and returns a reply for each.
    pub fn run(
        self,
        alloc: Global,
        other: &Log,
        commands: &[Command<Event>],
    ) -> (Log, Result<Vec<Reply>, GrowError>) {
        let (stash, replies) = run(alloc, self.stash, other.stash.borrow(), commands);
        (Log { stash }, replies)
    }

    /// Counts the events whose user is known, by rank.
    pub fn known_users(&self) -> usize {
        let (_, rest) = parts(self.stash.borrow());
        let (users, _) = parts(rest);
        users.rank(users.len())
    }

    /// Prints a line for each event: the time, the user or a dash, and the tags.
    pub fn print<O: Write>(&self, out: &mut O) -> io::Result<()> {
        for (time, (user, tags)) in self.stash.borrow().into_index_iter() {
            match user {
                Some(user) => write!(out, "{time} {user}")?,
                None => write!(out, "{time} -")?,
            }
            for tag in tags.into_iter() {
                write!(out, " {tag}")?;
            }
            writeln!(out)?;
        }
        Ok(())
    }
}
