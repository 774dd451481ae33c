//! Examples of programs that use columns: a first column, updates, readings, a report, a log of events, spans, levels, and
//! teams.
#![tactic(auto)]

mod first;
mod level;
mod log;
mod readings;
mod report;
mod spans;
mod teams;
mod updates;

use columnar::bytes::stash::{Command, Stash};
use columnar::names::FaultNames;
use columnar::{Borrow, Index, Push, SliceNames, Storage};
use level::{Level, Levels};
use log::{Columns, Log};
use readings::Readings;
use report::Report;
use spans::{Span, Spans};
use std::alloc::Global;
use std::io::Write;
use std::process::ExitCode;
use updates::Updates;

fn main(rt: HostRuntime) -> ExitCode {
    let mut out = rt.stdout();
    match shown(rt.alloc(), &mut out) {
        Ok(()) => ExitCode::SUCCESS,
        Err(_) => ExitCode::FAILURE,
    }
}

fn shown<O: Write>(alloc: Global, out: &mut O) -> anyhow::Result<()> {
    first::show(alloc, out)?;
    changes(alloc, out)?;
    sorted_stores(alloc, out)?;
    events(alloc, out)?;
    levels(alloc, out)?;
    times(alloc, out)?;
    pages(alloc, out)?;
    teams::show(alloc, out)
}

// Sorts and consolidates updates.
fn changes<O: Write>(alloc: Global, out: &mut O) -> anyhow::Result<()> {
    let mut updates = Updates::new(alloc);
    updates.add(7, "b".as_bytes(), 1)?;
    updates.add(3, "a".as_bytes(), 2)?;
    updates.add(7, "b".as_bytes(), 4)?;
    updates.add(3, "a".as_bytes(), -2)?;
    updates.add(5, "c".as_bytes(), 1)?;
    updates.consolidated(alloc)?.print(out)
}

// Sorts two stores of readings, merges them, and searches the result.
fn sorted_stores<O: Write>(alloc: Global, out: &mut O) -> anyhow::Result<()> {
    let one = Readings::stored(alloc, &[(5, 1), (3, -2), (9, 4)])?.sorted(alloc)?;
    let other = Readings::stored(alloc, &[(4, 7), (3, 8)])?.sorted(alloc)?;
    let all = one.merged(alloc, &other)?;
    all.print(out)?;
    writeln!(out, "before 5: {}", all.before(5))?;
    Ok(())
}

// Shows a column of values of your own type.
fn levels<O: Write>(alloc: Global, out: &mut O) -> anyhow::Result<()> {
    let mut column = Levels::empty(alloc);
    column.push(Level::Warning)?;
    column.push(Level::Note)?;
    for level in column.borrow().into_index_iter() {
        writeln!(out, "{level:?}")?;
    }
    Ok(())
}

// Shows your own container of two parts.
fn times<O: Write>(alloc: Global, out: &mut O) -> anyhow::Result<()> {
    let mut kept: Stash<Spans<Vec<u64>, Vec<u32>>, Vec<u8>> = Stash::empty(alloc);
    kept.push(Span {
        start: 12,
        length: 3,
    })?;
    kept.push(Span {
        start: 20,
        length: 1,
    })?;
    for span in kept.borrow().into_index_iter() {
        writeln!(out, "from {} for {}", span.start, span.length)?;
    }
    writeln!(out, "{} bytes", kept.length_in_bytes().unwrap_or(0))?;
    Ok(())
}

// Increments the counters of a report of two pages, writes and opens it, and increments one again.
fn pages<O: Write>(alloc: Global, out: &mut O) -> anyhow::Result<()> {
    let mut report = Report::new(alloc);
    report.add(80)?;
    report.add(443)?;
    for index in [1usize, 1, 0] {
        report.raise(index)?;
    }
    report.print(out)?;
    let mut opened = Report::open(alloc, report.written(alloc)?)?;
    writeln!(out, "{} {}", opened.raise(1)?, opened.raise(2)?)?;
    opened.print(out)?;
    Ok(())
}

// Records three events, writes and opens them, and then changes the opened log.
fn events<O: Write>(alloc: Global, out: &mut O) -> anyhow::Result<()> {
    let mut log = Log::new(alloc);
    log.record(12, Some(7), &[1, 2])?;
    log.record(15, None, &[])?;
    let tags = Vec::from_slice(alloc, &[5u32])?;
    log.record_event(&(20, (Some(9), tags)))?;
    log.print(out)?;
    writeln!(out, "known users: {}", log.known_users())?;
    refused(alloc, &log, out)?;
    changed(alloc, &log, out)
}

// Returns the bytes of the log with another byte at this position.
fn spoilt(alloc: Global, log: &Log, at: usize, byte: u8) -> anyhow::Result<Vec<u8>> {
    let mut bytes = log.written(alloc)?;
    if let Some(there) = bytes.get_mut(at) {
        *there = byte;
    }
    Ok(bytes)
}

// Corrupts the bytes of the log in three ways, and prints why each is rejected.
fn refused<O: Write>(alloc: Global, log: &Log, out: &mut O) -> anyhow::Result<()> {
    let names = Columns::slice_names(alloc)?;
    for (at, byte) in [(0usize, 1u8), (8, 0), (88, 9)] {
        write!(out, "byte {at} is {byte}: ")?;
        match Log::open(alloc, spoilt(alloc, log, at, byte)?) {
            Ok(_) => writeln!(out, "accepted")?,
            Err(fault) => writeln!(out, "{}", fault.named(names.as_slice()))?,
        }
    }
    Ok(())
}

// Opens the log from its bytes, copies a range of it, truncates it, and runs commands.
fn changed<O: Write>(alloc: Global, log: &Log, out: &mut O) -> anyhow::Result<()> {
    let mut opened = Log::open(alloc, log.written(alloc)?)?;
    if let Some(copied) = opened.copy(log, 1, 3) {
        copied?;
    }
    if let Some(cut) = opened.cut(4) {
        cut?;
    }
    let tags = Vec::from_slice(alloc, &[8u32, 8])?;
    let commands = [
        Command::Push((31, (None, tags))),
        Command::Copy(0, 9),
        Command::Reopen,
    ];
    let (after, replies) = opened.run(alloc, log, commands.as_slice());
    after.print(out)?;
    for reply in replies? {
        writeln!(out, "{reply:?}")?;
    }
    Ok(())
}
