//! A run of commands on a stash of numbers.
use crate::clock::Random;
use crate::input;
use crate::times::Times;
use columnar_base::view::View;
use columnar_bytes::stash::{Command, Reply, Stash, run};
use std::alloc::Global;
use std::io::Write;
use std::rt::Clock;

type Numbers = Stash<Vec<u64>, Vec<u8>>;

const COMMANDS: usize = 1_000;

// Makes commands: most push; some copy, truncate, or write the stash and open it again.
fn commands(alloc: Global, random: &mut Random) -> Option<Vec<Command<u64>>> {
    let mut commands = Vec::new(alloc);
    for at in 0..COMMANDS {
        let word = random.next();
        let command = match word % 16 {
            0 => Command::Copy(at / 2, at / 2 + 16),
            1 => Command::Truncate(at),
            2 => Command::MakeTyped,
            _ => Command::Push(word),
        };
        let command = if at % 250 == 125 {
            Command::Reopen
        } else {
            command
        };
        commands.push(command).ok()?;
    }
    Some(commands)
}

#[inline(never)]
fn run_all(alloc: Global, source: &[u64], commands: &[Command<u64>]) -> Option<u64> {
    let stash = Numbers::empty(alloc);
    let (_stash, replies) = run(alloc, stash, View::from_slice(source), commands);
    let mut done = 0u64;
    for reply in replies.ok()? {
        done = done.wrapping_add((reply == Reply::Done) as u64);
    }
    Some(done)
}

pub fn measure<R: Clock, O: Write>(times: &mut Times<'_, R, O>) -> Option<()> {
    let mut random = Random::new(31);
    let source = input::words(times.alloc, COMMANDS, &mut random)?;
    let commands = commands(times.alloc, &mut random)?;
    let start = times.start();
    let done = run_all(times.alloc, source.as_slice(), commands.as_slice())?;
    times.summed("run_commands", start, COMMANDS, done)?;
    Some(())
}
