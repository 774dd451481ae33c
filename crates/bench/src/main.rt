//! Measures the columns: `bench times` prints lines `NAME NANOSECONDS ITEMS`, in five rounds. Lines that begin with #
//! are sums; printing them forces the work. Without an argument the program prints its usage, because programs of the
//! gate must print the same in each run.
#![tactic(auto)]

mod amount;
mod bits;
mod cells;
mod clock;
mod commands;
mod heap;
mod input;
mod kinds;
mod lists;
mod numbers;
mod opened;
mod plain;
mod relations;
mod repeated;
mod rows;
mod sorts;
mod strings;
mod times;
mod trees;
mod types;
mod unary;
mod variants;
mod work;

use crate::times::Times;
use std::env;
use std::io::Write;
use std::process::ExitCode;
use std::rt::Clock;

fn all<R: Clock, O: Write>(times: &mut Times<'_, R, O>) -> Option<()> {
    heap::small_blocks(times.alloc)?;
    for _round in 0..5 {
        rows::measure(times)?;
        bits::measure(times)?;
        numbers::measure(times)?;
        lists::measure(times)?;
        unary::measure(times)?;
        strings::measure(times)?;
        kinds::measure(times)?;
        variants::measure(times)?;
        repeated::measure(times)?;
        cells::measure(times)?;
        trees::measure(times)?;
        opened::measure(times)?;
        sorts::measure(times)?;
        commands::measure(times)?;
        types::measure(times)?;
        relations::measure(times)?;
    }
    Some(())
}

// Returns whether the argument is `times`.
fn is_asked(rt: &HostRuntime) -> bool {
    let Ok(mut args) = env::args(rt) else {
        return false;
    };
    let _program = args.next();
    match args.next() {
        Some(word) => word.as_str() == "times",
        None => false,
    }
}

fn main(rt: HostRuntime) -> ExitCode {
    let alloc = rt.alloc();
    let mut out = rt.stdout();
    if !is_asked(&rt) {
        return match writeln!(
            out,
            "bench times: nanoseconds of each workload, in five rounds"
        ) {
            Ok(()) => ExitCode::SUCCESS,
            Err(_) => ExitCode::FAILURE,
        };
    }
    let mut times = Times {
        rt: &rt,
        out: &mut out,
        alloc,
    };
    match all(&mut times) {
        Some(()) => ExitCode::SUCCESS,
        None => ExitCode::FAILURE,
    }
}
