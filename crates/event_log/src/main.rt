//! A log of events in one file, to which batches are appended: `event_log append FILE`, `event_log sum FILE`,
//! `event_log repair FILE`.
#![tactic(auto)]

mod batch;
mod cli;
mod counts;
mod level;
mod lines;
mod reading;
mod survey;
mod told;

use crate::batch::Events;
use crate::cli::run_words;
use crate::told::{Failure, Outcome, put};
use std::env;
use std::io::Write;
use std::process::ExitCode;

fn main(rt: HostRuntime) -> ExitCode {
    let alloc = rt.alloc();
    let mut input = rt.stdin();
    let mut out = rt.stdout();
    let mut err = rt.stderr();
    let mut words = Vec::new(alloc);
    let Ok(args) = env::args(&rt) else {
        return no_memory(&mut err);
    };
    for word in args.skip(1) {
        if words.push(word).is_err() {
            return no_memory(&mut err);
        }
    }
    let ended = run_words::<Events, _, _, _, _>(
        &rt,
        alloc,
        words.as_slice(),
        &mut input,
        &mut out,
        &mut err,
    );
    ExitCode::from(ended.outcome.status())
}

// Reports an allocation failure that occurred before the arguments were read.
fn no_memory<E: Write>(err: &mut E) -> ExitCode {
    let outcome = Outcome::Failed(Failure::Memory);
    let _heard = put(err, outcome.line());
    ExitCode::from(outcome.status())
}
