//! Tests stores of columns against a type that is given as text, and prints their rows: `columnar_tool --help`.
#![tactic(auto)]

mod cat;
mod choice;
mod cli;
mod file;
mod flags;
mod help;
mod kind;
mod lines;
mod make;
mod range;
mod slices;
mod stores;
mod table;
mod told;

use std::env;
use std::process::ExitCode;

fn main(rt: HostRuntime) -> ExitCode {
    let alloc = rt.alloc();
    let mut input = rt.stdin();
    let mut out = rt.stdout();
    let mut err = rt.stderr();
    let mut words = Vec::new(alloc);
    let Ok(args) = env::args(&rt) else {
        return ExitCode::from(told::no_memory(&mut err));
    };
    for word in args.skip(1) {
        if words.push(word).is_err() {
            return ExitCode::from(told::no_memory(&mut err));
        }
    }
    let words = words.as_slice();
    ExitCode::from(cli::run_words(&rt, alloc, words, &mut input, &mut out, &mut err))
}
