//! Writes the code that makes your own struct or enum the rows of a column:
//! `columnar_derive FILE NAME.. [CRATE::MODULE]`.
#![tactic(auto)]

mod attributes;
mod cases;
mod cli;
mod enums;
mod generics;
mod head;
mod item;
mod leaf;
mod lines;
mod names;
mod parser;
mod place;
mod printer;
mod setters;
mod structs;
mod tokens;
mod views;

use std::env;
use std::process::ExitCode;

fn main(rt: HostRuntime) -> ExitCode {
    let alloc = rt.alloc();
    let mut out = rt.stdout();
    let mut err = rt.stderr();
    let mut words = Vec::new(alloc);
    let Ok(args) = env::args(&rt) else {
        return ExitCode::from(cli::no_memory(&mut err));
    };
    for word in args.skip(1) {
        if words.push(word).is_err() {
            return ExitCode::from(cli::no_memory(&mut err));
        }
    }
    ExitCode::from(cli::run_words(&rt, alloc, words.as_slice(), &mut out, &mut err))
}
