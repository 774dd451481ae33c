// Stashes, results, and runs of commands.
mod runs;
mod stash;
mod sums;
