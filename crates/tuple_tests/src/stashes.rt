// A run of commands on a stash over a tuple of three.

use super::worked::Three;
use columnar_bytes::stash::Command;
use columnar_core::bytes::Check;
use columnar_core::view::View;
use std::test::Fail;
use test_support::runs::{DONE, RANGE, ran};
use test_support::{equal, holds};

#[test]
fn a_run_over_three_columns(rt: HostRuntime) -> Result<(), Fail> {
    let numbers = [5, 6, 7];
    let column = View::from_slice(numbers.as_slice());
    let source = (column, column, column);
    holds!(rt; source.check().is_ok());
    let commands = [
        Command::Push((1u64, 10u64, 100u64)),
        Command::Reopen,
        Command::Copy(1, 3),
        Command::Copy(0, 4),
        Command::Truncate(2),
    ];
    let (replies, _, written) = ran::<_, _, Three>(
        rt.alloc(),
        source,
        commands.as_slice(),
        [32, 48, 64, 80, 1, 6, 10, 6, 100, 6].as_slice(),
    )?;
    equal!(rt;
        replies.as_slice(),
        [DONE, DONE, DONE, RANGE, DONE].as_slice()
    );
    holds!(rt; written);
    Ok(())
}
