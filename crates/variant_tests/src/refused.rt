// Every call that allocates, whichever allocation fails: it succeeds, or changes nothing.
use crate::two::{Row, Two};
use columnar_variants::cases::{Last, Nth};
use std::rt::HostRuntime;
use std::test::Fail;
use test_support::holds;
use test_support::trials::{Trial, copies_and_turns_keep, pushes_keep};

// The rows 5 of the first variant, 7 of the second, 6 of the first; and one more, 8 of the second.
static THREE: [u64; 12] = [40, 56, 64, 67, 96, 5, 6, 7, 256, 0, 0, 1];

static FOUR: [u64; 14] = [40, 56, 72, 76, 112, 5, 6, 7, 8, 16777472, 0, 0, 1, 1];

// The row 8 of the second variant.
static ONE: [u64; 8] = [40, 40, 48, 48, 64, 8, 2, 1];

#[test]
fn columns_of_two_variants(rt: HostRuntime) -> Result<(), Fail> {
    let alloc = rt.alloc();
    let trial = Trial {
        before: THREE.as_slice(),
        rows: 3,
        after: FOUR.as_slice(),
        source: ONE.as_slice(),
        taken: 1,
        into: THREE.as_slice(),
        with_taken: FOUR.as_slice(),
    };
    let row: Row = Nth::Next(Last(8));
    holds!(rt; pushes_keep::<Row, Two>(alloc, &row, &trial));
    holds!(rt; copies_and_turns_keep::<Two>(alloc, &mut None, &trial));
    Ok(())
}
