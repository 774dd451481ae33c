// Worked stores, and the rules that others break, with their slices.
ghost use Rattle.std.specs.Prelude.{IsTrue};
ghost use Rattle.columnar_core.specs.Format.{representable};

use super::worked::{SEVEN, Seven, Six, TEN, THREE, Ten, Three, Two};
use columnar_core::bytes::Stored;
use std::alloc::Global;
use std::process::Abort;
use test_support::equal;
use test_support::stores::refusal;

// Two columns of two rows and of one
static UNEVEN_PAIR: [u64; 6] = [24, 32, 48, 1, 2, 3];

// Three columns; the third is shorter.
static SHORT_THIRD: [u64; 9] = [32, 48, 64, 72, 1, 2, 3, 4, 5];

// Three columns; the last is longer.
static LONG_LAST_OF_THREE: [u64; 8] = [32, 40, 48, 64, 1, 2, 3, 4];

// Six columns; the last is longer.
static LONG_LAST_OF_SIX: [u64; 14] = [56, 64, 72, 80, 88, 96, 112, 1, 2, 3, 4, 5, 6, 7];

// Ten columns; the last is longer.
static LONG_LAST_OF_TEN: [u64; 22] = [
    88, 96, 104, 112, 120, 128, 136, 144, 152, 160, 176, 1, 2, 3, 4, 5, 6, 7, 8, 9, 10, 11,
];

// Three columns; the second ends within an element.
static BROKEN_SECOND: [u64; 8] = [32, 40, 52, 64, 1, 2, 3, 4];

// Three columns; the second is a pair whose parts have one row and two.
static UNEVEN_SECOND: [u64; 10] = [40, 48, 56, 72, 80, 1, 2, 3, 4, 5];

// A store, the rule that it breaks, and the slice; both are 0 if it is accepted.
type Case<'a> = (&'a [u64], (u8, usize));

// Claims the number of slices of the type, and the verdict on each store: one call for each tuple.
fn judged<C: Stored + Drop, R: Abort>(rt: &R, alloc: Global, slices: usize, cases: &[Case<'_>])
    requires { IsTrue (representable C.format) }
{
    equal!(*rt; C::slice_count(), slices);
    for case in cases {
        equal!(*rt; refusal::<C>(alloc, case.0).expect(rt, "memory"), case.1);
    }
}

#[test]
fn an_uneven_pair_is_told_at_the_first_slice(rt: HostRuntime) {
    let cases = [(UNEVEN_PAIR.as_slice(), (10, 0))];
    judged::<Two, _>(&rt, rt.alloc(), 2, cases.as_slice());
}

#[test]
fn a_row_of_three_is_accepted_and_others_told_at_their_slice(rt: HostRuntime) {
    let cases = [
        (THREE.as_slice(), (0, 0)),
        (SHORT_THIRD.as_slice(), (10, 0)),
        (LONG_LAST_OF_THREE.as_slice(), (10, 0)),
        (BROKEN_SECOND.as_slice(), (8, 1)),
    ];
    judged::<Three, _>(&rt, rt.alloc(), 3, cases.as_slice());
}

#[test]
fn a_longer_last_of_six_is_told_at_the_first_slice(rt: HostRuntime) {
    let cases = [(LONG_LAST_OF_SIX.as_slice(), (10, 0))];
    judged::<Six, _>(&rt, rt.alloc(), 6, cases.as_slice());
}

#[test]
fn a_row_of_seven_is_accepted(rt: HostRuntime) {
    let cases = [(SEVEN.as_slice(), (0, 0))];
    judged::<Seven, _>(&rt, rt.alloc(), 7, cases.as_slice());
}

#[test]
fn a_row_of_ten_is_accepted_and_a_longer_last_told_at_the_first_slice(rt: HostRuntime) {
    let cases = [
        (TEN.as_slice(), (0, 0)),
        (LONG_LAST_OF_TEN.as_slice(), (10, 0)),
    ];
    judged::<Ten, _>(&rt, rt.alloc(), 10, cases.as_slice());
    equal!(rt; TEN.as_slice().len(), 21);
}

#[test]
fn an_uneven_pair_inside_is_told_at_its_own_slice(rt: HostRuntime) {
    let cases = [(UNEVEN_SECOND.as_slice(), (10, 1))];
    judged::<(Vec<u64>, Two, Vec<u64>), _>(&rt, rt.alloc(), 4, cases.as_slice());
}
