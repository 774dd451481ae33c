//! The functions behind the macros of `test_support`. Each test crate has its own copy, because a library function may
//! not end the process, and a macro may not write a contract.
ghost use Rattle.std.specs.Prelude.{IsTrue};

use std::fmt::Debug;
use std::process::Abort;

/// Ends the test with the text of the claim if the claim is false.
pub fn claimed<R: Abort>(rt: &R, is_so: bool, claim: &str)
    ensures { IsTrue is_so }
{
    if !is_so {
        rt.panic(claim)
    }
}

/// Ends the test and prints both values if they differ.
pub fn claimed_equal<R: Abort, T: PartialEq + Debug + Drop>(rt: &R, left: T, right: T) {
    assert_eq!(*rt; left, right);
}
