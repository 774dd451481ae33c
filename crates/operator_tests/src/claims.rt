//! The calls that the macros of `test_support` claim by. They stand in each crate of tests, since no function of a library
//! may end the process, and no macro may write a contract.
ghost use Rattle.std.specs.Prelude.{IsTrue};

use std::fmt::Debug;
use std::process::Abort;

/// Ends the test where it is not so, with the text of the claim.
pub fn claimed<R: Abort>(rt: &R, is_so: bool, claim: &str)
    ensures { IsTrue is_so }
{
    if !is_so {
        rt.panic(claim)
    }
}

/// Ends the test where the two are not equal, and prints both.
pub fn claimed_equal<R: Abort, T: PartialEq + Debug + Drop>(rt: &R, left: T, right: T) {
    assert_eq!(*rt; left, right);
}
