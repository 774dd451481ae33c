//! Claims in tests. Each claim is one call, whereas `assert!` and `assert_eq!` add a branch to the test, and proof time
//! of a test grows with the square of its branches. The crate of the test defines the calls in a module `claims`.

/// Claims that a condition holds. The condition is known after the claim.
#[macro_export]
macro_rules! holds {
    ($rt:expr; $claim:expr $(,)?) => {
        crate::claims::claimed(
            &$rt,
            $claim,
            concat!("assertion failed: ", stringify!($claim)),
        )
    };
}

/// Claims that two values of one type are equal.
#[macro_export]
macro_rules! equal {
    ($rt:expr; $left:expr, $right:expr $(,)?) => {
        crate::claims::claimed_equal(&$rt, $left, $right)
    };
}
