//! Stores whose column types are read at run time.
#![tactic(auto)]

pub mod bounds;
pub mod cases;
pub mod judge;
pub mod leaf;
pub mod names;
pub mod typed;
pub mod validation;
