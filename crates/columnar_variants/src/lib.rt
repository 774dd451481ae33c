//! Columns of your own sum types: a column for the values of each variant, and the variant of each row.
#![tactic(auto)]

pub mod bank;
pub mod case;
pub mod cases;
pub mod copy;
pub mod count;
pub mod dual;
pub mod fronts;
pub mod lent;
pub mod nth;
pub mod run;
pub mod variants;
