//! Columns of sum types: counted bits, offsets in unary, options, results and variants.
#![tactic(auto)]

pub mod discriminant;
mod earlier;
pub mod marked;
pub mod option;
pub mod rank_select;
pub mod result;
pub mod unaries;
