//! Column types as values, and the parser for their text.
#![tactic(auto)]

mod declaration;
mod distinct;
mod number;
mod parts;
pub mod plain;
mod scan;
pub mod schema;
pub mod source;
pub mod text;
mod words;
