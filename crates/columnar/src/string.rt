//! Strings.

pub use columnar_strings::string::{Quoted, Shown, StringIter, Strings, Text, as_text};
