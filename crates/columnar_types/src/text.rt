//! Texts: a row has the bytes of a text, which may be invalid UTF-8.
ghost use Rattle.columnar_types.specs.Owned.{text_at_once, text_unfit};

use crate::types::{Columnar, FromRow};
use columnar_base::fault::OwnError;
use columnar_strings::string::Strings;
use std::alloc::Global;
use std::boxed::BoxedStr;

impl Columnar for String {
    ghost unfit = { text_unfit };

    ghost at_once = { text_at_once };

    type Container = Strings<Vec<u64>, Vec<u8>>;
}

impl<'a> FromRow<&'a [u8]> for String {
    fn from_row(alloc: Global, row: &'a [u8]) -> Result<String, OwnError> {
        match str::from_utf8(row) {
            Ok(text) => match String::from_str(alloc, text) {
                Ok(value) => Ok(value),
                Err(_) => Err(OwnError::Memory),
            },
            Err(_) => Err(OwnError::Utf8),
        }
    }
}

impl Columnar for BoxedStr {
    ghost unfit = { text_unfit };

    ghost at_once = { text_at_once };

    type Container = Strings<Vec<u64>, Vec<u8>>;
}

impl<'a> FromRow<&'a [u8]> for BoxedStr {
    fn from_row(alloc: Global, row: &'a [u8]) -> Result<BoxedStr, OwnError> {
        match str::from_utf8(row) {
            Ok(text) => match BoxedStr::from_str(alloc, text) {
                Ok(value) => Ok(value),
                Err(_) => Err(OwnError::Memory),
            },
            Err(_) => Err(OwnError::Utf8),
        }
    }
}
