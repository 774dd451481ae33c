// A page: a struct with a list of structs.
use crate::cell::Cell;

mod rows;

pub use rows::PageContainer;

#[derive(Drop)]
pub struct Page {
    pub number: u32,
    pub cells: Vec<Cell>,
}
