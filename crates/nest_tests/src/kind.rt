// What a board shows: an enum around a struct.
use crate::page::Page;

mod rows;

pub use rows::KindContainer;

#[derive(Drop)]
pub enum Kind {
    Empty,
    Paged(Page),
    Named(String),
}
