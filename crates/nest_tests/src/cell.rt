// A cell of a page.
mod rows;

pub use rows::CellContainer;

#[derive(Drop)]
pub struct Cell {
    pub at: u64,
    pub text: String,
    pub style: Option<u32>,
}
