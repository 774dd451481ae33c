//! Figures, your own enum, and a column of them. `shape/rows.rt`, which `columnar_derive` writes, makes them rows.
ghost use Rattle.columnar.specs.Format.{IsSound};
ghost use Rattle.columnar.specs.Stashes.{stash_content};

mod rows;

use columnar::bytes::stash::Stash;
use columnar::fault::{GrowError, OwnError, StoreFault};
use columnar::{Borrow, Column, Columnar, Index, Len, PushRef};
pub use rows::ShapeReference;
use rows::{ShapeColumns, ShapeContainer};
use std::alloc::Global;
use std::io::{self, Write};

/// A figure.
#[derive(Drop)]
pub enum Shape {
    Circle(u64),
    Named(String),
    Square { side: u32, at: (u32, u32) },
    Nothing,
}

/// Figures, in a column or in accepted bytes.
#[derive(Drop)]
pub struct Shapes {
    stash: Stash<ShapeContainer, Vec<u8>>,
    ghost sound: { IsSound ⟦<ShapeContainer as Column>⟧.format (stash_content stash) },
}

impl Shapes {
    /// Creates a list without figures.
    pub fn new(alloc: Global) -> Shapes {
        Shapes {
            stash: Stash::empty(alloc),
        }
    }

    /// Opens written figures.
    pub fn open(alloc: Global, bytes: Vec<u8>) -> Result<Shapes, StoreFault> {
        let stash = Stash::try_from_bytes(alloc, bytes)?;
        Ok(Shapes { stash })
    }

    /// Returns the bytes of the figures; fails if an allocation fails.
    pub fn written(&self, alloc: Global) -> anyhow::Result<Vec<u8>> {
        let mut bytes = Vec::new(alloc);
        self.stash.write_bytes(&mut bytes)?;
        Ok(bytes)
    }

    /// Appends a figure that is stored elsewhere.
    pub fn add(&mut self, shape: &Shape) -> Result<(), GrowError> {
        self.stash.push_ref(shape)
    }

    /// Returns figure `index` as an owned value; `None` if there are not so many.
    pub fn shape(&self, alloc: Global, index: usize) -> Option<Result<Shape, OwnError>> {
        let row = self.stash.borrow().get_checked(index)?;
        Some(Shape::into_owned(alloc, row))
    }

    /// Returns the sum of the radii; reads only the circles.
    pub fn radii(&self) -> u64 {
        let mut sum = 0u64;
        for radius in self.stash.borrow().circle().into_index_iter() {
            sum = sum.saturating_add(radius);
        }
        sum
    }

    /// Prints a line for each figure.
    pub fn print<O: Write>(&self, out: &mut O) -> io::Result<()> {
        for row in self.stash.borrow().into_index_iter() {
            match row.show() {
                ShapeReference::Circle(radius) => writeln!(out, "a circle of {radius}")?,
                ShapeReference::Named(name) => writeln!(out, "a name of {} bytes", name.len())?,
                ShapeReference::Square((side, (x, y))) => writeln!(
                    out,
                    "a square of {side} at {x}, {y}"
                )?,
                ShapeReference::Nothing => writeln!(out, "nothing")?,
            }
        }
        Ok(())
    }
}
