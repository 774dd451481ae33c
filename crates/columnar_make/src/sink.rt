//! Columns of a type that is read at run time, as slices that grow.
use crate::misfit::Misfit;
use crate::slice::SliceBuilder;
use columnar_syntax::schema::{Bounds, Leaf, Schema};
use std::alloc::{AllocError, Global};

/// A column that grows: its own slices, the columns of its parts, and slices after those.
#[derive(Drop)]
pub(crate) struct Sink {
    pub own: Vec<SliceBuilder>,
    pub parts: Vec<Sink>,
    pub after: Vec<SliceBuilder>,
    /// The last values, as texts, of a column that stores a repeated value once.
    pub recent: Vec<String>,
}

impl Sink {
    /// Returns a column without rows.
    pub fn new(alloc: Global, schema: &Schema) -> Result<Sink, AllocError> {
        match schema {
            Schema::Simple(leaf) => Sink::of_leaf(alloc, *leaf),
            Schema::Optional(values) => {
                Sink::of_slices(alloc, &[0, 0, 2], &[])?.with(Sink::new(alloc, values)?)
            }
            Schema::Fallible(values, errors) => Sink::of_slices(alloc, &[0, 0, 2], &[])?
                .with(Sink::new(alloc, values)?)?
                .with(Sink::new(alloc, errors)?),
            Schema::Lists(bounds, values) => {
                Sink::of_slices(alloc, bounds_words(*bounds), &[])?.with(Sink::new(alloc, values)?)
            }
            Schema::Solo(_, part) => Sink::new(alloc, part),
            Schema::Tuple(_, first, others) => Sink::of_slices(alloc, &[], &[])?
                .with(Sink::new(alloc, first)?)?
                .with(Sink::new(alloc, others)?),
            Schema::Beside(field, later) => Sink::of_slices(alloc, &[], &[])?
                .with(Sink::new(alloc, field)?)?
                .with(Sink::new(alloc, later)?),
            Schema::Field(_, part) => Sink::new(alloc, part),
            Schema::Array(_, values) => {
                Sink::of_slices(alloc, &[0], &[])?.with(Sink::new(alloc, values)?)
            }
            Schema::Repeated(values) => {
                Sink::of_slices(alloc, &[0, 0, 2], &[])?.with(Sink::new(alloc, values)?)
            }
            Schema::Recalled(values) => {
                Sink::of_slices(alloc, &[0, 0, 2], &[0])?.with(Sink::new(alloc, values)?)
            }
            Schema::Sum(cases) => {
                Sink::of_slices(alloc, &[], &[0, 0])?.with(Sink::new(alloc, cases)?)
            }
            Schema::Named(_) => Sink::of_leaf(alloc, Leaf::Unit),
            Schema::Case(_, _, part) => Sink::new(alloc, part),
        }
    }

    // Returns the column of a type without parts.
    fn of_leaf(alloc: Global, leaf: Leaf) -> Result<Sink, AllocError> {
        match leaf {
            Leaf::Bool => Sink::of_slices(alloc, &[0, 2], &[]),
            Leaf::Unit => Sink::of_slices(alloc, &[1], &[]),
            Leaf::Duration => Sink::of_slices(alloc, &[0, 0], &[]),
            Leaf::Text(bounds) => Sink::of_slices(alloc, bounds_words(bounds), &[0]),
            _ => Sink::of_slices(alloc, &[0], &[]),
        }
    }

    // Returns a column without parts, whose slices begin with so many words.
    fn of_slices(alloc: Global, own: &[usize], after: &[usize]) -> Result<Sink, AllocError> {
        Ok(Sink {
            own: slices(alloc, own)?,
            parts: Vec::new(alloc),
            after: slices(alloc, after)?,
            recent: Vec::new(alloc),
        })
    }

    // Adds the column of a part.
    fn with(self, part: Sink) -> Result<Sink, AllocError> {
        let mut it = self;
        it.parts.push(part)?;
        Ok(it)
    }

    /// Returns slice `index` before the parts.
    pub fn slice(&mut self, index: usize) -> Result<&mut SliceBuilder, Misfit> {
        self.own.get_mut(index).ok_or(Misfit::Differs)
    }

    /// Returns slice `index` after the parts.
    pub fn later(&mut self, index: usize) -> Result<&mut SliceBuilder, Misfit> {
        self.after.get_mut(index).ok_or(Misfit::Differs)
    }

    /// Returns part `index`.
    pub fn part(&mut self, index: usize) -> Result<&mut Sink, Misfit> {
        self.parts.get_mut(index).ok_or(Misfit::Differs)
    }

    /// Appends the sizes of all slices, in order.
    pub fn sizes(&self, sizes: &mut Vec<usize>) -> Result<(), AllocError> {
        for slice in self.own.iter() {
            sizes.push(slice.size())?;
        }
        for part in self.parts.iter() {
            part.sizes(sizes)?;
        }
        for slice in self.after.iter() {
            sizes.push(slice.size())?;
        }
        Ok(())
    }

    /// Appends all slices to the bytes of a store, each up to a multiple of eight bytes.
    pub fn write(&self, out: &mut Vec<u8>) -> Result<(), AllocError> {
        for slice in self.own.iter() {
            write_padded(slice, out)?;
        }
        for part in self.parts.iter() {
            part.write(out)?;
        }
        for slice in self.after.iter() {
            write_padded(slice, out)?;
        }
        Ok(())
    }
}

// Appends a slice, and zeros up to a multiple of eight bytes.
fn write_padded(slice: &SliceBuilder, out: &mut Vec<u8>) -> Result<(), AllocError> {
    slice.write(out)?;
    out.extend_from_slice(padding(out.len()))
}

// Returns the zeros up to a multiple of eight bytes.
fn padding(length: usize) -> &'static [u8] {
    let zeros: &'static [u8] = &[0; 7];
    zeros.get(..(8 - length % 8) % 8).unwrap_or(&[])
}

// Returns slices with so many words each.
fn slices(alloc: Global, words: &[usize]) -> Result<Vec<SliceBuilder>, AllocError> {
    let mut all = Vec::new(alloc);
    for count in words {
        all.push(SliceBuilder::new(alloc, *count))?;
    }
    Ok(all)
}

// Returns how many words each slice of these bounds begins with.
fn bounds_words(bounds: Bounds) -> &'static [usize] {
    match bounds {
        Bounds::Words => &[0],
        Bounds::Strides => &[2, 0],
        Bounds::Unaries => &[0, 0, 2],
    }
}
