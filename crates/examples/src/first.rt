//! A record type, its column, its bytes and its rows: the first column of README.
use columnar::bytes::stash::Stash;
use columnar::string::as_text;
use columnar::{Columnar, ContainerOf, Field, Index, Len, SetItem};
use std::alloc::Global;
use std::io::Write;

/// A time, a name, and a duration if known.
pub type Record = (u64, String, Option<u32>);

/// The columns of records.
pub type Columns = ContainerOf<Record>;

/// Returns two records.
fn two(alloc: Global) -> anyhow::Result<Vec<Record>> {
    let mut records = Vec::new(alloc);
    records.push((12, String::from_str(alloc, "ann")?, Some(7)))?;
    records.push((15, String::from_str(alloc, "bob")?, None))?;
    Ok(records)
}

/// Writes two records as a column, opens it and reads it in place; then changes the time of the first record.
pub fn show<O: Write>(alloc: Global, out: &mut O) -> anyhow::Result<()> {
    let records = two(alloc)?;
    let columns = Record::column_of(alloc, records.as_slice())?;
    let mut bytes = Vec::new(alloc);
    Stash::<Columns, Vec<u8>>::Typed(columns).write_bytes(&mut bytes)?;
    let mut opened = Stash::<Columns, Vec<u8>>::try_from_bytes(alloc, bytes)?;
    for (time, name, length) in opened.borrow().into_index_iter() {
        let name = as_text(name)?;
        writeln!(out, "{time} {name} {length:?}")?;
    }
    if opened.len() > 0 {
        opened.make_typed()?.set_item(0, Field::<0>, 13u64);
        let (time, name, _length) = Record::into_owned(alloc, opened.borrow().get(0))?;
        writeln!(out, "{name} at {time}")?;
    }
    Ok(())
}
