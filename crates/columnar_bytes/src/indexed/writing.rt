//! Writing a column as bytes.
ghost use Rattle.std.specs.Prelude.{◌<◌, ◌*◌, ◌^◌, length, replicate, IsTrue, IfErr, OnOk, OnErr};
ghost use Rattle.std.specs.List.{flat_map};
ghost use Rattle.std.specs.Io.KnownBytes.{Appends};
ghost use Rattle.columnar_core.specs.Format.{representable, slices_of};
ghost use Rattle.columnar_core.specs.Bytes.{word_bytes, le_bytes};
ghost use Rattle.columnar_core.specs.Words.{table_words, words, padded, store_bytes};
ghost use Rattle.columnar_core.specs.Slices.{bytes_in};
ghost use Rattle.columnar_core.specs.Sent.{AppendsBeginning};
ghost use Rattle.columnar_bytes.specs.Written.{IsLeftBy};

use super::lengths::length_in_words;
use super::slices::{byte_slice, slice_count};
use columnar_core::byte_slice::ByteSlice;
use columnar_core::bytes::AsBytes;
use columnar_core::fault::WriteFault;
use columnar_core::store::round_up;
use columnar_core::writer::WriteBytes;

static ZEROS: [u8; 8] = [0, 0, 0, 0, 0, 0, 0, 0];

/// Writes the bytes of the column's encoding, lowest byte first within a word, and nothing else.
///
/// # Requires
/// A representable type.
///
/// # Errors
/// `Length` if and only if the encoding would exceed 2^64 - 1 bytes; then nothing was written. `Writer` if the writer
/// failed; then a beginning of the bytes was written, but not all.
pub fn write<'a, W: WriteBytes, S: AsBytes<'a>>(
    writer: &mut W,
    item: &S,
) -> Result<(), WriteFault<W::Error>>
    requires { IsTrue (representable S.format) }
    ensures ok { OnOk result (Appends (W.contents writer.old) (W.contents writer.new) (store_bytes (slices_of (S.content item.now)))) }
    ensures err { IfErr result (IsLeftBy (W.contents writer.old) (W.contents writer.new) (slices_of (S.content item.now))) }
    ensures counted { OnOk result (8 * length (words (slices_of (S.content item.now))) < 2 ^ 64) }
{
    if length_in_words(item).is_none() {
        return Err(WriteFault::Length);
    }
    match write_all_slices(writer, item) {
        Ok(()) => Ok(()),
        Err(fault) => Err(WriteFault::Writer(fault)),
    }
}

fn write_all_slices<'a, W: WriteBytes, S: AsBytes<'a>>(
    writer: &mut W,
    item: &S,
) -> Result<(), W::Error>
    requires representable { IsTrue (representable S.format) }
    requires room { 8 * length (words (slices_of (S.content item.now))) < 2 ^ 64 }
    ensures ok { OnOk result (Appends (W.contents writer.old) (W.contents writer.new) (store_bytes (slices_of (S.content item.now)))) }
    ensures err { OnErr result (AppendsBeginning (W.contents writer.old) (W.contents writer.new) (store_bytes (slices_of (S.content item.now)))) }
{
    write_table(writer, item)?;
    write_slices(writer, item)
}

fn write_table<'a, W: WriteBytes, S: AsBytes<'a>>(writer: &mut W, item: &S) -> Result<(), W::Error>
    requires representable { IsTrue (representable S.format) }
    requires room { 8 * length (words (slices_of (S.content item.now))) < 2 ^ 64 }
    ensures ok { OnOk result (Appends (W.contents writer.old) (W.contents writer.new) (le_bytes (table_words (slices_of (S.content item.now))))) }
    ensures err { OnErr result (AppendsBeginning (W.contents writer.old) (W.contents writer.new) (le_bytes (table_words (slices_of (S.content item.now))))) }
{
    let count = slice_count(item);
    let mut start = 8 * (count + 1);
    write_word(writer, start as u64)?;
    for i in 0..count {
        let end = start + byte_slice(item, i).len();
        write_word(writer, end as u64)?;
        start = round_up(end);
    }
    Ok(())
}

fn write_word<W: WriteBytes>(writer: &mut W, word: u64) -> Result<(), W::Error>
    ensures ok { OnOk result (Appends (W.contents writer.old) (W.contents writer.new) (word_bytes word)) }
    ensures err { OnErr result (AppendsBeginning (W.contents writer.old) (W.contents writer.new) (word_bytes word)) }
{
    writer.write_all(&word.to_le_bytes())
}

fn write_slices<'a, W: WriteBytes, S: AsBytes<'a>>(writer: &mut W, item: &S) -> Result<(), W::Error>
    requires { IsTrue (representable S.format) }
    ensures ok { OnOk result (Appends (W.contents writer.old) (W.contents writer.new) (flat_map padded (slices_of (S.content item.now)))) }
    ensures err { OnErr result (AppendsBeginning (W.contents writer.old) (W.contents writer.new) (flat_map padded (slices_of (S.content item.now)))) }
{
    for i in 0..slice_count(item) {
        write_padded(writer, byte_slice(item, i))?;
    }
    Ok(())
}

fn write_padded<W: WriteBytes>(writer: &mut W, slice: ByteSlice<'_>) -> Result<(), W::Error>
    ensures ok { OnOk result (Appends (W.contents writer.old) (W.contents writer.new) (padded (bytes_in slice.entry))) }
    ensures err { OnErr result (AppendsBeginning (W.contents writer.old) (W.contents writer.new) (padded (bytes_in slice.entry))) }
{
    slice.write(writer)?;
    write_zeros(writer, (8 - slice.len() % 8) % 8)
}

fn write_zeros<W: WriteBytes>(writer: &mut W, count: usize) -> Result<(), W::Error>
    requires { count < 8 }
    ensures ok { OnOk result (Appends (W.contents writer.old) (W.contents writer.new) (replicate count 0)) }
    ensures err { OnErr result (AppendsBeginning (W.contents writer.old) (W.contents writer.new) (replicate count 0)) }
{
    writer.write_all(&ZEROS[..count])
}
