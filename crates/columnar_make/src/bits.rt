//! Pushes of bits, bounds and variants.
use crate::misfit::Misfit;
use crate::sink::Sink;
use columnar_syntax::schema::Bounds;

/// Pushes a bit to a column of bits whose whole words are slice `words`, and whose tail is the slice after it.
pub(crate) fn push_bit(sink: &mut Sink, words: usize, bit: bool) -> Result<(), Misfit> {
    let tail = sink.slice(words.saturating_add(1))?;
    tail.first |= (bit as u64) << (tail.second % 64);
    tail.second = tail.second.saturating_add(1);
    if bit {
        tail.total = tail.total.saturating_add(1);
    }
    if tail.second == 64 {
        let word = tail.first;
        tail.first = 0;
        tail.second = 0;
        return sink.slice(words)?.append_word(word);
    }
    Ok(())
}

/// Pushes a bit to a column of counted bits: slices 0 to 2.
pub(crate) fn push_counted(sink: &mut Sink, bit: bool) -> Result<(), Misfit> {
    push_bit(sink, 1, bit)?;
    let tail = sink.slice(2)?;
    let (inside, ones) = (tail.second, tail.total);
    let complete = sink.slice(1)?.bytes.len();
    if inside == 0 && complete % 128 == 0 {
        sink.slice(0)?.append_word(ones)?;
    }
    Ok(())
}

/// Pushes the bound after a list of this length.
pub(crate) fn push_bound(sink: &mut Sink, bounds: Bounds, length: usize) -> Result<(), Misfit> {
    match bounds {
        Bounds::Words => {
            let ends = sink.slice(0)?;
            ends.total = ends.total.saturating_add(length as u64);
            let end = ends.total;
            ends.append_word(end)
        }
        Bounds::Strides => push_multiple(sink, length as u64),
        Bounds::Unaries => {
            for _ in 0..length {
                push_counted(sink, false)?;
            }
            push_counted(sink, true)
        }
    }
}

// Pushes the bound after a list of this length: as a multiple of the stride, if all bounds are.
fn push_multiple(sink: &mut Sink, length: u64) -> Result<(), Misfit> {
    let numbers = sink.slice(1)?.bytes.len();
    let head = sink.slice(0)?;
    head.total = head.total.saturating_add(length);
    let end = head.total;
    if numbers == 0 && head.second == 0 {
        head.first = end;
    }
    let next = head.second.saturating_add(1);
    if numbers == 0 && head.first.checked_mul(next) == Some(end) {
        head.second = next;
        return Ok(());
    }
    sink.slice(1)?.append_word(end)
}

/// Pushes the variant of a row of an enum.
pub(crate) fn push_variant(sink: &mut Sink, variant: u8) -> Result<(), Misfit> {
    let offsets = sink.later(1)?;
    let only = offsets.first;
    let rows = offsets.second;
    let is_single = offsets.words == 2;
    if offsets.bytes.is_empty() && (!is_single || only == (variant as u64).saturating_add(1)) {
        offsets.words = 2;
        offsets.first = (variant as u64).saturating_add(1);
        offsets.second = rows.saturating_add(1);
        return Ok(());
    }
    if is_single {
        expand(sink, only.saturating_sub(1), rows)?;
    }
    push_mixed(sink, variant)
}

// Writes the variant and the offset of each row, all of which have this variant.
fn expand(sink: &mut Sink, variant: u64, rows: u64) -> Result<(), Misfit> {
    let variant = u8::try_from(variant).unwrap_or(0);
    sink.later(1)?.words = 0;
    for _ in 0..rows {
        push_mixed(sink, variant)?;
    }
    Ok(())
}

// Pushes the variant and the offset of a row.
fn push_mixed(sink: &mut Sink, variant: u8) -> Result<(), Misfit> {
    sink.later(0)?.append(&[variant])?;
    let offsets = sink.later(1)?;
    for _ in offsets.counts.len()..256 {
        offsets.counts.push(0)?;
    }
    let Some(count) = offsets.counts.get_mut(variant as usize) else {
        return Err(Misfit::Variant);
    };
    let earlier = *count;
    *count = earlier.saturating_add(1);
    offsets.append_word(earlier)
}
