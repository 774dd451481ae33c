//! Pushes of values without parts.
use crate::bits::{push_bit, push_bound};
use crate::misfit::Misfit;
use crate::sink::Sink;
use columnar_syntax::schema::{Bounds, Leaf};
use serde_json::Value;
use std::num::{f32_to_bits_with_nan, f64_to_bits_with_nan, nearest_f64_to_f32_with_nan};

/// Pushes the value that JSON writes as this.
pub(crate) fn push_leaf(leaf: Leaf, value: &Value, sink: &mut Sink) -> Result<(), Misfit> {
    match leaf {
        Leaf::U8 => push_unsigned(value, u8::MAX as u64, 1, sink),
        Leaf::U16 => push_unsigned(value, u16::MAX as u64, 2, sink),
        Leaf::U32 => push_unsigned(value, u32::MAX as u64, 4, sink),
        Leaf::U64 => push_unsigned(value, u64::MAX, 8, sink),
        Leaf::Usize => push_unsigned(value, u64::MAX, 8, sink),
        Leaf::U128 => {
            push_unsigned(value, u64::MAX, 8, sink)?;
            sink.slice(0)?.append_word(0)
        }
        Leaf::I8 => push_signed(value, i8::MIN as i64, i8::MAX as i64, 1, sink),
        Leaf::I16 => push_signed(value, i16::MIN as i64, i16::MAX as i64, 2, sink),
        Leaf::I32 => push_signed(value, i32::MIN as i64, i32::MAX as i64, 4, sink),
        Leaf::I64 => push_signed(value, i64::MIN, i64::MAX, 8, sink),
        Leaf::Isize => push_signed(value, i64::MIN, i64::MAX, 8, sink),
        Leaf::I128 => push_large(value, sink),
        Leaf::F32 => push_single(value, sink),
        Leaf::F64 => push_double(value, sink),
        Leaf::Bool => push_bit(sink, 0, value.as_bool().ok_or(Misfit::Kind)?),
        Leaf::Char => push_character(value, sink),
        Leaf::Unit => push_unit(value, sink),
        Leaf::Duration => push_duration(value, sink),
        Leaf::Text(bounds) => push_text(bounds, value, sink),
    }
}

// Pushes a number of at most `most`, as so many bytes.
fn push_unsigned(value: &Value, most: u64, width: usize, sink: &mut Sink) -> Result<(), Misfit> {
    let number = unsigned(value)?;
    if number > most {
        return Err(Misfit::Range);
    }
    sink.slice(0)?.append(low(&number.to_le_bytes(), width))
}

// Pushes a number within a range, as so many bytes.
fn push_signed(
    value: &Value,
    least: i64,
    most: i64,
    width: usize,
    sink: &mut Sink,
) -> Result<(), Misfit> {
    let number = signed(value)?;
    if number < least || number > most {
        return Err(Misfit::Range);
    }
    sink.slice(0)?.append(low(&number.to_le_bytes(), width))
}

// Pushes a number as sixteen bytes.
fn push_large(value: &Value, sink: &mut Sink) -> Result<(), Misfit> {
    let number = match value.as_u64() {
        Some(number) => number as i128,
        None => signed(value)? as i128,
    };
    sink.slice(0)?.append(&number.to_le_bytes())
}

// Returns the first bytes.
fn low(bytes: &[u8; 8], width: usize) -> &[u8] {
    bytes.get(..width).unwrap_or(&[])
}

// Returns a number that is not negative.
fn unsigned(value: &Value) -> Result<u64, Misfit> {
    value.as_u64().ok_or(number_misfit(value))
}

// Returns a number of 64 bits.
fn signed(value: &Value) -> Result<i64, Misfit> {
    value.as_i64().ok_or(number_misfit(value))
}

// Pushes a number as the nearest float of 32 bits.
fn push_single(value: &Value, sink: &mut Sink) -> Result<(), Misfit> {
    let number = nearest_f64_to_f32_with_nan(real(value)?);
    sink.slice(0)?
        .append(&f32_to_bits_with_nan(number).to_le_bytes())
}

// Pushes a number as a float of 64 bits.
fn push_double(value: &Value, sink: &mut Sink) -> Result<(), Misfit> {
    sink.slice(0)?
        .append_word(f64_to_bits_with_nan(real(value)?))
}

// Returns a number as a float.
fn real(value: &Value) -> Result<f64, Misfit> {
    value.as_f64().ok_or(Misfit::Kind)
}

// Returns why a value is not a number of the wanted type.
fn number_misfit(value: &Value) -> Misfit {
    if value.is_number() {
        Misfit::Range
    } else {
        Misfit::Kind
    }
}

// Pushes the only character of a text.
fn push_character(value: &Value, sink: &mut Sink) -> Result<(), Misfit> {
    let mut characters = value.as_str().ok_or(Misfit::Kind)?.chars();
    match (characters.next(), characters.next()) {
        (Some(it), None) => sink.slice(0)?.append(&(it as u32).to_le_bytes()),
        _ => Err(Misfit::Length),
    }
}

// Counts a unit.
fn push_unit(value: &Value, sink: &mut Sink) -> Result<(), Misfit> {
    if !value.is_null() {
        return Err(Misfit::Kind);
    }
    count_unit(sink)
}

/// Counts a row without a value.
pub(crate) fn count_unit(sink: &mut Sink) -> Result<(), Misfit> {
    let count = sink.slice(0)?;
    count.first = count.first.saturating_add(1);
    Ok(())
}

// Pushes a span of time: seconds, and nanoseconds below a second.
fn push_duration(value: &Value, sink: &mut Sink) -> Result<(), Misfit> {
    let fields = value.as_object().ok_or(Misfit::Kind)?;
    let (Some(seconds), Some(nanos)) = (fields.get("secs"), fields.get("nanos")) else {
        return Err(Misfit::Field);
    };
    if fields.len() != 2 {
        return Err(Misfit::Field);
    }
    let nanos = unsigned(nanos)?;
    if nanos >= 1_000_000_000 {
        return Err(Misfit::Range);
    }
    sink.slice(0)?.append_word(unsigned(seconds)?)?;
    sink.slice(1)?.append(low(&nanos.to_le_bytes(), 4))
}

// Pushes a text.
fn push_text(bounds: Bounds, value: &Value, sink: &mut Sink) -> Result<(), Misfit> {
    let text = value.as_str().ok_or(Misfit::Kind)?;
    push_bound(sink, bounds, text.len())?;
    sink.later(0)?.append(text.as_bytes())
}
