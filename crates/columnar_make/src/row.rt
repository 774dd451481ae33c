//! Pushes of rows.
use crate::bits::{push_bound, push_counted, push_variant};
use crate::leaf::{count_unit, push_leaf};
use crate::misfit::Misfit;
use crate::sink::Sink;
use columnar_syntax::schema::{Bounds, Brackets, Schema};
use serde_json::{Map, Value};
use std::alloc::Global;
use std::str;

// How many of the last values a column of lookbacks is compared with.
const BACK: usize = 255;

/// Pushes the row that JSON writes as this value.
#[cycle(rows)]
pub(crate) fn push_row(
    alloc: Global,
    schema: &Schema,
    value: &Value,
    sink: &mut Sink,
) -> Result<(), Misfit> {
    match schema {
        Schema::Simple(leaf) => push_leaf(*leaf, value, sink),
        Schema::Optional(values) => {
            if value.is_null() {
                return push_counted(sink, false);
            }
            push_counted(sink, true)?;
            push_row(alloc, values, value, sink.part(0)?)
        }
        Schema::Fallible(values, errors) => push_result(alloc, values, errors, value, sink),
        Schema::Lists(bounds, values) => push_list(alloc, *bounds, values, value, sink),
        Schema::Solo(Brackets::Square, field) => match items(value)? {
            [it] => push_row(alloc, field, it, sink),
            _ => Err(Misfit::Length),
        },
        Schema::Solo(Brackets::Curly, _) => push_object(alloc, schema, value, sink),
        Schema::Solo(Brackets::Bare, field) => push_row(alloc, field, value, sink),
        Schema::Tuple(Brackets::Square, first, others) => {
            push_places(alloc, first, others, items(value)?, sink)
        }
        Schema::Tuple(_, _, _) => push_object(alloc, schema, value, sink),
        Schema::Field(_, _) => push_object(alloc, schema, value, sink),
        Schema::Array(length, values) => {
            if items(value)?.len() != *length {
                return Err(Misfit::Length);
            }
            push_list(alloc, Bounds::Words, values, value, sink)
        }
        Schema::Repeated(values) => push_repeated(alloc, values, value, sink),
        Schema::Recalled(values) => push_recalled(alloc, values, value, sink),
        Schema::Sum(cases) => push_sum(alloc, cases, value, sink),
        _ => Err(Misfit::Kind),
    }
}

// Returns the items of an array.
fn items(value: &Value) -> Result<&[Value], Misfit> {
    match value.as_array() {
        Some(all) => Ok(all.as_slice()),
        None => Err(Misfit::Kind),
    }
}

// Pushes a list.
#[cycle(rows)]
fn push_list(
    alloc: Global,
    bounds: Bounds,
    values: &Schema,
    value: &Value,
    sink: &mut Sink,
) -> Result<(), Misfit> {
    let all = items(value)?;
    for it in all {
        push_row(alloc, values, it, sink.part(0)?)?;
    }
    push_bound(sink, bounds, all.len())
}

// Pushes a value, `{"Ok":..}`, or an error, `{"Err":..}`.
#[cycle(rows)]
fn push_result(
    alloc: Global,
    values: &Schema,
    errors: &Schema,
    value: &Value,
    sink: &mut Sink,
) -> Result<(), Misfit> {
    let fields = value.as_object().ok_or(Misfit::Kind)?;
    if fields.len() != 1 {
        return Err(Misfit::Field);
    }
    match (fields.get("Ok"), fields.get("Err")) {
        (Some(it), _) => {
            push_counted(sink, true)?;
            push_row(alloc, values, it, sink.part(0)?)
        }
        (None, Some(it)) => {
            push_counted(sink, false)?;
            push_row(alloc, errors, it, sink.part(1)?)
        }
        (None, None) => Err(Misfit::Field),
    }
}

// Pushes the fields of a tuple.
#[cycle(rows)]
fn push_places(
    alloc: Global,
    first: &Schema,
    others: &Schema,
    values: &[Value],
    sink: &mut Sink,
) -> Result<(), Misfit> {
    let [value, rest @ ..] = values else {
        return Err(Misfit::Length);
    };
    push_row(alloc, first, value, sink.part(0)?)?;
    match (others, rest) {
        (Schema::Beside(field, later), _) => push_places(alloc, field, later, rest, sink.part(1)?),
        (_, [it]) => push_row(alloc, others, it, sink.part(1)?),
        _ => Err(Misfit::Length),
    }
}

// Pushes the fields of an object, which has no others. An optional field may be absent.
#[cycle(rows)]
fn push_object(
    alloc: Global,
    schema: &Schema,
    value: &Value,
    sink: &mut Sink,
) -> Result<(), Misfit> {
    let fields = value.as_object().ok_or(Misfit::Kind)?;
    if fields.len() != found_in(schema, fields) {
        return Err(Misfit::Field);
    }
    push_fields(alloc, schema, fields, sink)
}

// Returns how many of the named fields are there.
fn found_in(schema: &Schema, fields: &Map<String, Value>) -> usize {
    match schema {
        Schema::Solo(_, field) => found_in(field, fields),
        Schema::Tuple(_, first, others) => {
            found_in(first, fields).saturating_add(found_in(others, fields))
        }
        Schema::Beside(field, later) => {
            found_in(field, fields).saturating_add(found_in(later, fields))
        }
        Schema::Field(name, _) => fields.contains_key(text_of(name.as_slice())) as usize,
        _ => 0,
    }
}

// Pushes fields by their names.
#[cycle(rows)]
fn push_fields(
    alloc: Global,
    schema: &Schema,
    fields: &Map<String, Value>,
    sink: &mut Sink,
) -> Result<(), Misfit> {
    match schema {
        Schema::Solo(_, field) => push_fields(alloc, field, fields, sink),
        Schema::Tuple(_, first, others) => {
            push_fields(alloc, first, fields, sink.part(0)?)?;
            push_fields(alloc, others, fields, sink.part(1)?)
        }
        Schema::Beside(field, later) => {
            push_fields(alloc, field, fields, sink.part(0)?)?;
            push_fields(alloc, later, fields, sink.part(1)?)
        }
        Schema::Field(name, part) => match fields.get(text_of(name.as_slice())) {
            Some(value) => push_row(alloc, part, value, sink),
            None if is_optional(part) => push_row(alloc, part, &Value::Null, sink),
            None => Err(Misfit::Field),
        },
        _ => Err(Misfit::Kind),
    }
}

// Tests whether a field may be absent.
fn is_optional(part: &Schema) -> bool {
    matches!(part, Schema::Optional(_))
}

// Returns a name as text.
fn text_of(name: &[u8]) -> &str {
    str::from_utf8(name).unwrap_or("")
}

// Pushes a value that is stored once for a run of equal ones.
#[cycle(rows)]
fn push_repeated(
    alloc: Global,
    values: &Schema,
    value: &Value,
    sink: &mut Sink,
) -> Result<(), Misfit> {
    let text = value.to_string(alloc)?;
    if let Some(last) = sink.recent.last() {
        if last.as_str() == text.as_str() {
            return push_counted(sink, false);
        }
    }
    sink.recent.clear();
    sink.recent.push(text)?;
    push_counted(sink, true)?;
    push_row(alloc, values, value, sink.part(0)?)
}

// Pushes a value that may look back to one of the last `BACK`.
#[cycle(rows)]
fn push_recalled(
    alloc: Global,
    values: &Schema,
    value: &Value,
    sink: &mut Sink,
) -> Result<(), Misfit> {
    let text = value.to_string(alloc)?;
    let found = sink
        .recent
        .iter()
        .rev()
        .position(|it| it.as_str() == text.as_str());
    if let Some(back) = found {
        push_counted(sink, false)?;
        return sink.later(0)?.append(&[u8::try_from(back).unwrap_or(0)]);
    }
    if sink.recent.len() >= BACK {
        let _oldest = sink.recent.remove(0);
    }
    sink.recent.push(text)?;
    push_counted(sink, true)?;
    push_row(alloc, values, value, sink.part(0)?)
}

// Pushes a row of an enum: a variant's name, or an object of the name and the value.
#[cycle(rows)]
fn push_sum(alloc: Global, cases: &Schema, value: &Value, sink: &mut Sink) -> Result<(), Misfit> {
    let variant = match value {
        Value::String(name) => push_case(alloc, cases, name.as_str(), None, 0, sink.part(0)?)?,
        Value::Object(fields) => match fields.iter().next() {
            Some((name, inside)) if fields.len() == 1 => {
                push_case(alloc, cases, name.as_str(), Some(inside), 0, sink.part(0)?)?
            }
            _ => return Err(Misfit::Field),
        },
        _ => return Err(Misfit::Kind),
    };
    push_variant(sink, variant)
}

// Pushes the value of the variant with this name. Returns the number of the variant.
#[cycle(rows)]
fn push_case(
    alloc: Global,
    cases: &Schema,
    name: &str,
    value: Option<&Value>,
    before: u8,
    sink: &mut Sink,
) -> Result<u8, Misfit> {
    match (cases, value) {
        (Schema::Beside(case, later), _) => {
            if is_named(case, name) {
                return push_case(alloc, case, name, value, before, sink.part(0)?);
            }
            push_case(
                alloc,
                later,
                name,
                value,
                before.saturating_add(1),
                sink.part(1)?,
            )
        }
        (Schema::Named(own), None) if own.as_slice() == name.as_bytes() => {
            count_unit(sink)?;
            Ok(before)
        }
        (Schema::Case(own, _, part), Some(it)) if own.as_slice() == name.as_bytes() => {
            push_row(alloc, part, it, sink)?;
            Ok(before)
        }
        _ => Err(Misfit::Variant),
    }
}

// Tests whether a variant has this name.
fn is_named(case: &Schema, name: &str) -> bool {
    match case {
        Schema::Named(own) => own.as_slice() == name.as_bytes(),
        Schema::Case(own, _, _) => own.as_slice() == name.as_bytes(),
        _ => false,
    }
}
