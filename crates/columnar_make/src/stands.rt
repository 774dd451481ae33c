//! Comparison of the value of a line with that of a row.
ghost use Rattle.std.specs.Prelude.{◌≡◌, is_some, true};
ghost use Rattle.serde_json.specs.Find.{get};
ghost use Rattle.serde_json.specs.View.{items_view, members_view, number_view, view};
ghost use Rattle.columnar_make.specs.Stands.{AreMembers, HasMembers, IsSameNumber, StandForItems, StandsFor};

use serde_json::{Map, Number, Value};
use std::num::f64_to_bits_with_nan;

/// Tests whether the value of a line stands for the value that a row is written as.
#[cycle(stands)]
pub(crate) fn stands_for(line: &Value, row: &Value) -> bool
    ensures { result ≡ true → StandsFor (view line.now) (view row.now) }
{
    match (line, row) {
        (Value::Null, Value::Null) => true,
        (Value::Bool(one), Value::Bool(other)) => *one == *other,
        (Value::Number(one), Value::Number(other)) => is_same_number(one, other),
        (Value::String(one), Value::String(other)) => one.as_str() == other.as_str(),
        (Value::Array(one), Value::Array(other)) => items_stand(one.as_slice(), other.as_slice()),
        (Value::Object(given), Value::Object(written)) => {
            has_members(line, written) && are_members(given, row)
        }
        _ => false,
    }
}

// Tests whether two numbers are the same integer, or the same float.
fn is_same_number(line: &Number, row: &Number) -> bool
    ensures { result ≡ true → IsSameNumber (number_view line.now) (number_view row.now) }
{
    match (line.as_i128(), row.as_i128()) {
        (Some(one), Some(other)) => one == other,
        (_, None) => match (line.as_f64(), row.as_f64()) {
            (Some(one), Some(other)) => f64_to_bits_with_nan(one) == f64_to_bits_with_nan(other),
            _ => false,
        },
        (None, Some(_)) => false,
    }
}

// Tests whether the items of a line stand for those of a row.
#[cycle(stands)]
fn items_stand(line: &[Value], row: &[Value]) -> bool
    ensures { result ≡ true → StandForItems (items_view line.now) (items_view row.now) }
{
    if line.len() != row.len() {
        return false;
    }
    for index in 0..row.len() {
        if !stands_for(&line[index], &row[index]) {
            return false;
        }
    }
    true
}

// Tests whether a line has the members of a row, or these are null.
#[cycle(stands)]
fn has_members(line: &Value, row: &Map<String, Value>) -> bool
    ensures { result ≡ true → HasMembers (view line.now) (members_view row.now.entries) }
{
    for (key, written) in row.iter() {
        match line.get(key.as_str()) {
            Some(given) => {
                if !stands_for(given, written) {
                    return false;
                }
            }
            None => {
                if !written.is_null() {
                    return false;
                }
            }
        }
    }
    true
}

// Tests whether a value has a member with this name.
fn has_member(row: &Value, key: &str) -> bool
    ensures { result ≡ is_some (get key.now (view row.now)) }
{
    row.get(key).is_some()
}

// Tests whether a row has the members of a line.
fn are_members(line: &Map<String, Value>, row: &Value) -> bool
    ensures { result ≡ true → AreMembers (members_view line.now.entries) (view row.now) }
{
    for (key, _given) in line.iter() {
        if !has_member(row, key.as_str()) {
            return false;
        }
    }
    true
}
