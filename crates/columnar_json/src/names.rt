//! The names of fields.
ghost use Rattle.std.specs.Prelude.{◌≡◌, ◌++◌, [], map, IfOk, OnOk};
ghost use Rattle.std.specs.List.{flat_map};
ghost use Rattle.columnar_base.specs.Row.{unit};
ghost use Rattle.columnar_json.specs.Csv.{after_commas, field_of, head_of, later_fields, name_in, names_of};
ghost use Rattle.columnar_json.specs.Pieces.{plain};
ghost use Rattle.columnar_json.specs.Written.{WroteRow};

use crate::fields::push_field;
use crate::text::push_bytes;
use crate::unwritten::Unwritten;
use columnar_schema::typed::Type;
use columnar_syntax::schema::Schema;
use std::alloc::Global;

// Appends the name of a field, if it has one.
fn push_name<'a>(field: &'a Schema, names: &mut Vec<&'a [u8]>) -> Result<(), Unwritten>
    ensures { OnOk result (map (λ n. n.now) names.new.items ≡ map (λ n. n.now) names.old.items ++ name_in field.now) }
{
    match field {
        Schema::Field(name, _) => match names.push(name.as_slice()) {
            Ok(()) => Ok(()),
            Err(_) => Err(Unwritten::Memory),
        },
        _ => Ok(()),
    }
}

// Appends the names of the fields of a tuple from the second on.
fn push_later<'a>(schema: &'a Schema, names: &mut Vec<&'a [u8]>) -> Result<(), Unwritten>
    ensures { OnOk result (map (λ n. n.now) names.new.items ≡ map (λ n. n.now) names.old.items ++ flat_map (λ f. name_in f.0) (later_fields schema.now unit)) }
{
    match schema {
        Schema::Beside(field, later) => {
            push_name(field, names)?;
            push_later(later, names)
        }
        _ => push_name(schema, names),
    }
}

/// Returns the names of the fields of a struct, none for another type.
pub fn field_names<'a>(alloc: Global, kind: &'a Type) -> Result<Vec<&'a [u8]>, Unwritten>
    ensures { IfOk result (λ names. map (λ n. n.now) names.items ≡ names_of kind.now.schema) }
{
    let mut names = Vec::new(alloc);
    match kind.schema() {
        Schema::Solo(_, field) => push_name(field, &mut names)?,
        Schema::Tuple(_, first, others) => {
            push_name(first, &mut names)?;
            push_later(others, &mut names)?;
        }
        schema => push_name(schema, &mut names)?,
    }
    Ok(names)
}

// Appends names as fields, each after a comma.
fn push_others(names: &[&[u8]], out: &mut Vec<u8>) -> Result<(), Unwritten>
    ensures { WroteRow out.old.items out.new.items (after_commas (map (λ n. field_of (plain n)) (map (λ n. n.now) names.now))) [] result }
{
    match names.split_first() {
        None => push_bytes(out, b""),
        Some((name, rest)) => {
            push_bytes(out, b",")?;
            push_field(out, name)?;
            push_others(rest, out)
        }
    }
}

/// Appends names as fields, with commas between them.
pub fn push_head(names: &[&[u8]], out: &mut Vec<u8>) -> Result<(), Unwritten>
    ensures { WroteRow out.old.items out.new.items (head_of (map (λ n. n.now) names.now)) [] result }
{
    match names.split_first() {
        None => push_bytes(out, b""),
        Some((name, rest)) => {
            push_field(out, name)?;
            push_others(rest, out)
        }
    }
}
