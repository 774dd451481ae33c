//! Types as they stand in a source file, with comments, attributes and visibility.
ghost use Rattle.std.specs.Prelude.{◌≡◌, [], IfOk, IfErr};
ghost use Rattle.columnar_syntax.specs.Declarations.{declared_in};
ghost use Rattle.columnar_syntax.specs.Names.{Declares, Names, a_type};
ghost use Rattle.columnar_syntax.specs.Plain.{type_tokens};
ghost use Rattle.columnar_syntax.specs.Reading.{NestsWithin};
ghost use Rattle.columnar_syntax.specs.Sources.{in_source};
ghost use Rattle.columnar_syntax.specs.declared.schema.Schema.{Schema};
ghost use Rattle.columnar_syntax.specs.declared.text.Mistake.TheVariants.{Memory, Undeclared};

use crate::plain::plain;
use crate::schema::{Bounds, Schema};
use crate::text::{self, Refused};
use std::alloc::Global;

/// Parses a type as it stands in a source file: comments, attributes that choose no column, and `pub` are passed
/// over. `lists` chooses the bounds of `Vec<T>`: `Bounds::Unaries` is this library's choice, `Bounds::Words` that of the
/// Rust crate.
///
/// # Errors
/// The first mistake and its position.
#[tactic(auto, using(crate::specs::SourceLaws::unended_names_none, crate::specs::SourceLaws::ended_tokens))]
pub fn parse(alloc: Global, text: &[u8], lists: Bounds) -> Result<Schema, Refused>
    ensures names { IfOk result (λ s. Names lists a_type (type_tokens text.now) s) }
    ensures whole { (s : Schema) (n : Names lists a_type (type_tokens text.now) s) → NestsWithin 64 n → IfErr result (λ e. e.mistake ≡ Memory) }
{
    let shown = plain(alloc, text)?;
    text::parse(alloc, shown.as_slice(), lists)
}

/// Parses the type of the first declaration of a name, `struct NAME` or `enum NAME`, in a source file. Its fields may name
/// other structs and enums that the file declares, in any order; all else in the file is passed over. Each use of a name
/// costs as much as its declaration, so a short file can name a very large type.
///
/// # Errors
/// The first mistake and its position in the file. `Undeclared` at the end of the file if it has no such declaration.
#[tactic(auto, using(crate::specs::SourceLaws::unended_declares_none, crate::specs::SourceLaws::unended_declared, crate::specs::SourceLaws::ended_tokens, crate::specs::SourceLaws::plain_source, crate::specs::SourceLaws::declared_plainly))]
pub fn parse_declared(
    alloc: Global,
    source: &[u8],
    name: &[u8],
    lists: Bounds,
) -> Result<Schema, Refused>
    ensures names { IfOk result (λ s. Declares (in_source lists source.now) name.now s) }
    ensures whole { (s : Schema) (d : Declares (in_source lists source.now) name.now s) → NestsWithin 64 d.names → IfErr result (λ e. e.mistake ≡ Memory) }
    ensures declared { IfErr result (λ e. e.mistake ≡ Undeclared → declared_in name.now (type_tokens source.now) ≡ []) }
{
    let shown = plain(alloc, source)?;
    text::parse_declared(alloc, shown.as_slice(), name, lists)
}
