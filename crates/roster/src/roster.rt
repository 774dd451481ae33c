//! The roster: persons who are present alone or in teams, as a column of groups and as bytes.
ghost use Rattle.std.specs.Prelude.{◌≡◌, All, IfOk, IsTrue, string_bytes};
ghost use Rattle.columnar.specs.Accepted.{Accepts};
ghost use Rattle.columnar.specs.Format.{IsSound, representable, slices_of};
ghost use Rattle.roster.specs.Told.{slice_lines};
ghost use Rattle.roster.specs.Uses.{shown};

use crate::group::Group;
use crate::group::ages::{Aged, sum_ages};
use columnar::bytes::stash::Stash;
use columnar::common::Earlier;
use columnar::fault::{GrowError, WriteFault};
use columnar::{AsBytes, Columnar, ContainerBytes, ContainerOf, Index, Len, PushRef, Storage};
use std::alloc::{AllocError, Global};

/// A name and an age.
pub type Person = (String, u64);

/// The column of the persons who are present.
pub type Columns = ContainerOf<Group<Person>>;

/// The earlier form of these columns, in which the bounds of lists are numbers.
pub type OldColumns = <Columns as Earlier>::Old;

/// Why something could not be built.
#[derive(Clone, Copy)]
pub enum Unbuilt {
    Memory,
    TooLong,
}

impl From<GrowError> for Unbuilt {
    fn from(error: GrowError) -> Unbuilt {
        match error {
            GrowError::Memory => Unbuilt::Memory,
            _ => Unbuilt::TooLong,
        }
    }
}

impl From<AllocError> for Unbuilt {
    fn from(_error: AllocError) -> Unbuilt {
        Unbuilt::Memory
    }
}

// Returns a person with a name and an age.
fn person(alloc: Global, name: &str, age: u64) -> Result<Person, AllocError> {
    Ok((String::from_str(alloc, name)?, age))
}

// Returns a person whose name ends with the number, which is also the age.
fn numbered(alloc: Global, name: &str, number: u64) -> Result<Person, AllocError> {
    Ok((format!(in alloc; "{name}{number}")?, number))
}

// Returns a team of two.
fn pair(alloc: Global, one: Person, other: Person) -> Result<Group<Person>, AllocError> {
    let mut team = Vec::new(alloc);
    team.push(one)?;
    team.push(other)?;
    Ok(Group::Team(team))
}

/// Returns Alice alone, the team of Bob and Carol, and 1024 pairs of a brain and a brawn.
pub fn everyone(alloc: Global) -> Result<Vec<Group<Person>>, AllocError> {
    let mut groups = Vec::new(alloc);
    groups.push(Group::Solo(person(alloc, "Alice", 20)?))?;
    groups.push(pair(
        alloc,
        person(alloc, "Bob", 21)?,
        person(alloc, "Carol", 22)?,
    )?)?;
    for number in 0..1024 {
        let brain = numbered(alloc, "Brain", number)?;
        let brawn = numbered(alloc, "Brawn", number)?;
        groups.push(pair(alloc, brain, brawn)?)?;
    }
    Ok(groups)
}

/// Returns the bytes of a column of the items; they are accepted as one.
///
/// # Requires
/// All items are valid, and the column's format is representable.
pub fn bytes_of<T: Columnar>(alloc: Global, items: &[T]) -> Result<Vec<u8>, Unbuilt>
where
    T::Container: ContainerBytes + Storage + PushRef<T>,
    requires representable { IsTrue (representable T.Container.format) }
    requires valid { All T.valid items.now }
    ensures { IfOk result (λ bytes. Accepts T.Container.format bytes.items) }
{
    let column = T::column_of(alloc, items)?;
    let stash = Stash::<T::Container, Vec<u8>>::Typed(column);
    let mut bytes = Vec::new(alloc);
    match stash.write_bytes(&mut bytes) {
        Ok(()) => Ok(bytes),
        Err(WriteFault::Length) => Err(Unbuilt::TooLong),
        Err(WriteFault::Writer(_)) => Err(Unbuilt::Memory),
    }
}

/// Returns a line for each slice of a view: its alignment and its number of bytes.
///
/// # Requires
/// The view's format is representable.
pub fn tell_slices<'a, V: AsBytes<'a>>(alloc: Global, view: &V) -> Result<String, AllocError>
    requires { IsTrue (representable V.format) }
    ensures { IfOk result (λ text. string_bytes text ≡ slice_lines V.format.aligns (slices_of (V.content view.now))) }
{
    let mut text = String::new(alloc);
    for index in 0..V::slice_count() {
        let (align, slice) = view.get_byte_slice(index);
        writeln!(text, "align: {align}, bytes.len(): {}", slice.len())?;
    }
    Ok(text)
}

/// Returns a line for each slice of a view of rows with ages, and then the sum of all ages.
///
/// # Requires
/// The view is well-formed, and its format is representable.
pub fn tell_view<'a, V: AsBytes<'a> + Index<Ref: Aged> + Len>(
    alloc: Global,
    view: &V,
) -> Result<String, AllocError>
    requires representable { IsTrue (representable V.format) }
    requires sound { IsSound V.format (V.content view.now) }
    ensures { IfOk result (λ text. string_bytes text ≡ shown V.Ref.ages V.format (V.content view.now)) }
{
    let mut text = tell_slices(alloc, view)?;
    writeln!(text, "Present values summed: {}", sum_ages(view))?;
    Ok(text)
}
