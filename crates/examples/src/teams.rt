//! The main program of Rust's `columnar`: persons alone and in teams. The names of two thousand of them are written
//! straight into the column; no string is made for them.
ghost use Rattle.std.specs.Prelude.{◌++◌, Some};
ghost use Rattle.std.specs.Fmt.{decimal};
ghost use Rattle.columnar.specs.Format.{IsSound};

use columnar::fault::GrowError;
use columnar::string::Shown;
use columnar::sums::variants::{Last, Nth, Variants, columns_of, first_and_others};
use columnar::tuple::parts;
use columnar::{AsBytes, Borrow, Column, Index, Len, PushRef, Storage, Stored, Strings, Vecs};
use std::alloc::Global;
use std::fmt::{self, Display, Formatter};
use std::io::Write;

/// The name and the age of each person.
type Persons = (Strings, Vec<u64>);

/// Persons who are alone, and teams.
type Groups = Variants<(Persons, (Vecs<Persons>,))>;

/// A name that ends with a number.
#[derive(Drop)]
struct Numbered<'x> {
    name: &'x str,
    number: u64,
}

impl Display for Numbered<'_> {
    ghost output = { λ n. Some (n.name.now ++ decimal n.number) };

    fn fmt<W: fmt::Write>(&self, f: &mut Formatter<W>) -> fmt::Result {
        write!(f, "{}{}", self.name, self.number)
    }
}

/// All groups.
#[derive(Drop)]
struct Everyone {
    groups: Groups,
    ghost sound: { IsSound ⟦<Groups as Column>⟧.format (⟦<Groups as Column>⟧.content groups) },
}

impl Everyone {
    // Adds one person alone.
    fn add_solo(&mut self, name: &str, age: u64) -> Result<(), GrowError> {
        let row: Nth<(&str, u64), Last<&[(&str, u64)]>> = Nth::This((name, age));
        self.groups.push_ref(&row)
    }

    // Adds a team.
    fn add_team(&mut self, team: &[(&str, u64)]) -> Result<(), GrowError> {
        let row: Nth<(&str, u64), Last<&[(&str, u64)]>> = Nth::Next(Last(team));
        self.groups.push_ref(&row)
    }

    // Adds a team of a brain and a brawn with this number.
    fn add_pair(&mut self, number: u64) -> Result<(), GrowError> {
        let brain = Numbered {
            name: "Brain",
            number,
        };
        let brawn = Numbered {
            name: "Brawn",
            number,
        };
        let team = [(Shown(&brain), number), (Shown(&brawn), number)];
        let row: Nth<(&str, u64), Last<&[(Shown<'_, Numbered<'_>>, u64)]>> = Nth::Next(Last(
            team.as_slice(),
        ));
        self.groups.push_ref(&row)
    }
}

impl Everyone {
    // Prints the alignment and the length of each slice, and the sum of the ages of all.
    fn print<O: Write>(&self, out: &mut O) -> anyhow::Result<()> {
        let view = self.groups.borrow();
        for (align, bytes) in view.as_bytes() {
            writeln!(out, "align: {align}, bytes.len(): {}", bytes.len())?;
        }
        let (solos, others) = first_and_others(columns_of(view));
        let (_, solo_ages) = parts(solos);
        let (_, team_ages) = parts(others.0.into_values());
        let total = sum_of(solo_ages).wrapping_add(sum_of(team_ages));
        writeln!(out, "Present values summed: {total}")?;
        Ok(())
    }
}

// Returns the sum of a column, modulo 2^64.
fn sum_of<C: Index<Ref = u64> + Len + Drop>(ages: C) -> u64
    requires { IsSound C.format (C.content ages) }
{
    let mut sum = 0u64;
    for age in ages.into_index_iter() {
        sum = sum.wrapping_add(age);
    }
    sum
}

/// Collects a person, a team and 1024 pairs, and prints the slices of their column and the sum of all ages.
pub fn show<O: Write>(alloc: Global, out: &mut O) -> anyhow::Result<()> {
    let mut everyone = Everyone {
        groups: Groups::empty(alloc),
    };
    everyone.add_solo("Alice", 20)?;
    everyone.add_team([("Bob", 21), ("Carol", 22)].as_slice())?;
    for number in 0..1024 {
        everyone.add_pair(number)?;
    }
    everyone.print(out)
}
