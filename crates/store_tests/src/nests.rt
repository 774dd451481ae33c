// A record with a number, an optional number and a list of numbers: pushed and read. Only this file names the nested
// columns, as in `records`.
ghost use Rattle.columnar_core.specs.Format.{IsSound, part, part_format};
ghost use Rattle.columnar_bytes.specs.Stashes.{stash_content};

use columnar::bytes::stash::Stash;
use columnar::common::View;
use columnar::fault::GrowError;
use columnar::{Borrow, Column, Index, Len, Options, Push, Slice, Storage, Vecs};
use std::alloc::Global;
use std::test::Fail;
use test_support::equal;

// The owner, the age if known, and the marks, each in its own column.
type Columns = (Vec<u64>, (Options<Vec<u32>>, Vecs<Vec<u16>>));

// The marks of several persons.
#[derive(Drop)]
struct Marks {
    stash: Stash<Columns, Vec<u8>>,
    ghost sound: { IsSound ⟦<Columns as Column>⟧.format (stash_content stash) },
}

impl Marks {
    fn new(alloc: Global) -> Marks {
        Marks {
            stash: Stash::empty(alloc),
        }
    }

    // Appends someone's marks; changes nothing if an allocation fails or there are too many.
    fn record<'v>(
        &mut self,
        whose: u64,
        years: Option<u32>,
        marks: View<'v, u16>,
    ) -> Result<(), GrowError>
        requires { IsSound ⟦<View<'v, u16> as Column>⟧.format (⟦<View<'v, u16> as Column>⟧.content marks) }
    {
        self.stash.push((whose, (years, whole(marks))))
    }

    fn len(&self) -> usize {
        self.stash.len()
    }

    // Returns the owner of the marks at `index`, the age, and the first mark.
    fn row(&self, index: usize) -> Option<(u64, Option<u32>, Option<u16>)> {
        let view = self.stash.borrow();
        if index >= view.len() {
            return None;
        }
        let (whose, (years, marks)) = view.get(index);
        Some((whose, years, first(marks)))
    }
}

// Returns all rows of a view as one row.
fn whole<V: Len + Copy>(view: V) -> Slice<V>
    requires { IsSound V.format (V.content view) }
    ensures { IsSound (part_format V.format) (part result.lower result.upper (V.content result.slice)) }
{
    Slice::new(0, view.len(), view)
}

// Returns the first item of a list, if there is one.
fn first<V: Index + Copy>(list: Slice<V>) -> Option<V::Ref>
    requires { IsSound (part_format V.format) (part list.lower list.upper (V.content list.slice)) }
{
    if list.len() == 0 {
        None
    } else {
        Some(list.get(0))
    }
}

#[test]
fn marks_are_given_back(rt: HostRuntime) -> Result<(), Fail> {
    let mut held = Vec::<u16>::empty(rt.alloc());
    held.push(3u16)?;
    let mut marks = Marks::new(rt.alloc());
    marks.record(7, Some(12), held.borrow())?;
    marks.record(8, None, held.borrow())?;
    equal!(rt; marks.len(), 2);
    equal!(rt; marks.row(0), Some((7, Some(12), Some(3))));
    equal!(rt; marks.row(1), Some((8, None, Some(3))));
    equal!(rt; marks.row(2), None);
    Ok(())
}
