// Texts that are stored as the distance back to the same text.
ghost use Rattle.std.specs.Prelude.{IfOk};
ghost use Rattle.columnar_core.specs.Format.{IsSound};

use columnar_core::container::{Borrow, Storage};
use columnar_core::traits::{Index, Len, Push};
use columnar_lookback::lookbacks::Lookbacks;
use columnar_strings::string::Strings;
use std::alloc::Global;
use std::test::Fail;
use test_support::columns::row_at;
use test_support::equal;

// Returns `count` different names, and then each again, in the same order or in reverse.
fn names(alloc: Global, count: u64, is_reversed: bool) -> Result<Vec<String>, Fail> {
    let mut texts = Vec::new(alloc);
    for i in 0..count {
        texts.push(format!(in alloc; "name {i}")?)?;
    }
    for i in 0..count {
        let number = if is_reversed { count - 1 - i } else { i };
        texts.push(format!(in alloc; "name {number}")?)?;
    }
    Ok(texts)
}

// Creates a column of these texts.
fn column_of<'x, C: Storage + Push<&'x String> + Drop>(
    alloc: Global,
    rows: &'x [String],
) -> Result<C, Fail>
    ensures { IfOk result (λ c. IsSound C.format (C.content c)) }
{
    let mut column = C::empty(alloc);
    if Push::extend(&mut column, rows.iter()).is_err() {
        return Err(Fail::from("refused"));
    }
    Ok(column)
}

// Tests whether a view has exactly these texts.
fn reads_texts<'a, V: Index<Ref = &'a [u8]> + Len>(view: &V, rows: &[String]) -> bool
    requires { IsSound V.format (V.content view.now) }
{
    for i in 0..rows.len() {
        if row_at(view, i) != Some(rows[i].as_bytes()) {
            return false;
        }
    }
    view.len() == rows.len()
}

// Counts the stored texts, if all of them read correctly.
fn stored<const N: u8>(alloc: Global, rows: &[String]) -> Result<Option<usize>, Fail> {
    let column = column_of::<Lookbacks<Strings, N>>(alloc, rows)?;
    if reads_texts(&column.borrow(), rows) {
        Ok(Some(column.inner.oks.bounds.as_slice().len()))
    } else {
        Ok(None)
    }
}

// Each name occurs again after 299 others.
#[test]
fn names_that_come_again_in_their_order(rt: HostRuntime) -> Result<(), Fail> {
    let rows = names(rt.alloc(), 300, false)?;
    equal!(rt; stored::<255>(rt.alloc(), rows.as_slice())?, Some(600));
    equal!(rt; stored::<3>(rt.alloc(), rows.as_slice())?, Some(600));
    Ok(())
}

// Among the repeated names, the first 255, or 3, are among the last values; each one after them is stored again.
#[test]
fn names_that_come_again_in_reverse(rt: HostRuntime) -> Result<(), Fail> {
    let rows = names(rt.alloc(), 300, true)?;
    equal!(rt; stored::<255>(rt.alloc(), rows.as_slice())?, Some(345));
    equal!(rt; stored::<3>(rt.alloc(), rows.as_slice())?, Some(597));
    Ok(())
}

#[test]
fn names_that_are_all_among_the_last(rt: HostRuntime) -> Result<(), Fail> {
    let rows = names(rt.alloc(), 255, false)?;
    equal!(rt; stored::<255>(rt.alloc(), rows.as_slice())?, Some(255));
    equal!(rt; stored::<254>(rt.alloc(), rows.as_slice())?, Some(510));
    Ok(())
}
