// Boxed rows, shared columns, and bounds of columns that are read and pushed as values of one type.
ghost use Rattle.columnar_base.specs.Format.{IsSound};

use columnar_base::fault::GrowError;
use columnar_base::traits::{Clear, Index, IndexAs, Item, Len, Push, PushRef};
use columnar_base::view::View;
use columnar_bytes::indexed::{decode, validate, validate_structure};
use columnar_core::boxed::Boxed;
use columnar_core::bytes::{AsBytes, Check, Stored};
use columnar_core::container::{Borrow, BorrowIndexAs, ExtendFrom, PushIndexAs, Storage};
use columnar_core::rc::{from_bytes, from_store};
use columnar_core::store::DecodedStore;
use std::rc::Rc;
use std::test::Fail;
use test_support::columns::cut;
use test_support::{equal, holds};

type Boxes = Boxed<Vec<u64>>;

pub(crate) type Numbers<'a> = View<'a, u64>;

// The store of the single number 7.
pub(crate) static SEVEN: [u8; 24] = [
    16, 0, 0, 0, 0, 0, 0, 0, 24, 0, 0, 0, 0, 0, 0, 0, 7, 0, 0, 0, 0, 0, 0, 0,
];

// Returns the first row as a T, if there is one.
fn first_as<'a, T: Item, C: BorrowIndexAs<'a, T>>(column: &'a C) -> Option<T>
    requires { IsSound C.format (C.content column.now) }
{
    let view = column.borrow();
    if view.len() == 0 {
        None
    } else {
        Some(view.index_as(0))
    }
}

// Appends an item.
fn add<'a, T: Item, C: PushIndexAs<'a, T>>(column: &mut C, item: &T) -> Result<(), GrowError>
    requires sound { IsSound C.format (C.content column.old) }
    requires valid { T.valid item.now }
    ensures { IsSound C.format (C.content column.new) }
{
    column.push_ref(item)?;
    Ok(())
}

#[test]
fn boxes_are_pushed_and_read(rt: HostRuntime) -> Result<(), Fail> {
    let alloc = rt.alloc();
    let mut column = Boxes::empty(alloc);
    let kept = Box::new(alloc, 7u64)?;
    Push::push(&mut column, &kept)?;
    PushRef::push_ref(&mut column, &kept)?;
    Push::push(&mut column, Boxed(9u64))?;
    equal!(rt; column.0.as_slice(), [7, 7, 9].as_slice());
    equal!(rt; Len::len(&column), 3);
    equal!(rt; column.borrow().get(2), Boxed(9));
    equal!(rt; *column.borrow().get(1), 7);
    holds!(rt; column.borrow().check().is_ok());
    let mut copy = Boxes::with_capacity_for(alloc, [column.borrow()].iter().copied())?;
    copy.extend_from_self(column.borrow(), 1..3)?;
    equal!(rt; copy.0.as_slice(), [7, 9].as_slice());
    holds!(rt; copy.duplicate(alloc)? == copy);
    cut(&mut copy, 1);
    equal!(rt; copy.0.as_slice(), [7].as_slice());
    Clear::clear(&mut copy);
    holds!(rt; Len::is_empty(&copy));
    holds!(rt; validate::<Boxes>(SEVEN.as_slice()).is_ok());
    Ok(())
}

#[test]
fn rows_as_values_of_one_type(rt: HostRuntime) -> Result<(), Fail> {
    let mut column: Vec<u64> = Storage::empty(rt.alloc());
    equal!(rt; first_as::<u64, Vec<u64>>(&column), None);
    add(&mut column, &5u64)?;
    add(&mut column, &6u64)?;
    equal!(rt; first_as::<u64, Vec<u64>>(&column), Some(5));
    Ok(())
}

#[test]
fn a_shared_column_is_read_as_what_it_shares(rt: HostRuntime) -> Result<(), Fail> {
    let alloc = rt.alloc();
    let mut column: Vec<u64> = Storage::empty(alloc);
    column.push_ref(&7)?;
    let Ok(shared) = Rc::new(alloc, column) else {
        return Err(Fail::from(GrowError::Memory));
    };
    equal!(rt; Len::len(&shared), 1);
    equal!(rt; Borrow::borrow(&shared).get(0), 7);
    holds!(rt; validate::<Rc<Vec<u64>>>(SEVEN.as_slice()).is_ok());
    let mut sizes = Vec::new(alloc);
    Rc::<Vec<u64>>::element_sizes(&mut sizes)?;
    equal!(rt; sizes.as_slice(), [8].as_slice());
    Ok(())
}

#[test]
fn a_view_of_bytes_is_shared(rt: HostRuntime) -> Result<(), Fail> {
    let alloc = rt.alloc();
    let bytes = SEVEN.as_slice();
    if validate_structure(bytes, 1).is_err() {
        return Err(Fail::from(GrowError::Format));
    }
    let mut slices = decode(bytes);
    let store = DecodedStore::new(bytes);
    let mut offset = 0;
    let shared = from_store::<Numbers<'_>>(alloc, &store, &mut offset)?;
    equal!(rt; offset, 1);
    holds!(rt; shared.check().is_ok());
    equal!(rt; shared.get_byte_slice(0).1.len(), 8);
    let again = from_bytes::<Numbers<'_>>(alloc, &mut slices)?;
    holds!(rt; again.check().is_ok());
    equal!(rt; slices.count(), 0);
    Ok(())
}
