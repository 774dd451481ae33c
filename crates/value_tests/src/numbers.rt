// Columns of numbers, of bytes and of arrays.
ghost use Rattle.std.specs.Prelude.{◌≡◌};

use columnar_base::fault::StoreFault;
use columnar_base::iter::IterOwn;
use columnar_base::traits::{Clear, Index, Len, Push, PushRef};
use columnar_base::view::View;
use columnar_core::bytes::{AsBytes, Check, Stored};
use columnar_core::container::{
    Borrow, ContainerBytes, ExtendFrom, Reborrow, ReborrowRef, Storage, Truncate,
};
use columnar_core::slice::Slice;
use std::num::Wrapping;
use std::test::Fail;
use test_support::columns::{copied, count, row_at};
use test_support::{equal, holds};

#[test]
fn bytes_are_pushed_as_slices(rt: HostRuntime) -> Result<(), Fail> {
    let mut column = <Vec<u8> as Storage>::empty(rt.alloc());
    holds!(rt; column.push_slice(&[1, 2]).is_ok());
    holds!(rt; column.push_slice(&[3]).is_ok());
    holds!(rt; column.push_slice(&[]).is_ok());
    holds!(rt; column.push_slice(&[4, 5, 6]).is_ok());
    equal!(rt; column.as_slice(), [1, 2, 3, 4, 5, 6].as_slice());
    equal!(rt; count(&column), 6);
    let view = column.borrow();
    equal!(rt; view, [1, 2, 3, 4, 5, 6].as_slice());
    equal!(rt; row_at(&view, 4), Some(&5));
    equal!(rt; row_at(&view.reborrow(), 0), Some(&1));
    equal!(rt; *row_at(&view, 4).expect(&rt, "row 4").reborrow_ref(), 5);
    holds!(rt; view.check().is_ok());
    let (align, slice) = view.get_byte_slice(0);
    equal!(rt; align, 1);
    equal!(rt; slice.len(), 6);
    equal!(rt; slice.word(0), 6618611909121);
    let mut copy = <Vec<u8> as Storage>::empty(rt.alloc());
    holds!(rt; copied(&mut copy, column.borrow(), 1, 3));
    holds!(rt; copy.reserve_for([column.borrow()].iter().copied()).is_ok());
    equal!(rt; copy.as_slice(), [2, 3].as_slice());
    let mut sizes = Vec::new(rt.alloc());
    holds!(rt; <&[u8] as Stored>::element_sizes(&mut sizes).is_ok());
    equal!(rt; sizes.as_slice(), [1].as_slice());
    let mut rest = column.borrow();
    Clear::clear(&mut rest);
    holds!(rt; Len::is_empty(&rest));
    Ok(())
}

#[test]
fn arrays_are_rows(rt: HostRuntime) -> Result<(), Fail> {
    let mut column = <Vec<[u8; 3]> as Storage>::empty(rt.alloc());
    holds!(rt; Push::push(&mut column, [1u8, 2, 3]).is_ok());
    holds!(rt; PushRef::push_ref(&mut column, &[4u8, 5, 6]).is_ok());
    equal!(rt; count(&column), 2);
    equal!(rt; column.borrow().get(0), [1, 2, 3]);
    equal!(rt; column.borrow().get(1).reborrow_ref(), [4, 5, 6]);
    let (align, slice) = column.borrow().get_byte_slice(0);
    equal!(rt; align, 1);
    equal!(rt; slice.len(), 6);
    equal!(rt; column.byte_slice(0).word(0), 6618611909121);
    let bytes = [1u8, 2, 3, 4, 5, 6];
    let view = View::<[u8; 3]>::from_le_bytes(&bytes);
    holds!(rt; view.check().is_ok());
    holds!(rt; view == column.borrow());
    let broken = View::<[u8; 3]>::from_le_bytes(&bytes[..4]);
    equal!(rt; broken.check(), Err(StoreFault::ElementSize(0)));
    Ok(())
}

#[test]
fn views_have_the_alignment_of_the_type(rt: HostRuntime) -> Result<(), Fail> {
    let bytes = [255u8, 255, 1, 0, 2, 0, 3, 0];
    let view = View::<i16>::from_le_bytes(&bytes);
    equal!(rt; view.get_byte_slice(0).0, 2);
    equal!(rt; View::<u32>::from_le_bytes(&bytes).get_byte_slice(0).0, 4);
    equal!(rt;
        View::<Wrapping<i64>>::from_le_bytes(&bytes)
            .get_byte_slice(0)
            .0,
        8
    );
    let items = [-1i16, 1, 2, 3];
    let typed = View::from_slice(items.as_slice());
    equal!(rt; typed.get_byte_slice(0).0, 2);
    holds!(rt; view == typed);
    let part = typed.part(1, 3);
    equal!(rt; part.len(), 2);
    equal!(rt; part.get(0), 1);
    holds!(rt; part != view);
    holds!(rt; part == View::from_le_bytes(&bytes[2..6]));
    Ok(())
}

#[test]
fn slices_arrays_and_references_are_columns(rt: HostRuntime) -> Result<(), Fail> {
    let items = [7u32, 8, 9];
    equal!(rt; Len::len(&items), 3);
    equal!(rt; Index::get(&items, 2), 9);
    let slice = items.as_slice();
    equal!(rt; Len::len(&slice), 3);
    equal!(rt; *Index::get(&slice, 1), 8);
    let mut column = <Vec<u32> as Storage>::empty(rt.alloc());
    holds!(rt; column.push_slice(&items).is_ok());
    let shared = &column;
    equal!(rt; *Index::get(&shared, 0), 7);
    equal!(rt; Len::len(&shared), 3);
    let lent = &mut column;
    equal!(rt; Len::len(&lent), 3);
    Ok(())
}

// Returns the sum of the rows that an iterator has left.
fn sum_of<S: Index<Ref = u64> + Len + Drop>(rows: IterOwn<S>) -> u64 {
    let mut sum = 0u64;
    for row in rows {
        sum = sum.wrapping_add(row);
    }
    sum
}

#[test]
fn rows_are_iterated(rt: HostRuntime) -> Result<(), Fail> {
    let items = [7u64, 8, 9];
    let view = View::from_slice(items.as_slice());
    equal!(rt; sum_of(view.into_index_iter()), 24);
    equal!(rt; sum_of(view.index_iter()), 24);
    equal!(rt; sum_of(Slice::new(1, 3, view).into_iter()), 17);
    equal!(rt; sum_of(IterOwn::new(2, view)), 9);
    let mut rows = IterOwn::new(5, view);
    equal!(rt; rows.size_hint(), (0, Some(0)));
    equal!(rt; rows.next(), None);
    equal!(rt; ExactSizeIterator::len(&IterOwn::new(1, view)), 2);
    Ok(())
}

#[test]
fn numbers_and_ranges_are_tested(rt: HostRuntime) -> Result<(), Fail> {
    let items = [7u64, 8, 9];
    let view = View::from_slice(items.as_slice());
    equal!(rt; view.get_checked(2), Some(9));
    equal!(rt; view.get_checked(3), None);
    let mut column = <Vec<u64> as Storage>::empty(rt.alloc());
    holds!(rt; matches!(column.extend_checked(view, 1..3), Some(Ok(()))));
    holds!(rt; column.extend_checked(view, 1..4).is_none());
    equal!(rt; column.truncate_checked(3), None);
    equal!(rt; column.truncate_checked(1), Some(()));
    equal!(rt; column.as_slice(), [8].as_slice());
    Ok(())
}

#[test]
fn numbers_of_each_width_are_rows(rt: HostRuntime) -> Result<(), Fail> {
    let alloc = rt.alloc();
    let mut shorts = <Vec<u16> as Storage>::empty(alloc);
    holds!(rt; Push::push(&mut shorts, 258u16).is_ok());
    let row = row_at(&shorts.borrow(), 0).expect(&rt, "row 0");
    equal!(rt; row.reborrow_ref(), 258);
    let mut words = <Vec<u32> as Storage>::empty(alloc);
    holds!(rt; Push::push(&mut words, &7u32).is_ok());
    let row = row_at(&words.borrow(), 0).expect(&rt, "row 0");
    equal!(rt; row.reborrow_ref(), 7);
    let mut tiny = <Vec<i8> as Storage>::empty(alloc);
    holds!(rt; Push::push(&mut tiny, -1i8).is_ok());
    let row = row_at(&tiny.borrow(), 0).expect(&rt, "row 0");
    equal!(rt; row.reborrow_ref(), -1);
    let mut small = <Vec<i16> as Storage>::empty(alloc);
    holds!(rt; Push::push(&mut small, -2i16).is_ok());
    let row = row_at(&small.borrow(), 0).expect(&rt, "row 0");
    equal!(rt; row.reborrow_ref(), -2);
    let mut middle = <Vec<i32> as Storage>::empty(alloc);
    holds!(rt; Push::push(&mut middle, -3i32).is_ok());
    let row = row_at(&middle.borrow(), 0).expect(&rt, "row 0");
    equal!(rt; row.reborrow_ref(), -3);
    let mut large = <Vec<i64> as Storage>::empty(alloc);
    holds!(rt; Push::push(&mut large, i64::MIN).is_ok());
    let row = row_at(&large.borrow(), 0).expect(&rt, "row 0");
    equal!(rt; row.reborrow_ref(), i64::MIN);
    let mut wrapping = <Vec<Wrapping<u8>> as Storage>::empty(alloc);
    holds!(rt; Push::push(&mut wrapping, Wrapping(200u8)).is_ok());
    let row = row_at(&wrapping.borrow(), 0).expect(&rt, "row 0");
    equal!(rt; row.reborrow_ref(), Wrapping(200));
    let mut lapping = <Vec<Wrapping<i64>> as Storage>::empty(alloc);
    holds!(rt; Push::push(&mut lapping, Wrapping(-5i64)).is_ok());
    equal!(rt; row_at(&lapping.borrow(), 0), Some(Wrapping(-5)));
    equal!(rt; 7u8.reborrow_ref(), 7);
    equal!(rt; 7u64.reborrow_ref(), 7);
    Ok(())
}
