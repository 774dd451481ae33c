// Values that are read from columns, and rows that have no value.
use crate::calls::{are_made_by_each, come_back, refusal_of};
use columnar::Columnar;
use columnar::common::{Slice, View};
use columnar::fault::OwnError;
use smallvec::SmallVec;
use std::boxed::BoxedStr;
use std::num::Wrapping;
use std::test::Fail;
use std::time::Duration;
use test_support::holds;

static FF: [u8; 1] = [255];

static TWO: [u64; 2] = [1, 2];

#[test]
fn numbers_come_back(rt: HostRuntime) -> Result<(), Fail> {
    let alloc = rt.alloc();
    holds!(rt; come_back::<u64>(alloc, &mut None, [1, 2, u64::MAX].as_slice()));
    holds!(rt; come_back::<u8>(alloc, &mut None, [1, 2, 255].as_slice()));
    holds!(rt; come_back::<i16>(alloc, &mut None, [1, -2].as_slice()));
    holds!(rt; come_back::<usize>(alloc, &mut None, [1, 2].as_slice()));
    holds!(rt; come_back::<isize>(alloc, &mut None, [1, -2].as_slice()));
    holds!(rt; come_back::<u128>(alloc, &mut None, [1, u128::MAX].as_slice()));
    holds!(rt; come_back::<char>(alloc, &mut None, ['a', 'ß'].as_slice()));
    holds!(rt; come_back::<bool>(alloc, &mut None, [true, false].as_slice()));
    holds!(rt; come_back::<()>(alloc, &mut None, [(), ()].as_slice()));
    Ok(())
}

#[test]
fn columns_are_made_of_numbers_that_come_one_by_one(rt: HostRuntime) -> Result<(), Fail> {
    holds!(rt; are_made_by_each(rt.alloc(), [3, 1, 2].as_slice()));
    holds!(rt; are_made_by_each(rt.alloc(), [].as_slice()));
    Ok(())
}

#[test]
fn wrapping_numbers_and_durations_come_back(rt: HostRuntime) -> Result<(), Fail> {
    let alloc = rt.alloc();
    holds!(rt; come_back::<Wrapping<u16>>(alloc, &mut None, [Wrapping(1), Wrapping(u16::MAX)].as_slice()));
    holds!(rt; come_back::<Wrapping<i64>>(alloc, &mut None, [Wrapping(1), Wrapping(i64::MIN)].as_slice()));
    holds!(rt; come_back::<Duration>(alloc, &mut None, [Duration::new(1, 2), Duration::new(u64::MAX, 999_999_999)].as_slice()));
    Ok(())
}

#[test]
fn texts_come_back(rt: HostRuntime) -> Result<(), Fail> {
    let alloc = rt.alloc();
    let one = String::from_str(alloc, "")?;
    let other = String::from_str(alloc, "aß")?;
    holds!(rt; come_back::<String>(alloc, &mut None, [one, other].as_slice()));
    let one = BoxedStr::from_str(alloc, "")?;
    let other = BoxedStr::from_str(alloc, "aß")?;
    holds!(rt; come_back::<BoxedStr>(alloc, &mut None, [one, other].as_slice()));
    Ok(())
}

#[test]
fn boxes_options_and_results_come_back(rt: HostRuntime) -> Result<(), Fail> {
    let alloc = rt.alloc();
    let one = Box::new(alloc, 1u64)?;
    let other = Box::new(alloc, u64::MAX)?;
    holds!(rt; come_back::<Box<u64>>(alloc, &mut None, [one, other].as_slice()));
    holds!(rt; come_back::<Option<u32>>(alloc, &mut None, [Some(1), None, Some(3)].as_slice()));
    holds!(rt; come_back::<Result<u64, u8>>(alloc, &mut None, [Ok(1), Err(2), Ok(3)].as_slice()));
    Ok(())
}

#[test]
fn short_lists_come_back(rt: HostRuntime) -> Result<(), Fail> {
    let alloc = rt.alloc();
    let mut one = SmallVec::<u64, 2>::new(alloc);
    one.push(1)?;
    let mut other = SmallVec::<u64, 2>::new(alloc);
    other.push(2)?;
    other.push(3)?;
    other.push(4)?;
    holds!(rt; come_back::<SmallVec<u64, 2>>(alloc, &mut None, [one, other].as_slice()));
    holds!(rt; come_back::<[u16; 2]>(alloc, &mut None, [[1, 2], [3, 4]].as_slice()));
    Ok(())
}

#[test]
fn pairs_with_texts_and_options_come_back(rt: HostRuntime) -> Result<(), Fail> {
    let alloc = rt.alloc();
    let one = (String::from_str(alloc, "a")?, 1);
    let other = (String::from_str(alloc, "")?, 2);
    holds!(rt; come_back::<(String, u64)>(alloc, &mut None, [one, other].as_slice()));
    holds!(rt; come_back::<(u64, Option<u32>)>(alloc, &mut None, [(1, Some(2)), (3, None)].as_slice()));
    Ok(())
}

#[test]
fn tuples_of_up_to_five_come_back(rt: HostRuntime) -> Result<(), Fail> {
    let alloc = rt.alloc();
    holds!(rt; come_back::<(u64,)>(alloc, &mut None, [(1,), (2,)].as_slice()));
    holds!(rt; come_back::<(u8, u16, u32)>(alloc, &mut None, [(1, 2, 3), (4, 5, 6)].as_slice()));
    holds!(rt; come_back::<(u8, u16, u32, u64)>(alloc, &mut None, [(1, 2, 3, 4), (5, 6, 7, 8)].as_slice()));
    holds!(rt; come_back::<(u8, u16, u32, u64, i8)>(alloc, &mut None, [(1, 2, 3, 4, 5), (6, 7, 8, 9, -1)].as_slice()));
    Ok(())
}

#[test]
fn bytes_that_are_no_text_have_no_value(rt: HostRuntime) -> Result<(), Fail> {
    let alloc = rt.alloc();
    holds!(rt; refusal_of::<&[u8], String>(alloc, FF.as_slice()) == Some(OwnError::Utf8));
    holds!(rt; refusal_of::<(u64, Option<&[u8]>), (u64, Option<String>)>(alloc, (7, Some(FF.as_slice()))) == Some(OwnError::Utf8));
    holds!(rt; refusal_of::<&[u8], String>(alloc, &FF[..0]) == None);
    Ok(())
}

#[test]
fn a_list_of_two_is_no_array_of_three(rt: HostRuntime) -> Result<(), Fail> {
    let alloc = rt.alloc();
    let row = Slice::new(0, 2, View::from_slice(TWO.as_slice()));
    let mut target = [7u64, 8, 9];
    holds!(rt; target.copy_from(alloc, row) == Err(OwnError::WrongLength));
    holds!(rt; target == [7, 8, 9]);
    let mut target = [7u64, 8];
    holds!(rt; target.copy_from(alloc, row).is_ok());
    holds!(rt; target == [1, 2]);
    Ok(())
}
