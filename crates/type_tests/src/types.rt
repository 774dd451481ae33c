// The column of each type.
use crate::calls::is_columnar;
use columnar::boxed::Boxed;
use columnar::primitive::{Bools, Empties};
use columnar::sums::Unaries;
use columnar::{ContainerOf, Options, Results, Strings, Vecs};
use smallvec::SmallVec;
use std::boxed::BoxedStr;
use std::marker::PhantomData;
use std::num::Wrapping;
use std::test::Fail;
use std::time::Duration;
use test_support::holds;

// Accepts only two equal types.
fn is_one<T>(_left: PhantomData<T>, _right: PhantomData<T>) -> bool {
    true
}

type Nest = Vec<Result<Option<(u64, String)>, Vec<()>>>;

#[test]
fn the_column_of_a_nest_is_the_nest_of_its_columns(rt: HostRuntime) -> Result<(), Fail> {
    holds!(rt; is_one(PhantomData::<ContainerOf<Nest>>, PhantomData::<Vecs<Results<Options<(Vec<u64>, Strings)>, Vecs<Empties<u64>, Unaries>>, Unaries>>));
    holds!(rt; is_one(PhantomData::<ContainerOf<Box<bool>>>, PhantomData::<Boxed<Bools>>));
    Ok(())
}

#[test]
fn each_type_has_a_column_with_bytes(rt: HostRuntime) -> Result<(), Fail> {
    holds!(rt; is_columnar::<u8>() && is_columnar::<u16>() && is_columnar::<u32>() && is_columnar::<u64>());
    holds!(rt; is_columnar::<i8>() && is_columnar::<i16>() && is_columnar::<i32>() && is_columnar::<i64>());
    holds!(rt; is_columnar::<Wrapping<u8>>() && is_columnar::<usize>() && is_columnar::<isize>() && is_columnar::<char>());
    holds!(rt; is_columnar::<u128>() && is_columnar::<i128>() && is_columnar::<()>() && is_columnar::<bool>());
    holds!(rt; is_columnar::<Duration>() && is_columnar::<String>() && is_columnar::<BoxedStr>() && is_columnar::<Box<u64>>());
    holds!(rt; is_columnar::<Option<u64>>() && is_columnar::<Result<u64, u32>>() && is_columnar::<Vec<u64>>());
    holds!(rt; is_columnar::<[u64; 3]>() && is_columnar::<SmallVec<u64, 2>>());
    holds!(rt; is_columnar::<(u64,)>() && is_columnar::<(u64, u32)>() && is_columnar::<(u64, u32, u16)>());
    Ok(())
}
