//! Arrays whose slices can be written as bytes.
ghost use Rattle.std.specs.Prelude.{ℕ, ◌≡◌, length};
ghost use Rattle.columnar_core.specs.ArraySlices.{AreArrays};
ghost use Rattle.std.specs.List.{flat_map};

use super::ByteSlice;
use super::sliced::Sliced;
use columnar_base::element::Primitive;
use std::num::Wrapping;

/// A number whose arrays are contiguous in a slice.
pub trait SlicedArray<const N: usize>: Sliced + Primitive {
    /// Returns the numbers of the arrays as one slice.
    fn flat(arrays: &[[Self; N]]) -> &[Self]
        ensures { result.now ≡ flat_map (λ x. x) arrays.now };
}

impl<T: SlicedArray<N>, const N: usize> Sliced for [T; N] {
    fn align() -> u64 {
        T::align()
    }

    fn byte_slice(items: &[[T; N]]) -> ByteSlice<'_> {
        are_arrays(items);
        T::byte_slice(T::flat(items))
    }
}

// Changes nothing; its contract states that each array has N items.
fn are_arrays<T, const N: usize>(arrays: &[[T; N]])
    ensures { AreArrays N arrays.now (length arrays.now) }
{
    for i in 0..arrays.len() {
        has_its_length(&arrays[i]);
    }
}

fn has_its_length<T, const N: usize>(_array: &[T; N])
    ensures { length _array.now ≡ N }
{}

impl<const N: usize> SlicedArray<N> for u8 {
    fn flat(arrays: &[[u8; N]]) -> &[u8] {
        arrays.as_flattened()
    }
}

impl<const N: usize> SlicedArray<N> for u16 {
    fn flat(arrays: &[[u16; N]]) -> &[u16] {
        arrays.as_flattened()
    }
}

impl<const N: usize> SlicedArray<N> for u32 {
    fn flat(arrays: &[[u32; N]]) -> &[u32] {
        arrays.as_flattened()
    }
}

impl<const N: usize> SlicedArray<N> for u64 {
    fn flat(arrays: &[[u64; N]]) -> &[u64] {
        arrays.as_flattened()
    }
}

impl<const N: usize> SlicedArray<N> for i8 {
    fn flat(arrays: &[[i8; N]]) -> &[i8] {
        arrays.as_flattened()
    }
}

impl<const N: usize> SlicedArray<N> for i16 {
    fn flat(arrays: &[[i16; N]]) -> &[i16] {
        arrays.as_flattened()
    }
}

impl<const N: usize> SlicedArray<N> for i32 {
    fn flat(arrays: &[[i32; N]]) -> &[i32] {
        arrays.as_flattened()
    }
}

impl<const N: usize> SlicedArray<N> for i64 {
    fn flat(arrays: &[[i64; N]]) -> &[i64] {
        arrays.as_flattened()
    }
}

impl<const N: usize> SlicedArray<N> for Wrapping<u8> {
    fn flat(arrays: &[[Wrapping<u8>; N]]) -> &[Wrapping<u8>] {
        arrays.as_flattened()
    }
}

impl<const N: usize> SlicedArray<N> for Wrapping<u16> {
    fn flat(arrays: &[[Wrapping<u16>; N]]) -> &[Wrapping<u16>] {
        arrays.as_flattened()
    }
}

impl<const N: usize> SlicedArray<N> for Wrapping<u32> {
    fn flat(arrays: &[[Wrapping<u32>; N]]) -> &[Wrapping<u32>] {
        arrays.as_flattened()
    }
}

impl<const N: usize> SlicedArray<N> for Wrapping<u64> {
    fn flat(arrays: &[[Wrapping<u64>; N]]) -> &[Wrapping<u64>] {
        arrays.as_flattened()
    }
}

impl<const N: usize> SlicedArray<N> for Wrapping<i8> {
    fn flat(arrays: &[[Wrapping<i8>; N]]) -> &[Wrapping<i8>] {
        arrays.as_flattened()
    }
}

impl<const N: usize> SlicedArray<N> for Wrapping<i16> {
    fn flat(arrays: &[[Wrapping<i16>; N]]) -> &[Wrapping<i16>] {
        arrays.as_flattened()
    }
}

impl<const N: usize> SlicedArray<N> for Wrapping<i32> {
    fn flat(arrays: &[[Wrapping<i32>; N]]) -> &[Wrapping<i32>] {
        arrays.as_flattened()
    }
}

impl<const N: usize> SlicedArray<N> for Wrapping<i64> {
    fn flat(arrays: &[[Wrapping<i64>; N]]) -> &[Wrapping<i64>] {
        arrays.as_flattened()
    }
}
