//! Growth and truncation of columns of variants.
ghost use Rattle.std.specs.Prelude.{◌≡◌, ℕ, ◌+◌, ◌-◌, ◌^◌, ◌<◌, ◌≤◌, [], ◌∷◌, ◌++◌, length, take, replicate, Err, Some, IfSome, IsOk, OnOk, OnErr, IfErr, refl};
ghost use Rattle.std.specs.Int.{w8};
ghost use Rattle.std.specs.List.{range_with_len};
ghost use Rattle.std.specs.Iterator.{IsFinite};
ghost use Rattle.columnar_core.specs.Row.{tuple};
ghost use Rattle.columnar_core.specs.Format.{IsSound};
ghost use Rattle.columnar_core.specs.Elements.{word_row};
ghost use Rattle.columnar_core.specs.WordViews.{words_in, le_bytes};
ghost use Rattle.columnar_base.specs.Numbers.{unsigned_row};
ghost use Rattle.columnar_core.specs.Change.{Refused, Stayed, Took, WasCut};
ghost use Rattle.columnar_core.specs.Room.{Frees, KeepsRoom};
ghost use Rattle.columnar_sums.specs.Discriminants.{discriminant_format, owned_forms, variants_of, times, sole};
ghost use Rattle.columnar_sums.specs.DiscriminantLaws.{discriminant_lawful};

use super::Discriminant;
use super::bytes::variant_at;
use columnar_core::container::{Borrow, Reborrow, Reserve, Storage, Truncate};
use columnar_core::fault::GrowError;
use columnar_core::traits::{Clear, Column, Len};
use columnar_core::view::View;
use columnar_core::words::Words;
use std::alloc::Global;

// Appends a variant and an offset, or neither. Takes a few instructions if there is spare capacity.
#[inline(always)]
fn push_both(
    variants: &mut Vec<u8>,
    offsets: &mut Vec<u64>,
    variant: u8,
    offset: u64,
) -> Result<(), GrowError>
    ensures variants { OnOk result (variants.new.items ≡ variants.old.items ++ variant ∷ []) }
    ensures offsets { OnOk result (offsets.new.items ≡ offsets.old.items ++ offset ∷ []) }
    ensures variants_stay { OnErr result (variants.new.items ≡ variants.old.items) }
    ensures offsets_stay { OnErr result (offsets.new.items ≡ offsets.old.items) }
    ensures memory { IfErr result (λ e. e ≡ GrowError.Memory) }
{
    if Vec::len(variants) == variants.capacity() {
        return grow_both(variants, offsets, variant, offset);
    }
    offsets.push(offset)?;
    variants.push(variant)?;
    Ok(())
}

// Does the same as `push_both` without spare capacity. It is a function of its own to keep the common push small.
#[cold]
#[inline(never)]
fn grow_both(
    variants: &mut Vec<u8>,
    offsets: &mut Vec<u64>,
    variant: u8,
    offset: u64,
) -> Result<(), GrowError>
    ensures variants { OnOk result (variants.new.items ≡ variants.old.items ++ variant ∷ []) }
    ensures offsets { OnOk result (offsets.new.items ≡ offsets.old.items ++ offset ∷ []) }
    ensures variants_stay { OnErr result (variants.new.items ≡ variants.old.items) }
    ensures offsets_stay { OnErr result (offsets.new.items ≡ offsets.old.items) }
    ensures memory { IfErr result (λ e. e ≡ GrowError.Memory) }
{
    let before = Vec::len(variants);
    variants.push(variant)?;
    match offsets.push(offset) {
        Ok(()) => Ok(()),
        Err(_) => {
            variants.truncate(before);
            Err(GrowError::Memory)
        }
    }
}

// Appends the numbers below `end`, or none of them.
fn count_up(offsets: &mut Vec<u64>, end: u64) -> Result<(), GrowError>
    ensures ok { OnOk result (offsets.new.items ≡ offsets.old.items ++ range_with_len 0 end) }
    ensures err { OnErr result (offsets.new.items ≡ offsets.old.items) }
    ensures memory { IfErr result (λ e. e ≡ GrowError.Memory) }
{
    let before = Vec::len(offsets);
    for number in 0..end {
        match offsets.push(number) {
            Ok(()) => {}
            Err(_) => {
                offsets.truncate(before);
                return Err(GrowError::Memory);
            }
        }
    }
    Ok(())
}

// Appends `count` rows of one variant and then one row of another. An error may leave some of them.
fn append_rows(
    variants: &mut Vec<u8>,
    offsets: &mut Vec<u64>,
    kind: u8,
    count: usize,
    variant: u8,
) -> Result<(), GrowError>
    requires { variants.old.items ≡ [] }
    ensures variants { OnOk result (variants.new.items ≡ replicate count kind ++ variant ∷ []) }
    ensures offsets { OnOk result (offsets.new.items ≡ (offsets.old.items ++ range_with_len 0 count) ++ 0 ∷ []) }
    ensures front { OnErr result (take (length offsets.old.items) offsets.new.items ≡ offsets.old.items) }
    ensures memory { IfErr result (λ e. e ≡ GrowError.Memory) }
{
    variants.resize(count, kind)?;
    count_up(offsets, count as u64)?;
    push_both(variants, offsets, variant, 0)
}

impl Discriminant<Vec<u8>, Vec<u64>> {
    /// Appends a row of a variant. Allocates nothing if all earlier rows have the same variant.
    ///
    /// # Errors
    /// `Length` if and only if there are already 2^64 - 1 rows; `Memory` if an allocation fails. Nothing changes.
    ///
    /// # Requires
    /// The column is well-formed, and `offset` is the number of earlier rows of `variant`.
    #[inline(always)]
    pub fn push(&mut self, variant: u8, offset: u64) -> Result<(), GrowError>
        requires sound { IsSound discriminant_format (owned_forms self.old.variant.items self.old.offset.items) }
        requires numbered { offset ≡ times variant (variants_of (owned_forms self.old.variant.items self.old.offset.items)) }
        ensures ok { OnOk result (Took discriminant_format (owned_forms self.old.variant.items self.old.offset.items) (owned_forms self.new.variant.items self.new.offset.items) (tuple (unsigned_row w8 variant) (word_row offset) ∷ [])) }
        ensures err { IfErr result (λ e. Refused discriminant_format (owned_forms self.old.variant.items self.old.offset.items) (owned_forms self.new.variant.items self.new.offset.items) (tuple (unsigned_row w8 variant) (word_row offset) ∷ []) e) }
        ensures variants { OnOk result (variants_of (owned_forms self.new.variant.items self.new.offset.items) ≡ variants_of (owned_forms self.old.variant.items self.old.offset.items) ++ variant ∷ []) }
        ensures variants_stay { OnErr result (self.new.variant.items ≡ self.old.variant.items) }
        ensures offsets_stay { OnErr result (self.new.offset.items ≡ self.old.offset.items) }
        ensures full { length (variants_of (owned_forms self.old.variant.items self.old.offset.items)) ≡ 2 ^ 64 - 1 → result ≡ Err GrowError.Length }
        ensures no_memory { length (variants_of (owned_forms self.old.variant.items self.old.offset.items)) < 2 ^ 64 - 1 → sole (variants_of (owned_forms self.old.variant.items self.old.offset.items)) ≡ Some variant → IsOk result }
    {
        let rows = self.len();
        if rows == usize::MAX {
            return Err(GrowError::Length);
        }
        if Vec::len(&self.variant) > 0 {
            return push_both(&mut self.variant, &mut self.offset, variant, offset);
        }
        if rows == 0 {
            self.offset.extend_from_slice(&[variant as u64 + 1, 1])?;
            return Ok(());
        }
        let kind = (self.offset.word(0) - 1) as u8;
        if kind != variant {
            return self.mix(kind, rows, variant);
        }
        self.offset[1] = rows as u64 + 1;
        Ok(())
    }

    // Writes out `count` rows of the one variant and appends a row of another. It is a function of its own to keep the
    // common push small.
    #[cold]
    #[inline(never)]
    fn mix(&mut self, kind: u8, count: usize, variant: u8) -> Result<(), GrowError>
        requires variants { self.old.variant.items ≡ [] }
        requires two { length self.old.offset.items ≡ 2 }
        ensures variants { OnOk result (self.new.variant.items ≡ replicate count kind ++ variant ∷ []) }
        ensures offsets { OnOk result (self.new.offset.items ≡ range_with_len 0 count ++ 0 ∷ []) }
        ensures variants_stay { OnErr result (self.new.variant.items ≡ self.old.variant.items) }
        ensures offsets_stay { OnErr result (self.new.offset.items ≡ self.old.offset.items) }
        ensures memory { IfErr result (λ e. e ≡ GrowError.Memory) }
    {
        match append_rows(&mut self.variant, &mut self.offset, kind, count, variant) {
            Ok(()) => {
                let _tag = self.offset.remove(0);
                let _count = self.offset.remove(0);
                Ok(())
            }
            Err(error) => {
                self.variant.clear();
                self.offset.truncate(2);
                Err(error)
            }
        }
    }

    // Adds the lengths of the view's slices to the room.
    fn add_room(room: (usize, usize), view: Discriminant<&[u8], View<'_, u64>>) -> (usize, usize) {
        (
            room.0.saturating_add(view.variant.len()),
            room.1.saturating_add(view.offset.len()),
        )
    }

    /// Reserves space for the rows of all views. The rows stay the same.
    ///
    /// # Errors
    /// `Memory` if the allocation fails.
    ///
    /// # Requires
    /// The column is well-formed, and the iterator is finite.
    pub fn reserve_for<'x, I: Iterator<Item = Discriminant<&'x [u8], View<'x, u64>>> + Drop>(
        &mut self,
        views: I,
    ) -> Result<(), GrowError>
        requires sound { IsSound discriminant_format (owned_forms self.old.variant.items self.old.offset.items) }
        requires callable { I.can_next views }
        requires finite { IsFinite (I.remaining views) }
        ensures stayed { Stayed discriminant_format (owned_forms self.old.variant.items self.old.offset.items) (owned_forms self.new.variant.items self.new.offset.items) }
        ensures variants_stay { self.new.variant.items ≡ self.old.variant.items }
        ensures offsets_stay { self.new.offset.items ≡ self.old.offset.items }
        ensures memory { IfErr result (λ e. e ≡ GrowError.Memory) }
    {
        let mut room = (0, 0);
        for view in views {
            room = Self::add_room(room, view);
        }
        self.reserve_room(room)
    }
}

impl Clear for Discriminant<Vec<u8>, Vec<u64>> {
    /// Removes all rows and empties both slices. Allocates nothing.
    fn clear(&mut self)
        ensures sound { IsSound discriminant_format (owned_forms self.new.variant.items self.new.offset.items) }
        ensures rows { discriminant_format.rows (owned_forms self.new.variant.items self.new.offset.items) ≡ [] }
        ensures freed { Frees discriminant_format (owned_forms self.old.variant.items self.old.offset.items) 0 (⟦<Discriminant<Vec<u8>, Vec<u64>> as Column>⟧.room self.old) (⟦<Discriminant<Vec<u8>, Vec<u64>> as Column>⟧.room self.new) }
        ensures none { variants_of (owned_forms self.new.variant.items self.new.offset.items) ≡ [] }
        ensures variants { self.new.variant.items ≡ [] }
        ensures offsets { self.new.offset.items ≡ [] }
    {
        self.variant.clear();
        self.offset.clear();
    }
}

impl Truncate for Discriminant<Vec<u8>, Vec<u64>> {
    ghost lawful = { discriminant_lawful };

    /// Keeps the first `n` rows. If they have one variant, only that variant and `n` remain stored; if `n` is 0,
    /// nothing. Allocates nothing.
    ///
    /// # Requires
    /// The column is well-formed, and `n` is at most its length.
    fn truncate(&mut self, n: usize)
        requires sound { IsSound discriminant_format (owned_forms self.old.variant.items self.old.offset.items) }
        requires in_range { n ≤ length (discriminant_format.rows (owned_forms self.old.variant.items self.old.offset.items)) }
        ensures cut { WasCut discriminant_format (owned_forms self.old.variant.items self.old.offset.items) (owned_forms self.new.variant.items self.new.offset.items) n }
        ensures freed { Frees discriminant_format (owned_forms self.old.variant.items self.old.offset.items) n (⟦<Discriminant<Vec<u8>, Vec<u64>> as Column>⟧.room self.old) (⟦<Discriminant<Vec<u8>, Vec<u64>> as Column>⟧.room self.new) }
        ensures variants { variants_of (owned_forms self.new.variant.items self.new.offset.items) ≡ take n (variants_of (owned_forms self.old.variant.items self.old.offset.items)) }
        ensures none { n ≡ 0 → (self.new.variant.items ≡ []) × (self.new.offset.items ≡ []) }
        ensures one { IfSome (sole (take n (variants_of (owned_forms self.old.variant.items self.old.offset.items)))) (λ v. (self.new.variant.items ≡ []) × (words_in (le_bytes self.new.offset.items) ≡ (v + 1) ∷ n ∷ [])) }
    {
        if n == 0 {
            self.clear();
        } else if Vec::len(&self.variant) == 0 {
            self.offset[1] = n as u64;
        } else if self.offset.word(n - 1) == n as u64 - 1 {
            // All rows before the last one have the last one's variant.
            self.offset[0] = variant_at(self.variant.as_slice(), n - 1) as u64 + 1;
            self.offset[1] = n as u64;
            self.offset.truncate(2);
            self.variant.clear();
        } else {
            self.variant.truncate(n);
            self.offset.truncate(n);
        }
    }
}

impl Storage for Discriminant<Vec<u8>, Vec<u64>> {
    /// Creates a column without rows, whose slices are empty.
    fn empty(alloc: Global) -> Self
        ensures sound { IsSound discriminant_format (owned_forms result.variant.items result.offset.items) }
        ensures rows { discriminant_format.rows (owned_forms result.variant.items result.offset.items) ≡ [] }
        ensures none { variants_of (owned_forms result.variant.items result.offset.items) ≡ [] }
        ensures variants { result.variant.items ≡ [] }
        ensures offsets { result.offset.items ≡ [] }
    {
        Discriminant {
            variant: Vec::new(alloc),
            offset: Vec::new(alloc),
        }
    }

    fn duplicate(&self, alloc: Global) -> Result<Self, GrowError> {
        let variant = Vec::from_slice(alloc, self.variant.as_slice())?;
        let offset = Vec::from_slice(alloc, self.offset.as_slice())?;
        Ok(Discriminant { variant, offset })
    }
}

impl Reserve for Discriminant<Vec<u8>, Vec<u64>> {
    type Room = (usize, usize);

    ghost reserves = { ⊥ };

    ghost covers = { λ r rs. ⊥ };

    fn no_room() -> (usize, usize) {
        (0, 0)
    }

    /// Reserves space. The rows stay the same.
    ///
    /// # Requires
    /// The column is well-formed.
    fn reserve_room(&mut self, room: (usize, usize)) -> Result<(), GrowError>
        requires { IsSound discriminant_format (owned_forms self.old.variant.items self.old.offset.items) }
        ensures room { OnOk result (⊥ → KeepsRoom (λ rs. ⊥) (⟦<Discriminant<Vec<u8>, Vec<u64>> as Column>⟧.room self.new)) }
        ensures stayed { Stayed discriminant_format (owned_forms self.old.variant.items self.old.offset.items) (owned_forms self.new.variant.items self.new.offset.items) }
        ensures variants_stay { self.new.variant.items ≡ self.old.variant.items }
        ensures offsets_stay { self.new.offset.items ≡ self.old.offset.items }
        ensures memory { IfErr result (λ e. e ≡ GrowError.Memory) }
    {
        self.variant.reserve(room.0)?;
        self.offset.reserve(room.1)?;
        Ok(())
    }
}

impl<'a> Borrow<'a> for Discriminant<Vec<u8>, Vec<u64>> {
    type Ref = (u8, u64);

    type Borrowed = Discriminant<&'a [u8], View<'a, u64>>;

    type Parts = u8;

    ghost same_format = { refl };

    fn borrow(&'a self) -> Discriminant<&'a [u8], View<'a, u64>> {
        Discriminant {
            variant: self.variant.as_slice(),
            offset: View::from_slice(self.offset.as_slice()),
        }
    }
}

impl<'a, 'b> Reborrow<'b> for Discriminant<&'a [u8], View<'a, u64>>
where
    'a: 'b,
{
    type Short = Discriminant<&'b [u8], View<'b, u64>>;

    ghost same_short = { refl };

    fn reborrow(self) -> Discriminant<&'b [u8], View<'b, u64>> {
        Discriminant {
            variant: self.variant,
            offset: self.offset,
        }
    }
}
