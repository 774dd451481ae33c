//! Runs of commands on a stash.
ghost use Rattle.std.specs.Prelude.{◌≡◌, ℕ, ◌+◌, ◌<◌, ◌≤◌, Bool, true, false, length, List, [], map, All, OnErr, IfOk, IfErr, IsTrue};
ghost use Rattle.columnar_core.specs.Row.{Row};
ghost use Rattle.columnar_core.specs.Format.{Format, IsSound, representable};
ghost use Rattle.columnar_bytes.specs.Stashes.{stash_content};
ghost use Rattle.columnar_bytes.specs.States.{state_of};
ghost use Rattle.columnar_bytes.specs.Machine.{Answers, IsValid, Ran, in_range, order_of};

use super::Stash;
use columnar_core::container::{ContainerBytes, ExtendFrom, Storage};
use columnar_core::fault::{EncodeError, GrowError};
use columnar_core::traits::{Clear, Item, Len, PushRef};
use std::alloc::Global;

/// A command on a stash.
#[derive(Drop)]
pub enum Command<T> {
    /// Appends a row.
    Push(T),
    /// Removes all rows.
    Clear,
    /// Appends the rows of a range of the source.
    Copy(usize, usize),
    /// Keeps the first rows.
    Truncate(usize),
    /// Converts the bytes to a column.
    MakeTyped,
    /// Converts the stash to the bytes of its encoding.
    MakeAligned,
    /// Writes the stash to new bytes and opens them.
    Reopen,
}

/// Why a command was refused.
#[derive(Clone, Copy, Debug, PartialEq, Eq)]
pub enum Refusal {
    /// The column did not grow.
    Grow(GrowError),
    /// The range of the copy is reversed or not within the source, or there are fewer rows than the cut keeps.
    Range,
    /// Nothing was encoded.
    Encode(EncodeError),
}

/// The result of a command.
#[derive(Clone, Copy, Debug, PartialEq, Eq)]
pub enum Reply {
    /// The command was carried out.
    Done,
    /// The command was refused; no row changed.
    Refused(Refusal),
}

impl<T> Command<T> {
    // Returns whether the command is in range, for a source of `source` rows and a stash of `rows` rows.
    fn is_in_range(&self, source: usize, rows: usize) -> bool
        ensures { (meaning : T → Row) → result ≡ in_range source rows (order_of meaning self.now) }
    {
        match self {
            Command::Copy(from, to) => *from <= *to && *to <= source,
            Command::Truncate(n) => *n <= rows,
            Command::Push(_) => true,
            Command::Clear => true,
            Command::MakeTyped => true,
            Command::MakeAligned => true,
            Command::Reopen => true,
        }
    }
}

impl<C: ContainerBytes + Storage> Stash<C, Vec<u8>> {
    // Applies one command, after testing its range.
    fn apply<T: Item, V: Len + Copy>(
        &mut self,
        alloc: Global,
        source: V,
        command: &Command<T>,
    ) -> Reply
    where
        C: PushRef<T> + ExtendFrom<V>,
        requires representable { IsTrue (representable C.format) }
        requires sound { IsSound C.format (stash_content self.old) }
        requires source_sound { IsSound V.format (V.content source) }
        requires valid { IsValid T.valid command.now }
        ensures sound { IsSound C.format (stash_content self.new) }
        ensures answer { Answers C.format (V.format.rows (V.content source)) (state_of self.old) (state_of self.new) (order_of T.meaning command.now) result }
    {
        let rows = self.len();
        if command.is_in_range(source.len(), rows) {
            self.act(alloc, source, command)
        } else {
            Reply::Refused(Refusal::Range)
        }
    }

    // Applies one command that is in range.
    fn act<T: Item, V: Len + Copy>(
        &mut self,
        alloc: Global,
        source: V,
        command: &Command<T>,
    ) -> Reply
    where
        C: PushRef<T> + ExtendFrom<V>,
        requires representable { IsTrue (representable C.format) }
        requires sound { IsSound C.format (stash_content self.old) }
        requires source_sound { IsSound V.format (V.content source) }
        requires valid { IsValid T.valid command.now }
        requires within { in_range (length (V.format.rows (V.content source))) (length (C.format.rows (stash_content self.old))) (order_of T.meaning command.now) ≡ true }
        ensures sound { IsSound C.format (stash_content self.new) }
        ensures answer { Answers C.format (V.format.rows (V.content source)) (state_of self.old) (state_of self.new) (order_of T.meaning command.now) result }
    {
        match command {
            Command::Push(item) => match self.push_ref(item) {
                Ok(()) => Reply::Done,
                Err(error) => Reply::Refused(Refusal::Grow(error)),
            },
            Command::Clear => {
                self.clear();
                Reply::Done
            }
            Command::Copy(from, to) => match self.extend_from_self(source, *from..*to) {
                Ok(()) => Reply::Done,
                Err(error) => Reply::Refused(Refusal::Grow(error)),
            },
            Command::Truncate(n) => match self.truncate(*n) {
                Ok(()) => Reply::Done,
                Err(error) => Reply::Refused(Refusal::Grow(error)),
            },
            Command::MakeTyped => match self.load_in_place() {
                Ok(()) => Reply::Done,
                Err(error) => Reply::Refused(Refusal::Grow(error)),
            },
            Command::MakeAligned => match self.align_in_place(alloc) {
                Ok(()) => Reply::Done,
                Err(error) => Reply::Refused(Refusal::Encode(error)),
            },
            Command::Reopen => match self.reopen(alloc) {
                Ok(()) => Reply::Done,
                Err(error) => Reply::Refused(Refusal::Encode(error)),
            },
        }
    }
}

/// Runs the commands in order, and returns the stash with one reply for each command. Each reply is true of the column
/// at that time.
///
/// # Requires
/// A representable type; a well-formed stash and source; valid items.
///
/// # Errors
/// `Memory` if the replies cannot be allocated, before any command; the stash is then unchanged.
pub fn run<T: Item, V: Len + Copy, C: ContainerBytes + Storage + PushRef<T> + ExtendFrom<V>>(
    alloc: Global,
    mut stash: Stash<C, Vec<u8>>,
    source: V,
    commands: &[Command<T>],
) -> (Stash<C, Vec<u8>>, Result<Vec<Reply>, GrowError>)
    requires representable { IsTrue (representable C.format) }
    requires sound { IsSound C.format (stash_content stash) }
    requires source_sound { IsSound V.format (V.content source) }
    requires valid { All (IsValid T.valid) commands.now }
    ensures sound { IsSound C.format (stash_content result.0) }
    ensures ran { IfOk result.1 (λ replies. Ran C.format (V.format.rows (V.content source)) (state_of stash) (map (order_of T.meaning) commands.now) replies.items (state_of result.0)) }
    ensures memory { IfErr result.1 (λ e. e ≡ GrowError.Memory) }
    ensures stays { OnErr result.1 (result.0 ≡ stash) }
{
    let Ok(mut replies) = Vec::with_capacity(alloc, commands.len()) else {
        return (stash, Err(GrowError::Memory));
    };
    for i in 0..commands.len() {
        let reply = stash.apply(alloc, source, &commands[i]);
        match replies.push(reply) {
            Ok(()) => {}
            Err(_) => unreachable!(),
        }
    }
    (stash, Ok(replies))
}
