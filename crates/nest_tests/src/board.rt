// A struct in a list in a struct in an enum in a struct: each call on a stash of it.
ghost use Rattle.columnar.specs.Format.{IsSound};
ghost use Rattle.columnar.specs.Stashes.{stash_content};

mod rows;

use crate::cell::Cell;
use crate::kind::Kind;
use crate::page::Page;
use columnar::bytes::stash::{Command, Reply, Stash, run};
use columnar::fault::OwnError;
use columnar::{Borrow, Column, Columnar, Index, Len, Push, PushRef};
use rows::BoardContainer;
use std::alloc::Global;
use std::rt::HostRuntime;
use std::test::Fail;
use test_support::{equal, holds};

#[derive(Drop)]
pub struct Board {
    pub id: u64,
    pub kind: Kind,
}

// Boards, for the calls that the tests make.
#[derive(Drop)]
struct Boards {
    stash: Stash<BoardContainer, Vec<u8>>,
    ghost sound: { IsSound ⟦<BoardContainer as Column>⟧.format (stash_content stash) },
}

impl Boards {
    fn empty(alloc: Global) -> Boards {
        Boards {
            stash: Stash::empty(alloc),
        }
    }

    fn opened(alloc: Global, bytes: Vec<u8>) -> Option<Boards> {
        let stash = Stash::try_from_bytes(alloc, bytes).ok()?;
        Some(Boards { stash })
    }

    fn with_room_for(alloc: Global, other: &Boards) -> Option<Boards> {
        let views = [other.stash.borrow()];
        let stash = Stash::with_capacity_for(alloc, views.iter().copied()).ok()?;
        Some(Boards { stash })
    }

    fn written(&self, alloc: Global) -> Option<Vec<u8>> {
        let mut bytes = Vec::new(alloc);
        self.stash.write_bytes(&mut bytes).ok()?;
        Some(bytes)
    }

    fn copy(&self, alloc: Global) -> Option<Boards> {
        let stash = self.stash.duplicate(alloc).ok()?;
        Some(Boards { stash })
    }

    fn takes(&mut self, board: Board) -> bool {
        self.stash.push(board).is_ok()
    }

    fn takes_ref(&mut self, board: &Board) -> bool {
        self.stash.push_ref(board).is_ok()
    }

    fn reserves(&mut self, other: &Boards) -> bool {
        let views = [other.stash.borrow()];
        self.stash.reserve_for(views.iter().copied()).is_ok()
    }

    fn appends(&mut self, other: &Boards) -> bool {
        let count = other.stash.len();
        self.stash
            .extend_from_self(other.stash.borrow(), 0..count)
            .is_ok()
    }

    fn cuts(&mut self, n: usize) -> bool {
        n <= self.stash.len() && self.stash.truncate(n).is_ok()
    }

    fn count(&self) -> usize {
        self.stash.len()
    }

    fn board(&self, alloc: Global, index: usize) -> Option<Result<Board, OwnError>> {
        let row = self.stash.borrow().get_checked(index)?;
        Some(Board::into_owned(alloc, row))
    }
}

fn paged(alloc: Global, id: u64) -> Result<Board, Fail> {
    let mut cells = Vec::new(alloc);
    cells.push(Cell {
        at: id,
        text: format!(in alloc; "cell {id}")?,
        style: Some(3),
    })?;
    Ok(Board {
        id,
        kind: Kind::Paged(Page { number: 1, cells }),
    })
}

#[test]
fn boards_are_pushed_written_and_owned(rt: HostRuntime) -> Result<(), Fail> {
    let alloc = rt.alloc();
    let mut boards = Boards::empty(alloc);
    holds!(rt; boards.takes(paged(alloc, 1)?) && boards.takes_ref(&paged(alloc, 2)?));
    holds!(rt; boards.takes(Board { id: 3, kind: Kind::Named(format!(in alloc; "three")?) }));
    let Some(bytes) = boards.written(alloc) else {
        holds!(rt; false);
        return Ok(());
    };
    let Some(opened) = Boards::opened(alloc, bytes) else {
        holds!(rt; false);
        return Ok(());
    };
    equal!(rt; opened.count(), 3);
    let Some(Ok(Board { id, kind })) = opened.board(alloc, 1) else {
        holds!(rt; false);
        return Ok(());
    };
    equal!(rt; id, 2);
    match &kind {
        Kind::Paged(page) => {
            equal!(rt; (page.number, page.cells.len()), (1, 1));
            holds!(rt; page.cells.iter().all(|cell| cell.text.as_str() == "cell 2"));
        }
        _ => holds!(rt; false),
    }
    Ok(())
}

#[test]
fn boards_are_reserved_copied_and_cut(rt: HostRuntime) -> Result<(), Fail> {
    let alloc = rt.alloc();
    let mut boards = Boards::empty(alloc);
    holds!(rt; boards.takes(paged(alloc, 1)?) && boards.takes(Board { id: 2, kind: Kind::Empty }));
    let Some(mut all) = Boards::with_room_for(alloc, &boards) else {
        holds!(rt; false);
        return Ok(());
    };
    holds!(rt; all.appends(&boards) && all.reserves(&boards) && all.appends(&boards));
    equal!(rt; all.count(), 4);
    holds!(rt; all.cuts(3) && !all.cuts(4));
    let Some(copy) = all.copy(alloc) else {
        holds!(rt; false);
        return Ok(());
    };
    equal!(rt; copy.count(), 3);
    holds!(rt; matches!(&copy.board(alloc, 1), Some(Ok(Board { id: 2, kind: Kind::Empty }))));
    Ok(())
}

// Runs a push, and a copy of the first board of a stash.
fn replies(alloc: Global, boards: Boards, board: Board) -> Option<(usize, Vec<Reply>)> {
    let source = Boards::empty(alloc);
    let commands = [Command::Push(board), Command::Copy(0, 0)];
    let Boards { stash, .. } = boards;
    let (stash, replies) = run(alloc, stash, source.stash.borrow(), commands.as_slice());
    Some((stash.len(), replies.ok()?))
}

#[test]
fn commands_are_run_on_boards(rt: HostRuntime) -> Result<(), Fail> {
    let alloc = rt.alloc();
    let told = replies(alloc, Boards::empty(alloc), paged(alloc, 1)?);
    holds!(rt; matches!(&told, Some((1, replies)) if replies.len() == 2));
    Ok(())
}
