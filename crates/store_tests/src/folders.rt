// Folders as trees; the value of a node is its number of bytes. A node that is read in place is a field of a struct,
// which knows that the node is valid, so a walk down has no preconditions. Uses only `columnar`'s names.
ghost use Rattle.columnar.specs.Format.{IsSound};
ghost use Rattle.columnar.specs.NodeRefs.{ref_valid};
ghost use Rattle.columnar.specs.Trees.{owned_trees, trees_format};

use columnar::adts::tree::{NodeBounds, Tree, Trees, TreesRef};
use columnar::fault::GrowError;
use columnar::{Borrow, Column, Index};
use std::alloc::Global;
use std::test::Fail;
use test_support::equal;

type Sizes = Vec<u64>;

#[derive(Drop)]
struct Folders {
    trees: Trees<Sizes>,
    ghost sound: { IsSound (trees_format ⟦<Sizes as Column>⟧.format) (owned_trees ⟦<Sizes as Column>⟧.content trees) },
}

impl Folders {
    fn new(alloc: Global) -> Result<Folders, GrowError> {
        let trees = Trees::new(alloc)?;
        Ok(Folders { trees })
    }

    fn add(&mut self, folder: Tree<u64>) -> Result<(), GrowError> {
        self.trees.push_tree(folder)
    }

    // Returns the bytes of the folder at this path of child numbers, from tree `index` on.
    fn bytes_at(&self, index: usize, path: &[usize]) -> Option<u64> {
        let Some(node) = self.trees.borrow().get_checked(index) else {
            return None;
        };
        match walked(Folder { node }, path) {
            Some(folder) => Some(folder.bytes()),
            None => None,
        }
    }
}

// A folder, read in place.
#[derive(Drop)]
struct Folder<V: Column + Copy, B: NodeBounds + Copy> {
    node: TreesRef<V, B>,
    ghost valid: { ref_valid B.bytes V.format V.content node },
}

impl<V: Index<Ref = u64> + Copy, B: NodeBounds + Copy> Folder<V, B> {
    fn bytes(&self) -> u64 {
        self.node.value()
    }

    fn kid(&self, index: usize) -> Option<Folder<V, B>> {
        if index >= self.node.kids() {
            return None;
        }
        let node = self.node.child(index);
        Some(Folder { node })
    }
}

fn walked<V: Index<Ref = u64> + Copy, B: NodeBounds + Copy>(
    root: Folder<V, B>,
    path: &[usize],
) -> Option<Folder<V, B>> {
    let mut folder = root;
    for step in path {
        match folder.kid(*step) {
            Some(kid) => folder = kid,
            None => return None,
        }
    }
    Some(folder)
}

fn leaf(alloc: Global, value: u64) -> Tree<u64> {
    Tree {
        value,
        kids: Vec::new(alloc),
    }
}

#[test]
fn folders_are_walked_down(rt: HostRuntime) -> Result<(), Fail> {
    let mut inner = leaf(rt.alloc(), 2);
    inner.kids.push(leaf(rt.alloc(), 3))?;
    let mut root = leaf(rt.alloc(), 1);
    root.kids.push(leaf(rt.alloc(), 5))?;
    root.kids.push(inner)?;
    let mut folders = Folders::new(rt.alloc())?;
    folders.add(root)?;
    equal!(rt; folders.bytes_at(0, [].as_slice()), Some(1));
    equal!(rt; folders.bytes_at(0, [1usize].as_slice()), Some(2));
    equal!(rt; folders.bytes_at(0, [1usize, 0].as_slice()), Some(3));
    equal!(rt; folders.bytes_at(0, [0usize, 0].as_slice()), None);
    equal!(rt; folders.bytes_at(1, [].as_slice()), None);
    Ok(())
}
