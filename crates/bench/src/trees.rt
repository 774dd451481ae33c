//! Trees in which each node has three children, except on the lowest level.
ghost use Rattle.std.specs.Prelude.{IfSome};
ghost use Rattle.columnar_base.specs.Format.{IsSound};
ghost use Rattle.columnar_nested.specs.Trees.{trees_format, trees_content, owned_trees};

use crate::amount::Amount;
use crate::clock::Random;
use crate::times::Times;
use crate::work;
use columnar_base::traits::{Column, Index, Item, Len};
use columnar_base::view::View;
use columnar_core::container::Borrow;
use columnar_nested::tree::Tree;
use columnar_nested::trees::{NodeBounds, Trees, TreesRef};
use std::alloc::Global;
use std::io::Write;
use std::mem;
use std::rt::Clock;

type Numbers = Trees<Vec<u64>, Vec<u64>>;

const LEAVES: usize = 59_049;

// A well-formed column of trees.
#[derive(Drop)]
struct Grove {
    trees: Numbers,
    ghost sound: { IsSound (trees_format ⟦<Vec<u64> as Column>⟧.format) (owned_trees ⟦<Vec<u64> as Column>⟧.content trees) },
}

impl Grove {
    fn new(alloc: Global) -> Option<Grove> {
        let trees = Trees::new(alloc).ok()?;
        Some(Grove { trees })
    }

    fn push(&mut self, tree: Tree<u64>) -> Option<()>
        requires { ⟦<Tree<u64> as Item>⟧.valid tree }
    {
        self.trees.push_tree(tree).ok()
    }
}

/// The value of a node.
trait Worth: Drop {
    fn of(word: u64) -> Self;
}

impl Worth for u64 {
    fn of(word: u64) -> u64 {
        word
    }
}

impl Worth for usize {
    fn of(word: u64) -> usize {
        (word % 1024) as usize
    }
}

// Makes parents of these nodes, each with the next three as children.
fn above<T: Worth>(
    alloc: Global,
    nodes: Vec<Tree<T>>,
    random: &mut Random,
) -> Option<Vec<Tree<T>>> {
    let mut upper = Vec::new(alloc);
    let mut kids = Vec::new(alloc);
    for node in nodes {
        kids.push(node).ok()?;
        if kids.len() == 3 {
            let three = mem::replace(&mut kids, Vec::new(alloc));
            let value = T::of(random.next());
            upper.push(Tree { value, kids: three }).ok()?;
        }
    }
    Some(upper)
}

// Makes trees of all leaves, with `levels` levels below the root.
fn forest<T: Worth>(alloc: Global, levels: usize, random: &mut Random) -> Option<Vec<Tree<T>>> {
    let mut nodes = Vec::new(alloc);
    for _leaf in 0..LEAVES {
        let value = T::of(random.next());
        let kids = Vec::new(alloc);
        nodes.push(Tree { value, kids }).ok()?;
    }
    for _level in 0..levels {
        nodes = above(alloc, nodes, random)?;
    }
    Some(nodes)
}

#[inline(never)]
fn push_trees(alloc: Global, trees: Vec<Tree<u64>>) -> Option<Grove> {
    let mut grove = Grove::new(alloc)?;
    for tree in trees {
        grove.push(tree)?;
    }
    Some(grove)
}

// Adds up the values of a node and its children.
fn sum_kids<V: Index<Ref: Amount> + Copy, B: NodeBounds + Copy>(node: TreesRef<V, B>) -> u64
    requires { ⟦<TreesRef<V, B> as Item>⟧.valid node }
{
    let mut sum = node.value().amount();
    for index in 0..node.kids() {
        sum = sum.wrapping_add(node.child(index).value().amount());
    }
    sum
}

// Adds up the values of all trees with two levels below the root.
#[inline(never)]
fn walk<V: Index<Ref: Amount> + Copy, B: NodeBounds + Copy>(trees: &Trees<V, B>) -> u64
    requires { IsSound (trees_format V.format) (trees_content B.bytes V.content trees.now) }
{
    let mut sum = 0u64;
    for at in 0..trees.len() {
        let root = trees.get(at);
        sum = sum.wrapping_add(root.value().amount());
        for index in 0..root.kids() {
            sum = sum.wrapping_add(sum_kids(root.child(index)));
        }
    }
    sum
}

pub fn measure<R: Clock, O: Write>(times: &mut Times<'_, R, O>) -> Option<()> {
    let mut random = Random::new(29);
    let one = forest::<u64>(times.alloc, 10, &mut random)?;
    let start = times.start();
    let grove = push_trees(times.alloc, one)?;
    times.end("push_tree_one", start, LEAVES / 2 * 3)?;
    drop(grove);
    let many = forest::<u64>(times.alloc, 2, &mut random)?;
    let start = times.start();
    let grove = push_trees(times.alloc, many)?;
    times.end("push_tree_many", start, LEAVES / 9 * 13)?;
    viewed(times, &grove)?;
    summed(times, &mut random)
}

fn viewed<R: Clock, O: Write>(times: &mut Times<'_, R, O>, grove: &Grove) -> Option<()> {
    let view = grove.trees.borrow();
    let start = times.start();
    let sum = walk::<View<'_, u64>, View<'_, u64>>(&view);
    times.summed("walk_trees", start, LEAVES / 9 * 13, sum)?;
    let bytes = work::written(times.alloc, &view, 32 * LEAVES)?;
    times.validate::<Numbers>("validate_trees", LEAVES / 9 * 13, bytes.as_slice())?;
    Some(())
}

fn summed<R: Clock, O: Write>(times: &mut Times<'_, R, O>, random: &mut Random) -> Option<()> {
    let trees = forest::<usize>(times.alloc, 10, random)?;
    let tree = trees.first()?;
    let start = times.start();
    let sum = tree.sum().ok()?;
    times.summed("sum_tree", start, LEAVES / 2 * 3, sum as u64)?;
    Some(())
}
