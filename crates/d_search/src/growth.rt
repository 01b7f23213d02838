//! What a search has found so far: its nodes, the keys of those that are open, and the least bill.

ghost use Rattle.std.specs.Prelude.{◌≡◌, ◌<◌, ◌≤◌, ◌+◌, ◌^◌, ◌++◌, ◌∷◌, [], Some, None, length, slice_get, slice_set, IfOk};
ghost use Rattle.std.specs.List.Sorted.{IsPermutation};
ghost use Rattle.std.specs.Vec.{vec_capacity};
ghost use Rattle.d_search.specs.Growths.{HasKept, HasMark, key_with, one_key};
ghost use Rattle.d_search.specs.Rooms.{IsEmpty};
ghost use Rattle.d_search.specs.Trees.{split_node};
ghost use Rattle.d_search.specs.declared.tree.TreeNode.{TreeNode};

use crate::tree::TreeNode;
use d_bound::Node;
use d_box::{Slopes, Space, Split};
use d_front::{Front, Key};
use d_num::{Money, NoMemory};
use std::alloc::Global;
use std::mem;

/// The nodes that were made, the keys of open leaves, the least bill with its schedule, and a schedule to write on.
#[derive(Drop)]
pub(crate) struct Growth {
    pub nodes: Vec<TreeNode>,
    pub front: Front,
    pub kept: Vec<u8>,
    pub trial: Vec<u8>,
    pub bill: Option<Money>,
}

impl Growth {
    /// Room for so many nodes, and for two schedules of so many intervals.
    pub fn make(alloc: Global, intervals: u32, budget: u32) -> Result<Growth, NoMemory>
        ensures { IfOk result (IsEmpty intervals budget) }
    {
        Ok(Growth {
            nodes: Vec::with_capacity(alloc, budget as usize)?,
            front: Front::make(alloc, budget)?,
            kept: vec![in alloc; 0u8; intervals as usize]?,
            trial: vec![in alloc; 0u8; intervals as usize]?,
            bill: None,
        })
    }
}

/// Puts a leaf behind the nodes, for which there is room.
pub(crate) fn push_leaf(nodes: &mut Vec<TreeNode>, space: &Space, node: &Node)
    requires { length nodes.old.items < vec_capacity nodes.old }
    ensures nodes { nodes.new.items ≡ nodes.old.items ++ record { space = space.now; node = node.now; split = None; left = 0; right = 0 } ∷ [] }
    ensures space { vec_capacity nodes.old ≤ vec_capacity nodes.new }
{
    let bound = node.bound;
    let rates = node.slopes.rates;
    let bill = node.bill;
    let node = Node {
        bound,
        slopes: Slopes { rates },
        bill,
    };
    let leaf = TreeNode {
        space: *space,
        node,
        split: None,
        left: 0,
        right: 0,
    };
    nodes.push(leaf).unwrap();
}

/// Writes into the node of this number where it was split; its halves get the next two numbers.
pub(crate) fn mark_split(nodes: &mut Vec<TreeNode>, number: u32, split: Split)
    requires inside { number < length nodes.old.items }
    requires few { length nodes.old.items + 1 < 2 ^ 32 }
    ensures nodes { HasMark nodes.old.items number split nodes.new.items }
    ensures space { vec_capacity nodes.new ≡ vec_capacity nodes.old }
{
    let count = nodes.len() as u32;
    let node = &mut nodes[number as usize];
    node.split = Some(split);
    node.left = count;
    node.right = count + 1;
}

/// Puts in the key of a leaf that has a bound.
pub(crate) fn put_key(front: &mut Front, bound: Option<Money>, point: bool, number: u32)
    requires { length front.old.keys < front.old.room }
    ensures keys { IsPermutation (one_key (key_with bound point number) ++ front.old.keys) front.new.keys }
    ensures room { front.new.room ≡ front.old.room }
{
    if let Some(bound) = bound {
        front.put(Key {
            bound,
            point,
            node: number,
        });
    }
}

/// Keeps the trial where its bill is less than the least so far; the schedule that was kept is written over later.
pub(crate) fn keep_less(
    least: &mut Option<Money>,
    kept: &mut Vec<u8>,
    trial: &mut Vec<u8>,
    bill: Option<Money>,
)
    ensures { HasKept least.old kept.old.items trial.old.items bill least.new kept.new.items trial.new.items }
{
    let Some(amount) = bill else {
        return;
    };
    if let Some(found) = *least
        && found <= amount
    {
        return;
    }
    *least = bill;
    mem::swap(kept, trial);
}
