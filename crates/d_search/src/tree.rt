//! The tree of boxes.

ghost use Rattle.std.specs.Prelude.{◌≡◌, ◌<◌, ◌^◌, Some, length, slice_get};

use d_bound::Node;
use d_box::{Space, Split};
use std::marker::Model;

/// A box of the tree, with what is known of it.
#[derive(Clone, Copy)]
pub struct TreeNode {
    /// The ranges of the highest demands in W, and of the imports of tiered periods in Wh.
    pub space: Space,
    /// The bound and the bill of the box, in 10^-21 USD, and its slopes.
    pub node: Node,
    /// Where the box was split, in W or Wh; None at a leaf.
    pub split: Option<Split>,
    /// The number of the node of its left half; 0 at a leaf.
    pub left: u32,
    /// The number of the node of its right half; 0 at a leaf.
    pub right: u32,
}

/// The boxes that were made, in the order in which they were: the root has number 0, and halves follow one another. There are fewer than
/// 2^32. A contract sees it as the list of its nodes.
#[derive(Drop)]
pub struct Tree {
    nodes: Vec<TreeNode>,
}

impl Model for Tree {
    ghost use Rattle.std.specs.Prelude.{◌<◌, ◌^◌, List, length};
    ghost use Rattle.d_search.specs.declared.tree.TreeNode.{TreeNode};

    ghost Value = { List TreeNode };

    ghost view = { λ tree. tree.nodes.items };

    ghost invariant = { λ tree. length tree.nodes.items < 2 ^ 32 };
}

impl Tree {
    /// These nodes.
    pub(crate) fn of(nodes: Vec<TreeNode>) -> Tree
        requires { length nodes.items < 2 ^ 32 }
        ensures { result ≡ nodes.items }
    {
        Tree { nodes }
    }

    /// How many nodes there are.
    pub fn count(&self) -> u32
        ensures { result ≡ length self.now }
    {
        let count = self.nodes.len();
        count as u32
    }

    /// The node of this number, which is below the count.
    pub fn node(&self, number: u32) -> &TreeNode
        requires { number < length self.now }
        ensures { slice_get self.now number ≡ Some result.now }
    {
        &self.nodes[number as usize]
    }
}
