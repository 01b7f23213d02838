//! The key of an open box.

ghost use Rattle.std.specs.Prelude.{refl};
ghost use Rattle.std.proofs.Common.{rules};
ghost use Rattle.std.specs.Cmp.{partial_order_from_agreeing_total};
ghost use Rattle.std.specs.Cmp.Rules.{comparing};
ghost use Rattle.std.specs.Ordering.{as_partial_cmp};
ghost use Rattle.d_front.specs.Keys.{key_cmp};

use d_num::Money;
use std::cmp::Ordering;

/// An open box of a search: what is known of it as long as it waits. Of two keys the lesser comes first: that of the lower bound, of equal
/// bounds a point before any other, and then that of the lower number. Our own rule.
#[derive(Clone, Copy, PartialEq, Eq)]
pub struct Key {
    /// What the box's schedules are billed at least, in units of 10^-21 USD.
    pub bound: Money,
    /// Whether the box is a point, which isn't split any more.
    pub point: bool,
    /// The box's number in the order in which boxes were made, from 0.
    pub node: u32,
}

impl Ord for Key {
    ghost cmp = { key_cmp };

    ghost total = { Prim.search (comparing, rules) };

    ghost matches_partial_cmp = { Prim.search (comparing, rules) };

    ghost matches_eq = { Prim.search (comparing, rules) };

    fn cmp(&self, other: &Key) -> Ordering {
        self.bound
            .cmp(&other.bound)
            .then(other.point.cmp(&self.point))
            .then(self.node.cmp(&other.node))
    }
}

impl PartialOrd for Key {
    ghost partial_cmp = { as_partial_cmp key_cmp };

    ghost laws = { partial_order_from_agreeing_total key_cmp (Prim.search (comparing, rules)) (λ x y. refl) (Prim.search (comparing, rules)) };

    fn partial_cmp(&self, other: &Key) -> Option<Ordering> {
        Some(self.cmp(other))
    }
}
