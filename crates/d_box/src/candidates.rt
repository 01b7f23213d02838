//! The candidates of each group: the powers that its highest demand may have.

ghost use Rattle.std.specs.Prelude.{◌≡◌, ◌<◌, length};
ghost use Rattle.std.specs.List.{All};
ghost use Rattle.d_box.specs.Candidates.{IsRising, AreCandidatesOf, HaveSameMembers, lists_of, list_at, range_of, next_above};

use crate::places::first_above;
use crate::space::Range;
use std::marker::Model;

/// For each group its candidates, each once, in rising order. A contract sees it as the list of these lists.
#[derive(Drop)]
pub struct Candidates {
    lists: Vec<Vec<i64>>,
}

impl Model for Candidates {
    ghost use Rattle.std.specs.Prelude.{List, ℤ, map};
    ghost use Rattle.std.specs.List.{All};

    ghost Value = { List (List ℤ) };

    ghost use Rattle.d_box.specs.Candidates.{IsRising};

    ghost view = { λ a. map (λ r. r.items) a.lists.items };

    ghost invariant = { λ a. All IsRising (map (λ r. r.items) a.lists.items) };
}

/// Sorts a list and drops repeats.
fn rise(list: &mut Vec<i64>)
    ensures rises { IsRising list.new.items }
    ensures members { HaveSameMembers list.old.items list.new.items }
{
    list.sort_unstable();
    list.dedup();
}

impl Candidates {
    /// The candidates in these lists, a list of powers in W for each group: each once, in rising order. The lists are sorted where they are.
    pub fn from_lists(lists: Vec<Vec<i64>>) -> Candidates
        ensures same { AreCandidatesOf (lists_of lists.items) result }
        ensures rises { All IsRising result }
    {
        let mut lists = lists;
        for group in 0..lists.len() {
            rise(&mut lists[group]);
        }
        Candidates { lists }
    }

    /// For how many groups there are candidates.
    pub fn count(&self) -> usize
        ensures { result ≡ length self.now }
    {
        self.lists.len()
    }

    /// A group's candidates in W, in rising order.
    pub fn list(&self, group: u8) -> &[i64]
        requires { group < length self.now }
        ensures list { result.now ≡ list_at self.now group }
        ensures rises { All IsRising self.now }
    {
        &self.lists[group as usize]
    }

    /// The range from a group's least to its greatest candidate; 0 to 0 where it has none.
    pub fn range(&self, group: u8) -> Range
        requires { group < length self.now }
        ensures { result ≡ range_of (list_at self.now group) }
    {
        let list = self.list(group);
        if list.is_empty() {
            return Range { low: 0, high: 0 };
        }
        Range {
            low: list[0],
            high: list[list.len() - 1],
        }
    }

    /// The first candidate of a group above a power, or that power where none is above it.
    pub fn next_above(&self, group: u8, power: i64) -> i64
        requires { group < length self.now }
        ensures { result ≡ next_above (list_at self.now group) power }
    {
        first_above(self.list(group), power)
    }
}
