//! The bounds of a problem's boxes.

ghost use Rattle.std.specs.Prelude.{◌≡◌, ◌+◌, ◌<◌, ◌≤◌, [], length, option_map, IfOk};
ghost use Rattle.d_path.specs.Cheapest.{HasCheapest};
ghost use Rattle.d_path.specs.Arcs.{intervals_of};
ghost use Rattle.d_bill.specs.Inputs.{Inputs};
ghost use Rattle.d_bill.specs.Slopes.{tiered};
ghost use Rattle.d_bound.specs.Roots.{AreCandidates, root_box, IsProblemBox};
ghost use Rattle.d_bound.specs.Nodes.{box_arcs, box_schedule, node_of};
ghost use Rattle.d_bound.specs.BoxLaws.{IsUntiered};
ghost use Rattle.d_bound.specs.Bounders.{IsAtDay, IsBounderOf, IsFilled, IsWritten, held_arcs, capped_costs};

use crate::bound::{bill_of, bound_of};
use crate::caps::cap_costs;
use crate::costs::{costs_of, moves_of, powers_of};
use crate::node::Node;
use crate::rates::prices_of;
use crate::roots::{candidates_of, root_of};
use crate::slopes::first_slopes;
use crate::ways::{Levels, find_first, layers_of, levels_of, ways_over};
use d_bill::Problem;
use d_box::{Candidates, Slopes, Space};
use d_num::NoMemory;
use d_path::{Move, backward_days, fill_day};
use d_rows::{DayLayers, Packed};
use std::alloc::Global;

/// What is taken once to bound the boxes of a problem: what each mode costs and draws in each interval, the candidates of each group, and
/// layers of costs for the days of the month.
///
/// The problem that is handed to its calls is the one that it was made of.
#[derive(Drop)]
pub struct Bounder {
    costs: Vec<Packed>,
    powers: Vec<i64>,
    capped: Vec<Packed>,
    moves: Vec<Move>,
    levels: Levels,
    candidates: Candidates,
    layers: DayLayers,
    day: u32,
}

impl Bounder {
    /// The bounder of a problem in which no period is tiered, unless memory ran out.
    pub fn make(alloc: Global, problem: &Problem) -> Result<Bounder, NoMemory>
        requires { tiered problem.now ≡ [] }
        ensures { IfOk result (IsBounderOf problem.now) }
    {
        // shows the ranges of the problem
        let _count = problem.intervals();
        let rates = prices_of(alloc, problem)?;
        let costs = costs_of(alloc, problem, rates.as_slice())?;
        let powers = powers_of(alloc, problem)?;
        let capped = vec![in alloc; Packed::no_way(); costs.len()]?;
        let moves = moves_of(alloc, problem.battery().modes.as_slice())?;
        let candidates = candidates_of(alloc, problem)?;
        let layers = layers_of(alloc, problem)?;
        Ok(Bounder {
            costs,
            powers,
            capped,
            moves,
            levels: levels_of(problem),
            candidates,
            layers,
            day: 0,
        })
    }

    /// The box that holds every feasible schedule: the range of each group's highest demand goes from its least to its greatest candidate,
    /// or is 0 to 0 where it has none.
    pub fn root(&self, problem: &Problem) -> Space
        requires untiered { tiered problem.now ≡ [] }
        requires bounder { IsBounderOf problem.now self.now }
        ensures { result ≡ root_box problem.now self.now.candidates }
    {
        root_of(&self.candidates)
    }

    /// The candidates of each group in W: the different powers that it may draw, rising.
    pub fn candidates(&self) -> &Candidates
        ensures { result.now ≡ self.now.candidates }
    {
        &self.candidates
    }

    /// The node of a box whose parent has these slopes; the root has no parent. The schedule, which has one entry an interval, becomes the
    /// first cheapest one within the caps of the box, or stays where there is none. It takes no memory.
    pub fn node(
        &mut self,
        problem: &Problem,
        space: &Space,
        parent: Option<&Slopes>,
        schedule: &mut [u8],
    ) -> Node
        requires untiered { tiered problem.now ≡ [] }
        requires bounder { IsBounderOf problem.now self.old }
        requires boxed { IsProblemBox self.old.candidates space.now }
        requires room { length schedule.old ≡ length problem.now.net }
        ensures bounder { IsBounderOf problem.now self.new }
        ensures candidates { self.new.candidates ≡ self.old.candidates }
        ensures node { result ≡ node_of problem.now space.now (option_map (λ s. s.now) parent.entry) }
        ensures schedule { IsWritten (box_schedule problem.now space.now result.slopes) schedule.old schedule.new }
    {
        let slopes = first_slopes(space, parent);
        self.cap(problem, space);
        let ways = ways_over(self.levels, self.capped.as_slice(), self.moves.as_slice());
        match find_first(&ways, &mut self.layers, schedule) {
            Some(cost) => Node {
                bound: Some(bound_of(problem, space, cost)),
                slopes,
                bill: Some(bill_of(problem, schedule)),
            },
            None => Node {
                bound: None,
                slopes,
                bill: None,
            },
        }
    }

    /// Fills the layers with the least costs within the caps of a box, where the energy of tiered periods is counted at these slopes. It
    /// takes no memory.
    pub fn fill(&mut self, problem: &Problem, space: &Space, slopes: &Slopes)
        requires untiered { tiered problem.now ≡ [] }
        requires bounder { IsBounderOf problem.now self.old }
        requires boxed { IsProblemBox self.old.candidates space.now }
        ensures bounder { IsBounderOf problem.now self.new }
        ensures candidates { self.new.candidates ≡ self.old.candidates }
        ensures arcs { held_arcs self.new ≡ box_arcs problem.now space.now slopes.now }
        ensures filled { IsFilled self.new }
    {
        self.cap(problem, space);
        let ways = ways_over(self.levels, self.capped.as_slice(), self.moves.as_slice());
        backward_days(&ways, &mut self.layers);
        fill_day(&ways, 0, &mut self.layers);
        self.day = 0;
    }

    /// Brings the rows of the day of an interval into the window, by the last `fill`, which no `node` came after. It takes no memory.
    pub fn turn_to(&mut self, t: u32)
        requires filled { IsFilled self.old }
        requires inside { t ≤ intervals_of (held_arcs self.old) }
        ensures bounder { (i : Inputs) → IsBounderOf i self.old → IsBounderOf i self.new }
        ensures candidates { self.new.candidates ≡ self.old.candidates }
        ensures arcs { held_arcs self.new ≡ held_arcs self.old }
        ensures filled { IsFilled self.new }
        ensures day { IsAtDay self.new t }
    {
        let day = (t / self.layers.per_day()).min(self.layers.days() - 1);
        if day != self.day {
            let ways = ways_over(self.levels, self.capped.as_slice(), self.moves.as_slice());
            fill_day(&ways, day, &mut self.layers);
            self.day = day;
        }
    }

    /// The least costs from each level at an interval on to the month's end, the least level's first; those at the month's end come at the
    /// number of intervals. The window has the day of the interval.
    pub fn layer(&self, t: u32) -> &[Packed]
        requires filled { IsFilled self.now }
        requires day { IsAtDay self.now t }
        ensures cheapest { HasCheapest (held_arcs self.now) t result.now }
        ensures wide { (held_arcs self.now).floor + length result.now ≡ (held_arcs self.now).capacity + 1 }
    {
        let begin = self.day * self.layers.per_day();
        self.layers.row(self.day, t - begin)
    }

    /// Writes what each mode costs within the caps of a box.
    fn cap(&mut self, problem: &Problem, space: &Space)
        requires bounder { IsBounderOf problem.now self.old }
        requires peaks { length space.now.peaks ≡ 37 }
        ensures bounder { IsBounderOf problem.now self.new }
        ensures candidates { self.new.candidates ≡ self.old.candidates }
        ensures capped { self.new.capped.items ≡ capped_costs problem.now space.now }
    {
        cap_costs(
            problem,
            space,
            self.costs.as_slice(),
            self.powers.as_slice(),
            self.capped.as_mut_slice(),
        );
    }
}
