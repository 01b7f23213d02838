//! The part of a row from which a move can be made.

ghost use Rattle.std.specs.Prelude.{◌≡◌, ◌<◌, ◌^◌, pos, neg_ℤ};
ghost use Rattle.d_path.specs.Arcs.{arcs_of};
ghost use Rattle.d_path.specs.Best.{IsSpan};

use crate::ways::{Move, Ways};

/// The columns from which a move can be made, and those to which it leads.
#[derive(Drop)]
pub struct Span {
    /// The first column from which it can be made.
    pub from: usize,
    /// The column to which it leads from there.
    pub to: usize,
    /// How many columns it can be made from.
    pub count: usize,
}

/// From which columns of a row a move can be made that raises the level by so much.
fn rising_span(ways: &Ways, step: &Move, rise: usize) -> Span
    requires change { step.now.change ≡ pos rise }
    requires small { rise < 2 ^ 16 }
    ensures { IsSpan (arcs_of ways.now) step.now result.from result.to result.count }
{
    let floor = usize::from(ways.floor);
    let lowest = usize::from(step.low).max(floor);
    let end = (usize::from(step.high) + 1).min(
        (usize::from(ways.capacity) + 1).saturating_sub(rise),
    );
    Span {
        from: lowest - floor,
        to: lowest - floor + rise,
        count: end.saturating_sub(lowest),
    }
}

/// From which columns of a row a move can be made that lowers the level by so much.
fn falling_span(ways: &Ways, step: &Move, fall: usize) -> Span
    requires change { step.now.change ≡ neg_ℤ (pos fall) }
    requires small { fall < 2 ^ 16 }
    ensures { IsSpan (arcs_of ways.now) step.now result.from result.to result.count }
{
    let floor = usize::from(ways.floor);
    let lowest = usize::from(step.low).max(floor + fall);
    let end = (usize::from(step.high) + 1).min(usize::from(ways.capacity) + 1);
    Span {
        from: lowest - floor,
        to: lowest - floor - fall,
        count: end.saturating_sub(lowest),
    }
}

/// From which columns of a row this move can be made.
pub fn span_of(ways: &Ways, step: &Move) -> Span
    ensures { IsSpan (arcs_of ways.now) step.now result.from result.to result.count }
{
    let by = usize::from(step.change.unsigned_abs());
    if step.change < 0 {
        falling_span(ways, step, by)
    } else {
        rising_span(ways, step, by)
    }
}
