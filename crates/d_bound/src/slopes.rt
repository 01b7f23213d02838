//! The slopes of a box.

ghost use Rattle.std.specs.Prelude.{◌≡◌, length, option_map};
ghost use Rattle.d_bound.specs.SlopeSteps.{untiered_slopes};

use d_box::{Slopes, Space, trial};
use d_num::Rate;

/// The slopes of a box of a problem in which no period is tiered. All trials have the same relaxed value then, so these are those of the
/// first trial: the parent's, or at the root all 0.
pub(crate) fn first_slopes(space: &Space, parent: Option<&Slopes>) -> Slopes
    ensures { result ≡ untiered_slopes space.now (option_map (λ s. s.now) parent.entry) }
{
    let mut slopes = Slopes {
        rates: [Rate::new(0).unwrap(); 36],
    };
    trial(space, &[], parent, 0, &mut slopes);
    // shows how many rates there are
    show_count(&slopes.rates);
    slopes
}

/// Shows how many rates there are.
fn show_count(rates: &[Rate])
    requires { length rates.now ≡ 36 }
    ensures { length rates.now ≡ 36 }
{}
