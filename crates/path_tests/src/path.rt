//! A small month of two days, with least costs and ways worked out by hand.

ghost use Rattle.std.specs.Prelude.{◌≡◌, ◌*◌, ◌^◌};
ghost use Rattle.d_num.specs.Amount.{IsWithin};
ghost use Rattle.d_num.specs.declared.pot.Pot.TheVariants.{To};

use d_num::{Money, NoMemory};
use d_path::{Move, Ways, backward_days, fill_day, first_cheapest_days};
use d_rows::{DayLayers, Packed};

fn cost(units: i128) -> Packed
    requires { IsWithin (10 ^ 6) units }
    ensures { result ≡ To units }
{
    Packed::to(Money::new(units).unwrap())
}

// Levels 1 to 3. The moves are to stay, to rise by one and, from level 3 alone, to fall by one.
const MOVES: [Move; 3] = [
    Move {
        change: 0,
        low: 0,
        high: 255,
    },
    Move {
        change: 1,
        low: 0,
        high: 255,
    },
    Move {
        change: -1,
        low: 3,
        high: 3,
    },
];

#[test]
fn takes_the_first_of_two_cheapest_ways_over_two_days(rt: HostRuntime) -> Result<(), NoMemory> {
    let no_way = Packed::no_way();
    let costs = [
        cost(5),
        cost(7),
        cost(1),
        cost(5),
        no_way,
        cost(2),
        cost(4),
        cost(6),
        cost(-3),
        cost(1),
        cost(9),
        cost(1),
    ];
    let ways = Ways {
        costs: &costs,
        moves: &MOVES,
        floor: 1,
        capacity: 3,
        start: 1,
        end: 2,
    };
    let mut layers = DayLayers::make(rt.alloc(), 2, 2, 3)?;
    assert!(rt; layers.row(0, 0) == [no_way, no_way, no_way].as_slice());
    backward_days(&ways, &mut layers);
    assert!(rt; layers.row(0, 0) == [cost(17), cost(10), cost(8)].as_slice());
    assert!(rt; layers.row(0, 2) == [cost(7), cost(5), cost(-2)].as_slice());
    assert!(rt; layers.row(1, 2) == [no_way, cost(0), cost(0)].as_slice());
    fill_day(&ways, 1, &mut layers);
    assert!(rt; layers.row(1, 1) == [cost(9), cost(1), cost(1)].as_slice());
    // To rise first costs 17 as well.
    let mut schedule = [9, 9, 9, 9];
    assert!(rt; first_cheapest_days(&ways, &mut layers, &mut schedule));
    assert_eq!(rt; schedule, [0, 0, 1, 0]);
    Ok(())
}
