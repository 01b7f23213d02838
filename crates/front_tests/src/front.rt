//! Keys that are put in out of order, and the order in which they are taken.

ghost use Rattle.std.specs.Prelude.{◌^◌};
ghost use Rattle.d_num.specs.Amount.{IsWithin};

use d_front::{Front, Key};
use d_num::{Money, NoMemory};

fn key(units: i128, point: bool, node: u32) -> Key
    requires { IsWithin (10 ^ 6) units }
{
    Key {
        bound: Money::new(units).unwrap(),
        point,
        node,
    }
}

#[test]
fn takes_by_bound_then_points_then_in_the_order_made(rt: HostRuntime) -> Result<(), NoMemory> {
    let mut front = Front::make(rt.alloc(), 5)?;
    assert!(rt; front.least().is_none());
    assert!(rt; front.take_least().is_none());
    let keys = [
        key(7, false, 3),
        key(7, true, 4),
        key(-2, false, 5),
        key(7, false, 1),
        key(7, true, 6),
    ];
    for key in keys {
        assert!(rt; !front.is_full());
        front.put(key);
    }
    assert!(rt; front.is_full());
    assert!(rt; front.least() == Some(key(-2, false, 5)));
    for node in [5, 4, 6, 1, 3] {
        assert!(rt; front.take_least().map(|first| first.node) == Some(node));
    }
    assert!(rt; front.take_least().is_none());
    Ok(())
}
