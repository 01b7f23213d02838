//! The numbers of a line.

ghost use Rattle.std.specs.Prelude.{◌≡◌, ◌<◌, ◌^◌, ◌++◌, ◌∷◌, unsigned_abs, OnOk};
ghost use Rattle.d_certline.specs.Wholes.{whole};
ghost use Rattle.d_certline.specs.Lines.{spaced};

use d_num::Pot;
use d_rows::Packed;
use d_text::whole_text;
use std::alloc::AllocError;

/// Adds a space and a whole number.
pub fn put_number(line: &mut Vec<u8>, number: i128) -> Result<(), AllocError>
    requires { unsigned_abs number < 10 ^ 38 }
    ensures { OnOk result (line.new.items ≡ line.old.items ++ 32 ∷ whole number) }
{
    let mut room = [0; 64];
    let end = whole_text(number, &mut room);
    line.push(b' ')?;
    line.extend_from_slice(&room[..end])?;
    Ok(())
}

/// Adds a space and a potential, or an x where there is no way.
pub fn put_pot(line: &mut Vec<u8>, pot: Packed) -> Result<(), AllocError>
    ensures { OnOk result (line.new.items ≡ line.old.items ++ spaced pot) }
{
    match pot.get() {
        Pot::To(money) => put_number(line, money.units()),
        Pot::NoWay => {
            line.extend_from_slice(b" x".as_slice())?;
            Ok(())
        }
    }
}
