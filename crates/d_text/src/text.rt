//! Numbers as they are printed.

ghost use Rattle.std.specs.Prelude.{◌≡◌, ◌+◌, ◌^◌, ◌<◌, ◌≤◌, ◌++◌, length, take, drop, slice_range};
ghost use Rattle.d_text.specs.Text as spec;
ghost use Rattle.d_text.specs.Text.{WritesFront};

use d_num::{Money, Rate};
use itoa::Buffer;

// How many units of money make one USD, and how many of a price.
const MONEY_UNITS: u128 = 1_000_000_000_000_000_000_000;

const RATE_UNITS: u128 = 1_000_000_000_000_000_000;

/// Writes the money in USD, exactly: a minus where it is below 0, the whole USD, a point and at least two decimals. Answers the
/// text's length; the room behind it stays as it was.
pub fn money_text(value: Money, room: &mut [u8; 64]) -> usize
    ensures { WritesFront (spec.money_text value) room.old result room.new }
{
    put_amount(value.units(), MONEY_UNITS, 21, room)
}

/// Writes the price in USD per kWh or per kW, in the form of money. Answers the text's length; the room behind it stays as it was.
pub fn rate_text(value: Rate, room: &mut [u8; 64]) -> usize
    ensures { WritesFront (spec.rate_text value) room.old result room.new }
{
    put_amount(value.units(), RATE_UNITS, 18, room)
}

/// Writes the whole number: 0, or a minus where it is below 0 and its digits with no zero in front. Answers the text's length; the
/// room behind it stays as it was.
pub fn whole_text(value: i128, room: &mut [u8; 64]) -> usize
    ensures { WritesFront (spec.whole_text value) room.old result room.new }
{
    let mut buffer = Buffer::new();
    put(room, 0, buffer.format(value).as_bytes())
}

/// Writes so many units of 10^-places, of which `whole` make 1.
fn put_amount(units: i128, whole: u128, places: usize, room: &mut [u8; 64]) -> usize
    requires some { 0 < places }
    requires few { places ≤ 21 }
    requires whole { whole ≡ 10 ^ places }
    ensures { WritesFront (spec.amount_text places units) room.old result room.new }
{
    if units < 0 {
        let from = put(room, 0, b"-");
        put_size(units.unsigned_abs(), whole, places, from, room)
    } else {
        put_size(units.unsigned_abs(), whole, places, 0, room)
    }
}

/// Writes a size behind what stands at the front.
fn put_size(units: u128, whole: u128, places: usize, from: usize, room: &mut [u8; 64]) -> usize
    requires some { 0 < places }
    requires few { places ≤ 21 }
    requires whole { whole ≡ 10 ^ places }
    requires from { from ≤ 1 }
    ensures behind { result ≡ from + length (spec.size_text places units) }
    ensures room { room.new ≡ take from room.old ++ (spec.size_text places units ++ drop (from + length (spec.size_text places units)) room.old) }
{
    let mut buffer = Buffer::new();
    let point = put(room, from, buffer.format(units / whole).as_bytes());
    let decimals = put(room, point, b".");
    let digits = padded(units % whole, places);
    put(room, decimals, shortened(&digits[..places]))
}

/// The number in decimal behind zeros up to a width; what stands behind that tells nothing.
fn padded(number: u128, width: usize) -> [u8; 64]
    requires some { 0 < width }
    requires few { width ≤ 21 }
    requires fits { number < 10 ^ width }
    ensures { take width result ≡ spec.zero_padded width number }
{
    let mut digits = [b'0'; 64];
    let mut buffer = Buffer::new();
    let text = buffer.format(number).as_bytes();
    put(&mut digits, width - text.len(), text);
    digits
}

/// Decimals without the zeros at their end, but two at least.
fn shortened(decimals: &[u8]) -> &[u8]
    ensures value { result.now ≡ spec.shortened decimals.now }
    ensures short { length result.now ≤ length decimals.now }
{
    let kept = kept_decimals(decimals);
    &decimals[..kept]
}

/// How many decimals are left without the zeros at their end, but two at least.
fn kept_decimals(decimals: &[u8]) -> usize
    ensures within { result ≤ length decimals.now }
    ensures kept { slice_range decimals.now 0 result ≡ spec.shortened decimals.now }
{
    let mut end = decimals.len();
    while end > 2 && decimals[end - 1] == b'0' {
        end -= 1;
    }
    end
}

/// Writes a part at a place of the room and answers the place behind it.
fn put(room: &mut [u8; 64], from: usize, part: &[u8]) -> usize
    requires { from + length part.now ≤ 64 }
    ensures behind { result ≡ from + length part.now }
    ensures room { room.new ≡ take from room.old ++ (part.now ++ drop (from + length part.now) room.old) }
{
    let end = from + part.len();
    room[from..end].copy_from_slice(part);
    end
}
