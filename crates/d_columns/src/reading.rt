//! Reading the names of the columns of tiers.

ghost use Rattle.std.specs.Prelude.{◌≡◌, ◌↔◌, ◌≤◌, ◌<◌, ◌++◌, ℕ, List, true, IsTrue, IfSome, Some, All, slice_index, length, decimal};
ghost use Rattle.std.specs.List.{prefix_len};
ghost use Rattle.std.specs.Str.{str_to_ascii_lowercase};
ghost use Rattle.d_columns.specs.declared.names.Structure.{Structure};
ghost use Rattle.d_columns.specs.declared.names.Part.{Part};
ghost use Rattle.d_columns.specs.Names.{structure_text, part_text, is_digit, IsTierNumber, IsTierName};
ghost use Rattle.d_columns.specs.Reading.{IsNumberThen, IsTierEnd, IsPeriodEnd, small_rest, structure_shown, number_shown, tier_shown, period_shown, name_shown};

use crate::names::{PERIODS, Part, Structure};
use d_table::is_named;

/// What the name of a column says: the part of a tier, whose number is told by its digits.
#[derive(Clone, Copy)]
pub(crate) struct TierName<'a> {
    pub structure: Structure,
    pub period: u8,
    pub tier: &'a [u8],
    pub part: Part,
}

/// The structure that a name begins with, and what stands behind it.
#[derive(Clone, Copy)]
struct Structured<'a> {
    structure: Structure,
    rest: &'a [u8],
}

/// The number that a text begins with, and what stands behind it.
#[derive(Clone, Copy)]
struct Numbered<'a> {
    digits: &'a [u8],
    rest: &'a [u8],
}

/// The number of a tier and the part of it.
#[derive(Clone, Copy)]
struct TierEnd<'a> {
    tier: &'a [u8],
    part: Part,
}

/// The period and the number of a tier, and the part of it.
#[derive(Clone, Copy)]
struct PeriodEnd<'a> {
    period: u8,
    tier: &'a [u8],
    part: Part,
}

/// What a column's name says of a tier, ASCII case ignored, or None exactly where it isn't the name of a part of a tier.
pub(crate) fn read_tier_name(name: &[u8]) -> Option<TierName<'_>>
    ensures exact { (structure : Structure) (period : ℕ) (digits : List ℕ) (part : Part) →
        (name_shown result ≡ Some (structure, period, digits, part)) ↔ IsTierName (str_to_ascii_lowercase name.now) structure period digits part }
    ensures number { IfSome result (λ n. IsTierNumber n.tier.now) }
{
    let start = read_structure(name)?;
    let end = read_period(start.rest)?;
    Some(TierName {
        structure: start.structure,
        period: end.period,
        tier: end.tier,
        part: end.part,
    })
}

/// The structure at the front of a name.
fn read_structure(name: &[u8]) -> Option<Structured<'_>>
    ensures { (structure : Structure) (rest : List ℕ) →
        (structure_shown result ≡ Some (structure, rest)) ↔ (str_to_ascii_lowercase name.now ≡ structure_text structure ++ rest) }
{
    let structure = Structure::Energy;
    if let Some(rest) = behind(name, structure.text()) {
        return Some(Structured { structure, rest });
    }
    let structure = Structure::Demand;
    if let Some(rest) = behind(name, structure.text()) {
        return Some(Structured { structure, rest });
    }
    let structure = Structure::FlatDemand;
    if let Some(rest) = behind(name, structure.text()) {
        return Some(Structured { structure, rest });
    }
    let structure = Structure::Coincident;
    let rest = behind(name, structure.text())?;
    Some(Structured { structure, rest })
}

/// The period, tier and part behind the structure.
fn read_period(text: &[u8]) -> Option<PeriodEnd<'_>>
    ensures { (period : ℕ) (digits : List ℕ) (part : Part) →
        (period_shown result ≡ Some (period, digits, part)) ↔ IsPeriodEnd (str_to_ascii_lowercase text.now) period digits part }
{
    let number = read_number(behind(text, b"/period")?)?;
    let period = period_of(number.digits)?;
    let end = read_tier(number.rest)?;
    Some(PeriodEnd {
        period,
        tier: end.tier,
        part: end.part,
    })
}

/// The tier and part behind the period.
fn read_tier(text: &[u8]) -> Option<TierEnd<'_>>
    ensures { (digits : List ℕ) (part : Part) →
        (tier_shown result ≡ Some (digits, part)) ↔ IsTierEnd (str_to_ascii_lowercase text.now) digits part }
{
    let number = read_number(behind(text, b"/tier")?)?;
    let part = read_part(number.rest)?;
    Some(TierEnd {
        tier: number.digits,
        part,
    })
}

/// The part at the end of a name.
fn read_part(text: &[u8]) -> Option<Part>
    ensures { (part : Part) → (result ≡ Some part) ↔ (str_to_ascii_lowercase text.now ≡ part_text part) }
{
    if is_named(text, b"max") {
        Some(Part::Max)
    } else if is_named(text, b"unit") {
        Some(Part::Unit)
    } else if is_named(text, b"rate") {
        Some(Part::Rate)
    } else if is_named(text, b"adj") {
        Some(Part::Adj)
    } else if is_named(text, b"sell") {
        Some(Part::Sell)
    } else {
        None
    }
}

/// The number at the front of a text.
fn read_number(text: &[u8]) -> Option<Numbered<'_>>
    ensures { (digits rest : List ℕ) →
        (number_shown result ≡ Some (digits, rest)) ↔ IsNumberThen (str_to_ascii_lowercase text.now) digits rest }
{
    let end = number_end(text);
    let digits = &text[..end];
    if is_tier_number(digits) {
        let rest = &text[end..];
        Some(Numbered { digits, rest })
    } else {
        None
    }
}

/// Whether there is a digit, and none of several is a zero at the front.
fn is_tier_number(digits: &[u8]) -> bool
    requires { All (λ byte. is_digit byte ≡ true) digits.now }
    ensures { IsTrue result ↔ IsTierNumber digits.now }
{
    digits.len() == 1 || digits.len() > 1 && digits[0] != b'0'
}

/// How many digits a text begins with.
fn number_end(text: &[u8]) -> usize
    ensures value { result ≡ prefix_len is_digit text.now }
    ensures within { result ≤ length text.now }
{
    let mut end = 0;
    while end < text.len() && is_digit(text[end]) {
        end += 1;
    }
    end
}

/// Whether the byte is a digit.
fn is_digit(byte: u8) -> bool
    ensures { result ≡ is_digit byte }
{
    byte > 47 && byte < 58
}

/// The period of these digits, or None exactly where it is above 35.
fn period_of(digits: &[u8]) -> Option<u8>
    requires { IsTierNumber digits.now }
    ensures { (period : ℕ) → (result ≡ Some period) ↔ ((period ≤ 35) × (digits.now ≡ decimal period)) }
{
    if digits.len() == 1 {
        return Some(digits[0] - b'0');
    }
    if digits.len() == 2 {
        return period_within((digits[0] - b'0') * 10 + (digits[1] - b'0'));
    }
    None
}

/// The number as a period, or None exactly where it is above 35.
fn period_within(number: u8) -> Option<u8>
    ensures { (period : ℕ) → (result ≡ Some period) ↔ ((period ≤ 35) × (number ≡ period)) }
{
    if number < PERIODS { Some(number) } else { None }
}

/// What stands behind this front, ASCII case ignored, or None where the text doesn't begin with it. The front is in small letters.
fn behind<'a>(text: &'a [u8], front: &[u8]) -> Option<&'a [u8]>
    ensures { (rest : List ℕ) → (small_rest result ≡ Some rest) ↔ (str_to_ascii_lowercase text.now ≡ front.now ++ rest) }
{
    if text.len() < front.len() {
        return None;
    }
    if is_named(&text[..front.len()], front) {
        Some(&text[front.len()..])
    } else {
        None
    }
}
