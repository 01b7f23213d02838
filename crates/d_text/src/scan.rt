//! How a decimal is read, byte by byte.

ghost use Rattle.std.specs.Prelude.{◌≡◌, ◌+◌, ◌*◌, ◌^◌, ◌<◌, ◌≤◌, ◌∷◌, ◌++◌, [], List, ℕ, Bool, option_map, min, IfSome, ◌-◌, ◌⊎◌, if◌then◌else◌};
ghost use Rattle.d_text.specs.Scan as spec;
ghost use Rattle.d_text.specs.declared.scan.Phase.TheVariants.{Start};
ghost use Rattle.d_text.specs.Scan.{Holds, Keeps, IsShort};

/// How far a decimal is read: nothing yet, a sign, digits, a point with no digit, digits and a point, an e, its sign, its digits.
#[derive(Clone, Copy)]
pub enum Phase {
    Start,
    Signed,
    Whole,
    LonePoint,
    Fraction,
    Marked,
    MarkSigned,
    Power,
}

/// What a byte is in a decimal.
#[derive(Clone, Copy)]
pub enum Kind {
    Digit,
    Sign,
    Point,
    Mark,
    Other,
}

/// A number by its first 38 digits, how many follow them, and whether one of those isn't 0.
#[derive(Clone, Copy)]
pub struct Number {
    /// The number that its first digits make, below 10^38.
    pub top: u128,
    /// How many digits follow them.
    pub dropped: u128,
    /// Whether one of those isn't 0.
    pub lost: bool,
}

/// What is read of a decimal: the number that its digits make, how many stand behind the point, and its power of ten, up to 10^30.
#[derive(Clone, Copy)]
pub struct Scan {
    /// What was read last.
    pub phase: Phase,
    /// Whether a minus stands in front.
    pub minus: bool,
    /// The number that its digits make.
    pub number: Number,
    /// How many digits stand behind the point.
    pub behind: u128,
    /// Whether the power has a minus.
    pub down: bool,
    /// The size of the power, up to 10^30.
    pub power: u128,
}

// The least number of 38 digits, and the greatest power that is kept.
const FULL: u128 = 10_000_000_000_000_000_000_000_000_000_000_000_000;

const GREATEST_POWER: u128 = 1_000_000_000_000_000_000_000_000_000_000;

/// What the byte is.
pub fn kind_of(byte: u8) -> Kind
    ensures { result ≡ spec.kind_of byte }
{
    match byte {
        b'0'..=b'9' => Kind::Digit,
        b'+' | b'-' => Kind::Sign,
        b'.' => Kind::Point,
        b'e' | b'E' => Kind::Mark,
        _ => Kind::Other,
    }
}

impl Number {
    /// The number with one more digit at its end.
    fn push(self, digit: u8) -> Number
        requires digit { digit < 10 }
        requires room { self.dropped < 2 ^ 64 }
        requires short { self.top < 10 ^ 38 }
        ensures value { (number : ℕ) → Keeps number self.top self.dropped self.lost → Keeps (number * 10 + digit) result.top result.dropped result.lost }
        ensures room { result.dropped ≤ self.dropped + 1 }
        ensures short { result.top < 10 ^ 38 }
    {
        if self.top < FULL {
            Number {
                top: self.top * 10 + digit as u128,
                dropped: self.dropped,
                lost: self.lost,
            }
        } else {
            Number {
                top: self.top,
                dropped: self.dropped + 1,
                lost: self.lost || digit != 0,
            }
        }
    }
}

impl Phase {
    /// Whether a decimal may end here.
    pub fn is_done(self) -> bool
        ensures { result ≡ spec.is_done self }
    {
        matches!(self, Phase::Whole | Phase::Fraction | Phase::Power)
    }
}

impl Scan {
    /// Nothing is read.
    pub fn start() -> Scan
        ensures phase { result.phase ≡ Start }
        ensures read { Holds [] result }
        ensures room { IsShort 0 result }
    {
        Scan {
            phase: Phase::Start,
            minus: false,
            number: Number {
                top: 0,
                dropped: 0,
                lost: false,
            },
            behind: 0,
            down: false,
            power: 0,
        }
    }

    /// One more byte, or None where no decimal goes on so.
    pub fn step(self, byte: u8) -> Option<Scan>
        requires room { IsShort (2 ^ 64 - 1) self }
        ensures phase { option_map (λ s. s.phase) result ≡ spec.after_kind (spec.kind_of byte) self.phase }
        ensures read { IfSome result (λ s. (text : List ℕ) → Holds text self → Holds (text ++ byte ∷ []) s) }
        ensures room { IfSome result (λ s. (most : ℕ) → IsShort most self → IsShort (most + 1) s) }
    {
        match kind_of(byte) {
            Kind::Digit => Some(self.digit(byte - b'0')),
            Kind::Sign => self.sign(byte == b'-'),
            Kind::Point => self.point(),
            Kind::Mark => self.mark(),
            Kind::Other => None,
        }
    }

    fn digit(self, digit: u8) -> Scan
        requires digit { digit < 10 }
        requires room { IsShort (2 ^ 64 - 1) self }
        ensures phase { result.phase ≡ spec.after_digit self.phase }
        ensures read { (text : List ℕ) → Holds text self → Holds (text ++ (48 + digit) ∷ []) result }
        ensures room { (most : ℕ) → IsShort most self → IsShort (most + 1) result }
    {
        match self.phase {
            Phase::Start | Phase::Signed | Phase::Whole => {
                Scan {
                    phase: Phase::Whole,
                    number: self.number.push(digit),
                    ..self
                }
            }
            Phase::LonePoint | Phase::Fraction => {
                Scan {
                    phase: Phase::Fraction,
                    number: self.number.push(digit),
                    behind: self.behind + 1,
                    ..self
                }
            }
            Phase::Marked | Phase::MarkSigned | Phase::Power => {
                Scan {
                    phase: Phase::Power,
                    power: power_with(self.power, digit),
                    ..self
                }
            }
        }
    }

    fn sign(self, minus: bool) -> Option<Scan>
        ensures phase { option_map (λ s. s.phase) result ≡ spec.after_sign self.phase }
        ensures read { IfSome result (λ s. (text : List ℕ) → Holds text self → Holds (text ++ (if minus then 45 else 43) ∷ []) s) }
        ensures room { IfSome result (λ s. (most : ℕ) → IsShort most self → IsShort (most + 1) s) }
    {
        match self.phase {
            Phase::Start => Some(Scan {
                phase: Phase::Signed,
                minus,
                ..self
            }),
            Phase::Marked => Some(Scan {
                phase: Phase::MarkSigned,
                down: minus,
                ..self
            }),
            _ => None,
        }
    }

    fn point(self) -> Option<Scan>
        ensures phase { option_map (λ s. s.phase) result ≡ spec.after_point self.phase }
        ensures read { IfSome result (λ s. (text : List ℕ) → Holds text self → Holds (text ++ 46 ∷ []) s) }
        ensures room { IfSome result (λ s. (most : ℕ) → IsShort most self → IsShort (most + 1) s) }
    {
        match self.phase {
            Phase::Start | Phase::Signed => Some(Scan {
                phase: Phase::LonePoint,
                ..self
            }),
            Phase::Whole => Some(Scan {
                phase: Phase::Fraction,
                ..self
            }),
            _ => None,
        }
    }

    fn mark(self) -> Option<Scan>
        ensures phase { option_map (λ s. s.phase) result ≡ spec.after_mark self.phase }
        ensures read { IfSome result (λ s. (text : List ℕ) (mark : ℕ) → (mark ≡ 101) ⊎ (mark ≡ 69) → Holds text self → Holds (text ++ mark ∷ []) s) }
        ensures room { IfSome result (λ s. (most : ℕ) → IsShort most self → IsShort (most + 1) s) }
    {
        match self.phase {
            Phase::Whole | Phase::Fraction => Some(Scan {
                phase: Phase::Marked,
                ..self
            }),
            _ => None,
        }
    }
}

/// The power with one more digit, up to 10^30.
fn power_with(power: u128, digit: u8) -> u128
    requires power { power ≤ 10 ^ 30 }
    requires digit { digit < 10 }
    ensures { result ≡ min (power * 10 + digit) (10 ^ 30) }
{
    GREATEST_POWER.min(power * 10 + digit as u128)
}
