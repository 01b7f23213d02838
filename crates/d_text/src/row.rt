//! Lists of numbers, which are the rows of grids.

ghost use Rattle.std.specs.Prelude.{◌≡◌, ℕ, ◌+◌, ◌<◌, ◌≤◌, true, false, Some, None, [], ◌∷◌, ◌++◌, take};
ghost use Rattle.d_text.specs.Brackets as spec;
ghost use Rattle.d_text.specs.Brackets.{IsRowScan};
ghost use Rattle.d_text.specs.declared.brackets.Stage.TheVariants.{Part};

use crate::brackets::{Role, Stage, role_of};

/// How far a list of 24 numbers is read: its complete numbers stand at the front of `numbers`, and `number` is the next so far.
#[derive(Clone, Copy)]
pub struct RowScan {
    /// What was read last.
    pub stage: Stage,
    /// How many numbers are complete, from 0 to 24.
    pub count: usize,
    /// The next number so far, from 0 to 35.
    pub number: u8,
    /// The complete numbers, at the front.
    pub numbers: [u8; 24],
}

impl RowScan {
    /// Nothing is read.
    pub fn start() -> RowScan
        ensures room { IsRowScan result }
        ensures unread { spec.row_level result ≡ spec.row_reader.start }
    {
        RowScan {
            stage: Stage::Start,
            count: 0,
            number: 0,
            numbers: [0; 24],
        }
    }

    /// One more byte: false where no row goes on so.
    pub fn step(&mut self, byte: u8) -> bool
        requires room { IsRowScan self.old }
        ensures room { result ≡ true → IsRowScan self.new }
        ensures goes { (place : ℕ) → result ≡ true → spec.row_reader.next place (spec.row_level self.old) byte ≡ Some (spec.row_level self.new) }
        ensures stops { (place : ℕ) → result ≡ false → spec.row_reader.next place (spec.row_level self.old) byte ≡ None }
    {
        let role = role_of(byte);
        match self.stage {
            Stage::Start => self.stage.open(role),
            Stage::Open => role.is_blank() || self.digit(0, byte),
            Stage::Part => self.digit(self.number, byte) || self.end(role),
            Stage::After => self.stage.pass(self.count, 24, role),
            Stage::Closed => false,
        }
    }

    /// One more digit of the next number, behind those that make `number`: false where there is no such number.
    fn digit(&mut self, number: u8, byte: u8) -> bool
        requires small { number ≤ 35 }
        ensures goes { result ≡ true → spec.with_digit number byte ≡ Some self.new.number }
        ensures read { result ≡ true → self.new ≡ record (self.old) { stage = Part; number = self.new.number } }
        ensures small { result ≡ true → self.new.number ≤ 35 }
        ensures stops { result ≡ false → spec.with_digit number byte ≡ None }
        ensures same { result ≡ false → self.new ≡ self.old }
    {
        match with_digit(number, byte) {
            Some(next) => {
                self.stage = Stage::Part;
                self.number = next;
                true
            }
            None => false,
        }
    }

    /// The next number is complete, and the byte stands behind it: false where no row goes on so.
    fn end(&mut self, role: Role) -> bool
        requires room { self.old.count < 24 }
        requires small { self.old.number ≤ 35 }
        ensures room { result ≡ true → IsRowScan self.new }
        ensures goes { let numbers = take self.old.count self.old.numbers ++ self.old.number ∷ [] in
            result ≡ true → spec.next_behind 24 numbers (Some self.old.number) role ≡ Some (spec.row_level self.new) }
        ensures stops { result ≡ false → spec.after_part 24 (self.old.count + 1) role ≡ None }
    {
        self.numbers[self.count] = self.number;
        self.count += 1;
        self.stage.pass(self.count, 24, role)
    }
}

/// The number with one more digit at its end, or None where the byte is no digit or the number passes 35.
fn with_digit(number: u8, byte: u8) -> Option<u8>
    requires { number ≤ 35 }
    ensures value { result ≡ spec.with_digit number byte }
{
    if !byte.is_ascii_digit() {
        return None;
    }
    let next = number as u16 * 10 + (byte - b'0') as u16;
    if next <= 35 { Some(next as u8) } else { None }
}
