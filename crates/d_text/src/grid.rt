//! Grids as they are read.

ghost use Rattle.std.specs.Prelude.{◌≡◌, ℕ, ◌+◌, ◌<◌, ◌≤◌, All, true, false, Some, None, OnOk, OnErr, IfErr, [], ◌∷◌, ◌++◌, take};
ghost use Rattle.d_text.specs.Brackets as spec;
ghost use Rattle.d_text.specs.Brackets.{IsRowScan, IsGridScan};
ghost use Rattle.d_text.specs.declared.brackets.Stage.TheVariants.{Part};
ghost use Rattle.d_text.specs.Grid.{IsGridOf, IsGridFault};

use crate::brackets::{Role, Stage, role_of};
use crate::row::RowScan;

/// A cell is refused: so many of its bytes are still the beginning of a text of the form, and no more.
#[derive(Clone, Copy)]
pub struct GridFault {
    /// How many of the cell's bytes are the beginning of some grid or list.
    pub place: usize,
}

/// How far a grid is read: its complete rows stand at the front of `rows`, and `row` is the next so far.
#[derive(Clone, Copy)]
pub struct GridScan {
    /// What was read last.
    pub stage: Stage,
    /// How many rows are complete, from 0 to 12.
    pub count: usize,
    /// How far the next row is read.
    pub row: RowScan,
    /// The complete rows, at the front.
    pub rows: [[u8; 24]; 12],
}

impl GridScan {
    /// Nothing is read.
    fn start() -> GridScan
        ensures room { IsGridScan result }
        ensures unread { spec.grid_level result ≡ spec.grid_reader.start }
    {
        GridScan {
            stage: Stage::Start,
            count: 0,
            row: RowScan::start(),
            rows: [[0; 24]; 12],
        }
    }

    /// One more byte: false where no grid goes on so.
    fn step(&mut self, byte: u8) -> bool
        requires room { IsGridScan self.old }
        ensures room { result ≡ true → IsGridScan self.new }
        ensures goes { (place : ℕ) → result ≡ true → spec.grid_reader.next place (spec.grid_level self.old) byte ≡ Some (spec.grid_level self.new) }
        ensures stops { (place : ℕ) → result ≡ false → spec.grid_reader.next place (spec.grid_level self.old) byte ≡ None }
    {
        let role = role_of(byte);
        match self.stage {
            Stage::Start => self.stage.open(role),
            Stage::Open => role.is_blank() || self.enter(byte),
            Stage::Part => {
                if self.row.stage.is_closed() {
                    self.end(role)
                } else {
                    self.row.step(byte)
                }
            }
            Stage::After => self.stage.pass(self.count, 12, role),
            Stage::Closed => false,
        }
    }

    /// The first byte of the next row: false where it is no bracket.
    fn enter(&mut self, byte: u8) -> bool
        requires room { self.old.count < 12 }
        ensures room { result ≡ true → IsGridScan self.new }
        ensures goes { (place : ℕ) → result ≡ true → spec.row_reader.next place spec.row_reader.start byte ≡ Some (spec.row_level self.new.row) }
        ensures read { result ≡ true → self.new ≡ record (self.old) { stage = Part; row = self.new.row } }
        ensures stops { (place : ℕ) → result ≡ false → spec.row_reader.next place spec.row_reader.start byte ≡ None }
    {
        self.stage = Stage::Part;
        self.row = RowScan::start();
        self.row.step(byte)
    }

    /// The next row is complete, and the byte stands behind it: false where no grid goes on so.
    fn end(&mut self, role: Role) -> bool
        requires room { self.old.count < 12 }
        requires row { IsRowScan self.old.row }
        ensures room { result ≡ true → IsGridScan self.new }
        ensures goes { let rows = take self.old.count self.old.rows ++ self.old.row.numbers ∷ [] in
            result ≡ true → spec.next_behind 12 rows (spec.row_level self.old.row) role ≡ Some (spec.grid_level self.new) }
        ensures stops { result ≡ false → spec.after_part 12 (self.old.count + 1) role ≡ None }
    {
        self.rows[self.count] = self.row.numbers;
        self.count += 1;
        self.stage.pass(self.count, 12, role)
    }
}

/// The grid in the cell: twelve lists of 24 whole numbers from 0 to 35. Lists stand in brackets and are separated by commas, as the
/// Utility Rate Database's bulk file writes schedules. Spaces, tabs and line ends may stand between the parts, but not before the first
/// bracket nor behind the last; numbers may have leading zeros. Any other cell is refused at the place up to which it is the beginning
/// of some grid, and the grid stays as it was.
pub fn read_grid(cell: &[u8], grid: &mut [[u8; 24]; 12]) -> Result<(), GridFault>
    ensures value { OnOk result (IsGridOf cell.now grid.new) }
    ensures hours { OnOk result (All (All (λ number. number ≤ 35)) grid.new) }
    ensures fault { IfErr result (λ fault. IsGridFault cell.now fault.place) }
    ensures same { OnErr result (grid.new ≡ grid.old) }
{
    let mut scan = GridScan::start();
    for place in 0..cell.len() {
        if !scan.step(cell[place]) {
            return Err(GridFault { place });
        }
    }
    if scan.stage.is_closed() {
        *grid = scan.rows;
        Ok(())
    } else {
        Err(GridFault { place: cell.len() })
    }
}
