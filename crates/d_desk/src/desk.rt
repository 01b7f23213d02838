ghost use Rattle.std.specs.Prelude.{◌≡◌, ℕ, ◌+◌, ◌-◌, ◌^◌, ◌<◌, ◌≤◌, Bool, false, min, length, is_ok, IsTrue, IfOk, OnErr};
ghost use Rattle.d_desk.specs.Cause.{HasCause};
ghost use Rattle.d_desk.specs.Scene.{Scene};
ghost use Rattle.d_desk.specs.Calls.{OpensIn, Reads, OpensOut, Saves, ClosesOut, Prints};

use crate::fault::DeskFault;

/// What a program reads, writes and prints through.
///
/// A desk has at most one input and one output open. A desk that `tells` has a scene, which says
/// what its files hold and what was read, saved, printed and opened; of one that doesn't, as of
/// real files, only the clauses that stand without `tells` are known. Every desk tells whether an
/// input and an output are open, how many bytes were read since the last `open_in`, and its count
/// of faults, which never falls.
///
/// Each call may answer `Memory`, of which no clause says when it comes.
pub trait Desk {
    ghost tells: { Type 0 };

    ghost scene: { Self → Scene };

    ghost input_open: { Self → Bool };

    ghost output_open: { Self → Bool };

    ghost taken: { Self → ℕ };

    ghost faults: { Self → ℕ };

    /// Opens a file for reading, from its first byte; a file that the desk doesn't have reads as an
    /// empty one where this answers Ok. An input that was open before is ended, whatever this
    /// answers.
    fn open_in(&mut self, name: &str) -> Result<(), DeskFault>
        ensures told { tells → OpensIn name.now (scene self.old) (scene self.new) result }
        ensures input { input_open self.new ≡ is_ok result }
        ensures output { output_open self.new ≡ output_open self.old }
        ensures taken { taken self.new ≡ 0 }
        ensures cause { HasCause (faults self.old) (faults self.new) result };

    /// Reads the next bytes into the front of the room, and answers how many. It answers 0 for a
    /// room that isn't empty only at the file's end. After an error it isn't said what is left to
    /// read.
    fn read(&mut self, room: &mut [u8]) -> Result<usize, DeskFault>
        requires { IsTrue (input_open self.old) }
        ensures count { IfOk result (λ n. n ≤ length room.new) }
        ensures told { tells → Reads room.new (scene self.old) (scene self.new) result }
        ensures input { input_open self.new ≡ input_open self.old }
        ensures output { output_open self.new ≡ output_open self.old }
        ensures taken { IfOk result (λ n. taken self.new ≡ min (taken self.old + n) (2 ^ 64 - 1)) }
        ensures taken_err { OnErr result (taken self.new ≡ taken self.old) }
        ensures cause { HasCause (faults self.old) (faults self.new) result };

    /// Begins an output of that name. An output that was open before is ended and isn't kept,
    /// whatever this answers.
    fn open_out(&mut self, name: &str) -> Result<(), DeskFault>
        ensures told { tells → OpensOut name.now (scene self.old) (scene self.new) result }
        ensures input { input_open self.new ≡ input_open self.old }
        ensures output { output_open self.new ≡ is_ok result }
        ensures taken { taken self.new ≡ taken self.old }
        ensures cause { HasCause (faults self.old) (faults self.new) result };

    /// Appends a front of the part to the open output, and answers its length: at least one byte of
    /// a part that isn't empty.
    fn save(&mut self, part: &[u8]) -> Result<usize, DeskFault>
        requires { IsTrue (output_open self.old) }
        ensures count { IfOk result (λ n. n ≤ length part.now) }
        ensures progress { IfOk result (λ n. 0 < length part.now → 0 < n) }
        ensures told { tells → Saves part.now (scene self.old) (scene self.new) result }
        ensures input { input_open self.new ≡ input_open self.old }
        ensures output { output_open self.new ≡ output_open self.old }
        ensures taken { taken self.new ≡ taken self.old }
        ensures cause { HasCause (faults self.old) (faults self.new) result };

    /// Ends the output and keeps it: the file of its name, which is that of the last `open_out`,
    /// now has the bytes saved. After an error no output is open and the files are as before.
    fn close_out(&mut self) -> Result<(), DeskFault>
        requires { IsTrue (output_open self.old) }
        ensures told { tells → ClosesOut (scene self.old) (scene self.new) result }
        ensures input { input_open self.new ≡ input_open self.old }
        ensures output { output_open self.new ≡ false }
        ensures taken { taken self.new ≡ taken self.old }
        ensures cause { HasCause (faults self.old) (faults self.new) result };

    /// Prints a front of the part, and answers its length: at least one byte of a part that isn't
    /// empty.
    fn print(&mut self, part: &[u8]) -> Result<usize, DeskFault>
        ensures count { IfOk result (λ n. n ≤ length part.now) }
        ensures progress { IfOk result (λ n. 0 < length part.now → 0 < n) }
        ensures told { tells → Prints part.now (scene self.old) (scene self.new) result }
        ensures input { input_open self.new ≡ input_open self.old }
        ensures output { output_open self.new ≡ output_open self.old }
        ensures taken { taken self.new ≡ taken self.old }
        ensures cause { HasCause (faults self.old) (faults self.new) result };
}
