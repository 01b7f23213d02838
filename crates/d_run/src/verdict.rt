//! How a run ends.

ghost use Rattle.std.specs.Prelude.{◌≡◌};
ghost use Rattle.d_run.specs.Runs.{status_number};

/// What the program found: the ways in which a run that met no fault of the desk and no want of memory can end.
#[derive(Clone, Copy, Debug)]
pub enum Verdict {
    /// A least plan is printed.
    Done,
    /// The words are refused.
    Words,
    /// The record file is refused.
    Record,
    /// The readings file is refused.
    Readings,
    /// The battery file is refused.
    Battery,
    /// No schedule is feasible.
    NoSchedule,
    /// A plan is printed whose bill may not be the least.
    Gap,
}

/// The program's exit status, numbered from 0.
#[derive(Clone, Copy, Debug, PartialEq, Eq)]
pub enum Status {
    /// The job was done.
    Done,
    /// The words are refused.
    Words,
    /// The record file is refused.
    Record,
    /// The readings file is refused.
    Readings,
    /// The battery file is refused.
    Battery,
    /// No schedule is feasible.
    NoSchedule,
    /// The plan has a gap to its lower bound.
    Gap,
    /// A certificate is refused.
    Refused,
    /// A file couldn't be read or written, or the text not be printed.
    Desk,
    /// Memory was wanted and there was none.
    Memory,
}

impl Status {
    /// The number with which the program ends.
    pub fn number(self) -> u8
        ensures { result ≡ status_number self }
    {
        match self {
            Status::Done => 0,
            Status::Words => 1,
            Status::Record => 2,
            Status::Readings => 3,
            Status::Battery => 4,
            Status::NoSchedule => 5,
            Status::Gap => 6,
            Status::Refused => 7,
            Status::Desk => 8,
            Status::Memory => 9,
        }
    }
}
