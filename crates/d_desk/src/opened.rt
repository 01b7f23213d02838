/// Which way a file is opened.
#[derive(Clone, Copy, PartialEq, Eq)]
pub enum Direction {
    /// For reading.
    In,
    /// For writing.
    Out,
}

/// One opening of a file, which a desk in memory lists.
#[derive(Drop)]
pub struct Opened {
    /// For reading or for writing.
    pub way: Direction,
    /// The file's name, as it was asked for.
    pub name: String,
}
