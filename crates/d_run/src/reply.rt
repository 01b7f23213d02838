//! What the program replies.

use crate::verdict::Verdict;

/// A verdict and the text that is printed with it.
#[derive(Debug, Drop)]
pub struct Reply {
    /// How the run ends where the text could be printed.
    pub verdict: Verdict,
    /// All that is printed, each line with its line feed.
    pub text: Vec<u8>,
}
