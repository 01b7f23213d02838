//! Why bytes are no certificate.

/// Why bytes are no certificate. Lines are counted from 1.
#[derive(Clone, Copy, PartialEq, Eq, Debug)]
pub enum CertFault {
    /// This line can't stand where it does.
    Form(u64),
    /// This line has the form that is wanted where it stands, and a number in it is out of range.
    Number(u64),
    /// The bytes end before the line feed of the last line.
    Early,
    /// There are bytes behind the last line.
    Trailing,
}
