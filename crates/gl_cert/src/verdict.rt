//! What is said of a certificate.

/// What is said of a certificate: that it is accepted, or the number, from 0, of its first note that
/// doesn't follow from those before it, or of its first loop that doesn't wait for one of them, or
/// that what it says is shown is wrong.
#[derive(Clone, Copy, PartialEq, Eq, Debug)]
pub enum Verdict {
    Accepted,
    Note { at: u32 },
    Loop { at: u32 },
    Wrong,
}
