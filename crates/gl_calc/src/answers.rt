//! What is answered of a calculation.
use gl_grant::Obstacle;
use gl_plane::Addr;

/// How a calculation ended: it settled after so many rounds, or spent a budget.
#[derive(Clone, Copy, PartialEq, Eq)]
pub enum Answer {
    Settled { rounds: u32 },
    Spent(SpentKind),
}

/// A spent budget: that of the rounds, with the first address at which the last two oracles differ;
/// those of copies or of ranks, with the first formula that ended so; or that of the demanded keys.
#[derive(Clone, Copy, PartialEq, Eq)]
pub enum SpentKind {
    Rounds(Addr),
    CopyRounds(Addr),
    Depth(Addr),
    Work,
}

/// Why a root has its permit: it has no entry, or is permitted, or this is the first that stands in
/// its way.
#[derive(Clone, Copy, PartialEq, Eq)]
pub enum Why {
    NoEntry,
    Permitted,
    Blocked(Obstacle),
}
