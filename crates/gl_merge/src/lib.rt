//! Replicas: edits are taken in any order, and of each address the latest one is kept.
#![tactic(auto)]

mod edit;
mod fault;
mod index;
mod judging;
mod keeping;
mod replica;
mod stamp;

pub use edit::Edit;
pub use fault::RoomFault;
pub use judging::Judged;
pub use replica::Replica;
pub use stamp::Stamp;

/// The greatest time of a stamp.
pub const MAX_TIME: u64 = 1_000_000_000_000;

/// The most registers that a replica has.
pub const MAX_REGISTERS: usize = 131_072;
