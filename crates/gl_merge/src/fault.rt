//! Why no room is made.
use thiserror::Error;

/// Why there is no room for more registers.
#[derive(Clone, Copy, Debug, PartialEq, Eq, Error)]
pub enum RoomFault {
    #[error("too many registers")]
    Edits,
    #[error("no memory")]
    NoMemory,
}
