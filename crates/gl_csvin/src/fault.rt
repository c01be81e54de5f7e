//! Why an import is refused.
use thiserror::Error;

/// Why the contents of a payload are refused.
#[derive(Clone, Copy, Debug, PartialEq, Eq, Error)]
pub enum CsvFault {
    #[error("a field is not UTF-8")]
    Utf8,
    #[error("a field is too long")]
    Field,
    #[error("a field is off the grid")]
    Grid,
    #[error("no memory")]
    NoMemory,
}
