//! The texts of values, contents, tables and oracles.
#![tactic(auto)]

mod oracle;
mod tables;
mod values;

pub use oracle::oracle_text;
pub use tables::table;
pub use values::{content_text, shown_text};
