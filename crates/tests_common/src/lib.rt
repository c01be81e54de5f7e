//! What the tests of several crates share: addresses, values and sheets that are written as texts, and their texts.
#![tactic(auto)]

mod addresses;
mod columns;
mod frames;
mod scalars;
mod sheets;
mod tables;
mod texts;

pub use addresses::{address, range, size};
pub use columns::{Column, Form, first_column, put_column, sheet_with};
pub use frames::{
    frame, holding, in_copy, made, one_entry, plain_sheet, share_sheet, sheet_in, update_in,
    with_number,
};
pub use scalars::{copy, number, scalar, text};
pub use sheets::{content_of, put_line, sheet_of};
pub use tables::each_is_read;
pub use texts::{formula_word, push_times, scalar_text, value_text};
