//! Functions on arrays: extents, elements, sequences, parts, stacks and distinct rows.
#![tactic(auto, using(gl_value::specs::Forms::trees))]

mod arguments;
mod columns;
mod distinct;
mod elements;
mod extents;
mod filters;
mod parts;
mod rows;
mod sequences;
mod stacks;

pub use distinct::unique;
pub use elements::{index, lookup};
pub use extents::{extent_columns, extent_rows};
pub use filters::filter;
pub use parts::{drop_part, take};
pub use sequences::{sequence, transpose};
pub use stacks::{hstack, vstack};
