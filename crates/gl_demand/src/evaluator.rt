//! What the keys of a round are evaluated by.
use gl_ast::Version;
use gl_cells::Cells;
use gl_plane::Oracle;
use std::alloc::Global;

/// The sheet, the oracle of the top and the version of the language, by which a key is evaluated, and
/// the allocator that this takes memory from.
#[derive(Drop)]
pub struct Evaluator<'a> {
    pub alloc: Global,
    pub cells: &'a Cells,
    pub oracle: &'a Oracle,
    pub version: Version,
}
