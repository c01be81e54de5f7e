//! The formulas of cells.
ghost use Rattle.std.specs.Prelude.{◌≡◌, Some, option_map};
ghost use Rattle.std.specs.Option.{option_copied};
ghost use Rattle.gl_calculus.specs.Formulas.Formula.{content};
ghost use Rattle.gl_ast.specs.View.{formula_tree};
ghost use Rattle.gl_cells.specs.{Content.content_tree, Sheet.sheet};
ghost use Rattle.gl_flow.specs.Contents.{formula_in};

use gl_ast::Formula;
use gl_cells::{Cells, Content};
use gl_plane::Addr;

/// The formula of a content, where it is one.
fn formula_of(content: &Content) -> Option<&Formula>
    ensures { option_map formula_tree (option_copied result)
        ≡ formula_in (Some (content_tree content.now)) }
{
    match content {
        Content::Const(_) => None,
        Content::Form(f) => Some(f),
    }
}

/// The formula at an address, where there is one.
pub fn formula_at(cells: &Cells, a: Addr) -> Option<&Formula>
    ensures { option_map formula_tree (option_copied result)
        ≡ formula_in (content (sheet cells.now) a) }
{
    match cells.content(a) {
        Some(c) => formula_of(c),
        None => None,
    }
}
