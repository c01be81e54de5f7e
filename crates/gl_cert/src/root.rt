//! The key that decides what an address shows.
ghost use Rattle.std.specs.Prelude.{◌≡◌, option_map};
ghost use Rattle.gl_calculus.specs.Formulas.Formula.{content};
ghost use Rattle.gl_calculus.specs.Evaluation.Oracle.{cover};
ghost use Rattle.gl_calculus.specs.Explanation.Certificate.{formula_key, covering_key, key_at};
ghost use Rattle.gl_cells.specs.Sheet.{sheet};
ghost use Rattle.gl_demand.specs.View.{key_tree};

use gl_cells::{Cells, Content};
use gl_demand::Key;
use gl_plane::{Addr, Oracle};
use gl_value::Env;

/// The key of the formula at an address.
#[tactic(auto, using(gl_value::specs::Forms::trees))]
fn formula_key(cells: &Cells, a: Addr) -> Option<Key>
    ensures { option_map key_tree result ≡ formula_key a (content (sheet cells.now) a) }
{
    match cells.content(a) {
        Some(Content::Form(_)) => Some(Key::Cell(Env::Top, a)),
        Some(Content::Const(_)) => None,
        None => None,
    }
}

/// The key of the formula whose array covers an address.
fn covering_key(cells: &Cells, w: &Oracle, a: Addr) -> Option<Key>
    ensures { option_map key_tree result ≡ covering_key (sheet cells.now) (cover w.now a) }
{
    match w.cover(a) {
        Some(cover) => formula_key(cells, cover.0),
        None => None,
    }
}

/// The key that decides what an address shows: of its own formula, or, where it has no content, of
/// the formula whose array covers it.
pub fn key_at(cells: &Cells, w: &Oracle, a: Addr) -> Option<Key>
    ensures { option_map key_tree result ≡ key_at (sheet cells.now) w.now a }
{
    match cells.content(a) {
        Some(_) => formula_key(cells, a),
        None => covering_key(cells, w, a),
    }
}
