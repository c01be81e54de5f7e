//! Whether keys are proper.
ghost use Rattle.std.specs.Prelude.{◌≡◌, true, false, IsTrue, IsFalse, option_map};
ghost use Rattle.gl_calculus.specs.Evaluation.Sound.{is_sound_key, IsProperKey};
ghost use Rattle.gl_calculus.specs.Evaluation.Reference.{is_computed};
ghost use Rattle.gl_cells.specs.Sheet.{sheet};
ghost use Rattle.gl_demand.specs.{Held.held_tree, View.key_tree};

use crate::Key;
use crate::held::{Held, held_at};
use gl_cells::Cells;

/// Whether it is a formula.
fn is_computed(held: &Option<Held>) -> bool
    ensures { result ≡ is_computed (option_map held_tree held.now) }
{
    match held {
        Some(Held::Formula(_)) => true,
        Some(Held::Value(_)) => false,
        Some(Held::Scalar(_)) => false,
        None => false,
    }
}

/// Whether a key is proper in a sheet: a cell key names a formula of its frame's region. A settling
/// always is.
pub fn proper(cells: &Cells, key: &Key) -> bool
    requires { IsTrue (is_sound_key (key_tree key.now)) }
    ensures yes { IsTrue result → IsProperKey (sheet cells.now) (key_tree key.now) }
    ensures no { IsFalse result → IsProperKey (sheet cells.now) (key_tree key.now) → ⊥ }
{
    match key {
        Key::Cell(env, a) => is_computed(&held_at(cells, env, *a)),
        Key::Settle(_) => true,
    }
}
