//! What notes and loops say that an address shows.
ghost use Rattle.std.specs.Prelude.{◌≡◌, Some, None, map, option_map, IsTrue, IfOk};
ghost use Rattle.gl_calculus.specs.Formulas.Formula.{content};
ghost use Rattle.gl_calculus.specs.Evaluation.Oracle.{cover};
ghost use Rattle.gl_calculus.specs.Evaluation.Sound.{is_sound_value, is_sound_outcome};
ghost use Rattle.gl_calculus.specs.Values.Value as V;
ghost use Rattle.gl_calculus.specs.Explanation.Certificate.{says, constant_shown, loop_shown};
ghost use Rattle.gl_calculus.specs.Explanation.Certificate.{element_shown};
ghost use Rattle.gl_calculus.specs.Explanation.Certificate.{value_shown, shown_by_note};
ghost use Rattle.gl_calculus.specs.Explanation.Certificate.{shown_by_key};
ghost use Rattle.gl_cells.specs.Sheet.{sheet};
ghost use Rattle.gl_value.specs.{Made.shown_tree, View.scalar_tree, View.value_tree};
ghost use Rattle.gl_demand.specs.View.{key_tree, outcome_tree};
ghost use Rattle.gl_cert.specs.Notes.{claims};

use crate::loops::is_among;
use crate::{Notes, key_at};
use gl_cells::{Cells, Content};
use gl_demand::{Key, Outcome, shown, spilled};
use gl_plane::{Addr, NoMemory, Oracle, Share};
use gl_value::{Scalar, Shown, Value};
use indexmap::IndexSet;

/// What an address shows where no key decides: its constant, or a blank.
#[tactic(auto, using(gl_value::specs::Forms::trees))]
fn constant_shown(cells: &Cells, a: Addr) -> Result<Shown, NoMemory>
    ensures { IfOk result (λ x. shown_tree x ≡ constant_shown (content (sheet cells.now) a)) }
{
    match cells.content(a) {
        Some(Content::Const(x)) => Ok(Shown::Value(x.share()?)),
        Some(Content::Form(_)) => Ok(Shown::Value(Scalar::Blank)),
        None => Ok(Shown::Value(Scalar::Blank)),
    }
}

/// What it shows where the key that decides loops: a cycle, or a blank where it has no content.
#[tactic(auto, using(gl_value::specs::Forms::trees))]
fn loop_shown(cells: &Cells, a: Addr) -> Shown
    ensures { shown_tree result ≡ loop_shown (content (sheet cells.now) a) }
{
    match cells.content(a) {
        Some(_) => Shown::Cycle,
        None => Shown::Value(Scalar::Blank),
    }
}

/// The element that covers an address, of the value of the root.
#[tactic(auto, using(gl_value::specs::Forms::trees))]
fn element_shown(w: &Oracle, a: Addr, v: &Value) -> Result<Scalar, NoMemory>
    requires { IsTrue (is_sound_value (value_tree v.now)) }
    ensures { IfOk result (λ x. scalar_tree x ≡ element_shown (cover w.now a) (value_tree v.now)) }
{
    match w.cover(a) {
        Some(cover) => spilled(v, cover.1, cover.2),
        None => Ok(Scalar::Blank),
    }
}

/// What an address shows by the value of the key that decides.
fn value_shown(cells: &Cells, w: &Oracle, a: Addr, v: &Value) -> Result<Scalar, NoMemory>
    requires { IsTrue (is_sound_value (value_tree v.now)) }
    ensures { IfOk result (λ x. scalar_tree x
        ≡ value_shown w.now a (content (sheet cells.now) a) (value_tree v.now)) }
{
    match cells.content(a) {
        Some(_) => shown(w.status(a), v),
        None => element_shown(w, a, v),
    }
}

/// What an address shows by the outcome of that key, if it says it.
fn outcome_shown(
    cells: &Cells,
    w: &Oracle,
    a: Addr,
    outcome: &Outcome,
    is_loop: bool,
) -> Result<Option<Shown>, NoMemory>
    requires { IsTrue (is_sound_outcome (outcome_tree outcome.now)) }
    ensures { IfOk result (λ x. option_map shown_tree x ≡ shown_by_note w.now a
        (content (sheet cells.now) a) (Some (outcome_tree outcome.now)) is_loop) }
{
    match outcome {
        Outcome::Value(v) => match value_shown(cells, w, a, v) {
            Ok(x) => Ok(Some(Shown::Value(x))),
            Err(NoMemory) => Err(NoMemory),
        },
        Outcome::Settled(_) => Ok(None),
        Outcome::Abort(_) => Ok(None),
    }
}

/// What an address shows where the key that decides has no note, by whether it is among the loops.
fn unnoted_shown(cells: &Cells, a: Addr, is_loop: bool) -> Option<Shown>
    ensures { (w : V.Oracle) → option_map shown_tree result
        ≡ shown_by_note w a (content (sheet cells.now) a) None is_loop }
{
    if is_loop {
        Some(loop_shown(cells, a))
    } else {
        None
    }
}

/// What notes and loops say that an address shows, by the key that decides.
fn key_shown(
    cells: &Cells,
    w: &Oracle,
    a: Addr,
    notes: &Notes,
    loops: &IndexSet<Key>,
    key: &Key,
) -> Result<Option<Shown>, NoMemory>
    ensures { IfOk result (λ x. option_map shown_tree x
        ≡ shown_by_key w.now a (content (sheet cells.now) a)
        (claims notes.now) (map key_tree loops.now.keys) (Some (key_tree key.now))) }
{
    let is_loop = is_among(loops, key);
    match notes.outcome(key) {
        Some(outcome) => outcome_shown(cells, w, a, outcome, is_loop),
        None => Ok(unnoted_shown(cells, a, is_loop)),
    }
}

/// What notes and loops say that an address shows, if they say it: by the note of the key that
/// decides, or else by that it is among the loops. Without such a key an address shows its constant,
/// or a blank.
pub fn says(
    cells: &Cells,
    w: &Oracle,
    a: Addr,
    notes: &Notes,
    loops: &IndexSet<Key>,
) -> Result<Option<Shown>, NoMemory>
    ensures { IfOk result (λ x. option_map shown_tree x
        ≡ says (sheet cells.now) w.now a (claims notes.now) (map key_tree loops.now.keys)) }
{
    match key_at(cells, w, a) {
        Some(key) => key_shown(cells, w, a, notes, loops, &key),
        None => match constant_shown(cells, a) {
            Ok(x) => Ok(Some(x)),
            Err(NoMemory) => Err(NoMemory),
        },
    }
}
