//! What an address of the top sheet shows after a round.
ghost use Rattle.gl_calculus.specs.Evaluation.World.{world};
ghost use Rattle.std.specs.Prelude.{◌≡◌, Some, None, IsTrue, IfOk, option_map};
ghost use Rattle.gl_language.specs.Reading.Content.{IsProperContent};
ghost use Rattle.gl_calculus.specs.Calculation.Calculation.{IsShown, IsUnspent, TopHas};
ghost use Rattle.gl_calculus.specs.Formulas.Formula.{Version, Formula, Form, Cells as Sheet};
ghost use Rattle.gl_calculus.specs.Formulas.Formula.{content};
ghost use Rattle.gl_calculus.specs.Evaluation.Oracle.{Cover, cover};
ghost use Rattle.gl_calculus.specs.Evaluation.Reference.{shown, spilled};
ghost use Rattle.gl_calculus.specs.Evaluation.Sound.{is_sound_outcome};
ghost use Rattle.gl_calculus.specs.Calculation.Memory.{IsTableOf};
ghost use Rattle.gl_calculus.specs.Calculation.Calculation as C;
ghost use Rattle.gl_calculus.specs.Evaluation.Key as K;
ghost use Rattle.gl_calculus.specs.Values.Value as V;
ghost use Rattle.gl_cells.specs.{Content.content_tree, Sheet.sheet};
ghost use Rattle.gl_plane.specs.Permit.{permit_tree};
ghost use Rattle.gl_value.specs.{Made.shown_tree, View.scalar_tree};
ghost use Rattle.gl_demand.specs.View.{outcome_tree};
ghost use Rattle.gl_calc.specs.Shown.{HasValue, TellsValue, TellsValues, is_sound_shown};

use crate::table::Table;
use gl_cells::{Cells, Content};
use gl_demand::{Key, Outcome, shown, spilled};
use gl_plane::{Addr, NoMemory, Permit, Share};
use gl_value::{Env, Scalar, Shown};

/// What an address shows under the oracle of a round: a formula that loops is a cycle, an array
/// shows its corner unless it is refused, and an address without content the element of the root
/// that spills over it, or a blank. No formula of the round is spent, and each root that covers an
/// address has a value.
pub fn shown_at(cells: &Cells, table: &Table, a: Addr) -> Result<Shown, NoMemory>
    requires { TellsValues (sheet cells.now) table.now }
    ensures shown { (version : Version)
        → IsTableOf (world version (sheet cells.now) table.now.oracle) table.now
        → IsUnspent (world version (sheet cells.now) table.now.oracle)
        → IfOk result (λ x.
        IsShown (world version (sheet cells.now) table.now.oracle) a (shown_tree x)) }
    ensures sound { IfOk result (λ x. IsTrue (is_sound_shown (shown_tree x))) }
{
    match cells.content(a) {
        Some(held) => content_shown(held, table, a),
        None => blank_shown(table, a),
    }
}

/// What an address with this content shows.
fn content_shown(held: &Content, table: &Table, a: Addr) -> Result<Shown, NoMemory>
    requires proper { IsProperContent (content_tree held.now) }
    requires told { (f : Formula) → content_tree held.now ≡ Form f → TellsValue table.now a }
    ensures shown { (version : Version) (S : Sheet)
        → content S a ≡ Some (content_tree held.now)
        → IsTableOf (world version S table.now.oracle) table.now
        → IfOk result (λ x. IsShown (world version S table.now.oracle) a (shown_tree x)) }
    ensures sound { IfOk result (λ x. IsTrue (is_sound_shown (shown_tree x))) }
{
    match held {
        Content::Const(x) => constant_shown(x),
        Content::Form(_) => formula_shown(table, a),
    }
}

/// What a constant shows.
fn constant_shown(x: &Scalar) -> Result<Shown, NoMemory>
    ensures { IfOk result (λ y. shown_tree y ≡ C.Shown.Value (scalar_tree x.now)) }
{
    match x.share() {
        Ok(x) => Ok(Shown::Value(x)),
        Err(NoMemory) => Err(NoMemory),
    }
}

/// What a formula shows: a cycle where the table, which is complete, has no note of it.
#[tactic(auto, using(gl_value::specs::Forms::trees))]
fn formula_shown(table: &Table, a: Addr) -> Result<Shown, NoMemory>
    requires { TellsValue table.now a }
    ensures shown { (version : Version) (S : Sheet) (f : Formula)
        → content S a ≡ Some (Form f)
        → IsTableOf (world version S table.now.oracle) table.now
        → IfOk result (λ x. IsShown (world version S table.now.oracle) a (shown_tree x)) }
    ensures sound { IfOk result (λ x. IsTrue (is_sound_shown (shown_tree x))) }
{
    match table.results.outcome(&Key::Cell(Env::Top, a)) {
        Some(outcome) => outcome_shown(table.oracle.status(a), outcome),
        None => Ok(Shown::Cycle),
    }
}

/// What a formula with this value and this permit shows.
fn outcome_shown(permit: Option<Permit>, outcome: &Outcome) -> Result<Shown, NoMemory>
    requires sound { IsTrue (is_sound_outcome (outcome_tree outcome.now)) }
    requires value { (v : V.Value) × (outcome_tree outcome.now ≡ K.Outcome.Value v) }
    ensures shown { IfOk result (λ x.
        (v : V.Value)
        × (outcome_tree outcome.now ≡ K.Outcome.Value v)
        × (shown_tree x ≡ C.Shown.Value (shown (option_map permit_tree permit) v))) }
    ensures sound { IfOk result (λ x. IsTrue (is_sound_shown (shown_tree x))) }
{
    match outcome {
        Outcome::Value(v) => match shown(permit, v) {
            Ok(x) => Ok(Shown::Value(x)),
            Err(NoMemory) => Err(NoMemory),
        },
        Outcome::Settled(_) => unreachable!(),
        Outcome::Abort(_) => unreachable!(),
    }
}

/// What an address without content shows.
fn blank_shown(table: &Table, a: Addr) -> Result<Shown, NoMemory>
    requires { (c : Cover) → cover table.now.oracle a ≡ Some c → HasValue table.now c.root }
    ensures shown { (version : Version) (S : Sheet)
        → content S a ≡ None
        → IsTableOf (world version S table.now.oracle) table.now
        → IfOk result (λ x. IsShown (world version S table.now.oracle) a (shown_tree x)) }
    ensures sound { IfOk result (λ x. IsTrue (is_sound_shown (shown_tree x))) }
{
    match table.oracle.cover(a) {
        Some(cover) => element_shown(table, cover),
        None => Ok(Shown::Value(Scalar::Blank)),
    }
}

/// What an address shows by the root that covers it, and its rows and columns from there.
#[tactic(auto, using(gl_value::specs::Forms::trees))]
fn element_shown(table: &Table, cover: (Addr, u16, u16)) -> Result<Shown, NoMemory>
    requires { HasValue table.now cover.0 }
    ensures shown { (version : Version) (S : Sheet) (w : V.Oracle)
        → IsTableOf (world version S w) table.now
        → IfOk result (λ x.
        (v : V.Value)
        × TopHas (world version S w) cover.0 (K.Outcome.Value v)
        × (shown_tree x ≡ C.Shown.Value (spilled (Some v) cover.1 cover.2))) }
    ensures sound { IfOk result (λ x. IsTrue (is_sound_shown (shown_tree x))) }
{
    match table.results.outcome(&Key::Cell(Env::Top, cover.0)) {
        Some(outcome) => outcome_element(outcome, cover.1, cover.2),
        None => unreachable!(),
    }
}

/// The element that a root with this value shows at an address.
fn outcome_element(outcome: &Outcome, rows: u16, cols: u16) -> Result<Shown, NoMemory>
    requires sound { IsTrue (is_sound_outcome (outcome_tree outcome.now)) }
    requires value { (v : V.Value) × (outcome_tree outcome.now ≡ K.Outcome.Value v) }
    ensures shown { IfOk result (λ x.
        (v : V.Value)
        × (outcome_tree outcome.now ≡ K.Outcome.Value v)
        × (shown_tree x ≡ C.Shown.Value (spilled (Some v) rows cols))) }
    ensures sound { IfOk result (λ x. IsTrue (is_sound_shown (shown_tree x))) }
{
    match outcome {
        Outcome::Value(v) => match spilled(v, rows, cols) {
            Ok(x) => Ok(Shown::Value(x)),
            Err(NoMemory) => Err(NoMemory),
        },
        Outcome::Settled(_) => unreachable!(),
        Outcome::Abort(_) => unreachable!(),
    }
}
