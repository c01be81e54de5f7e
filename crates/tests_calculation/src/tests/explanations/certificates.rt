//! Certificates of addresses, and the verdicts on them.
ghost use Rattle.std.specs.Prelude.{IsTrue, map};
ghost use Rattle.gl_demand.specs.{Sound.AreSoundKeys, View.key_tree};
ghost use Rattle.gl_cert.specs.Claims.{claim_trees};

use gl_ast::Version;
use gl_cells::Cells;
use gl_cert::{Cert, Verdict, check};
use gl_demand::{Evaluator, Key, Outcome, Silent, Steps};
use gl_explain::{Explained, certificate};
use gl_plane::Oracle;
use gl_views::shown_text;
use std::alloc::Global;
use std::test::Fail;
use tests_common::address;

/// What keys of a sheet are evaluated by under an oracle, in version 1.
pub fn evaluator_of<'a>(alloc: Global, cells: &'a Cells, w: &'a Oracle) -> Evaluator<'a> {
    Evaluator {
        alloc,
        cells,
        oracle: w,
        version: Version::One,
    }
}

/// What explains an address.
pub fn explained(
    at: &Evaluator<'_>,
    name: &str,
    steps: &mut Steps<Silent>,
) -> Result<Explained, Fail> {
    let a = address(name)?;
    match certificate(at.alloc, at.cells, at.oracle, a, at.version, steps) {
        Ok(x) => Ok(x),
        Err(e) => Err(e.into()),
    }
}

/// The certificate of an address.
pub fn found(at: &Evaluator<'_>, name: &str, steps: &mut Steps<Silent>) -> Result<Cert, Fail> {
    match explained(at, name, steps)? {
        Explained::Cert(c) => Ok(c),
        Explained::Work => Err("too much work".into()),
        Explained::Aborts(_) => Err("a spent budget".into()),
    }
}

/// How many notes and loops a certificate has, and how many steps its walk takes.
pub type Counts = (usize, usize, u64);

/// The certificate of an address has these counts, and says that this is shown.
pub fn is_found(at: &Evaluator<'_>, name: &str, counts: Counts, text: &str) -> Result<bool, Fail> {
    let mut steps = Steps::new(Silent);
    let c = found(at, name, &mut steps)?;
    let counted = (c.notes.len(), c.loops.len(), steps.done());
    Ok(counted == counts && shown_text(at.alloc, &c.shown)?.as_str() == text)
}

/// Whether all keys are sound.
fn are_sound(keys: &[Key]) -> bool
    ensures { IsTrue result → AreSoundKeys (map key_tree keys.now) }
{
    let Some((first, rest)) = keys.split_first() else {
        return true;
    };
    if !first.is_sound() {
        return false;
    }
    are_sound(rest)
}

/// Whether the keys of all notes are sound.
fn are_of_sound_keys(notes: &[(Key, Outcome)]) -> bool
    ensures { IsTrue result → AreSoundKeys (map (λ n. n.0) (claim_trees notes.now)) }
{
    let Some((first, rest)) = notes.split_first() else {
        return true;
    };
    if !first.0.is_sound() {
        return false;
    }
    are_of_sound_keys(rest)
}

/// The verdict on a certificate of an address.
pub fn verdict_on(
    at: &Evaluator<'_>,
    name: &str,
    c: &Cert,
    steps: &mut Steps<Silent>,
) -> Result<Verdict, Fail> {
    let a = address(name)?;
    if !are_of_sound_keys(&c.notes) {
        return Err("a note of a key that is not sound".into());
    }
    if !are_sound(&c.loops) {
        return Err("a loop that is not sound".into());
    }
    match check(at.alloc, at.cells, at.oracle, a, c, at.version, steps) {
        Ok(verdict) => Ok(verdict),
        Err(e) => Err(e.into()),
    }
}
