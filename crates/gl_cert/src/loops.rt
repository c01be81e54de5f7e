//! Which loops of a certificate wait for one of them.
ghost use Rattle.gl_calculus.specs.Evaluation.Evaluation.{program};
ghost use Rattle.std.specs.Prelude.{◌≡◌, ◌≤◌, ◌<◌, ◌+◌, ◌^◌, true, cond, length, map, IsTrue, IfOk};
ghost use Rattle.gl_calculus.specs.Computation.Lists.{has_member};
ghost use Rattle.gl_calculus.specs.Evaluation.Key.{same_key};
ghost use Rattle.gl_calculus.specs.Evaluation.SameOutcome.{same_outcome};
ghost use Rattle.gl_calculus.specs.Evaluation.Sound.{is_sound_key};
ghost use Rattle.gl_calculus.specs.Evaluation.Key as K;
ghost use Rattle.gl_calculus.specs.Explanation.Walk.{waits_among, waits, first_free};
ghost use Rattle.gl_calculus.specs.Explanation.Certificate.{is_proper};
ghost use Rattle.gl_cells.specs.Sheet.{sheet};
ghost use Rattle.gl_demand.specs.{Sound.AreSoundKeys, View.key_tree, View.found_tree};
ghost use Rattle.gl_demand.specs.{Evaluators.world_of};
ghost use Rattle.gl_cert.specs.Notes.{claims};

use crate::Notes;
use crate::stepping::{is_proper, level};
use gl_demand::{Evaluator, Found, Key, Steps, Watch};
use gl_plane::{NoMemory, Share};
use indexmap::IndexSet;
use std::alloc::Global;

/// Whether a key is among these.
pub fn is_among(keys: &IndexSet<Key>, key: &Key) -> bool
    ensures { result ≡ has_member same_key (key_tree key.now) (map key_tree keys.now.keys) }
{
    keys.contains(key)
}

/// Puts a key into a set.
fn add(keys: &mut IndexSet<Key>, key: &Key) -> Result<(), NoMemory>
    ensures { IfOk result (λ _.
        (j : K.Key)
        → has_member same_key j (map key_tree keys.new.keys)
        ≡ cond (same_key j (key_tree key.now)) true
        (has_member same_key j (map key_tree keys.old.keys))) }
{
    let key = key.share()?;
    keys.insert(key)?;
    Ok(())
}

/// The set of these keys.
pub fn key_set(alloc: Global, list: &[Key]) -> Result<IndexSet<Key>, NoMemory>
    ensures { IfOk result (λ s. (j : K.Key) → has_member same_key j (map key_tree s.keys)
        ≡ has_member same_key j (map key_tree list.now)) }
{
    let mut keys = IndexSet::new(alloc);
    for key in list {
        add(&mut keys, key)?;
    }
    Ok(keys)
}

/// Whether one of these keys is what was lacked.
fn lacks_one(loops: &IndexSet<Key>, found: &Found) -> bool
    ensures { result ≡ waits_among same_key (map key_tree loops.now.keys) (found_tree found.now) }
{
    match found {
        Found::Ready(_) => false,
        Found::Need(key) => is_among(loops, key),
    }
}

/// Whether a key waits for one of the loops, over the notes. It takes one step at most.
fn key_waits<L: Watch>(
    evaluator: &Evaluator,
    key: &Key,
    loops: &IndexSet<Key>,
    notes: &Notes,
    steps: &mut Steps<L>,
) -> Result<bool, NoMemory>
    requires sound { IsTrue (is_sound_key (key_tree key.now)) }
    ensures waits { IfOk result (λ b. b ≡ waits same_key same_outcome
        (is_proper (sheet evaluator.now.cells.now)) (program (world_of evaluator.now))
        (claims notes.now) (map key_tree loops.now.keys) (key_tree key.now)) }
    ensures steps { steps.new ≤ steps.old + 1 }
    ensures later { steps.old ≤ steps.new }
{
    if !is_proper(evaluator.cells, key) {
        return Ok(false);
    }
    match level(evaluator, key, notes, steps) {
        Ok(found) => Ok(lacks_one(loops, &found)),
        Err(NoMemory) => Err(NoMemory),
    }
}

/// The number of the first of these keys that doesn't wait for one of the loops, over the notes. It
/// takes one step at most for each key.
pub fn first_free<L: Watch>(
    evaluator: &Evaluator,
    list: &[Key],
    loops: &IndexSet<Key>,
    notes: &Notes,
    steps: &mut Steps<L>,
) -> Result<Option<u32>, NoMemory>
    requires few { length list.now < 2 ^ 32 }
    requires sound { AreSoundKeys (map key_tree list.now) }
    ensures free { IfOk result (λ r. r
        ≡ first_free same_key same_outcome (is_proper (sheet evaluator.now.cells.now))
        (program (world_of evaluator.now))
        (claims notes.now) (map key_tree loops.now.keys) (map key_tree list.now)) }
    ensures steps { steps.new ≤ steps.old + length list.now }
    ensures later { steps.old ≤ steps.new }
{
    for i in 0..list.len() {
        match key_waits(evaluator, &list[i], loops, notes, steps) {
            Ok(true) => {}
            Ok(false) => return Ok(Some(i as u32)),
            Err(NoMemory) => return Err(NoMemory),
        }
    }
    Ok(None)
}
