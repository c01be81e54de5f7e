//! Notes are made and looked up.
ghost use Rattle.std.specs.Prelude.{◌≡◌, ◌<◌, ◌^◌, [], ◌∷◌, ◌++◌, None, map, option_map, length};
ghost use Rattle.std.specs.Prelude.{IsTrue, OnOk, OnErr, IfOk, IfSome};
ghost use Rattle.std.specs.Option.{option_copied};
ghost use Rattle.gl_calculus.specs.Computation.Query.{Ready};
ghost use Rattle.gl_calculus.specs.Evaluation.Key.{same_key};
ghost use Rattle.gl_calculus.specs.Evaluation.Sound.{is_sound_key};
ghost use Rattle.gl_calculus.specs.Explanation.Walk.{noted};
ghost use Rattle.gl_demand.specs.{Sound.AreSoundKeys, Sound.IsSoundFound, View.key_tree};
ghost use Rattle.gl_demand.specs.{View.outcome_tree};
ghost use Rattle.gl_cert.specs.{Claims.claim_trees, Notes.claims};

use crate::Notes;
use gl_demand::{Key, Known, Outcome};
use gl_plane::NoMemory;
use indexmap::IndexMap;
use std::alloc::Global;

/// The outcome of a key in the map.
fn outcome_in<'a>(outcomes: &'a IndexMap<Key, Outcome>, key: &Key) -> Option<&'a Outcome>
    ensures { option_map outcome_tree (option_copied result)
        ≡ noted same_key (claim_trees outcomes.now.entries) (key_tree key.now) }
{
    outcomes.get(key)
}

/// Puts a key that is not there into the map, as the last one.
fn add(outcomes: &mut IndexMap<Key, Outcome>, key: Key, outcome: Outcome) -> Result<(), NoMemory>
    requires { noted same_key (claim_trees outcomes.old.entries) (key_tree key) ≡ None }
    ensures ok { OnOk result (claim_trees outcomes.new.entries
        ≡ claim_trees outcomes.old.entries ++ (key_tree key, outcome_tree outcome) ∷ []) }
    ensures err { OnErr result (
        claim_trees outcomes.new.entries ≡ claim_trees outcomes.old.entries) }
{
    match outcomes.insert(key, outcome) {
        Ok(_) => Ok(()),
        Err(_) => Err(NoMemory),
    }
}

impl Notes {
    /// No note. It takes no memory yet.
    pub fn new(alloc: Global) -> Notes
        ensures { claims result ≡ [] }
    {
        Notes {
            outcomes: IndexMap::new(alloc),
        }
    }

    /// The outcome of a key: `None` exactly where none is noted.
    pub fn outcome(&self, key: &Key) -> Option<&Outcome>
        ensures value { option_map outcome_tree (option_copied result)
            ≡ noted same_key (claims self.now) (key_tree key.now) }
        ensures sound { IfSome result (λ o.
            IsSoundFound (key_tree key.now) (Ready (outcome_tree o.now))) }
    {
        outcome_in(&self.outcomes, key)
    }

    /// Notes an outcome of a key that has none yet.
    pub fn note(&mut self, key: Key, outcome: Outcome) -> Result<(), NoMemory>
        requires free { noted same_key (claims self.old) (key_tree key) ≡ None }
        requires key { IsTrue (is_sound_key (key_tree key)) }
        requires sound { IsSoundFound (key_tree key) (Ready (outcome_tree outcome)) }
        ensures ok { OnOk result (claims self.new
            ≡ claims self.old ++ (key_tree key, outcome_tree outcome) ∷ []) }
        ensures err { OnErr result (claims self.new ≡ claims self.old) }
    {
        add(&mut self.outcomes, key, outcome)
    }

    /// How many notes there are.
    pub fn len(&self) -> usize
        ensures count { result ≡ length (claims self.now) }
        ensures small { result < 2 ^ 63 }
        ensures keys { AreSoundKeys (map (λ n. n.0) (claims self.now)) }
    {
        self.outcomes.len()
    }

    /// The notes as a list.
    pub fn into_list(self, alloc: Global) -> Result<Vec<(Key, Outcome)>, NoMemory>
        ensures { IfOk result (λ v. claim_trees v.items ≡ claims self) }
    {
        match self.into_map().into_iter().collect(alloc) {
            Ok(list) => Ok(list),
            Err(_) => Err(NoMemory),
        }
    }
}

impl Known for Notes {
    ghost use Rattle.gl_calculus.specs.Evaluation.Key.{same_key};
    ghost use Rattle.gl_calculus.specs.Explanation.Walk.{noted};
    ghost use Rattle.gl_cert.specs.Notes.{claims};

    ghost outcomes = { λ n. noted same_key (claims n) };

    fn get(&self, k: &Key) -> Option<&Outcome> {
        outcome_in(&self.outcomes, k)
    }
}
