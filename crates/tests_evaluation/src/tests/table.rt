//! A table of the outcomes that evaluations found.
ghost use Rattle.std.specs.Prelude.{◌≡◌, find, option_map};
ghost use Rattle.std.specs.Option.{option_copied};
ghost use Rattle.gl_calculus.specs.Computation.Query.{Ready};
ghost use Rattle.gl_demand.specs.{Sound.IsSoundFound, View.key_tree, View.outcome_tree};
ghost use Rattle.gl_calculus.specs.Evaluation.Key.{same_key};

use gl_demand::{Key, Known, Outcome};
use gl_plane::NoMemory;
use std::alloc::Global;

/// A key with its outcome.
#[derive(Drop)]
pub struct Told {
    pub key: Key,
    pub outcome: Outcome,
    ghost sound: { IsSoundFound (key_tree key) (Ready (outcome_tree outcome)) },
}

/// What is told of each key, the first where it is told of one twice.
#[derive(Drop)]
pub struct Table {
    pub told: Vec<Told>,
}

impl Known for Table {
    ghost use Rattle.gl_demand.specs.View.{key_tree, outcome_tree};
    ghost use Rattle.gl_calculus.specs.Evaluation.Key.{same_key};
    ghost use Rattle.std.specs.Prelude.{find, option_map};

    ghost outcomes = { λ t.
        λ k.
        option_map (λ x. outcome_tree x.outcome)
        (find (λ x. same_key (key_tree x.key) k) t.told.items) };

    fn get(&self, k: &Key) -> Option<&Outcome> {
        first_of(self.told.as_slice(), k)
    }
}

fn first_of<'a>(told: &'a [Told], k: &Key) -> Option<&'a Outcome>
    ensures { option_map outcome_tree (option_copied result)
        ≡ option_map (λ x. outcome_tree x.outcome)
        (find (λ x. same_key (key_tree x.key) (key_tree k.now)) told.now) }
{
    for x in told {
        if x.key == *k {
            return Some(&x.outcome);
        }
    }
    None
}

impl Table {
    /// Nothing is known.
    pub fn new(alloc: Global) -> Table {
        Table {
            told: Vec::new(alloc),
        }
    }

    /// Tells the outcome of a key.
    pub fn tell(&mut self, key: Key, outcome: Outcome) -> Result<(), NoMemory>
        requires { IsSoundFound (key_tree key) (Ready (outcome_tree outcome)) }
    {
        self.told.push(Told { key, outcome })?;
        Ok(())
    }
}
