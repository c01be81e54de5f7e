//! The results that are known, and what one evaluation finds.
ghost use Rattle.std.specs.Prelude.{◌≡◌, Option};
ghost use Rattle.gl_calculus.specs.Evaluation.Key as K;

use crate::{Ahead, Key, Outcome};
use gl_cells::Hint;
use gl_plane::Range;

/// The outcomes that are known so far, by key.
pub trait Known {
    ghost use Rattle.std.specs.Prelude.{◌≡◌, Option, option_map};
    ghost use Rattle.std.specs.Option.{option_copied};
    ghost use Rattle.gl_calculus.specs.Evaluation.Key as K;
    ghost use Rattle.gl_demand.specs.View.{key_tree, outcome_tree};

    /// The known outcome of each key.
    ghost outcomes: { Self → K.Key → Option K.Outcome };

    /// The outcome of a key: `None` exactly where it is not known.
    fn get(&self, k: &Key) -> Option<&Outcome>
        ensures { option_map outcome_tree (option_copied result)
            ≡ outcomes self.now (key_tree k.now) };

    /// The same. A table of keys by numbers may try the number of the hint first, which is told what
    /// number the key has.
    fn get_near(&self, k: &Key, hint: &mut Hint) -> Option<&Outcome>
        ensures { option_map outcome_tree (option_copied result)
            ≡ outcomes self.now (key_tree k.now) }
    {
        self.get(k)
    }
}

/// What an evaluation finds: the key's outcome, or the first key that it demands without known outcome.
#[derive(Drop)]
pub enum Found {
    Ready(Outcome),
    Need(Key),
}

/// One evaluation: what it finds, the distinct keys that it demands in the order of first demand,
/// and the ranges that it looks at, both up to the first key without known outcome; and what it was
/// reading there.
#[derive(Drop)]
pub struct Turn {
    pub found: Found,
    pub reads: Vec<Key>,
    pub looked: Vec<Range>,
    pub ahead: Ahead,
}
