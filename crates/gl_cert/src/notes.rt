//! Outcomes that are noted of keys.
ghost use Rattle.std.specs.Prelude.{◌≡◌, map};
ghost use Rattle.gl_calculus.specs.Evaluation.Key.{same_key};
ghost use Rattle.gl_calculus.specs.Explanation.Walk.{noted};
ghost use Rattle.gl_demand.specs.Sound.{AreSoundKeys, IsSoundTable};
ghost use Rattle.gl_cert.specs.Claims.{claim_trees};

use gl_demand::{Key, Outcome};
use indexmap::IndexMap;

/// Sound outcomes by their sound keys, in the order in which they were noted.
pub struct Notes {
    pub(crate) outcomes: IndexMap<Key, Outcome>,
    ghost sound: { IsSoundTable (noted same_key (claim_trees outcomes.entries)) },
    ghost keys: { AreSoundKeys (map (λ n. n.0) (claim_trees outcomes.entries)) },
}

// One call wherever it is dropped, in place of one for each part.
impl Drop for Notes {
    fn drop(self) {
        let Notes { outcomes } = self;
    }
}

impl Notes {
    /// The map of the outcomes.
    pub(crate) fn into_map(self) -> IndexMap<Key, Outcome>
        ensures { result ≡ self.outcomes }
    {
        let Notes { outcomes } = self;
        outcomes
    }
}
