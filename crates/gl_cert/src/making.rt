//! A certificate of its parts.
ghost use Rattle.std.specs.Prelude.{◌≡◌, ◌<◌, ◌^◌, length, map};
ghost use Rattle.gl_value.specs.Made.{shown_tree};
ghost use Rattle.gl_demand.specs.View.{key_tree};
ghost use Rattle.gl_cert.specs.{Claims.claim_trees, View.cert_tree};

use crate::Cert;
use gl_demand::{Key, Outcome};
use gl_value::Shown;

impl Cert {
    /// The certificate of these parts. It takes no memory.
    pub fn new(notes: Vec<(Key, Outcome)>, loops: Vec<Key>, shown: Shown) -> Cert
        requires few_notes { length notes.items < 2 ^ 32 }
        requires few_loops { length loops.items < 2 ^ 32 }
        ensures { cert_tree result ≡ record {
          notes = claim_trees notes.items;
          loops = map key_tree loops.items;
          shown = shown_tree shown;
        } }
    {
        Cert {
            notes,
            loops,
            shown,
        }
    }
}
