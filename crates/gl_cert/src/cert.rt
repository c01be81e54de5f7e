//! Certificates.
ghost use Rattle.std.specs.Prelude.{◌<◌, ◌^◌, length};

use gl_demand::{Key, Outcome};
use gl_value::Shown;

/// Why an address shows what it shows: notes of outcomes that follow one from another, keys that
/// wait for each other in a circle, and what is shown. The two lists can be numbered by `u32`.
pub struct Cert {
    pub notes: Vec<(Key, Outcome)>,
    pub loops: Vec<Key>,
    pub shown: Shown,
    ghost few_notes: { length notes.items < 2 ^ 32 },
    ghost few_loops: { length loops.items < 2 ^ 32 },
}

// One call wherever it is dropped, in place of one for each part.
impl Drop for Cert {
    fn drop(self) {
        let Cert {
            notes,
            loops,
            shown,
        } = self;
    }
}
