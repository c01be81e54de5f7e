//! The law of cores.
ghost use Rattle.gl_core.specs.Facts.{CoresByFacts};

/// A core is for a sheet, an oracle and a version exactly where its seeds are proper there, its
/// notes are true, what its state says of each known key is right, and what each key that waits was
/// reading is ahead of its evaluation.
pub fn cores_by_facts()
    ensures { CoresByFacts }
{}
