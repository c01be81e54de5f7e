//! What a key that waits will need next.
ghost use Rattle.std.specs.Prelude.{◌≡◌};
ghost use Rattle.gl_machine.specs.Ahead.Reading.{Nothing};
ghost use Rattle.gl_demand.specs.{Reading.ahead_tree, Marks.mark_tree};

use crate::ahead::Ahead;

/// What the last evaluation of a key was reading where it stopped, and the place in it from which
/// on its keys may still be without outcome.
pub struct Mark {
    pub ahead: Ahead,
    pub place: u32,
}

// One call wherever it is dropped, in place of one for each part.
impl Drop for Mark {
    fn drop(self) {
        let Mark { ahead, place } = self;
    }
}

impl Mark {
    /// Nothing is known of what is needed next.
    pub fn none() -> Mark
        ensures { mark_tree result ≡ (Nothing, 0) }
    {
        Mark::at_start(Ahead::Nothing)
    }

    /// What is being read, from its start on.
    pub fn at_start(ahead: Ahead) -> Mark
        ensures { mark_tree result ≡ (ahead_tree ahead, 0) }
    {
        Mark { ahead, place: 0 }
    }

    /// The same from another place on.
    pub fn moved(self, place: u32) -> Mark
        ensures { mark_tree result ≡ (ahead_tree self.ahead, place) }
    {
        let Mark { ahead, place: _ } = self;
        Mark { ahead, place }
    }
}
