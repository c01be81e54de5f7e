//! Changes of single addresses.
ghost use Rattle.std.specs.Prelude.{◌≡◌, IfOk, option_map};
ghost use Rattle.std.specs.Option.{option_copied};
ghost use Rattle.gl_cells.specs.Content.{content_tree};
ghost use Rattle.gl_undo.specs.View.{IsProperOption, IsShared, change_tree};
ghost use Rattle.gl_undo.specs.Sides.{content_on};

use gl_cells::Content;
use gl_plane::{Addr, NoMemory, Share};

/// An address, with the content that it has before an edit and the one that it has after it.
#[derive(Drop)]
pub struct Change {
    pub place: Addr,
    pub before: Option<Content>,
    pub after: Option<Content>,
}

/// A side of a change: what is before it, or what is after it.
#[derive(Clone, Copy)]
pub(crate) enum Side {
    Before,
    After,
}

impl Change {
    /// The content that the address has on this side.
    pub(crate) fn on(&self, side: Side) -> Option<&Content>
        ensures content { option_map content_tree (option_copied result)
            ≡ content_on side (change_tree self.now) }
        ensures proper { IsProperOption self.now.before
            → IsProperOption self.now.after
            → IsProperOption (option_copied result) }
    {
        match side {
            Side::Before => self.before.as_ref(),
            Side::After => self.after.as_ref(),
        }
    }
}

/// The same content once more, if there is one.
pub(crate) fn shared(content: Option<&Content>) -> Result<Option<Content>, NoMemory>
    ensures { IfOk result (λ c. IsShared c (option_copied content.entry)) }
{
    match content {
        Some(c) => Ok(Some(c.share()?)),
        None => Ok(None),
    }
}
