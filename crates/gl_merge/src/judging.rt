//! What an edit is to the register of its address.
ghost use Rattle.std.specs.Prelude.{◌≡◌, ◌↔◌, IsTrue, Some};
ghost use Rattle.std.specs.Option.{option_copied};
ghost use Rattle.gl_cells.specs.Content.{content_tree};
ghost use Rattle.gl_merge.specs.{Edit.edit_tree, Judging.AreAlike, Judging.IsFor};

use crate::Edit;
use gl_cells::Content;

/// What an edit is to the register of its address.
#[derive(Clone, Copy, PartialEq, Eq, Debug)]
pub enum Judged {
    /// It is later, or there is no register.
    Wins,
    /// It is earlier.
    Loses,
    /// It has the same stamp and the same content.
    Same,
    /// It has the same stamp and another content.
    Conflict,
}

/// Equality of formulas is by structure.
#[tactic(auto, using(crate::proofs::Alike::content_equal))]
fn is_same(c: &Content, d: &Content) -> bool
    ensures { IsTrue result ↔ (content_tree c.now ≡ content_tree d.now) }
{
    c == d
}

fn are_alike(c: Option<&Content>, d: Option<&Content>) -> bool
    ensures { IsTrue result ↔ AreAlike (option_copied c.entry) (option_copied d.entry) }
{
    match (c, d) {
        (Some(c), Some(d)) => is_same(c, d),
        (None, None) => true,
        (Some(_), None) => false,
        (None, Some(_)) => false,
    }
}

/// What an edit is to this register of its address.
pub(crate) fn compared(register: &Edit, edit: &Edit) -> Judged
    ensures { IsFor (Some (edit_tree register.now)) (edit_tree edit.now) result }
{
    let mine = register.stamp();
    let other = edit.stamp();
    if mine.is_earlier(other) {
        Judged::Wins
    } else if other.is_earlier(mine) {
        Judged::Loses
    } else if are_alike(register.content(), edit.content()) {
        Judged::Same
    } else {
        Judged::Conflict
    }
}
