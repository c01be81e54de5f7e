//! The history of a sheet.
ghost use Rattle.std.specs.Prelude.{◌≡◌, ◌<◌, List, length, map, slice_get, IfOk, option_copied};
ghost use Rattle.gl_calculus.specs.Edits.Steps.{no_history, pushed, befores, afters, MovesBack};
ghost use Rattle.gl_calculus.specs.Edits.Steps.{MovesForward};
ghost use Rattle.gl_undo.specs.{View.step_tree, Sides.changes_on};
ghost use Rattle.gl_undo.specs.declared.changes.Change.{Change};
ghost use Rattle.gl_undo.specs.History.{TellsLatest, done, history_tree, undone};

use crate::Step;
use crate::changes::Side;
use crate::rings::Rings;
use gl_cells::Content;
use gl_plane::{Addr, NoMemory};
use std::alloc::Global;

/// The latest steps that were done, and those that were undone since the latest that was done.
#[derive(Drop)]
pub struct History {
    rings: Rings<Step>,
}

impl History {
    /// Nothing is done yet. The room for all steps is taken here.
    pub fn new(alloc: Global) -> Result<History, NoMemory>
        ensures { IfOk result (λ h. history_tree h ≡ no_history) }
    {
        Ok(History {
            rings: Rings::new(alloc)?,
        })
    }

    /// Forgets all steps. It takes no memory.
    pub fn clear(&mut self)
        ensures { history_tree self.new ≡ no_history }
    {
        self.rings.clear();
    }

    /// A step is done: only the latest steps are kept, and nothing can be redone. It takes no
    /// memory.
    pub fn push(&mut self, step: Step)
        ensures { history_tree self.new ≡ pushed (history_tree self.old) (step_tree step) }
    {
        self.rings.push(step);
    }

    /// What the addresses of the latest step had before it: `None` where nothing is left to undo.
    pub fn back(&self, alloc: Global) -> Result<Option<Vec<(Addr, Option<Content>)>>, NoMemory>
        ensures { IfOk result (λ o. TellsLatest befores o (done self.now)) }
    {
        contents(alloc, self.rings.done(), Side::Before)
    }

    /// What the addresses of the latest undone step had after it: `None` where nothing is left to
    /// redo.
    pub fn forward(&self, alloc: Global) -> Result<Option<Vec<(Addr, Option<Content>)>>, NoMemory>
        ensures { IfOk result (λ o. TellsLatest afters o (undone self.now)) }
    {
        contents(alloc, self.rings.undone(), Side::After)
    }

    /// The latest step is undone. It takes no memory.
    pub fn moved_back(&mut self)
        requires { 0 < length (history_tree self.old).done }
        ensures { MovesBack (history_tree self.old) (history_tree self.new) }
    {
        self.rings.move_back();
    }

    /// The latest undone step is done again. It takes no memory.
    pub fn moved_forward(&mut self)
        requires { 0 < length (history_tree self.old).undone }
        ensures { MovesForward (history_tree self.old) (history_tree self.new) }
    {
        self.rings.move_forward();
    }
}

// What the addresses of a step have on this side of it, if there is a step.
fn contents(
    alloc: Global,
    step: Option<&Step>,
    side: Side,
) -> Result<Option<Vec<(Addr, Option<Content>)>>, NoMemory>
    ensures { (steps : List (List Change))
        → option_copied step.entry ≡ slice_get steps 0
        → IfOk result (λ o. TellsLatest (changes_on side) o (map step_tree steps)) }
{
    match step {
        Some(step) => Ok(Some(step.contents(alloc, side)?)),
        None => Ok(None),
    }
}
