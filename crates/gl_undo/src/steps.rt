//! Steps: what one edit changes.
ghost use Rattle.std.specs.Prelude.{◌≡◌, IfOk};
ghost use Rattle.gl_calculus.specs.Computation.Lists.{AreDistinct};
ghost use Rattle.gl_undo.specs.View.{step_tree, changes_tree, places, AreProperChanges};
ghost use Rattle.gl_undo.specs.{Made.made_of, Sides.changes_on};

use crate::Change;
use crate::changes::{Side, shared};
use gl_cells::{Cells, Content};
use gl_plane::{Addr, NoMemory};
use std::alloc::Global;
use std::marker::Model;

/// Changes of addresses that differ, each from a proper content or none to a proper content or
/// none.
#[derive(Drop)]
pub struct Step {
    changes: Vec<Change>,
}

impl Model for Step {
    ghost use Rattle.std.specs.Prelude.{List};
    ghost use Rattle.std.specs.Coded.{codes};
    ghost use Rattle.gl_ast.specs.contracts.Formula as formula;
    ghost use Rattle.gl_value.specs.contracts.Scalar as scalar;
    ghost use Rattle.gl_undo.specs.{declared.changes.Change.Change, View.IsStep};

    ghost Value = { List Change };

    ghost coded = { Prim.hlevel (codes, scalar.the_row.coded, formula.the_row.coded) };

    ghost view = { λ a. a.changes.items };

    ghost invariant = { λ a. IsStep a.changes.items };
}

/// The step that these changes of the sheet are, each to the content that stands beside its
/// address.
pub fn step_of(
    alloc: Global,
    cells: &Cells,
    list: Vec<(Addr, Option<Content>)>,
) -> Result<Step, NoMemory>
    requires apart { AreDistinct (places list.items) }
    requires proper { AreProperChanges list.items }
    ensures { IfOk result (λ d. step_tree d ≡ made_of cells.now list.items) }
{
    let mut changes = Vec::with_capacity(alloc, list.len())?;
    for (place, after) in list {
        let before = shared(cells.content(place))?;
        changes.push_reserved(Change {
            place,
            before,
            after,
        });
    }
    Ok(Step { changes })
}

impl Step {
    /// What its addresses have on this side of it.
    pub(crate) fn contents(
        &self,
        alloc: Global,
        side: Side,
    ) -> Result<Vec<(Addr, Option<Content>)>, NoMemory>
        ensures value { IfOk result (λ v.
            changes_tree v.items ≡ changes_on side (step_tree self.now)) }
        ensures apart { IfOk result (λ v. AreDistinct (places v.items)) }
        ensures proper { IfOk result (λ v. AreProperChanges v.items) }
    {
        let mut list = Vec::with_capacity(alloc, self.changes.len())?;
        for c in &self.changes {
            list.push_reserved((c.place, shared(c.on(side))?));
        }
        Ok(list)
    }
}
