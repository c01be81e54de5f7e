//! Lists of what edits of the sheet change.
ghost use Rattle.std.specs.Prelude.{◌≡◌, ◌∷◌, [], Some, IfOk};
ghost use Rattle.std.specs.Option.{option_copied};
ghost use Rattle.gl_language.specs.Reading.Content.{IsProperContent};
ghost use Rattle.gl_calculus.specs.Grid.Grid.{AreInOrder};
ghost use Rattle.gl_calculus.specs.Edits.Sheets.{settings, removals};
ghost use Rattle.gl_cells.specs.{Content.content_tree, Sheet.sheet, Sheet.AreProper};
ghost use Rattle.gl_undo.specs.View.{AreProperChanges, IsShared, changes_tree};
ghost use Rattle.gl_run.specs.Ready.{places};

use gl_cells::{Cells, Content};
use gl_plane::{Addr, NoMemory, Range, Share};
use std::alloc::Global;

/// An address, with the content that it gets, or with none where it loses its content.
pub type Change = (Addr, Option<Content>);

/// The same content once more, if there is one.
pub fn shared(content: Option<&Content>) -> Result<Option<Content>, NoMemory>
    ensures { IfOk result (λ c. IsShared c (option_copied content.entry)) }
{
    match content {
        Some(c) => Ok(Some(c.share()?)),
        None => Ok(None),
    }
}

/// What setting one content changes.
pub fn setting(alloc: Global, a: Addr, content: &Content) -> Result<Vec<Change>, NoMemory>
    requires { IsProperContent (content_tree content.now) }
    ensures value { IfOk result (λ v.
        changes_tree v.items ≡ (a, Some (content_tree content.now)) ∷ []) }
    ensures proper { IfOk result (λ v. AreProperChanges v.items) }
{
    let content = content.share()?;
    let mut list = Vec::with_capacity(alloc, 1)?;
    list.push_reserved((a, Some(content)));
    Ok(list)
}

/// What setting these contents changes.
pub fn settings(alloc: Global, contents: &[(Addr, Content)]) -> Result<Vec<Change>, NoMemory>
    requires { AreProper contents.now }
    ensures value { IfOk result (λ v. changes_tree v.items ≡ settings (sheet contents.now)) }
    ensures proper { IfOk result (λ v. AreProperChanges v.items) }
{
    let mut list = Vec::with_capacity(alloc, contents.len())?;
    for entry in contents {
        list.push_reserved((entry.0, Some(entry.1.share()?)));
    }
    Ok(list)
}

/// What clearing a range changes.
pub fn removals(alloc: Global, cells: &Cells, r: &Range) -> Result<Vec<Change>, NoMemory>
    ensures value { IfOk result (λ v. changes_tree v.items ≡ removals (sheet cells.now) r.now) }
    ensures proper { IfOk result (λ v. AreProperChanges v.items) }
    ensures ordered { AreInOrder (places (removals (sheet cells.now) r.now)) }
{
    let mut list = Vec::new(alloc);
    let mut after = None;
    for _ in 0..cells.contents() {
        match cells.next_in(r, after) {
            Some(a) => {
                list.push((a, None))?;
                after = Some(a);
            }
            None => return Ok(list),
        }
    }
    Ok(list)
}

/// The contents that come with changes, and the addresses that lose theirs.
#[derive(Drop)]
pub struct Parts {
    pub coming: Vec<(Addr, Content)>,
    pub going: Vec<Addr>,
}
