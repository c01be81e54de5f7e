//! Many contents at once, all or none of them.
ghost use Rattle.std.specs.Prelude.{◌≡◌, ◌≤◌, ◌+◌, OnOk, vec_len, vec_capacity};
ghost use Rattle.gl_language.specs.Reading.Content.{IsProperContent};
ghost use Rattle.gl_calculus.specs.Edits.Sheets.{with_content, with_contents};
ghost use Rattle.gl_cells.specs.Sheet.{sheet, put_each, undo_all, CanUndo, AreProper, IsTable};
ghost use Rattle.gl_cells.specs.Sheet.{Answers};
ghost use Rattle.gl_cells.specs.Content.{content_tree};

use crate::contents::Contents;
use crate::table::{put_in, restore};
use crate::{Content, MAX_CONTENTS, MAX_FORMULAS, PutFault};
use gl_plane::{Addr, NoMemory};
use std::alloc::Global;

/// Puts each content, and notes the step back of each.
fn put_each_in(
    map: &mut Contents,
    forms: &mut usize,
    list: Vec<(Addr, Content)>,
    undo: &mut Vec<(Addr, Option<Content>)>,
) -> Result<(), NoMemory>
    requires table { IsTable map.old forms.old }
    requires proper { AreProper list.items }
    requires room { vec_len undo.old + vec_len list ≤ vec_capacity undo.old }
    requires can { CanUndo undo.old.items map.old }
    ensures ok { OnOk result (map.new ≡ put_each list.items map.old) }
    ensures back { undo_all undo.new.items map.new ≡ undo_all undo.old.items map.old }
    ensures can { CanUndo undo.new.items map.new }
    ensures table { IsTable map.new forms.new }
{
    for (a, c) in list {
        let was = put_in(map, forms, a, c)?;
        undo.push_reserved((a, was));
    }
    Ok(())
}

/// Takes all steps back, the last one first. It takes no memory.
fn roll_back(map: &mut Contents, forms: &mut usize, mut undo: Vec<(Addr, Option<Content>)>)
    requires table { IsTable map.old forms.old }
    requires can { CanUndo undo.items map.old }
    ensures back { map.new ≡ undo_all undo.items map.old }
    ensures table { IsTable map.new forms.new }
{
    while let Some((a, was)) = undo.pop() {
        restore(map, forms, a, was);
    }
}

/// Puts all contents, or leaves all as it was. The room for the steps back comes first.
pub fn put_list(
    alloc: Global,
    map: &mut Contents,
    forms: &mut usize,
    list: Vec<(Addr, Content)>,
) -> Result<(), PutFault>
    requires table { IsTable map.old forms.old }
    requires proper { AreProper list.items }
    ensures answers { Answers result (sheet map.old)
        (with_contents (sheet map.old) (sheet list.items)) (sheet map.new) }
    ensures table { IsTable map.new forms.new }
{
    let Ok(mut undo) = Vec::with_capacity(alloc, list.len()) else {
        return Err(PutFault::NoMemory);
    };
    let fault = match put_each_in(map, forms, list, &mut undo) {
        Err(_) => PutFault::NoMemory,
        Ok(()) => {
            if *forms > MAX_FORMULAS {
                PutFault::Formulas
            } else if map.len() > MAX_CONTENTS {
                PutFault::Contents
            } else {
                return Ok(());
            }
        }
    };
    roll_back(map, forms, undo);
    Err(fault)
}

/// Puts a content, or leaves all as it was.
pub fn put_one(map: &mut Contents, forms: &mut usize, a: Addr, c: Content) -> Result<(), PutFault>
    requires table { IsTable map.old forms.old }
    requires proper { IsProperContent (content_tree c) }
    ensures answers { Answers result (sheet map.old)
        (with_content (sheet map.old) a (content_tree c)) (sheet map.new) }
    ensures table { IsTable map.new forms.new }
{
    let Ok(was) = put_in(map, forms, a, c) else {
        return Err(PutFault::NoMemory);
    };
    let fault = if *forms > MAX_FORMULAS {
        PutFault::Formulas
    } else if map.len() > MAX_CONTENTS {
        PutFault::Contents
    } else {
        return Ok(());
    };
    restore(map, forms, a, was);
    Err(fault)
}
