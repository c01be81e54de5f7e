//! Edits of the table that stands for a sheet.
ghost use Rattle.std.specs.Prelude.{◌≡◌, ◌≤◌, ◌<◌, None, IfSome, IfOk, OnOk, OnErr};
ghost use Rattle.std.specs.Prelude.{option_map, unwrap_or, is_some, length, ◌+◌, if◌then◌else◌};
ghost use Rattle.std.specs.BTreeMap.{insert_entry, is_at};
ghost use Rattle.std.specs.Map.{lookup, remove_entry};
ghost use Rattle.gl_calculus.specs.Grid.Grid.{Addr as Plain};
ghost use Rattle.gl_language.specs.Reading.Content.{IsProperContent};
ghost use Rattle.gl_cells.specs.Sheet.{addr_cmp, IsTable, HasPlace, restored};
ghost use Rattle.gl_cells.specs.Content.{content_tree, form_weight};

use crate::Content;
use crate::contents::Contents;
use gl_plane::{Addr, NoMemory};

fn weight_of(c: &Option<Content>) -> usize
    ensures { result ≡ unwrap_or (option_map (λ x. form_weight (content_tree x)) c.now) 0 }
{
    match c {
        Some(c) => c.weight(),
        None => 0,
    }
}

/// Puts a content, and answers the one before.
pub fn put_in(
    map: &mut Contents,
    forms: &mut usize,
    a: Addr,
    c: Content,
) -> Result<Option<Content>, NoMemory>
    requires table { IsTable map.old forms.old }
    requires proper { IsProperContent (content_tree c) }
    ensures ok { OnOk result (map.new ≡ insert_entry addr_cmp map.old a c) }
    ensures was { IfOk result (λ was.
        (was ≡ lookup (is_at (addr_cmp a)) map.old)
        × IfSome was (λ x. IsProperContent (content_tree x))) }
    ensures absent { OnErr result (lookup (is_at (addr_cmp a)) map.old ≡ None) }
    ensures err { OnErr result (map.new ≡ map.old) }
    ensures table { IsTable map.new forms.new }
{
    // that the entries are few, and that the address is on the grid
    let _len = map.len();
    let _row = a.row();
    let weight = c.weight();
    match map.insert(a, c) {
        Ok(was) => {
            *forms = *forms + weight - weight_of(&was);
            Ok(was)
        }
        Err(_) => Err(NoMemory),
    }
}

/// Removes a content, and answers it. It takes no memory.
pub fn remove_in(map: &mut Contents, forms: &mut usize, a: Addr) -> Option<Content>
    requires table { IsTable map.old forms.old }
    ensures removed { map.new ≡ remove_entry (is_at (addr_cmp a)) map.old }
    ensures was { result ≡ lookup (is_at (addr_cmp a)) map.old }
    ensures fewer { forms.new ≤ forms.old }
    ensures present { is_some result ≡ is_some (lookup (is_at (addr_cmp a)) map.old) }
    ensures others { (q : Plain)
        → lookup (is_at (addr_cmp q)) map.new
        ≡ (if is_at (addr_cmp a) q then None else lookup (is_at (addr_cmp q)) map.old) }
    ensures len { length map.new + (if is_some result then 1 else 0) ≡ length map.old }
    ensures table { IsTable map.new forms.new }
{
    let was = map.remove(a);
    *forms -= weight_of(&was);
    was
}

/// Takes a step back. It takes no memory, since a content comes back only where there is one.
pub fn restore(map: &mut Contents, forms: &mut usize, a: Addr, was: Option<Content>)
    requires table { IsTable map.old forms.old }
    requires place { HasPlace (a, was) map.old }
    ensures restored { map.new ≡ restored (a, was) map.old }
    ensures table { IsTable map.new forms.new }
{
    match was {
        None => {
            let _ = remove_in(map, forms, a);
        }
        Some(c) => {
            let _ = put_in(map, forms, a, c);
        }
    }
}
