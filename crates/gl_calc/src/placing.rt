//! The addresses of the formulas, from one calculation to the next.
ghost use Rattle.std.specs.Prelude.{◌≡◌, ◌<◌, ◌≤◌, not, length, filter, IfOk, IfSome};
ghost use Rattle.std.specs.Prelude.{if◌then◌else◌};
ghost use Rattle.std.specs.List.{insert, remove};
ghost use Rattle.gl_calculus.specs.Grid.Grid.{covers};
ghost use Rattle.gl_calculus.specs.Formulas.Formula.{Cells as Sheet, Content as Plain};
ghost use Rattle.gl_calculus.specs.Formulas.Formula.{IsSheet, formula_addresses};
ghost use Rattle.gl_calculus.specs.Edits.Sheets.{with_content, with_contents, without};
ghost use Rattle.gl_cells.specs.{Content.is_formula, Sheet.sheet};
ghost use Rattle.gl_calc.specs.Places.{ArePlaces};

use gl_cells::{Cells, Content};
use gl_plane::{Addr, NoMemory, Range};
use std::alloc::Global;

/// So many edits bring the addresses up to date. Behind more of them it is quicker to find the
/// addresses anew.
const FEW: usize = 16;

/// The addresses that are known, where few were touched since the latest calculation.
pub fn while_few(places: Option<Vec<Addr>>, touched: usize) -> Option<Vec<Addr>>
    ensures { (S : Sheet) → ArePlaces S places → ArePlaces S result }
{
    if touched <= FEW { places } else { None }
}

/// The addresses of the formulas: those that are known, else as they are found in the sheet.
pub fn known_places(
    alloc: Global,
    cells: &Cells,
    places: Option<Vec<Addr>>,
) -> Result<Vec<Addr>, NoMemory>
    requires { ArePlaces (sheet cells.now) places }
    ensures { IfOk result (λ v. v.items ≡ formula_addresses (sheet cells.now)) }
{
    match places {
        Some(places) => Ok(places),
        None => cells.formula_addresses(alloc),
    }
}

/// The addresses where one was found at a place: it stays exactly where it is a formula's.
fn found_place(places: Vec<Addr>, at: usize, formula: bool) -> Vec<Addr>
    requires { at < length places.items }
    ensures { result.items ≡ (if formula then places.items else remove places.items at) }
{
    let mut places = places;
    if !formula {
        places.remove(at);
    }
    places
}

/// The addresses with one more at a place where it is a formula's, if there is memory for it.
fn new_place(places: Vec<Addr>, at: usize, a: Addr, formula: bool) -> Option<Vec<Addr>>
    requires { at ≤ length places.items }
    ensures { IfSome result
        (λ v. v.items ≡ (if formula then insert places.items at a else places.items)) }
{
    let mut places = places;
    if formula {
        let Ok(()) = places.insert(at, a) else {
            return None;
        };
    }
    Some(places)
}

/// The addresses, with one of them exactly where it is a formula's, if there is memory for it.
fn put_place(places: Vec<Addr>, a: Addr, formula: bool) -> Option<Vec<Addr>>
    ensures { (S : Sheet) (c : Plain)
        → IsSheet S
        → formula ≡ is_formula c
        → places.items ≡ formula_addresses S
        → ArePlaces (with_content S a c) result }
{
    match places.binary_search(&a) {
        Ok(at) => Some(found_place(places, at, formula)),
        Err(at) => new_place(places, at, a, formula),
    }
}

/// The addresses after a content was put at one, a formula or not, where they were known before.
pub fn places_with(places: Option<Vec<Addr>>, a: Addr, formula: bool) -> Option<Vec<Addr>>
    ensures { (S : Sheet) (c : Plain)
        → IsSheet S
        → formula ≡ is_formula c
        → ArePlaces S places
        → ArePlaces (with_content S a c) result }
{
    match places {
        Some(places) => put_place(places, a, formula),
        None => None,
    }
}

/// The addresses after all contents were put in turn, where they were known before.
pub fn places_with_all(places: Option<Vec<Addr>>, list: &[(Addr, Content)]) -> Option<Vec<Addr>>
    ensures { (S : Sheet)
        → IsSheet S
        → ArePlaces S places
        → ArePlaces (with_contents S (sheet list.now)) result }
{
    let mut places = places;
    for (a, content) in list {
        places = places_with(places, *a, content.is_formula());
    }
    places
}

/// The addresses outside a range.
fn outside(places: Vec<Addr>, r: &Range) -> Vec<Addr>
    ensures { result.items ≡ filter (λ a. not (covers r.now a)) places.items }
{
    let mut places = places;
    places.retain(|a| !r.covers(*a));
    places
}

/// The addresses after the contents of a range were removed, where they were known before.
pub fn places_without(places: Option<Vec<Addr>>, r: &Range) -> Option<Vec<Addr>>
    ensures { (S : Sheet) → ArePlaces S places → ArePlaces (without S r.now) result }
{
    match places {
        Some(places) => Some(outside(places, r)),
        None => None,
    }
}
