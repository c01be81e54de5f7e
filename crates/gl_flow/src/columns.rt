//! The last of the areas over each address of a column.
ghost use Rattle.std.specs.Prelude.{◌≡◌, ◌≤◌, ◌<◌, ◌+◌, ◌++◌, ℕ, IsTrue, IfOk, OnOk, length};
ghost use Rattle.std.specs.Prelude.{slice_get};
ghost use Rattle.gl_calculus.specs.Grid.Limits.{grid_rows, max_formulas};
ghost use Rattle.gl_graph.specs.Search.{last_of, passes};
ghost use Rattle.gl_flow.specs.Columns.{AreRooted, IsColumn, IsStack, IsDown, IsGreatest, AreAbove};
ghost use Rattle.gl_flow.specs.Columns.{AreBelow, has_ended, new_over, is_in_row, one_more};
ghost use Rattle.gl_flow.specs.Places.{are_in_order};

use crate::boxes::Area;
use gl_plane::{Addr, NoMemory};
use std::alloc::Global;

/// The area of this number ends above the row.
fn has_ended(areas: &[Option<Area>], k: u16, row: u16) -> bool
    ensures { result ≡ has_ended row (slice_get areas.now k) }
{
    match areas.get(k as usize) {
        Some(Some(area)) => area.bottom < u32::from(row),
        Some(None) => true,
        None => true,
    }
}

/// The last one does.
fn is_behind(stack: &Vec<u16>, areas: &[Option<Area>], row: u16) -> bool
    ensures { result
        ≡ passes (λ k. has_ended row (slice_get areas.now k)) (last_of stack.now.items) }
{
    match stack.last() {
        Some(k) => has_ended(areas, *k, row),
        None => false,
    }
}

/// Drops the last ones that end above the row.
fn cut(stack: &mut Vec<u16>, areas: &[Option<Area>], row: u16)
    ensures stack { (column next : ℕ)
        → IsStack areas.now column row next stack.old.items
        → IsStack areas.now column row next stack.new.items }
    ensures top { (column next : ℕ)
        → IsStack areas.now column row next stack.old.items
        → IsGreatest (IsDown areas.now column row next) (one_more (last_of stack.new.items)) }
{
    while is_behind(stack, areas, row) {
        let _ = stack.pop();
    }
}

/// One more than the last number, or 0.
fn top(stack: &Vec<u16>) -> u16
    requires { one_more (last_of stack.now.items) ≤ max_formulas }
    ensures { result ≡ one_more (last_of stack.now.items) }
{
    match stack.last() {
        Some(k) => *k + 1,
        None => 0,
    }
}

/// Puts this formula cell on the stack, where its area lies over the column.
fn cover(
    stack: &mut Vec<u16>,
    areas: &[Option<Area>],
    column: u16,
    k: usize,
) -> Result<(), NoMemory>
    requires { k ≤ max_formulas }
    ensures { OnOk result (
        stack.new.items ≡ stack.old.items ++ new_over column k (slice_get areas.now k)) }
{
    match areas.get(k) {
        Some(Some(area)) => {
            if area.left <= u32::from(column) && u32::from(column) <= area.right {
                stack.push(k as u16)?;
            }
            Ok(())
        }
        Some(None) => Ok(()),
        None => Ok(()),
    }
}

/// A formula cell stands there, not below the row.
fn is_in_row(places: &[Addr], k: usize, row: u16) -> bool
    ensures { result ≡ is_in_row row (slice_get places.now k) }
{
    match places.get(k) {
        Some(a) => a.row() <= row,
        None => false,
    }
}

/// Puts the formula cells of a row on the stack, from this number on, and answers the next number.
fn enter(
    stack: &mut Vec<u16>,
    places: &[Addr],
    areas: &[Option<Area>],
    column: u16,
    row: u16,
    from: usize,
) -> Result<usize, NoMemory>
    requires few { length places.now ≤ max_formulas }
    requires ordered { IsTrue (are_in_order places.now) }
    requires above { AreAbove places.now row from }
    requires stack { IsStack areas.now column row from stack.old.items }
    ensures above { IfOk result (λ next. AreAbove places.now (row + 1) next) }
    ensures below { IfOk result (λ next. AreBelow places.now row next) }
    ensures stack { IfOk result (λ next. IsStack areas.now column row next stack.new.items) }
{
    let mut next = from;
    while is_in_row(places, next, row) {
        cover(stack, areas, column, next)?;
        next += 1;
    }
    Ok(next)
}

/// The last area over each of so many rows of a column.
pub fn column_of(
    alloc: Global,
    places: &[Addr],
    areas: &[Option<Area>],
    column: u16,
    rows: u16,
) -> Result<Vec<u16>, NoMemory>
    requires few { length places.now ≤ max_formulas }
    requires ordered { IsTrue (are_in_order places.now) }
    requires rooted { AreRooted places.now areas.now }
    requires rows { rows ≤ grid_rows }
    ensures { IfOk result (λ v. IsColumn areas.now column rows v.items) }
{
    let mut numbers = Vec::new(alloc);
    let mut stack = Vec::new(alloc);
    let mut next = 0;
    for row in 1..rows + 1 {
        next = enter(&mut stack, places, areas, column, row, next)?;
        cut(&mut stack, areas, row);
        numbers.push(top(&stack))?;
    }
    Ok(numbers)
}
