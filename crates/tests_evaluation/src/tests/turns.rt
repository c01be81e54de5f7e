//! Evaluations of a key, once, and after all that it needs.
ghost use Rattle.std.specs.Prelude.{IfOk};
ghost use Rattle.gl_demand.specs.{Sound.IsSoundFound, View.key_tree, View.found_tree};

use crate::tests::table::Table;
use gl_ast::Version;
use gl_cells::Cells;
use gl_demand::{Evaluator, Found, Key, Silent, Steps, Turn, Watch, proper, step};
use gl_plane::Oracle;
use gl_value::Env;
use std::alloc::Global;
use std::test::Fail;
use tests_common::address;

/// The key of a cell of the sheet.
pub fn cell(name: &str) -> Result<Key, Fail> {
    Ok(Key::Cell(Env::Top, address(name)?))
}

/// The keys of these cells.
pub fn cells_at(alloc: Global, names: &[&str]) -> Result<Vec<Key>, Fail> {
    let mut keys = Vec::new(alloc);
    for name in names {
        keys.push(cell(name)?)?;
    }
    Ok(keys)
}

/// What keys of a sheet are evaluated by under an oracle, in version 1.
pub fn evaluator_of<'a>(alloc: Global, cells: &'a Cells, w: &'a Oracle) -> Evaluator<'a> {
    Evaluator {
        alloc,
        cells,
        oracle: w,
        version: Version::One,
    }
}

/// One evaluation against what the table tells.
pub fn turn<L: Watch>(
    at: &Evaluator<'_>,
    key: &Key,
    table: &Table,
    steps: &mut Steps<L>,
) -> Result<Turn, Fail>
    ensures { IfOk result (λ t. IsSoundFound (key_tree key.now) (found_tree t.found)) }
{
    if !key.is_sound() {
        return Err("not sound".into());
    }
    if !proper(at.cells, key) {
        return Err("not proper".into());
    }
    match step(at.alloc, at.cells, at.oracle, key, table, at.version, steps) {
        Ok(turn) => Ok(turn),
        Err(e) => Err(e.into()),
    }
}

/// Evaluates a key once: its outcome is told, or the key comes back with the one that it needs.
fn evaluate_once(
    at: &Evaluator<'_>,
    key: Key,
    table: &mut Table,
) -> Result<Option<(Key, Key)>, Fail> {
    let Turn { found, .. } = turn(at, &key, table, &mut Steps::new(Silent))?;
    match found {
        Found::Ready(outcome) => {
            table.tell(key, outcome)?;
            Ok(None)
        }
        Found::Need(need) => Ok(Some((key, need))),
    }
}

/// Evaluates a key and all that it needs. Whether it got its outcome: else a key needs itself.
fn evaluate_all(at: &Evaluator<'_>, key: Key, table: &mut Table) -> Result<bool, Fail> {
    let mut waiting = Vec::new(at.alloc);
    waiting.push(key)?;
    for _ in 0..1000 {
        let Some(key) = waiting.pop() else {
            return Ok(true);
        };
        if let Some((key, need)) = evaluate_once(at, key, table)? {
            waiting.push(key)?;
            if waiting.contains(&need) {
                return Ok(false);
            }
            waiting.push(need)?;
        }
    }
    Err("too many evaluations".into())
}

/// The first evaluation of a key, where nothing is known.
pub fn first_turn(at: &Evaluator<'_>, key: &Key) -> Result<Turn, Fail> {
    turn(at, key, &Table::new(at.alloc), &mut Steps::new(Silent))
}

/// The last evaluation of a cell, where all that it needs is known: `None` where a key needs itself.
pub fn last_turn(at: &Evaluator<'_>, name: &str) -> Result<Option<Turn>, Fail> {
    let mut table = Table::new(at.alloc);
    if !evaluate_all(at, cell(name)?, &mut table)? {
        return Ok(None);
    }
    Ok(Some(turn(at, &cell(name)?, &table, &mut Steps::new(Silent))?))
}

/// The last evaluation of a cell of a sheet under an oracle, in version 1.
pub fn turn_under(alloc: Global, cells: &Cells, w: &Oracle, name: &str) -> Result<Turn, Fail> {
    match last_turn(&evaluator_of(alloc, cells, w), name)? {
        Some(turn) => Ok(turn),
        None => Err("a cycle".into()),
    }
}
