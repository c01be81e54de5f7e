//! What the addresses of a range show.
ghost use Rattle.std.specs.Prelude.{◌≡◌, ◌≤◌, ◌*◌, ℕ, length, map, IfOk, OnOk, IsSome};
ghost use Rattle.gl_calculus.specs.Grid.Grid.{extents};
ghost use Rattle.gl_protocol.specs.Scripts.Commands as C;
ghost use Rattle.gl_value.specs.Made.{shown_tree};
ghost use Rattle.gl_run.specs.Replies.{AreShownIn, IsRowShown, IsShownIn, RepliesBy};

use gl_calc::Calc;
use gl_plane::{Addr, NoMemory, Range};
use gl_value::Shown;
use gl_views::table;
use std::alloc::Global;

/// What an address shows by the oracle that is held.
pub(crate) fn shown_at(calc: &Calc, a: Addr) -> Result<Shown, NoMemory>
    requires { IsSome calc.now.held }
    ensures { IfOk result (λ x. IsShownIn calc.now a (shown_tree x)) }
{
    match calc.shown(a) {
        Ok(Some(shown)) => Ok(shown),
        Ok(None) => unreachable!(),
        Err(NoMemory) => Err(NoMemory),
    }
}

/// The table of what a range shows.
pub(crate) fn view(alloc: Global, calc: &Calc, range: &Range) -> Result<Vec<u8>, NoMemory>
    requires { IsSome calc.now.held }
    ensures { IfOk result (λ reply.
        (rounds : ℕ) → RepliesBy calc.now rounds (C.Request.View range.now) reply.items) }
{
    let rows = range.last().row() + 1 - range.first().row();
    let cols = range.last().col() + 1 - range.first().col();
    let items = shown_in(alloc, calc, range)?;
    let text = table(alloc, rows, cols, &items)?;
    Ok(text.into_bytes())
}

/// What the addresses of a range show, in row-major order.
fn shown_in(alloc: Global, calc: &Calc, range: &Range) -> Result<Vec<Shown>, NoMemory>
    requires { IsSome calc.now.held }
    ensures count { IfOk result (λ v.
        length v.items ≡ (extents range.now).rows * (extents range.now).cols) }
    ensures shown { IfOk result (λ v. AreShownIn calc.now range.now (map shown_tree v.items)) }
{
    let mut items = Vec::new(alloc);
    for row in range.first().row()..range.last().row() + 1 {
        push_row(calc, range, row, &mut items)?;
    }
    Ok(items)
}

/// Appends what the addresses of a row of the range show.
fn push_row(calc: &Calc, range: &Range, row: u16, items: &mut Vec<Shown>) -> Result<(), NoMemory>
    requires held { IsSome calc.now.held }
    requires top { range.now.first.row ≤ row }
    requires bottom { row ≤ range.now.last.row }
    ensures { OnOk result (
        IsRowShown calc.now range.now row (map shown_tree items.old.items)
        (map shown_tree items.new.items)) }
{
    for col in range.first().col()..range.last().col() + 1 {
        items.push(shown_at(calc, Addr { row, col })?)?;
    }
    Ok(())
}
