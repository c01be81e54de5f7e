//! What stands in formulas: the ranges that they read, and `a#`.
ghost use Rattle.std.specs.Prelude.{◌≡◌, ◌≤◌, ◌++◌, ◌∷◌, [], map, IfOk, OnOk};
ghost use Rattle.gl_calculus.specs.Formulas.Formula.{content};
ghost use Rattle.gl_calculus.specs.Grid.Limits.{grid_rows};
ghost use Rattle.gl_cells.specs.Sheet.{sheet};
ghost use Rattle.gl_ast.specs.View.{formula_tree, argument_trees, operand_trees};
ghost use Rattle.gl_calculus.specs.Forecast as Fo;
ghost use Rattle.gl_flow.specs.Pieces.{piece_tree, piece_trees, piece_lists, pieces_in};
ghost use Rattle.gl_flow.specs.Pieces.{without_calls, piece_last, last_read, rows_read, IsRead};
ghost use Rattle.gl_flow.specs.Pieces.{IsReadPiece, AreReadPieces, AreRead};
ghost use Rattle.gl_flow.specs.Contents.{formula_in};

use crate::contents::formula_at;
use gl_ast::{Formula, Op};
use gl_cells::Cells;
use gl_plane::{Addr, NoMemory, Range};
use std::alloc::Global;

/// A range or an address that is read, or `a#`.
#[derive(Clone, Copy)]
pub enum Piece {
    Reads(Range),
    Spills(Addr),
}

/// Appends what stands in a formula.
#[cycle(pieces)]
#[tactic(auto, using(gl_ast::specs::Forms::trees, crate::proofs::Parts::pieces_then, crate::proofs::Parts::pieces_none))]
fn pieces(list: &mut Vec<Piece>, f: &Formula) -> Result<(), NoMemory>
    ensures { OnOk result (
        piece_trees list.new.items
        ≡ piece_trees list.old.items ++ without_calls (Fo.pieces (formula_tree f.now))) }
{
    match f {
        Formula::Int(_) => Ok(()),
        Formula::Text(_) => Ok(()),
        Formula::Bool(_) => Ok(()),
        Formula::Var(_) => Ok(()),
        Formula::At(a) => push(list, Piece::Reads(Range::new(*a, *a))),
        Formula::Spill(a) => push(list, Piece::Spills(*a)),
        Formula::Area(r) => push(list, Piece::Reads(*r)),
        Formula::Neg(g) => pieces(list, g),
        Formula::Chain(_, g, rest) => {
            pieces(list, g)?;
            operands(list, rest)?;
            Ok(())
        }
        Formula::Compare(_, g, h) => {
            pieces(list, g)?;
            pieces(list, h)?;
            Ok(())
        }
        Formula::Call(_, xs) => arguments(list, xs),
        Formula::Let(_, g, body) => {
            pieces(list, g)?;
            pieces(list, body)?;
            Ok(())
        }
    }
}

fn push(list: &mut Vec<Piece>, p: Piece) -> Result<(), NoMemory>
    ensures { OnOk result (
        piece_trees list.new.items ≡ piece_trees list.old.items ++ piece_tree p ∷ []) }
{
    list.push(p)?;
    Ok(())
}

#[cycle(pieces)]
fn arguments(list: &mut Vec<Piece>, xs: &[Formula]) -> Result<(), NoMemory>
    ensures { OnOk result (
        piece_trees list.new.items
        ≡ piece_trees list.old.items ++ without_calls (Fo.all_pieces (argument_trees xs.now))) }
{
    for x in xs {
        pieces(list, x)?;
    }
    Ok(())
}

#[cycle(pieces)]
fn operands(list: &mut Vec<Piece>, xs: &[(Op, Formula)]) -> Result<(), NoMemory>
    ensures { OnOk result (
        piece_trees list.new.items
        ≡ piece_trees list.old.items ++ without_calls (Fo.operand_pieces (operand_trees xs.now))) }
{
    for x in xs {
        pieces(list, &x.1)?;
    }
    Ok(())
}

/// What stands in the formula at an address.
fn pieces_at(alloc: Global, cells: &Cells, a: Addr) -> Result<Vec<Piece>, NoMemory>
    ensures { IfOk result (λ v.
        piece_trees v.items ≡ pieces_in (formula_in (content (sheet cells.now) a))) }
{
    let mut list = Vec::new(alloc);
    match formula_at(cells, a) {
        Some(f) => pieces(&mut list, f)?,
        None => {}
    }
    Ok(list)
}

/// What stands in each formula.
pub fn pieces_of(alloc: Global, cells: &Cells, places: &[Addr]) -> Result<Vec<Vec<Piece>>, NoMemory>
    ensures { IfOk result (λ v.
        piece_lists v.items
        ≡ map (λ a. pieces_in (formula_in (content (sheet cells.now) a))) places.now) }
{
    let mut all = Vec::new(alloc);
    for a in places {
        let list = pieces_at(alloc, cells, *a)?;
        all.push(list)?;
    }
    Ok(all)
}

/// A row behind which nothing is read, and no such row less than it; 0 where nothing is read.
pub fn last_row(all: &[Vec<Piece>]) -> u16
    ensures value { result ≡ rows_read (piece_lists all.now) }
    ensures sound { AreRead (piece_lists all.now) }
    ensures small { result ≤ grid_rows }
{
    let mut row = 0;
    for list in all {
        row = row.max(formula_row(list));
    }
    row
}

/// The last row that a formula reads, or 0.
fn formula_row(list: &[Piece]) -> u16
    ensures value { result ≡ last_read (piece_trees list.now) }
    ensures sound { AreReadPieces (piece_trees list.now) }
    ensures small { result ≤ grid_rows }
{
    let mut row = 0;
    for p in list {
        row = row.max(piece_row(p));
    }
    row
}

/// The last row of what is read, or 0.
fn piece_row(p: &Piece) -> u16
    ensures value { result ≡ piece_last (piece_tree p.now) }
    ensures sound { IsReadPiece (piece_tree p.now) }
    ensures small { result ≤ grid_rows }
{
    match p {
        Piece::Reads(r) => range_row(r),
        Piece::Spills(_) => 0,
    }
}

/// The last row of a range.
fn range_row(r: &Range) -> u16
    ensures value { result ≡ r.now.last.row }
    ensures sound { IsRead r.now }
    ensures small { result ≤ grid_rows }
{
    let _first = (r.first().row(), r.first().col());
    let _col = r.last().col();
    r.last().row()
}
