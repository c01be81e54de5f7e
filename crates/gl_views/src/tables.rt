//! Tables of shown values.
ghost use Rattle.std.specs.Prelude.{◌≡◌, ◌<◌, ◌++◌, ◌*◌, ◌∷◌, [], length, map, replicate, IfOk};
ghost use Rattle.std.specs.Prelude.{OnOk, if◌then◌else◌};
ghost use Rattle.std.specs.{Str.chars, String.string_bytes};
ghost use Rattle.gl_value.specs.Made.{shown_tree};
ghost use Rattle.gl_protocol.specs.Replies.Tables.{cell_text, right_aligned, wider, widths};
ghost use Rattle.gl_protocol.specs.Replies.Tables.{table_text};
ghost use Rattle.gl_views.specs.Cells.{cell_of, texts_of, rows_of, line_of};
ghost use Rattle.gl_views.specs.Rows.{in_rows};

use crate::values::shown_text;
use gl_ast::put;
use gl_plane::NoMemory;
use gl_value::Shown;
use std::alloc::Global;

/// The most characters of a cell's text.
const MAX_WIDTH: usize = 24;

/// A line for each row of the items, which are in row-major order. Each column is as wide, in
/// characters, as its widest cell text; the texts are right aligned, with a space between columns.
/// A text of more than 24 characters is cut to 23 and a `~`.
pub fn table(alloc: Global, rows: u16, cols: u16, items: &[Shown]) -> Result<String, NoMemory>
    requires { length items.now ≡ rows * cols }
    ensures { IfOk result (λ s.
        string_bytes s ≡ table_text cols (in_rows rows cols (map shown_tree items.now))) }
{
    let texts = cell_rows(alloc, rows, cols, items)?;
    let widths = column_widths(alloc, cols, &texts)?;
    let mut out = String::new(alloc);
    for row in &texts {
        put_line(&mut out, &widths, row)?;
    }
    Ok(out)
}

/// The cell texts, row by row.
fn cell_rows(
    alloc: Global,
    rows: u16,
    cols: u16,
    items: &[Shown],
) -> Result<Vec<Vec<String>>, NoMemory>
    requires { length items.now ≡ rows * cols }
    ensures { IfOk result (λ v.
        rows_of v.items ≡ map (map cell_of) (in_rows rows cols (map shown_tree items.now))) }
{
    let mut texts = Vec::new(alloc);
    let mut left = items;
    for _i in 0..rows {
        let (row, rest) = left.split_at(usize::from(cols));
        texts.push(row_cells(alloc, row)?)?;
        left = rest;
    }
    Ok(texts)
}

/// The cell texts of a row.
fn row_cells(alloc: Global, row: &[Shown]) -> Result<Vec<String>, NoMemory>
    ensures { IfOk result (λ v. texts_of v.items ≡ map cell_of (map shown_tree row.now)) }
{
    let mut texts = Vec::new(alloc);
    for x in row {
        texts.push(cell(alloc, x)?)?;
    }
    Ok(texts)
}

fn cell(alloc: Global, x: &Shown) -> Result<String, NoMemory>
    ensures { IfOk result (λ s. string_bytes s ≡ cell_of (shown_tree x.now)) }
{
    let text = shown_text(alloc, x)?;
    if width(&text) <= MAX_WIDTH {
        return Ok(text);
    }
    cut(alloc, &text)
}

/// The first 23 characters and a `~`.
fn cut(alloc: Global, text: &str) -> Result<String, NoMemory>
    requires { 24 < length (chars text.now) }
    ensures { IfOk result (λ s. string_bytes s ≡ cell_text text.now) }
{
    let mut out: String = text.chars().take(MAX_WIDTH - 1).collect(alloc)?;
    out.push('~')?;
    Ok(out)
}

/// How many characters a text has.
fn width(text: &str) -> usize
    ensures { result ≡ length (chars text.now) }
{
    text.chars().count()
}

/// The width of each column.
fn column_widths(alloc: Global, cols: u16, rows: &[Vec<String>]) -> Result<Vec<usize>, NoMemory>
    ensures { IfOk result (λ v. v.items ≡ widths (replicate cols 0) (rows_of rows.now)) }
{
    let mut widths = vec![in alloc; 0usize; usize::from(cols)]?;
    for row in rows {
        widen(&mut widths, row);
    }
    Ok(widths)
}

/// Raises the width of each column to that of the row's cell.
fn widen(widths: &mut [usize], row: &[String])
    ensures { widths.new ≡ wider widths.old (texts_of row.now) }
{
    for i in 0..widths.len().min(row.len()) {
        widths[i] = widths[i].max(width(&row[i]));
    }
}

fn put_line(out: &mut String, widths: &[usize], row: &[String]) -> Result<(), NoMemory>
    ensures { OnOk result (
        string_bytes out.new ≡ string_bytes out.old ++ line_of widths.now (texts_of row.now)) }
{
    let mut more = false;
    for (width, text) in widths.iter().zip(row) {
        put_space(out, more)?;
        put_aligned(out, *width, text)?;
        more = true;
    }
    put(out, "\n")?;
    Ok(())
}

/// The space in front of a cell that isn't the first.
fn put_space(out: &mut String, more: bool) -> Result<(), NoMemory>
    ensures { OnOk result (
        string_bytes out.new ≡ string_bytes out.old ++ (if more then 32 ∷ [] else [])) }
{
    if more {
        out.push_str(" ")?;
    }
    Ok(())
}

/// A text with spaces in front, so many that it has the width.
fn put_aligned(out: &mut String, wide: usize, text: &str) -> Result<(), NoMemory>
    ensures { OnOk result (
        string_bytes out.new ≡ string_bytes out.old ++ right_aligned wide text.now) }
{
    for _i in width(text)..wide {
        put(out, " ")?;
    }
    put(out, text)?;
    Ok(())
}
