//! Columns of formulas that are alike.
use crate::sheets::{put_line, sheet_of};
use gl_ast::{put, put_number};
use gl_cells::Cells;
use gl_plane::NoMemory;
use std::alloc::Global;
use std::test::Fail;

/// The formula of each cell of a column: the same, or with the address of the cell above or below
/// between two texts.
#[derive(Clone, Copy)]
pub enum Form {
    Same(&'static str),
    Above(&'static str, &'static str),
    Below(&'static str, &'static str),
}

/// The cells of a column, from one row to another.
#[derive(Clone, Copy)]
pub struct Column {
    pub name: &'static str,
    pub first: usize,
    pub last: usize,
    pub form: Form,
}

/// These cells of column A.
pub fn first_column(first: usize, last: usize, form: Form) -> Column {
    Column {
        name: "A",
        first,
        last,
        form,
    }
}

/// Writes the address of a cell of a column.
fn put_place(alloc: Global, line: &mut String, name: &str, row: usize) -> Result<(), NoMemory> {
    put(line, name)?;
    put_number(alloc, line, row)
}

/// Writes the formula of a cell of a column.
fn put_form(alloc: Global, line: &mut String, column: &Column, row: usize) -> Result<(), NoMemory> {
    match column.form {
        Form::Same(text) => put(line, text),
        Form::Above(before, behind) => {
            put(line, before)?;
            put_place(alloc, line, column.name, row.saturating_sub(1))?;
            put(line, behind)
        }
        Form::Below(before, behind) => {
            put(line, before)?;
            put_place(alloc, line, column.name, row.saturating_add(1))?;
            put(line, behind)
        }
    }
}

/// Puts the cell of a column in this row.
fn put_cell(alloc: Global, cells: &mut Cells, column: &Column, row: usize) -> Result<(), Fail> {
    let mut line = String::new(alloc);
    put(&mut line, "set ")?;
    put_place(alloc, &mut line, column.name, row)?;
    put(&mut line, " =")?;
    put_form(alloc, &mut line, column, row)?;
    put_line(alloc, cells, line.as_str())
}

/// Puts the cells of a column.
pub fn put_column(alloc: Global, cells: &mut Cells, column: &Column) -> Result<(), Fail> {
    for row in column.first..=column.last {
        put_cell(alloc, cells, column, row)?;
    }
    Ok(())
}

/// The sheet of these lines and a column.
pub fn sheet_with(alloc: Global, lines: &[&str], column: &Column) -> Result<Cells, Fail> {
    let mut cells = sheet_of(alloc, lines)?;
    put_column(alloc, &mut cells, column)?;
    Ok(cells)
}
