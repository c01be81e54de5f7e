//! The texts of values, each scalar as a cell shows it, and the words for formulas that are refused.
use gl_lex::LexFault;
use gl_parse::ParseFault;
use gl_plane::{NoMemory, Share};
use gl_value::{Array, Scalar, Shown, Value};
use gl_views::shown_text;
use std::alloc::Global;

/// A scalar as a cell shows it.
pub fn scalar_text(alloc: Global, x: &Scalar) -> Result<String, NoMemory> {
    shown_text(alloc, &Shown::Value(x.share()?))
}

/// A scalar, or the elements of an array with a space between columns and ` / ` between rows.
pub fn value_text(alloc: Global, v: &Value) -> Result<String, NoMemory> {
    match v {
        Value::One(x) => scalar_text(alloc, x),
        Value::Array(a) => array_text(alloc, a),
    }
}

fn array_text(alloc: Global, a: &Array) -> Result<String, NoMemory> {
    let mut out = String::new(alloc);
    for row in 0..a.size().rows() {
        if row > 0 {
            out.push_str(" / ")?;
        }
        put_row(alloc, &mut out, a, row)?;
    }
    Ok(out)
}

fn put_row(alloc: Global, out: &mut String, a: &Array, row: u16) -> Result<(), NoMemory> {
    for col in 0..a.size().cols() {
        if col > 0 {
            out.push(' ')?;
        }
        if let Some(x) = a.item(row, col) {
            out.push_str(scalar_text(alloc, x)?.as_str())?;
        }
    }
    Ok(())
}

/// Why a text is no formula, in a word.
pub fn formula_word(fault: &ParseFault) -> &'static str {
    match fault {
        ParseFault::Long => "long",
        ParseFault::Lex(fault) => token_word(fault),
        ParseFault::Deep => "deep",
        ParseFault::Syntax => "syntax",
        ParseFault::Range => "range",
        ParseFault::Name => "name",
        ParseFault::Arity => "arity",
        ParseFault::NoMemory => "no memory",
    }
}

fn token_word(fault: &LexFault) -> &'static str {
    match fault {
        LexFault::Token { at: _ } => "token",
        LexFault::Number { at: _ } => "number",
        LexFault::Text { at: _ } => "text",
        LexFault::NoMemory => "no memory",
    }
}

/// The piece so many times.
pub fn push_times(out: &mut String, piece: &str, count: u32) -> Result<(), NoMemory> {
    for _ in 0..count {
        out.push_str(piece)?;
    }
    Ok(())
}
