//! The texts of values and contents.
ghost use Rattle.std.specs.Prelude.{◌≡◌, ◌++◌, IfOk, OnOk};
ghost use Rattle.std.specs.String.{string_bytes};
ghost use Rattle.gl_language.specs.Texts.Text as text;
ghost use Rattle.gl_cells.specs.Content.{content_tree};
ghost use Rattle.gl_value.specs.{Made.shown_tree, View.error_tree, View.scalar_tree};

use gl_ast::{print, put, put_int, put_literal, put_range, put_truth};
use gl_cells::Content;
use gl_plane::NoMemory;
use gl_value::{ErrKind, Scalar, Shown};
use std::alloc::Global;

/// What an address shows: `.` for a blank, a number in decimal, `TRUE` or `FALSE`, a text as a
/// literal, the name of an error, `sheet(A1:B3)` with the corners of the region, or `#CYCLE!`.
pub fn shown_text(alloc: Global, x: &Shown) -> Result<String, NoMemory>
    ensures { IfOk result (λ s. string_bytes s ≡ text.shown_text (shown_tree x.now)) }
{
    let mut out = String::new(alloc);
    put_shown(alloc, &mut out, x)?;
    Ok(out)
}

/// A constant as it is shown, or `=` and the canonical text of a formula.
pub fn content_text(alloc: Global, c: &Content) -> Result<String, NoMemory>
    ensures { IfOk result (λ s. string_bytes s ≡ text.content_text (content_tree c.now)) }
{
    let mut out = String::new(alloc);
    put_content(alloc, &mut out, c)?;
    Ok(out)
}

fn put_shown(alloc: Global, out: &mut String, x: &Shown) -> Result<(), NoMemory>
    ensures { OnOk result (
        string_bytes out.new ≡ string_bytes out.old ++ text.shown_text (shown_tree x.now)) }
{
    match x {
        Shown::Cycle => put(out, "#CYCLE!"),
        Shown::Value(value) => put_scalar(alloc, out, value),
    }
}

fn put_content(alloc: Global, out: &mut String, c: &Content) -> Result<(), NoMemory>
    ensures { OnOk result (
        string_bytes out.new ≡ string_bytes out.old ++ text.content_text (content_tree c.now)) }
{
    match c {
        Content::Const(x) => put_scalar(alloc, out, x),
        Content::Form(f) => {
            let canonical = print(alloc, f)?;
            put(out, "=")?;
            put(out, canonical.as_str())
        }
    }
}

#[tactic(auto, using(gl_value::specs::Forms::trees))]
fn put_scalar(alloc: Global, out: &mut String, x: &Scalar) -> Result<(), NoMemory>
    ensures { OnOk result (
        string_bytes out.new ≡ string_bytes out.old ++ text.scalar_text (scalar_tree x.now)) }
{
    match x {
        Scalar::Blank => put(out, "."),
        Scalar::Int(n) => put_int(alloc, out, *n),
        Scalar::Bool(b) => put_truth(out, *b),
        Scalar::Text(t) => put_literal(out, t),
        Scalar::Err(kind) => put(out, error_name(*kind)),
        Scalar::Sheet(sheet) => {
            put(out, "sheet(")?;
            put_range(alloc, out, sheet.region)?;
            put(out, ")")
        }
    }
}

fn error_name(kind: ErrKind) -> &'static str
    ensures { result.now ≡ text.error_text (error_tree kind) }
{
    match kind {
        ErrKind::Ref => "#REF!",
        ErrKind::Value => "#VALUE!",
        ErrKind::Div0 => "#DIV/0!",
        ErrKind::Num => "#NUM!",
        ErrKind::Na => "#N/A",
        ErrKind::Spill => "#SPILL!",
        ErrKind::Size => "#SIZE!",
    }
}
