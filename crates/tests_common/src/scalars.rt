//! Scalars that are written as cells show them.
ghost use Rattle.std.specs.Prelude.{IsTrue};
ghost use Rattle.gl_calculus.specs.Evaluation.Sound.{is_sound_value};
ghost use Rattle.gl_value.specs.View.{value_tree};

use crate::addresses::range;
use gl_lex::literal;
use gl_value::{Env, ErrKind, Made, Scalar, Value, sheet};
use std::alloc::Global;
use std::rc::RcStr;
use std::test::Fail;

/// A number as a value.
#[tactic(auto, using(gl_value::specs::Forms::trees))]
pub fn number(n: i64) -> Value
    ensures { IsTrue (is_sound_value (value_tree result)) }
{
    Value::One(Scalar::Int(n))
}

/// A text.
pub fn text(alloc: Global, t: &str) -> Result<Scalar, Fail> {
    Ok(Scalar::Text(RcStr::from_str(alloc, t)?))
}

/// The sheet value of the region `A1:A1`.
pub fn copy(alloc: Global) -> Result<Scalar, Fail> {
    let top = Env::Top;
    if !top.is_sound() {
        return Err(Fail::new("not sound"));
    }
    match sheet(alloc, &top, range("A1:A1")?)? {
        Made::Sheet(s) => Ok(Scalar::Sheet(s)),
        _ => Err(Fail::new("no sheet value")),
    }
}

/// The scalar that a cell shows as this text; `sheet(A1:A1)` is the one sheet value.
pub fn scalar(alloc: Global, shown: &str) -> Result<Scalar, Fail> {
    if let Some(kind) = error(shown) {
        return Ok(Scalar::Err(kind));
    }
    if shown.starts_with('"') {
        return quoted(alloc, shown);
    }
    match shown {
        "." => Ok(Scalar::Blank),
        "TRUE" => Ok(Scalar::Bool(true)),
        "FALSE" => Ok(Scalar::Bool(false)),
        "sheet(A1:A1)" => copy(alloc),
        _ => match shown.parse::<i64>() {
            Ok(n) => Ok(Scalar::Int(n)),
            Err(_) => Err(Fail::new("no scalar")),
        },
    }
}

fn quoted(alloc: Global, shown: &str) -> Result<Scalar, Fail> {
    match literal(alloc, shown) {
        Ok(t) => Ok(Scalar::Text(t)),
        Err(_) => Err(Fail::new("no literal")),
    }
}

fn error(shown: &str) -> Option<ErrKind> {
    match shown {
        "#REF!" => Some(ErrKind::Ref),
        "#VALUE!" => Some(ErrKind::Value),
        "#DIV/0!" => Some(ErrKind::Div0),
        "#NUM!" => Some(ErrKind::Num),
        "#N/A" => Some(ErrKind::Na),
        "#SPILL!" => Some(ErrKind::Spill),
        "#SIZE!" => Some(ErrKind::Size),
        _ => None,
    }
}
