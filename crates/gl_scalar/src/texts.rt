//! Plain texts.
ghost use Rattle.std.specs.Prelude.{◌≡◌, ◌++◌, IsTrue, IfOk, OnOk};
ghost use Rattle.std.specs.{Fmt.signed_decimal, String.string_bytes};
ghost use Rattle.gl_calculus.specs.Evaluation.Sound.{is_sound_scalar};
ghost use Rattle.gl_calculus.specs.Values.Operators as O;
ghost use Rattle.gl_value.specs.View.{scalar_tree};

use gl_plane::NoMemory;
use gl_value::{ErrKind, MAX_TEXT, Scalar};
use std::alloc::Global;
use std::rc::RcStr;

/// The plain texts of two operands as one text.
pub fn joined(alloc: Global, x: &Scalar, y: &Scalar) -> Result<Scalar, NoMemory>
    ensures value { IfOk result (λ z.
        scalar_tree z ≡ O.text (O.plain (scalar_tree x.now) ++ O.plain (scalar_tree y.now))) }
    ensures sound { IfOk result (λ z. IsTrue (is_sound_scalar (scalar_tree z))) }
{
    let mut text = String::new(alloc);
    push_plain(alloc, &mut text, x)?;
    push_plain(alloc, &mut text, y)?;
    limited(text)
}

/// A text within the limit.
#[tactic(auto, using(gl_value::specs::Forms::trees))]
fn limited(text: String) -> Result<Scalar, NoMemory>
    ensures value { IfOk result (λ z. scalar_tree z ≡ O.text (string_bytes text)) }
    ensures sound { IfOk result (λ z. IsTrue (is_sound_scalar (scalar_tree z))) }
{
    if text.len() > MAX_TEXT {
        return Ok(Scalar::Err(ErrKind::Size));
    }
    Ok(Scalar::Text(RcStr::from_string(text)?))
}

/// Appends the plain text of a scalar, where it has one.
#[tactic(auto, using(gl_value::specs::Forms::trees))]
fn push_plain(alloc: Global, out: &mut String, x: &Scalar) -> Result<(), NoMemory>
    ensures { OnOk result (
        string_bytes out.new ≡ string_bytes out.old ++ O.plain (scalar_tree x.now)) }
{
    match x {
        Scalar::Int(n) => push_integer(alloc, out, *n),
        Scalar::Bool(true) => push(out, "TRUE"),
        Scalar::Bool(false) => push(out, "FALSE"),
        Scalar::Text(t) => push(out, t.as_str()),
        _ => Ok(()),
    }
}

/// Appends a number in decimal.
fn push_integer(alloc: Global, out: &mut String, n: i64) -> Result<(), NoMemory>
    ensures { OnOk result (string_bytes out.new ≡ string_bytes out.old ++ signed_decimal n) }
{
    let digits = n.to_string(alloc)?;
    push(out, digits.as_str())
}

/// Appends a text as it is.
fn push(out: &mut String, t: &str) -> Result<(), NoMemory>
    ensures { OnOk result (string_bytes out.new ≡ string_bytes out.old ++ t.now) }
{
    out.push_str(t)?;
    Ok(())
}
