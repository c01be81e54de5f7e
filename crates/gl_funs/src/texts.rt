//! LEN, LEFT and RIGHT, by characters, which are Unicode scalar values.
ghost use Rattle.std.specs.Prelude.{◌≡◌, ◌≤◌, ◌<◌, ◌^◌, IsTrue, IfOk, take, length, chars};
ghost use Rattle.std.specs.Prelude.{encode_utf8_all, string_bytes};
ghost use Rattle.std.specs.{Fmt.decimal, Fmt.signed_decimal, Rc.rc_str_bytes};
ghost use Rattle.gl_calculus.specs.Grid.Limits.{max_text};
ghost use Rattle.gl_calculus.specs.Evaluation.Sound.{is_sound_scalar};
ghost use Rattle.gl_calculus.specs.Values.Functions as F;
ghost use Rattle.gl_calculus.specs.Values.Operators as O;
ghost use Rattle.gl_value.specs.View.{scalar_tree};
ghost use Rattle.gl_funs.specs.{Rules.cut, Rules.natural, Rules.part_text, Rules.KeepsSound};

use gl_plane::NoMemory;
use gl_scalar::operands::{amount, fault};
use gl_value::{ErrKind, Scalar};
use std::alloc::Global;
use std::rc::RcStr;

/// How many characters the plain text of a scalar has. An error passes, and a sheet value gives
/// `#VALUE!`.
pub fn len(x: &Scalar) -> Scalar
    ensures value { scalar_tree result ≡ F.text_length (scalar_tree x.now) }
    ensures sound { IsTrue (is_sound_scalar (scalar_tree result)) }
{
    match x {
        Scalar::Blank => Scalar::Int(0),
        Scalar::Int(n) => Scalar::Int(i64::from(decimal_len(*n))),
        Scalar::Bool(true) => Scalar::Int(4),
        Scalar::Bool(false) => Scalar::Int(5),
        Scalar::Text(t) => Scalar::Int(characters(t.as_str()) as i64),
        Scalar::Err(kind) => Scalar::Err(*kind),
        Scalar::Sheet(_) => Scalar::Err(ErrKind::Value),
    }
}

/// How many characters a number has in decimal, with its sign.
fn decimal_len(n: i64) -> u32
    ensures { result ≡ length (signed_decimal n) }
{
    let digits = digits(n.unsigned_abs());
    if n < 0 { digits + 1 } else { digits }
}

/// How many digits a number has.
fn digits(n: u64) -> u32
    ensures digits { result ≡ length (decimal n) }
    ensures few { result ≤ 20 }
{
    match n.checked_ilog10() {
        Some(power) => power + 1,
        None => 1,
    }
}

/// Which characters of a text are meant.
#[derive(Clone, Copy)]
enum Side {
    First,
    Last,
}

/// The first characters of the plain text of a scalar, all where it has fewer.
///
/// An error of the first operand is the result, else one of the second. A sheet value, or a second
/// operand that is no number or is negative, gives `#VALUE!`; a blank counts as 0.
pub fn left(alloc: Global, x: &Scalar, n: &Scalar) -> Result<Scalar, NoMemory>
    ensures value { IfOk result (λ z.
        scalar_tree z ≡ F.text_part take (scalar_tree x.now) (scalar_tree n.now)) }
    ensures sound { KeepsSound x.now result }
{
    side_of(alloc, Side::First, x, n)
}

/// The last characters of the plain text of a scalar, all where it has fewer. Errors are those of
/// `left`.
pub fn right(alloc: Global, x: &Scalar, n: &Scalar) -> Result<Scalar, NoMemory>
    ensures value { IfOk result (λ z.
        scalar_tree z ≡ F.text_part F.take_last (scalar_tree x.now) (scalar_tree n.now)) }
    ensures sound { KeepsSound x.now result }
{
    side_of(alloc, Side::Last, x, n)
}

/// The first or the last characters of the plain text of a scalar, by a number of them.
fn side_of(alloc: Global, side: Side, x: &Scalar, n: &Scalar) -> Result<Scalar, NoMemory>
    ensures value { IfOk result (λ z.
        scalar_tree z ≡ F.text_part (cut side) (scalar_tree x.now) (scalar_tree n.now)) }
    ensures sound { KeepsSound x.now result }
{
    if let Some(kind) = fault(x, n) {
        return Ok(Scalar::Err(kind));
    }
    match natural(n) {
        Some(n) => part(alloc, side, x, n),
        None => Ok(Scalar::Err(ErrKind::Value)),
    }
}

/// The number of an operand, where it has one that is not negative.
fn natural(n: &Scalar) -> Option<usize>
    ensures { result ≡ natural (O.amount (scalar_tree n.now)) }
{
    match amount(n) {
        Some(n) => usize::try_from(n).ok(),
        None => None,
    }
}

/// So many of the first or the last characters of the plain text of a scalar.
fn part(alloc: Global, side: Side, x: &Scalar, n: usize) -> Result<Scalar, NoMemory>
    ensures value { IfOk result (λ z. scalar_tree z ≡ part_text (cut side n) (scalar_tree x.now)) }
    ensures sound { KeepsSound x.now result }
{
    let text = plain(alloc, x)?;
    let part = cut(alloc, side, text.as_str(), n)?;
    Ok(Scalar::Text(RcStr::from_string(part)?))
}

/// So many of the first or the last characters of a text.
fn cut(alloc: Global, side: Side, text: &str, n: usize) -> Result<String, NoMemory>
    ensures { IfOk result (λ s. string_bytes s ≡ encode_utf8_all (cut side n (chars text.now))) }
{
    match side {
        Side::First => first(alloc, text, n),
        Side::Last => last(alloc, text, n),
    }
}

/// The first characters of a text.
fn first(alloc: Global, text: &str, n: usize) -> Result<String, NoMemory>
    ensures { IfOk result (λ s. string_bytes s ≡ encode_utf8_all (take n (chars text.now))) }
{
    let part: String = text.chars().take(n).collect(alloc)?;
    Ok(part)
}

/// The last characters of a text.
fn last(alloc: Global, text: &str, n: usize) -> Result<String, NoMemory>
    ensures { IfOk result (λ s. string_bytes s ≡ encode_utf8_all (F.take_last n (chars text.now))) }
{
    let others = characters(text).saturating_sub(n);
    let part: String = text.chars().skip(others).collect(alloc)?;
    Ok(part)
}

/// How many characters a text has.
fn characters(text: &str) -> usize
    ensures count { result ≡ length (chars text.now) }
    ensures few { result < 2 ^ 63 }
{
    text.chars().count()
}

/// The plain text of a scalar, which is empty where it has none.
fn plain(alloc: Global, x: &Scalar) -> Result<RcStr, NoMemory>
    ensures value { IfOk result (λ t. rc_str_bytes t ≡ O.plain (scalar_tree x.now)) }
    ensures sound { IsTrue (is_sound_scalar (scalar_tree x.now))
        → IfOk result (λ t. length (rc_str_bytes t) ≤ max_text) }
{
    match x {
        Scalar::Int(n) => integer_text(alloc, *n),
        Scalar::Bool(true) => Ok(RcStr::from_str(alloc, "TRUE")?),
        Scalar::Bool(false) => Ok(RcStr::from_str(alloc, "FALSE")?),
        Scalar::Text(t) => Ok(t.clone()?),
        _ => Ok(RcStr::from_str(alloc, "")?),
    }
}

/// A number in decimal.
fn integer_text(alloc: Global, n: i64) -> Result<RcStr, NoMemory>
    ensures value { IfOk result (λ t. rc_str_bytes t ≡ signed_decimal n) }
    ensures short { IfOk result (λ t. length (rc_str_bytes t) ≤ max_text) }
{
    Ok(RcStr::from_string(n.to_string(alloc)?)?)
}
