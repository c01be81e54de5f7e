//! The scalar of a text that is neither a formula nor a literal.
ghost use Rattle.std.specs.Prelude.{◌≡◌, pos, neg_ℤ, ◌+◌, ◌-◌, ◌*◌, ◌^◌, ◌<◌, ◌≤◌, length, IsTrue};
ghost use Rattle.std.specs.Prelude.{IfOk, SomeIff};
ghost use Rattle.gl_calculus.specs.Formulas.Formula.{Const};
ghost use Rattle.gl_calculus.specs.Grid.Limits.{max_text};
ghost use Rattle.gl_calculus.specs.Values.Operators.{exact};
ghost use Rattle.gl_language.specs.Reading.Content.{IsProperContent};
ghost use Rattle.gl_language.specs.Reading.Token.{is_digit};
ghost use Rattle.gl_language.specs.Texts.Plain.{plain_scalar};
ghost use Rattle.gl_value.specs.View.{scalar_tree};
ghost use Rattle.gl_cells.specs.Plain.{int_of, number_of, digits_number};

use gl_plane::NoMemory;
use gl_value::Scalar;
use std::alloc::Global;
use std::rc::RcStr;

/// The number of a text of digits, with or without a `-`, where it has 64 bits; else the truth
/// value of `TRUE` or `FALSE`; else the text itself. A number may have any length; a text of more
/// than `gl_value::MAX_TEXT` bytes is no proper content, which callers test.
pub fn plain_scalar(alloc: Global, text: &str) -> Result<Scalar, NoMemory>
    ensures value { IfOk result (λ x. scalar_tree x ≡ plain_scalar text.now) }
    ensures proper { IfOk result (λ x.
        length text.now ≤ max_text → IsProperContent (Const (scalar_tree x))) }
{
    match read_number(text.as_bytes()) {
        Some(n) => Ok(Scalar::Int(n)),
        None => word_or_text(alloc, text),
    }
}

/// A text that is no number of 64 bits.
fn word_or_text(alloc: Global, text: &str) -> Result<Scalar, NoMemory>
    requires { number_of text.now ≡ None }
    ensures value { IfOk result (λ x. scalar_tree x ≡ plain_scalar text.now) }
    ensures proper { IfOk result (λ x.
        length text.now ≤ max_text → IsProperContent (Const (scalar_tree x))) }
{
    match text {
        "TRUE" => Ok(Scalar::Bool(true)),
        "FALSE" => Ok(Scalar::Bool(false)),
        _ => Ok(Scalar::Text(RcStr::from_str(alloc, text)?)),
    }
}

/// The number of `-` or nothing and one or more digits, if it has 64 bits.
fn read_number(text: &[u8]) -> Option<i64>
    ensures { result ≡ number_of text.now }
{
    match text.split_first() {
        None => None,
        Some((first, digits)) => {
            if *first == b'-' {
                match read_digits(digits) {
                    Some(n) => negative(n),
                    None => None,
                }
            } else {
                match read_digits(text) {
                    Some(n) => positive(n),
                    None => None,
                }
            }
        }
    }
}

fn positive(n: u64) -> Option<i64>
    ensures { result ≡ int_of (exact (pos n)) }
{
    0i64.checked_add_unsigned(n)
}

fn negative(n: u64) -> Option<i64>
    ensures { result ≡ int_of (exact (neg_ℤ (pos n))) }
{
    0i64.checked_sub_unsigned(n)
}

/// The number of one or more digits, if it is below 2^64.
fn read_digits(bytes: &[u8]) -> Option<u64>
    ensures { result ≡ digits_number bytes.now }
{
    if bytes.is_empty() {
        return None;
    }
    let mut n = 0u64;
    for b in bytes {
        match push_digit(n, *b) {
            Some(m) => n = m,
            None => return None,
        }
    }
    Some(n)
}

/// One more digit behind a number.
fn push_digit(n: u64, b: u8) -> Option<u64>
    ensures { SomeIff result (IsTrue (is_digit b) × (10 * n + (b - 48) < 2 ^ 64))
        (10 * n + (b - 48)) }
{
    if b < b'0' || b'9' < b {
        return None;
    }
    match n.checked_mul(10) {
        Some(tens) => tens.checked_add(u64::from(b - b'0')),
        None => None,
    }
}
