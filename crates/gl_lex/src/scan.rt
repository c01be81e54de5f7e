//! The token in front of a text.

ghost use Rattle.std.specs.Prelude.{◌≡◌, ◌≤◌, ◌<◌, ◌∷◌, length, ◌^◌, slice_index, true, false};
ghost use Rattle.std.specs.Prelude.{nat_eq, IfOk, MatchOption, pos, option_map};
ghost use Rattle.std.specs.Str.{bytes_eq};
ghost use Rattle.gl_language.specs.Reading.Token.{digits_value};
ghost use Rattle.gl_lex.specs.Front.{Decides, DecidesText};
ghost use Rattle.gl_lex.specs.View as view;
ghost use Rattle.gl_lex.specs.Front as front;

use crate::quote::decode;
use crate::{Kind, Sign};
use gl_plane::{Addr, MAX_TEXT, NoMemory};
use std::alloc::Global;
use std::rc::RcStr;

/// The bytes that stand in rows.
#[derive(Clone, Copy)]
pub enum Class {
    Digit,
    Upper,
    Lower,
}

/// Why no token stands in front of a text.
#[derive(Drop)]
pub enum Bad {
    Token,
    Number,
    Text,
    NoMemory,
}

fn is_in(class: Class, b: u8) -> bool
    ensures { result ≡ front.is_in class b }
{
    match class {
        Class::Digit => b'0' <= b && b <= b'9',
        Class::Upper => b'A' <= b && b <= b'Z',
        Class::Lower => b'a' <= b && b <= b'z',
    }
}

/// How many bytes of the class stand in front.
#[tactic(auto, unfolding(crate::specs::Front::row))]
fn row(class: Class, bytes: &[u8]) -> usize
    ensures value { result ≡ front.row class bytes.now }
    ensures within { result ≤ length bytes.now }
{
    let mut end = 0;
    while end < bytes.len() && is_in(class, bytes[end]) {
        end += 1;
    }
    end
}

/// The number of a row of digits, if it is at most 9223372036854775807.
#[tactic(auto, using(crate::proofs::Values::value_rules))]
fn number_of(digits: &[u8]) -> Option<i64>
    ensures { MatchOption result (2 ^ 63 ≤ digits_value digits.now) (λ n.
        (n ≡ pos (digits_value digits.now)) × (digits_value digits.now < 2 ^ 63)) }
{
    let mut n: u64 = 0;
    for b in digits {
        if n > 922337203685477580 {
            return None;
        }
        n = 10 * n + u64::from(b.saturating_sub(48));
        if n >= 9223372036854775808 {
            return None;
        }
    }
    Some(n as i64)
}

/// A row of digits is one integer.
fn number(bytes: &[u8]) -> Result<(Kind, usize), Bad>
    requires digit { front.is_in Class.Digit (slice_index bytes.now 0) ≡ true }
    requires some { 0 < length bytes.now }
    ensures { Decides bytes.now result }
{
    let n = row(Class::Digit, bytes);
    match number_of(&bytes[..n]) {
        Some(v) => Ok((Kind::Integer(v), n)),
        None => Err(Bad::Number),
    }
}

fn same(a: &[u8], b: &[u8]) -> bool
    ensures { result ≡ bytes_eq a.now b.now }
{
    a == b
}

/// A row of upper case letters with no digit behind it: a truth value or a word.
fn word(letters: &[u8]) -> Kind
    ensures { view.kind_token result letters.now ≡ front.word_token letters.now }
{
    if same(letters, b"TRUE") {
        Kind::Truth(true)
    } else if same(letters, b"FALSE") {
        Kind::Truth(false)
    } else {
        Kind::Word
    }
}

/// A row of upper case letters is one word, and with digits behind it one address.
fn letters(bytes: &[u8]) -> Result<(Kind, usize), Bad>
    requires letter { front.is_in Class.Upper (slice_index bytes.now 0) ≡ true }
    requires some { 0 < length bytes.now }
    ensures { Decides bytes.now result }
{
    let w = row(Class::Upper, bytes);
    let d = row(Class::Digit, &bytes[w..]);
    if d == 0 {
        return Ok((word(&bytes[..w]), w));
    }
    match Addr::read(&bytes[..w + d]) {
        Some(a) => Ok((Kind::Address(a), w + d)),
        None => Err(Bad::Token),
    }
}

/// A row of lower case letters is one variable.
fn variable(bytes: &[u8]) -> (Kind, usize)
    requires letter { front.is_in Class.Lower (slice_index bytes.now 0) ≡ true }
    requires some { 0 < length bytes.now }
    ensures { front.IsFront bytes.now result.0 result.1 }
{
    (Kind::Variable, row(Class::Lower, bytes))
}

/// The text behind whose opening quote the bytes are, with how many bytes it and its quotes have, or
/// `None` where no text is there.
pub fn quoted(alloc: Global, rest: &[u8]) -> Result<Option<(RcStr, usize)>, NoMemory>
    requires { length rest.now < 2 ^ 63 }
    ensures { IfOk result (λ text. DecidesText (34 ∷ rest.now) text) }
{
    let Some((decoded, n)) = decode(alloc, rest)? else {
        return Ok(None);
    };
    if decoded.len() > MAX_TEXT {
        return Ok(None);
    }
    match String::from_utf8(decoded) {
        Ok(text) => Ok(Some((RcStr::from_string(text)?, n + 1))),
        Err(_) => Ok(None),
    }
}

fn sign_at(b: u8, next: u8) -> Option<Sign>
    ensures { option_map view.sign_of result ≡ front.sign_at b next }
{
    match b {
        b'=' => Some(Sign::Eq),
        b'<' => match next {
            b'>' => Some(Sign::Ne),
            b'=' => Some(Sign::Le),
            _ => Some(Sign::Lt),
        },
        b'>' => {
            if next == b'=' {
                Some(Sign::Ge)
            } else {
                Some(Sign::Gt)
            }
        }
        b'&' => Some(Sign::Join),
        b'+' => Some(Sign::Plus),
        b'-' => Some(Sign::Minus),
        b'*' => Some(Sign::Times),
        b'/' => Some(Sign::Over),
        b'#' => Some(Sign::Hash),
        b'(' => Some(Sign::LeftParen),
        b')' => Some(Sign::RightParen),
        b',' => Some(Sign::Comma),
        b':' => Some(Sign::Colon),
        _ => None,
    }
}

fn sign_len(sign: Sign) -> usize
    ensures { result ≡ front.sign_len (view.sign_of sign) }
{
    match sign {
        Sign::Ne | Sign::Le | Sign::Ge => 2,
        _ => 1,
    }
}

fn byte(bytes: &[u8], at: usize) -> u8
    ensures { result ≡ slice_index bytes.now at }
{
    if at < bytes.len() { bytes[at] } else { 0 }
}

/// A sign, which may be two bytes long.
fn signed(bytes: &[u8]) -> Result<(Kind, usize), Bad>
    requires some { 0 < length bytes.now }
    requires digit { front.is_in Class.Digit (slice_index bytes.now 0) ≡ false }
    requires upper { front.is_in Class.Upper (slice_index bytes.now 0) ≡ false }
    requires lower { front.is_in Class.Lower (slice_index bytes.now 0) ≡ false }
    requires quote { nat_eq (slice_index bytes.now 0) 34 ≡ false }
    ensures { Decides bytes.now result }
{
    match sign_at(bytes[0], byte(bytes, 1)) {
        Some(s) => Ok((Kind::Sign(s), sign_len(s))),
        None => Err(Bad::Token),
    }
}

/// The token in front, and how many bytes it has.
pub fn cut(alloc: Global, bytes: &[u8]) -> Result<(Kind, usize), Bad>
    requires some { 0 < length bytes.now }
    ensures { Decides bytes.now result }
{
    let b = bytes[0];
    if is_in(Class::Digit, b) {
        return number(bytes);
    }
    if is_in(Class::Upper, b) {
        return letters(bytes);
    }
    if is_in(Class::Lower, b) {
        return Ok(variable(bytes));
    }
    if b != b'"' {
        return signed(bytes);
    }
    match quoted(alloc, &bytes[1..]) {
        Ok(Some((text, n))) => Ok((Kind::Text(text), n)),
        Ok(None) => Err(Bad::Text),
        Err(NoMemory) => Err(Bad::NoMemory),
    }
}
