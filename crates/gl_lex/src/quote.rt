//! The text behind a quote.

ghost use Rattle.std.specs.Prelude.{◌≡◌, ◌<◌, ◌≤◌, length, MatchOption, IfOk, IfSome};
ghost use Rattle.gl_lex.specs.Quote.{Scan};
ghost use Rattle.gl_lex.specs.Quote as spec;

use std::alloc::{AllocError, Global};

/// The control character behind the printable ones.
const DELETE: u8 = 127;

/// What stands before the next byte of a quoted text: no escape that is begun, a backslash, or a
/// backslash and `x` with no digit or with the first one, by its value.
#[derive(Clone, Copy)]
pub enum State {
    Plain,
    Escape,
    HexFirst,
    HexSecond(u8),
}

/// What a byte does: it goes on to a state, gives a byte of the text, ends the text, or may not stand
/// there.
#[derive(Clone, Copy)]
pub enum Step {
    Go(State),
    Push(u8),
    End,
    Broken,
}

fn hex(b: u8) -> u8
    ensures { result ≡ spec.hex b }
{
    if b'0' <= b && b <= b'9' {
        b - b'0'
    } else if b'A' <= b && b <= b'F' {
        b - b'A' + 10
    } else if b'a' <= b && b <= b'f' {
        b - b'a' + 10
    } else {
        16
    }
}

fn plain(b: u8) -> Step
    ensures { result ≡ spec.plain b }
{
    if b == b'"' {
        Step::End
    } else if b == b'\\' {
        Step::Go(State::Escape)
    } else if b < b' ' || b == DELETE {
        Step::Broken
    } else {
        Step::Push(b)
    }
}

fn escape(b: u8) -> Step
    ensures { result ≡ spec.escape b }
{
    match b {
        b'\\' | b'"' => Step::Push(b),
        b'n' => Step::Push(b'\n'),
        b'r' => Step::Push(b'\r'),
        b't' => Step::Push(b'\t'),
        b'x' => Step::Go(State::HexFirst),
        _ => Step::Broken,
    }
}

fn turn(state: State, b: u8) -> Step
    ensures { result ≡ spec.turn state b }
{
    match state {
        State::Plain => plain(b),
        State::Escape => escape(b),
        State::HexFirst => {
            let h = hex(b);
            if h < 8 {
                Step::Go(State::HexSecond(h))
            } else {
                Step::Broken
            }
        }
        State::HexSecond(h) => {
            let l = hex(b);
            if h < 8 && l < 16 {
                Step::Push(16 * h + l)
            } else {
                Step::Broken
            }
        }
    }
}

/// The decoded bytes, and how many bytes were read up to the closing quote and with it.
#[tactic(auto, using(crate::proofs::Quotes::quote_rules))]
pub fn decode(alloc: Global, bytes: &[u8]) -> Result<Option<(Vec<u8>, usize)>, AllocError>
    ensures value { IfOk result (λ o.
        MatchOption o (spec.decode State.Plain bytes.now ≡ Scan.Torn) (λ p.
        spec.decode State.Plain bytes.now ≡ Scan.Ends p.0.items p.1)) }
    ensures within { IfOk result (λ o. IfSome o (λ p. (0 < p.1) × (p.1 ≤ length bytes.now))) }
{
    let mut state = State::Plain;
    let mut out = Vec::new(alloc);
    let mut at: usize = 0;
    while at < bytes.len() {
        match turn(state, bytes[at]) {
            Step::Go(next) => state = next,
            Step::Push(c) => {
                out.push(c)?;
                state = State::Plain;
            }
            Step::End => return Ok(Some((out, at + 1))),
            Step::Broken => return Ok(None),
        }
        at += 1;
    }
    Ok(None)
}
