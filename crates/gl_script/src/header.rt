//! The lines that say more than themselves.
ghost use Rattle.std.specs.Prelude.{◌≡◌, ◌≤◌, ◌∷◌, IfSome, codes};
ghost use Rattle.std.specs.List.{list_all};
ghost use Rattle.gl_calculus.specs.Grid.Limits.{max_payload};
ghost use Rattle.gl_language.specs.Reading.Token.{is_digit};
ghost use Rattle.gl_protocol.specs.Framing.Header.{payload_len, count_of, count_by, is_quit_line};
ghost use Rattle.gl_protocol.specs.Framing.Pieces.{pieces, is_number};

use std::str;

/// The greatest payload, in bytes.
pub const MAX_PAYLOAD: u32 = 1_048_576;

fn are_digits(bytes: &[u8]) -> bool
    ensures { result ≡ list_all is_digit bytes.now }
{
    bytes.iter().all(|b| b.is_ascii_digit())
}

// Digits without a leading zero, or `0`.
pub(crate) fn is_number(digits: &[u8]) -> bool
    ensures { result ≡ is_number digits.now }
{
    match digits {
        [] => false,
        [digit] => digit.is_ascii_digit(),
        [first, ..] => *first != b'0' && are_digits(digits),
    }
}

// The count that the last piece of a header writes.
pub(crate) fn count_of(text: &str) -> Option<u32>
    ensures value { result ≡ count_of text.now }
    ensures limit { IfSome result (λ n. n ≤ max_payload) }
{
    if !is_number(text.as_bytes()) {
        return None;
    }
    match text.parse::<u32>() {
        Ok(count) if count <= MAX_PAYLOAD => Some(count),
        _ => None,
    }
}

// What follows `import` and a space in a header.
fn count_behind_place(rest: &str) -> Option<u32>
    ensures value { result ≡ count_by (codes "import" ∷ pieces 32 rest.now) }
    ensures limit { IfSome result (λ n. n ≤ max_payload) }
{
    match rest.split_once(' ') {
        Some((place, count)) => {
            if place.is_empty() {
                return None;
            }
            count_of(count)
        }
        None => None,
    }
}

/// How many bytes of payload follow the line, where it is the header of an import: a UTF-8 line of
/// `import`, a place and a count, with one space between. The count is `0` or has no leading zero,
/// and is at most `MAX_PAYLOAD`.
pub fn payload_due(line: &[u8]) -> Option<u32>
    ensures value { result ≡ payload_len line.now }
    ensures limit { IfSome result (λ n. n ≤ max_payload) }
{
    let text = match str::from_utf8(line) {
        Ok(text) => text,
        Err(_) => return None,
    };
    match text.split_once(' ') {
        Some((word, rest)) => {
            if word != "import" {
                return None;
            }
            count_behind_place(rest)
        }
        None => None,
    }
}

/// Whether the line is `quit`.
pub fn is_quit(line: &[u8]) -> bool
    ensures { result ≡ is_quit_line line.now }
{
    line == b"quit".as_slice()
}
