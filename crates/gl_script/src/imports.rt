//! The place that the header of an import names.
ghost use Rattle.std.specs.Prelude.{◌≡◌, ℕ, Some, MatchOption};
ghost use Rattle.gl_language.specs.Texts.Text.{Bytes};
ghost use Rattle.gl_protocol.specs.Framing.Header.{payload_len};
ghost use Rattle.gl_protocol.specs.Scripts.Commands.{ImportWords, IsAddress, NoAddress};
ghost use Rattle.gl_script.specs.{Command.IsHeader, Parts.words_tree};

use crate::place::read_address;
use crate::words::{Words, words_of};
use gl_plane::Addr;
use std::str;

/// The address in the header of an import: `None` where its place is none. It takes no memory.
pub fn header_place(header: &[u8]) -> Option<Addr>
    ensures { (n : ℕ) → payload_len header.now ≡ Some n → IsHeader header.now result n }
{
    match str::from_utf8(header) {
        Ok(line) => place_in(line),
        Err(_) => None,
    }
}

// The same of a text.
fn place_in(line: &str) -> Option<Addr>
    ensures { (n : ℕ) → payload_len line.now ≡ Some n → IsHeader line.now result n }
{
    match words_of(line) {
        Some(words) => place_of(words),
        None => None,
    }
}

// The address that the words of an import name.
fn place_of(words: Words<'_>) -> Option<Addr>
    ensures { (place count : Bytes) → words_tree words.entry ≡ ImportWords place count
        → MatchOption result (NoAddress place) (IsAddress place) }
{
    match words {
        Words::Import(place, _) => read_address(place),
        _ => None,
    }
}
