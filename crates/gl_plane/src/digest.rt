//! Digests, which grow word by word, and the words of addresses and entries.
ghost use Rattle.std.specs.Prelude.{◌≡◌};
ghost use Rattle.gl_plane.specs.Digest.{mixed, address_word, shape_word, stirred};

use crate::{Addr, Entry, Permit};

/// The digest with one word more.
pub fn mixed(digest: u64, word: u64) -> u64
    ensures { result ≡ mixed digest word }
{
    (digest.rotate_left(5) ^ word).wrapping_mul(0x9E37_79B9_7F4A_7C15)
}

/// An address as a word: other addresses give other words.
pub fn address_word(a: Addr) -> u64
    ensures { result ≡ address_word a }
{
    u64::from(a.row()) * 65536 + u64::from(a.col())
}

/// The digest with one entry more.
pub(crate) fn stirred(digest: u64, entry: &Entry) -> u64
    ensures { result ≡ stirred digest entry.now }
{
    mixed(mixed(digest, address_word(entry.root)), shape_word(entry))
}

/// How large the array is, and whether it may spill.
fn shape_word(entry: &Entry) -> u64
    ensures { result ≡ shape_word entry.now }
{
    let bit = match entry.permit {
        Permit::Permitted => 1,
        Permit::Refused => 0,
    };
    (u64::from(entry.size.rows()) * 65536 + u64::from(entry.size.cols())) * 2 + bit
}
