//! The law of framing.
ghost use Rattle.std.specs.Prelude.{List, ℕ};
ghost use Rattle.laws_protocol.specs.FramingLaw.{IsFramedByBytes};

/// Byte by byte or as a whole, a text has the same items, up to and with the first `quit`.
pub fn framing_law()
    ensures { (text : List ℕ) → IsFramedByBytes text }
{}
