//! Why a text has no tokens.

ghost use Rattle.std.specs.Prelude.{◌≡◌, List, ℕ, slice_index};
ghost use Rattle.gl_language.specs.Reading.Token as T;
ghost use Rattle.gl_lex.specs.{Front.NoToken, Front.Refuses, View.IsRefused};
ghost use Rattle.gl_lex.specs.declared.fault.LexFault.TheVariants.{NoMemory};

use crate::scan::Bad;
use std::alloc::AllocFailed;

/// Why a text has no tokens, with the first place, in bytes, at which no token can be read.
#[derive(Drop)]
pub enum LexFault {
    /// Neither a number nor a text is there.
    Token { at: u32 },
    /// The digits there are a number beyond 9223372036854775807.
    Number { at: u32 },
    /// The `"` there begins no text of at most 4,096 bytes.
    Text { at: u32 },
    NoMemory,
}

impl<T: Drop> From<AllocFailed<T>> for LexFault {
    ghost from_gives = { λ _ e. e ≡ NoMemory };

    fn from(_error: AllocFailed<T>) -> LexFault {
        LexFault::NoMemory
    }
}

/// The fault at this place of a text.
pub fn fault(bad: Bad, at: u32) -> LexFault
    ensures { (text bytes : List ℕ)
        → Refuses bytes bad
        → ((f : T.LexFault)
        → NoToken bytes
        → T.fault_at (slice_index bytes 0) ≡ f
        → T.IsLexFault text f at)
        → IsRefused text result }
{
    match bad {
        Bad::Token => LexFault::Token { at },
        Bad::Number => LexFault::Number { at },
        Bad::Text => LexFault::Text { at },
        Bad::NoMemory => LexFault::NoMemory,
    }
}
