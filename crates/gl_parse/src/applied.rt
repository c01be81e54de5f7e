//! What a word and its arguments are read as.
ghost use Rattle.std.specs.Prelude.{◌≡◌, Some, None, false, length, IfOk, MatchOption};
ghost use Rattle.std.specs.Prelude.{MatchResult, ⊤};
ghost use Rattle.gl_language.specs.Texts.Text.{Bytes};
ghost use Rattle.gl_language.specs.Reading.Grammar as G;
ghost use Rattle.gl_parse.specs.Raws.{raw_tree, plains, raws_of, letters};
ghost use Rattle.gl_parse.specs.Reading as spec;

use crate::functions::is_let;
use crate::peek::spelling;
use crate::raw::{Raw, Span};
use crate::stop::Stop;
use std::alloc::Global;

/// The name of a variable.
fn variable(raw: &Raw) -> Option<Span>
    ensures { MatchOption result ((text : Bytes) → spec.is_variable (raw_tree text raw.now) ≡ false)
        (λ name. (text : Bytes) → raw_tree text raw.now ≡ G.Raw.Var (letters text name)) }
{
    match raw {
        Raw::Var(name) => Some(*name),
        _ => None,
    }
}

/// The variable that a word with these arguments binds: that of a `LET` of three, the first a
/// variable.
#[tactic(auto, using(crate::proofs::Binding::binding_rules))]
fn bound_variable(word: &[u8], xs: &[Raw]) -> Option<Span>
    ensures cases { MatchOption result
        ((text : Bytes) → spec.bound_by word.now (plains text xs.now) ≡ None)
        (λ name.
        (text : Bytes) → spec.bound_by word.now (plains text xs.now) ≡ Some (letters text name)) }
    ensures len { MatchOption result ⊤ (λ _. length xs.now ≡ 3) }
{
    if !is_let(word) || xs.len() != 3 {
        return None;
    }
    variable(&xs[0])
}

/// The form that binds the variable of this name, of its three arguments.
fn binding(alloc: Global, name: Span, xs: Vec<Raw>) -> Result<Raw, Stop>
    requires { length xs.items ≡ 3 }
    ensures tree { (text word : Bytes)
        → spec.bound_by word (plains text xs.items) ≡ Some (letters text name)
        → IfOk result (λ r. raw_tree text r ≡ G.applied word (raws_of (plains text xs.items))) }
    ensures no_memory { MatchResult result (λ r. ⊤) (λ e. e ≡ Stop.NoMemory) }
{
    let mut xs = xs;
    let value = xs.remove(1);
    let body = xs.remove(1);
    Ok(Raw::Let(name, Box::new(alloc, value)?, Box::new(alloc, body)?))
}

/// What a word and its arguments are: `LET` of a variable, its value and a body binds the variable,
/// and all else is a call.
pub fn applied(alloc: Global, text: &[u8], word: Span, xs: Vec<Raw>) -> Result<Raw, Stop>
    ensures tree { IfOk result (λ r.
        raw_tree text.now r
        ≡ G.applied (letters text.now word) (raws_of (plains text.now xs.items))) }
    ensures no_memory { MatchResult result (λ r. ⊤) (λ e. e ≡ Stop.NoMemory) }
{
    match bound_variable(spelling(text, word), &xs) {
        Some(name) => binding(alloc, name, xs),
        None => Ok(Raw::Apply(word, xs)),
    }
}
