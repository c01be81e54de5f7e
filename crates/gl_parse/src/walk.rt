//! The faults that a form shows by itself: a range that is refused, and a call with arguments that its function doesn't take.

ghost use Rattle.std.specs.Prelude.{◌≡◌};
ghost use Rattle.gl_language.specs.Reading.Grammar as G;
ghost use Rattle.gl_parse.specs.Raws.{raw_tree, plains, pairs, links, raws_of};
ghost use Rattle.gl_parse.specs.Faults as spec;

use crate::arity::is_bad_call;
use crate::raw::Raw;
use gl_ast::Op;
use gl_plane::{Addr, MAX_CELLS, Range};

/// The faults that a form shows by itself.
#[derive(Clone, Copy)]
pub enum FormFault {
    /// A range whose corners are out of order, or that has too many cells.
    Range,
    /// A call with arguments that its function does not take.
    Arity,
}

fn is_bad_range(a: Addr, b: Addr) -> bool
    ensures { result ≡ G.is_bad_range (G.Raw.Corners a b) }
{
    if !Range::ordered(a, b) {
        return true;
    }
    let rows = u32::from(b.row() + 1 - a.row());
    let cols = u32::from(b.col() + 1 - a.col());
    rows * cols > MAX_CELLS
}

fn shows_range(text: &[u8], raw: &Raw) -> bool
    ensures { result ≡ G.is_bad_range (raw_tree text.now raw.now) }
{
    match raw {
        Raw::Corners(a, b) => is_bad_range(*a, *b),
        _ => false,
    }
}

fn shows(text: &[u8], fault: FormFault, raw: &Raw) -> bool
    ensures { result ≡ spec.shows fault (raw_tree text.now raw.now) }
{
    match fault {
        FormFault::Range => shows_range(text, raw),
        FormFault::Arity => is_bad_call(text, raw),
    }
}

/// Whether some form inside, or the form itself, shows the fault.
#[cycle(walk)]
pub fn some_form(text: &[u8], fault: FormFault, raw: &Raw) -> bool
    ensures { result ≡ G.some_form (spec.shows fault) (raw_tree text.now raw.now) }
{
    if shows(text, fault, raw) {
        return true;
    }
    match raw {
        Raw::Neg(f) => some_form(text, fault, f),
        Raw::Chain(_, f, rest) => some_form(text, fault, f) || some_operand(text, fault, rest),
        Raw::Compare(_, f, g) => some_form(text, fault, f) || some_form(text, fault, g),
        Raw::Let(_, f, body) => some_form(text, fault, f) || some_form(text, fault, body),
        Raw::Apply(_, xs) => some_argument(text, fault, xs),
        _ => false,
    }
}

#[cycle(walk)]
#[tactic(auto, using(crate::proofs::Walks::walk_rules))]
fn some_operand(text: &[u8], fault: FormFault, rest: &[(Op, Raw)]) -> bool
    ensures { result ≡ G.some_operand (spec.shows fault) (links (pairs text.now rest.now)) }
{
    for operand in rest {
        if some_form(text, fault, &operand.1) {
            return true;
        }
    }
    false
}

#[cycle(walk)]
#[tactic(auto, using(crate::proofs::Walks::walk_rules))]
fn some_argument(text: &[u8], fault: FormFault, xs: &[Raw]) -> bool
    ensures { result ≡ G.some_argument (spec.shows fault) (raws_of (plains text.now xs.now)) }
{
    for raw in xs {
        if some_form(text, fault, raw) {
            return true;
        }
    }
    false
}
