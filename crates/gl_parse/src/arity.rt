//! The arguments that functions take.

ghost use Rattle.std.specs.Prelude.{◌≡◌, Option, option_map, false};
ghost use Rattle.std.specs.Option.{option_map_or};
ghost use Rattle.gl_calculus.specs.Formulas.Formula as F;
ghost use Rattle.gl_language.specs.Texts.Text.{Bytes};
ghost use Rattle.gl_language.specs.Reading.Grammar as G;
ghost use Rattle.gl_ast.specs.View.{fun_tree};
ghost use Rattle.gl_parse.specs.Raws.{raw_tree, plains};

use crate::functions::function_of;
use crate::peek::spelling;
use crate::raw::Raw;
use gl_ast::Fun;

/// The arguments of a function are at most so many, but for `G`.
const MAX_ARGUMENTS: usize = 16;

/// Whether a call has a number or a form of arguments that its function doesn't take.
pub fn is_bad_call(text: &[u8], raw: &Raw) -> bool
    ensures { result ≡ G.is_bad_call (raw_tree text.now raw.now) }
{
    match raw {
        Raw::Apply(word, xs) => !allows_word(function_of(spelling(text, *word)), xs),
        _ => false,
    }
}

/// Whether these are the arguments of a function, where there is one.
fn allows_word(fun: Option<Fun>, xs: &[Raw]) -> bool
    ensures { (text : Bytes)
        → result
        ≡ option_map_or (λ f. G.allows f (plains text xs.now)) (option_map fun_tree fun) false }
{
    match fun {
        Some(fun) => allows(fun, xs),
        None => false,
    }
}

#[tactic(auto, using(crate::proofs::Calls::between_rules))]
fn between(least: usize, most: usize, xs: &[Raw]) -> bool
    ensures { (text : Bytes) → result ≡ G.between least most (plains text xs.now) }
{
    least <= xs.len() && xs.len() <= most
}

fn is_address(raw: &Raw) -> bool
    ensures { (text : Bytes) → result ≡ G.is_address (raw_tree text raw.now) }
{
    match raw {
        Raw::At(_) => true,
        _ => false,
    }
}

/// Whether it is an address or a range as written.
fn is_place(raw: &Raw) -> bool
    ensures { (text : Bytes) → result ≡ G.is_place (raw_tree text raw.now) }
{
    match raw {
        Raw::At(_) => true,
        Raw::Corners(_, _) => true,
        _ => false,
    }
}

/// Whether these are pairs of an address as written and a formula.
fn are_pairs(xs: &[Raw]) -> bool
    ensures { (text : Bytes) → result ≡ G.are_pairs (plains text xs.now) }
{
    let mut rest = xs;
    while let [a, _, behind @ ..] = rest {
        if !is_address(a) {
            return false;
        }
        rest = behind;
    }
    rest.is_empty()
}

/// Whether a function takes these arguments.
fn allows(fun: Fun, xs: &[Raw]) -> bool
    ensures { (text : Bytes) → result ≡ G.allows (fun_tree fun) (plains text xs.now) }
{
    match fun {
        Fun::Sum | Fun::Count | Fun::Min | Fun::Max | Fun::And | Fun::Or => between(
            1,
            MAX_ARGUMENTS,
            xs,
        ),
        Fun::HStack | Fun::VStack => between(2, MAX_ARGUMENTS, xs),
        Fun::Mod | Fun::Left | Fun::Right | Fun::IfError | Fun::Sequence | Fun::Filter => between(
            2, 2, xs,
        ),
        Fun::If | Fun::Index | Fun::Take | Fun::Drop | Fun::Lookup => between(3, 3, xs),
        Fun::Na | Fun::This => between(0, 0, xs),
        Fun::Sheet => allows_sheet(xs),
        Fun::Update => allows_update(xs),
        Fun::View => allows_view(xs),
        Fun::G => allows_g(xs),
        Fun::Not
        | Fun::IsError
        | Fun::IsBlank
        | Fun::Abs
        | Fun::Len
        | Fun::Rows
        | Fun::Columns
        | Fun::Transpose
        | Fun::Unique => between(1, 1, xs),
    }
}

fn allows_sheet(xs: &[Raw]) -> bool
    ensures { (text : Bytes) → result ≡ G.allows F.Fun.Sheet (plains text xs.now) }
{
    match xs {
        [place] => is_place(place),
        _ => false,
    }
}

fn allows_update(xs: &[Raw]) -> bool
    ensures { (text : Bytes) → result ≡ G.allows F.Fun.Update (plains text xs.now) }
{
    match xs {
        [_, address, _] => is_address(address),
        _ => false,
    }
}

fn allows_view(xs: &[Raw]) -> bool
    ensures { (text : Bytes) → result ≡ G.allows F.Fun.View (plains text xs.now) }
{
    match xs {
        [_, place] => is_place(place),
        _ => false,
    }
}

fn allows_g(xs: &[Raw]) -> bool
    ensures { (text : Bytes) → result ≡ G.allows F.Fun.G (plains text xs.now) }
{
    match xs {
        [place, pairs @ ..] => is_place(place) && are_pairs(pairs),
        [] => false,
    }
}
