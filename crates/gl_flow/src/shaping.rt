//! The shape of a formula.
ghost use Rattle.std.specs.Prelude.{◌≡◌, ◌≢◌, IsTrue, IfOk, Option};
ghost use Rattle.std.specs.Prelude.{option_map, length, slice_get};
ghost use Rattle.gl_flow.specs.Shapes.{bindings_of, spilled_at, shape_of, turned, stacked};
ghost use Rattle.gl_flow.specs.Shapes.{first_shape};
ghost use Rattle.gl_flow.specs.Places.{are_in_order};
ghost use Rattle.gl_calculus.specs.Formulas.Formula as F;
ghost use Rattle.gl_ast.specs.View.{formula_tree, fun_tree, argument_trees, operand_trees};
ghost use Rattle.gl_calculus.specs.Forecast as Fo;

use crate::bindings::{bind, bound};
use crate::extents::{Extents, MOST, any, below, extents_of, flipped, full, joined};
use crate::places::number_of;
use gl_ast::{Formula, Fun, Op};
use gl_plane::{Addr, NoMemory};
use std::alloc::Global;
use std::rc::RcStr;

/// The shapes that `a#` has: any at first, then that of the formula cell in the level before.
#[derive(Clone, Copy)]
pub struct Spilled<'a> {
    pub places: &'a [Addr],
    pub shapes: &'a [Option<Extents>],
    /// it is the first level
    pub any: bool,
    ghost ordered: { IsTrue (are_in_order places.now) },
}

impl Spilled<'_> {
    /// The shape of `a#`.
    pub fn at(&self, a: Addr) -> Option<Extents>
        ensures { result ≡ spilled_at self.now.any self.now.places.now self.now.shapes.now a }
    {
        if self.any {
            return Some(any());
        }
        match number_of(self.places, a) {
            Some(k) => shape_number(self.shapes, k),
            None => None,
        }
    }
}

/// The shape of this number; none past the last.
fn shape_number(shapes: &[Option<Extents>], k: usize) -> Option<Extents>
    ensures { result ≡ shape_of (slice_get shapes.now k) }
{
    match shapes.get(k) {
        Some(s) => *s,
        None => None,
    }
}

/// The extent that a formula is, where it is an integer as written.
#[tactic(auto, using(gl_ast::specs::Forms::trees))]
fn written(f: &Formula) -> Option<u16>
    ensures { result ≡ Fo.written_extent (formula_tree f.now) }
{
    match f {
        Formula::Int(n) => extent(*n),
        Formula::Text(_) => None,
        Formula::Bool(_) => None,
        Formula::At(_) => None,
        Formula::Spill(_) => None,
        Formula::Area(_) => None,
        Formula::Var(_) => None,
        Formula::Neg(_) => None,
        Formula::Chain(_, _, _) => None,
        Formula::Compare(_, _, _) => None,
        Formula::Call(_, _) => None,
        Formula::Let(_, _, _) => None,
    }
}

/// The integer, where it may be an extent.
fn extent(n: i64) -> Option<u16>
    ensures { result ≡ Fo.written_extent (F.Formula.Int n) }
{
    if 0 < n && n <= i64::from(MOST) {
        Some(n as u16)
    } else {
        None
    }
}

/// The extents of SEQUENCE: those written, or any.
fn sequence(xs: &[Formula]) -> Extents
    ensures { result ≡ Fo.sequence_size (argument_trees xs.now) }
{
    match xs {
        [m, n] => written_size(written(m), written(n)),
        _ => not_two(xs),
    }
}

/// Any extents, for other than two arguments.
#[tactic(auto, using(crate::proofs::Parts::other_sequence))]
fn not_two(xs: &[Formula]) -> Extents
    requires { length xs.now ≢ 2 }
    ensures { result ≡ Fo.sequence_size (argument_trees xs.now) }
{
    any()
}

/// These extents; any where one is missing.
fn written_size(m: Option<u16>, n: Option<u16>) -> Extents
    ensures { result ≡ Fo.written_size m n }
{
    match m {
        Some(rows) => match n {
            Some(cols) => Extents { rows, cols },
            None => any(),
        },
        None => any(),
    }
}

/// The shape of a formula, by those of `a#` and of its variables.
#[cycle(shape)]
#[tactic(auto, using(gl_ast::specs::Forms::trees))]
pub fn shape(
    alloc: Global,
    spilled: &Spilled,
    bindings: &[(RcStr, Option<Extents>)],
    f: &Formula,
) -> Result<Option<Extents>, NoMemory>
    ensures { IfOk result (λ s.
        s
        ≡ Fo.shape (spilled_at spilled.now.any spilled.now.places.now spilled.now.shapes.now)
        (bindings_of bindings.now) (formula_tree f.now)) }
{
    match f {
        Formula::Int(_) => Ok(None),
        Formula::Text(_) => Ok(None),
        Formula::Bool(_) => Ok(None),
        Formula::At(_) => Ok(None),
        Formula::Spill(a) => Ok(spilled.at(*a)),
        Formula::Area(r) => Ok(Some(extents_of(r))),
        Formula::Var(name) => Ok(bound(bindings, name)),
        Formula::Neg(g) => shape(alloc, spilled, bindings, g),
        Formula::Chain(_, g, rest) => {
            let first = shape(alloc, spilled, bindings, g)?;
            let others = operands(alloc, spilled, bindings, rest)?;
            Ok(joined(first, others))
        }
        Formula::Compare(_, g, h) => {
            let first = shape(alloc, spilled, bindings, g)?;
            let second = shape(alloc, spilled, bindings, h)?;
            Ok(joined(first, second))
        }
        Formula::Call(fun, xs) => call(alloc, spilled, bindings, *fun, xs),
        Formula::Let(name, g, body) => {
            let s = shape(alloc, spilled, bindings, g)?;
            let inner = bind(alloc, bindings, name, s)?;
            shape(alloc, spilled, &inner, body)
        }
    }
}

/// The shape of a call.
#[cycle(shape)]
fn call(
    alloc: Global,
    spilled: &Spilled,
    bindings: &[(RcStr, Option<Extents>)],
    fun: Fun,
    xs: &[Formula],
) -> Result<Option<Extents>, NoMemory>
    ensures { IfOk result (λ s.
        s
        ≡ Fo.call_shape (fun_tree fun) (argument_trees xs.now)
        (Fo.shapes (spilled_at spilled.now.any spilled.now.places.now spilled.now.shapes.now)
        (bindings_of bindings.now) (argument_trees xs.now))) }
{
    match fun {
        Fun::Sum
        | Fun::Count
        | Fun::Min
        | Fun::Max
        | Fun::And
        | Fun::Or
        | Fun::Rows
        | Fun::Columns
        | Fun::Index
        | Fun::Lookup
        | Fun::Na
        | Fun::This => Ok(None),
        Fun::Sequence => Ok(Some(sequence(xs))),
        Fun::Transpose => {
            let s = first(alloc, spilled, bindings, xs)?;
            Ok(flipped_shape(flat(s)))
        }
        Fun::Unique => {
            let s = first(alloc, spilled, bindings, xs)?;
            Ok(flat(s))
        }
        Fun::Take | Fun::Drop | Fun::Filter => {
            let s = first(alloc, spilled, bindings, xs)?;
            Ok(full_shape(s))
        }
        Fun::HStack => {
            let s = stack(alloc, spilled, bindings, true, xs)?;
            Ok(Some(flipped(s)))
        }
        Fun::VStack => {
            let s = stack(alloc, spilled, bindings, false, xs)?;
            Ok(Some(s))
        }
        Fun::Not
        | Fun::If
        | Fun::IfError
        | Fun::IsError
        | Fun::IsBlank
        | Fun::Abs
        | Fun::Mod
        | Fun::Len
        | Fun::Left
        | Fun::Right
        | Fun::Sheet
        | Fun::Update
        | Fun::View
        | Fun::G => arguments(alloc, spilled, bindings, xs),
    }
}

/// The shape of the first argument, where there is one.
#[cycle(shape)]
fn first(
    alloc: Global,
    spilled: &Spilled,
    bindings: &[(RcStr, Option<Extents>)],
    xs: &[Formula],
) -> Result<Option<Option<Extents>>, NoMemory>
    ensures { IfOk result (λ s.
        s
        ≡ first_shape
        (Fo.shapes (spilled_at spilled.now.any spilled.now.places.now spilled.now.shapes.now)
        (bindings_of bindings.now) (argument_trees xs.now))) }
{
    match xs.split_first() {
        Some((x, _)) => {
            let s = shape(alloc, spilled, bindings, x)?;
            Ok(Some(s))
        }
        None => Ok(None),
    }
}

/// The joined shapes of arguments.
#[cycle(shape)]
fn arguments(
    alloc: Global,
    spilled: &Spilled,
    bindings: &[(RcStr, Option<Extents>)],
    xs: &[Formula],
) -> Result<Option<Extents>, NoMemory>
    ensures { IfOk result (λ s.
        s
        ≡ Fo.greatest_shape
        (Fo.shapes (spilled_at spilled.now.any spilled.now.places.now spilled.now.shapes.now)
        (bindings_of bindings.now) (argument_trees xs.now))) }
{
    let mut all = None;
    for x in xs {
        let s = shape(alloc, spilled, bindings, x)?;
        all = joined(all, s);
    }
    Ok(all)
}

/// The joined shapes of operands.
#[cycle(shape)]
fn operands(
    alloc: Global,
    spilled: &Spilled,
    bindings: &[(RcStr, Option<Extents>)],
    xs: &[(Op, Formula)],
) -> Result<Option<Extents>, NoMemory>
    ensures { IfOk result (λ s.
        s
        ≡ Fo.greatest_shape
        (Fo.operand_shapes
        (spilled_at spilled.now.any spilled.now.places.now spilled.now.shapes.now)
        (bindings_of bindings.now) (operand_trees xs.now))) }
{
    let mut all = None;
    for x in xs {
        let s = shape(alloc, spilled, bindings, &x.1)?;
        all = joined(all, s);
    }
    Ok(all)
}

/// The extents of arguments one under the other, each with its rows and columns exchanged if so
/// asked.
#[cycle(shape)]
fn stack(
    alloc: Global,
    spilled: &Spilled,
    bindings: &[(RcStr, Option<Extents>)],
    flip: bool,
    xs: &[Formula],
) -> Result<Extents, NoMemory>
    ensures { IfOk result (λ s.
        s
        ≡ stacked flip
        (Fo.shapes (spilled_at spilled.now.any spilled.now.places.now spilled.now.shapes.now)
        (bindings_of bindings.now) (argument_trees xs.now))) }
{
    let mut all = Extents { rows: 0, cols: 0 };
    for x in xs {
        let s = shape(alloc, spilled, bindings, x)?;
        all = below(all, turned(flip, full(s)));
    }
    Ok(all)
}

fn turned(flip: bool, s: Extents) -> Extents
    ensures { result ≡ turned flip s }
{
    if flip { flipped(s) } else { s }
}

/// A shape, where there is one.
fn flat(s: Option<Option<Extents>>) -> Option<Extents>
    ensures { result ≡ shape_of s }
{
    match s {
        Some(s) => s,
        None => None,
    }
}

/// The extents of a shape, where there is one.
fn full_shape(s: Option<Option<Extents>>) -> Option<Extents>
    ensures { result ≡ option_map Fo.size_of s }
{
    match s {
        Some(s) => Some(full(s)),
        None => None,
    }
}

/// A shape with rows and columns exchanged.
fn flipped_shape(s: Option<Extents>) -> Option<Extents>
    ensures { result ≡ option_map Fo.flipped s }
{
    match s {
        Some(e) => Some(flipped(e)),
        None => None,
    }
}
