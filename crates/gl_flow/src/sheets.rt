//! Formulas that make sheets.
ghost use Rattle.std.specs.Prelude.{◌≡◌, ◌||◌};
ghost use Rattle.std.specs.List.{list_any};
ghost use Rattle.gl_ast.specs.View.{formula_tree, fun_tree, argument_trees, operand_trees};
ghost use Rattle.gl_calculus.specs.Forecast as Fo;

use gl_ast::{Formula, Fun, Op};

/// SHEET, UPDATE, VIEW or G.
fn makes(fun: Fun) -> bool
    ensures { result ≡ Fo.piece_makes (Fo.Piece.Calls (fun_tree fun)) }
{
    match fun {
        Fun::Sheet | Fun::Update | Fun::View | Fun::G => true,
        _ => false,
    }
}

/// The formula calls SHEET, UPDATE, VIEW or G.
#[cycle(sheets)]
#[tactic(auto, using(gl_ast::specs::Forms::trees, crate::proofs::Parts::any_both))]
pub fn makes_sheets(f: &Formula) -> bool
    ensures { result ≡ list_any Fo.piece_makes (Fo.pieces (formula_tree f.now)) }
{
    match f {
        Formula::Int(_) => false,
        Formula::Text(_) => false,
        Formula::Bool(_) => false,
        Formula::At(_) => false,
        Formula::Spill(_) => false,
        Formula::Area(_) => false,
        Formula::Var(_) => false,
        Formula::Neg(g) => makes_sheets(g),
        Formula::Chain(_, g, rest) => either(makes_sheets(g), operands(rest)),
        Formula::Compare(_, g, h) => either(makes_sheets(g), makes_sheets(h)),
        Formula::Call(fun, xs) => either(makes(*fun), arguments(xs)),
        Formula::Let(_, g, body) => either(makes_sheets(g), makes_sheets(body)),
    }
}

#[cycle(sheets)]
fn arguments(xs: &[Formula]) -> bool
    ensures { result ≡ list_any Fo.piece_makes (Fo.all_pieces (argument_trees xs.now)) }
{
    for x in xs {
        if makes_sheets(x) {
            return true;
        }
    }
    false
}

#[cycle(sheets)]
fn operands(xs: &[(Op, Formula)]) -> bool
    ensures { result ≡ list_any Fo.piece_makes (Fo.operand_pieces (operand_trees xs.now)) }
{
    for x in xs {
        if makes_sheets(&x.1) {
            return true;
        }
    }
    false
}

fn either(x: bool, y: bool) -> bool
    ensures { result ≡ (x || y) }
{
    x || y
}
