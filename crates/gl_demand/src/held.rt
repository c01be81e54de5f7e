//! What an address holds in a frame.
ghost use Rattle.std.specs.Prelude.{◌≡◌, IsTrue, None, Some, IfSome, option_map};
ghost use Rattle.std.specs.Option.{option_copied};
ghost use Rattle.gl_language.specs.Reading.Content.{IsProperContent};
ghost use Rattle.gl_calculus.specs.Evaluation.Reference.{own_content, content_in, held_top, home};
ghost use Rattle.gl_calculus.specs.Evaluation.Reference.{in_region};
ghost use Rattle.gl_calculus.specs.Evaluation.Reference.{status_in, cover_in};
ghost use Rattle.gl_calculus.specs.Formulas.Formula.{content, Cells as Sheet};
ghost use Rattle.gl_calculus.specs.Evaluation.Facts.{fact};
ghost use Rattle.gl_calculus.specs.Evaluation.Sound.{is_sound_frame, is_sound_value};
ghost use Rattle.gl_cells.specs.{Sheet.sheet, Content.content_tree};
ghost use Rattle.gl_plane.specs.{Entries.offsets, Permit.permit_tree};
ghost use Rattle.gl_ast.specs.View.{formula_tree};
ghost use Rattle.gl_calculus.specs.Evaluation.Reference as R;
ghost use Rattle.gl_calculus.specs.Values.Value as V;
ghost use Rattle.gl_value.specs.View.{scalar_tree, value_tree, frame_tree};
ghost use Rattle.gl_demand.specs.Held.{held_tree, IsSoundHeld, override_in};

use gl_ast::Formula;
use gl_cells::{Cells, Content, Hint};
use gl_plane::{Addr, Oracle, Permit};
use gl_value::{Env, Scalar, Value};

/// A value that is given, a constant, or a formula.
#[derive(Clone, Copy)]
pub enum Held<'a> {
    Value(&'a Value),
    Scalar(&'a Scalar),
    Formula(&'a Formula),
}

/// The frame in which an address is read: the nearest outward whose region has it, or the top.
#[tactic(auto, using(gl_value::specs::Forms::trees))]
pub fn home(env: &Env, a: Addr) -> &Env
    ensures { frame_tree result.now ≡ home (frame_tree env.now) a }
{
    match env {
        Env::Top => env,
        Env::In(s, _) => {
            if s.region.covers(a) {
                env
            } else {
                home(&s.env, a)
            }
        }
    }
}

/// The value of the nearest override outward.
#[tactic(auto, using(gl_value::specs::Forms::trees, crate::proofs::Frames::parent_sound))]
fn nearest_override(env: &Env, a: Addr) -> Option<&Value>
    requires { IsTrue (is_sound_frame (frame_tree env.now)) }
    ensures { option_map value_tree (option_copied result) ≡ override_in (frame_tree env.now) a }
{
    let mut at = env;
    loop {
        match at {
            Env::Top => return None,
            Env::In(s, _) => {
                if let Some(v) = s.get_override(a) {
                    return Some(v);
                }
                at = &s.env;
            }
        }
    }
}

/// The same value, which is sound.
fn override_in(env: &Env, a: Addr) -> Option<&Value>
    requires { IsTrue (is_sound_frame (frame_tree env.now)) }
    ensures value { option_map value_tree (option_copied result)
        ≡ override_in (frame_tree env.now) a }
    ensures sound { IfSome result (λ v. IsTrue (is_sound_value (value_tree v.now))) }
{
    nearest_override(env, a)
}

/// What a content holds.
fn held_top(content: &Content) -> Held<'_>
    ensures value { Some (held_tree result) ≡ held_top (Some (content_tree content.now)) }
    ensures sound { IsProperContent (content_tree content.now) → IsSoundHeld (held_tree result) }
{
    match content {
        Content::Const(x) => Held::Scalar(x),
        Content::Form(f) => Held::Formula(f),
    }
}

/// What the nearest override outward holds, else what the sheet has there.
#[tactic(auto, using(crate::proofs::Frames::content_nearest))]
pub fn content_in<'a>(cells: &'a Cells, env: &'a Env, a: Addr) -> Option<Held<'a>>
    requires { IsTrue (is_sound_frame (frame_tree env.now)) }
    ensures value { option_map held_tree result
        ≡ content_in (content (sheet cells.now) a) (frame_tree env.now) a }
    ensures sound { IfSome result (λ h. IsSoundHeld (held_tree h)) }
{
    match override_in(env, a) {
        Some(v) => Some(Held::Value(v)),
        None => match cells.content(a) {
            Some(content) => Some(held_top(content)),
            None => None,
        },
    }
}

/// The constant that is held, if it is one.
pub fn constant_in(held: Option<Held<'_>>) -> Option<&Scalar>
    ensures { IfSome result (λ x.
        option_map held_tree held.entry ≡ Some (R.Held.Given (V.Value.One (scalar_tree x.now)))) }
{
    match held {
        Some(held) => match held {
            Held::Scalar(x) => Some(x),
            Held::Value(_) => None,
            Held::Formula(_) => None,
        },
        None => None,
    }
}

/// The formula that is held, if it is one.
pub fn formula_in(held: Option<Held<'_>>) -> Option<&Formula>
    ensures { IfSome result (λ f.
        option_map held_tree held.entry ≡ Some (R.Held.Computed (formula_tree f.now))) }
{
    match held {
        Some(held) => match held {
            Held::Formula(f) => Some(f),
            Held::Scalar(_) => None,
            Held::Value(_) => None,
        },
        None => None,
    }
}

/// What an address holds that is in the region of the frame.
pub fn held_at<'a>(cells: &'a Cells, env: &'a Env, a: Addr) -> Option<Held<'a>>
    requires { IsTrue (is_sound_frame (frame_tree env.now)) }
    ensures value { option_map held_tree result
        ≡ own_content (content (sheet cells.now) a) (frame_tree env.now) a }
    ensures sound { IfSome result (λ h. IsSoundHeld (held_tree h)) }
{
    if in_region(env, a) {
        content_in(cells, env, a)
    } else {
        None
    }
}

/// The same, where the hint tells where the sheet's content is likely to stand.
#[inline(always)]
#[tactic(auto, using(gl_value::specs::Forms::trees))]
pub fn held_near<'a>(cells: &'a Cells, env: &'a Env, a: Addr, hint: &mut Hint) -> Option<Held<'a>>
    requires { IsTrue (is_sound_frame (frame_tree env.now)) }
    ensures value { option_map held_tree result
        ≡ own_content (content (sheet cells.now) a) (frame_tree env.now) a }
    ensures sound { IfSome result (λ h. IsSoundHeld (held_tree h)) }
{
    match env {
        Env::Top => match cells.content_near(a, hint) {
            Some(content) => Some(held_top(content)),
            None => None,
        },
        Env::In(_, _) => held_at(cells, env, a),
    }
}

/// The address is in the region of the frame.
#[tactic(auto, using(gl_value::specs::Forms::trees))]
pub fn in_region(env: &Env, a: Addr) -> bool
    ensures { result ≡ in_region (frame_tree env.now) a }
{
    match env {
        Env::Top => true,
        Env::In(s, _) => s.region.covers(a),
    }
}

/// What the oracle of a frame says of an address.
#[tactic(auto, using(gl_value::specs::Forms::trees))]
pub fn status_in(w: &Oracle, env: &Env, a: Addr) -> Option<Permit>
    ensures { (S : Sheet)
        → option_map permit_tree result ≡ status_in (fact S w.now a) (frame_tree env.now) }
{
    match env {
        Env::Top => w.status(a),
        Env::In(_, o) => o.status(a),
    }
}

/// The root that spills over an address in a frame, with the address's row and column offsets.
#[tactic(auto, using(gl_value::specs::Forms::trees))]
pub fn cover_in(w: &Oracle, env: &Env, a: Addr) -> Option<(Addr, u16, u16)>
    ensures { (S : Sheet)
        → result ≡ option_map offsets (cover_in (fact S w.now a) (frame_tree env.now)) }
{
    match env {
        Env::Top => w.cover(a),
        Env::In(_, o) => o.cover(a),
    }
}
