//! The roots that cover the blanks of a range. Blanks of one array mostly stand together, so the value
//! of the root before is kept, and not looked up again for each of them.
ghost use Rattle.std.specs.Prelude.{◌≡◌, Some, None, List, [], IsTrue, IfOk, IfSome, OnOk};
ghost use Rattle.gl_calculus.specs.Evaluation.Facts.{Fact, fact};
ghost use Rattle.gl_calculus.specs.Evaluation.Reference as R;
ghost use Rattle.gl_calculus.specs.Evaluation.Sound.{is_sound_frame, is_sound_scalar};
ghost use Rattle.gl_calculus.specs.Values.Value.{Top};
ghost use Rattle.gl_cells.specs.Sheet.{sheet};
ghost use Rattle.gl_machine.specs.Seen.{covered_seen};
ghost use Rattle.gl_value.specs.View.{scalar_tree, value_tree, frame_tree};
ghost use Rattle.gl_demand.specs.Seen.{AreSeen, ReadsOne};
ghost use Rattle.gl_demand.specs.{Inputs.inputs_of, Covering.kept_home, Covering.IsKept};

use crate::Numbered;
use crate::context::Context;
use crate::demand::own;
use crate::elements::spilled;
use crate::held::{cover_in, in_region};
use crate::reading::look_once;
use crate::trail::{Eval, Trail};
use gl_plane::Addr;
use gl_value::{Env, Scalar, Value};
use indexmap::IndexSet;
use std::alloc::Global;

/// A root that was looked at, and its own value in its home: the top, or the frame of the range.
#[derive(Drop)]
pub struct Kept {
    pub root: Addr,
    pub top: bool,
    pub value: Option<Value>,
}

/// The roots that a range has looked at, and the one that covered the blank before.
#[derive(Drop)]
pub struct Roots {
    pub seen: IndexSet<Addr>,
    pub last: Option<Kept>,
}

impl Roots {
    /// No root.
    pub fn new(alloc: Global) -> Roots
        ensures seen { result.seen.keys ≡ [] }
        ensures last { result.last ≡ None }
    {
        Roots {
            seen: IndexSet::new(alloc),
            last: None,
        }
    }
}

/// The frame is the top.
fn is_top(env: &Env) -> bool
    ensures { IsTrue result → frame_tree env.now ≡ Top }
{
    match env {
        Env::Top => true,
        Env::In(_, _) => false,
    }
}

/// The home of an address is the top, or else it is the frame of the range, as is asked.
fn is_home(top: bool, env: &Env, home: &Env, a: Addr) -> bool
    requires { frame_tree home.now ≡ R.home (frame_tree env.now) a }
    ensures { IsTrue result → frame_tree home.now ≡ kept_home top (frame_tree env.now) }
{
    if top { is_top(home) } else { in_region(env, a) }
}

/// What is kept, where it is this root in the home of the address.
fn kept_for<'a>(
    last: &'a Option<Kept>,
    env: &Env,
    home: &Env,
    a: Addr,
    root: Addr,
) -> Option<&'a Kept>
    requires { frame_tree home.now ≡ R.home (frame_tree env.now) a }
    ensures last { IfSome result (λ k. last.now ≡ Some k.now) }
    ensures root { IfSome result (λ k. k.now.root ≡ root) }
    ensures home { IfSome result (λ k.
        frame_tree home.now ≡ kept_home k.now.top (frame_tree env.now)) }
{
    match last {
        Some(k) => {
            if k.root == root && is_home(k.top, env, home, a) {
                Some(k)
            } else {
                None
            }
        }
        None => None,
    }
}

/// What is to be kept of a root whose home is that of the address. Frames between the top and that of
/// the range are not told apart, so nothing is kept there.
fn keep(env: &Env, home: &Env, a: Addr, root: Addr, value: Option<Value>) -> Option<Kept>
    requires { frame_tree home.now ≡ R.home (frame_tree env.now) a }
    ensures root { IfSome result (λ k. k.root ≡ root) }
    ensures value { IfSome result (λ k. k.value ≡ value) }
    ensures home { IfSome result (λ k.
        frame_tree home.now ≡ kept_home k.top (frame_tree env.now)) }
{
    let top = is_top(home);
    if is_home(top, env, home, a) {
        Some(Kept { root, top, value })
    } else {
        None
    }
}

/// What a covering root shows at an offset, which is looked up; then it is kept.
fn covered_anew<K: Numbered>(
    ctx: &Context<K>,
    env: &Env,
    home: &Env,
    a: Addr,
    cover: (Addr, u16, u16),
    roots: &mut Roots,
    trail: &mut Trail,
) -> Eval<Scalar>
    requires frame { IsTrue (is_sound_frame (frame_tree home.now)) }
    requires home { frame_tree home.now ≡ R.home (frame_tree env.now) a }
    ensures read { (s : List Fact)
        → AreSeen (inputs_of ctx.now) roots.old.seen.keys s
        → ReadsOne (inputs_of ctx.now)
        (covered_seen (frame_tree home.now) s
        (Some (record { root = cover.0; rows = cover.1; cols = cover.2 }))) trail.old result
        roots.new.seen.keys trail.new }
    ensures kept { (s : List Fact)
        → AreSeen (inputs_of ctx.now) roots.old.seen.keys s
        → OnOk result (IsKept (inputs_of ctx.now) (frame_tree env.now) roots.new trail.new) }
    ensures sound { IfOk result (λ x. IsTrue (is_sound_scalar (scalar_tree x))) }
{
    match look_once(&mut roots.seen, cover.0, trail) {
        Ok(()) => match own(ctx, home, cover.0, trail) {
            Ok(value) => {
                let shown = spilled(&value, cover.1, cover.2);
                roots.last = keep(env, home, a, cover.0, value);
                shown
            }
            Err(halt) => Err(halt),
        },
        Err(halt) => Err(halt),
    }
}

/// What a covering root shows at an offset. Where it is the root that is kept, that was looked up.
fn covered<K: Numbered>(
    ctx: &Context<K>,
    env: &Env,
    home: &Env,
    a: Addr,
    cover: (Addr, u16, u16),
    roots: &mut Roots,
    trail: &mut Trail,
) -> Eval<Scalar>
    requires frame { IsTrue (is_sound_frame (frame_tree home.now)) }
    requires home { frame_tree home.now ≡ R.home (frame_tree env.now) a }
    requires kept { IsKept (inputs_of ctx.now) (frame_tree env.now) roots.old trail.old }
    ensures read { (s : List Fact)
        → AreSeen (inputs_of ctx.now) roots.old.seen.keys s
        → ReadsOne (inputs_of ctx.now)
        (covered_seen (frame_tree home.now) s
        (Some (record { root = cover.0; rows = cover.1; cols = cover.2 }))) trail.old result
        roots.new.seen.keys trail.new }
    ensures kept { (s : List Fact)
        → AreSeen (inputs_of ctx.now) roots.old.seen.keys s
        → OnOk result (IsKept (inputs_of ctx.now) (frame_tree env.now) roots.new trail.new) }
    ensures sound { IfOk result (λ x. IsTrue (is_sound_scalar (scalar_tree x))) }
{
    match kept_for(&roots.last, env, home, a, cover.0) {
        Some(k) => spilled(&k.value, cover.1, cover.2),
        None => covered_anew(ctx, env, home, a, cover, roots, trail),
    }
}

/// What an address of a range shows that holds nothing: what a root spills there, or a blank.
pub fn blank_at<K: Numbered>(
    ctx: &Context<K>,
    env: &Env,
    home: &Env,
    a: Addr,
    roots: &mut Roots,
    trail: &mut Trail,
) -> Eval<Scalar>
    requires frame { IsTrue (is_sound_frame (frame_tree home.now)) }
    requires home { frame_tree home.now ≡ R.home (frame_tree env.now) a }
    requires kept { IsKept (inputs_of ctx.now) (frame_tree env.now) roots.old trail.old }
    ensures read { (s : List Fact)
        → AreSeen (inputs_of ctx.now) roots.old.seen.keys s
        → ReadsOne (inputs_of ctx.now)
        (covered_seen (frame_tree home.now) s
        (R.cover_in (fact (sheet ctx.now.cells.now) ctx.now.w.now a) (frame_tree home.now)))
        trail.old result roots.new.seen.keys trail.new }
    ensures kept { (s : List Fact)
        → AreSeen (inputs_of ctx.now) roots.old.seen.keys s
        → OnOk result (IsKept (inputs_of ctx.now) (frame_tree env.now) roots.new trail.new) }
    ensures sound { IfOk result (λ x. IsTrue (is_sound_scalar (scalar_tree x))) }
{
    match cover_in(ctx.w, home, a) {
        Some(cover) => covered(ctx, env, home, a, cover, roots, trail),
        None => Ok(Scalar::Blank),
    }
}
