//! The addresses with content in a frame of a sheet value, one after the other.
ghost use Rattle.std.specs.Prelude.{◌≡◌, ◌&&◌, ◌||◌, not, ◌≤◌, Bool, true, false, IsTrue, IfSome};
ghost use Rattle.std.specs.Prelude.{length};
ghost use Rattle.std.specs.{List.AllWithin, Option.IfNone};
ghost use Rattle.gl_calculus.specs.Grid.Grid.{Addr as Plain, covers, is_before};
ghost use Rattle.gl_calculus.specs.Values.Value.{Oracle, In, region};
ghost use Rattle.gl_calculus.specs.Evaluation.Sound.{is_sound_sheet, is_sound_frame};
ghost use Rattle.gl_cells.specs.{Search.comes_after, Sheet.sheet};
ghost use Rattle.gl_value.specs.View.{frame_tree, sheet_tree, override_trees};
ghost use Rattle.gl_value.specs.declared.Value.{Value as Given};
ghost use Rattle.gl_demand.specs.Filling.{IsFirst, IsFirstWith, comes_before, next_override};
ghost use Rattle.gl_demand.specs.Filling.{is_overridden_by, is_content, is_filled, is_held};

use gl_cells::Cells;
use gl_plane::{Addr, Range};
use gl_value::{Env, SheetVal, Value};

/// The addresses that both ranges have.
fn overlap(a: &Range, b: &Range) -> Option<Range>
    ensures some { IfSome result (λ c.
        (q : Plain) → covers c q ≡ (covers a.now q && covers b.now q)) }
    ensures none { IfNone result ((q : Plain) → (covers a.now q && covers b.now q) ≡ false) }
{
    let first = Addr {
        row: a.first().row.max(b.first().row),
        col: a.first().col.max(b.first().col),
    };
    let last = Addr {
        row: a.last().row.min(b.last().row),
        col: a.last().col.min(b.last().col),
    };
    if Range::ordered(first, last) {
        Some(Range::new(first, last))
    } else {
        None
    }
}

/// How many overrides don't come after an address, if one is given.
fn passed(s: &SheetVal, after: &Option<Addr>) -> usize
    requires { IsTrue (is_sound_sheet (sheet_tree s.now)) }
    ensures most { result ≤ length s.now.overrides.items }
    ensures passed { AllWithin (λ (o : Plain × Given). comes_after after.now o.0 ≡ false)
        s.now.overrides.items 0 result }
    ensures left { AllWithin (λ (o : Plain × Given). comes_after after.now o.0 ≡ true)
        s.now.overrides.items result (length s.now.overrides.items) }
{
    match after {
        Some(a) => s.overrides.partition_point(
            |o: &(Addr, Value)| -> bool
                ensures { result ≡ not (is_before a.entry.now o.now.0) }
            { !a.is_before(o.0) },
        ),
        None => 0,
    }
}

/// The address doesn't come before another, if one is given.
pub fn is_past(a: Addr, before: &Option<Addr>) -> bool
    ensures { result ≡ not (comes_before before.now a) }
{
    match before {
        Some(b) => !a.is_before(*b),
        None => false,
    }
}

/// The first override in the range, after one address and before another, if these are given.
fn next_override(
    s: &SheetVal,
    r: &Range,
    after: &Option<Addr>,
    before: &Option<Addr>,
) -> Option<Addr>
    requires { IsTrue (is_sound_sheet (sheet_tree s.now)) }
    ensures { result ≡ next_override s.now.overrides.items r.now after.now before.now }
{
    let first = passed(s, after);
    for i in first..s.overrides.len() {
        let a = s.overrides[i].0;
        if is_past(a, before) {
            return None;
        }
        if r.covers(a) {
            return Some(a);
        }
    }
    None
}

/// The first override of the sheet value in the range and after an address, if it comes before the
/// best so far; else that one.
fn sooner(s: &SheetVal, r: &Range, after: &Option<Addr>, best: &Option<Addr>) -> Option<Addr>
    requires { IsTrue (is_sound_sheet (sheet_tree s.now)) }
    ensures { (p : Plain → Bool)
        → IsFirst p best.now
        → IsFirst (λ b.
        p b || is_overridden_by (override_trees s.now.overrides.items) r.now after.now b) result }
{
    match next_override(s, r, after, best) {
        Some(a) => Some(a),
        None => *best,
    }
}

/// The same of the sheet value and of all frames outward.
#[cycle(outward)]
#[tactic(auto, using(crate::proofs::Frames::parent_sound))]
fn soonest(s: &SheetVal, r: &Range, after: &Option<Addr>, best: &Option<Addr>) -> Option<Addr>
    requires { IsTrue (is_sound_sheet (sheet_tree s.now)) }
    ensures { (w : Oracle) (p : Plain → Bool)
        → IsFirst p best.now
        → IsFirstWith (In (sheet_tree s.now) w) r.now after.now p result }
{
    let next = sooner(s, r, after, best);
    outward(&s.env, r, after, &next)
}

/// The same of the frames outward.
#[cycle(outward)]
#[tactic(auto, using(gl_value::specs::Forms::trees))]
fn outward(env: &Env, r: &Range, after: &Option<Addr>, best: &Option<Addr>) -> Option<Addr>
    requires { IsTrue (is_sound_frame (frame_tree env.now)) }
    ensures { (p : Plain → Bool)
        → IsFirst p best.now
        → IsFirstWith (frame_tree env.now) r.now after.now p result }
{
    match env {
        Env::Top => *best,
        Env::In(s, _) => soonest(s, r, after, best),
    }
}

/// The first address of the range with content in the sheet, after the one that is given.
fn next_content(cells: &Cells, r: &Range, after: &Option<Addr>) -> Option<Addr>
    ensures { IsFirst (is_content (sheet cells.now) r.now after.now) result }
{
    let _contents = cells.contents();
    cells.next_in(r, *after)
}

/// The same in a frame of the sheet value, where the range lies in its region.
fn filled_in_part(cells: &Cells, s: &SheetVal, r: &Range, after: &Option<Addr>) -> Option<Addr>
    requires sound { IsTrue (is_sound_sheet (sheet_tree s.now)) }
    requires inside { (q : Plain)
        → covers r.now q ≡ true
        → covers (region (sheet_tree s.now)) q ≡ true }
    ensures { IsFirst (is_filled (sheet cells.now) (sheet_tree s.now) r.now after.now) result }
{
    let content = next_content(cells, r, after);
    soonest(s, r, after, &content)
}

/// The first address of the range with content in a frame of the sheet value, after the one that
/// is given, in row-major order.
pub fn next_filled(cells: &Cells, s: &SheetVal, r: &Range, after: &Option<Addr>) -> Option<Addr>
    requires { IsTrue (is_sound_sheet (sheet_tree s.now)) }
    ensures { IsFirst (is_filled (sheet cells.now) (sheet_tree s.now) r.now after.now) result }
{
    match overlap(r, &s.region) {
        Some(part) => filled_in_part(cells, s, &part, after),
        None => None,
    }
}

/// The same in a frame.
#[tactic(auto, using(gl_value::specs::Forms::trees))]
pub fn next_held(cells: &Cells, env: &Env, r: &Range, after: &Option<Addr>) -> Option<Addr>
    requires { IsTrue (is_sound_frame (frame_tree env.now)) }
    ensures { IsFirst (is_held (sheet cells.now) (frame_tree env.now) r.now after.now) result }
{
    match env {
        Env::Top => next_content(cells, r, after),
        Env::In(s, _) => next_filled(cells, s, r, after),
    }
}
