//! Short forms of keys, by which they are told apart in one step each.
ghost use Rattle.std.specs.Prelude.{◌≡◌, Some, option_map, IfOk};
ghost use Rattle.gl_calculus.specs.Evaluation.Key as K;
ghost use Rattle.gl_value.specs.View.{frame_tree};
ghost use Rattle.gl_demand.specs.View.{key_tree};
ghost use Rattle.gl_core.specs.{Shorts.short_in, Shorts.IsGrown};
ghost use Rattle.gl_core.specs.{declared.short.Short.TheVariants.In as InCopy};

use gl_demand::Key;
use gl_intern::Interner;
use gl_plane::{Addr, NoMemory};
use gl_value::Env;

/// A key, with a frame's number in place of the frame, and a sheet value's in place of the sheet
/// value. The top has no number.
#[derive(Clone, Copy, PartialEq, Eq, Hash)]
pub enum Short {
    Top(Addr),
    In(usize, Addr),
    Settle(usize),
}

fn in_copy(frame: Option<usize>, a: Addr) -> Option<Short>
    ensures { result ≡ option_map (λ n. InCopy n a) frame }
{
    match frame {
        Some(n) => Some(Short::In(n, a)),
        None => None,
    }
}

#[tactic(auto, using(gl_value::specs::Forms::trees))]
fn find_cell(interner: &Interner, e: &Env, a: Addr) -> Option<Short>
    ensures { result ≡ short_in interner.now (K.Cell (frame_tree e.now) a) }
{
    match e {
        Env::Top => Some(Short::Top(a)),
        Env::In(_, _) => in_copy(interner.find_frame(e), a),
    }
}

/// The short form of a key, if all of it has numbers. It takes no memory.
pub fn find_short(interner: &Interner, key: &Key) -> Option<Short>
    ensures { result ≡ short_in interner.now (key_tree key.now) }
{
    match key {
        Key::Cell(e, a) => find_cell(interner, e, *a),
        Key::Settle(s) => match interner.find_sheet(s) {
            Some(n) => Some(Short::Settle(n)),
            None => None,
        },
    }
}

#[tactic(auto, using(gl_value::specs::Forms::trees))]
fn make_cell(
    interner: &mut Interner,
    e: &Env,
    a: Addr,
    parent: Option<u32>,
) -> Result<Short, NoMemory>
    ensures short { IfOk result
        (λ s. short_in interner.new (K.Cell (frame_tree e.now) a) ≡ Some s) }
    ensures grows { IsGrown interner.old interner.new }
{
    match e {
        Env::Top => Ok(Short::Top(a)),
        Env::In(_, _) => match interner.frame_near(e, parent) {
            Ok(n) => Ok(Short::In(n, a)),
            Err(e) => Err(e),
        },
    }
}

/// The short form of a key, whose frame or sheet value gets a number where it has none. It is one
/// step where the guessed number is that of its sheet value's parent frame, else one walk.
pub fn short_form(
    interner: &mut Interner,
    key: &Key,
    parent: Option<u32>,
) -> Result<Short, NoMemory>
    ensures short { IfOk result (λ s. short_in interner.new (key_tree key.now) ≡ Some s) }
    ensures grows { IsGrown interner.old interner.new }
{
    match key {
        Key::Cell(e, a) => make_cell(interner, e, *a, parent),
        Key::Settle(s) => match interner.sheet_near(s, parent) {
            Ok(n) => Ok(Short::Settle(n)),
            Err(e) => Err(e),
        },
    }
}
