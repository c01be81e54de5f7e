//! What an evaluation was reading where it stopped at a key without known outcome.
ghost use Rattle.std.specs.Prelude.{IsTrue};
ghost use Rattle.gl_calculus.specs.Evaluation.Sound.{is_sound_frame};
ghost use Rattle.gl_value.specs.View.{frame_tree};

use gl_plane::{Addr, Range};
use gl_value::Env;

/// A range in a frame, which is sound.
#[derive(Drop)]
pub struct Reference {
    pub env: Env,
    pub range: Range,
    ghost sound: { IsTrue (is_sound_frame (frame_tree env)) },
}

/// An address in a frame, which is sound.
#[derive(Drop)]
pub struct Place {
    pub env: Env,
    pub address: Addr,
    ghost sound: { IsTrue (is_sound_frame (frame_tree env)) },
}

/// What was being read: so the keys that will be needed next are known, whatever the outcomes are
/// that are still to come, as long as those are values.
#[derive(Drop)]
pub enum Ahead {
    /// Nothing that tells more than the needed key.
    Nothing,
    /// The addresses of a range, one after another.
    Area(Reference),
    /// The formulas of a sheet value's region, in a round of its settling.
    Round(Reference),
    /// What the formula of an address surely reads first, one reference after another.
    Own(Place),
}
