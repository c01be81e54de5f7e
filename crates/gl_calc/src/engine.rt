//! What calculations run by.
ghost use Rattle.std.specs.Prelude.{◌≤◌};

use gl_order::Order;
use std::alloc::Global;

/// The allocator that calculations take memory from, and the rule by which their keys are picked,
/// with its kind.
#[derive(Drop)]
pub struct Engine<'a, F> {
    pub alloc: Global,
    pub order: &'a Order<F>,
    pub kind: u8,
    ghost small: { kind ≤ 2 },
}
