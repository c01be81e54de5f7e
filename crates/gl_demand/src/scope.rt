//! The variables that are bound.
ghost use Rattle.std.specs.Prelude.{IsTrue};
ghost use Rattle.gl_demand.specs.Scope.{are_sound_bindings};

use gl_value::Value;
use std::rc::RcStr;

/// The variables that are bound around a formula, innermost first, with their values.
pub struct Scope {
    pub bindings: Vec<(RcStr, Value)>,
    ghost sound: { IsTrue (are_sound_bindings bindings.items) },
}

// One call wherever it is dropped, in place of one for each part.
impl Drop for Scope {
    fn drop(self) {
        let Scope { bindings } = self;
    }
}
