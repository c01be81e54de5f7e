//! The state of a script.
ghost use Rattle.std.specs.Prelude.{◌≡◌, IfOk};
ghost use Rattle.gl_run.specs.{Script.known_of};
ghost use Rattle.gl_protocol.specs.Run.Known.{new_known};

use gl_calc::Calc;
use gl_merge::Replica;
use gl_plane::NoMemory;
use gl_undo::History;
use std::alloc::Global;

/// The calculator with the sheet, the replica if the script is one, and what can be undone.
pub struct Script {
    pub calc: Calc,
    pub replica: Option<Replica>,
    pub history: History,
}

// One call wherever it is dropped, in place of one for each part.
impl Drop for Script {
    fn drop(self) {
        let Script {
            calc,
            replica,
            history,
        } = self;
    }
}

/// The empty sheet, no replica, and nothing to undo.
pub fn new_script(alloc: Global) -> Result<Script, NoMemory>
    ensures { IfOk result (λ x. known_of x ≡ new_known) }
{
    let history = History::new(alloc)?;
    Ok(Script {
        calc: Calc::new(alloc),
        replica: None,
        history,
    })
}
