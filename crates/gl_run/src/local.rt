//! What an edit of the sheet becomes: a step that can be undone, or edits of the replica.
ghost use Rattle.std.specs.Prelude.{◌≡◌, Some, IfOk};
ghost use Rattle.gl_calculus.specs.Grid.Grid.{AreInOrder};
ghost use Rattle.gl_calculus.specs.Edits.Replicas.{stamped, taking_all};
ghost use Rattle.gl_merge.specs.{Index.trees, Replica.AreOrdered, Replica.replica_tree};
ghost use Rattle.gl_undo.specs.View.{AreProperChanges, changes_tree};
ghost use Rattle.gl_undo.specs.View as undo;
ghost use Rattle.gl_run.specs.Ready.{CanCommit, CanTakeThese, Commits, HasRoomFor, Prepares};
ghost use Rattle.gl_run.specs.Ready.{Stamps, TakesAll, local_word, places};
ghost use Rattle.gl_run.specs.{Replies.IsRefusal, Script.known_of, Script.script_of};

use crate::changes::Change;
use crate::lines::error_line;
use crate::script::Script;
use gl_merge::{Edit, Replica, RoomFault, Stamp};
use gl_plane::{Addr, NoMemory};
use gl_undo::{Step, step_of};
use std::alloc::Global;

/// What an edit of the sheet becomes, with all room taken.
#[derive(Drop)]
pub enum Ready {
    /// A step, outside a replica.
    Step(Step),
    /// Edits with the replica's next stamp.
    Edits(Vec<Edit>),
}

/// Why an edit is refused for what it becomes.
#[derive(Clone, Copy, PartialEq, Eq)]
pub enum LocalFault {
    /// The replica has no next stamp.
    Stamp,
    /// There would be too many registers.
    Edits,
    NoMemory,
}

impl From<NoMemory> for LocalFault {
    ghost use Rattle.std.specs.Prelude.{◌≡◌};
    ghost use Rattle.gl_run.specs.declared.local.LocalFault.TheVariants.{NoMemory};

    ghost from_gives = { λ _ e. e ≡ NoMemory };

    fn from(_: NoMemory) -> LocalFault {
        LocalFault::NoMemory
    }
}

/// The reply to an edit that is refused for what it becomes.
pub fn local_refusal(alloc: Global, fault: LocalFault) -> Result<Vec<u8>, NoMemory>
    ensures { IfOk result (λ reply. IsRefusal (local_word fault) reply.items) }
{
    match fault {
        LocalFault::Stamp => error_line(alloc, "stamp"),
        LocalFault::Edits => error_line(alloc, "edits"),
        LocalFault::NoMemory => Err(NoMemory),
    }
}

/// What these changes of the sheet become. All that takes memory is done here, and nothing that can
/// be seen changes.
pub fn prepare(alloc: Global, script: &mut Script, list: Vec<Change>) -> Result<Ready, LocalFault>
    requires ordered { AreInOrder (places (changes_tree list.items)) }
    requires proper { AreProperChanges list.items }
    ensures known { known_of script.new ≡ known_of script.old }
    ensures ready { Prepares result script.new (changes_tree list.items) }
{
    match &mut script.replica {
        Some(replica) => match own_edits(alloc, replica, list) {
            Ok(edits) => Ok(Ready::Edits(edits)),
            Err(fault) => Err(fault),
        },
        None => Ok(Ready::Step(step_of(alloc, script.calc.cells(), list)?)),
    }
}

/// The edits that a replica takes for changes of its own.
fn own_edits(
    alloc: Global,
    replica: &mut Replica,
    list: Vec<Change>,
) -> Result<Vec<Edit>, LocalFault>
    requires ordered { AreInOrder (places (changes_tree list.items)) }
    requires proper { AreProperChanges list.items }
    ensures same { replica_tree replica.new ≡ replica_tree replica.old }
    ensures edits { Stamps (λ v. v.items) result replica.new (changes_tree list.items) }
{
    are_ordered(replica);
    let Some(stamp) = replica.next() else {
        return Err(LocalFault::Stamp);
    };
    let at = places_of(alloc, &list)?;
    match replica.make_room(&at) {
        Ok(()) => Ok(stamped(alloc, stamp, list)?),
        Err(RoomFault::Edits) => Err(LocalFault::Edits),
        Err(RoomFault::NoMemory) => Err(LocalFault::NoMemory),
    }
}

/// The registers are in the order of their addresses.
pub fn are_ordered(replica: &Replica)
    ensures { AreOrdered replica.now }
{
    let _count = replica.len();
}

/// The addresses that change.
fn places_of(alloc: Global, list: &[Change]) -> Result<Vec<Addr>, NoMemory>
    ensures { IfOk result (λ v. v.items ≡ undo.places list.now) }
{
    let mut all = Vec::with_capacity(alloc, list.len())?;
    for change in list {
        all.push_reserved(change.0);
    }
    Ok(all)
}

/// Edits with this stamp.
fn stamped(alloc: Global, stamp: Stamp, list: Vec<Change>) -> Result<Vec<Edit>, NoMemory>
    requires { AreProperChanges list.items }
    ensures { IfOk result (λ v. trees v.items ≡ stamped stamp (changes_tree list.items)) }
{
    let mut edits = Vec::with_capacity(alloc, list.len())?;
    for (place, content) in list {
        edits.push_reserved(Edit::new(stamp, place, content));
    }
    Ok(edits)
}

/// The step is done, or the replica takes the edits. It takes no memory.
pub fn commit(script: &mut Script, ready: Ready)
    requires { CanCommit script.old ready }
    ensures calc { script.new.calc ≡ script.old.calc }
    ensures commits { Commits script.old ready (script_of script.new) }
{
    match ready {
        Ready::Step(step) => script.history.push(step),
        Ready::Edits(edits) => take_own(script, edits),
    }
}

/// The replica takes edits of its own.
fn take_own(script: &mut Script, edits: Vec<Edit>)
    requires { HasRoomFor script.old edits.items }
    ensures calc { script.new.calc ≡ script.old.calc }
    ensures takes { TakesAll script.old edits.items (script_of script.new) }
{
    match &mut script.replica {
        Some(replica) => take_all(replica, edits),
        None => {}
    }
}

/// Takes edits, one after the other.
fn take_all(replica: &mut Replica, edits: Vec<Edit>)
    requires { CanTakeThese replica.old edits.items }
    ensures { replica_tree replica.new ≡ taking_all (replica_tree replica.old) (trees edits.items) }
{
    for e in edits {
        replica.take(e);
    }
}
