//! What items leave and reply.
ghost use Rattle.laws_protocol.specs.Acts.{OneAct, OneOutput, RefusalsLeave};
ghost use Rattle.laws_protocol.specs.Replies.{OneText, FirstRepliesFirst, ErrorsAreRefusals};
ghost use Rattle.laws_protocol.specs.Replies.{RefusalsAreErrors, ScriptsKeepSheets};
ghost use Rattle.laws_protocol.specs.States.{ActsKeepStates, ScriptsKeepStates, UndoTakesBack};
ghost use Rattle.laws_protocol.specs.States.{UndosRun, EveryRunTook};
ghost use Rattle.laws_protocol.specs.States.{ReplicasJoin, ReplicasAgree, SameSheetsReply};
ghost use Rattle.laws_protocol.specs.Lists.{ListsReadBack};
ghost use Rattle.laws_protocol.specs.Fixed.{FixedByContents};
ghost use Rattle.laws_protocol.specs.Rooms.{ActsKeepRooms};

/// An item has one effect and one reply, and so a script has one output, which begins with that of
/// its first items.
pub fn one_reply()
    ensures act { OneAct }
    ensures output { OneOutput }
    ensures written { OneText }
    ensures first { FirstRepliesFirst }
{}

/// What a query of the sheet replies is fixed by the contents and the version alone: never by the way
/// on which the sheet came about, nor by the order of evaluation.
pub fn fixed_by_contents()
    ensures { FixedByContents }
{}

/// A refused item leaves the state.
pub fn refusals_leave()
    ensures { RefusalsLeave }
{}

/// An `error` line begins as one, and no other reply does.
pub fn only_errors_refuse()
    ensures errors { ErrorsAreRefusals }
    ensures refusals { RefusalsAreErrors }
{}

/// Every state that a script leads to has a sheet in order, of proper contents, within the limits;
/// its steps lead back and on; and where it is a replica, the sheet is what its registers hold.
pub fn states_are_kept()
    ensures act { ActsKeepStates }
    ensures script { ScriptsKeepStates }
    ensures sheet { ScriptsKeepSheets }
{}

/// No undo and no redo passes a limit of the sheet, also while what comes back stands beside what goes.
pub fn undo_passes_no_limit()
    ensures { ActsKeepRooms }
{}

/// What is undone is as if it was never done, and what is done again as if it was never undone; and
/// as many edits as are kept can be undone and done again.
pub fn undo_takes_back()
    ensures back { UndoTakesBack }
    ensures runs { UndosRun }
{}

/// Replicas that took the same edits have the same sheet, and give the same replies; and each script
/// takes some edits.
pub fn replicas_agree()
    ensures took { EveryRunTook }
    ensures join { ReplicasJoin }
    ensures agree { ReplicasAgree }
    ensures reply { SameSheetsReply }
{}

/// The lines of a sheet's list, fed to an empty sheet, give this sheet again, and none is refused.
pub fn lists_read_back()
    ensures { ListsReadBack }
{}
