//! The calls of a session, for C.
ghost use Rattle.std.specs.Prelude.{◌≡◌, ◌≢◌, ◌↔◌, ◌⊎◌, ◌<◌, ◌≤◌, [], None, IfOk, min, take, drop};
ghost use Rattle.std.specs.Prelude.{length};
ghost use Rattle.gl_run.specs.{declared.top.Status.Status as Ended, Status.number_of};
ghost use Rattle.gridlet_c.specs.Sessions.{number_of_phase, IfOpen, IfOpenBoth};
ghost use Rattle.gridlet_c.specs.History.{HasHistory, waiting_of, Feeds, Takes, EndsAs};

use crate::answering::number;
use crate::handle::Session;
use crate::live::{Live, Phase};
use gl_plane::NoMemory;
use gl_run::Status;
use std::alloc::Global;

// The status of a feed behind which a session is so far.
fn phase_number(phase: Phase) -> u32
    ensures { result ≡ number_of_phase phase }
{
    match phase {
        Phase::Going => 0,
        Phase::Quit => 7,
        Phase::Limit => 6,
        Phase::NoMemory => 3,
        Phase::Ended(_) => 2,
    }
}

// A session in a block of its own.
fn boxed(alloc: Global, kind: u8) -> Result<Box<Live>, NoMemory>
    requires { kind ≤ 2 }
    ensures { IfOk result (λ live. HasHistory live.value [] []) }
{
    let live = Live::new(alloc, kind)?;
    match Box::new(alloc, live) {
        Ok(live) => Ok(live),
        Err(_) => Err(NoMemory),
    }
}

/// Opens a session of an empty sheet in a handle that is closed. `order` is that of `gridlet_run`.
///
/// The status is 0 where it is open, 2 where there is no such order, and 3 where no memory was left;
/// then the handle stays closed.
#[unsafe(no_mangle)]
pub extern "C" fn gridlet_open(alloc: Global, order: u32, session: &mut Session) -> u32
    requires { session.old.live ≡ None }
    ensures usage { (result ≡ 2) ↔ (2 < order) }
    ensures opened { result ≡ 0 → IfOpen session.new.live (λ live. HasHistory live [] []) }
    ensures closed { result ≢ 0 → session.new.live ≡ None }
    ensures status { (result ≡ 0) ⊎ (result ≡ 2) ⊎ (result ≡ 3) }
{
    let kind = match order {
        0 => 0,
        1 => 1,
        2 => 2,
        _ => return number(Status::Usage),
    };
    match boxed(alloc, kind) {
        Ok(live) => {
            session.put(live);
            0
        }
        Err(NoMemory) => number(Status::NoMemory),
    }
}

/// Feeds bytes to an open session, behind those that were fed before, and answers the commands that
/// end in them. The replies wait in the session.
///
/// The status is 0 where the session reads on. Else it reads nothing more: 7 behind `quit`, 6 behind
/// 16,777,216 bytes, 3 where no memory was left, and 2 where its end was told before.
#[unsafe(no_mangle)]
pub extern "C" fn gridlet_feed(alloc: Global, session: &mut Session, bytes: &[u8]) -> u32
    requires { session.old.live ≢ None }
    ensures { IfOpenBoth session.old.live session.new.live (λ old new.
        (result ≡ number_of_phase new.phase) × Feeds old new bytes.now) }
{
    let mut live = session.take(alloc);
    let phase = live.feed(alloc, bytes);
    session.put(live);
    phase_number(phase)
}

/// Takes replies that wait, as many bytes as `out` has room for: `written` of them, and `left` wait on.
///
/// The status is 0 where none wait on, and else 5.
#[unsafe(no_mangle)]
pub extern "C" fn gridlet_replies(
    alloc: Global,
    session: &mut Session,
    out: &mut [u8],
    written: &mut usize,
    left: &mut usize,
) -> u32
    requires { session.old.live ≢ None }
    ensures taken { IfOpenBoth session.old.live session.new.live (λ old new.
        Takes old new (take written.new out.new)
        × (written.new ≡ min (length (waiting_of old)) (length out.old))
        × (left.new ≡ length (waiting_of new))) }
    ensures behind { drop written.new out.new ≡ drop written.new out.old }
    ensures all { (result ≡ 0) ↔ (left.new ≡ 0) }
    ensures status { (result ≡ 0) ⊎ (result ≡ 5) }
{
    let mut live = session.take(alloc);
    *written = live.take(out);
    *left = live.waiting().len();
    session.put(live);
    if *left == 0 { 0 } else { 5 }
}

/// Ends the input of an open session, and answers what ends with it: a last line without LF, or a
/// payload that is cut. Replies that wait can be taken behind it.
///
/// The status is that of a run over the bytes fed: 0, 1, 3 or 6. Told again it is 2, and nothing
/// changes.
#[unsafe(no_mangle)]
pub extern "C" fn gridlet_end(alloc: Global, session: &mut Session) -> u32
    requires { session.old.live ≢ None }
    ensures { (status : Ended) × (result ≡ number_of status)
        × IfOpenBoth session.old.live session.new.live (λ old new. EndsAs old new status) }
{
    let mut live = session.take(alloc);
    let status = live.end(alloc);
    session.put(live);
    number(status)
}

/// Closes an open session, with the replies that wait in it, and frees its memory.
#[unsafe(no_mangle)]
pub extern "C" fn gridlet_close(alloc: Global, session: &mut Session)
    requires { session.old.live ≢ None }
    ensures { session.new.live ≡ None }
{
    drop(session.take(alloc));
}
