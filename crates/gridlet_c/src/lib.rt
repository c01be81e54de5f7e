//! The interface for C: the bytes of a script go in, whole or as they come, those of its replies come
//! out. It is built as a static library; `include/gridlet.h` declares it.
#![tactic(auto)]

ghost use Rattle.std.specs.Prelude.{◌≡◌, ◌≢◌, ◌↔◌, ◌⊎◌, ◌≤◌, [], take, drop, length, Some};
ghost use Rattle.std.specs.Prelude.{IsTrue};
ghost use Rattle.gl_language.specs.Texts.Text.{Bytes};
ghost use Rattle.gl_run.specs.{declared.top.Status.Status as Ended, Status.number_of};
ghost use Rattle.gridlet_c.specs.Statuses.{is_unusable, Leaves, IsWhole};

mod answering;
mod copying;
mod growing;
mod handle;
mod live;
mod sessions;

use crate::answering::{MOST_ORDER, answer, number};
use crate::copying::copy_front;
use crate::growing::Growing;
use gl_run::Status;
use std::alloc::Global;

/// Answers a script, and writes the replies to `out`, `written` bytes of them. `order` is 0, 1 or 2:
/// the first idle key is evaluated next, the last, or each in turn; no reply depends on it.
///
/// The status is the program's: 0 where the script was answered, 1 where some command of it was
/// refused, 2 where `order` is another number or `out` has no room, 3 where no memory was left, and
/// then whole replies are written, 5 where `out` has too little room, and 6 where the script is
/// longer than 16,777,216 bytes and has no `quit` before that.
#[unsafe(no_mangle)]
pub extern "C" fn gridlet_run(
    alloc: Global,
    script: &[u8],
    order: u32,
    out: &mut [u8],
    written: &mut usize,
) -> u32
    // Status 2 exactly where the arguments can't be used, and then nothing is written.
    ensures usage { (result ≡ 2) ↔ IsTrue (is_unusable order (length out.old)) }
    ensures usage_untouched { result ≡ 2 → (out.new ≡ out.old) × (written.new ≡ 0) }

    // Else what is written is what `run` writes for the script, with its status.
    ensures replies { result ≢ 2 → (status : Ended) × (result ≡ number_of status)
        × Leaves status script.now (Some []) (Some (take written.new out.new))
        (λ n. n ≤ length out.old) }

    // What stands behind stays.
    ensures within { written.new ≤ length out.old }
    ensures behind { drop written.new out.new ≡ drop written.new out.old }
{
    *written = 0;
    if order > MOST_ORDER || out.is_empty() {
        return number(Status::Usage);
    }
    let mut sink = Growing::new(alloc);
    match answer(alloc, script, order, &mut sink) {
        // the sink fails for want of memory alone
        Status::WriteFault => number(Status::NoMemory),
        status => {
            let count = copy_front(out, sink.taken());
            *written = count;
            if count < sink.taken().len() {
                return number(Status::WriteFault);
            }
            number(status)
        }
    }
}

/// Tells in `room` how many bytes the replies to a script take. The status is that of `gridlet_run`
/// with so much room; where no memory was left, `room` is 0.
#[unsafe(no_mangle)]
pub extern "C" fn gridlet_room(alloc: Global, script: &[u8], order: u32, room: &mut usize) -> u32
    ensures usage { (result ≡ 2) ↔ IsTrue (is_unusable order 1) }
    ensures room { (result ≢ 2) → (result ≢ 3) → (status : Ended) × (result ≡ number_of status)
        × IsWhole status × ((out : Bytes) × (length out ≡ room.new)
        × Leaves status script.now (Some []) (Some out) (λ n. ⊥)) }
    ensures no_room { (result ≡ 2) ⊎ (result ≡ 3) → room.new ≡ 0 }
{
    *room = 0;
    if order > MOST_ORDER {
        return number(Status::Usage);
    }
    let mut sink = Growing::new(alloc);
    let status = answer(alloc, script, order, &mut sink);
    match status {
        Status::Done { .. } | Status::InputLimit => {
            *room = sink.taken().len();
            number(status)
        }
        _ => number(Status::NoMemory),
    }
}
