//! Replies that are collected, and then written together.
ghost use Rattle.std.specs.Prelude.{◌≡◌, ◌++◌, OnOk, OnErr, MatchResult};
ghost use Rattle.gl_run.specs.Planned.{NoneFailed, LastFailed, SendsByPlan};
ghost use Rattle.gl_run.specs.Sending.{Sends, Passes};

use crate::session::Stop;
use crate::write::write_all;
use gl_plane::NoMemory;
use gl_port::{Failed, Sink};

/// So many bytes of replies are written before more are collected.
const FULL: usize = 65_536;

/// One more reply. The first one is taken over, so that a long reply stands in memory once. After
/// `NoMemory` what is collected is as before.
pub fn collect(out: &mut Vec<u8>, reply: Vec<u8>) -> Result<(), NoMemory>
    ensures ok { OnOk result (out.new.items ≡ out.old.items ++ reply.items) }
    ensures err { OnErr result (out.new.items ≡ out.old.items) }
{
    if out.is_empty() {
        *out = reply;
        return Ok(());
    }
    out.extend_from_slice(&reply)?;
    Ok(())
}

/// Writes what is collected, and answers what is given; where the write fails, that.
pub fn send<K: Sink, T: Copy>(sink: &mut K, out: &[u8], given: Result<T, Stop>) -> Result<T, Stop>
    ensures sent { Sends (K.taken sink.old) (K.taken sink.new) (K.takes sink.old) (K.takes sink.new)
        (K.is_exact sink.old) (K.is_exact sink.new) (K.faults sink.old) (K.faults sink.new) out.now
        given result }
    ensures planned { SendsByPlan (K.plan sink.old) (K.plan sink.new) given result }
{
    match write_all(sink, out) {
        Ok(()) => given,
        Err(Failed) => Err(Stop::WriteFault),
    }
}

/// Writes what is collected, and begins anew, where it is much.
pub fn pass_on<K: Sink>(sink: &mut K, out: &mut Vec<u8>) -> Result<(), Stop>
    ensures passed { Passes (K.taken sink.old) (K.taken sink.new) (K.takes sink.old) (K.takes sink.new)
        (K.is_exact sink.old) (K.is_exact sink.new) (K.faults sink.old) (K.faults sink.new)
        out.old.items out.new.items result }
    ensures planned { MatchResult result (λ _. NoneFailed (K.plan sink.old) (K.plan sink.new))
        (λ _. LastFailed (K.plan sink.old) (K.plan sink.new)) }
{
    if out.len() < FULL {
        return Ok(());
    }
    let done = send(sink, out, Ok(()));
    out.clear();
    done
}
