//! A script is answered into a sink.
ghost use Rattle.std.specs.Prelude.{◌≡◌, ◌≢◌, ℕ, List, Option, IfOk, None};
ghost use Rattle.gl_run.specs.{Status.number_of};
ghost use Rattle.gl_protocol.specs.Run.Call.{words_call, input_of};
ghost use Rattle.gridlet_c.specs.Statuses.{Leaves};

use gl_demand::{Silent, Steps};
use gl_order::{Order, by_kind};
use gl_plane::NoMemory;
use gl_port::{MemSource, Sink};
use gl_run::{Status, run};
use std::alloc::Global;

// The most bytes of one read.
const CHUNK: usize = 4096;

/// The last order: each in turn.
pub const MOST_ORDER: u32 = 2;

/// The number of a status, as the program's exit status.
pub fn number(status: Status) -> u32
    ensures { result ≡ number_of status }
{
    u32::from(status.number())
}

// The words of a call in this order, which read a source.
fn words(alloc: Global, order: u32) -> Result<Vec<String>, NoMemory>
    ensures input { IfOk result (λ ws. (left : Option (List ℕ)) → input_of ws.items left ≡ left) }
    ensures form { IfOk result (λ ws. words_call ws.items ≢ None) }
{
    let word = match order {
        0 => "first",
        1 => "last",
        _ => "turn",
    };
    let mut words = Vec::new(alloc);
    words.push(String::from_str(alloc, "--order")?)?;
    words.push(String::from_str(alloc, word)?)?;
    Ok(words)
}

/// Answers the script by the rule of this order, and writes the replies to the sink.
pub fn answer<K: Sink>(alloc: Global, script: &[u8], order: u32, sink: &mut K) -> Status
    ensures { Leaves result script.now (K.taken sink.old) (K.taken sink.new) (K.takes sink.old) }
{
    let Ok(words) = words(alloc, order) else {
        return Status::NoMemory;
    };
    let Ok(bytes) = script.to_vec(alloc) else {
        return Status::NoMemory;
    };
    let mut source = MemSource::new(bytes, CHUNK, Vec::new(alloc));
    let order = Order::new(by_kind);
    let mut steps = Steps::new(Silent);
    run(alloc, &words, &order, &mut source, sink, &mut steps)
}
