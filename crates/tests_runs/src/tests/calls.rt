//! Calls of `run` over sources and sinks in memory, and whether they end as they must.
ghost use Rattle.gl_calculus.specs.Steps.Rule.{PicksBelow};
ghost use Rattle.gl_order.specs.Rule.{rule_of};

use gl_demand::{Silent, Steps, Watch};
use gl_order::{Order, by_kind};
use gl_port::{MemSink, MemSource};
use gl_run::{Status, run};
use std::alloc::Global;
use std::process::Abort;
use std::test::Fail;

/// The status of a run without a fault, whose replies are no errors.
pub const DONE: Status = Status::Done { refused: false };

/// The status of a run without a fault that refuses something.
pub const REFUSED: Status = Status::Done { refused: true };

/// The words and the script of a call, its replies, and how it ends.
#[derive(Clone, Copy)]
pub struct Call<'a> {
    pub words: &'a [&'a str],
    pub script: &'a [u8],
    pub replies: &'a [u8],
    pub status: Status,
}

/// How many bytes each read and each write takes at most, which of the reads and writes fail, and the
/// room of the sink.
#[derive(Clone, Copy)]
pub struct Plan<'a> {
    pub step: usize,
    pub reads: &'a [u64],
    pub writes: &'a [u64],
    pub room: usize,
}

/// Nothing fails.
pub fn cut_at(step: usize) -> Plan<'static> {
    Plan {
        step,
        reads: &[],
        writes: &[],
        room: 100_000,
    }
}

/// The words as `run` takes them.
fn strings(alloc: Global, words: &[&str]) -> Result<Vec<String>, Fail> {
    let mut all = Vec::new(alloc);
    for word in words {
        all.push(String::from_str(alloc, word)?)?;
    }
    Ok(all)
}

/// By this rule the call ends so, with exactly these replies. The count of evaluations goes on.
pub fn ends_by<F: Fn(u8, u64, u64) -> u64, L: Watch>(
    alloc: Global,
    call: &Call<'_>,
    plan: &Plan<'_>,
    order: &Order<F>,
    steps: &mut Steps<L>,
) -> Result<bool, Fail>
    requires { PicksBelow (F.pre (rule_of order.now)) (F.post (rule_of order.now)) }
{
    let step = plan.step.max(1);
    let words = strings(alloc, call.words)?;
    let reads = plan.reads.to_vec(alloc)?;
    let writes = plan.writes.to_vec(alloc)?;
    let mut source = MemSource::new(call.script.to_vec(alloc)?, step, reads);
    let mut sink = MemSink::new(alloc, plan.room, step, writes)?;
    let ended = run(alloc, &words, order, &mut source, &mut sink, steps);
    Ok(ended == call.status && sink.taken() == call.replies)
}

/// By the program's own rule the call ends so, with exactly these replies.
pub fn ends(alloc: Global, call: &Call<'_>, plan: &Plan<'_>) -> Result<bool, Fail> {
    let order = Order::new(by_kind);
    ends_by(alloc, call, plan, &order, &mut Steps::new(Silent))
}

/// The script, called without a word, has these replies and ends so.
pub fn is_answered(
    alloc: Global,
    script: &[u8],
    plan: &Plan<'_>,
    replies: &[u8],
    status: Status,
) -> Result<bool, Fail> {
    let call = Call {
        words: &[],
        script,
        replies,
        status,
    };
    ends(alloc, &call, plan)
}

/// A script, its replies, and how the run ends.
pub type Row<'a> = (&'a [u8], &'a [u8], Status);

/// The script has these replies by the pick rule of this name.
pub fn holds_by(alloc: Global, row: &Row<'_>, kind: &str) -> Result<bool, Fail> {
    let (script, replies, status) = *row;
    let call = Call {
        words: &["--order", kind],
        script,
        replies,
        status,
    };
    ends(alloc, &call, &cut_at(4096))
}

/// The script has these replies by each pick rule.
pub fn holds(alloc: Global, row: &Row<'_>) -> Result<bool, Fail> {
    for kind in ["first", "last", "turn"] {
        if !holds_by(alloc, row, kind)? {
            return Ok(false);
        }
    }
    Ok(true)
}

/// Each script of a table has its replies by the pick rule of this name.
pub fn assert_rows_by(
    rt: &impl Abort,
    alloc: Global,
    rows: &[Row<'_>],
    kind: &str,
) -> Result<(), Fail> {
    for row in rows {
        assert!(rt; holds_by(alloc, row, kind)?, "{:?}", row.0);
    }
    Ok(())
}

/// Each script of a table has its replies by each pick rule.
pub fn assert_rows(rt: &impl Abort, alloc: Global, rows: &[Row<'_>]) -> Result<(), Fail> {
    for row in rows {
        assert!(rt; holds(alloc, row)?, "{:?}", row.0);
    }
    Ok(())
}
