//! No read follows a write that failed, and no write follows a read that failed: all reads and all
//! writes of a run are counted, and there are as many as were needed up to the failure.
use crate::tests::calls::DONE;
use crate::tests::faults::{SCRIPT, Watched};
use gl_demand::{Silent, Steps};
use gl_order::{Order, by_kind};
use gl_port::{MemSink, MemSource};
use gl_run::{Status, run};
use std::alloc::Global;
use std::test::Fail;

/// How many bytes each read and each write takes at most, which of them fail, how the run ends then,
/// and how many reads and writes there were, those that failed among them.
struct Row {
    read_step: usize,
    write_step: usize,
    reads: &'static [u64],
    writes: &'static [u64],
    status: Status,
    calls: (u64, u64),
}

/// The reads of nine bytes are five, and one more tells the end; those of one byte are 41.
const ROWS: &[Row] = &[
    // the write of the first reply fails: the first read brought its line
    Row {
        read_step: 9,
        write_step: 3,
        reads: &[],
        writes: &[0],
        status: Status::WriteFault,
        calls: (1, 1),
    },
    // that of the second: its line ended in the third read
    Row {
        read_step: 9,
        write_step: 3,
        reads: &[],
        writes: &[1],
        status: Status::WriteFault,
        calls: (3, 2),
    },
    // that of the last: the read that would tell the end does not follow
    Row {
        read_step: 9,
        write_step: 3,
        reads: &[],
        writes: &[3],
        status: Status::WriteFault,
        calls: (5, 4),
    },
    // that of the rest of the third, read byte by byte
    Row {
        read_step: 1,
        write_step: 2,
        reads: &[],
        writes: &[5],
        status: Status::WriteFault,
        calls: (33, 6),
    },
    // that of the first, whose line and half of the third stand in one read
    Row {
        read_step: 26,
        write_step: 1,
        reads: &[],
        writes: &[2],
        status: Status::WriteFault,
        calls: (1, 3),
    },
    // the first read fails: nothing is written
    Row {
        read_step: 9,
        write_step: 3,
        reads: &[0],
        writes: &[],
        status: Status::ReadFault,
        calls: (1, 0),
    },
    // one in the middle, behind 27 bytes: the replies to two lines were written
    Row {
        read_step: 9,
        write_step: 3,
        reads: &[3],
        writes: &[],
        status: Status::ReadFault,
        calls: (4, 2),
    },
    // the one that would end the third line, of which all but one byte were read
    Row {
        read_step: 1,
        write_step: 2,
        reads: &[32],
        writes: &[],
        status: Status::ReadFault,
        calls: (33, 4),
    },
    // the last that has bytes: only the last line has not ended
    Row {
        read_step: 9,
        write_step: 1,
        reads: &[4],
        writes: &[],
        status: Status::ReadFault,
        calls: (5, 9),
    },
    // the one that would tell the end; the replies of each of the others were written together
    Row {
        read_step: 26,
        write_step: 2,
        reads: &[2],
        writes: &[],
        status: Status::ReadFault,
        calls: (3, 6),
    },
    // none fails: the replies to all lines of one read are one write
    Row {
        read_step: 100,
        write_step: 100,
        reads: &[],
        writes: &[],
        status: DONE,
        calls: (2, 1),
    },
];

/// The run ends as the row says, behind just as many reads and writes.
fn holds(alloc: Global, row: &Row) -> Result<bool, Fail> {
    let reads = row.reads.to_vec(alloc)?;
    let writes = row.writes.to_vec(alloc)?;
    let inner = MemSource::new(SCRIPT.to_vec(alloc)?, row.read_step.max(1), reads);
    let mut source = Watched::new(inner, false);
    let inner = MemSink::new(alloc, 100, row.write_step.max(1), writes)?;
    let mut sink = Watched::new(inner, false);
    let order = Order::new(by_kind);
    let mut steps = Steps::new(Silent);
    let ended = run(alloc, &[], &order, &mut source, &mut sink, &mut steps);
    Ok(ended == row.status && (source.calls, sink.calls) == row.calls)
}

#[test]
fn a_failure_on_one_side_ends_the_calls_of_the_other(rt: HostRuntime) -> Result<(), Fail> {
    for (i, row) in ROWS.iter().enumerate() {
        assert!(rt; holds(rt.alloc(), row)?, "{i}");
    }
    Ok(())
}
