//! What a run does where reads and writes fail: a failure that was made good inside counts, and the
//! run goes on; behind one that was answered nothing more is read, and nothing more is written.
ghost use Rattle.std.specs.Prelude.{None};

use crate::tests::calls::DONE;
use gl_demand::{Silent, Steps};
use gl_order::{Order, by_kind};
use gl_port::{Failed, MemSink, MemSource, Sink, Source};
use gl_run::{Status, run};
use std::alloc::Global;
use std::test::Fail;

/// A source or a sink that counts all calls and each that failed, and may try one that failed once
/// more. It notes the calls behind the first that it answered as failed.
#[derive(Drop)]
pub struct Watched<T> {
    pub inner: T,
    again: bool,
    pub calls: u64,
    pub faults: u64,
    ended: bool,
    pub behind: u64,
}

impl<T> Watched<T> {
    ghost use Rattle.std.specs.Prelude.{◌≡◌, ◌≤◌};
    ghost use Rattle.gl_port.specs.Causes.{HasCause};

    /// No call yet.
    pub fn new(inner: T, again: bool) -> Watched<T> {
        Watched {
            inner,
            again,
            calls: 0,
            faults: 0,
            ended: false,
            behind: 0,
        }
    }

    /// Counts a call, and whether it is tried once more where the first try came to this.
    fn is_tried_again(&mut self, first: Result<usize, Failed>) -> bool
        ensures { self.old.faults ≤ self.new.faults }
    {
        self.calls = self.calls.saturating_add(1);
        if self.ended {
            self.behind = self.behind.saturating_add(1);
        }
        let again = self.again && first.is_err();
        if again {
            self.faults = self.faults.saturating_add(1);
        }
        again
    }

    /// Notes the answer to a call, by the last try.
    fn answered(&mut self, last: Result<usize, Failed>) -> Result<usize, Failed>
        ensures same { result ≡ last }
        ensures cause { HasCause self.old.faults self.new.faults last }
    {
        if last.is_err() {
            self.faults = self.faults.saturating_add(1);
            self.ended = true;
        }
        last
    }
}

impl Source for Watched<MemSource> {
    ghost left = { λ _. None };

    ghost faults = { λ s. s.faults };

    ghost is_exact = { λ _. ⊥ };

    ghost plan = { λ _. None };

    ghost never_fails = { λ _. ⊥ };

    fn read(&mut self, buf: &mut [u8]) -> Result<usize, Failed> {
        let first = self.inner.read(buf);
        let again = self.is_tried_again(first);
        let last = if again { self.inner.read(buf) } else { first };
        self.answered(last)
    }
}

impl Sink for Watched<MemSink> {
    ghost taken = { λ _. None };

    ghost faults = { λ s. s.faults };

    ghost is_exact = { λ _. ⊥ };

    ghost plan = { λ _. None };

    ghost takes = { λ _ _. ⊥ };

    fn write(&mut self, bytes: &[u8]) -> Result<usize, Failed> {
        let first = self.inner.write(bytes);
        let again = self.is_tried_again(first);
        let last = if again {
            self.inner.write(bytes)
        } else {
            first
        };
        self.answered(last)
    }
}

/// Which calls fail, second tries among them, and whether there are such; how the run ends then, how
/// often reads and writes failed, and whether all replies were written.
struct Row {
    reads: &'static [u64],
    writes: &'static [u64],
    again: bool,
    status: Status,
    faults: (u64, u64),
    whole: bool,
}

const ROWS: &[Row] = &[
    Row {
        reads: &[],
        writes: &[],
        again: true,
        status: DONE,
        faults: (0, 0),
        whole: true,
    },
    Row {
        reads: &[0, 2, 5],
        writes: &[],
        again: true,
        status: DONE,
        faults: (3, 0),
        whole: true,
    },
    Row {
        reads: &[1],
        writes: &[0, 3],
        again: true,
        status: DONE,
        faults: (1, 2),
        whole: true,
    },
    Row {
        reads: &[2, 3],
        writes: &[],
        again: true,
        status: Status::ReadFault,
        faults: (2, 0),
        whole: false,
    },
    Row {
        reads: &[],
        writes: &[1, 2],
        again: true,
        status: Status::WriteFault,
        faults: (0, 2),
        whole: false,
    },
    Row {
        reads: &[3],
        writes: &[],
        again: false,
        status: Status::ReadFault,
        faults: (1, 0),
        whole: false,
    },
    Row {
        reads: &[],
        writes: &[2],
        again: false,
        status: Status::WriteFault,
        faults: (0, 1),
        whole: false,
    },
];

/// Four lines, which end behind 9, 19, 33 and 41 bytes. Their replies have three bytes each.
pub const SCRIPT: &[u8] = b"set A1 2\nset B1 40\nset C1 =A1+B1\nshow C1\n";

/// The run goes as the row says, and no call follows one that was answered as failed.
fn holds(alloc: Global, row: &Row) -> Result<bool, Fail> {
    let reads = row.reads.to_vec(alloc)?;
    let writes = row.writes.to_vec(alloc)?;
    let inner = MemSource::new(SCRIPT.to_vec(alloc)?, 9, reads);
    let mut source = Watched::new(inner, row.again);
    let mut sink = Watched::new(MemSink::new(alloc, 100, 2, writes)?, row.again);
    let order = Order::new(by_kind);
    let mut steps = Steps::new(Silent);
    let ended = run(alloc, &[], &order, &mut source, &mut sink, &mut steps);
    let whole = sink.inner.taken() == b"ok\nok\nok\n42\n".as_slice();
    let told = (source.faults, sink.faults) == row.faults && whole == row.whole;
    Ok(ended == row.status && told && source.behind == 0 && sink.behind == 0)
}

#[test]
fn failures_that_are_made_good_count_and_others_end_the_run(rt: HostRuntime) -> Result<(), Fail> {
    for (i, row) in ROWS.iter().enumerate() {
        assert!(rt; holds(rt.alloc(), row)?, "{i}");
    }
    Ok(())
}
