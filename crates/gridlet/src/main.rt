//! Gridlet: a spreadsheet run by a script. Commands come in on standard input, and one reply to each
//! goes out on standard output.
#![tactic(auto)]

use gl_demand::{Silent, Steps};
use gl_order::{Order, by_kind};
use gl_port::{StdIn, StdOut};
use gl_run::{Status, run};
use std::alloc::Global;
use std::io::{self, ErrorKind};
use std::process::ExitCode;

/// The bytes of a block that is freed at the start, just below 32 MiB. None of them is touched.
const KEPT: usize = 33_000_000;

// The words behind the program's name.
fn words(rt: &HostRuntime) -> io::Result<Vec<String>> {
    let mut all = std::env::args(rt)?;
    let _program = all.next();
    Ok(all.collect(rt.alloc())?)
}

// The C library's heap gives freed memory back to the system above a limit, which rises to twice
// the largest block that was freed, if that has at most 32 MiB. So the next query finds what one
// has freed.
fn keep_freed(alloc: Global) {
    let block: Result<Vec<u8>, _> = Vec::with_capacity(alloc, KEPT);
    drop(block);
}

fn main(rt: HostRuntime) -> ExitCode {
    let words = match words(&rt) {
        Ok(words) => words,
        Err(error) if error.kind() == ErrorKind::OutOfMemory => {
            return ExitCode::from(Status::NoMemory.number());
        }
        // a word is no UTF-8
        Err(_) => return ExitCode::from(Status::Usage.number()),
    };
    keep_freed(rt.alloc());
    let mut source = StdIn::new(rt.stdin());
    let mut sink = StdOut::new(rt.stdout());
    let order = Order::new(by_kind);
    let mut steps = Steps::new(Silent);
    let status = run(
        rt.alloc(),
        &words,
        &order,
        &mut source,
        &mut sink,
        &mut steps,
    );
    ExitCode::from(status.number())
}
