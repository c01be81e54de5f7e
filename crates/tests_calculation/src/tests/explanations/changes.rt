//! What is said of certificates of which something was changed.
use crate::tests::explanations::certificates::{evaluator_of, found, verdict_on};
use crate::tests::explanations::parts::Claimed::{Number, Of, Own};
use crate::tests::explanations::parts::{Claimed, Parts, of_parts};
use gl_cert::Verdict;
use gl_demand::{Evaluator, Silent, Steps};
use gl_plane::{Oracle, Permit};
use std::alloc::Global;
use std::process::Abort;
use std::test::Fail;
use tests_common::{one_entry, sheet_of};

/// The notes, the loops and what is shown of a certificate that is made of the parts of the one found,
/// and what is said of it.
type Change = (
    &'static [(usize, Claimed)],
    &'static [&'static str],
    Option<i64>,
    Verdict,
);

/// Of two notes: of an array, and of a sum that reads its second element.
#[rattlefmt::skip]
const CHANGED_NOTES: &[Change] = &[
    (&[(0, Own), (1, Own)], &[], None, Verdict::Accepted),
    (&[(0, Own), (1, Number(4))], &[], None, Verdict::Note { at: 1 }),
    (&[(0, Number(1)), (1, Own)], &[], None, Verdict::Note { at: 0 }),
    (&[(1, Own), (0, Own)], &[], None, Verdict::Note { at: 0 }),
    (&[(0, Own), (0, Own), (1, Own)], &[], None, Verdict::Note { at: 1 }),
    (&[(0, Own), (1, Own), (1, Own)], &[], None, Verdict::Note { at: 2 }),
    (&[(0, Own), (1, Own)], &[], Some(4), Verdict::Wrong),
    (&[(0, Own)], &[], None, Verdict::Wrong),
    (&[], &[], None, Verdict::Wrong),
    (&[(1, Own)], &[], Some(4), Verdict::Note { at: 0 }),
    // a key that has an outcome waits for none
    (&[(0, Own), (1, Own)], &["B1"], None, Verdict::Loop { at: 0 }),
];

/// A cell that views a copy.
#[rattlefmt::skip]
const COPY: &[&str] = &["set A1 1", "set B1 =A1+1", "set C1 =VIEW(UPDATE(SHEET(A1:B1),A1,5),B1)"];

/// Of three notes: of a cell of a copy, of the copy, and of a cell that views it.
#[rattlefmt::skip]
const CHANGED_COPIES: &[Change] = &[
    (&[(0, Own), (1, Own), (2, Own)], &[], None, Verdict::Accepted),
    (&[(0, Own), (1, Of(0)), (2, Own)], &[], None, Verdict::Note { at: 1 }),
    (&[(0, Of(1)), (1, Own), (2, Own)], &[], None, Verdict::Note { at: 0 }),
    (&[(1, Own), (0, Own), (2, Own)], &[], None, Verdict::Note { at: 0 }),
    (&[(0, Own), (2, Own)], &[], None, Verdict::Note { at: 1 }),
];

/// Two circles, a formula that reads one of them, and one that loops not.
#[rattlefmt::skip]
const LOOPS: &[&str] = &[
    "set A1 =B1", "set B1 =A1", "set C1 =IFERROR(A1,7)", "set D1 =E1", "set E1 =D1", "set F1 =1",
];

/// Of three loops: of a formula that reads the second, which waits for the third, and that for it.
#[rattlefmt::skip]
const CHANGED_LOOPS: &[Change] = &[
    (&[], &["C1", "A1", "B1"], None, Verdict::Accepted),
    (&[], &["C1", "A1"], None, Verdict::Loop { at: 1 }),
    (&[], &["C1", "B1"], None, Verdict::Loop { at: 0 }),
    (&[], &["C1"], None, Verdict::Loop { at: 0 }),
    (&[], &["B1", "A1", "C1"], None, Verdict::Accepted),
    (&[], &["C1", "A1", "B1", "A1"], None, Verdict::Accepted),
    (&[], &["C1", "A1", "B1", "D1", "E1"], None, Verdict::Accepted),
    (&[], &["A1", "B1"], None, Verdict::Wrong),
    (&[], &[], None, Verdict::Wrong),
    (&[], &["C1", "A1", "B1"], Some(7), Verdict::Wrong),
    (&[], &["C1", "A1"], Some(7), Verdict::Loop { at: 1 }),
    // an address without formula, and a formula that waits for none
    (&[], &["A1", "B1", "Z9"], None, Verdict::Loop { at: 2 }),
    (&[], &["A1", "B1", "F1"], None, Verdict::Loop { at: 2 }),
];

/// What is said of the changed certificate of an address.
fn said(at: &Evaluator<'_>, name: &str, change: &Change) -> Result<Verdict, Fail> {
    let whole = found(at, name, &mut Steps::new(Silent))?;
    let parts = Parts {
        notes: change.0,
        loops: change.1,
        shown: change.2,
    };
    let changed = of_parts(at.alloc, &whole, &parts)?;
    let mut steps = Steps::new(Silent);
    let verdict = verdict_on(at, name, &changed, &mut steps)?;
    if steps.done() > change.0.len().saturating_add(change.1.len()) as u64 {
        return Err("more steps than notes and loops".into());
    }
    Ok(verdict)
}

/// What is said of the changed certificates of an address of this sheet is what their rows say.
fn assert_said(
    rt: &impl Abort,
    alloc: Global,
    lines: &[&str],
    w: &Oracle,
    name: &str,
    changes: &[Change],
) -> Result<(), Fail> {
    let cells = sheet_of(alloc, lines)?;
    let at = evaluator_of(alloc, &cells, w);
    for (i, change) in changes.iter().enumerate() {
        assert!(rt; said(&at, name, change)? == change.3, "row {i}");
    }
    Ok(())
}

#[test]
fn changed_notes(rt: HostRuntime) -> Result<(), Fail> {
    let lines = ["set A1 =SEQUENCE(2,1)", "set B1 =A2+1"];
    let w = one_entry(rt.alloc(), "A1", 2, 1, Permit::Permitted)?;
    assert_said(&rt, rt.alloc(), &lines, &w, "B1", CHANGED_NOTES)
}

#[test]
fn changed_copies(rt: HostRuntime) -> Result<(), Fail> {
    let w = Oracle::new(rt.alloc());
    assert_said(&rt, rt.alloc(), COPY, &w, "C1", CHANGED_COPIES)
}

#[test]
fn changed_loops(rt: HostRuntime) -> Result<(), Fail> {
    let w = Oracle::new(rt.alloc());
    assert_said(&rt, rt.alloc(), LOOPS, &w, "C1", CHANGED_LOOPS)
}

/// Of two notes, and of a loop that reads both.
#[rattlefmt::skip]
const CHANGED_BOTH: &[Change] = &[
    (&[(0, Own), (1, Own)], &["C1"], None, Verdict::Accepted),
    (&[(0, Own)], &["C1"], None, Verdict::Loop { at: 0 }),
    (&[], &["C1"], None, Verdict::Loop { at: 0 }),
    (&[(0, Own), (1, Own)], &["C1", "A1"], None, Verdict::Loop { at: 1 }),
    (&[(0, Own), (1, Own)], &[], None, Verdict::Wrong),
    (&[(0, Own), (1, Number(4))], &[], None, Verdict::Note { at: 1 }),
];

#[test]
fn changed_notes_and_loops(rt: HostRuntime) -> Result<(), Fail> {
    let lines = ["set A1 =1+1", "set B1 =A1+1", "set C1 =IF(B1=3,A1+C1,0)"];
    let w = Oracle::new(rt.alloc());
    assert_said(&rt, rt.alloc(), &lines, &w, "C1", CHANGED_BOTH)
}

#[test]
fn steps_of_a_check(rt: HostRuntime) -> Result<(), Fail> {
    let alloc = rt.alloc();
    let cells = sheet_of(alloc, &["set A1 =1+1", "set B1 =A1+1", "set C1 =B1+C1"])?;
    let w = Oracle::new(alloc);
    let at = evaluator_of(alloc, &cells, &w);
    let c = found(&at, "C1", &mut Steps::new(Silent))?;
    let mut steps = Steps::new(Silent);
    assert_eq!(rt; verdict_on(&at, "C1", &c, &mut steps)?, Verdict::Accepted);
    assert_eq!(rt; (c.notes.len(), c.loops.len(), steps.done()), (2, 1, 3));
    Ok(())
}
