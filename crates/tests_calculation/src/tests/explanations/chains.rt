//! Certificates of long chains and long ranges.
use crate::tests::explanations::certificates::{evaluator_of, found, verdict_on};
use gl_cells::Cells;
use gl_cert::Verdict;
use gl_demand::{Evaluator, Silent, Steps};
use gl_plane::Oracle;
use std::alloc::Global;
use std::test::Fail;
use tests_common::{Form, first_column, sheet_with};

/// A chain of so many formulas over a blank.
fn chain(alloc: Global, length: usize) -> Result<Cells, Fail> {
    let links = first_column(1, length, Form::Below("", "+1"));
    sheet_with(alloc, &[], &links)
}

/// How many notes the first cell's certificate has, how many steps the walk takes, and how many the
/// check takes then, where the certificate is accepted.
fn counts(at: &Evaluator<'_>) -> Result<(usize, u64, u64), Fail> {
    let mut walked = Steps::new(Silent);
    let c = found(at, "A1", &mut walked)?;
    let mut checked = Steps::new(Silent);
    match verdict_on(at, "A1", &c, &mut checked)? {
        Verdict::Accepted => Ok((c.notes.len(), walked.done(), checked.done())),
        _ => Err("not accepted".into()),
    }
}

/// Lengths of chains, and how many steps the walks take: at least one for each cell, and at most two
/// for each but the last.
const LENGTHS: &[(usize, u64)] = &[(1, 1), (2, 3), (3, 5), (50, 99), (3_000, 5_999)];

#[test]
fn chains_are_explained(rt: HostRuntime) -> Result<(), Fail> {
    for (length, steps) in LENGTHS {
        let alloc = rt.alloc();
        let cells = chain(alloc, *length)?;
        let w = Oracle::new(alloc);
        let at = evaluator_of(alloc, &cells, &w);
        assert_eq!(rt; counts(&at)?, (*length, *steps, *length as u64));
    }
    Ok(())
}

/// A sum over 2,000 formulas below it.
fn sum(alloc: Global) -> Result<Cells, Fail> {
    let terms = first_column(2, 2001, Form::Same("1+2"));
    sheet_with(alloc, &["set A1 =SUM(A2:A2001)"], &terms)
}

#[test]
fn a_sum_is_explained(rt: HostRuntime) -> Result<(), Fail> {
    let alloc = rt.alloc();
    let cells = sum(alloc)?;
    let w = Oracle::new(alloc);
    let at = evaluator_of(alloc, &cells, &w);
    // the sum is evaluated for its first term, and once more where all terms have notes
    assert_eq!(rt; counts(&at)?, (2_001, 2_002, 2_001));
    Ok(())
}
