//! What is found of addresses.
use crate::tests::explanations::certificates::{
    Counts, evaluator_of, explained, found, is_found, verdict_on,
};
use gl_cert::Verdict;
use gl_demand::{Budget, Evaluator, Silent, Steps};
use gl_explain::Explained;
use gl_plane::{Oracle, Permit};
use std::test::Fail;
use tests_common::{one_entry, sheet_of};

/// A sheet, the permit of two cells from A1 down, and of an address the counts of its certificate and
/// what is shown.
type Row = (
    &'static [&'static str],
    Permit,
    &'static str,
    Counts,
    &'static str,
);

const COLUMN: &[&str] = &[
    "set A1 =SEQUENCE(2,1)",
    "set B1 =A2+1",
    "set C1 5",
    "set D1 =SUM(A1:C1)",
];

const CIRCLE: &[&str] = &["set A1 =B1", "set B1 =A1", "set C1 =IFERROR(A1,7)"];

const ROWS: &[Row] = &[
    (COLUMN, Permit::Permitted, "A1", (1, 0, 1), "1"),
    (COLUMN, Permit::Permitted, "A2", (1, 0, 1), "2"),
    (COLUMN, Permit::Permitted, "B1", (2, 0, 3), "3"),
    (COLUMN, Permit::Permitted, "C1", (0, 0, 0), "5"),
    (COLUMN, Permit::Permitted, "D1", (3, 0, 4), "9"),
    (COLUMN, Permit::Permitted, "Z9", (0, 0, 0), "."),
    (COLUMN, Permit::Refused, "A1", (1, 0, 1), "#SPILL!"),
    (COLUMN, Permit::Refused, "A2", (0, 0, 0), "."),
    (CIRCLE, Permit::Refused, "C1", (0, 3, 3), "#CYCLE!"),
    (CIRCLE, Permit::Refused, "A1", (0, 2, 2), "#CYCLE!"),
    // a root that loops spills nothing
    (CIRCLE, Permit::Permitted, "A2", (0, 2, 2), "."),
];

/// The verdict on the certificate of an address.
fn said(at: &Evaluator<'_>, name: &str) -> Result<Verdict, Fail> {
    let c = found(at, name, &mut Steps::new(Silent))?;
    verdict_on(at, name, &c, &mut Steps::new(Silent))
}

#[test]
fn what_is_found_is_accepted(rt: HostRuntime) -> Result<(), Fail> {
    for row in ROWS {
        let cells = sheet_of(rt.alloc(), row.0)?;
        let w = one_entry(rt.alloc(), "A1", 2, 1, row.1)?;
        let at = evaluator_of(rt.alloc(), &cells, &w);
        let holds = is_found(&at, row.2, row.3, row.4)?;
        assert!(rt; holds, "{} of {:?}", row.2, row.0);
        let verdict = said(&at, row.2)?;
        assert!(rt; verdict == Verdict::Accepted, "{} of {:?}", row.2, row.0);
    }
    Ok(())
}

/// Copies of copies, down to a number of them.
const DEEP: &[&str] = &[
    "set A1 0",
    "set B1 =IF(A1=0,0,A1+VIEW(UPDATE(SHEET(A1:B1),A1,A1-1),B1))",
    "set D1 =VIEW(UPDATE(SHEET(A1:B1),A1,95),B1)",
    "set E1 =VIEW(UPDATE(SHEET(A1:B1),A1,96),B1)",
];

/// A copy that never settles, and what reads it.
const TURNING: &[&str] = &[
    "set D1 0",
    "set A2 =SEQUENCE(1,3)",
    "set B1 =IF(D1=0,1,IF(ISERROR(ROWS(A2#)),1,SEQUENCE(3,1)))",
    "set F1 =G(A1:D3,D1,1)",
    "set F9 =IFERROR(F1,1)",
    "set G9 =IF(TRUE,2,F1)",
];

/// A sheet, an address, and the budget that explains it, if one does.
const BUDGETS: &[(&[&str], &str, Option<Budget>)] = &[
    (DEEP, "D1", None),
    (DEEP, "E1", Some(Budget::Depth)),
    (TURNING, "F1", Some(Budget::CopyRounds)),
    (TURNING, "F9", Some(Budget::CopyRounds)),
    (TURNING, "G9", None),
];

/// The budget that explains an address, if one does.
fn spent(at: &Evaluator<'_>, name: &str) -> Result<Option<Budget>, Fail> {
    match explained(at, name, &mut Steps::new(Silent))? {
        Explained::Aborts(b) => Ok(Some(b)),
        Explained::Cert(_) => Ok(None),
        Explained::Work => Err("too much work".into()),
    }
}

#[test]
fn copies_that_spend_a_budget(rt: HostRuntime) -> Result<(), Fail> {
    for (lines, name, budget) in BUDGETS {
        let alloc = rt.alloc();
        let cells = sheet_of(alloc, lines)?;
        let w = Oracle::new(alloc);
        let at = evaluator_of(alloc, &cells, &w);
        assert!(rt; spent(&at, name)? == *budget, "{name}");
    }
    Ok(())
}

/// Copies that each make two, 1,023 times.
const TREE: &[&str] = &[
    "set A1 1",
    "set B1 =IF(A1>=1024,1,VIEW(UPDATE(SHEET(A1:B1),A1,2*A1),B1)+VIEW(UPDATE(SHEET(A1:B1),A1,2*A1+1),B1))",
];

#[test]
fn copies_that_each_make_two(rt: HostRuntime) -> Result<(), Fail> {
    let alloc = rt.alloc();
    let cells = sheet_of(alloc, TREE)?;
    let w = Oracle::new(alloc);
    let at = evaluator_of(alloc, &cells, &w);
    // a cell and a settling for each copy; a cell that makes two is evaluated three times, and each
    // settling twice
    assert!(rt; is_found(&at, "B1", (4_093, 0, 8_185), "1024")?);
    assert_eq!(rt; said(&at, "B1")?, Verdict::Accepted);
    Ok(())
}
