//! What is said of the certificate of one sheet, oracle and version by others.
use crate::tests::explanations::certificates::{evaluator_of, found, verdict_on};
use gl_ast::Version;
use gl_cert::{Cert, Verdict};
use gl_demand::{Evaluator, Silent, Steps};
use gl_plane::{Oracle, Permit};
use std::alloc::Global;
use std::test::Fail;
use tests_common::{one_entry, sheet_of};

/// A sheet, the permit of two cells from A1 down, and what is said of the certificate.
type Other = (&'static [&'static str], Permit, Verdict);

#[rattlefmt::skip]
const OTHERS: &[Other] = &[
    (&["set A1 =SEQUENCE(2,1)", "set B1 =A2+1"], Permit::Permitted, Verdict::Accepted),
    (&["set A1 =SEQUENCE(2,1)", "set B1 =A2+1", "set C1 =7"], Permit::Permitted, Verdict::Accepted),
    (&["set A1 =SEQUENCE(2,1)", "set B1 =A2+2"], Permit::Permitted, Verdict::Note { at: 1 }),
    (&["set A1 =SEQUENCE(2,1)", "set B1 =A2+1"], Permit::Refused, Verdict::Note { at: 1 }),
    // a key whose address has no formula
    (&["set A1 5", "set B1 =A2+1"], Permit::Permitted, Verdict::Note { at: 0 }),
    (&["set A1 =SEQUENCE(2,1)", "set B1 3"], Permit::Permitted, Verdict::Note { at: 1 }),
];

/// What is said of a certificate of B1 by the row's sheet and oracle.
fn said(alloc: Global, c: &Cert, row: &Other) -> Result<Verdict, Fail> {
    let cells = sheet_of(alloc, row.0)?;
    let w = one_entry(alloc, "A1", 2, 1, row.1)?;
    let at = evaluator_of(alloc, &cells, &w);
    verdict_on(&at, "B1", c, &mut Steps::new(Silent))
}

#[test]
fn by_other_sheets(rt: HostRuntime) -> Result<(), Fail> {
    let alloc = rt.alloc();
    let cells = sheet_of(alloc, &["set A1 =SEQUENCE(2,1)", "set B1 =A2+1"])?;
    let w = one_entry(alloc, "A1", 2, 1, Permit::Permitted)?;
    let at = evaluator_of(alloc, &cells, &w);
    let c = found(&at, "B1", &mut Steps::new(Silent))?;
    for (i, row) in OTHERS.iter().enumerate() {
        assert!(rt; said(alloc, &c, row)? == row.2, "row {i}");
    }
    Ok(())
}

#[test]
fn by_another_version(rt: HostRuntime) -> Result<(), Fail> {
    let alloc = rt.alloc();
    let cells = sheet_of(alloc, &["set A1 =SUM(IF(SEQUENCE(1,2)=1,1,2))"])?;
    let w = Oracle::new(alloc);
    let one = evaluator_of(alloc, &cells, &w);
    let two = Evaluator {
        alloc,
        cells: &cells,
        oracle: &w,
        version: Version::Two,
    };
    let c = found(&two, "A1", &mut Steps::new(Silent))?;
    assert_eq!(rt;
        verdict_on(&two, "A1", &c, &mut Steps::new(Silent))?,
        Verdict::Accepted
    );
    assert_eq!(rt;
        verdict_on(&one, "A1", &c, &mut Steps::new(Silent))?,
        Verdict::Note { at: 0 }
    );
    Ok(())
}
