//! Sheets whose forecast is yes: their calculations settle after at most one round more than the
//! height, in both versions.
use crate::tests::calls::{DONE, cut_at, is_answered};
use gl_ast::{put, put_number};
use gl_plane::NoMemory;
use std::alloc::Global;
use std::test::Fail;

/// The lines of a sheet, the height of its forecast, and how many rounds its calculation takes in
/// version 1, and in version 2.
type Foretold = (&'static [&'static str], usize, [usize; 2]);

#[rattlefmt::skip]
const FORETOLD: &[Foretold] = &[
    (&[], 0, [1, 1]),
    (&["A1 =1+1", "B1 =A1*C1", "D1 =SUM(A1:C9)"], 0, [1, 1]),
    (&["A1 =SEQUENCE(2,1)"], 1, [2, 2]),
    // an array that can't be made
    (&["A1 =SEQUENCE(0-1,1)"], 1, [1, 1]),
    (&["A1 =SEQUENCE(2,1)", "B1 =A1#+1", "C1 =B1#+1", "D1 =C1#+1"], 4, [5, 5]),
    // each array is as long as the first number of the one above
    (&["A1 3", "A2 =SEQUENCE(A1,1)", "C2 =SEQUENCE(A3,1)", "E2 =SEQUENCE(C3,1)"], 3, [4, 4]),
    // the second is long only where the first spills
    (&["A1 =SEQUENCE(1,3)", "A3 =SEQUENCE(1+C1,1)"], 2, [3, 3]),
    // a total between two arrays
    (&["A1 =SEQUENCE(2,1)", "B1 =SUM(A1:A2)", "C1 =SEQUENCE(2,1)+B1"], 2, [2, 2]),
    // arrays that meet: the first keeps its place
    (&["B1 =SEQUENCE(3,1)", "A2 =SEQUENCE(1,3)", "A3 =SEQUENCE(1,3)"], 2, [2, 2]),
    // an array that is there only in the second round takes the place of another
    (&["E1 =SEQUENCE(2,1)", "B1 =TRANSPOSE(TRANSPOSE(E1#))", "A2 =SEQUENCE(1,3)"], 3, [3, 3]),
    // what reads the place of both
    (&["E1 =SEQUENCE(2,1)", "B1 =TRANSPOSE(TRANSPOSE(E1#))", "A2 =SEQUENCE(1,3)", "G1 =IF(C2=0,SEQUENCE(1,2),0)"], 4, [4, 4]),
    // an array that chooses
    (&["A1 =IF(SEQUENCE(2,1)=1,1,2)", "B1 =A1#*2"], 2, [1, 3]),
    (&["A1 =IFERROR(1/SEQUENCE(1,2),SEQUENCE(2,1))", "D1 =IF(ISBLANK(A2),1,SEQUENCE(2,1))"], 2, [2, 3]),
    // past the grid, and over content
    (&["A9999 =SEQUENCE(2,1)", "A1 =SEQUENCE(2,1)", "A2 7", "B1 =IFERROR(A1#,SEQUENCE(2,1))"], 2, [2, 2]),
    // a cell that is empty, and one that has no array
    (&["A1 =IFERROR(A2#,SEQUENCE(2,1))", "B1 =IFERROR(C1#,A1#)", "C1 5"], 2, [3, 3]),
    // columns of arrays that are cut
    (&["A1 =VSTACK(SEQUENCE(6000,1),SEQUENCE(6000,1))", "B1 =IFERROR(ROWS(A1#),SEQUENCE(2,1))"], 2, [2, 2]),
];

/// The lines, and behind them a forecast and a calculation.
fn script(alloc: Global, lines: &[&str], first: &str) -> Result<String, NoMemory> {
    let mut out = String::new(alloc);
    put(&mut out, first)?;
    for line in lines {
        put(&mut out, "set ")?;
        put(&mut out, line)?;
        put(&mut out, "\n")?;
    }
    put(&mut out, "flow\ncalc\n")?;
    Ok(out)
}

/// The replies to so many lines, to the forecast and to the calculation.
fn replies(
    alloc: Global,
    count: usize,
    first: &str,
    height: usize,
    rounds: usize,
) -> Result<String, NoMemory> {
    let mut out = String::new(alloc);
    put(&mut out, first)?;
    for _ in 0..count {
        put(&mut out, "ok\n")?;
    }
    put(&mut out, "yes ")?;
    put_number(alloc, &mut out, height)?;
    put(&mut out, "\nsettled ")?;
    put_number(alloc, &mut out, rounds)?;
    put(&mut out, "\n")?;
    Ok(out)
}

/// In the version whose first line and reply these are, the forecast and the calculation of the
/// sheet are the row's, and the rounds are at most one more than the height.
fn is_foretold(
    alloc: Global,
    sheet: &Foretold,
    rounds: usize,
    line: &str,
    reply: &str,
) -> Result<bool, Fail> {
    let (lines, height, _) = *sheet;
    let script = script(alloc, lines, line)?;
    let replies = replies(alloc, lines.len(), reply, height, rounds)?;
    let plan = cut_at(4096);
    let told = is_answered(alloc, script.as_bytes(), &plan, replies.as_bytes(), DONE)?;
    Ok(told && rounds <= height.saturating_add(1))
}

#[test]
fn in_both_versions(rt: HostRuntime) -> Result<(), Fail> {
    for (i, sheet) in FORETOLD.iter().enumerate() {
        let [one, two] = sheet.2;
        assert!(rt;
            is_foretold(rt.alloc(), sheet, one, "", "")?,
            "{i} in version 1"
        );
        assert!(rt;
            is_foretold(rt.alloc(), sheet, two, "gridlet 2\n", "ok\n")?,
            "{i} in version 2"
        );
    }
    Ok(())
}
