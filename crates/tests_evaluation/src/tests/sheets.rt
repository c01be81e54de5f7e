//! Small sheets by each pick rule: the keys that are demanded, the evaluations, and what is seen of cells.
ghost use Rattle.std.specs.Prelude.{◌≤◌};

use crate::tests::references::{Entry, oracle_of};
use crate::tests::runs::{Sight, fresh, run, seen_as};
use crate::tests::turns::{cell, evaluator_of};
use gl_cells::Cells;
use gl_demand::{Evaluator, Silent, Steps};
use std::alloc::Global;
use std::process::Abort;
use std::test::Fail;
use tests_common::put_line;

/// A sheet, whose lines stand in groups, with its seeds, how many keys these demand, how many
/// evaluations each pick rule makes, and what is seen of some cells.
pub struct Sheet {
    pub lines: &'static [&'static [&'static str]],
    pub seeds: &'static [&'static str],
    pub demanded: u64,
    pub steps: [u64; 3],
    pub sees: &'static [(&'static str, Sight)],
}

/// Four cells, the third of which loops.
const FOUR: &[&str] = &["set B1 =1", "set B2 =2", "set B3 =B3", "set B4 =4"];

/// What reads them one after another waits for the third, and the fourth isn't demanded.
const TO_THE_THIRD: &[(&str, Sight)] = &[
    ("A1", Sight::Loops),
    ("B2", Sight::Number(2)),
    ("B4", Sight::NotDemanded),
];

/// Five cells in two columns.
const FIVE: &[&str] = &[
    "set B1 =1",
    "set B2 =2",
    "set B3 =3",
    "set C1 =4",
    "set C2 =5",
];

/// The sum of the numbers up to one, by a copy for each.
const SUM_BY_COPIES: &[&str] = &[
    "set A1 0",
    "set B1 =IF(A1=0,0,A1+VIEW(UPDATE(SHEET(A1:B1),A1,A1-1),B1))",
];

#[rattlefmt::skip]
const SHEETS: &[Sheet] = &[
    Sheet { lines: &[&["set A1 =B1+1", "set B1 =C1+1", "set C1 =1"]], seeds: &["A1", "B1", "C1"],
        demanded: 3, steps: [5, 3, 4],
        sees: &[("A1", Sight::Number(3)), ("C1", Sight::Number(1)), ("D1", Sight::NotDemanded)] },
    // a range is read cell by cell: where its formula waits, it goes from one cell to the next
    // without an evaluation
    Sheet { lines: &[&["set A1 =SUM(B1:B3)", "set B1 =1", "set B2 =2", "set B3 =3"]],
        seeds: &["A1", "B1", "B2", "B3"], demanded: 4, steps: [5, 4, 5],
        sees: &[("A1", Sight::Number(6)), ("B3", Sight::Number(3))] },
    // it waits for the first that loops, and those behind it aren't demanded
    Sheet { lines: &[&["set A1 =SUM(B1:B4)"], FOUR], seeds: &["A1"], demanded: 4, steps: [4, 4, 4],
        sees: TO_THE_THIRD },
    // so it goes through all references that a formula surely reads
    Sheet { lines: &[&["set A1 =SUM(B1:B2,C1:C2,B3)"], FIVE], seeds: &["A1"], demanded: 6,
        steps: [7, 7, 7], sees: &[("A1", Sight::Number(15))] },
    Sheet { lines: &[&["set A1 =ABS(B1-B2)*LET(x,B3,x+SUM(C1:C2,x))"], FIVE], seeds: &["A1"],
        demanded: 6, steps: [7, 7, 7], sees: &[("A1", Sight::Number(15))] },
    // what is chosen is known only behind the condition, and what is behind the choice with it
    Sheet { lines: &[&["set A1 =IF(B1<B2,C1+C2,B3)+B4", "set B4 =B4"], FIVE], seeds: &["A1"],
        demanded: 6, steps: [9, 9, 9],
        sees: &[("A1", Sight::Loops), ("C2", Sight::Number(5)), ("B3", Sight::NotDemanded)] },
    // a reference that loops is the last that is demanded
    Sheet { lines: &[&["set A1 =B1+B2+B3+B4"], FOUR], seeds: &["A1"], demanded: 4,
        steps: [4, 4, 4], sees: TO_THE_THIRD },
    // a range in a copy, and the round of the copy
    Sheet { lines: &[&["set A1 =VIEW(UPDATE(SHEET(B1:C3),B1,5),C1)", "set B1 1", "set B2 =B1+1",
        "set B3 =B1+2", "set C1 =SUM(B1:B3)"]], seeds: &["A1"], demanded: 5, steps: [8, 8, 8],
        sees: &[("A1", Sight::Number(18)), ("C1", Sight::NotDemanded)] },
    // a ring, and a cell that demands it
    Sheet { lines: &[&["set A1 =B1", "set B1 =A1", "set C1 =IFERROR(A1,7)"]], seeds: &["C1"],
        demanded: 3, steps: [3, 3, 3],
        sees: &[("A1", Sight::Loops), ("B1", Sight::Loops), ("C1", Sight::Loops)] },
    Sheet { lines: &[&["set A1 =IF(TRUE,1,B1)", "set B1 =A1"]], seeds: &["A1", "B1"], demanded: 2,
        steps: [2, 3, 2], sees: &[("A1", Sight::Number(1)), ("B1", Sight::Number(1))] },
    // a copy in a cycle
    Sheet { lines: &[&["set A1 1", "set B1 =C1+A1", "set C1 =G(A1:B1,A1,5)"]], seeds: &["B1", "C1"],
        demanded: 4, steps: [4, 4, 4], sees: &[("B1", Sight::Loops), ("C1", Sight::Loops)] },
    // recursion by copies, up to the greatest rank and beyond
    Sheet { lines: &[SUM_BY_COPIES, &["set D1 =VIEW(UPDATE(SHEET(A1:B1),A1,63),B1)"]],
        seeds: &["D1"], demanded: 129, steps: [257, 257, 257],
        sees: &[("D1", Sight::Number(2016)), ("B1", Sight::NotDemanded)] },
    Sheet { lines: &[SUM_BY_COPIES, &["set D1 =VIEW(UPDATE(SHEET(A1:B1),A1,95),B1)"]],
        seeds: &["D1"], demanded: 193, steps: [385, 385, 385],
        sees: &[("D1", Sight::Number(4560))] },
    Sheet { lines: &[SUM_BY_COPIES, &["set D1 =VIEW(UPDATE(SHEET(A1:B1),A1,96),B1)"]],
        seeds: &["D1"], demanded: 193, steps: [385, 385, 385], sees: &[("D1", Sight::Depth)] },
    // 1,024 copies without further copies
    Sheet { lines: &[&["set A1 1",
        "set B1 =IF(A1>=1024,1,VIEW(UPDATE(SHEET(A1:B1),A1,2*A1),B1)+VIEW(UPDATE(SHEET(A1:B1),A1,2*A1+1),B1))"]],
        seeds: &["B1"], demanded: 4093, steps: [8185, 8185, 8185],
        sees: &[("B1", Sight::Number(1024))] },
    // equal copies are one
    Sheet { lines: &[&["set A1 1",
        "set B1 =IF(A1>=1024,1,VIEW(UPDATE(SHEET(A1:B1),A1,2*A1),B1)+VIEW(UPDATE(SHEET(A1:B1),A1,2*A1),B1))"]],
        seeds: &["B1"], demanded: 21, steps: [41, 41, 41], sees: &[("B1", Sight::Number(1024))] },
];

/// The run of a sheet by the pick rule of this kind is as its table says.
fn holds(at: &Evaluator<'_>, row: &Sheet, kind: u8) -> Result<bool, Fail>
    requires { kind ≤ 2 }
{
    let mut steps = Steps::new(Silent);
    let quiet = run(at, fresh(at, row.seeds)?, kind, &mut steps)?;
    if quiet.len() != row.demanded || steps.done() != row.steps[usize::from(kind)] {
        return Ok(false);
    }
    for (name, want) in row.sees {
        if seen_as(quiet.seen(&cell(name)?)) != *want {
            return Ok(false);
        }
    }
    Ok(true)
}

/// The cells that these groups of lines set.
fn cells_of(alloc: Global, groups: &[&[&str]]) -> Result<Cells, Fail> {
    let mut cells = Cells::new(alloc);
    for lines in groups {
        for line in *lines {
            put_line(alloc, &mut cells, line)?;
        }
    }
    Ok(cells)
}

/// Whether the runs of a sheet are as its table says, by each pick rule.
fn by_each_rule(alloc: Global, entry: Option<Entry>, row: &Sheet) -> Result<[bool; 3], Fail> {
    let w = oracle_of(alloc, entry)?;
    let cells = cells_of(alloc, row.lines)?;
    let at = evaluator_of(alloc, &cells, &w);
    Ok([
        holds(&at, row, 0)?,
        holds(&at, row, 1)?,
        holds(&at, row, 2)?,
    ])
}

/// The runs of these sheets under an oracle of at most one entry are as they say, by each pick rule.
pub fn assert_sheets(
    rt: &impl Abort,
    alloc: Global,
    entry: Option<Entry>,
    rows: &[Sheet],
) -> Result<(), Fail> {
    for row in rows {
        assert!(rt;
            by_each_rule(alloc, entry, row)? == [true; 3],
            "{:?}",
            row.lines
        );
    }
    Ok(())
}

#[test]
fn sheets_by_each_rule(rt: HostRuntime) -> Result<(), Fail> {
    assert_sheets(&rt, rt.alloc(), None, SHEETS)
}
