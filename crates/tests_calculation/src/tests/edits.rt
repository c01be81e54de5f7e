//! Which keys a calculation behind an edit evaluates: those that rest on what changed, and no others.
ghost use Rattle.std.specs.Prelude.{◌≤◌};

use crate::tests::calculations::{edit, refreshed_in};
use gl_ast::Version;
use gl_calc::Calc;
use gl_demand::{Silent, Steps};
use std::alloc::Global;
use std::test::Fail;

/// Edits, and how many steps the calculation behind them takes.
struct Row {
    lines: &'static [&'static str],
    steps: u64,
}

/// Formulas that read a content or a blank each, and no other formula: each takes one step exactly
/// where what it reads, or its own cell, was touched. All settle in one round.
#[rattlefmt::skip]
const READERS: &[Row] = &[
    // all four formulas
    Row { lines: &["set A1 1", "set B1 =A1+1", "set B2 =A1+2", "set D1 =1+1", "set D2 =C1+1"],
        steps: 4 },
    // B1 and B2
    Row { lines: &["set A1 2"], steps: 2 },
    // the same content again: what is touched is touched
    Row { lines: &["set A1 2"], steps: 2 },
    // undone and redone before a calculation: touched all the same
    Row { lines: &["set A1 1", "set A1 2"], steps: 2 },
    // a formula at a blank that none reads: its own step
    Row { lines: &["set F1 =2+2"], steps: 1 },
    // it goes
    Row { lines: &["clear F1"], steps: 0 },
    // a content at the blank that D2 reads, and it goes
    Row { lines: &["set C1 3"], steps: 1 },
    Row { lines: &["clear C1"], steps: 1 },
    // several cells at once: B1 and B2 by A1, D2 by C1
    Row { lines: &["set A1 5", "set C1 5", "set Z9 5"], steps: 3 },
    // the clear of a range: B2 by A1 and D2 by C1; B1 is gone
    Row { lines: &["clear A1:C1"], steps: 2 },
    Row { lines: &[], steps: 0 },
];

/// Behind its edits the sheet settles in one round, with as many steps as the row says.
fn takes(alloc: Global, calc: &mut Calc, row: &Row, kind: u8) -> Result<bool, Fail>
    requires { kind ≤ 2 }
{
    for line in row.lines {
        edit(alloc, calc, line)?;
    }
    let mut steps = Steps::new(Silent);
    let ends = refreshed_in(alloc, calc, kind, Version::One, &mut steps)?;
    Ok(ends.as_str() == "settled 1" && steps.done() == row.steps)
}

/// The number of the first row that takes other steps.
fn first_amiss(alloc: Global, rows: &[Row], kind: u8) -> Result<Option<usize>, Fail>
    requires { kind ≤ 2 }
{
    let mut calc = Calc::new(alloc);
    for (i, row) in rows.iter().enumerate() {
        if !takes(alloc, &mut calc, row, kind)? {
            return Ok(Some(i));
        }
    }
    Ok(None)
}

#[test]
fn an_edit_evaluates_its_readers(rt: HostRuntime) -> Result<(), Fail> {
    for kind in 0u8..3 {
        let amiss = first_amiss(rt.alloc(), READERS, kind)?;
        assert!(rt; amiss.is_none(), "{amiss:?} by {kind}");
    }
    Ok(())
}
