//! A hundred formulas that rest on nothing, beside two arrays: which keys an edit evaluates, and
//! that what is shown behind edits is what a new calculator shows.
ghost use Rattle.std.specs.Prelude.{◌≤◌};

use crate::tests::anew::all_shown;
use crate::tests::calculations::{edit, refreshed, refreshed_in};
use gl_ast::{Version, put, put_number};
use gl_calc::Calc;
use gl_demand::{Key, Steps, Watch};
use gl_plane::{Addr, NoMemory};
use gl_value::Env;
use std::alloc::Global;
use std::test::Fail;
use tests_common::address;

/// How many cells of column D hold a formula that rests on nothing.
const CELLS: usize = 100;

/// How often the key of one cell was evaluated, and how often any other.
#[derive(Drop)]
struct Counts {
    of: Addr,
    times: u64,
    others: u64,
}

impl Watch for Counts {
    fn saw(&mut self, key: &Key) {
        if *key == Key::Cell(Env::Top, self.of) {
            self.times = self.times.saturating_add(1);
        } else {
            self.others = self.others.saturating_add(1);
        }
    }
}

/// The edit of a cell of column D.
fn line(alloc: Global, i: usize) -> Result<String, NoMemory> {
    let mut out = String::new(alloc);
    put(&mut out, "set D")?;
    put_number(alloc, &mut out, i)?;
    put(&mut out, " =1+1")?;
    Ok(out)
}

/// Two arrays, the second over the first, and the formulas beside them.
fn hundred(alloc: Global) -> Result<Calc, Fail> {
    let mut calc = Calc::new(alloc);
    edit(alloc, &mut calc, "set A1 =SEQUENCE(3,1)")?;
    edit(alloc, &mut calc, "set B1 =A1#*2")?;
    for i in 0..CELLS {
        edit(alloc, &mut calc, &line(alloc, i + 1)?)?;
    }
    Ok(calc)
}

/// The edits, and how often D1 and any other key is evaluated then: others at least and at most.
struct Row {
    lines: &'static [&'static str],
    ends: &'static str,
    times: u64,
    least: u64,
    most: u64,
}

/// Each of the hundred takes a step in the first round alone; an edit of one takes one in each round;
/// none is taken where nothing was edited; and behind a spill that was refused for a while, those of
/// the arrays.
const ROWS: &[Row] = &[
    Row {
        lines: &[],
        ends: "settled 3",
        times: 1,
        least: 104,
        most: 106,
    },
    Row {
        lines: &["set D1 =2+2"],
        ends: "settled 3",
        times: 3,
        least: 0,
        most: 0,
    },
    Row {
        lines: &[],
        ends: "settled 3",
        times: 0,
        least: 0,
        most: 0,
    },
    Row {
        lines: &["set A2 5"],
        ends: "settled 2",
        times: 0,
        least: 1,
        most: 6,
    },
    Row {
        lines: &["clear A2"],
        ends: "settled 3",
        times: 0,
        least: 1,
        most: 9,
    },
];

/// Behind the edits it ends as the row says, with so many steps.
fn is_so(alloc: Global, calc: &mut Calc, row: &Row, kind: u8) -> Result<bool, Fail>
    requires { kind ≤ 2 }
{
    for line in row.lines {
        edit(alloc, calc, line)?;
    }
    let mut steps = Steps::new(Counts {
        of: address("D1")?,
        times: 0,
        others: 0,
    });
    let ends = refreshed_in(alloc, calc, kind, Version::One, &mut steps)?;
    let done = steps.done();
    let seen = steps.watch();
    Ok(
        ends.as_str() == row.ends
            && seen.times == row.times
            && row.least <= seen.others
            && seen.others <= row.most
            && done == seen.times.saturating_add(seen.others),
    )
}

/// A new calculator with the contents behind the edits of these rows.
fn anew(alloc: Global, rows: &[Row]) -> Result<Calc, Fail> {
    let mut calc = hundred(alloc)?;
    for row in rows {
        for line in row.lines {
            edit(alloc, &mut calc, line)?;
        }
    }
    Ok(calc)
}

/// What is shown is what a new calculator shows behind the same edits.
fn is_shown_anew(alloc: Global, calc: &Calc, rows: &[Row], kind: u8) -> Result<bool, Fail>
    requires { kind ≤ 2 }
{
    let mut anew = anew(alloc, rows)?;
    refreshed(alloc, &mut anew, kind, Version::One)?;
    let shown = all_shown(alloc, calc)?;
    Ok(shown.as_str() == all_shown(alloc, &anew)?.as_str())
}

/// The number of the first row that isn't so.
fn first_amiss(alloc: Global, kind: u8) -> Result<Option<usize>, Fail>
    requires { kind ≤ 2 }
{
    let mut calc = hundred(alloc)?;
    for (i, row) in ROWS.iter().enumerate() {
        let so = is_so(alloc, &mut calc, row, kind)?;
        if !so || !is_shown_anew(alloc, &calc, &ROWS[..i + 1], kind)? {
            return Ok(Some(i));
        }
    }
    Ok(None)
}

#[test]
fn an_edit_evaluates_what_it_changes(rt: HostRuntime) -> Result<(), Fail> {
    for kind in 0u8..3 {
        let amiss = first_amiss(rt.alloc(), kind)?;
        assert!(rt; amiss.is_none(), "{amiss:?} by {kind}");
    }
    Ok(())
}
