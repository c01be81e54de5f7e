//! The steps of whole runs: what is kept goes on from one calculation to the next.
use crate::tests::calls::{Call, DONE, REFUSED, cut_at, ends_by};
use gl_ast::{put, put_number};
use gl_demand::{Key, Steps, Watch};
use gl_order::{Order, by_kind};
use gl_plane::NoMemory;
use gl_run::Status;
use gl_value::Env;
use std::alloc::Global;
use std::test::Fail;
use tests_common::address;

/// How many cells of column D hold a formula that rests on nothing.
const CELLS: usize = 100;

/// A cell, and how often it was evaluated.
#[derive(Drop)]
struct Counted {
    key: Key,
    times: u64,
}

/// How often each of some cells was evaluated.
#[derive(Drop)]
struct Counts {
    counted: Vec<Counted>,
}

impl Watch for Counts {
    fn saw(&mut self, key: &Key) {
        for one in self.counted.iter_mut() {
            if one.key == *key {
                one.times = one.times.saturating_add(1);
            }
        }
    }
}

/// Words with a number between.
fn numbered(alloc: Global, before: &str, i: usize, behind: &str) -> Result<String, NoMemory> {
    let mut out = String::new(alloc);
    put(&mut out, before)?;
    put_number(alloc, &mut out, i)?;
    put(&mut out, behind)?;
    Ok(out)
}

/// None of the cells D1, D2, ... was evaluated yet.
fn no_counts(alloc: Global) -> Result<Counts, Fail> {
    let mut counted = Vec::new(alloc);
    for i in 0..CELLS {
        let name = numbered(alloc, "D", i + 1, "")?;
        let key = Key::Cell(Env::Top, address(&name)?);
        counted.push(Counted { key, times: 0 })?;
    }
    Ok(Counts { counted })
}

/// Two arrays, the second over the first, beside the cells; and behind these lines.
fn script_with(alloc: Global, lines: &str) -> Result<String, NoMemory> {
    let mut script = String::new(alloc);
    put(&mut script, "set A1 =SEQUENCE(3,1)\nset B1 =A1#*2\n")?;
    for i in 0..CELLS {
        let line = numbered(alloc, "set D", i + 1, " =1+1\n")?;
        put(&mut script, &line)?;
    }
    put(&mut script, lines)?;
    Ok(script)
}

/// The replies to the lines of the sheet, and behind them these.
fn replies_with(alloc: Global, replies: &str) -> Result<String, NoMemory> {
    let mut all = String::new(alloc);
    for _ in 0..CELLS + 2 {
        put(&mut all, "ok\n")?;
    }
    put(&mut all, replies)?;
    Ok(all)
}

/// What follows the sheet, its replies, the least steps of the whole, to which two may come, and how
/// often D1 is evaluated. Each other cell beside the arrays is evaluated once.
struct Row {
    lines: &'static str,
    replies: &'static str,
    status: Status,
    least: u64,
    first: u64,
}

const ROWS: &[Row] = &[
    Row {
        lines: "calc\ncalc\n",
        replies: "settled 3\nsettled 3\n",
        status: DONE,
        least: 105,
        first: 1,
    },
    // queries between which nothing is edited calculate once
    Row {
        lines: "flow\nshow B3\nview A1:B3\noracle\nwhy A1\nget D1\nshow Z9\nflow\n",
        replies: "yes 2\n6\n1 2\n2 4\n3 6\noracle 2\nA1 3x1 permitted\nB1 3x1 permitted\npermitted\n=1+1\n.\nyes 2\n",
        status: DONE,
        least: 105,
        first: 1,
    },
    // one edit is one step in each round
    Row {
        lines: "calc\nset D1 =2+2\ncalc\nshow D1\n",
        replies: "settled 3\nok\nsettled 3\n4\n",
        status: DONE,
        least: 108,
        first: 4,
    },
    // an explanation evaluates what it finds, and again what it checks
    Row {
        lines: "calc\nexplain D1\nexplain Z9\n",
        replies: "settled 3\nexplain 1 0\nD1 2\nshown 2\naccepted\nexplain 0 0\nshown .\naccepted\n",
        status: DONE,
        least: 107,
        first: 3,
    },
    // an edit that is refused is none, nor are contents that nothing looks at
    Row {
        lines: "calc\nset D1 =2+\nimport Y1 4\n1,2\n\nclear Y1:Z1\ncalc\n",
        replies: "settled 3\nerror syntax\nok\nok\nsettled 3\n",
        status: REFUSED,
        least: 105,
        first: 1,
    },
];

/// D1 was evaluated so often, and each other cell once.
fn are_seen(counts: &Counts, first: u64) -> bool {
    for (i, one) in counts.counted.iter().enumerate() {
        let wanted = if i == 0 { first } else { 1 };
        if one.times != wanted {
            return false;
        }
    }
    true
}

/// By the pick rule of this word the row is as it says.
fn is_so(alloc: Global, row: &Row, word: &str) -> Result<bool, Fail> {
    let script = script_with(alloc, row.lines)?;
    let replies = replies_with(alloc, row.replies)?;
    let call = Call {
        words: &["--order", word],
        script: script.as_bytes(),
        replies: replies.as_bytes(),
        status: row.status,
    };
    let order = Order::new(by_kind);
    let mut steps = Steps::new(no_counts(alloc)?);
    let ended = ends_by(alloc, &call, &cut_at(4096), &order, &mut steps)?;
    let done = steps.done();
    let seen = are_seen(steps.watch(), row.first);
    Ok(ended && row.least <= done && done <= row.least.saturating_add(2) && seen)
}

#[test]
fn what_is_kept_goes_on_through_a_script(rt: HostRuntime) -> Result<(), Fail> {
    for (i, row) in ROWS.iter().enumerate() {
        for word in ["first", "last", "turn"] {
            assert!(rt; is_so(rt.alloc(), row, word)?, "{i} by {word}");
        }
    }
    Ok(())
}
