//! The settling of copies of a chain of 300 formulas, its steps counted.
ghost use Rattle.std.specs.Prelude.{◌≤◌};

use crate::tests::evaluations::Sights;
use crate::tests::runs::{Sight, fresh, run, seen_as};
use crate::tests::turns::{cell, evaluator_of};
use gl_demand::{Key, Steps};
use gl_plane::Oracle;
use std::alloc::Global;
use std::test::Fail;
use tests_common::{Column, Form, plain_sheet, sheet_with, with_number};

/// Two copies of a chain in which one address holds 7 and 8, that address, the chain, and the steps of all
/// keys but the settling of the first copy.
struct Chain {
    lines: &'static [&'static str],
    held: &'static str,
    column: Column,
    others: u64,
}

#[rattlefmt::skip]
const CHAINS: &[Chain] = &[
    // each formula needs the next: all other keys take two steps, but for the last formula of each
    // copy
    Chain { lines: &["set A301 1", "set B1 =VIEW(UPDATE(SHEET(A1:A301),A301,7),A1)",
        "set C1 =VIEW(UPDATE(SHEET(A1:A301),A301,8),A1)"], held: "A301",
        column: Column { name: "A", first: 1, last: 300, form: Form::Below("", "+1") },
        others: 1_204 },
    // each formula needs the one before it, which is known: one step
    Chain { lines: &["set A1 1", "set B1 =VIEW(UPDATE(SHEET(A1:A301),A1,7),A301)",
        "set C1 =VIEW(UPDATE(SHEET(A1:A301),A1,8),A301)"], held: "A1",
        column: Column { name: "A", first: 2, last: 301, form: Form::Above("", "+1") },
        others: 606 },
];

/// The settling of the copy that has 7 at an address.
fn settling(alloc: Global, name: &str) -> Result<Key, Fail> {
    let plain = plain_sheet(alloc, "A1:A301")?;
    Ok(Key::Settle(with_number(alloc, &*plain, name, 7)?))
}

/// How many keys the copies demand, the steps of the settling of the first, those of all other keys,
/// and what both copies come to.
type Counts = (u64, u64, u64, Sight, Sight);

/// The counts of a chain by the pick rule of a kind.
fn counts(alloc: Global, chain: &Chain, kind: u8) -> Result<Counts, Fail>
    requires { kind ≤ 2 }
{
    let w = Oracle::new(alloc);
    let cells = sheet_with(alloc, chain.lines, &chain.column)?;
    let at = evaluator_of(alloc, &cells, &w);
    let mut steps = Steps::new(Sights::new(settling(alloc, chain.held)?));
    let quiet = run(&at, fresh(&at, &["B1", "C1"])?, kind, &mut steps)?;
    let seen = steps.watch();
    Ok((
        quiet.len(),
        seen.wanted_seen,
        seen.others_seen,
        seen_as(quiet.seen(&cell("B1")?)),
        seen_as(quiet.seen(&cell("C1")?)),
    ))
}

#[test]
fn a_settling_takes_two_steps(rt: HostRuntime) -> Result<(), Fail> {
    for chain in CHAINS {
        for kind in 0u8..3 {
            assert!(rt;
                counts(rt.alloc(), chain, kind)?
                    == (604, 2, chain.others, Sight::Number(307), Sight::Number(308)),
                "{} by {kind}",
                chain.held
            );
        }
    }
    Ok(())
}
