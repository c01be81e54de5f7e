//! Single picks, and how often a run asks its rule.
ghost use Rattle.gl_demand.specs.Evaluators.{world_of};
ghost use Rattle.std.specs.Prelude.{◌≤◌, ◌<◌};
ghost use Rattle.gl_core.specs.State.{IsFor};

use crate::tests::runs::fresh;
use crate::tests::turns::evaluator_of;
use gl_core::{Core, Picked};
use gl_demand::{Evaluator, Silent, Steps};
use gl_order::{Order, by_kind};
use gl_plane::Oracle;
use std::alloc::Global;
use std::cell::Cell;
use std::test::Fail;
use tests_common::sheet_of;

/// Picks the first idle key: how many keys were idle, and what the pick leaves of it.
fn pick_first(
    at: &Evaluator<'_>,
    core: &mut Core,
    steps: &mut Steps<Silent>,
) -> Result<(u64, Picked), Fail>
    requires { IsFor (world_of at.now) core.old }
    ensures { IsFor (world_of at.now) core.new }
{
    let n = core.idle();
    if n == 0 {
        return Err("nothing is idle".into());
    }
    match core.pick(at.alloc, 0, at.cells, at.oracle, at.version, steps) {
        Ok(picked) => Ok((n, picked)),
        Err(e) => Err(e.into()),
    }
}

/// Three picks, and how many keys are idle then.
fn three_picks(alloc: Global) -> Result<([(u64, Picked); 3], u64), Fail> {
    let w = Oracle::new(alloc);
    let cells = sheet_of(alloc, &["set A1 =B1+1", "set B1 =1"])?;
    let at = evaluator_of(alloc, &cells, &w);
    let mut steps = Steps::new(Silent);
    let mut core = fresh(&at, &["A1"])?;
    let first = pick_first(&at, &mut core, &mut steps)?;
    let second = pick_first(&at, &mut core, &mut steps)?;
    let third = pick_first(&at, &mut core, &mut steps)?;
    Ok(([first, second, third], core.idle()))
}

#[test]
fn picks_one_by_one(rt: HostRuntime) -> Result<(), Fail> {
    assert_eq!(rt;
        three_picks(rt.alloc())?,
        (
            [
                (1, Picked::Waits),
                (1, Picked::Resolved),
                (1, Picked::Resolved)
            ],
            0
        )
    );
    Ok(())
}

/// How often a run over a chain of three cells asks its rule, and its steps.
fn asked(alloc: Global) -> Result<(u64, u64), Fail> {
    let w = Oracle::new(alloc);
    let cells = sheet_of(alloc, &["set A1 =B1+1", "set B1 =C1+1", "set C1 =1"])?;
    let at = evaluator_of(alloc, &cells, &w);
    let core = fresh(&at, &["A1", "B1", "C1"])?;
    let calls = Cell::new(0u64);
    let order = Order::new(
        |kind: u8, turn: u64, n: u64| -> u64
            requires { (kind ≤ 2) × (1 ≤ n) }
            ensures { result < n }
        {
            calls.set(calls.get().wrapping_add(1));
            by_kind(kind, turn, n)
        },
    );
    let mut steps = Steps::new(Silent);
    match core.run_all(
        alloc, &order, 0, at.cells, at.oracle, at.version, &mut steps,
    ) {
        Ok(_) => Ok((calls.get(), steps.done())),
        Err(e) => Err(e.into()),
    }
}

#[test]
fn a_rule_is_asked_for_each_pick(rt: HostRuntime) -> Result<(), Fail> {
    assert_eq!(rt; asked(rt.alloc())?, (5, 5));
    Ok(())
}
