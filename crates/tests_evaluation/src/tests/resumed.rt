//! Runs that begin with the results of an earlier one, over one sheet.
ghost use Rattle.gl_calculus.specs.Evaluation.Evaluation.{program};
ghost use Rattle.std.specs.Prelude.{◌≤◌, IfOk};
ghost use Rattle.gl_machine.specs.Quiet.{IsQuiet};
ghost use Rattle.gl_machine.specs.Remembered.{AreTrue};
ghost use Rattle.gl_calculus.specs.Evaluation.Key.{same_key};
ghost use Rattle.gl_demand.specs.Evaluators.{world_of};
ghost use Rattle.gl_core.specs.State.{state_of, seeds_of, IsFor};

use crate::tests::runs::{Sight, are_seeds, run, seen_as};
use crate::tests::turns::cell;
use gl_core::{Core, MAX_DEMANDED, Quiet, Results, top_keys};
use gl_demand::{Evaluator, Key, Steps, Watch};
use gl_plane::Addr;
use std::alloc::Global;
use std::test::Fail;
use tests_common::address;

fn places_of(alloc: Global, names: &[&str]) -> Result<Vec<Addr>, Fail> {
    let mut places = Vec::new(alloc);
    for name in names {
        places.push(address(name)?)?;
    }
    Ok(places)
}

/// The steps that were taken for each of some keys.
#[derive(Drop)]
pub struct Counts {
    counted: Vec<(Key, u64)>,
}

impl Watch for Counts {
    fn saw(&mut self, key: &Key) {
        for one in self.counted.iter_mut() {
            if one.0 == *key {
                one.1 = one.1.saturating_add(1);
            }
        }
    }
}

/// What a run leaves: its results, how many keys were known, what was seen of each seed, and the
/// steps in all and for each seed.
#[derive(Drop)]
pub struct Ran {
    pub results: Results,
    pub known: u64,
    pub seen: Vec<Sight>,
    pub steps: u64,
    pub each: Vec<u64>,
}

/// No step was taken for these cells yet.
fn no_counts(alloc: Global, names: &[&str]) -> Result<Counts, Fail> {
    let mut counted = Vec::new(alloc);
    for name in names {
        counted.push((cell(name)?, 0))?;
    }
    Ok(Counts { counted })
}

/// The steps for each key, in their order.
fn numbers_of(alloc: Global, counts: &Counts) -> Result<Vec<u64>, Fail> {
    let mut numbers = Vec::new(alloc);
    for one in &counts.counted {
        numbers.push(one.1)?;
    }
    Ok(numbers)
}

/// The core of these cells, with results that are true.
pub fn resumed(at: &Evaluator<'_>, places: &[Addr], results: Results) -> Result<Core, Fail>
    requires { AreTrue same_key (program (world_of at.now)) results }
    ensures for_it { IfOk result (λ core.
        IsFor (world_of at.now) core) }
{
    if places.len() > MAX_DEMANDED {
        return Err("too many seeds".into());
    }
    let keys = top_keys(at.alloc, places)?;
    if !are_seeds(at.cells, &keys) {
        return Err("no seeds".into());
    }
    match Core::resume(at, places, results) {
        Ok(core) => Ok(core),
        Err(e) => Err(e.into()),
    }
}

/// What is seen of each of so many seeds, by its place.
pub fn seen_of(alloc: Global, quiet: &Quiet, count: usize) -> Result<Vec<Sight>, Fail> {
    let mut seen = Vec::new(alloc);
    for i in 0..count {
        seen.push(seen_as(quiet.seen_at(i)))?;
    }
    Ok(seen)
}

/// The results of a run: they are true.
fn results_of(at: &Evaluator<'_>, quiet: Quiet) -> Results
    requires quiet { IsQuiet same_key (program (world_of at.now)) (seeds_of quiet) (state_of quiet) }
    requires for_it { IsFor (world_of at.now) quiet }
    ensures { AreTrue same_key (program (world_of at.now)) result }
{
    quiet.into_results()
}

/// Runs these cells by the rule of a kind, beginning with results that are true.
pub fn run_with(at: &Evaluator<'_>, names: &[&str], results: Results, kind: u8) -> Result<Ran, Fail>
    requires kind { kind ≤ 2 }
    requires true_notes { AreTrue same_key (program (world_of at.now)) results }
    ensures { IfOk result (λ r. AreTrue same_key (program (world_of at.now)) r.results) }
{
    let core = resumed(at, &places_of(at.alloc, names)?, results)?;
    let mut steps = Steps::new(no_counts(at.alloc, names)?);
    let quiet = run(at, core, kind, &mut steps)?;
    let known = quiet.len();
    let seen = seen_of(at.alloc, &quiet, names.len())?;
    let each = numbers_of(at.alloc, steps.watch())?;
    Ok(Ran {
        results: results_of(at, quiet),
        known,
        seen,
        steps: steps.done(),
        each,
    })
}

/// A run of these cells by the rule of a kind goes by true results of so many keys alone, and leaves
/// as many: it takes no step, and the first cell comes to this.
pub fn by_results(
    at: &Evaluator<'_>,
    results: Results,
    names: &[&str],
    kind: u8,
    count: usize,
    first: Sight,
) -> Result<Results, Fail>
    requires kind { kind ≤ 2 }
    requires true_notes { AreTrue same_key (program (world_of at.now)) results }
    ensures { IfOk result (AreTrue same_key (program (world_of at.now))) }
{
    let before = results.len();
    let ran = run_with(at, names, results, kind)?;
    if (before, ran.results.len(), ran.known, ran.steps) != (count, count, count as u64, 0)
        || ran.seen.first() != Some(&first)
    {
        return Err("another run".into());
    }
    Ok(ran.results)
}
