//! What of a table holds for a round.
ghost use Rattle.std.specs.Prelude.{◌≡◌, ◌||◌, [], List, IfOk};
ghost use Rattle.gl_calculus.specs.Grid.Grid.{Addr as PlainAddr};
ghost use Rattle.gl_calculus.specs.Calculation.Differences.{AreApart};
ghost use Rattle.gl_calculus.specs.Calculation.Memory.{differs_at};
ghost use Rattle.gl_plane.specs.Changes.{is_covered};
ghost use Rattle.gl_calc.specs.Kept.{AreRanges, AreKept, IsTaken};
ghost use Rattle.gl_calc.specs.Progress.{next_base, since};

use crate::table::Table;
use crate::tables::{Base, Tables};
use gl_core::Results;
use gl_plane::{NoMemory, Oracle, Range};
use std::alloc::Global;

/// What was touched, and where the oracles differ.
fn changes(
    alloc: Global,
    before: &Oracle,
    ranges: &[Range],
    w: &Oracle,
) -> Result<Vec<Range>, NoMemory>
    requires apart { AreApart before.now }
    requires other_apart { AreApart w.now }
    ensures { IfOk result (λ c.
        (a : PlainAddr)
        → is_covered c.items a ≡ (is_covered ranges.now a || differs_at [] before.now w.now a)) }
{
    let mut changes = Vec::new(alloc);
    changes.extend_from_slice(ranges)?;
    let differences = before.differences(alloc, w)?;
    changes.extend_from_slice(&differences)?;
    Ok(changes)
}

/// The results of a table that hold under another oracle, after what the ranges cover was touched.
fn kept_since(
    alloc: Global,
    table: Table,
    ranges: &[Range],
    w: &Oracle,
) -> Result<Results, NoMemory>
    requires apart { AreApart table.oracle }
    requires other_apart { AreApart w.now }
    ensures { IfOk result (λ r.
        (touched : List PlainAddr)
        → AreRanges ranges.now touched
        → AreKept (table, touched) w.now r) }
{
    let Table {
        oracle,
        mut results,
    } = table;
    if results.len() == 0 {
        return Ok(results);
    }
    let changes = changes(alloc, &oracle, ranges, w)?;
    results.keep(alloc, &changes)?;
    Ok(results)
}

/// The results of a base that hold under an oracle.
fn kept(alloc: Global, base: Base, ranges: &[Range], w: &Oracle) -> Result<Results, NoMemory>
    requires apart { AreApart base.table.oracle }
    requires other_apart { AreApart w.now }
    ensures { IfOk result (λ r.
        (touched : List PlainAddr)
        → AreRanges ranges.now touched
        → AreKept (base.table, since base.is_earlier touched) w.now r) }
{
    if base.is_earlier {
        kept_since(alloc, base.table, ranges, w)
    } else {
        kept_since(alloc, base.table, &[], w)
    }
}

/// The results with which the next round begins.
pub fn begun(
    alloc: Global,
    tables: &mut Tables,
    ranges: &[Range],
    w: &Oracle,
) -> Result<Results, NoMemory>
    requires apart { (touched : List PlainAddr) → AreApart (next_base tables.old touched).0.oracle }
    requires other_apart { AreApart w.now }
    ensures kept { IfOk result (λ r.
        (touched : List PlainAddr)
        → AreRanges ranges.now touched
        → AreKept (next_base tables.old touched) w.now r) }
    ensures taken { IsTaken tables.old tables.new }
{
    match tables.take_base(alloc) {
        Ok(base) => kept(alloc, base, ranges, w),
        Err(NoMemory) => Err(NoMemory),
    }
}
