//! How often evaluations are seen, and what a value shows.
ghost use Rattle.std.specs.Prelude.{IfSome, IsTrue};
ghost use Rattle.gl_calculus.specs.Evaluation.Sound.{is_sound_value};
ghost use Rattle.gl_value.specs.View.{value_tree};

use crate::tests::table::Table;
use crate::tests::turns::{cell, evaluator_of, first_turn, turn};
use gl_demand::{Found, Key, Outcome, Steps, Turn, Watch, shown, spilled};
use gl_plane::{Oracle, Permit, Share};
use gl_value::Value;
use std::alloc::Global;
use std::test::Fail;
use tests_common::{scalar_text, sheet_of};

/// How often the wanted key was seen, and how often another.
#[derive(Drop)]
pub struct Sights {
    wanted: Key,
    pub wanted_seen: u64,
    pub others_seen: u64,
}

impl Sights {
    /// Nothing was seen yet.
    pub fn new(wanted: Key) -> Sights {
        Sights {
            wanted,
            wanted_seen: 0,
            others_seen: 0,
        }
    }
}

impl Watch for Sights {
    fn saw(&mut self, key: &Key) {
        if *key == self.wanted {
            self.wanted_seen = self.wanted_seen.saturating_add(1);
        } else {
            self.others_seen = self.others_seen.saturating_add(1);
        }
    }
}

/// Evaluates these cells in turn over two formulas: how many evaluations were made, how many of A1 were
/// seen, and how many of others.
fn seen_of(alloc: Global, names: &[&str]) -> Result<(u64, u64, u64), Fail> {
    let cells = sheet_of(alloc, &["set A1 =1+B1", "set B1 =2"])?;
    let w = Oracle::new(alloc);
    let at = evaluator_of(alloc, &cells, &w);
    let mut steps = Steps::new(Sights::new(cell("A1")?));
    let table = Table::new(alloc);
    for name in names {
        turn(&at, &cell(name)?, &table, &mut steps)?;
    }
    let seen = steps.watch();
    Ok((steps.done(), seen.wanted_seen, seen.others_seen))
}

/// Cells that are evaluated, and what is seen then.
const SEEN: &[(&[&str], (u64, u64, u64))] = &[
    (&[], (0, 0, 0)),
    (&["A1"], (1, 1, 0)),
    (&["A1", "B1"], (2, 1, 1)),
    (&["A1", "B1", "A1"], (3, 2, 1)),
];

#[test]
fn each_evaluation_is_seen_once(rt: HostRuntime) -> Result<(), Fail> {
    for (names, want) in SEEN {
        assert!(rt; seen_of(rt.alloc(), names)? == *want, "{names:?}");
    }
    Ok(())
}

/// The value that is found, if it is sound.
fn value_in(found: &Found) -> Option<&Value>
    ensures { IfSome result (λ v. IsTrue (is_sound_value (value_tree v.now))) }
{
    match found {
        Found::Ready(Outcome::Value(v)) => if v.is_sound() { Some(v) } else { None },
        _ => None,
    }
}

/// What an evaluation of an array with two rows and three columns finds.
fn array(alloc: Global) -> Result<Found, Fail> {
    let cells = sheet_of(alloc, &["set A1 =SEQUENCE(2,3)"])?;
    let w = Oracle::new(alloc);
    let at = evaluator_of(alloc, &cells, &w);
    let Turn { found, .. } = first_turn(&at, &cell("A1")?.share()?)?;
    Ok(found)
}

/// At its address the array shows this under this permit.
fn shows(alloc: Global, permit: Option<Permit>, text: &str) -> Result<bool, Fail> {
    let found = array(alloc)?;
    let v = value_in(&found).ok_or("no value")?;
    Ok(scalar_text(alloc, &shown(permit, v)?)?.as_str() == text)
}

/// So many rows and columns away the array shows this.
fn spills(alloc: Global, rows: u16, cols: u16, text: &str) -> Result<bool, Fail> {
    let found = array(alloc)?;
    let v = value_in(&found).ok_or("no value")?;
    Ok(scalar_text(alloc, &spilled(v, rows, cols)?)?.as_str() == text)
}

/// What the array shows at its address under each permit.
const AT_ITS_ADDRESS: &[(Option<Permit>, &str)] = &[
    (None, "1"),
    (Some(Permit::Permitted), "1"),
    (Some(Permit::Refused), "#SPILL!"),
];

#[test]
fn an_array_at_its_address(rt: HostRuntime) -> Result<(), Fail> {
    for (permit, text) in AT_ITS_ADDRESS {
        assert!(rt; shows(rt.alloc(), *permit, text)?, "{permit:?}");
    }
    Ok(())
}

#[test]
fn an_array_where_it_spills(rt: HostRuntime) -> Result<(), Fail> {
    for (rows, cols, text) in [(1, 2, "6"), (2, 0, ".")] {
        assert!(rt; spills(rt.alloc(), rows, cols, text)?, "{rows} {cols}");
    }
    Ok(())
}
