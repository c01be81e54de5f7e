//! Permits beside content and beside other arrays, and what is in the way of those that are refused.
ghost use Rattle.std.specs.Prelude.{IfOk};
ghost use Rattle.gl_calculus.specs.Calculation.Differences.{AreApart};

use gl_grant::{Blocks, Obstacle, blocker, grant, is_consistent};
use gl_plane::{Addr, Oracle, Permit, Range, Sizes, whole_grid};
use std::alloc::Global;
use std::test::Fail;
use tests_common::{address, size};

// One address has content.
#[derive(Clone, Copy)]
pub struct OneContent {
    pub at: Addr,
}

impl Blocks for OneContent {
    ghost use Rattle.gl_calculus.specs.Grid.Grid.{same_addr};

    ghost held = { λ s a. same_addr a s.at };

    fn blocked(&self, root: Addr, area: &Range) -> Option<Addr> {
        if !area.covers(self.at) {
            return None;
        }
        if self.at == root {
            return None;
        }
        Some(self.at)
    }
}

// Appends an array whose address is after the last.
#[tactic(auto, using(crate::proofs::After::in_order_after, crate::proofs::After::in_order_alone))]
pub fn append(sizes: &mut Sizes, root: Addr, rows: u16, cols: u16) -> Result<(), Fail> {
    let count = sizes.len();
    if count > 0 {
        let last = sizes.at(count - 1).ok_or("last")?;
        if !last.0.is_before(root) {
            return Err("order".into());
        }
    }
    sizes.push(root, size(rows, cols)?)?;
    Ok(())
}

// What stands in the way of a root that has an entry.
fn obstacle_of(
    w: &Oracle,
    sizes: &Sizes,
    root: Addr,
    blocks: &OneContent,
) -> Result<Option<Obstacle>, Fail> {
    let bound = whole_grid();
    if !is_consistent(w, sizes, &bound, blocks) {
        return Err("not consistent".into());
    }
    if w.entry(root).is_none() {
        return Err("no entry".into());
    }
    Ok(blocker(w, root, &bound, blocks))
}

/// What stands in the way of a root, if anything does; addresses are written as texts.
#[derive(Clone, Copy)]
enum Way {
    Free,
    Root(&'static str),
    Content(&'static str),
    Edge,
}

fn obstacle(way: Way) -> Result<Option<Obstacle>, Fail> {
    match way {
        Way::Free => Ok(None),
        Way::Root(name) => Ok(Some(Obstacle::Root(address(name)?))),
        Way::Content(name) => Ok(Some(Obstacle::Content(address(name)?))),
        Way::Edge => Ok(Some(Obstacle::Edge)),
    }
}

/// The address with content, the roots of an array of three rows and of one of so many rows and
/// columns, and what is in the way of one of them.
type Row = (
    &'static str,
    &'static str,
    &'static str,
    u16,
    u16,
    &'static str,
    Way,
);

const ROWS: &[Row] = &[
    ("D1", "B1", "A2", 1, 3, "B1", Way::Free),
    ("D1", "B1", "A2", 1, 3, "A2", Way::Root("B1")),
    ("A2", "B1", "A2", 1, 1, "A2", Way::Free),
    ("A2", "A1", "B1", 3, 1, "A1", Way::Content("A2")),
    ("A2", "A1", "B1", 3, 1, "B1", Way::Free),
    ("D1", "B1", "A9998", 3, 1, "A9998", Way::Edge),
    ("D1", "B1", "A9998", 2, 1, "A9998", Way::Free),
    ("D1", "B1", "ZY2", 1, 3, "ZY2", Way::Edge),
];

/// What is in the way of the root that the row asks of.
fn found_at(alloc: Global, row: &Row) -> Result<Option<Obstacle>, Fail> {
    let (held, first, root, rows, cols, asked, _) = row;
    let blocks = OneContent { at: address(held)? };
    let mut sizes = Sizes::new(alloc);
    append(&mut sizes, address(first)?, 3, 1)?;
    append(&mut sizes, address(root)?, *rows, *cols)?;
    let w = granted(alloc, &sizes, &blocks)?;
    obstacle_of(&w, &sizes, address(asked)?, &blocks)
}

#[test]
fn permits_and_obstacles(rt: HostRuntime) -> Result<(), Fail> {
    for row in ROWS {
        let found = found_at(rt.alloc(), row)?;
        assert!(rt; found == obstacle(row.6)?, "at {} beside {}", row.5, row.2);
    }
    Ok(())
}

// The permits of these arrays beside the content.
#[tactic(auto, using(laws_calculus::proofs::Calculus::Apart::apart))]
pub fn granted(alloc: Global, sizes: &Sizes, blocks: &OneContent) -> Result<Oracle, Fail>
    ensures { IfOk result AreApart }
{
    match grant(alloc, sizes, &whole_grid(), blocks) {
        Ok(w) => Ok(w),
        Err(_) => Err("memory".into()),
    }
}

// Four thousand arrays of two rows and three columns, one below the other.
fn many_arrays(alloc: Global) -> Result<Sizes, Fail> {
    let mut sizes = Sizes::new(alloc);
    for i in 0..4000 {
        let root = Addr::new(1, 2 * i + 1).ok_or("root")?;
        append(&mut sizes, root, 2, 3)?;
    }
    Ok(sizes)
}

/// The address by this number, modulo 8,000 below A1 and modulo 3 right of it, is looked up.
fn is_looked_up(w: &Oracle, number: u16) -> Result<bool, Fail> {
    let below = number % 8000;
    let right = number % 3;
    let a = Addr::new(right + 1, below + 1).ok_or("address")?;
    let root = Addr::new(1, below - below % 2 + 1).ok_or("root")?;
    let permit = if a == root {
        Some(Permit::Permitted)
    } else {
        None
    };
    Ok(w.status(a) == permit && w.cover(a) == Some((root, below % 2, right)))
}

#[test]
fn many_roots_are_looked_up(rt: HostRuntime) -> Result<(), Fail> {
    let blocks = OneContent { at: address("D1")? };
    let w = granted(rt.alloc(), &many_arrays(rt.alloc())?, &blocks)?;
    assert!(rt; w.len() == 4000);
    for i in 0..10000 {
        assert!(rt; is_looked_up(&w, i)?, "at {i}");
    }
    Ok(())
}
