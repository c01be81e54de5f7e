//! Sheets with many keys.
ghost use Rattle.std.specs.Prelude.{◌≤◌};

use crate::tests::runs::{Sight, counts};
use crate::tests::turns::evaluator_of;
use gl_cells::Cells;
use gl_core::MAX_DEMANDED;
use gl_plane::Oracle;
use std::alloc::Global;
use std::test::Fail;
use tests_common::{Form, first_column, sheet_of, sheet_with};

/// A chain of 5,000 formulas whose last one goes on with the first of a copy, through 39 copies.
pub fn chain(alloc: Global) -> Result<Cells, Fail> {
    let lines = [
        "set B1 39",
        "set A5000 =IF(B1=0,1,VIEW(UPDATE(SHEET(A1:B5000),B1,B1-1),A1)+1)",
    ];
    let links = first_column(1, 4999, Form::Below("", "+1"));
    sheet_with(alloc, &lines, &links)
}

/// How many keys the chain has, its steps by the pick rule of this kind, and what its first cell comes to.
fn chain_counts(alloc: Global, kind: u8) -> Result<(u64, u64, Sight), Fail>
    requires { kind ≤ 2 }
{
    let w = Oracle::new(alloc);
    let cells = chain(alloc)?;
    counts(&evaluator_of(alloc, &cells, &w), &["A1"], "A1", kind)
}

/// A cell of the sheet or a copy each, and the settling of each copy; all but the last cell take two
/// steps.
const CHAIN: (u64, u64, Sight) = (200_039, 400_077, Sight::Number(200_000));

#[test]
fn a_chain_of_many_keys_by_the_first(rt: HostRuntime) -> Result<(), Fail> {
    assert_eq!(rt; chain_counts(rt.alloc(), 0)?, CHAIN);
    Ok(())
}

#[test]
fn a_chain_of_many_keys_by_the_last(rt: HostRuntime) -> Result<(), Fail> {
    assert_eq!(rt; chain_counts(rt.alloc(), 1)?, CHAIN);
    Ok(())
}

#[test]
fn a_chain_of_many_keys_in_turn(rt: HostRuntime) -> Result<(), Fail> {
    assert_eq!(rt; chain_counts(rt.alloc(), 2)?, CHAIN);
    Ok(())
}

/// Copies that each make two, and three formulas beside them.
const TREE: &[&str] = &[
    "set A1 1",
    "set B1 =IF(A1>=50000,1,VIEW(UPDATE(SHEET(A1:B1),A1,2*A1),B1)+VIEW(UPDATE(SHEET(A1:B1),A1,2*A1+1),B1))",
    "set C1 =1",
    "set D1 =1",
    "set E1 =1",
];

#[test]
fn many_keys(rt: HostRuntime) -> Result<(), Fail> {
    assert_eq!(rt; MAX_DEMANDED, 500_000);
    let w = Oracle::new(rt.alloc());
    let cells = sheet_of(rt.alloc(), TREE)?;
    let at = evaluator_of(rt.alloc(), &cells, &w);
    assert_eq!(rt;
        counts(&at, &["B1", "C1", "D1", "E1"], "B1", 2)?,
        (200_000, 399_996, Sight::Number(50_000))
    );
    Ok(())
}
