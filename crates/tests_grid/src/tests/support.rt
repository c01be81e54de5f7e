//! What a change affects, where names read names and look at places.
use crate::tests::changes::ranges_of;
use gl_plane::{NoMemory, Share};
use gl_support::Support;
use std::alloc::Global;
use std::test::Fail;
use tests_common::range;

#[derive(Clone, Copy, PartialEq, Eq, Hash)]
pub struct Name(pub u32);

impl Share for Name {
    ghost use Rattle.std.specs.Prelude.{◌≡◌, nat_eq, true};
    ghost use Rattle.std.specs.Cmp.{nat_eq_equiv};
    ghost use Rattle.std.proofs.Common.{subst};

    ghost shares = { λ x y. x ≡ y };

    ghost alike = { λ x y e. subst (λ z. nat_eq x.0 z.0 ≡ true) e (nat_eq_equiv.refl x.0) };

    fn share(&self) -> Result<Name, NoMemory> {
        Ok(*self)
    }
}

/// A name, the names that it reads, and the range that it looks at.
type Row = (u32, &'static [Name], &'static str);

// 3 reads 9, 9 reads 3 and 1; 1 alone looks at B1; 4 reads a name that has no triple.
const ROWS: &[Row] = &[
    (9, &[Name(3), Name(1)], "A1:A1"),
    (4, &[Name(7)], "A1:A1"),
    (3, &[Name(9)], "A1:A1"),
    (1, &[], "B1:B1"),
    (9, &[Name(4)], "A1:A1"),
];

/// Rows, ranges that change, and the names that this affects.
const CHANGES: &[(&[Row], &[&str], &[Name])] = &[
    (ROWS, &["B1:B1"], &[Name(9), Name(3), Name(1)]),
    (ROWS, &["A1:A1"], &[Name(9), Name(4), Name(3)]),
    (ROWS, &[], &[]),
    (&[], &["A1:A1"], &[]),
];

/// The names that a change of these ranges affects.
fn affected(alloc: Global, rows: &[Row], changed: &[&str]) -> Result<Vec<Name>, Fail> {
    let mut support = Support::new(alloc);
    for (by, reads, place) in rows {
        support.add(alloc, Name(*by), reads, &[range(place)?])?;
    }
    Ok(support.affected(alloc, &ranges_of(alloc, changed)?)?)
}

#[test]
fn members_in_the_order_of_adding(rt: HostRuntime) -> Result<(), Fail> {
    for (rows, changed, names) in CHANGES {
        let found = affected(rt.alloc(), rows, changed)?;
        assert!(rt; found.as_slice() == *names, "{changed:?}");
    }
    Ok(())
}

#[test]
fn a_long_chain(rt: HostRuntime) -> Result<(), Fail> {
    let alloc = rt.alloc();
    let place = range("A1:A1")?;
    let mut support = Support::new(alloc);
    support.add(alloc, Name(0), &[], &[place])?;
    for k in 1..100_000 {
        support.add(alloc, Name(k), &[Name(k - 1)], &[])?;
    }
    let found = support.affected(alloc, &[place])?;
    assert_eq!(rt; found.len(), 100_000);
    Ok(())
}
