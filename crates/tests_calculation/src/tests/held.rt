//! What is held of a calculation: until an edit, and until another version is asked.
ghost use Rattle.std.specs.Prelude.{◌≤◌};

use crate::tests::calculations::{Sheet, calc_of, edit, goes_on, is_held, refreshed, shows};
use gl_ast::Version;
use gl_calc::Calc;
use std::alloc::Global;
use std::test::Fail;
use tests_common::content_of;

/// Whether an answer is held behind a calculation.
fn is_held_behind_one(alloc: Global, calc: &mut Calc) -> Result<bool, Fail> {
    refreshed(alloc, calc, 0, Version::One)?;
    is_held(calc)
}

/// An answer is held until the edit, and not behind it.
fn is_held_until(alloc: Global, calc: &mut Calc, line: &str) -> Result<bool, Fail> {
    let before = is_held_behind_one(alloc, calc)?;
    edit(alloc, calc, line)?;
    Ok(before && !is_held(calc)?)
}

#[test]
fn an_answer_is_held_until_an_edit(rt: HostRuntime) -> Result<(), Fail> {
    let alloc = rt.alloc();
    let mut calc = calc_of(alloc, &["set A1 =SEQUENCE(2,1)"])?;
    for line in ["set A2 3", "clear A2:B9", "clear C3"] {
        assert!(rt; is_held_until(alloc, &mut calc, line)?, "{line}");
    }
    Ok(())
}

/// An answer is held until two contents are put at once, and not behind that.
fn is_held_until_two(alloc: Global, calc: &mut Calc) -> Result<bool, Fail> {
    let before = is_held_behind_one(alloc, calc)?;
    put_two(alloc, calc)?;
    Ok(before && !is_held(calc)?)
}

#[test]
fn contents_are_put_at_once(rt: HostRuntime) -> Result<(), Fail> {
    let alloc = rt.alloc();
    let mut calc = calc_of(alloc, &["set A1 =SEQUENCE(2,1)"])?;
    assert!(rt; is_held_until_two(alloc, &mut calc)?);
    refreshed(alloc, &mut calc, 0, Version::One)?;
    assert!(rt; shows(alloc, &calc, "A1", "#SPILL!")?);
    Ok(())
}

/// Numbers in A2 and B2, put at once.
fn put_two(alloc: Global, calc: &mut Calc) -> Result<(), Fail> {
    let mut list = Vec::new(alloc);
    list.push(content_of(alloc, "set B2 5")?)?;
    list.push(content_of(alloc, "set A2 6")?)?;
    calc.put_all(alloc, list)?;
    Ok(())
}

/// In version 1 a condition that is an array is none. In version 2, without an edit, both values are
/// evaluated.
#[rattlefmt::skip]
const IN_ONE_AND_TWO: [Sheet; 2] = [
    Sheet { lines: &["set A1 =IF(SEQUENCE(1,2)>0,1,A1)"], ends: "settled 1", oracle: "oracle 0\n",
        shows: &[("A1", "#VALUE!")], whys: &[("A1", "none")] },
    Sheet { lines: &[], ends: "settled 1", oracle: "oracle 0\n", shows: &[("A1", "#CYCLE!")],
        whys: &[("A1", "none")] },
];

/// Back in version 1, without an edit, its answer is the first one again.
#[rattlefmt::skip]
const IN_ONE_AGAIN: Sheet = Sheet {
    lines: &[], ends: "settled 1", oracle: "oracle 0\n", shows: &[("A1", "#VALUE!")],
    whys: &[("A1", "none")] };

/// Each version has its own answer, by the pick rule of this kind.
fn versions_differ(alloc: Global, kind: u8) -> Result<bool, Fail>
    requires { kind ≤ 2 }
{
    let mut calc = Calc::new(alloc);
    let [one, two] = &IN_ONE_AND_TWO;
    Ok(
        goes_on(alloc, &mut calc, one, kind, Version::One)?
            && goes_on(alloc, &mut calc, two, kind, Version::Two)?
            && goes_on(alloc, &mut calc, &IN_ONE_AGAIN, kind, Version::One)?,
    )
}

#[test]
fn versions_have_their_own_answers(rt: HostRuntime) -> Result<(), Fail> {
    for kind in 0u8..3 {
        assert!(rt; versions_differ(rt.alloc(), kind)?, "kind {kind}");
    }
    Ok(())
}
