//! What a calculator shows behind edits is what a new one shows that has the same contents.
ghost use Rattle.std.specs.Prelude.{◌≤◌};

use crate::tests::calculations::{edit, refreshed};
use gl_ast::{Version, put, put_address, put_number};
use gl_calc::Calc;
use gl_plane::Addr;
use gl_views::{oracle_text, shown_text};
use std::alloc::Global;
use std::collections::BTreeMap;
use std::test::Fail;
use tests_common::address;

/// The columns and rows that edits go to and that are compared.
const COLS: u16 = 6;

const ROWS: u16 = 6;

/// The held oracle and what each address shows; nothing where no answer is held.
pub fn all_shown(alloc: Global, calc: &Calc) -> Result<String, Fail> {
    let mut out = String::new(alloc);
    let Some(oracle) = calc.oracle() else {
        return Ok(out);
    };
    put(&mut out, &oracle_text(alloc, oracle)?)?;
    for row in 0..ROWS {
        put_row(alloc, &mut out, calc, row.saturating_add(1))?;
    }
    Ok(out)
}

/// What the addresses of a row show, each in a line.
fn put_row(alloc: Global, out: &mut String, calc: &Calc, row: u16) -> Result<(), Fail> {
    for col in 0..COLS {
        if let Some(a) = Addr::new(col.saturating_add(1), row) {
            put_shown(alloc, out, calc, a)?;
        }
    }
    Ok(())
}

fn put_shown(alloc: Global, out: &mut String, calc: &Calc, a: Addr) -> Result<(), Fail> {
    if let Some(shown) = calc.shown(a)? {
        put(out, &shown_text(alloc, &shown)?)?;
        put(out, "\n")?;
    }
    Ok(())
}

/// The latest edit of each address that has a content.
type Lines = BTreeMap<Addr, String>;

/// A new calculator with these contents.
fn calc_anew(alloc: Global, lines: &Lines) -> Result<Calc, Fail> {
    let mut calc = Calc::new(alloc);
    for (_, line) in lines {
        edit(alloc, &mut calc, line)?;
    }
    Ok(calc)
}

/// Sets the address to the text, or removes its content.
fn edit_at(
    alloc: Global,
    calc: &mut Calc,
    lines: &mut Lines,
    a: Addr,
    text: Option<&str>,
) -> Result<(), Fail> {
    let mut line = String::new(alloc);
    put(&mut line, if text.is_some() { "set " } else { "clear " })?;
    put_address(alloc, &mut line, a)?;
    let Some(text) = text else {
        lines.remove(&a);
        return edit(alloc, calc, &line);
    };
    put(&mut line, " ")?;
    put(&mut line, text)?;
    edit(alloc, calc, &line)?;
    lines.insert(a, line)?;
    Ok(())
}

/// By the pick rule of this kind it ends as a new calculator with these contents, and shows the same.
fn is_as_anew(
    alloc: Global,
    calc: &mut Calc,
    lines: &Lines,
    kind: u8,
    version: Version,
) -> Result<bool, Fail>
    requires { kind ≤ 2 }
{
    let mut anew = calc_anew(alloc, lines)?;
    let ends = refreshed(alloc, calc, kind, version)?;
    let ends_anew = refreshed(alloc, &mut anew, kind, version)?;
    if ends.as_str() != ends_anew.as_str() {
        return Ok(false);
    }
    let shown = all_shown(alloc, calc)?;
    let shown_anew = all_shown(alloc, &anew)?;
    Ok(shown.as_str() == shown_anew.as_str())
}

/// Numbers that look drawn at random, the same in each run.
#[derive(Drop)]
struct Draws {
    state: u64,
}

impl Draws {
    /// The next one, below `n`; 0 where `n` is 0.
    fn below(&mut self, n: u16) -> u16 {
        self.state = self
            .state
            .wrapping_mul(6364136223846793005)
            .wrapping_add(1442695040888963407);
        let n = u64::from(n.max(1));
        u16::try_from((self.state >> 33) % n).unwrap_or(0)
    }
}

/// A drawn address.
fn drawn_place(draws: &mut Draws) -> Result<Addr, Fail> {
    let col = draws.below(COLS).saturating_add(1);
    let row = draws.below(ROWS).saturating_add(1);
    match Addr::new(col, row) {
        Some(a) => Ok(a),
        None => Err("no address".into()),
    }
}

/// How many forms of contents there are.
const KINDS: u16 = 12;

/// What contents are made of: `%` stands for a drawn address, `#` for a drawn digit.
const CONTENTS: [&str; KINDS as usize] = [
    "#",
    "x",
    "=%+#",
    "=%*%",
    "=SEQUENCE(#,1)",
    "=SEQUENCE(1,#)",
    "=SEQUENCE(%,1)",
    "=SUM(%:F6)",
    "=IF(%>#,%,%)",
    "=IFERROR(%,%)",
    "=VIEW(UPDATE(SHEET(H1:I1),H1,#),I1)",
    "=ROWS(%#)",
];

/// The text, with what its marks stand for. A `#` behind an address stays.
fn put_drawn(alloc: Global, out: &mut String, text: &str, draws: &mut Draws) -> Result<(), Fail> {
    let mut behind_place = false;
    for c in text.chars() {
        if c == '%' {
            put_address(alloc, out, drawn_place(draws)?)?;
        } else if c == '#' && !behind_place {
            put_number(alloc, out, draws.below(5) as usize)?;
        } else {
            out.push(c)?;
        }
        behind_place = c == '%';
    }
    Ok(())
}

/// A drawn edit: one in six removes a content, the others set one.
fn drawn_edit(
    alloc: Global,
    calc: &mut Calc,
    lines: &mut Lines,
    draws: &mut Draws,
) -> Result<(), Fail> {
    let a = drawn_place(draws)?;
    if draws.below(6) == 0 {
        return edit_at(alloc, calc, lines, a, None);
    }
    let i = draws.below(KINDS) as usize;
    let Some(content) = CONTENTS.get(i) else {
        return Err("no content".into());
    };
    let mut text = String::new(alloc);
    put_drawn(alloc, &mut text, content, draws)?;
    edit_at(alloc, calc, lines, a, Some(&text))
}

/// Behind each of so many drawn edits all is as in a new calculator, by each pick rule in turn. The
/// number of the first that isn't. H1 and I1, which some copies are of, stay.
fn first_amiss(alloc: Global, seed: u64, count: usize) -> Result<Option<usize>, Fail> {
    let mut draws = Draws { state: seed };
    let mut calc = Calc::new(alloc);
    let mut lines = BTreeMap::new(alloc);
    for (a, text) in [("H1", "2"), ("I1", "=H1*H1+A1")] {
        edit_at(alloc, &mut calc, &mut lines, address(a)?, Some(text))?;
    }
    for i in 0..count {
        drawn_edit(alloc, &mut calc, &mut lines, &mut draws)?;
        let kind = (i % 3) as u8;
        if !is_as_anew(alloc, &mut calc, &lines, kind, Version::One)? {
            return Ok(Some(i));
        }
    }
    Ok(None)
}

#[test]
fn a_history_is_as_anew(rt: HostRuntime) -> Result<(), Fail> {
    let amiss = first_amiss(rt.alloc(), 7, 200)?;
    assert!(rt; amiss.is_none(), "{amiss:?}");
    Ok(())
}

/// Arrays each of which knows its size only where the one before it spills: more rounds than tables
/// are kept.
const LONG: &[(&str, &str)] = &[
    ("A1", "=SEQUENCE(2,1)"),
    ("B1", "=SEQUENCE(A2,1)"),
    ("C1", "=SEQUENCE(B2,1)"),
    ("D1", "=SEQUENCE(C2,1)"),
    ("E1", "=SEQUENCE(D2,1)"),
    ("F1", "=SEQUENCE(E2,1)"),
    ("G1", "=SEQUENCE(F2,1)"),
    ("H1", "=SEQUENCE(G2,1)"),
    ("I1", "=SEQUENCE(H2,1)"),
    ("J1", "=SEQUENCE(I2,1)"),
    ("K1", "=SEQUENCE(J2,1)"),
    ("A4", "=1+1"),
];

/// Edits of it, each calculated in a version.
const EDITS: &[(&str, Option<&str>, Version)] = &[
    ("A4", Some("=2+2"), Version::One),
    ("A1", Some("=SEQUENCE(3,1)"), Version::One),
    ("F2", Some("5"), Version::One),
    ("F2", None, Version::One),
    ("K2", Some("9"), Version::Two),
    ("K2", None, Version::One),
    ("A1", Some("5"), Version::Two),
    ("A1", Some("=SEQUENCE(2,1)"), Version::One),
];

/// The sheet of many rounds, settled.
fn settled_long(alloc: Global, lines: &mut Lines, kind: u8) -> Result<Calc, Fail>
    requires { kind ≤ 2 }
{
    let mut calc = Calc::new(alloc);
    for (a, text) in LONG {
        edit_at(alloc, &mut calc, lines, address(a)?, Some(*text))?;
    }
    let ends = refreshed(alloc, &mut calc, kind, Version::One)?;
    if ends.as_str() == "settled 12" {
        Ok(calc)
    } else {
        Err("other rounds".into())
    }
}

/// Behind each edit of it all is as in a new calculator.
fn long_is_as_anew(alloc: Global, kind: u8) -> Result<bool, Fail>
    requires { kind ≤ 2 }
{
    let mut lines = BTreeMap::new(alloc);
    let mut calc = settled_long(alloc, &mut lines, kind)?;
    for (a, text, version) in EDITS {
        edit_at(alloc, &mut calc, &mut lines, address(a)?, *text)?;
        if !is_as_anew(alloc, &mut calc, &lines, kind, *version)? {
            return Ok(false);
        }
    }
    Ok(true)
}

#[test]
fn more_rounds_than_are_kept(rt: HostRuntime) -> Result<(), Fail> {
    for kind in 0u8..3 {
        assert!(rt; long_is_as_anew(rt.alloc(), kind)?, "kind {kind}");
    }
    Ok(())
}
