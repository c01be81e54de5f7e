//! The texts of values, contents, tables and oracles.
use crate::tests::asserts::assert_text;
use gl_plane::Permit;
use gl_value::{ErrKind, Scalar, Shown};
use gl_views::{content_text, oracle_text, shown_text, table};
use std::alloc::Global;
use std::test::Fail;
use tests_common::{content_of, one_entry, text};

fn int(n: i64) -> Shown {
    Shown::Value(Scalar::Int(n))
}

fn push_text(alloc: Global, items: &mut Vec<Shown>, t: &str) -> Result<(), Fail> {
    let x = text(alloc, t)?;
    items.push(Shown::Value(x))?;
    Ok(())
}

/// Two rows of three columns: the second text is as long as may be, the other is shorter and has
/// characters of two and three bytes.
fn items(alloc: Global) -> Result<Vec<Shown>, Fail> {
    let mut items = Vec::new(alloc);
    items.push(int(5))?;
    push_text(alloc, &mut items, "\u{e9}\u{20ac}")?;
    items.push(Shown::Cycle)?;
    items.push(int(-12345))?;
    push_text(alloc, &mut items, "abcdefghijklmnopqrstu\u{e9}w")?;
    items.push(Shown::Value(Scalar::Blank))?;
    Ok(items)
}

/// The table of two rows of three columns.
fn lines(alloc: Global) -> Result<String, Fail> {
    let items = items(alloc)?;
    if items.len() != 6 {
        return Err(Fail::new("not six items"));
    }
    Ok(table(alloc, 2, 3, &items)?)
}

#[test]
fn tables(rt: HostRuntime) -> Result<(), Fail> {
    let lines = lines(rt.alloc())?;
    assert_text(
        &rt,
        lines.as_str(),
        "     5                     \"\u{e9}\u{20ac}\" #CYCLE!\n-12345 \"abcdefghijklmnopqrstu\u{e9}~       .\n",
    );
    Ok(())
}

/// The content of a line, as a cell shows it.
fn told(alloc: Global, line: &str) -> Result<String, Fail> {
    let (_, content) = content_of(alloc, line)?;
    Ok(content_text(alloc, &content)?)
}

#[test]
fn texts(rt: HostRuntime) -> Result<(), Fail> {
    let error = shown_text(rt.alloc(), &Shown::Value(Scalar::Err(ErrKind::Div0)))?;
    assert_text(&rt, error.as_str(), "#DIV/0!");
    assert_text(&rt, told(rt.alloc(), "set A1 = 1 ")?.as_str(), "=1");
    Ok(())
}

#[test]
fn oracles(rt: HostRuntime) -> Result<(), Fail> {
    let oracle = one_entry(rt.alloc(), "B10", 1, 3, Permit::Refused)?;
    let lines = oracle_text(rt.alloc(), &oracle)?;
    assert_text(&rt, lines.as_str(), "oracle 1\nB10 1x3 refused\n");
    Ok(())
}
