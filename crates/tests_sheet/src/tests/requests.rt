//! Lines as requests.
use crate::tests::asserts::assert_text;
use crate::tests::telling::{assert_told, told};
use std::alloc::Global;
use std::test::Fail;
use tests_common::push_times;

#[test]
fn contents_that_are_set(rt: HostRuntime) {
    assert_told(
        &rt,
        rt.alloc(),
        &[
            ("set A1 5", "set number"),
            ("set A1 -007", "set number"),
            ("set A1 TRUE", "set truth"),
            ("set A1 true", "set text"),
            ("set A1  5", "set text"),
            ("set A1 x y ", "set text"),
            ("set A1 9223372036854775808", "set text"),
            ("set A1 \"a b\"", "set text"),
            ("set ZZ9999 \"\"", "set text"),
        ],
    );
}

#[test]
fn queries_and_imports(rt: HostRuntime) {
    assert_told(
        &rt,
        rt.alloc(),
        &[
            ("", ""),
            ("; show A0", ""),
            ("clear A1", "clear"),
            ("clear A1:ZZ9999", "clear"),
            ("show ZZ9999", "show"),
            ("view A1:B5000", "view"),
            ("view B2:B2", "view"),
            ("get A1", "get"),
            ("list", "list"),
            ("calc", "calc"),
            ("oracle", "oracle"),
            ("why A1", "why"),
            ("explain ZZ9999", "explain"),
            ("flow", "flow"),
            ("import A1 0", "import"),
            ("import A1 1048576", "import"),
            ("import ZZZ1 2", "import nowhere"),
            ("gridlet 2", "version"),
            ("quit", "quit"),
        ],
    );
}

#[test]
fn replicas_and_undo(rt: HostRuntime) {
    assert_told(
        &rt,
        rt.alloc(),
        &[
            ("site 0", "site"),
            ("site 65535", "site"),
            ("edit 1 0 A1 5", "edit"),
            ("edit 1000000000000 65535 ZZ9999 = 1 + 2", "edit"),
            ("edit 1 1 A1  x", "edit"),
            ("edit 1 1 A1", "removal"),
            ("export", "export"),
            ("undo", "undo"),
            ("redo", "redo"),
        ],
    );
}

/// What is told of a line with so many of a piece between its beginning and its end.
fn told_between(
    alloc: Global,
    start: &str,
    piece: &str,
    count: u32,
    end: &str,
) -> Result<&'static str, Fail> {
    let mut line = start.to_string(alloc)?;
    push_times(&mut line, piece, count)?;
    line.push_str(end)?;
    Ok(told(alloc, line.as_bytes()))
}

/// A piece so many times between a beginning and an end, and what is told of the line.
type Long = (&'static str, &'static str, u32, &'static str, &'static str);

const LONG_LINES: &[Long] = &[
    ("set A1 ", "a", 4096, "", "set text"),
    ("set A1 ", "a", 4097, "", "error field"),
    ("set A1 -", "0", 5000, "7", "set number"),
    ("set A1 ", "9", 4097, "", "error field"),
    ("set A1 \"", "\\\\", 4096, "\"", "set text"),
    ("set A1 \"", "\\\\", 4097, "\"", "error text"),
    ("set A1 =1", " ", 8191, "", "set formula"),
    ("set A1 =1", " ", 8192, "", "long"),
    ("set A1 =", "(", 65, "1", "deep"),
    (";", "x", 32767, "", ""),
];

/// Of the row's line is told what the row says.
fn holds(alloc: Global, row: &Long) -> Result<bool, Fail> {
    let (start, piece, count, end, want) = row;
    Ok(told_between(alloc, start, piece, *count, end)? == *want)
}

#[test]
fn long_lines(rt: HostRuntime) -> Result<(), Fail> {
    for row in LONG_LINES {
        assert!(rt;
            holds(rt.alloc(), row)?,
            "{} and {} {}",
            row.0,
            row.2,
            row.1
        );
    }
    Ok(())
}

/// What is told of a formula in so many parentheses.
fn told_within(alloc: Global, count: u32) -> Result<&'static str, Fail> {
    let mut line = "set A1 =".to_string(alloc)?;
    push_times(&mut line, "(", count)?;
    line.push('1')?;
    push_times(&mut line, ")", count)?;
    Ok(told(alloc, line.as_bytes()))
}

#[test]
fn nested_parentheses(rt: HostRuntime) -> Result<(), Fail> {
    assert_text(&rt, told_within(rt.alloc(), 64)?, "set formula");
    assert_text(&rt, told_within(rt.alloc(), 65)?, "deep");
    Ok(())
}
