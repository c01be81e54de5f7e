//! Functions on arrays, by the texts of their arguments and of what they come to.
use crate::tests::calls::called;
use crate::tests::values::value;
use gl_arrays::sequence;
use gl_value::{Scalar, Value};
use std::alloc::Global;
use std::test::Fail;
use tests_common::each_is_read;

#[test]
fn sequences(rt: HostRuntime) -> Result<(), Fail> {
    each_is_read(
        rt.alloc(),
        called,
        &[
            ("SEQUENCE 2; 3", "{1 2 3 / 4 5 6}"),
            ("SEQUENCE 10001; 1", "#SIZE!"),
            ("SEQUENCE 101; 100", "#SIZE!"),
            (
                "SEQUENCE 9223372036854775807; 9223372036854775807",
                "#SIZE!",
            ),
            ("SEQUENCE 0; 20000", "#VALUE!"),
            ("SEQUENCE 3; .", "#VALUE!"),
            ("SEQUENCE #NUM!; #N/A", "#NUM!"),
            ("SEQUENCE TRUE; #N/A", "#VALUE!"),
        ],
    )
}

/// How many rows and columns a sequence has, where its first element is 1.
fn outline(alloc: Global, rows: &str, cols: &str) -> Result<(u16, u16), Fail> {
    match &sequence(alloc, &value(alloc, rows)?, &value(alloc, cols)?)? {
        Value::One(_) => Err(Fail::new("no array")),
        Value::Array(a) => {
            if a.item(0, 0) == Some(&Scalar::Int(1)) {
                Ok((a.size().rows(), a.size().cols()))
            } else {
                Err(Fail::new("another beginning"))
            }
        }
    }
}

#[test]
fn the_longest_sequence(rt: HostRuntime) -> Result<(), Fail> {
    assert_eq!(rt; outline(rt.alloc(), "10000", "1")?, (10_000, 1));
    Ok(())
}

#[test]
fn rows_and_columns(rt: HostRuntime) -> Result<(), Fail> {
    each_is_read(
        rt.alloc(),
        called,
        &[
            ("TRANSPOSE {1 2 3 / 4 5 6}", "{1 4 / 2 5 / 3 6}"),
            ("ROWS {1 4 / 2 5 / 3 6}", "3"),
            ("COLUMNS {1 4 / 2 5 / 3 6}", "2"),
            ("ROWS {1 2 / 3 4 / 5 6 / 7 8}", "4"),
            ("COLUMNS {1 2 / 3 4 / 5 6 / 7 8}", "2"),
            ("ROWS .", "1"),
            ("COLUMNS .", "1"),
            ("TRANSPOSE .", "."),
            ("ROWS #N/A", "#N/A"),
            ("COLUMNS #N/A", "#N/A"),
            ("TRANSPOSE #N/A", "#N/A"),
        ],
    )
}

#[test]
fn indexes(rt: HostRuntime) -> Result<(), Fail> {
    each_is_read(
        rt.alloc(),
        called,
        &[
            ("INDEX {1 2 / 3 4}; 1; 1", "1"),
            ("INDEX {1 2 / 3 4}; 1; 2", "2"),
            ("INDEX {1 2 / 3 4}; 2; 1", "3"),
            ("INDEX {1 2 / 3 4}; 3; 1", "#REF!"),
            ("INDEX {1 2 / 3 4}; 1; 3", "#REF!"),
            ("INDEX {1 2 / 3 4}; .; 1", "#REF!"),
            ("INDEX {1 2 / 3 4}; 65537; 1", "#REF!"),
            ("INDEX {1 2 / 3 4}; #NUM!; #N/A", "#NUM!"),
            ("INDEX {1 2 / 3 4}; 9; #N/A", "#N/A"),
            ("INDEX {1 2 / 3 4}; TRUE; #N/A", "#VALUE!"),
            ("INDEX #N/A; #NUM!; TRUE", "#N/A"),
        ],
    )
}

#[test]
fn lookups(rt: HostRuntime) -> Result<(), Fail> {
    each_is_read(
        rt.alloc(),
        called,
        &[
            ("LOOKUP 5; {5 / . / 5}; {1 / 2 / 3}", "1"),
            ("LOOKUP 0; {5 / . / 5}; {1 / 2 / 3}", "2"),
            ("LOOKUP .; {5 / . / 5}; {1 / 2 / 3}", "2"),
            ("LOOKUP 6; {5 / . / 5}; {1 / 2 / 3}", "#N/A"),
            ("LOOKUP #NUM!; {5 / . / 5}; {1 / 2 / 3}", "#NUM!"),
            ("LOOKUP .; #N/A; #NUM!", "#N/A"),
        ],
    )
}

#[test]
fn parts_taken(rt: HostRuntime) -> Result<(), Fail> {
    each_is_read(
        rt.alloc(),
        called,
        &[
            ("TAKE {1 2 3 / 4 5 6 / 7 8 9}; 2; -1", "{3 / 6}"),
            ("TAKE {1 2 3 / 4 5 6 / 7 8 9}; -2; 9", "{4 5 6 / 7 8 9}"),
            (
                "TAKE {1 2 3 / 4 5 6}; -9223372036854775808; 9223372036854775807",
                "{1 2 3 / 4 5 6}",
            ),
            ("TAKE {1 2 3 / 4 5 6 / 7 8 9}; .; 1", "#VALUE!"),
            ("TAKE {1 2 3 / 4 5 6 / 7 8 9}; 1; 0", "#VALUE!"),
            ("TAKE {1 2 3 / 4 5 6 / 7 8 9}; 0; #NUM!", "#NUM!"),
        ],
    )
}

#[test]
fn parts_left(rt: HostRuntime) -> Result<(), Fail> {
    each_is_read(
        rt.alloc(),
        called,
        &[
            ("DROP {1 2 3 / 4 5 6 / 7 8 9}; 1; -2", "{4 / 7}"),
            ("DROP {1 2 3 / 4 5 6}; .; 0", "{1 2 3 / 4 5 6}"),
            ("DROP {1 2 3 / 4 5 6 / 7 8 9}; -1; 1", "{2 3 / 5 6}"),
            ("DROP {1 2 3 / 4 5 6 / 7 8 9}; 3; 0", "#VALUE!"),
            ("DROP {1 2 3 / 4 5 6 / 7 8 9}; 0; -3", "#VALUE!"),
            (
                "DROP {1 2 3 / 4 5 6 / 7 8 9}; -9223372036854775808; 0",
                "#VALUE!",
            ),
            ("DROP {1 2 3 / 4 5 6 / 7 8 9}; TRUE; #NUM!", "#VALUE!"),
            ("DROP TRUE; .; .", "{TRUE}"),
        ],
    )
}

#[test]
fn stacks(rt: HostRuntime) -> Result<(), Fail> {
    each_is_read(
        rt.alloc(),
        called,
        &[
            ("HSTACK {1 / 2}; 9", "{1 9 / 2 #N/A}"),
            ("VSTACK {1 2}; 9", "{1 2 / 9 #N/A}"),
        ],
    )
}

#[test]
fn filters(rt: HostRuntime) -> Result<(), Fail> {
    each_is_read(
        rt.alloc(),
        called,
        &[
            ("FILTER {1 / 2 / 3}; {TRUE / . / TRUE}", "{1 / 3}"),
            ("FILTER {1 / 2 / 3}; {TRUE / #NUM! / #N/A}", "#NUM!"),
            ("FILTER {1 / 2 / 3}; {TRUE / 1 / #N/A}", "#VALUE!"),
            ("FILTER 7; TRUE", "{7}"),
            ("FILTER 7; .", "#N/A"),
            ("FILTER #N/A; #NUM!", "#N/A"),
        ],
    )
}

#[test]
fn distinct_rows(rt: HostRuntime) -> Result<(), Fail> {
    each_is_read(
        rt.alloc(),
        called,
        &[
            ("UNIQUE {0 / . / 0}", "{0 / .}"),
            ("UNIQUE {1 / 1 / 2}", "{1 / 2}"),
            ("UNIQUE {#N/A / #N/A / #N/A}", "{#N/A}"),
            ("UNIQUE {3 / 2 / 1}", "{3 / 2 / 1}"),
            ("UNIQUE TRUE", "TRUE"),
        ],
    )
}
