//! Scripts of long lines and of many lines, made from their parts.
use crate::tests::calls::{DONE, REFUSED, holds};
use gl_ast::{put, put_number};
use gl_plane::NoMemory;
use gl_run::Status;
use std::alloc::Global;
use std::process::Abort;
use std::test::Fail;

/// Bytes, bytes so many times between others, or a line for each number from 1 to the last.
#[derive(Clone, Copy)]
pub enum Part {
    Once(&'static [u8]),
    Times(&'static [u8], &'static [u8], usize, &'static [u8]),
    Lines(&'static str, usize, &'static str),
}

/// The parts of a script and of its replies, and how the run ends.
pub type Long = (&'static [Part], &'static [Part], Status);

#[rattlefmt::skip]
const LINES: &[Long] = &[
    (&[Part::Times(b"", b"a", 32769, b"\n")], &[Part::Once(b"error line\n")], REFUSED),
    (&[Part::Times(b"", b";", 32768, b"\n")], &[], DONE),
    (
        &[Part::Times(b"", b";", 32768, b"\n"), Part::Times(b"", b";", 32769, b"\nshow A1\n")],
        &[Part::Once(b"error line\n.\n")],
        REFUSED,
    ),
    (
        &[Part::Times(b"", b"x", 32768, b"\r\n"), Part::Times(b"", b"x", 32769, b"\r\n")],
        &[Part::Once(b"error command\nerror line\n")],
        REFUSED,
    ),
    (
        &[Part::Times(b"", b"q", 32769, b"\nquit\nfoo\n")],
        &[Part::Once(b"error line\nbye\n")],
        REFUSED,
    ),
    // the longest formula
    (&[Part::Times(b"set A1 =1", b" ", 8191, b"\nget A1\n")], &[Part::Once(b"ok\n=1\n")], DONE),
    (
        &[Part::Times(b"set A1 =1", b" ", 8191, b"\n"), Part::Times(b"set A1 =1", b" ", 8192, b"\n")],
        &[Part::Once(b"ok\nerror long\n")],
        REFUSED,
    ),
    (&[Part::Times(b"set A1 =", b"(", 8192, b"\n")], &[Part::Once(b"error deep\n")], REFUSED),
    // the longest payload, as one field
    (
        &[Part::Times(b"import A1 1048576\n\"", b"a", 1_048_574, b"\"list\n")],
        &[Part::Once(b"error field\nlist 0\n")],
        REFUSED,
    ),
    // the largest table, and one that is larger
    (
        &[Part::Once(b"view A1:B5000\nview A1:B5001\n")],
        &[Part::Times(b"", b". .\n", 5000, b"error range\n")],
        REFUSED,
    ),
];

#[test]
fn lines(rt: HostRuntime) -> Result<(), Fail> {
    assert_long(&rt, rt.alloc(), LINES)
}

/// Texts at their limits, and sheets of many formulas.
#[rattlefmt::skip]
const TEXTS_AND_SHEETS: &[Long] = &[
    (
        &[
            Part::Times(b"set A1 ", b"a", 4096, b"\n"),
            Part::Times(b"set A1 ", b"a", 4097, b"\n"),
            Part::Times(b"set A1 \"", b"a", 4096, b"\"\n"),
            Part::Times(b"set A1 \"", b"a", 4097, b"\"\n"),
            Part::Times(b"set A1 =\"", b"a", 4096, b"\"\n"),
            Part::Times(b"set A1 =\"", b"a", 4097, b"\"\n"),
        ],
        &[Part::Once(b"ok\nerror field\nok\nerror text\nok\nerror text\n")],
        REFUSED,
    ),
    (
        &[
            Part::Times(b"set A1 ", b"a", 4096, b"\n"),
            Part::Once(b"set B1 =LEN(A1&\"b\")\nshow B1\nset B1 =A1&\"\"\nset C1 =LEN(B1)\nshow C1\n"),
            Part::Times(b"set A1 ", b"\xc3\xa9", 2048, b"\nshow C1\n"),
            Part::Times(b"set A1 ", b"\xc3\xa9", 2049, b"\n"),
        ],
        &[Part::Once(b"ok\nok\n#SIZE!\nok\nok\n4096\nok\n2048\nerror field\n")],
        REFUSED,
    ),
    (
        &[
            Part::Once(b"import A1 2892\n"),
            Part::Lines("", 500, ",3"),
            Part::Once(b"set D1 =A1:A500*B1:B500\nset F1 =SUM(D1#)\nset H1 100\nset I1 20\nset J1 =H1-H1*I1/100\nset L1 =G(H1:J1,I1,25)\ncalc\nshow F1\nshow J1\nview L1:N1\n"),
        ],
        &[Part::Once(b"ok\nok\nok\nok\nok\nok\nok\nsettled 2\n375750\n80\n100 25 75\n")],
        DONE,
    ),
    (
        &[
            Part::Once(b"set A1 =SEQUENCE(3,1)\nset B1 =A1#*2\n"),
            Part::Lines("set D", 100, " =1+1"),
            Part::Once(b"calc\ncalc\n"),
        ],
        &[Part::Times(b"", b"ok\n", 102, b"settled 3\nsettled 3\n")],
        DONE,
    ),
    (
        &[
            Part::Lines("set A", 2500, " =1+1"),
            Part::Lines("set B", 2500, " =1+1"),
            Part::Once(b"calc\n"),
        ],
        &[Part::Times(b"", b"ok\n", 5000, b"settled 1\n")],
        DONE,
    ),
    // as many formulas as a sheet has, and one more
    (
        &[
            Part::Lines("set A", 8192, " =1"),
            Part::Lines("set B", 8192, " =1"),
            Part::Once(b"set C1 =1\nset A1 =2\nset B1 1\nset C1 =1\nset D1 =1\n"),
        ],
        &[Part::Times(b"", b"ok\n", 16384, b"error formulas\nok\nok\nok\nerror formulas\n")],
        REFUSED,
    ),
    // the notes of a total of 300 formulas stand in the order in which it needs them
    (
        &[Part::Lines("set A", 300, " =1+2"), Part::Once(b"set B1 =SUM(A1:A300)\nexplain B1\n")],
        &[
            Part::Times(b"", b"ok\n", 301, b"explain 301 0\n"),
            Part::Lines("A", 300, " 3"),
            Part::Once(b"B1 900\nshown 900\naccepted\n"),
        ],
        DONE,
    ),
    // a hundred copies, each in place of the one before, whose results are given up
    (
        &[
            Part::Once(b"set B1 0\n"),
            Part::Lines("set A", 40, " =B1"),
            Part::Lines(
                "set D1 =SUM(VIEW(UPDATE(SHEET(A1:B40),B1,",
                100,
                "),A1:A40))/40\nshow D1",
            ),
        ],
        &[Part::Times(b"", b"ok\n", 41, b""), Part::Lines("ok\n", 100, "")],
        DONE,
    ),
];

#[test]
fn texts_and_sheets(rt: HostRuntime) -> Result<(), Fail> {
    assert_long(&rt, rt.alloc(), TEXTS_AND_SHEETS)
}

fn add_times(out: &mut Vec<u8>, bytes: &[u8], count: usize) -> Result<(), NoMemory> {
    for _ in 0..count {
        out.extend_from_slice(bytes)?;
    }
    Ok(())
}

fn add_lines(
    alloc: Global,
    out: &mut Vec<u8>,
    before: &str,
    count: usize,
    behind: &str,
) -> Result<(), NoMemory> {
    let mut lines = String::new(alloc);
    for i in 0..count {
        put(&mut lines, before)?;
        put_number(alloc, &mut lines, i + 1)?;
        put(&mut lines, behind)?;
        put(&mut lines, "\n")?;
    }
    out.extend_from_slice(lines.as_bytes())?;
    Ok(())
}

/// The parts, one after the other.
fn joined(alloc: Global, parts: &[Part]) -> Result<Vec<u8>, NoMemory> {
    let mut out = Vec::new(alloc);
    for part in parts {
        match *part {
            Part::Once(bytes) => out.extend_from_slice(bytes)?,
            Part::Times(before, bytes, count, behind) => {
                out.extend_from_slice(before)?;
                add_times(&mut out, bytes, count)?;
                out.extend_from_slice(behind)?;
            }
            Part::Lines(before, count, behind) => {
                add_lines(alloc, &mut out, before, count, behind)?
            }
        }
    }
    Ok(out)
}

/// The script has these replies by each pick rule.
fn long_holds(alloc: Global, long: &Long) -> Result<bool, Fail> {
    let (script, replies, status) = *long;
    let script = joined(alloc, script)?;
    let replies = joined(alloc, replies)?;
    holds(alloc, &(script.as_slice(), replies.as_slice(), status))
}

/// Each script of a table has its replies by each pick rule.
pub fn assert_long(rt: &impl Abort, alloc: Global, table: &[Long]) -> Result<(), Fail> {
    for (i, long) in table.iter().enumerate() {
        assert!(rt; long_holds(alloc, long)?, "{i}");
    }
    Ok(())
}
