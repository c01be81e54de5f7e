//! Scripts with their replies and how they end, over a source that is read at once and one that is cut.
use crate::tests::calls::{DONE, REFUSED, cut_at, is_answered};
use gl_run::Status;
use std::alloc::Global;
use std::test::Fail;

/// Scripts, their replies, and how they end.
const ROWS: &[(&[u8], &[u8], Status)] = &[
    (b"", b"", DONE),
    (
        b"set A1 2\nset B1 40\nset C1 =A1+B1\nshow C1\n",
        b"ok\nok\nok\n42\n",
        DONE,
    ),
    // a sum that leaves the range of numbers
    (
        b"set A1 =9223372036854775807+1\nshow A1\n",
        b"ok\n#NUM!\n",
        DONE,
    ),
    // what follows `quit` is not used
    (b"quit\nfoo\n", b"bye\n", DONE),
    (b"; a comment\n\nquit", b"bye\n", DONE),
    // a cycle, and a cell that is blank
    (
        b"set A1 =B1+1\nset B1 =A1\nshow A1\nshow C1\nset A1 07\nshow B1\nshow A0\nset A1 =(1)\n",
        b"ok\nok\n#CYCLE!\n.\nok\n7\nerror address\nok\n",
        REFUSED,
    ),
    // a cell that is not on the ring, and reads a cell of it
    (
        b"set A1 =B1\nset B1 =A1\nset C1 =1+A1\nshow C1\n",
        b"ok\nok\nok\n#CYCLE!\n",
        DONE,
    ),
    // off the grid
    (
        b"show A0\nshow A10000\nshow AAA1\n",
        b"error address\nerror address\nerror address\n",
        REFUSED,
    ),
    // the least number, and blanks
    (
        b"set ZZ9999 -9223372036854775808\nset A1 = ZZ9999 + 1 \nshow A1\nset A2 =C9\nshow A2\nset A2 =C9+C9\nshow A2",
        b"ok\nok\n-9223372036854775807\nok\n.\nok\n0\n",
        DONE,
    ),
    // lines that are no command
    (
        b"show  A1\nshow A1 \nset A1\nset A1 \nset A0 x\nset A0 =\nset A1 =1 2\n\xff",
        b"error command\nerror command\nerror command\nerror command\nerror address\nerror address\nerror syntax\nerror utf8\n",
        REFUSED,
    ),
    // the version is said in the first line alone
    (
        b"gridlet 2\nset A1 1\ngridlet 2\n",
        b"ok\nok\nerror command\n",
        REFUSED,
    ),
    (b"set A1 1\ngridlet 2\n", b"ok\nerror command\n", REFUSED),
    // a payload is no part of the script
    (
        b"set A1 2\nimport A1 5\nquit\nshow A1\n",
        b"ok\nok\n\"quit\"\n",
        DONE,
    ),
    (b"import A1 6\nquit\n", b"error truncated\n", REFUSED),
];

#[test]
fn scripts_are_answered(rt: HostRuntime) -> Result<(), Fail> {
    for (script, replies, status) in ROWS {
        assert!(rt;
            is_answered(rt.alloc(), script, &cut_at(4096), replies, *status)?,
            "{script:?}"
        );
    }
    Ok(())
}

#[test]
fn cuts_between_a_line_and_its_end(rt: HostRuntime) -> Result<(), Fail> {
    let script = b"set A1 2\r\nimport A1 5\r\nquit\nshow A1";
    let replies = b"ok\nok\n\"quit\"\n";
    for step in 1usize..41 {
        assert!(rt;
            is_answered(rt.alloc(), script, &cut_at(step), replies, DONE)?,
            "{step}"
        );
    }
    Ok(())
}

/// As many bytes as a run reads at most, in lines of comments.
fn longest_input(alloc: Global) -> Result<Vec<u8>, Fail> {
    let mut line = vec![in alloc; b';'; 32767]?;
    line.push(b'\n')?;
    let mut script = Vec::with_capacity(alloc, 16_777_217)?;
    for _ in 0..512 {
        script.extend_from_slice(&line)?;
    }
    Ok(script)
}

#[test]
fn the_input_has_a_limit(rt: HostRuntime) -> Result<(), Fail> {
    let alloc = rt.alloc();
    let plan = cut_at(4096);
    let mut script = longest_input(alloc)?;
    assert_eq!(rt; script.len(), 16_777_216);
    assert!(rt; is_answered(alloc, &script, &plan, b"", DONE)?);
    script.push(b';')?;
    assert!(rt; is_answered(alloc, &script, &plan, b"", Status::InputLimit)?);
    Ok(())
}
