//! Scripts cut anywhere, and with each of their reads and writes failing.
use crate::tests::calls::{DONE, Plan, cut_at, is_answered};
use gl_run::Status;
use std::alloc::Global;
use std::test::Fail;

/// A script as its items, each with its reply.
type Items = &'static [(&'static [u8], &'static [u8])];

const SCRIPTS: &[Items] = &[
    &[
        (b"set A1 2\n", b"ok\n"),
        (b"set B1 40\n", b"ok\n"),
        (b"set C1 =A1+B1\n", b"ok\n"),
        (b"show C1\n", b"42\n"),
    ],
    &[
        (b"set A1 =SEQUENCE(3,1)\n", b"ok\n"),
        (b"set B1 =A1#*2\n", b"ok\n"),
        (b"calc\n", b"settled 3\n"),
        (
            b"oracle\n",
            b"oracle 2\nA1 3x1 permitted\nB1 3x1 permitted\n",
        ),
        (b"view A1:B3\n", b"1 2\n2 4\n3 6\n"),
    ],
    &[
        (b"import A1 14\n-7,\"a\nb\"\n,=A9\n", b"ok\n"),
        (
            b"list\n",
            b"list 3\nset A1 -7\nset B1 \"a\\nb\"\nset B2 \"=A9\"\n",
        ),
    ],
];

/// The script.
fn script_of(alloc: Global, items: Items) -> Result<Vec<u8>, Fail> {
    let mut script = Vec::new(alloc);
    for (item, _) in items {
        script.extend_from_slice(item)?;
    }
    Ok(script)
}

/// The replies to the items that end within so many bytes.
fn replies_within(alloc: Global, items: Items, count: usize) -> Result<Vec<u8>, Fail> {
    let mut replies = Vec::new(alloc);
    let mut end = 0usize;
    for (item, reply) in items {
        end = end.saturating_add(item.len());
        if end > count {
            break;
        }
        replies.extend_from_slice(reply)?;
    }
    Ok(replies)
}

/// Cut into so many bytes, the script has the same replies.
fn is_cut_into(alloc: Global, items: Items, step: usize) -> Result<bool, Fail> {
    let script = script_of(alloc, items)?;
    let replies = replies_within(alloc, items, script.len())?;
    is_answered(alloc, &script, &cut_at(step), &replies, DONE)
}

/// Where the read behind so many bytes fails, the items before it are answered.
fn breaks_off_at(alloc: Global, items: Items, count: u64) -> Result<bool, Fail> {
    let script = script_of(alloc, items)?;
    let replies = replies_within(alloc, items, count as usize)?;
    let plan = Plan {
        reads: &[count],
        ..cut_at(1)
    };
    is_answered(alloc, &script, &plan, &replies, Status::ReadFault)
}

/// Where the write behind so many bytes fails, or there is no room for more, those are written.
fn is_cut_at(alloc: Global, items: Items, count: usize) -> Result<bool, Fail> {
    let script = script_of(alloc, items)?;
    let replies = replies_within(alloc, items, script.len())?;
    let written = &replies[..count.min(replies.len())];
    let failing = Plan {
        writes: &[count as u64],
        ..cut_at(1)
    };
    let full = Plan {
        room: count,
        ..cut_at(4096)
    };
    Ok(
        is_answered(alloc, &script, &failing, written, Status::WriteFault)?
            && is_answered(alloc, &script, &full, written, Status::WriteFault)?,
    )
}

fn has_the_same_replies(alloc: Global, items: Items) -> Result<bool, Fail> {
    for step in 0..script_of(alloc, items)?.len() {
        if !is_cut_into(alloc, items, step + 1)? {
            return Ok(false);
        }
    }
    Ok(true)
}

fn breaks_off_at_every_read(alloc: Global, items: Items) -> Result<bool, Fail> {
    for count in 0..script_of(alloc, items)?.len() {
        if !breaks_off_at(alloc, items, count as u64)? {
            return Ok(false);
        }
    }
    // the read that would tell the end
    breaks_off_at(alloc, items, script_of(alloc, items)?.len() as u64)
}

fn is_cut_at_every_write(alloc: Global, items: Items) -> Result<bool, Fail> {
    for count in 0..replies_within(alloc, items, 1000)?.len() {
        if !is_cut_at(alloc, items, count)? {
            return Ok(false);
        }
    }
    Ok(true)
}

#[test]
fn every_cut_has_the_same_replies(rt: HostRuntime) -> Result<(), Fail> {
    for (i, items) in SCRIPTS.iter().enumerate() {
        assert!(rt; has_the_same_replies(rt.alloc(), items)?, "{i}");
    }
    Ok(())
}

#[test]
fn each_read_fails(rt: HostRuntime) -> Result<(), Fail> {
    for (i, items) in SCRIPTS.iter().enumerate() {
        assert!(rt; breaks_off_at_every_read(rt.alloc(), items)?, "{i}");
    }
    Ok(())
}

#[test]
fn each_write_fails(rt: HostRuntime) -> Result<(), Fail> {
    for (i, items) in SCRIPTS.iter().enumerate() {
        assert!(rt; is_cut_at_every_write(rt.alloc(), items)?, "{i}");
    }
    Ok(())
}
