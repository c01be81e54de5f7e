//! Replicas that take the same edits in any order, and their limits.
ghost use Rattle.gl_language.specs.Reading.Content.{IsProperContent};
ghost use Rattle.gl_cells.specs.Content.{content_tree};

use gl_cells::Content;
use gl_merge::{Edit, Judged, MAX_REGISTERS, MAX_TIME, Replica, RoomFault, Stamp};
use gl_plane::Addr;
use gl_value::Scalar;
use std::alloc::Global;
use std::test::Fail;
use tests_common::{address, content_of, scalar_text};

fn stamp(time: u64, site: u16) -> Result<Stamp, Fail> {
    Stamp::new(time, site).ok_or_else(|| Fail::new("no stamp"))
}

/// The edit that sets the content of a line like `set A1 =B1`.
fn setting(alloc: Global, time: u64, site: u16, line: &str) -> Result<Edit, Fail> {
    let stamp = stamp(time, site)?;
    let (place, content) = content_of(alloc, line)?;
    Ok(Edit::new(stamp, place, Some(content)))
}

fn removal(time: u64, site: u16, place: &str) -> Result<Edit, Fail> {
    let stamp = stamp(time, site)?;
    let place = address(place)?;
    Ok(Edit::new(stamp, place, None))
}

/// A number as a content.
#[tactic(auto, using(gl_value::specs::Forms::trees))]
pub fn number(n: i64) -> Content
    ensures { IsProperContent (content_tree result) }
{
    Content::Const(Scalar::Int(n))
}

/// Takes an edit that is no conflict, and answers what it was.
fn take(replica: &mut Replica, e: Edit) -> Result<Judged, RoomFault> {
    let judged = replica.judge(&e);
    match judged {
        Judged::Conflict => {}
        Judged::Wins | Judged::Loses | Judged::Same => {
            replica.make_room(&[e.place()])?;
            replica.take(e);
        }
    }
    Ok(judged)
}

/// A constant, `=` for a formula, and `-` where there is no content.
pub fn told(alloc: Global, content: Option<&Content>) -> Result<String, Fail> {
    match content {
        Some(Content::Const(x)) => Ok(scalar_text(alloc, x)?),
        Some(Content::Form(_)) => Ok("=".to_string(alloc)?),
        None => Ok("-".to_string(alloc)?),
    }
}

/// A register, as `2 1 1,1 6;` with its time, site, column, row and content.
fn push_register(alloc: Global, out: &mut String, e: &Edit) -> Result<(), Fail> {
    let (stamp, place) = (e.stamp(), e.place());
    let (time, site, col, row) = (stamp.time(), stamp.site(), place.col(), place.row());
    let content = told(alloc, e.content())?;
    let line = format!(in alloc; "{time} {site} {col},{row} {content};")?;
    Ok(out.push_str(line.as_str())?)
}

fn registers(alloc: Global, replica: &Replica) -> Result<String, Fail> {
    let mut out = String::new(alloc);
    for i in 0..replica.len() {
        if let Some(e) = replica.register(i) {
            push_register(alloc, &mut out, e)?;
        }
    }
    Ok(out)
}

/// One of four edits of the addresses `A1` and `B1`.
fn edit(alloc: Global, which: u8) -> Result<Edit, Fail> {
    match which {
        0 => setting(alloc, 3, 2, "set B1 =A1"),
        1 => setting(alloc, 1, 2, "set A1 7"),
        2 => setting(alloc, 2, 1, "set A1 6"),
        _ => removal(4, 3, "A1"),
    }
}

fn taken(alloc: Global, site: u16, order: &[u8]) -> Result<Replica, Fail> {
    let mut replica = Replica::new(alloc, site);
    for which in order {
        let _ = take(&mut replica, edit(alloc, *which)?)?;
    }
    Ok(replica)
}

/// Orders in which each of the edits is taken, some of them twice.
const ORDERS: &[&[u8]] = &[
    &[0, 1, 2, 3, 0, 1],
    &[3, 2, 1, 0, 3, 3],
    &[1, 0, 3, 2, 1, 1],
    &[2, 2, 0, 0, 1, 3],
    &[3, 1, 0, 2, 1, 0],
];

/// A replica that takes the edits in this order has the registers and the next stamp of all others.
fn agrees(alloc: Global, order: &[u8]) -> Result<bool, Fail> {
    let replica = taken(alloc, 9, order)?;
    let told = registers(alloc, &replica)?;
    Ok(told.as_str() == "4 3 1,1 -;3 2 2,1 =;" && replica.next() == Stamp::new(5, 9))
}

#[test]
fn replicas_agree(rt: HostRuntime) -> Result<(), Fail> {
    for order in ORDERS {
        assert!(rt; agrees(rt.alloc(), order)?, "{order:?}");
    }
    Ok(())
}

/// The time and the site of an edit, its line, and what it is to the registers.
type Row = (u64, u16, &'static str, Judged);

/// Edits that a replica takes one after the other.
const EDITS: &[Row] = &[
    (3, 1, "set A1 =1+2", Judged::Wins),
    (3, 1, "set A1 = 1 + 2", Judged::Same),
    (3, 1, "set A1 =(1+2)", Judged::Same),
    (3, 1, "set A1 =2+1", Judged::Conflict),
    (3, 1, "set A1 3", Judged::Conflict),
    (3, 0, "set A1 9", Judged::Loses),
    (2, 7, "set A1 9", Judged::Loses),
    (3, 2, "set A1 9", Judged::Wins),
    (4, 1, "set A1 9", Judged::Wins),
    (4, 1, "set A1 \"9\"", Judged::Conflict),
    (1, 1, "set B1 9", Judged::Wins),
];

/// The times of removals of A1 behind them, and what these are.
const REMOVALS: &[(u64, Judged)] = &[(4, Judged::Conflict), (7, Judged::Wins), (7, Judged::Same)];

/// The replica takes the edit as the row says.
fn is_judged(alloc: Global, replica: &mut Replica, row: &Row) -> Result<bool, Fail> {
    let (time, site, line, want) = row;
    Ok(take(replica, setting(alloc, *time, *site, line)?)? == *want)
}

/// The replica takes the removal of A1 at a time as this.
fn is_removed(replica: &mut Replica, time: u64, want: Judged) -> Result<bool, Fail> {
    Ok(take(replica, removal(time, 1, "A1")?)? == want)
}

#[test]
fn edits_are_judged(rt: HostRuntime) -> Result<(), Fail> {
    let mut replica = Replica::new(rt.alloc(), 5);
    for row in EDITS {
        assert!(rt; is_judged(rt.alloc(), &mut replica, row)?, "{}", row.2);
    }
    for (time, want) in REMOVALS {
        assert!(rt; is_removed(&mut replica, *time, *want)?, "{time}");
    }
    assert!(rt; registers(rt.alloc(), &replica)?.as_str() == "7 1 1,1 -;1 1 2,1 9;");
    Ok(())
}

/// The next stamp behind an edit of this time and site.
fn next_after(
    alloc: Global,
    replica: &mut Replica,
    time: u64,
    site: u16,
) -> Result<Option<Stamp>, Fail> {
    let _ = take(replica, setting(alloc, time, site, "set A1 5")?)?;
    Ok(replica.next())
}

#[test]
fn times_within_the_limit(rt: HostRuntime) -> Result<(), Fail> {
    assert!(rt; Stamp::new(0, 1).is_none());
    assert!(rt; Stamp::new(MAX_TIME + 1, 1).is_none());
    let mut replica = Replica::new(rt.alloc(), 1);
    assert!(rt; replica.next() == Stamp::new(1, 1));
    let last = next_after(rt.alloc(), &mut replica, MAX_TIME - 1, 2)?;
    assert!(rt; last == Stamp::new(MAX_TIME, 1));
    assert!(rt; next_after(rt.alloc(), &mut replica, MAX_TIME, 0)?.is_none());
    Ok(())
}

fn at(col: u16, row: u16) -> Result<Addr, Fail> {
    Addr::new(col, row).ok_or_else(|| Fail::new("off the grid"))
}

/// Takes an edit of each of the first so many addresses of a row.
fn take_row(replica: &mut Replica, row: u16, cols: u16) -> Result<(), Fail> {
    for col in 0..cols {
        let e = Edit::new(stamp(1, 1)?, at(col + 1, row)?, Some(number(7)));
        let _ = take(replica, e)?;
    }
    Ok(())
}

/// A replica with as many registers as there may be.
fn full(alloc: Global) -> Result<Replica, Fail> {
    let mut replica = Replica::new(alloc, 1);
    for row in 0..256 {
        take_row(&mut replica, row + 1, 512)?;
    }
    Ok(replica)
}

/// The lines of edits of a new address and of one that has a register, and how a full replica takes them.
const BEHIND: &[(&str, Result<Judged, RoomFault>)] = &[
    ("set A257 5", Err(RoomFault::Edits)),
    ("set A1 5", Ok(Judged::Wins)),
];

#[test]
fn as_many_registers_as_there_may_be(rt: HostRuntime) -> Result<(), Fail> {
    let mut replica = full(rt.alloc())?;
    assert!(rt; replica.len() as usize == MAX_REGISTERS);
    for (line, want) in BEHIND {
        assert!(rt;
            take(&mut replica, setting(rt.alloc(), 2, 1, line)?) == *want,
            "{line}"
        );
    }
    assert!(rt; replica.len() as usize == MAX_REGISTERS);
    Ok(())
}
