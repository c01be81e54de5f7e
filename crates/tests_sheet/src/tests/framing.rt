//! Scripts as lines and payloads.
use gl_plane::NoMemory;
use gl_script::{Ended, Event, Feed, Framer};
use std::alloc::Global;
use std::process::Abort;
use std::test::Fail;

fn push_end(ends: &mut Vec<Ended>, ended: Ended) -> Result<(), NoMemory> {
    match ended {
        Ended::Nothing => {}
        ended => ends.push(ended)?,
    }
    Ok(())
}

/// How the lines and payloads of a script end.
fn ends_of(alloc: Global, script: &[u8]) -> Result<Vec<Ended>, NoMemory> {
    let mut framer = Framer::new(alloc);
    let mut ends = Vec::new(alloc);
    for b in script {
        push_end(&mut ends, framer.push(*b)?)?;
    }
    push_end(&mut ends, framer.finish()?)?;
    Ok(ends)
}

/// Scripts, and how their lines and payloads end.
const FRAMED: &[(&[u8], &[Ended])] = &[
    (b"", &[]),
    (b"set A1 2\r\nshow A1", &[Ended::Line, Ended::Line]),
    (
        b"import A1 6\n1,\"\n\"\nlist\n",
        &[Ended::Import, Ended::Line],
    ),
    (b"import A1 6\n1,\"\n", &[Ended::Truncated]),
    (b"import A1 0\r\n\n", &[Ended::Import, Ended::Line]),
    (b"import A1 1", &[Ended::Truncated]),
    (b"import A1 01\nx", &[Ended::Line, Ended::Line]),
    (b"import  1\nx", &[Ended::Line, Ended::Line]),
    (b"import A1 1048577\nx", &[Ended::Line, Ended::Line]),
];

/// The lines and payloads of the script end so.
fn end_so(alloc: Global, script: &[u8], want: &[Ended]) -> Result<bool, NoMemory> {
    Ok(ends_of(alloc, script)?.as_slice() == want)
}

#[test]
fn scripts_are_framed(rt: HostRuntime) -> Result<(), Fail> {
    for (script, want) in FRAMED {
        assert!(rt; end_so(rt.alloc(), script, want)?, "{script:?}");
    }
    Ok(())
}

/// The feed takes a byte, and tells this event.
fn assert_taken(rt: &impl Abort, feed: &mut Feed, byte: u8, want: Event) {
    assert_eq!(rt; feed.push(byte), Ok(want));
}

fn assert_piece(rt: &impl Abort, feed: &Feed, want: &[u8]) {
    assert_eq!(rt; feed.piece(), want);
}

#[test]
fn a_feed_takes_a_payload(rt: HostRuntime) -> Result<(), Fail> {
    let mut feed = Feed::new(rt.alloc());
    assert_taken(&rt, &mut feed, b'x', Event::More);
    assert_eq!(rt; feed.push(b'\n'), Ok(Event::Line));
    assert_piece(&rt, &feed, b"x");
    feed.expect(2)?;
    assert_taken(&rt, &mut feed, b'\n', Event::More);
    assert_taken(&rt, &mut feed, b'y', Event::Payload);
    assert_piece(&rt, &feed, b"\ny");
    assert_eq!(rt; feed.finish(), Event::More);
    Ok(())
}
