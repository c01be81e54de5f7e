//! Sources and sinks.
use gl_port::{Failed, MemSink, Sink, Source, StdIn};
use std::test::Fail;

#[test]
fn an_empty_reader_is_at_its_end(rt: HostRuntime) -> Result<(), Fail> {
    let nothing: [u8; 0] = [];
    let mut source = StdIn::new(nothing.as_slice());
    let mut buf = [7u8; 4];
    assert_eq!(rt; Source::read(&mut source, &mut buf), Ok(0));
    Ok(())
}

/// Writes to a sink of five bytes that takes three at once and fails the second time, and their answers.
const WRITES: &[(&[u8], Result<usize, Failed>)] = &[
    (b"abcdefg", Ok(3)),
    (b"defg", Err(Failed)),
    (b"defg", Ok(2)),
    (b"fg", Err(Failed)),
];

#[test]
fn a_sink_takes_what_has_room(rt: HostRuntime) -> Result<(), Fail> {
    let failing = [1u64].to_vec(rt.alloc())?;
    let mut sink = MemSink::new(rt.alloc(), 5, 3, failing)?;
    for (bytes, answer) in WRITES {
        assert!(rt; sink.write(bytes) == *answer, "{bytes:?}");
    }
    assert!(rt; sink.taken() == b"abcde".as_slice());
    Ok(())
}
