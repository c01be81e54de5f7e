//! Items: lines, and headers with their payloads.
ghost use Rattle.std.specs.Prelude.{◌≡◌, IfOk, None, false};
ghost use Rattle.gl_script.specs.Framer.{stream_at, told, payload_at};
ghost use Rattle.gl_script.specs.{Feed.idle, FeedView.begun_of, FeedView.piece_of};
ghost use Rattle.gl_protocol.specs.Framing.Stream.{nothing, step, closing, close_by};
ghost use Rattle.gl_protocol.specs.Framing.Framing.{kind_by};
ghost use Rattle.gl_protocol.specs.Framing.Header.{payload_len};

use crate::feed::{Event, Feed};
use crate::header::payload_due;
use gl_plane::NoMemory;
use std::alloc::Global;

/// The item that a byte, or the end of input, ended: none, a line, an import with its payload, a line
/// that is too long, or a payload that the end of input cut short.
#[derive(Clone, Copy, PartialEq, Eq)]
pub enum Ended {
    Nothing,
    Line,
    Import,
    Long,
    Truncated,
}

/// The items of a script by one byte at a time: a feed that begins a payload after each header. It
/// goes on behind `quit`, at which its caller stops.
#[derive(Drop)]
pub struct Framer {
    feed: Feed,
    header: Vec<u8>,
}

impl Framer {
    /// Nothing is begun. It takes no memory.
    pub fn new(alloc: Global) -> Framer
        ensures { stream_at result ≡ nothing }
    {
        Framer {
            feed: Feed::new(alloc),
            header: Vec::new(alloc),
        }
    }

    // A line ended: it is an item, or begins a payload.
    fn end_line(&mut self) -> Result<Ended, NoMemory>
        requires line { self.old.feed.event ≡ Event.Line }
        requires idle { begun_of self.old.feed ≡ idle }
        ensures { IfOk result (λ e.
            close_by (kind_by false (payload_len (piece_of self.old.feed))) (piece_of self.old.feed)
            ≡ (stream_at self.new, told e self.new)) }
    {
        match payload_due(self.feed.piece()) {
            None => Ok(Ended::Line),
            Some(n) => {
                self.header.clear();
                self.header.extend_from_slice(self.feed.piece())?;
                if n == 0 {
                    return Ok(Ended::Import);
                }
                self.feed.expect(n)?;
                Ok(Ended::Nothing)
            }
        }
    }

    /// Takes the next byte, and tells the item that it ends. After an `Err` the framer is of no further
    /// use.
    pub fn push(&mut self, b: u8) -> Result<Ended, NoMemory>
        ensures { IfOk result (λ e.
            step (stream_at self.old) b ≡ (stream_at self.new, told e self.new)) }
    {
        match self.feed.push(b)? {
            Event::More => Ok(Ended::Nothing),
            Event::Line => self.end_line(),
            Event::Long => Ok(Ended::Long),
            Event::Payload => Ok(Ended::Import),
            Event::Truncated => Ok(Ended::Truncated),
        }
    }

    /// The input ends: tells the item that ends with it. The framer is of no further use but to read
    /// this item.
    pub fn finish(&mut self) -> Result<Ended, NoMemory>
        ensures { IfOk result (λ e. closing (stream_at self.old) ≡ told e self.new) }
    {
        match self.feed.finish() {
            Event::More => Ok(Ended::Nothing),
            Event::Line => match self.end_line()? {
                Ended::Nothing => Ok(Ended::Truncated),
                ended => Ok(ended),
            },
            Event::Long => Ok(Ended::Long),
            Event::Payload => Ok(Ended::Import),
            Event::Truncated => Ok(Ended::Truncated),
        }
    }

    /// The bytes of the line that was told last.
    pub fn line(&self) -> &[u8]
        ensures { result.now ≡ piece_of self.now.feed }
    {
        self.feed.piece()
    }

    /// The header of the import that was told last.
    pub fn header(&self) -> &[u8]
        ensures { result.now ≡ self.now.header.items }
    {
        &self.header
    }

    /// The payload of the import that was told last.
    pub fn payload(&self) -> &[u8]
        ensures { result.now ≡ payload_at self.now }
    {
        match self.feed.last() {
            Event::Payload => self.feed.piece(),
            _ => &[],
        }
    }
}
