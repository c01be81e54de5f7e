//! Lines and payloads, one byte at a time.
ghost use Rattle.std.specs.Prelude.{◌≡◌, ◌≤◌, ◌<◌, [], OnOk, OnErr, IfOk, IsOk, vec_len};
ghost use Rattle.std.specs.Prelude.{vec_capacity};
ghost use Rattle.gl_calculus.specs.Grid.Limits.{max_payload};
ghost use Rattle.gl_protocol.specs.Framing.Framing.{drop_cr};
ghost use Rattle.gl_script.specs.Feed.{idle, some_payload, quiet, pushed, finished, line_pushed};
ghost use Rattle.gl_script.specs.Feed.{line_done};
ghost use Rattle.gl_script.specs.FeedView.{begun_of, piece_of, seen_of};

use gl_plane::NoMemory;
use std::alloc::Global;

const LF: u8 = 10;

const CR: u8 = 13;

/// The most bytes of a line, a CR at its end not counted.
pub const MAX_LINE: usize = 32_768;

/// What a byte, or the end of input, ended: nothing, a line, a line that is too long, a payload, or
/// a payload that the end of input cut short.
#[derive(Clone, Copy, Debug, PartialEq, Eq)]
pub enum Event {
    More,
    Line,
    Long,
    Payload,
    Truncated,
}

#[derive(Clone, Copy, PartialEq, Eq)]
enum Mode {
    Idle,
    InLine,
    Skipping,
    InPayload(u32),
}

// Drops one CR at the end.
fn drop_cr(bytes: &mut Vec<u8>)
    ensures { bytes.new.items ≡ drop_cr bytes.old.items }
{
    let len = bytes.len();
    if len > 0 && bytes[len - 1] == CR {
        bytes.truncate(len - 1);
    }
}

/// Lines and payloads by one byte at a time: what is begun, and the last event with its piece. A line
/// ends at an LF or at the end of input, and a CR at its end is dropped.
#[derive(Drop)]
pub struct Feed {
    bytes: Vec<u8>,
    mode: Mode,
    event: Event,
}

impl Feed {
    /// Nothing is begun. It takes no memory.
    pub fn new(alloc: Global) -> Feed
        ensures begun { begun_of result ≡ idle }
        ensures event { result.event ≡ Event.More }
    {
        Feed {
            bytes: Vec::new(alloc),
            mode: Mode::Idle,
            event: Event::More,
        }
    }

    // The line that is begun ends.
    fn end_line(&mut self)
        ensures { seen_of self.new ≡ line_done (drop_cr self.old.bytes.items) }
    {
        drop_cr(&mut self.bytes);
        self.mode = Mode::Idle;
        self.event = if self.bytes.len() > MAX_LINE {
            Event::Long
        } else {
            Event::Line
        };
    }

    fn push_line(&mut self, b: u8) -> Result<Event, NoMemory>
        ensures seen { OnOk result (seen_of self.new ≡ line_pushed self.old.bytes.items b) }
        ensures event { IfOk result (λ e. e ≡ self.new.event) }
        ensures err { OnErr result (seen_of self.new ≡ seen_of self.old) }
        ensures succeeds { vec_len self.old.bytes < vec_capacity self.old.bytes → IsOk result }
    {
        if b == LF {
            self.end_line();
            return Ok(self.event);
        }
        if self.bytes.len() > MAX_LINE {
            self.mode = Mode::Skipping;
        } else {
            self.bytes.push(b)?;
            self.mode = Mode::InLine;
        }
        self.event = Event::More;
        Ok(Event::More)
    }

    fn push_skipped(&mut self, b: u8) -> Event
        requires { self.old.mode ≡ Mode.Skipping }
        ensures seen { seen_of self.new ≡ pushed (begun_of self.old) b }
        ensures event { result ≡ self.new.event }
    {
        if b == LF {
            self.mode = Mode::Idle;
            self.event = Event::Long;
        } else {
            self.event = Event::More;
        }
        self.event
    }

    fn push_payload(&mut self, b: u8, due: u32) -> Result<Event, NoMemory>
        requires { self.old.mode ≡ Mode.InPayload due }
        ensures seen { OnOk result (seen_of self.new ≡ pushed (begun_of self.old) b) }
        ensures event { IfOk result (λ e. e ≡ self.new.event) }
        ensures err { OnErr result (seen_of self.new ≡ seen_of self.old) }
    {
        self.bytes.push(b)?;
        if due <= 1 {
            self.mode = Mode::Idle;
            self.event = Event::Payload;
        } else {
            self.mode = Mode::InPayload(due - 1);
            self.event = Event::More;
        }
        Ok(self.event)
    }

    /// Takes the next byte. `Line` or `Long` where it ends a line, `Payload` where it is the last of a
    /// payload, else `More`. After an `Err` all is as before.
    pub fn push(&mut self, b: u8) -> Result<Event, NoMemory>
        ensures seen { OnOk result (seen_of self.new ≡ pushed (begun_of self.old) b) }
        ensures event { IfOk result (λ e. e ≡ self.new.event) }
        ensures err { OnErr result (seen_of self.new ≡ seen_of self.old) }
    {
        match self.mode {
            Mode::Idle => {
                // The room is taken first, so that a refusal leaves the last piece.
                self.bytes.reserve(1)?;
                self.bytes.clear();
                self.push_line(b)
            }
            Mode::InLine => self.push_line(b),
            Mode::Skipping => Ok(self.push_skipped(b)),
            Mode::InPayload(due) => self.push_payload(b, due),
        }
    }

    /// Begins a payload of `n` bytes, after a header's line. It takes no memory.
    pub fn expect(&mut self, n: u32) -> Result<(), NoMemory>
        requires after_a_line { self.old.event ≡ Event.Line }
        requires some { 1 ≤ n }
        requires limit { n ≤ max_payload }
        ensures seen { seen_of self.new ≡ quiet (some_payload [] n) }
        ensures succeeds { IsOk result }
    {
        self.bytes.clear();
        self.mode = Mode::InPayload(n);
        self.event = Event::More;
        Ok(())
    }

    /// The input ends. `Line` or `Long` where a line was begun, `Truncated` inside a payload, else
    /// `More`. After a `Line` that is a header, `expect` and another `finish` may follow.
    pub fn finish(&mut self) -> Event
        ensures seen { seen_of self.new ≡ finished (begun_of self.old) }
        ensures event { result ≡ self.new.event }
    {
        match self.mode {
            Mode::Idle => {
                self.event = Event::More;
            }
            Mode::InLine => self.end_line(),
            Mode::Skipping => {
                self.mode = Mode::Idle;
                self.event = Event::Long;
            }
            Mode::InPayload(_) => {
                self.mode = Mode::Idle;
                self.event = Event::Truncated;
            }
        }
        self.event
    }

    // The last event.
    pub(crate) fn last(&self) -> Event
        ensures { result ≡ self.now.event }
    {
        self.event
    }

    /// The bytes of the last event, where it was a line or a payload.
    pub fn piece(&self) -> &[u8]
        ensures { result.now ≡ piece_of self.now }
    {
        match self.event {
            Event::Line | Event::Payload => &self.bytes,
            _ => &[],
        }
    }
}
