//! A sheet that lives on between calls: bytes go in, in any cuts, and replies wait until they are
//! taken.
ghost use Rattle.std.specs.Prelude.{◌≡◌, ◌≢◌, ◌≤◌, ◌+◌, ◌++◌, [], true, false, min, take, drop, length};
ghost use Rattle.std.specs.Prelude.{IfOk};
ghost use Rattle.gl_calculus.specs.Grid.Limits.{max_script};
ghost use Rattle.gridlet_c.specs.{Ready.is_ready};

use crate::copying::copy_front;
use crate::growing::Growing;
use gl_calc::Engine;
use gl_demand::{Silent, Steps};
use gl_order::{Order, by_kind};
use gl_plane::NoMemory;
use gl_run::{INPUT_LIMIT, Session, Status, Stop};
use std::alloc::Global;

/// How far a session is.
#[derive(Clone, Copy, PartialEq, Eq)]
pub enum Phase {
    /// It reads on.
    Going,
    /// It has read `quit`, and reads nothing behind.
    Quit,
    /// It has read as many bytes as it may, and reads nothing behind.
    Limit,
    /// No memory was left: the replies so far are whole, and it reads nothing more.
    NoMemory,
    /// Its end was told, and a run over the same bytes ends with this status.
    Ended(Status),
}

/// A session with its replies.
#[derive(Drop)]
pub struct Live {
    /// The rule by which keys are picked.
    kind: u8,
    session: Session,
    steps: Steps<Silent>,
    /// The bytes that were read so far, while it reads on.
    count: usize,
    /// Replies, of which the first `at` bytes were taken.
    replies: Growing,
    at: usize,
    phase: Phase,
    ghost small: { kind ≤ 2 },
    ghost in_limit: { count ≤ 16777216 },
    ghost ready: { is_ready phase session ≡ true },
}

impl Live {
    ghost use Rattle.gridlet_c.specs.History.{HasHistory, waiting_of, Feeds, Takes};
    ghost use Rattle.gridlet_c.specs.History.{Reads, Ends, EndsAs, IsAsBefore, is_ended};

    /// Nothing is fed yet. Keys are picked by the rule of this kind.
    pub fn new(alloc: Global, kind: u8) -> Result<Live, NoMemory>
        requires { kind ≤ 2 }
        ensures { IfOk result (λ live. HasHistory live [] []) }
    {
        let session = Session::new(alloc)?;
        Ok(Live {
            kind,
            session,
            steps: Steps::new(Silent),
            count: 0,
            replies: Growing::new(alloc),
            at: 0,
            phase: Phase::Going,
        })
    }

    /// How far it is.
    pub fn phase(&self) -> Phase
        ensures { result ≡ self.now.phase }
    {
        self.phase
    }

    /// The replies that wait.
    pub fn waiting(&self) -> &[u8]
        ensures { result.now ≡ waiting_of self.now }
    {
        let taken = self.replies.taken();
        &taken[self.at.min(taken.len())..]
    }

    /// Reads these bytes behind those that were fed before, and answers what ends in them. Where it
    /// does not read on, nothing changes. Tells how far it is.
    pub fn feed(&mut self, alloc: Global, bytes: &[u8]) -> Phase
        ensures phase { result ≡ self.new.phase }
        ensures fed { Feeds self.old self.new bytes.now }
    {
        match self.phase {
            Phase::Going => {}
            phase => return phase,
        }
        let kept = bytes.len().min(INPUT_LIMIT - self.count);
        self.read(alloc, &bytes[..kept], kept < bytes.len());
        self.phase
    }

    // Reads bytes up to the limit, where there are more behind them if they are cut.
    fn read(&mut self, alloc: Global, bytes: &[u8], is_cut: bool)
        requires going { self.old.phase ≡ Phase.Going }
        requires in_limit { self.old.count + length bytes.now ≤ max_script }
        ensures reads { Reads self.old self.new bytes.now is_cut }
        ensures unended { is_ended self.new.phase ≡ false }
    {
        let before = self.replies.len();
        let order = Order::new(by_kind);
        let engine = Engine {
            alloc,
            order: &order,
            kind: self.kind,
        };
        match self
            .session
            .take(&engine, &mut self.steps, bytes, &mut self.replies)
        {
            Ok(true) => self.phase = Phase::Quit,
            Ok(false) => {
                if is_cut {
                    self.phase = Phase::Limit;
                } else {
                    self.count += bytes.len();
                }
            }
            Err(Stop::NoMemory) => self.phase = Phase::NoMemory,
            Err(Stop::WriteFault) => {
                // a part of these replies found no memory, so none of them is given
                self.replies.truncate(before);
                self.phase = Phase::NoMemory;
            }
        }
    }

    /// Copies as many of the replies that wait as there is room for to the front of `out`, and tells
    /// how many bytes. They wait no more.
    pub fn take(&mut self, out: &mut [u8]) -> usize
        ensures count { result ≡ min (length (waiting_of self.old)) (length out.old) }
        ensures front { take result out.new ≡ take result (waiting_of self.old) }
        ensures behind { drop result out.new ≡ drop result out.old }
        ensures taken { Takes self.old self.new (take result out.new) }
    {
        let count = copy_front(out, self.waiting());
        let length = self.replies.len();
        self.at = self.at.min(length) + count;
        if self.at == length {
            self.replies.clear();
            self.at = 0;
        }
        count
    }

    /// Ends the input, and answers what ends with it: a line without LF, or a payload that is cut.
    /// Tells how a run over the same bytes ends. Where it is told again, that is `Usage`, and nothing
    /// changes.
    pub fn end(&mut self, alloc: Global) -> Status
        ensures { EndsAs self.old self.new result }
    {
        match self.phase {
            Phase::Going => self.finish(alloc),
            Phase::Quit => {
                let refused = self.session.refused();
                self.end_as(Status::Done { refused })
            }
            Phase::Limit => self.end_as(Status::InputLimit),
            Phase::NoMemory => self.end_as(Status::NoMemory),
            Phase::Ended(_) => Status::Usage,
        }
    }

    // Keeps the status of its end, and answers it.
    fn end_as(&mut self, status: Status) -> Status
        ensures status { result ≡ status }
        ensures phase { self.new.phase ≡ Phase.Ended status }
        ensures rest { IsAsBefore self.old self.new }
    {
        self.phase = Phase::Ended(status);
        status
    }

    // Ends the input of a session that reads on.
    fn finish(&mut self, alloc: Global) -> Status
        requires going { self.old.phase ≡ Phase.Going }
        ensures { Ends self.old self.new result }
    {
        let before = self.replies.len();
        let order = Order::new(by_kind);
        let engine = Engine {
            alloc,
            order: &order,
            kind: self.kind,
        };
        match self
            .session
            .finish(&engine, &mut self.steps, &mut self.replies)
        {
            Ok(()) => {}
            Err(Stop::NoMemory) => {
                self.phase = Phase::Ended(Status::NoMemory);
                return Status::NoMemory;
            }
            Err(Stop::WriteFault) => {
                self.replies.truncate(before);
                self.phase = Phase::Ended(Status::NoMemory);
                return Status::NoMemory;
            }
        }
        let status = Status::Done {
            refused: self.session.refused(),
        };
        self.phase = Phase::Ended(status);
        status
    }
}
