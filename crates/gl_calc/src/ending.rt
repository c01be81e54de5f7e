//! How rounds and calculations end.
ghost use Rattle.std.specs.Prelude.{◌≡◌};
ghost use Rattle.gl_calc.specs.Ending.{spent_in, spent_by};

use crate::table::Table;
use crate::{Answer, SpentKind};
use gl_ast::Version;
use gl_plane::Addr;
use gl_rounds::IterFault;

/// Why a round has no sizes: it demands too many keys, or this is its first formula that ended as
/// spent, or there is no memory.
#[derive(Clone, Copy, PartialEq, Eq)]
pub enum RoundFault {
    Work,
    Depth(Addr),
    CopyRounds(Addr),
    NoMemory,
}

/// The version of the held answer, and the table of its last round, where that is not the last of
/// the tables that are kept.
#[derive(Drop)]
pub struct Answered {
    pub version: Version,
    pub own: Option<Table>,
}

/// How a calculation ended, with the tables of its first rounds, and that of its last one where it
/// is none of these.
#[derive(Drop)]
pub struct Ended {
    pub answer: Answer,
    pub tables: Vec<Table>,
    pub beyond: Option<Table>,
}

impl Ended {
    /// What the calculation came to.
    pub fn answer(&self) -> Answer
        ensures { result ≡ self.now.answer }
    {
        self.answer
    }
}

/// The budget that is spent where a round ends with this fault; `None` where there is no memory.
fn spent_in(fault: RoundFault) -> Option<SpentKind>
    ensures { result ≡ spent_in fault }
{
    match fault {
        RoundFault::Work => Some(SpentKind::Work),
        RoundFault::Depth(a) => Some(SpentKind::Depth(a)),
        RoundFault::CopyRounds(a) => Some(SpentKind::CopyRounds(a)),
        RoundFault::NoMemory => None,
    }
}

/// The budget that is spent where the rounds end with this fault; `None` where there is no memory.
pub fn spent_by(fault: IterFault<RoundFault>) -> Option<SpentKind>
    ensures { result ≡ spent_by fault }
{
    match fault {
        IterFault::Rounds(a) => Some(SpentKind::Rounds(a)),
        IterFault::Round(fault) => spent_in(fault),
        IterFault::NoMemory => None,
    }
}
