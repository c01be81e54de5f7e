//! Stamps.
ghost use Rattle.std.specs.Prelude.{◌≡◌, IsTrue, Some, None, if◌then◌else◌};
ghost use Rattle.gl_calculus.specs.Edits.Replicas.{is_earlier, is_stamp, stamp};

use crate::MAX_TIME;
use std::marker::Model;

/// The time and the site of an edit. The order is by time, then by site.
#[derive(Clone, Copy, PartialEq, Eq, PartialOrd, Ord)]
pub struct Stamp {
    time: u64,
    site: u16,
}

impl Model for Stamp {
    ghost use Rattle.std.specs.Prelude.{IsTrue};
    ghost use Rattle.gl_calculus.specs.Edits.Replicas.{Stamp as Plain, is_stamp};

    ghost Value = { Plain };

    ghost view = { λ s. record { time = s.time; site = s.site } };

    ghost invariant = { λ s. IsTrue (is_stamp s.time s.site) };

    ghost inverse = { λ p. record { time = p.time; site = p.site } };
}

impl Stamp {
    /// `None` exactly where the time is 0 or above `MAX_TIME`.
    pub fn new(time: u64, site: u16) -> Option<Stamp>
        ensures { result ≡ (if is_stamp time site then Some (stamp time site) else None) }
    {
        if 1 <= time && time <= MAX_TIME {
            Some(Stamp { time, site })
        } else {
            None
        }
    }

    /// The time, from 1.
    pub fn time(self) -> u64
        ensures value { result ≡ self.time }
        ensures sound { IsTrue (is_stamp self.time self.site) }
    {
        self.time
    }

    /// The site.
    pub fn site(self) -> u16
        ensures value { result ≡ self.site }
        ensures sound { IsTrue (is_stamp self.time self.site) }
    {
        self.site
    }

    /// An edit with the other stamp wins over one with this.
    pub fn is_earlier(self, other: Stamp) -> bool
        ensures { result ≡ is_earlier self other }
    {
        self < other
    }
}
