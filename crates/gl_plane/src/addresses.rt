//! The addresses of a range, one after the other.
ghost use Rattle.std.specs.Prelude.{◌≡◌, ◌∷◌, IfSome, IsTrue, Some};
ghost use Rattle.std.specs.Option.{ForSome};
ghost use Rattle.gl_calculus.specs.Grid.Grid.{addresses, covers};
ghost use Rattle.gl_plane.specs.Addresses.{addresses_from};

use crate::{Addr, Range};

/// The addresses of a range that are still to come, in row-major order.
#[derive(Drop)]
pub struct Addresses {
    range: Range,
    next: Option<Addr>,
    ghost inside: { ForSome next (λ a. IsTrue (covers range a)) },
}

impl Range {
    /// Its addresses, in row-major order.
    pub fn addresses(&self) -> Addresses
        ensures { addresses_from result.range result.next ≡ addresses self.now }
    {
        Addresses {
            range: *self,
            next: Some(self.first()),
        }
    }

    /// The address behind this one in row-major order. `None` behind the last.
    fn after(&self, a: Addr) -> Option<Addr>
        requires { IsTrue (covers self.now a) }
        ensures step { addresses_from self.now (Some a) ≡ a ∷ addresses_from self.now result }
        ensures inside { IfSome result (λ b. IsTrue (covers self.now b)) }
    {
        let first = self.first();
        let last = self.last();
        if a.col < last.col {
            Some(Addr {
                row: a.row,
                col: a.col + 1,
            })
        } else if a.row < last.row {
            Some(Addr {
                row: a.row + 1,
                col: first.col,
            })
        } else {
            None
        }
    }
}

impl Iterator for Addresses {
    ghost use Rattle.std.specs.Iterator.{YieldsFirstBy, item_count};
    ghost use Rattle.gl_plane.specs.Addresses.{addresses_from};

    type Item = Addr;

    ghost next_gives = { YieldsFirstBy (λ a. a) (λ s. addresses_from s.range s.next) };

    ghost remaining = { item_count (λ s. addresses_from s.range s.next) };

    fn next(&mut self) -> Option<Addr> {
        match self.next {
            Some(a) => {
                self.next = self.range.after(a);
                Some(a)
            }
            None => None,
        }
    }
}
