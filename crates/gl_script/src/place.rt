//! Addresses and ranges in a line.
ghost use Rattle.std.specs.Prelude.{IfSome, IfNone};
ghost use Rattle.gl_calculus.specs.Grid.Grid.{Addr as PlainAddr};
ghost use Rattle.gl_protocol.specs.Scripts.Commands.{IsAddress, NoAddress, IsPlace};
ghost use Rattle.gl_script.specs.Parts.{IsRange};

use crate::requests::CommandFault;
use gl_plane::{Addr, Range};

/// The address of the grid that is written so.
pub(crate) fn read_address(place: &str) -> Option<Addr>
    ensures some { IfSome result (λ a. IsAddress place.now a) }
    ensures none { IfNone result (NoAddress place.now) }
{
    Addr::read(place.as_bytes())
}

// An address, or two with a colon between.
fn read_corners(place: &str) -> Option<(Addr, Addr)>
    ensures some { IfSome result (λ p. IsPlace place.now p.0 p.1) }
    ensures none { IfNone result ((a b : PlainAddr) → IsPlace place.now a b → ⊥) }
{
    match place.split_once(':') {
        None => match read_address(place) {
            Some(a) => Some((a, a)),
            None => None,
        },
        Some((first, last)) => match read_address(first) {
            Some(a) => match read_address(last) {
                Some(b) => Some((a, b)),
                None => None,
            },
            None => None,
        },
    }
}

/// The range of a place. `Address` where a corner is no address of the grid, `Range` where the corners
/// are not in order.
pub(crate) fn read_range(place: &str) -> Result<Range, CommandFault>
    ensures { IsRange place.now result }
{
    match read_corners(place) {
        Some((first, last)) => {
            if Range::ordered(first, last) {
                Ok(Range::new(first, last))
            } else {
                Err(CommandFault::Range)
            }
        }
        None => Err(CommandFault::Address),
    }
}
