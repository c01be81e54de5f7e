//! What depends on what, as a graph: the value of the formula cell k has the number 2k, and its
//! entry 2k + 1.
ghost use Rattle.std.specs.Prelude.{◌≡◌, ◌*◌, ◌<◌, ◌≤◌, [], length, IfSome, IfNone};
ghost use Rattle.gl_calculus.specs.Forecast as Fo;
ghost use Rattle.gl_flow.specs.Pieces.{piece_tree, piece_last, rows_read, IsRead, IsReadPiece};
ghost use Rattle.gl_flow.specs.Network.{top_of, piece_steps, spill_steps, rival_steps};
ghost use Rattle.gl_flow.specs.Network.{steps_of_value, steps_of_entry, Takes};
ghost use Rattle.gl_flow.specs.{Grid.source, Grid.IsInRows, Plans.plan};

use crate::boxes::Area;
use crate::network::Network;
use crate::places::number_of;
use crate::reading::Piece;
use crate::rivals::rival;
use gl_graph::{Graph, Place};
use gl_plane::{Addr, Range};

impl Network {
    /// The node on which what reads a formula cell depends first: its entry, where it may have one.
    pub fn top(&self, k: usize) -> u32
        requires { k < length self.now.places.items }
        ensures value { result ≡ top_of (plan self.now) k }
        ensures inside { result < 2 * length self.now.places.items }
    {
        match self.areas[k] {
            Some(_) => 2 * k as u32 + 1,
            None => 2 * k as u32,
        }
    }

    /// What an address reads of.
    fn source(&self, a: Addr) -> u16
        requires { IsInRows (rows_read (plan self.now).pieces) a }
        ensures value { result ≡ source (plan self.now).columns a }
        ensures inside { result ≤ length self.now.places.items }
    {
        let i = a.col() as usize - 1;
        let j = a.row() as usize - 1;
        let column = &self.columns[i];
        column[j]
    }

    /// The next step from the addresses of a range.
    fn range_step(&self, r: &Range, from: u32) -> Option<(u32, u32)>
        requires read { IsRead r.now }
        requires last { r.now.last.row ≤ rows_read (plan self.now).pieces }
        ensures some { IfSome result (Takes (piece_steps (plan self.now) (Fo.Reads r.now)) from) }
        ensures none { IfNone result (piece_steps (plan self.now) (Fo.Reads r.now) from ≡ []) }
        ensures inside { IfSome result (λ s. s.0 < 2 * length self.now.places.items) }
    {
        for i in from..r.cells() {
            let n = self.source(r.place(i));
            if n > 0 {
                return Some((self.top(n as usize - 1), i + 1));
            }
        }
        None
    }

    /// The step from `a#`.
    fn spill_step(&self, a: Addr, offset: u32) -> Option<(u32, u32)>
        ensures some { IfSome result (Takes (spill_steps (plan self.now) a) offset) }
        ensures none { IfNone result (spill_steps (plan self.now) a offset ≡ []) }
        ensures inside { IfSome result (λ s. s.0 < 2 * length self.now.places.items) }
    {
        if offset > 0 {
            return None;
        }
        match number_of(&self.places, a) {
            Some(k) => Some((self.top(k), 1)),
            None => None,
        }
    }

    /// The next step from a piece of a formula.
    fn piece_step(&self, piece: &Piece, offset: u32) -> Option<(u32, u32)>
        requires read { IsReadPiece (piece_tree piece.now) }
        requires last { piece_last (piece_tree piece.now) ≤ rows_read (plan self.now).pieces }
        ensures some { IfSome result
            (Takes (piece_steps (plan self.now) (piece_tree piece.now)) offset) }
        ensures none { IfNone result
            (piece_steps (plan self.now) (piece_tree piece.now) offset ≡ []) }
        ensures inside { IfSome result (λ s. s.0 < 2 * length self.now.places.items) }
    {
        match piece {
            Piece::Reads(r) => self.range_step(r, offset),
            Piece::Spills(a) => self.spill_step(*a, offset),
        }
    }

    /// The next step from a value.
    fn value_step(&self, k: usize, place: Place) -> Option<(u32, Place)>
        requires { k < length self.now.places.items }
        ensures some { IfSome result (Takes (steps_of_value (plan self.now) k) place) }
        ensures none { IfNone result (steps_of_value (plan self.now) k place ≡ []) }
        ensures inside { IfSome result (λ s. s.0 < 2 * length self.now.places.items) }
    {
        let pieces = &self.pieces[k];
        let mut offset = place.offset;
        for part in place.part..pieces.len() {
            if let Some((node, next)) = self.piece_step(&pieces[part], offset) {
                return Some((node, Place { part, offset: next }));
            }
            offset = 0;
        }
        None
    }

    /// The next step to a rival.
    fn rival_step(&self, k: usize, area: &Area, from: u32) -> Option<(u32, Place)>
        requires { k < length self.now.places.items }
        ensures some { IfSome result (λ s.
            Takes (rival_steps (plan self.now) k (Some area.now)) from (s.0, s.1.offset)) }
        ensures part { IfSome result (λ s. s.1.part ≡ 1) }
        ensures none { IfNone result (rival_steps (plan self.now) k (Some area.now) from ≡ []) }
        ensures inside { IfSome result (λ s. s.0 < 2 * length self.now.places.items) }
    {
        match rival(&self.areas, &self.bottoms, area, k, from as usize) {
            Some(j) => Some((
                2 * j as u32 + 1,
                Place {
                    part: 1,
                    offset: j as u32 + 1,
                },
            )),
            None => None,
        }
    }

    /// The next step from an entry: to its value, then to the entries of its rivals.
    fn entry_step(&self, k: usize, place: Place) -> Option<(u32, Place)>
        requires { k < length self.now.places.items }
        ensures some { IfSome result (Takes (steps_of_entry (plan self.now) k) place) }
        ensures none { IfNone result (steps_of_entry (plan self.now) k place ≡ []) }
        ensures inside { IfSome result (λ s. s.0 < 2 * length self.now.places.items) }
    {
        if place.part == 0 {
            return Some((2 * k as u32, Place { part: 1, offset: 0 }));
        }
        match self.areas[k] {
            Some(area) => self.rival_step(k, &area, place.offset),
            None => None,
        }
    }
}

impl Graph for Network {
    ghost use Rattle.std.specs.Prelude.{◌*◌, ◌%◌, length};
    ghost use Rattle.gl_flow.specs.{Network.node_steps, Plans.plan};

    ghost size = { λ net. 2 * length net.places.items };

    ghost left = { λ net m p. node_steps (plan net) m p };

    ghost weight = { λ net m. m % 2 };

    fn size(&self) -> u32 {
        2 * self.places.len() as u32
    }

    fn next(&self, node: u32, place: Place) -> Option<(u32, Place)> {
        let k = (node / 2) as usize;
        if node % 2 == 0 {
            self.value_step(k, place)
        } else {
            self.entry_step(k, place)
        }
    }

    fn weight(&self, node: u32) -> u32 {
        node % 2
    }
}
