//! Replicas.
ghost use Rattle.std.specs.Prelude.{◌≡◌, ◌≤◌, ◌⊎◌, IsSome, IfSome, length, slice_get};
ghost use Rattle.gl_calculus.specs.Edits.Replicas.{IsTakeable, new_replica, next_stamp, taking};
ghost use Rattle.gl_calculus.specs.Edits.Limits.{max_registers};
ghost use Rattle.gl_merge.specs.Replica.{registers_of, replica_tree, register_of, AreOrdered};
ghost use Rattle.gl_merge.specs.Replica.{IsLatest, Joins, Makes, spare_after};
ghost use Rattle.gl_merge.specs.{Edit.edit_tree, Edit.told, Judging.IsFor};

use crate::judging::compared;
use crate::keeping::{count_missing, find, keep, register};
use crate::{Edit, Judged, MAX_REGISTERS, RoomFault, Stamp};
use gl_plane::Addr;
use std::alloc::Global;
use std::marker::Model;

/// The site that it gives its own edits, the greatest time that it has seen, and the latest edit of
/// each address, its register.
#[derive(Drop)]
pub struct Replica {
    site: u16,
    clock: u64,
    edits: Vec<Edit>,
    // in row-major order, each with the slot of its edit
    index: Vec<(Addr, u32)>,
}

impl Model for Replica {
    ghost use Rattle.std.specs.Coded.{codes};
    ghost use Rattle.gl_ast.specs.contracts.Formula as formula;
    ghost use Rattle.gl_value.specs.contracts.Scalar as scalar;
    ghost use Rattle.gl_merge.specs.Replica.{IsReplica, ReplicaValue, value_of};

    ghost Value = { ReplicaValue };

    ghost coded = { Prim.hlevel (codes, scalar.the_row.coded, formula.the_row.coded) };

    ghost view = { λ r. value_of r.site r.clock r.edits r.index };

    ghost invariant = { λ r. IsReplica r.site r.clock r.edits.items r.index.items };
}

impl Replica {
    /// A replica that has taken nothing. It takes no memory yet.
    pub fn new(alloc: Global, site: u16) -> Replica
        ensures { replica_tree result ≡ new_replica site }
    {
        Replica {
            site,
            clock: 0,
            edits: Vec::new(alloc),
            index: Vec::new(alloc),
        }
    }

    /// The stamp of its next edits, which win over each register: `None` exactly where its clock
    /// stands at `MAX_TIME`.
    pub fn next(&self) -> Option<Stamp>
        ensures value { result ≡ next_stamp (replica_tree self.now) }
        ensures latest { IfSome result (IsLatest self.now) }
    {
        Stamp::new(self.clock + 1, self.site)
    }

    /// What an edit is to the register of its address.
    pub fn judge(&self, e: &Edit) -> Judged
        ensures { IsFor (register_of self.now e.now.place) (edit_tree e.now) result }
    {
        match find(&self.edits, &self.index, e.place()) {
            Some(r) => compared(r, e),
            None => Judged::Wins,
        }
    }

    /// Makes room for edits of these addresses: `Edits` exactly where there would be more than
    /// `MAX_REGISTERS` registers; an address counts as often as it is listed.
    pub fn make_room(&mut self, places: &[Addr]) -> Result<(), RoomFault>
        ensures same { replica_tree self.new ≡ replica_tree self.old }
        ensures answer { Makes result self.old places.now self.new.spare }
    {
        let count = count_missing(&self.edits, &self.index, places);
        if count > MAX_REGISTERS - self.index.len() {
            return Err(RoomFault::Edits);
        }
        if self.edits.reserve(count).is_err() {
            return Err(RoomFault::NoMemory);
        }
        if self.index.reserve(count).is_err() {
            return Err(RoomFault::NoMemory);
        }
        Ok(())
    }

    /// Takes an edit that is no conflict: the later of it and the register of its address stays. It
    /// takes no memory.
    pub fn take(&mut self, e: Edit)
        requires judged { IsTakeable (register_of self.old e.place) (edit_tree e) }
        requires room { IsSome (register_of self.old e.place) ⊎ (1 ≤ self.old.spare) }
        ensures taken { replica_tree self.new ≡ taking (replica_tree self.old) (edit_tree e) }
        ensures spare { self.new.spare ≡ spare_after self.old e.place }
        ensures joins { Joins self.old (edit_tree e) self.new }
    {
        self.clock = self.clock.max(e.stamp().time());
        keep(&mut self.edits, &mut self.index, e);
    }

    /// A register, by its place in the order of addresses, from 0.
    pub fn register(&self, i: u32) -> Option<&Edit>
        ensures { told result ≡ slice_get (registers_of self.now) i }
    {
        register(&self.edits, &self.index, i as usize)
    }

    /// How many registers there are. They are in the order of their addresses.
    pub fn len(&self) -> u32
        ensures count { result ≡ length (registers_of self.now) }
        ensures few { result ≤ max_registers }
        ensures ordered { AreOrdered self.now }
    {
        self.index.len() as u32
    }
}
