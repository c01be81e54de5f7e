//! The tables of the rounds of a calculation: those from before, and those that it makes.
ghost use Rattle.std.specs.Prelude.{◌≡◌, [], None, List, IfOk};
ghost use Rattle.gl_calculus.specs.Grid.Grid.{Addr as PlainAddr};
ghost use Rattle.gl_calc.specs.Progress.{next_base, since, made_with, beyond_with};
ghost use Rattle.gl_calc.specs.Kept.{IsTaken};

use crate::KEPT_ROUNDS;
use crate::table::Table;
use gl_plane::NoMemory;
use std::alloc::Global;
use std::marker::Model;
use std::vec::IntoIter;

/// The tables from before of the rounds that are to come, and those of the rounds that were made.
#[derive(Drop)]
pub struct Tables {
    earlier: IntoIter<Table>,
    // of the first rounds, with room for all that are kept
    made: Vec<Table>,
    // of the last round, behind those
    beyond: Option<Table>,
}

/// What a round begins with: the table of the same round from before, after which addresses may
/// have been touched, or that of the round before, or an empty one.
#[derive(Drop)]
pub struct Base {
    pub table: Table,
    pub is_earlier: bool,
}

impl Model for Tables {
    ghost use Rattle.std.specs.Prelude.{◌≤◌, vec_capacity};
    ghost use Rattle.std.specs.{Coded.codes, Vec.Iter.into_iter_items};
    ghost use Rattle.gl_machine.specs.Codes.{coded_table};
    ghost use Rattle.gl_calculus.specs.Grid.Limits.{kept_rounds};
    ghost use Rattle.gl_calc.specs.Progress.{Progress};

    ghost Value = { Progress };

    ghost coded = { Prim.hlevel (codes, coded_table) };

    ghost view = { λ t.
        record { earlier = into_iter_items t.earlier; made = t.made.items; beyond = t.beyond } };

    ghost invariant = { λ t. (kept_rounds ≤ vec_capacity t.made) };
}

/// The last of the tables once more, or an empty one.
fn last_again(alloc: Global, made: &[Table]) -> Result<Table, NoMemory>
    ensures { IfOk result (λ t.
        (touched : List PlainAddr)
        → (t, []) ≡ next_base (record { earlier = []; made = made.now; beyond = None }) touched) }
{
    match made.last() {
        Some(table) => table.copy(alloc),
        None => Ok(Table::empty(alloc)),
    }
}

impl Tables {
    /// The tables from before, and room for those that will be kept.
    pub fn new(alloc: Global, earlier: Vec<Table>) -> Result<Tables, NoMemory>
        ensures { IfOk result (λ t.
            t ≡ record { earlier = earlier.items; made = []; beyond = None }) }
    {
        let made = Vec::with_capacity(alloc, KEPT_ROUNDS)?;
        Ok(Tables {
            earlier: earlier.into_iter(),
            made,
            beyond: None,
        })
    }

    /// Takes what the next round begins with.
    pub fn take_base(&mut self, alloc: Global) -> Result<Base, NoMemory>
        ensures base { IfOk result (λ b.
            (touched : List PlainAddr)
            → (b.table, since b.is_earlier touched) ≡ next_base self.old touched) }
        ensures taken { IsTaken self.old self.new }
    {
        match self.earlier.next() {
            Some(table) => Ok(Base {
                table,
                is_earlier: true,
            }),
            None => self.take_before(alloc),
        }
    }

    /// Takes the table of the round before, where none is there from before.
    fn take_before(&mut self, alloc: Global) -> Result<Base, NoMemory>
        requires { self.old.earlier ≡ [] }
        ensures base { IfOk result (λ b.
            (touched : List PlainAddr)
            → (b.table, since b.is_earlier touched) ≡ next_base self.old touched) }
        ensures taken { IsTaken self.old self.new }
    {
        match self.beyond.take() {
            Some(table) => Ok(Base {
                table,
                is_earlier: false,
            }),
            None => {
                let table = last_again(alloc, &self.made)?;
                Ok(Base {
                    table,
                    is_earlier: false,
                })
            }
        }
    }

    /// Keeps the table of a round that was made. It takes no memory.
    pub fn keep(&mut self, table: Table)
        ensures earlier { self.new.earlier ≡ self.old.earlier }
        ensures made { self.new.made ≡ made_with self.old.made table }
        ensures beyond { self.new.beyond ≡ beyond_with self.old.made table }
    {
        if self.made.len() < KEPT_ROUNDS {
            self.made.push_reserved(table);
            self.beyond = None;
        } else {
            self.beyond = Some(table);
        }
    }

    /// The tables that were made.
    pub fn into_made(self) -> (Vec<Table>, Option<Table>)
        ensures made { result.0.items ≡ self.made }
        ensures beyond { result.1 ≡ self.beyond }
    {
        (self.made, self.beyond)
    }
}
