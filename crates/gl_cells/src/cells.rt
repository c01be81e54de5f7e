//! The sheet.
ghost use Rattle.std.specs.Prelude.{◌≡◌, ◌≤◌, ◌+◌, [], length, find, map, IfOk, IfSome, option_map};
ghost use Rattle.std.specs.Option.{option_copied};
ghost use Rattle.gl_calculus.specs.Formulas.Formula.{IsSheet, content, formula_addresses};
ghost use Rattle.gl_calculus.specs.Grid.Limits.{max_formulas, max_contents};
ghost use Rattle.gl_language.specs.Reading.Content.{IsProperContent};
ghost use Rattle.gl_calculus.specs.Edits.Sheets.{with_content, with_contents, without};
ghost use Rattle.gl_cells.specs.Sheet.{sheet, AreProper, ArePlaced, Answers};
ghost use Rattle.gl_cells.specs.{Content.content_tree, Search.is_in_play};

use crate::batch::{put_list, put_one};
use crate::clear::clear_in;
use crate::contents::Contents;
use crate::search::next_in;
use crate::{Content, Hint, PutFault};
use gl_plane::{Addr, NoMemory, Range};
use std::alloc::Global;
use std::marker::Model;

/// The contents by address, all proper, on the grid and within the limits of a sheet.
pub struct Cells {
    map: Contents,
    forms: usize,
}

// One call wherever it is dropped, in place of one for each part.
impl Drop for Cells {
    fn drop(self) {
        let Cells { map, forms } = self;
    }
}

impl Model for Cells {
    ghost use Rattle.std.specs.Coded.{codes};
    ghost use Rattle.gl_ast.specs.contracts.Formula as formula;
    ghost use Rattle.gl_value.specs.contracts.Scalar as scalar;
    ghost use Rattle.gl_cells.specs.Sheet.{Table, IsWithin};

    ghost Value = { Table };

    ghost coded = { Prim.hlevel (codes, scalar.the_row.coded, formula.the_row.coded) };

    ghost view = { λ a. a.map };

    ghost invariant = { λ a. IsWithin a.map a.forms };
}

impl Cells {
    /// The empty sheet. It takes no memory yet.
    pub fn new(alloc: Global) -> Cells
        ensures { sheet result ≡ [] }
    {
        Cells {
            map: Contents::new(alloc),
            forms: 0,
        }
    }

    /// The content of an address. It is proper.
    pub fn content(&self, a: Addr) -> Option<&Content>
        ensures found { option_map content_tree (option_copied result)
            ≡ content (sheet self.now) a }
        ensures proper { IfSome result (λ c. IsProperContent (content_tree c.now)) }
    {
        self.map.get(a)
    }

    /// The same. Addresses that are asked for in the order in which their contents came are found
    /// quickly by one hint.
    pub fn content_near(&self, a: Addr, hint: &mut Hint) -> Option<&Content>
        ensures found { option_map content_tree (option_copied result)
            ≡ content (sheet self.now) a }
        ensures proper { IfSome result (λ c. IsProperContent (content_tree c.now)) }
    {
        self.map.get_near(a, hint)
    }

    /// How many formulas there are.
    pub fn formulas(&self) -> u32
        ensures count { result ≡ length (formula_addresses (sheet self.now)) }
        ensures few { result ≤ max_formulas }
        ensures ordered { IsSheet (sheet self.now) }
    {
        self.forms as u32
    }

    /// The addresses that hold a formula, in row-major order.
    pub fn formula_addresses(&self, alloc: Global) -> Result<Vec<Addr>, NoMemory>
        ensures value { IfOk result (λ v. v.items ≡ formula_addresses (sheet self.now)) }
        ensures few { length (formula_addresses (sheet self.now)) ≤ max_formulas }
        ensures ordered { IsSheet (sheet self.now) }
    {
        self.map.formula_addresses(alloc)
    }

    /// How many contents there are. All are proper and on the grid.
    pub fn contents(&self) -> u32
        ensures count { result ≡ length (sheet self.now) }
        ensures few { result ≤ max_contents }
        ensures ordered { IsSheet (sheet self.now) }
        ensures proper { AreProper self.now }
        ensures placed { ArePlaced self.now }
    {
        self.map.len() as u32
    }

    /// The first address of the range with content, after the one that is given, in row-major
    /// order.
    pub fn next_in(&self, r: &Range, after: Option<Addr>) -> Option<Addr>
        ensures { result ≡ find (is_in_play r.now after) (map (λ c. c.0) (sheet self.now)) }
    {
        next_in(&self.map, r, after)
    }

    /// Puts a content: `Formulas` where more than `MAX_FORMULAS` formulas would be, else `Contents`
    /// where more than `MAX_CONTENTS` contents would be. A refusal leaves the sheet.
    pub fn put(&mut self, a: Addr, c: Content) -> Result<(), PutFault>
        requires { IsProperContent (content_tree c) }
        ensures { Answers result (sheet self.old) (with_content (sheet self.old) a (content_tree c))
            (sheet self.new) }
    {
        put_one(&mut self.map, &mut self.forms, a, c)
    }

    /// Puts all contents in turn, with the refusals of `put` for the sheet that would be. A refusal
    /// leaves the sheet.
    pub fn put_all(&mut self, alloc: Global, list: Vec<(Addr, Content)>) -> Result<(), PutFault>
        requires { AreProper list.items }
        ensures { Answers result (sheet self.old)
            (with_contents (sheet self.old) (sheet list.items)) (sheet self.new) }
    {
        put_list(alloc, &mut self.map, &mut self.forms, list)
    }

    /// Removes the contents of the range, and answers how many there were. It takes no memory.
    pub fn clear(&mut self, r: &Range) -> u32
        ensures cleared { sheet self.new ≡ without (sheet self.old) r.now }
        ensures count { result + length (sheet self.new) ≡ length (sheet self.old) }
    {
        clear_in(&mut self.map, &mut self.forms, r) as u32
    }
}
