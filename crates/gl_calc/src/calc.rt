//! The calculator.
ghost use Rattle.std.specs.Prelude.{◌≡◌, ◌≤◌, ◌+◌, ◌++◌, ◌∷◌, [], None, length, map, option_map};
ghost use Rattle.std.specs.Prelude.{IfOk, OnOk, OnErr};
ghost use Rattle.std.specs.{Coded.codes, Option.option_copied};
ghost use Rattle.gl_calculus.specs.Calculation.Calculation.{why};
ghost use Rattle.gl_calculus.specs.Formulas.Formula.{One};
ghost use Rattle.gl_calculus.specs.Calculation.Memory.{tables_for};
ghost use Rattle.gl_calculus.specs.Calculation.Memory.{AreTables};
ghost use Rattle.gl_machine.specs.Codes.{coded_table};
ghost use Rattle.gl_language.specs.Reading.Content.{IsProperContent};
ghost use Rattle.gl_calculus.specs.Edits.Sheets.{with_content, with_contents, without, places_in};
ghost use Rattle.gl_ast.specs.View.{version_tree};
ghost use Rattle.gl_ast.specs.contracts.Formula as formula;
ghost use Rattle.gl_value.specs.contracts.Scalar as scalar;
ghost use Rattle.gl_cells.specs.{Content.content_tree, Sheet.sheet, Sheet.AreProper};
ghost use Rattle.gl_cells.specs.Sheet as cells;
ghost use Rattle.gl_calculus.specs.Steps.Rule.{PicksBelow};
ghost use Rattle.gl_order.specs.Rule.{rule_of};
ghost use Rattle.gl_calc.specs.Answers.{Answers, Takes, IsShownBy};
ghost use Rattle.gl_calc.specs.{View.View, View.sheet_of, View.memory_of, Why.why_tree};
ghost use Rattle.gl_calc.specs.{Held.answer_of, Held.IsCalc, Places.ArePlaces};

use crate::calculating::calculate;
use crate::ending::Answered;
use crate::holding::{earlier_tables, held_after, parted, same_version, standing, table_of};
use crate::marking::{mark_all, mark_in, places_of};
use crate::placing::{known_places, places_with, places_with_all, places_without, while_few};
use crate::reasons::why_at;
use crate::showing::shown_at;
use crate::table::Table;
use crate::{Answer, Engine, Why};
use gl_ast::Version;
use gl_cells::{Cells, Content, PutFault};
use gl_demand::{Steps, Watch};
use gl_order::Order;
use gl_plane::{Addr, NoMemory, Oracle, Range};
use gl_value::Shown;
use std::alloc::Global;
use std::marker::Model;
use std::mem;

/// A sheet, with the held answer: that of the latest `refresh` that settled since the last edit that
/// was not refused; and with what is remembered of the latest calculation: the tables of its first
/// rounds, which addresses were touched since, and the addresses of the formulas, where known.
pub struct Calc {
    cells: Cells,
    held: Option<Answered>,
    tables: Vec<Table>,
    version: Version,
    // has room for one more mark of each content
    touched: Vec<Addr>,
    // what the latest calculation came to, where nothing was touched since
    ended: Option<Answer>,
    // the addresses of the formulas, where they are known
    places: Option<Vec<Addr>>,
}

// One call wherever it is dropped, in place of one for each part.
impl Drop for Calc {
    fn drop(self) {
        let Calc {
            cells,
            held,
            tables,
            version,
            touched,
            ended,
            places,
        } = self;
    }
}

impl Model for Calc {
    ghost Value = { View };

    ghost coded = { Prim.hlevel (codes, scalar.the_row.coded, formula.the_row.coded, coded_table) };

    ghost view = { λ c.
        record {
          table = c.cells;
          held = answer_of c.tables.items c.held;
          tables = c.tables.items;
          version = version_tree c.version;
          touched = c.touched.items;
        } };

    ghost invariant = { λ c.
        IsCalc (sheet c.cells) c.held c.tables.items (version_tree c.version) c.touched c.ended
        × ArePlaces (sheet c.cells) c.places };
}

impl Calc {
    /// The empty sheet, with no held answer and nothing remembered. It takes no memory yet.
    pub fn new(alloc: Global) -> Calc
        ensures sheet { sheet_of result ≡ [] }
        ensures held { result.held ≡ None }
        ensures tables { result.tables ≡ [] }
        ensures touched { result.touched ≡ [] }
        ensures version { result.version ≡ One }
    {
        Calc {
            cells: Cells::new(alloc),
            held: None,
            tables: Vec::new(alloc),
            version: Version::One,
            touched: Vec::new(alloc),
            ended: None,
            places: None,
        }
    }

    /// The sheet.
    pub fn cells(&self) -> &Cells
        ensures { sheet result.now ≡ sheet_of self.now }
    {
        &self.cells
    }

    /// Puts a content, as `Cells::put` does. Where that is not refused, no answer is held, and the
    /// address is touched.
    pub fn put(&mut self, a: Addr, c: Content) -> Result<(), PutFault>
        requires { IsProperContent (content_tree c) }
        ensures sheet { cells.Answers result (sheet_of self.old)
            (with_content (sheet_of self.old) a (content_tree c)) (sheet_of self.new) }
        ensures edited { OnOk result (self.new.held ≡ None) }
        ensures touched { OnOk result (self.new.touched ≡ self.old.touched ++ a ∷ []) }
        ensures untouched { OnErr result (self.new.touched ≡ self.old.touched) }
        ensures refused { OnErr result (self.new.held ≡ self.old.held) }
        ensures tables { self.new.tables ≡ self.old.tables }
        ensures version { self.new.version ≡ self.old.version }
    {
        let room = self.cells.contents() as usize + 2;
        let Ok(()) = self.touched.reserve(room) else {
            return Err(PutFault::NoMemory);
        };
        let formula = c.is_formula();
        match self.cells.put(a, c) {
            Ok(()) => {
                self.touched.push_reserved(a);
                self.held = None;
                self.ended = None;
                let places = self.places.take();
                let places = while_few(places, self.touched.len());
                self.places = places_with(places, a, formula);
                Ok(())
            }
            Err(fault) => Err(fault),
        }
    }

    /// Puts all contents in turn, as `Cells::put_all` does. Where that is not refused, no answer is
    /// held, and their addresses are touched.
    pub fn put_all(&mut self, alloc: Global, list: Vec<(Addr, Content)>) -> Result<(), PutFault>
        requires { AreProper list.items }
        ensures sheet { cells.Answers result (sheet_of self.old)
            (with_contents (sheet_of self.old) (sheet list.items)) (sheet_of self.new) }
        ensures edited { OnOk result (self.new.held ≡ None) }
        ensures touched { OnOk result (
            self.new.touched ≡ self.old.touched ++ map (λ e. e.0) (sheet list.items)) }
        ensures untouched { OnErr result (self.new.touched ≡ self.old.touched) }
        ensures refused { OnErr result (self.new.held ≡ self.old.held) }
        ensures tables { self.new.tables ≡ self.old.tables }
        ensures version { self.new.version ≡ self.old.version }
    {
        let room = self.cells.contents() as usize + list.len() + list.len();
        let Ok(()) = self.touched.reserve(room) else {
            return Err(PutFault::NoMemory);
        };
        let Ok(places) = places_of(alloc, &list) else {
            return Err(PutFault::NoMemory);
        };
        let touched = self.touched.len().saturating_add(list.len());
        let known = while_few(self.places.take(), touched);
        let known = places_with_all(known, &list);
        match self.cells.put_all(alloc, list) {
            Ok(()) => {
                mark_all(&mut self.touched, &places);
                self.held = None;
                self.ended = None;
                self.places = known;
                Ok(())
            }
            Err(fault) => Err(fault),
        }
    }

    /// Removes the contents of the range, and answers how many there were. Then no answer is held,
    /// and their addresses are touched. It takes no memory.
    pub fn clear(&mut self, r: &Range) -> u32
        ensures cleared { sheet_of self.new ≡ without (sheet_of self.old) r.now }
        ensures count { result + length (sheet_of self.new) ≡ length (sheet_of self.old) }
        ensures held { self.new.held ≡ None }
        ensures touched { self.new.touched
            ≡ self.old.touched ++ places_in (sheet_of self.old) r.now }
        ensures tables { self.new.tables ≡ self.old.tables }
        ensures version { self.new.version ≡ self.old.version }
    {
        mark_in(&mut self.touched, &self.cells, r);
        let count = self.cells.clear(r);
        self.held = None;
        self.ended = None;
        let places = self.places.take();
        let places = while_few(places, self.touched.len());
        self.places = places_without(places, r);
        count
    }

    /// Calculates the sheet: goes through the rounds from the empty oracle to the first that is its
    /// own next one, or to a spent budget, by whatever rule keys are picked. Where nothing was
    /// touched since the latest calculation of this version, what that came to is answered at once.
    ///
    /// The sheet stays. A settled oracle is held with its version; after a spent budget and after
    /// `NoMemory` what was held before still is. The tables of the first rounds are kept; after
    /// `NoMemory` there are none.
    pub fn refresh<F: Fn(u8, u64, u64) -> u64, L: Watch>(
        &mut self,
        alloc: Global,
        order: &Order<F>,
        kind: u8,
        version: Version,
        steps: &mut Steps<L>,
    ) -> Result<Answer, NoMemory>
        requires rule { PicksBelow (F.pre (rule_of order.now)) (F.post (rule_of order.now)) }
        requires kind { kind ≤ 2 }
        ensures answer { IfOk result (λ x.
            Answers (version_tree version) (sheet_of self.old) x self.old.held self.new.held) }
        ensures err { OnErr result (self.new.held ≡ self.old.held) }
        ensures sheet { sheet_of self.new ≡ sheet_of self.old }
        ensures steps { IfOk result (λ x.
            Takes (version_tree version) (sheet_of self.old)
            (tables_for (version_tree version) (memory_of self.old)) self.old.touched x steps.old
            steps.new) }
        ensures tables { IfOk result (λ x.
            AreTables (version_tree version) (sheet_of self.old) self.new.tables) }
        ensures made { IfOk result (λ x.
            (self.new.version ≡ version_tree version) × (self.new.touched ≡ [])) }
        ensures dropped { OnErr result (
            (self.new.tables ≡ []) × (self.new.touched ≡ self.old.touched)) }
    {
        let is_same = same_version(version, self.version);
        if let Some(answer) = standing(is_same, self.ended) {
            return Ok(answer);
        }
        let held = self.held.take();
        self.held = parted(held, &mut self.tables);
        let tables = mem::replace(&mut self.tables, Vec::new(alloc));
        let tables = earlier_tables(alloc, tables, is_same);
        self.ended = None;
        let places = self.places.take();
        let places = known_places(alloc, &self.cells, places)?;
        let engine = Engine { alloc, order, kind };
        let (cells, touched) = (&self.cells, &self.touched);
        let ended = calculate(&engine, cells, &places, version, tables, touched, steps)?;
        let answer = ended.answer();
        self.ended = Some(ended.answer());
        let held = self.held.take();
        let (held, tables) = held_after(ended, version, held);
        self.held = held;
        self.version = version;
        self.tables = tables;
        self.touched.clear();
        self.places = Some(places);
        Ok(answer)
    }

    /// The held oracle.
    pub fn oracle(&self) -> Option<&Oracle>
        ensures { option_copied result ≡ option_map (λ h. h.1) self.now.held }
    {
        match &self.held {
            Some(answered) => match table_of(answered, &self.tables) {
                Some(table) => Some(&table.oracle),
                None => None,
            },
            None => None,
        }
    }

    /// What an address shows by the held answer; `None` exactly where none is held.
    pub fn shown(&self, a: Addr) -> Result<Option<Shown>, NoMemory>
        ensures { IfOk result (λ o. IsShownBy (sheet_of self.now) self.now.held a o) }
    {
        match &self.held {
            Some(answered) => match table_of(answered, &self.tables) {
                Some(table) => match shown_at(&self.cells, table, a) {
                    Ok(x) => Ok(Some(x)),
                    Err(NoMemory) => Err(NoMemory),
                },
                None => Ok(None),
            },
            None => Ok(None),
        }
    }

    /// Why a root has its permit by the held answer; `None` exactly where none is held.
    pub fn why(&self, a: Addr) -> Option<Why>
        ensures { option_map why_tree result
            ≡ option_map (λ h. why (sheet_of self.now) h.1 a) self.now.held }
    {
        match &self.held {
            Some(answered) => match table_of(answered, &self.tables) {
                Some(table) => Some(why_at(&self.cells, &table.oracle, a)),
                None => None,
            },
            None => None,
        }
    }
}
