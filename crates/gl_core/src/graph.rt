//! What rests on the notes of a ledger, as a graph that is searched.
ghost use Rattle.std.specs.Prelude.{◌≡◌, ◌<◌, ◌≤◌, ◌↔◌, ℕ, List, None, length, option_map, take, IfOk};
ghost use Rattle.std.specs.Prelude.{IfSome, OnOk};
ghost use Rattle.gl_calculus.specs.Computation.Lists.{Member, AreDistinct};
ghost use Rattle.gl_calculus.specs.Computation.Notes.{Note};
ghost use Rattle.gl_calculus.specs.Grid.Grid.{Range as Plain};
ghost use Rattle.gl_machine.specs.Remembered.{AreClosed, IsDropped};
ghost use Rattle.gl_plane.specs.Changes.{reaches};
ghost use Rattle.gl_support.specs.Rests.{rest_of, IsSound};
ghost use Rattle.gl_support.specs.Rows.{notes_of};
ghost use Rattle.gl_core.specs.Numbers.{Each, numbers_of, IsBelow};
ghost use Rattle.gl_core.specs.Graph.{HaveRows, HasAll, IsGraphOf, fewer};

use gl_demand::Outcome;
use gl_plane::{NoMemory, Range};
use gl_support::{Rests, Row};
use std::alloc::Global;

/// What the first rows of a ledger read and looked at, by their numbers. The rows behind them come
/// to it when it is searched, so a calculation that drops no note pays nothing for it.
#[derive(Drop)]
pub struct Graph {
    pub rests: Rests,
    pub rows: usize,
}

/// Room for numbers.
fn lengthen(alloc: Global, rests: &mut Rests, numbers: usize) -> Result<(), NoMemory>
    requires { IsSound rests.old }
    ensures sound { OnOk result (IsSound rests.new) }
    ensures room { OnOk result (numbers ≤ length rests.new.reads.items) }
    ensures longer { OnOk result (length rests.old.reads.items ≤ length rests.new.reads.items) }
    ensures same { OnOk result ((n : ℕ) → rest_of rests.new n ≡ rest_of rests.old n) }
{
    while rests.len() < numbers {
        rests.push(alloc)?;
    }
    Ok(())
}

/// The rows behind the first ones, too.
fn add_rows(
    alloc: Global,
    rests: &mut Rests,
    rows: &[Row<Outcome, Range>],
    first: usize,
) -> Result<(), NoMemory>
    requires sound { IsSound rests.old }
    requires below { Each (IsBelow (length rests.old.reads.items)) rows.now }
    requires apart { AreDistinct (numbers_of rows.now) }
    requires first { HaveRows rests.old (take first rows.now) }
    ensures sound { OnOk result (IsSound rests.new) }
    ensures all { OnOk result (HaveRows rests.new rows.now) }
{
    for r in first..rows.len() {
        let row = &rows[r];
        rests.set(alloc, row.by, &row.reads, &row.looked)?;
    }
    Ok(())
}

impl Graph {
    /// Of no row.
    fn new(alloc: Global) -> Result<Graph, NoMemory>
        ensures { IfOk result (λ g. IsSound g.rests × (g.rows ≡ 0)) }
    {
        let rests = Rests::new(alloc)?;
        Ok(Graph { rests, rows: 0 })
    }

    /// All rows, whose numbers and reads are below the number of numbers.
    fn add(
        &mut self,
        alloc: Global,
        rows: &[Row<Outcome, Range>],
        numbers: usize,
    ) -> Result<(), NoMemory>
        requires first { IsGraphOf rows.now self.old }
        requires below { Each (IsBelow numbers) rows.now }
        requires apart { AreDistinct (numbers_of rows.now) }
        ensures graph { OnOk result (IsGraphOf rows.now self.new) }
        ensures all { OnOk result (self.new.rows ≡ length rows.now) }
    {
        lengthen(alloc, &mut self.rests, numbers)?;
        add_rows(alloc, &mut self.rests, rows, self.rows)?;
        self.rows = rows.len();
        Ok(())
    }
}

/// The graph, or one of no row where there is none.
fn taken(alloc: Global, graph: &mut Option<Graph>) -> Result<Graph, NoMemory>
    ensures first { IfOk result (λ g.
        (rows : List (Row Outcome Plain))
        → IfSome graph.old (IsGraphOf rows)
        → IsGraphOf rows g) }
    ensures none { graph.new ≡ None }
{
    match graph.take() {
        Some(graph) => Ok(graph),
        None => Graph::new(alloc),
    }
}

/// The numbers of the rows that rest on what changed, and maybe some that have no row. The graph is
/// made where there is none. After `NoMemory` there is none.
pub fn affected(
    alloc: Global,
    graph: &mut Option<Graph>,
    rows: &[Row<Outcome, Range>],
    numbers: usize,
    changes: &[Range],
) -> Result<Vec<usize>, NoMemory>
    requires first { IfSome graph.old (IsGraphOf rows.now) }
    requires below { Each (IsBelow numbers) rows.now }
    requires apart { AreDistinct (numbers_of rows.now) }
    requires closed { AreClosed (notes_of rows.now) }
    ensures dropped { IfOk result (λ v.
        (n : Note ℕ Outcome Plain)
        → Member n (notes_of rows.now)
        → Member n.key v.items ↔ IsDropped (reaches changes.now) (notes_of rows.now) n.key) }
    ensures graph { IfSome graph.new (IsGraphOf rows.now) }
    ensures all { IfSome graph.new (HasAll rows.now) }
{
    let mut all = taken(alloc, graph)?;
    all.add(alloc, rows, numbers)?;
    let gone = all.rests.affected(alloc, changes)?;
    *graph = Some(all);
    Ok(gone)
}

/// So many rows went, and maybe all of them were among the first ones.
pub fn shorten(graph: &mut Option<Graph>, count: usize)
    ensures { graph.new ≡ option_map (fewer count) graph.old }
{
    if let Some(graph) = graph {
        graph.rows = graph.rows.saturating_sub(count);
    }
}
