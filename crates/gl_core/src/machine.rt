//! The core: known keys, each idle, waiting for another or resolved, and what a pick does.
ghost use Rattle.gl_calculus.specs.Evaluation.World.{world};
ghost use Rattle.std.specs.Prelude.{[], true, false, ◌≡◌, ◌≤◌, ◌<◌, ◌+◌, ◌-◌, ◌^◌, ℕ, length, map};
ghost use Rattle.std.specs.Prelude.{slice_index, OnOk, OnErr, IfOk, IfErr, vec_len};
ghost use Rattle.std.specs.Coded.{codes};
ghost use Rattle.gl_calculus.specs.Computation.Lists.{Member, AreDistinct, MoreThan};
ghost use Rattle.gl_calculus.specs.Computation.Demanded.{Demanded};
ghost use Rattle.gl_machine.specs.Machine.{idle_keys, nth};
ghost use Rattle.gl_machine.specs.Quiet.{IsQuiet};
ghost use Rattle.gl_machine.specs.Costs.{answer_at, settled};
ghost use Rattle.gl_machine.specs.Remembered.{AreTrue};
ghost use Rattle.gl_machine.specs.InOrder.{AreOrdered};
ghost use Rattle.gl_calculus.specs.Computation.Notes.{note_keys};
ghost use Rattle.gl_machine.specs.Machine as Machine;
ghost use Rattle.gl_calculus.specs.Grid.Limits.{max_demanded};
ghost use Rattle.gl_calculus.specs.Evaluation.Key.{same_key};
ghost use Rattle.gl_calculus.specs.Evaluation.Evaluation.{program};
ghost use Rattle.gl_calculus.specs.Evaluation.Sound.{IsProperKey};
ghost use Rattle.gl_machine.specs.Codes.{coded_key, coded_outcome, coded_note};
ghost use Rattle.gl_calculus.specs.Values.Value as V;
ghost use Rattle.gl_calculus.specs.Evaluation.Key as K;
ghost use Rattle.gl_ast.specs.View.{version_tree};
ghost use Rattle.gl_cells.specs.Sheet.{sheet};
ghost use Rattle.gl_calculus.specs.Steps.Rule.{PicksBelow};
ghost use Rattle.gl_order.specs.Rule.{rule_of};
ghost use Rattle.gl_memo.specs.Notes.{notes_of};
ghost use Rattle.gl_demand.specs.{View.key_tree, Sound.AreSoundKeys, Marks.mark_trees};
ghost use Rattle.gl_demand.specs.{Evaluators.world_of};
ghost use Rattle.gl_calculus.specs.Steps.Allowance.{Allows, HasReads};
ghost use Rattle.gl_core.specs.State.{state_of, seeds_of, notes_in, note_trees, is_noted};
ghost use Rattle.gl_core.specs.State.{noted_after, HaveSoundParts, AreSoundNotes, IsFor};
ghost use Rattle.gl_core.specs.Answers.{picked_tree, counted, AtMostCounted, IsUnnoted};
ghost use Rattle.gl_core.specs.{Table.IsTable, Table.AreIdle, Table.IsCore, Table.held};
ghost use Rattle.gl_core.specs.{Held.Held, Marks.TellNothing, Marks.coded_mark, Started.IsStarted};

use crate::answers::{CoreFault, Picked};
use crate::converting::ledger_of;
use crate::entries::Entries;
use crate::ledger::Ledger;
use crate::picking::pick_at;
use crate::quiet::Quiet;
use crate::results::Results;
use crate::resuming::resumed;
use gl_ast::Version;
use gl_cells::Cells;
use gl_demand::{Evaluator, Key, Outcome, Steps, Watch};
use gl_memo::Memo;
use gl_order::Order;
use gl_plane::{Addr, NoMemory, Oracle, Range};
use gl_value::Env;
use std::alloc::Global;
use std::marker::Model;

/// Known keys, each idle, waiting for another known key, or resolved to its outcome; and the notes
/// of keys: outcomes with what was read and looked at.
///
/// A core is for a sheet, an oracle and a version (`IsFor`) where its notes are true there, its
/// seeds are proper, and its state is one that picks reach from the seeds.
pub struct Core {
    entries: Entries,
    seeds: usize,
    ledger: Ledger,
}

// One call wherever it is dropped, in place of one for each part.
impl Drop for Core {
    fn drop(self) {
        let Core {
            entries,
            seeds,
            ledger,
        } = self;
    }
}

impl Model for Core {
    ghost Value = { Held };

    ghost coded = { Prim.hlevel (codes, coded_key, coded_outcome, coded_note, coded_mark) };

    ghost view = { λ c. held c.ledger c.entries c.seeds };

    ghost invariant = { λ c. IsCore c.ledger c.entries };
}

fn is_full(picked: Picked) -> bool
    ensures full { result ≡ true → Machine.Picked.Full ≡ picked_tree picked }
    ensures other { result ≡ false → picked_tree picked ≡ Machine.Picked.Full → ⊥ }
{
    match picked {
        Picked::Full => true,
        Picked::Resolved => false,
        Picked::Waits => false,
    }
}

/// These numbers, all idle.
fn seeded(alloc: Global, seeds: &[u32]) -> Result<Entries, NoMemory>
    requires few { length seeds.now ≤ max_demanded }
    requires apart { AreDistinct seeds.now }
    ensures known { IfOk result (λ e. e.known.items ≡ seeds.now) }
    ensures idle { IfOk result (λ e. AreIdle e.statuses.items.items) }
    ensures passed { IfOk result (λ e. (q : ℕ) → slice_index e.passed.items q ≡ 0) }
    ensures marks { IfOk result (λ e. TellNothing (mark_trees e.marks.items)) }
    ensures table { IfOk result IsTable }
{
    let mut entries = Entries::new(alloc);
    for n in seeds {
        entries.add_idle(alloc, *n, Vec::new(alloc))?;
    }
    Ok(entries)
}

/// The keys of cells of the sheet.
pub fn top_keys(alloc: Global, places: &[Addr]) -> Result<Vec<Key>, NoMemory>
    ensures { IfOk result (λ keys. map key_tree keys.items ≡ map (K.Cell V.Top) places.now) }
{
    let mut keys = Vec::new(alloc);
    for a in places {
        keys.push(Key::Cell(Env::Top, *a))?;
    }
    Ok(keys)
}

impl Core {
    /// The seeds, all idle, with the notes that are kept from before.
    pub fn start(
        alloc: Global,
        seeds: Vec<Key>,
        kept: Memo<Key, Outcome, Range>,
        cells: &Cells,
        w: &Oracle,
        version: Version,
    ) -> Result<Core, NoMemory>
        requires few { vec_len seeds ≤ max_demanded }
        requires apart { AreDistinct (map key_tree seeds.items) }
        requires sound_seeds { AreSoundKeys (map key_tree seeds.items) }
        requires proper { (k : K.Key)
            → Member k (map key_tree seeds.items)
            → IsProperKey (sheet cells.now) k }
        requires true_notes { AreTrue same_key
            (program (world (version_tree version) (sheet cells.now) w.now))
            (note_trees (notes_of kept)) }
        requires sound_notes { HaveSoundParts (note_trees (notes_of kept)) }
        ensures state { IfOk result (λ core.
            state_of core ≡ Machine.start (map key_tree seeds.items)) }
        ensures seeds { IfOk result (λ core. seeds_of core ≡ map key_tree seeds.items) }
        ensures notes { IfOk result (λ core. notes_in core ≡ note_trees (notes_of kept)) }
        ensures for_it { IfOk result (λ core.
            IsFor (world (version_tree version) (sheet cells.now) w.now) core) }
    {
        Core::started(alloc, &seeds, &kept)
    }

    /// The seeds, all idle, with the notes of a table.
    fn started(
        alloc: Global,
        seeds: &[Key],
        notes: &Memo<Key, Outcome, Range>,
    ) -> Result<Core, NoMemory>
        requires few { length seeds.now ≤ max_demanded }
        requires apart { AreDistinct (map key_tree seeds.now) }
        requires sound_seeds { AreSoundKeys (map key_tree seeds.now) }
        requires sound_notes { AreSoundNotes (note_trees (notes_of notes.now)) }
        ensures { IfOk result
            (IsStarted (map key_tree seeds.now) (note_trees (notes_of notes.now))) }
    {
        let mut ledger = ledger_of(alloc, notes)?;
        let numbers = ledger.numbers(alloc, seeds)?;
        let entries = seeded(alloc, &numbers)?;
        Ok(Core {
            entries,
            seeds: seeds.len(),
            ledger,
        })
    }

    /// The cells at these places of the sheet as seeds, with the results that are kept for them.
    pub fn resume(
        evaluator: &Evaluator,
        places: &[Addr],
        results: Results,
    ) -> Result<Core, CoreFault>
        requires few { length places.now ≤ max_demanded }
        requires apart { AreDistinct (map (K.Cell V.Top) places.now) }
        requires proper { (k : K.Key)
            → Member k (map (K.Cell V.Top) places.now)
            → IsProperKey (sheet evaluator.now.cells.now) k }
        requires true_notes { AreTrue same_key
            (program (world_of evaluator.now)) results }
        ensures seeds { IfOk result (λ core. seeds_of core ≡ map (K.Cell V.Top) places.now) }
        ensures notes { IfOk result (λ core. notes_in core ≡ results) }
        ensures for_it { IfOk result (λ core.
            IsFor (world_of evaluator.now) core) }
        ensures work { IfErr result (λ e.
            e ≡ CoreFault.Work
            → MoreThan max_demanded
            (Demanded (program (world_of evaluator.now)) (map (K.Cell V.Top) places.now))) }
    {
        let (mut ledger, carry) = results.into_parts();
        match resumed(evaluator.alloc, places, carry, &mut ledger) {
            Ok(entries) => Ok(Core {
                entries,
                seeds: places.len(),
                ledger,
            }),
            Err(fault) => Err(fault),
        }
    }

    /// How many keys can be picked.
    pub fn idle(&self) -> u64
        ensures { result ≡ length (idle_keys (state_of self.now)) }
    {
        u64::from(self.entries.statuses.idle_total())
    }

    /// Picks the i-th of the idle keys, in the order in which keys became known.
    ///
    /// A key without a note is evaluated for one level, which is one step; but where it is known
    /// what its last evaluation was reading, it takes none and waits for the next key of that,
    /// unless one before has another outcome than a value. A key with a note takes none: it goes by
    /// the first of the note's reads that is not resolved. Where it is `Full`, and after `NoMemory`,
    /// the core is as before.
    pub fn pick<L: Watch>(
        &mut self,
        alloc: Global,
        i: u64,
        cells: &Cells,
        w: &Oracle,
        version: Version,
        steps: &mut Steps<L>,
    ) -> Result<Picked, NoMemory>
        requires there { i < length (idle_keys (state_of self.old)) }
        requires for_it { IsFor (world (version_tree version) (sheet cells.now) w.now) self.old }
        ensures state { OnOk result (
            state_of self.new
            ≡ Machine.pick same_key max_demanded
            (program (world (version_tree version) (sheet cells.now) w.now)) (state_of self.old) i) }
        ensures answer { IfOk result (λ picked.
            picked_tree picked
            ≡ answer_at same_key max_demanded
            (program (world (version_tree version) (sheet cells.now) w.now)) (state_of self.old)
            (nth (idle_keys (state_of self.old)) i)) }
        ensures notes { IfOk result (λ picked.
            note_keys (notes_in self.new)
            ≡ noted_after (notes_in self.old) (nth (idle_keys (state_of self.old)) i)
            (picked_tree picked)) }
        ensures ordered { AreOrdered [] (notes_in self.old) → AreOrdered [] (notes_in self.new) }
        ensures err { OnErr result (self.new ≡ self.old) }
        ensures full { IfOk result (λ picked.
            picked_tree picked ≡ Machine.Picked.Full → self.new ≡ self.old) }
        ensures seeds { seeds_of self.new ≡ seeds_of self.old }
        ensures stays { IsFor (world (version_tree version) (sheet cells.now) w.now) self.new }
        ensures counted { AtMostCounted (is_noted (notes_in self.old))
            (nth (idle_keys (state_of self.old)) i) steps.old steps.new }
        ensures evaluated { IfOk result (λ picked.
            picked_tree picked ≡ Machine.Picked.Resolved
            → steps.new
            ≡ counted (is_noted (notes_in self.old)) (nth (idle_keys (state_of self.old)) i)
            steps.old) }
    {
        let p = self.entries.statuses.idle_place(i as u32);
        let evaluator = Evaluator {
            alloc,
            cells,
            oracle: w,
            version,
        };
        pick_at(&mut self.entries, &mut self.ledger, p, &evaluator, steps)
    }

    /// Picks by the rule until nothing is idle, whatever the rule answers. `Work` comes exactly
    /// where more than `MAX_DEMANDED` keys are demanded.
    pub fn run_all<F: Fn(u8, u64, u64) -> u64, L: Watch>(
        self,
        alloc: Global,
        order: &Order<F>,
        kind: u8,
        cells: &Cells,
        w: &Oracle,
        version: Version,
        steps: &mut Steps<L>,
    ) -> Result<Quiet, CoreFault>
        requires rule { PicksBelow (F.pre (rule_of order.now)) (F.post (rule_of order.now)) }
        requires kind { kind ≤ 2 }
        requires for_it { IsFor (world (version_tree version) (sheet cells.now) w.now) self }
        ensures quiet { IfOk result (λ q.
            IsQuiet same_key (program (world (version_tree version) (sheet cells.now) w.now))
            (seeds_of self) (state_of q)) }
        ensures seeds { IfOk result (λ q. seeds_of q ≡ seeds_of self) }
        ensures stays { IfOk result (λ q.
            IsFor (world (version_tree version) (sheet cells.now) w.now) q) }
        ensures ordered { IfOk result (λ q.
            AreOrdered [] (notes_in self) → AreOrdered [] (notes_in q)) }
        ensures work { IfErr result (λ e.
            e ≡ CoreFault.Work
            → MoreThan max_demanded
            (Demanded (program (world (version_tree version) (sheet cells.now) w.now))
            (seeds_of self))) }
        ensures no_work { IfOk result (λ q.
            MoreThan max_demanded
            (Demanded (program (world (version_tree version) (sheet cells.now) w.now))
            (seeds_of self))
            → ⊥) }
        ensures most { IfOk result (λ q.
            let W = world (version_tree version) (sheet cells.now) w.now in
            let noted = is_noted (notes_in self) in
            Allows W (λ k. IsUnnoted W (seeds_of self) noted k × HasReads W k) steps.old steps.new) }
        ensures most_work { IfErr result (λ e.
            let W = world (version_tree version) (sheet cells.now) w.now in
            e ≡ CoreFault.Work
            → Allows W (IsUnnoted W (seeds_of self) (is_noted (notes_in self))) steps.old steps.new) }
        ensures later { steps.old ≤ steps.new }
        ensures least { IfOk result (λ q.
            steps.new < 2 ^ 64 - 1
            → steps.old + settled (is_noted (notes_in self)) (state_of q)
            ≤ steps.new + settled (is_noted (notes_in self)) (state_of self)) }
    {
        let mut core = self;
        let mut turn = 0u64;
        'picks: loop {
            let n = core.idle();
            if n == 0 {
                return Ok(core.into_quiet());
            }
            let i = order.next(kind, turn, n);
            let Ok(picked) = core.pick(alloc, i, cells, w, version, steps) else {
                return Err(CoreFault::NoMemory);
            };
            if is_full(picked) {
                return Err(CoreFault::Work);
            }
            turn = turn.wrapping_add(1);
        }
    }

    /// The core, in which nothing is idle.
    fn into_quiet(self) -> Quiet
        requires { length (idle_keys (state_of self)) ≡ 0 }
        ensures { result ≡ self }
    {
        let Core {
            entries,
            seeds,
            ledger,
        } = self;
        Quiet::new(entries, seeds, ledger)
    }
}
