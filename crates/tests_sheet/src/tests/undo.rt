//! Steps that are undone and done again, and their limit.
ghost use Rattle.std.specs.Prelude.{◌<◌, length, IfOk, IfSome, IsFalse, IsTrue};
ghost use Rattle.gl_language.specs.Reading.Content.{IsProperContent};
ghost use Rattle.gl_cells.specs.Content.{content_tree};
ghost use Rattle.gl_undo.specs.History.{done, undone};
ghost use Rattle.gl_undo.specs.View.{AreProperChanges};

use crate::tests::replicas::{number, told};
use gl_cells::{Cells, Content};
use gl_plane::{Addr, NoMemory, Range, Share};
use gl_undo::{History, step_of};
use std::alloc::Global;
use std::test::Fail;
use tests_common::{address, content_of};

/// Each address gets its content, or loses it.
fn apply(cells: &mut Cells, list: Vec<(Addr, Option<Content>)>) -> Result<(), Fail>
    requires { AreProperChanges list.items }
{
    for (place, content) in list {
        match content {
            Some(c) => cells.put(place, c)?,
            None => {
                let _ = cells.clear(&Range::new(place, place));
            }
        }
    }
    Ok(())
}

/// The changes of the latest step, or of the latest that was undone, if one is left.
fn changes(
    alloc: Global,
    history: &History,
    is_back: bool,
) -> Result<Option<Vec<(Addr, Option<Content>)>>, NoMemory>
    ensures proper { IfOk result (λ o. IfSome o (λ v. AreProperChanges v.items)) }
    ensures back { IsTrue is_back
        → IfOk result (λ o. IfSome o (λ _. 0 < length (done history.now))) }
    ensures forward { IsFalse is_back
        → IfOk result (λ o. IfSome o (λ _. 0 < length (undone history.now))) }
{
    if is_back {
        history.back(alloc)
    } else {
        history.forward(alloc)
    }
}

/// Steps that are undone, or redone: what A1 has behind each of them, until none is left.
struct Walk {
    is_back: bool,
    contents: &'static [&'static str],
}

const WALKS: &[Walk] = &[
    Walk {
        is_back: true,
        contents: &["=", "1", "-"],
    },
    Walk {
        is_back: false,
        contents: &["1", "=", "-"],
    },
];

/// A sheet, and the history of its steps.
#[derive(Drop)]
struct Sheet {
    alloc: Global,
    cells: Cells,
    history: History,
}

impl Sheet {
    fn new(alloc: Global) -> Result<Sheet, Fail> {
        Ok(Sheet {
            alloc,
            cells: Cells::new(alloc),
            history: History::new(alloc)?,
        })
    }

    /// The address gets this content, as a step.
    fn put(&mut self, place: Addr, content: Content) -> Result<(), Fail>
        requires { IsProperContent (content_tree content) }
    {
        let mut list = Vec::new(self.alloc);
        list.push((place, Some(content.share()?)))?;
        let step = step_of(self.alloc, &self.cells, list)?;
        self.cells.put(place, content)?;
        self.history.push(step);
        Ok(())
    }

    /// The content of a line like `set A1 =B1` is set, as a step.
    fn set(&mut self, line: &str) -> Result<(), Fail> {
        let (place, content) = content_of(self.alloc, line)?;
        self.put(place, content)
    }

    /// The address loses its content, as a step.
    fn clear(&mut self, place: Addr) -> Result<(), Fail> {
        let mut list = Vec::new(self.alloc);
        list.push((place, None))?;
        let step = step_of(self.alloc, &self.cells, list)?;
        let _ = self.cells.clear(&Range::new(place, place));
        self.history.push(step);
        Ok(())
    }

    /// Whether a step was left to undo, or to redo.
    fn moves(&mut self, is_back: bool) -> Result<bool, Fail> {
        let Some(list) = changes(self.alloc, &self.history, is_back)? else {
            return Ok(false);
        };
        apply(&mut self.cells, list)?;
        if is_back {
            self.history.moved_back();
        } else {
            self.history.moved_forward();
        }
        Ok(true)
    }

    /// What A1 is told as is this.
    fn is_told(&self, want: &str) -> Result<bool, Fail> {
        let content = self.cells.content(address("A1")?);
        Ok(told(self.alloc, content)?.as_str() == want)
    }

    /// Each step leaves in A1 what the walk says, and no step is left then.
    fn goes(&mut self, walk: &Walk) -> Result<bool, Fail> {
        for want in walk.contents {
            if !self.moves(walk.is_back)? || !self.is_told(want)? {
                return Ok(false);
            }
        }
        Ok(!self.moves(walk.is_back)?)
    }

    /// 256 steps are left and no more, and behind them A1 has this content.
    fn goes_all(&mut self, is_back: bool, want: &str) -> Result<bool, Fail> {
        for _ in 0..256 {
            if !self.moves(is_back)? {
                return Ok(false);
            }
        }
        Ok(self.is_told(want)? && !self.moves(is_back)?)
    }
}

/// A sheet whose A1 gets a number and then a formula, and loses it.
fn of_three_steps(alloc: Global) -> Result<Sheet, Fail> {
    let mut sheet = Sheet::new(alloc)?;
    sheet.set("set A1 1")?;
    sheet.set("set A1 =B1")?;
    sheet.clear(address("A1")?)?;
    Ok(sheet)
}

#[test]
fn steps_back_and_forth(rt: HostRuntime) -> Result<(), Fail> {
    let mut sheet = of_three_steps(rt.alloc())?;
    assert!(rt; sheet.is_told("-")?);
    for walk in WALKS {
        assert!(rt; sheet.goes(walk)?);
    }
    Ok(())
}

#[test]
fn a_new_step_ends_what_can_be_redone(rt: HostRuntime) -> Result<(), Fail> {
    let mut sheet = Sheet::new(rt.alloc())?;
    sheet.set("set A1 1")?;
    assert!(rt; sheet.moves(true)?);
    sheet.set("set A1 2")?;
    assert!(rt; !sheet.moves(false)?);
    sheet.history.clear();
    assert!(rt; !sheet.moves(true)?);
    assert!(rt; sheet.is_told("2")?);
    Ok(())
}

/// A sheet whose A1 gets the numbers from 1 to 257, one after the other.
fn of_257_steps(alloc: Global) -> Result<Sheet, Fail> {
    let mut sheet = Sheet::new(alloc)?;
    for n in 1..258 {
        sheet.put(address("A1")?, number(n))?;
    }
    Ok(sheet)
}

#[test]
fn the_latest_256_steps_are_kept(rt: HostRuntime) -> Result<(), Fail> {
    let mut sheet = of_257_steps(rt.alloc())?;
    assert!(rt; sheet.goes_all(true, "1")?);
    assert!(rt; sheet.goes_all(false, "257")?);
    Ok(())
}
