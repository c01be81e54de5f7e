//! What stands in the way of arrays: the contents of the sheet, or those of a sheet value's region.
ghost use Rattle.std.specs.Prelude.{IsTrue};
ghost use Rattle.gl_calculus.specs.Evaluation.Sound.{is_sound_sheet};
ghost use Rattle.gl_cells.specs.Sheet.{sheet};
ghost use Rattle.gl_value.specs.View.{sheet_tree};

use crate::filling::next_filled;
use gl_cells::Cells;
use gl_grant::Blocks;
use gl_plane::{Addr, Range};
use gl_value::SheetVal;

/// The addresses with content in the sheet.
#[derive(Clone, Copy)]
pub struct TopBlocks<'a> {
    pub cells: &'a Cells,
}

impl Blocks for TopBlocks<'_> {
    ghost use Rattle.gl_cells.specs.Sheet.{sheet};
    ghost use Rattle.gl_demand.specs.Blocks.{has_content};

    ghost held = { λ s a. has_content (sheet s.cells.now) a };

    fn blocked(&self, root: Addr, area: &Range) -> Option<Addr> {
        if self.cells.contents() == 0 {
            return None;
        }
        match self.cells.next_in(area, None) {
            None => None,
            Some(a) => {
                if a == root {
                    self.cells.next_in(area, Some(root))
                } else {
                    Some(a)
                }
            }
        }
    }
}

/// The addresses with content in a frame of the sheet value, which are in its region. The sheet
/// value is sound.
#[derive(Clone, Copy)]
pub struct CopyBlocks<'a> {
    pub cells: &'a Cells,
    pub sheet: &'a SheetVal,
    ghost sound: { IsTrue (is_sound_sheet (sheet_tree sheet.now)) },
}

impl Blocks for CopyBlocks<'_> {
    ghost use Rattle.gl_cells.specs.Sheet.{sheet};
    ghost use Rattle.gl_value.specs.View.{sheet_tree};
    ghost use Rattle.gl_demand.specs.Blocks.{has_content_in};

    ghost held = { λ s a. has_content_in (sheet s.cells.now) (sheet_tree s.sheet.now) a };

    fn blocked(&self, root: Addr, area: &Range) -> Option<Addr> {
        match next_filled(self.cells, self.sheet, area, &None) {
            None => None,
            Some(a) => {
                if a == root {
                    next_filled(self.cells, self.sheet, area, &Some(root))
                } else {
                    Some(a)
                }
            }
        }
    }
}
