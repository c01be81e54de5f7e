//! Sheets that are made of `set` lines.
ghost use Rattle.std.specs.Prelude.{IfOk};
ghost use Rattle.gl_language.specs.Reading.Content.{IsProperContent};
ghost use Rattle.gl_cells.specs.Content.{content_tree};

use gl_cells::{Cells, Content};
use gl_plane::Addr;
use gl_script::{Request, command};
use std::alloc::Global;
use std::test::Fail;

/// The address and the content of a line that sets one.
pub fn content_of(alloc: Global, line: &str) -> Result<(Addr, Content), Fail>
    ensures { IfOk result (λ set. IsProperContent (content_tree set.1)) }
{
    let Ok(request) = command(alloc, line.as_bytes()) else {
        return Err(Fail::new("refused"));
    };
    match request {
        Request::Set(a, content) => Ok((a, content)),
        _ => Err(Fail::new("no content")),
    }
}

/// Puts the content of a line that sets one.
pub fn put_line(alloc: Global, cells: &mut Cells, line: &str) -> Result<(), Fail> {
    let (a, content) = content_of(alloc, line)?;
    match cells.put(a, content) {
        Ok(()) => Ok(()),
        Err(fault) => Err(fault.into()),
    }
}

/// The sheet of these lines, each of which sets a content.
pub fn sheet_of(alloc: Global, lines: &[&str]) -> Result<Cells, Fail> {
    let mut cells = Cells::new(alloc);
    for line in lines {
        put_line(alloc, &mut cells, line)?;
    }
    Ok(cells)
}
