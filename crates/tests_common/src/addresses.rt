//! Addresses, ranges and sizes.
use gl_plane::{Addr, Range, Size};
use std::test::Fail;

/// The address of a text, as `AZ9`.
pub fn address(text: &str) -> Result<Addr, Fail> {
    match Addr::read(text.as_bytes()) {
        Some(a) => Ok(a),
        None => Err(Fail::new("no address")),
    }
}

/// The range of a text with both corners, as `A1:B3`.
pub fn range(text: &str) -> Result<Range, Fail> {
    let Some((first, last)) = text.split_once(':') else {
        return Err(Fail::new("no range"));
    };
    let first = address(first)?;
    let last = address(last)?;
    if Range::ordered(first, last) {
        Ok(Range::new(first, last))
    } else {
        Err(Fail::new("corners that are not in order"))
    }
}

/// The size of so many rows and columns.
pub fn size(rows: u16, cols: u16) -> Result<Size, Fail> {
    match Size::new(rows, cols) {
        Some(size) => Ok(size),
        None => Err(Fail::new("no size")),
    }
}
