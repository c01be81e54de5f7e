//! Sheet values and frames, each made in a frame that was made before, and oracles.
use crate::addresses::{address, range, size};
use crate::scalars::number;
use gl_plane::{Addr, Entry, NoMemory, Oracle, Permit, Range};
use gl_value::{Env, Made, SheetVal, Value, sheet, update};
use std::alloc::Global;
use std::rc::Rc;
use std::test::Fail;

/// The sheet value that was made.
pub fn made(made: Made) -> Result<Rc<SheetVal>, Fail> {
    match made {
        Made::Sheet(s) => Ok(s),
        _ => Err(Fail::new("no sheet value")),
    }
}

/// A sheet value of this region, made in a frame.
pub fn sheet_in(alloc: Global, env: &Env, region: Range) -> Result<Made, Fail> {
    if env.is_sound() {
        Ok(sheet(alloc, env, region)?)
    } else {
        Err(Fail::new("not sound"))
    }
}

/// The sheet value with this value at an address, made in a frame.
pub fn update_in(alloc: Global, env: &Env, s: &SheetVal, a: Addr, v: Value) -> Result<Made, Fail> {
    if env.is_sound() && s.is_sound() && v.is_sound() {
        Ok(update(alloc, env, s, a, v)?)
    } else {
        Err(Fail::new("not sound"))
    }
}

/// A sheet value of this region, in the sheet itself.
pub fn plain_sheet(alloc: Global, region: &str) -> Result<Rc<SheetVal>, Fail> {
    made(sheet_in(alloc, &Env::Top, range(region)?)?)
}

/// The sheet value with this number at an address.
pub fn with_number(alloc: Global, s: &SheetVal, a: &str, n: i64) -> Result<Rc<SheetVal>, Fail> {
    made(update_in(alloc, &Env::Top, s, address(a)?, number(n))?)
}

/// A sheet value with 2x2 cells and a number in B1.
pub fn holding(alloc: Global, n: i64) -> Result<Rc<SheetVal>, Fail> {
    with_number(alloc, &*plain_sheet(alloc, "A1:B2")?, "B1", n)
}

/// The sheet value under an oracle, as a frame.
pub fn frame(alloc: Global, s: Rc<SheetVal>, oracle: Oracle) -> Result<Env, NoMemory> {
    Ok(Env::In(s, Rc::new(alloc, oracle)?))
}

/// The same sheet value once more.
pub fn share_sheet(s: &Rc<SheetVal>) -> Result<Rc<SheetVal>, NoMemory> {
    Ok(s.clone()?)
}

/// A sheet value that is made in a copy whose oracle has one entry.
pub fn in_copy(alloc: Global, permit: Permit) -> Result<Rc<SheetVal>, Fail> {
    let oracle = one_entry(alloc, "A1", 1, 2, permit)?;
    let env = frame(alloc, holding(alloc, 1)?, oracle)?;
    made(sheet_in(alloc, &env, range("A1:B2")?)?)
}

/// An oracle with one entry.
pub fn one_entry(
    alloc: Global,
    root: &str,
    rows: u16,
    cols: u16,
    permit: Permit,
) -> Result<Oracle, Fail> {
    let root = address(root)?;
    let size = size(rows, cols)?;
    let mut oracle = Oracle::new(alloc);
    oracle.push(Entry { root, size, permit })?;
    Ok(oracle)
}
