//! Numbers of sheet values and of frames: the same exactly where the trees are equal.
use gl_intern::Interner;
use gl_plane::{Oracle, Permit};
use gl_value::{Env, Scalar, SheetVal, Value};
use std::alloc::Global;
use std::rc::Rc;
use std::test::Fail;
use tests_common::{address, frame, holding, made, one_entry, plain_sheet, update_in};

/// A sheet value that holds one in A1, which has this number in B1.
fn nested(alloc: Global, n: i64) -> Result<Rc<SheetVal>, Fail> {
    let inner = Value::One(Scalar::Sheet(holding(alloc, n)?));
    let outer = plain_sheet(alloc, "A1:B2")?;
    made(update_in(alloc, &Env::Top, &*outer, address("A1")?, inner)?)
}

/// The frame of a sheet value with this number in B1, under an oracle of one entry.
fn under_entry(alloc: Global, n: i64, permit: Permit) -> Result<Env, Fail> {
    Ok(frame(
        alloc,
        holding(alloc, n)?,
        one_entry(alloc, "A1", 1, 2, permit)?,
    )?)
}

#[test]
fn equal_sheet_values_have_one_number(rt: HostRuntime) -> Result<(), Fail> {
    let alloc = rt.alloc();
    let mut interner = Interner::new(alloc);
    assert_eq!(rt; interner.sheet(&holding(alloc, 1)?)?, 0);
    assert_eq!(rt; interner.sheet(&holding(alloc, 1)?)?, 0);
    assert_eq!(rt; interner.sheet(&holding(alloc, 2)?)?, 1);
    assert_eq!(rt; interner.sheet(&nested(alloc, 1)?)?, 2);
    assert_eq!(rt; interner.sheet(&nested(alloc, 2)?)?, 3);
    assert_eq!(rt; interner.sheet(&nested(alloc, 1)?)?, 2);
    let held = match interner.sheet_at(1) {
        Some(s) => **s == *holding(alloc, 2)?,
        None => false,
    };
    assert!(rt; held);
    assert!(rt; interner.sheet_at(4).is_none());
    Ok(())
}

#[test]
fn equal_frames_have_one_number(rt: HostRuntime) -> Result<(), Fail> {
    let alloc = rt.alloc();
    let mut interner = Interner::new(alloc);
    let empty = frame(alloc, holding(alloc, 1)?, Oracle::new(alloc))?;
    assert_eq!(rt; interner.frame(&Env::Top)?, 0);
    assert_eq!(rt; interner.frame(&empty)?, 1);
    assert_eq!(rt;
        interner.frame(&under_entry(alloc, 1, Permit::Permitted)?)?,
        2
    );
    assert_eq!(rt;
        interner.frame(&under_entry(alloc, 1, Permit::Refused)?)?,
        3
    );
    assert_eq!(rt;
        interner.frame(&under_entry(alloc, 1, Permit::Permitted)?)?,
        2
    );
    assert_eq!(rt;
        interner.frame(&under_entry(alloc, 2, Permit::Permitted)?)?,
        4
    );
    let held = match interner.frame_at(1) {
        Some(e) => *e == empty,
        None => false,
    };
    assert!(rt; held);
    Ok(())
}
