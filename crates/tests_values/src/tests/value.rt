//! Sheet values and frames: equality, overrides, ranks and weights; elements and texts.
use crate::tests::values::array;
use gl_plane::{NoMemory, Oracle, Permit, Share};
use gl_value::{Env, ErrKind, MAX_RANK, MAX_TEXT, Made, Scalar, SheetVal, Shown, Value};
use std::alloc::Global;
use std::hash::{DefaultHasher, Hash, Hasher};
use std::rc::{Rc, RcStr};
use std::test::Fail;
use tests_common::{
    address, frame, holding, in_copy, made, number, plain_sheet, range, share_sheet, sheet_in,
    update_in, with_number,
};

fn hash_of<T: Hash>(x: &T) -> u64 {
    let mut state = DefaultHasher::new();
    x.hash(&mut state);
    state.finish()
}

/// A frame of this rank, each level made in the one before.
fn nest(alloc: Global, rank: u8) -> Result<Env, Fail> {
    let mut env = Env::Top;
    for _ in 0..rank {
        let s = made(sheet_in(alloc, &env, range("A1:B2")?)?)?;
        env = frame(alloc, s, Oracle::new(alloc))?;
    }
    Ok(env)
}

/// An array of blanks.
fn blanks(alloc: Global, rows: u16, cols: u16) -> Result<Value, Fail> {
    let mut items = Vec::new(alloc);
    for _ in 0..usize::from(rows) * usize::from(cols) {
        items.push(Scalar::Blank).map_err(NoMemory::from)?;
    }
    array(alloc, rows, cols, items)
}

#[test]
fn equal_frames_built_apart_are_equal_and_hash_alike(rt: HostRuntime) -> Result<(), Fail> {
    let alloc = rt.alloc();
    let a = nest(alloc, MAX_RANK)?;
    let b = nest(alloc, MAX_RANK)?;
    assert!(rt; a == b);
    assert!(rt; hash_of(&a) == hash_of(&b));
    assert!(rt; a.is_sound());
    assert_eq!(rt; a.rank(), MAX_RANK);
    let deep = matches!(sheet_in(alloc, &a, range("A1:B2")?)?, Made::Deep);
    assert!(rt; deep);
    assert!(rt; a != nest(alloc, MAX_RANK - 1)?);
    Ok(())
}

#[test]
fn equal_sheets_built_apart_are_equal_and_hash_alike(rt: HostRuntime) -> Result<(), Fail> {
    let s = holding(rt.alloc(), 1)?;
    let t = holding(rt.alloc(), 1)?;
    assert!(rt; s == t);
    assert!(rt; hash_of(&s) == hash_of(&t));
    assert!(rt; s != holding(rt.alloc(), 2)?);
    Ok(())
}

/// The sheet value with 2x2 cells and 1 in B1, where the 1 is set in a frame of this rank.
fn holding_in(alloc: Global, rank: u8) -> Result<Rc<SheetVal>, Fail> {
    let env = nest(alloc, rank)?;
    let s = plain_sheet(alloc, "A1:B2")?;
    made(update_in(alloc, &env, &*s, address("B1")?, number(1))?)
}

// The same override, set in a deeper frame: the rank alone differs.
#[test]
fn sheets_that_differ_in_their_rank(rt: HostRuntime) -> Result<(), Fail> {
    let s = holding(rt.alloc(), 1)?;
    let t = holding_in(rt.alloc(), 5)?;
    assert!(rt; (s.rank, t.rank) == (1, 6));
    assert!(rt; s.weight == t.weight);
    assert!(rt; s != t);
    Ok(())
}

#[test]
fn sheets_that_differ_in_a_permit(rt: HostRuntime) -> Result<(), Fail> {
    let u = in_copy(rt.alloc(), Permit::Permitted)?;
    let v = in_copy(rt.alloc(), Permit::Refused)?;
    assert_eq!(rt; u.weight, 4);
    assert!(rt; u != v);
    Ok(())
}

/// Four numbers put in turn, two of them at one address.
fn put_in_turn(alloc: Global) -> Result<Rc<SheetVal>, Fail> {
    let mut s = holding(alloc, 1)?;
    for (a, n) in [("A2", 3), ("A1", 4), ("A2", 5)] {
        s = with_number(alloc, &*s, a, n)?;
    }
    Ok(s)
}

/// The number that the sheet value, which must be sound, holds at an address, if it holds one.
fn held_at(s: &SheetVal, name: &str) -> Result<Option<i64>, Fail> {
    let a = address(name)?;
    if !s.is_sound() {
        return Err("not sound".into());
    }
    match s.get_override(a) {
        Some(Value::One(Scalar::Int(n))) => Ok(Some(*n)),
        Some(_) => Err("no number".into()),
        None => Ok(None),
    }
}

#[test]
fn overrides_stand_in_row_major_order(rt: HostRuntime) -> Result<(), Fail> {
    let s = put_in_turn(rt.alloc())?;
    assert!(rt; (s.overrides.len(), s.weight) == (3, 4));
    for (a, n) in [
        ("A1", Some(4)),
        ("B1", Some(1)),
        ("A2", Some(5)),
        ("B2", None),
    ] {
        assert!(rt; held_at(&*s, a)? == n, "{a}");
    }
    Ok(())
}

#[test]
fn an_override_outside_the_region(rt: HostRuntime) -> Result<(), Fail> {
    let s = put_in_turn(rt.alloc())?;
    let c1 = update_in(rt.alloc(), &Env::Top, &*s, address("C1")?, number(0))?;
    let is_outside = matches!(c1, Made::Outside);
    assert!(rt; is_outside);
    Ok(())
}

/// The four numbers, and a sheet value in B2.
fn with_a_sheet(alloc: Global, inner: Rc<SheetVal>) -> Result<Rc<SheetVal>, Fail> {
    let s = put_in_turn(alloc)?;
    let nested = Value::One(Scalar::Sheet(inner));
    made(update_in(alloc, &Env::Top, &*s, address("B2")?, nested)?)
}

// A sheet value counts with its weight, and raises the rank.
#[test]
fn sheets_in_sheets(rt: HostRuntime) -> Result<(), Fail> {
    let inner = holding(rt.alloc(), 1)?;
    let t = with_a_sheet(rt.alloc(), share_sheet(&inner)?)?;
    assert!(rt; (t.rank, t.weight) == (2, 6));
    assert!(rt; t.is_sound());
    assert!(rt; t.get_override(address("B2")?) == Some(&Value::One(Scalar::Sheet(inner))));
    Ok(())
}

/// A sheet value of seven cells, six of which hold 10,000 blanks each.
fn six_arrays(alloc: Global) -> Result<Rc<SheetVal>, Fail> {
    let mut s = plain_sheet(alloc, "A1:G1")?;
    for a in ["A1", "B1", "C1", "D1", "E1", "F1"] {
        s = made(update_in(alloc, &Env::Top, &*s, address(a)?, blanks(alloc, 100, 100)?)?)?;
    }
    Ok(s)
}

#[test]
fn seven_large_arrays_are_too_heavy(rt: HostRuntime) -> Result<(), Fail> {
    let alloc = rt.alloc();
    let s = six_arrays(alloc)?;
    assert_eq!(rt; s.weight, 60001);
    let seventh = update_in(
        alloc,
        &Env::Top,
        &*s,
        address("G1")?,
        blanks(alloc, 100, 100)?,
    )?;
    let is_heavy = matches!(seventh, Made::Heavy);
    assert!(rt; is_heavy);
    Ok(())
}

/// An array of two rows of three blanks.
fn is_two_by_three(v: &Value) -> bool {
    match v {
        Value::One(_) => false,
        Value::Array(a) => {
            (a.size().rows(), a.size().cols()) == (2, 3)
                && a.item(1, 2) == Some(&Scalar::Blank)
                && a.item(2, 0).is_none()
                && a.item(0, 3).is_none()
                && a.is_sound()
        }
    }
}

#[test]
fn elements_of_arrays(rt: HostRuntime) -> Result<(), Fail> {
    let v = blanks(rt.alloc(), 2, 3)?;
    assert!(rt; is_two_by_three(&v));
    assert!(rt; v != blanks(rt.alloc(), 3, 2)?);
    Ok(())
}

/// A text of so many bytes.
fn long(alloc: Global, bytes: usize) -> Result<Scalar, Fail> {
    let mut long = String::new(alloc);
    for _ in 0..bytes {
        long.push('x')?;
    }
    Ok(Scalar::Text(RcStr::from_str(alloc, long.as_str())?))
}

#[test]
fn texts_that_are_too_long_are_not_sound(rt: HostRuntime) -> Result<(), Fail> {
    let fits = long(rt.alloc(), MAX_TEXT)?;
    let over = long(rt.alloc(), MAX_TEXT + 1)?;
    assert!(rt; fits.is_sound());
    assert!(rt; fits.share()? == fits);
    assert!(rt; !over.is_sound());
    assert!(rt; !fits.agrees(&over));
    Ok(())
}

#[test]
fn scalars_that_agree(rt: HostRuntime) -> Result<(), Fail> {
    let empty = Scalar::Text(RcStr::from_str(rt.alloc(), "")?);
    let zero = Scalar::Int(0);
    let is_false = Scalar::Bool(false);
    assert!(rt;
        Scalar::Blank.agrees(&empty)
            && zero.agrees(&Scalar::Blank)
            && is_false.agrees(&Scalar::Blank)
    );
    assert!(rt; !zero.agrees(&is_false) && !zero.agrees(&empty));
    let absent = Scalar::Err(ErrKind::Na);
    assert!(rt; !absent.agrees(&absent));
    assert!(rt; Shown::Value(zero) != Shown::Cycle);
    Ok(())
}
