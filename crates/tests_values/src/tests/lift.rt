//! Operators that are lifted to values.
use crate::tests::values::{told, value};
use gl_lift::{lift1, lift2, lift3};
use gl_plane::NoMemory;
use gl_value::{ErrKind, Scalar};
use std::alloc::Global;
use std::test::Fail;

/// So many of the first and one of the second; no number is `#VALUE!`.
fn joined(times: i64, x: &Scalar, y: &Scalar) -> Result<Scalar, NoMemory> {
    match (x, y) {
        (Scalar::Int(m), Scalar::Int(n)) => Ok(Scalar::Int(m.wrapping_mul(times).wrapping_add(*n))),
        _ => Ok(Scalar::Err(ErrKind::Value)),
    }
}

fn both(alloc: Global, times: i64, u: &str, v: &str) -> Result<String, Fail> {
    let u = value(alloc, u)?;
    let v = value(alloc, v)?;
    let w = lift2(alloc, &u, &v, |x: &Scalar, y: &Scalar| joined(times, x, y))?;
    told(alloc, &w)
}

/// Two values, and what they come to.
const PAIRS: &[(&str, &str, &str)] = &[
    ("{1 / 2}", "{3 4 5}", "{13 14 15 / 23 24 25}"),
    ("{1 / 2}", "{6 / 7 / 8}", "{16 / 27 / #N/A}"),
    ("1", "2", "12"),
    // extents of one repeat
    ("{9}", "{9}", "{99}"),
    ("{9}", "{1 2 / 3 4}", "{91 92 / 93 94}"),
    ("{1 2 / 3 4}", "{9}", "{19 29 / 39 49}"),
    ("{1 2 / 3 4}", "{1 2 / 3 4}", "{11 22 / 33 44}"),
    ("{1 2 / 3 4}", "{5 / 6}", "{15 25 / 36 46}"),
    ("{7 8}", "{1 2 / 3 4}", "{71 82 / 73 84}"),
    ("{5 / 6}", "{7 8}", "{57 58 / 67 68}"),
];

#[test]
fn two_values(rt: HostRuntime) -> Result<(), Fail> {
    for (u, v, want) in PAIRS {
        assert!(rt; both(rt.alloc(), 10, u, v)?.as_str() == *want, "{u} {v}");
    }
    Ok(())
}

/// Two values, and their sums.
const SUMS: &[(&str, &str, &str)] = &[
    ("{1 / 2}", "{1 2 3}", "{2 3 4 / 3 4 5}"),
    ("{1 / 2}", "{1 / 2 / 3}", "{2 / 4 / #N/A}"),
];

#[test]
fn sums_of_sequences(rt: HostRuntime) -> Result<(), Fail> {
    for (u, v, want) in SUMS {
        assert!(rt; both(rt.alloc(), 1, u, v)?.as_str() == *want, "{u} {v}");
    }
    Ok(())
}

fn ten_of(alloc: Global, v: &str) -> Result<String, Fail> {
    let v = value(alloc, v)?;
    let w = lift1(alloc, &v, |x: &Scalar| joined(10, x, &Scalar::Int(0)))?;
    told(alloc, &w)
}

/// The first and the second of three that are the same value.
fn two_of_three(alloc: Global, v: &str) -> Result<String, Fail> {
    let v = value(alloc, v)?;
    let w = lift3(
        alloc,
        &v,
        &v,
        &v,
        |x: &Scalar, y: &Scalar, _: &Scalar| joined(10, x, y),
    )?;
    told(alloc, &w)
}

#[test]
fn one_value_and_three(rt: HostRuntime) -> Result<(), Fail> {
    assert_eq!(rt; ten_of(rt.alloc(), "{1 2}")?.as_str(), "{10 20}");
    assert_eq!(rt; two_of_three(rt.alloc(), "{1 2}")?.as_str(), "{11 22}");
    Ok(())
}
