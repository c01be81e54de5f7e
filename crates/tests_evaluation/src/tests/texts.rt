//! Keys, ranges and outcomes as texts.
use gl_ast::{put_address, put_range};
use gl_demand::{Budget, Found, Key, Outcome};
use gl_plane::{NoMemory, Range};
use gl_value::Env;
use std::alloc::Global;
use tests_common::value_text;

/// A value, that a copy is settled, or which budget is spent.
pub fn outcome_text(alloc: Global, outcome: &Outcome) -> Result<String, NoMemory> {
    match outcome {
        Outcome::Value(v) => value_text(alloc, v),
        Outcome::Settled(_) => words(alloc, "settled"),
        Outcome::Abort(Budget::Depth) => words(alloc, "spent depth"),
        Outcome::Abort(Budget::CopyRounds) => words(alloc, "spent copyrounds"),
    }
}

fn words(alloc: Global, text: &str) -> Result<String, NoMemory> {
    Ok(String::from_str(alloc, text)?)
}

fn put_key(alloc: Global, out: &mut String, key: &Key) -> Result<(), NoMemory> {
    match key {
        Key::Cell(Env::Top, a) => put_address(alloc, out, *a)?,
        Key::Cell(Env::In(s, _), a) => {
            put_address(alloc, out, *a)?;
            out.push_str(" in ")?;
            put_range(alloc, out, s.region)?;
        }
        Key::Settle(s) => {
            out.push_str("settle ")?;
            put_range(alloc, out, s.region)?;
        }
    }
    Ok(())
}

/// The outcome that an evaluation finds, or the key that it needs: a cell by its address, one of a copy
/// with the copy's region; a settling by the region.
fn found_text(alloc: Global, found: &Found) -> Result<String, NoMemory> {
    match found {
        Found::Ready(outcome) => outcome_text(alloc, outcome),
        Found::Need(key) => {
            let mut out = String::new(alloc);
            put_key(alloc, &mut out, key)?;
            Ok(out)
        }
    }
}

/// What was found is written so.
pub fn is_written(alloc: Global, found: &Found, text: &str) -> Result<bool, NoMemory> {
    Ok(found_text(alloc, found)?.as_str() == text)
}

/// A comma behind what is there.
fn put_comma(out: &mut String) -> Result<(), NoMemory> {
    if !out.is_empty() {
        out.push_str(", ")?;
    }
    Ok(())
}

/// The keys with commas between them.
pub fn keys_text(alloc: Global, keys: &[Key]) -> Result<String, NoMemory> {
    let mut out = String::new(alloc);
    for key in keys {
        put_comma(&mut out)?;
        put_key(alloc, &mut out, key)?;
    }
    Ok(out)
}

/// The ranges with commas between them.
pub fn ranges_text(alloc: Global, ranges: &[Range]) -> Result<String, NoMemory> {
    let mut out = String::new(alloc);
    for range in ranges {
        put_comma(&mut out)?;
        put_range(alloc, &mut out, *range)?;
    }
    Ok(out)
}
