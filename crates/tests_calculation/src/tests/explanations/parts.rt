//! Certificates that are made of the parts of others.
use gl_cert::Cert;
use gl_demand::{Key, Outcome};
use gl_plane::{NoMemory, Share};
use gl_value::{Env, Scalar, Shown};
use std::alloc::Global;
use std::test::Fail;
use tests_common::{address, number};

/// The most notes, and the most loops, that such a certificate may have.
const MOST: usize = 100;

/// The outcome of a note: its own, a number, or that of the note of this number.
#[derive(Clone, Copy, Debug)]
pub enum Claimed {
    Own,
    Number(i64),
    Of(usize),
}

/// Which notes, in this order; which cells loop; and the number that is shown, if not the same.
#[derive(Clone, Copy)]
pub struct Parts {
    pub notes: &'static [(usize, Claimed)],
    pub loops: &'static [&'static str],
    pub shown: Option<i64>,
}

/// The note of this number.
fn note(c: &Cert, at: usize) -> Result<&(Key, Outcome), Fail> {
    match c.notes.get(at) {
        Some(note) => Ok(note),
        None => Err("no note".into()),
    }
}

/// The outcome that is claimed of the note of this number.
fn outcome(c: &Cert, at: usize, claimed: Claimed) -> Result<Outcome, Fail> {
    match claimed {
        Claimed::Own => Ok(note(c, at)?.1.share()?),
        Claimed::Number(n) => Ok(Outcome::Value(number(n))),
        Claimed::Of(other) => Ok(note(c, other)?.1.share()?),
    }
}

/// The number, or else what the certificate says.
fn shown_by(c: &Cert, other: Option<i64>) -> Result<Shown, NoMemory> {
    match other {
        Some(n) => Ok(Shown::Value(Scalar::Int(n))),
        None => match &c.shown {
            Shown::Cycle => Ok(Shown::Cycle),
            Shown::Value(x) => Ok(Shown::Value(x.share()?)),
        },
    }
}

/// Puts a note at the end.
fn put_note(
    notes: &mut Vec<(Key, Outcome)>,
    from: &Cert,
    at: usize,
    claimed: Claimed,
) -> Result<(), Fail> {
    if notes.len() >= MOST {
        return Err("too many notes".into());
    }
    notes.push((note(from, at)?.0.share()?, outcome(from, at, claimed)?))?;
    Ok(())
}

/// These notes.
fn notes_of(
    alloc: Global,
    from: &Cert,
    which: &[(usize, Claimed)],
) -> Result<Vec<(Key, Outcome)>, Fail> {
    let mut notes = Vec::new(alloc);
    for (at, claimed) in which {
        put_note(&mut notes, from, *at, *claimed)?;
    }
    Ok(notes)
}

/// The keys of these cells.
fn loops_of(alloc: Global, names: &[&str]) -> Result<Vec<Key>, Fail> {
    let mut loops = Vec::new(alloc);
    for name in names {
        if loops.len() >= MOST {
            return Err("too many loops".into());
        }
        loops.push(Key::Cell(Env::Top, address(name)?))?;
    }
    Ok(loops)
}

/// The certificate of these parts.
pub fn of_parts(alloc: Global, from: &Cert, parts: &Parts) -> Result<Cert, Fail> {
    let notes = notes_of(alloc, from, parts.notes)?;
    let loops = loops_of(alloc, parts.loops)?;
    if notes.len() >= MOST || loops.len() >= MOST {
        return Err("too many parts".into());
    }
    Ok(Cert::new(notes, loops, shown_by(from, parts.shown)?))
}
