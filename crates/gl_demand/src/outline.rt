//! Words of bounded parts of keys, by which tables find them. Equal keys have equal words, and each
//! word takes the same time however much a sheet value holds.
ghost use Rattle.std.specs.Prelude.{◌≡◌, ◌-◌, Some, length, map, slice_get};
ghost use Rattle.gl_value.specs.View.{scalar_tree, value_tree, array_tree, sheet_tree, frame_tree};
ghost use Rattle.gl_demand.specs.Outline.{plain_override, scalar_word, value_word, override_word};
ghost use Rattle.gl_demand.specs.Outline.{level_word, entry_word, oracle_word, range_word};
ghost use Rattle.gl_demand.specs.Outline.{frame_level, sheet_outline, frame_outline, key_outline};
ghost use Rattle.gl_demand.specs.View.{key_tree};

use crate::Key;
use gl_plane::{Addr, Entry, Oracle, Range, address_word, mixed};
use gl_value::{Array, Env, Scalar, SheetVal, Value};

/// The word of a key, by which tables of keys find it.
pub fn key_outline(key: &Key) -> u64
    ensures { result ≡ key_outline (key_tree key.now) }
{
    match key {
        Key::Cell(e, a) => mixed(frame_outline(e), address_word(*a)),
        Key::Settle(s) => sheet_outline(s),
    }
}

#[tactic(auto, using(gl_value::specs::Forms::trees))]
fn frame_outline(e: &Env) -> u64
    ensures { result ≡ frame_outline (frame_tree e.now) }
{
    match e {
        Env::Top => 0,
        Env::In(s, oracle) => mixed(sheet_outline(s), oracle_word(oracle)),
    }
}

/// Of a sheet value: the level of its frame, its own, and its region.
fn sheet_outline(s: &SheetVal) -> u64
    ensures { result ≡ sheet_outline (sheet_tree s.now) }
{
    let levels = mixed(frame_level(&s.env), own_level(s));
    mixed(levels, range_word(&s.region))
}

/// Of the level of a frame alone, without those outward.
#[tactic(auto, using(gl_value::specs::Forms::trees))]
fn frame_level(e: &Env) -> u64
    ensures { result ≡ frame_level (frame_tree e.now) }
{
    match e {
        Env::Top => 0,
        Env::In(s, _) => own_level(s),
    }
}

fn own_level(s: &SheetVal) -> u64
    ensures { result ≡ level_word s.now.weight (map plain_override s.now.overrides.items) }
{
    level_word(s.weight, &s.overrides)
}

fn range_word(r: &Range) -> u64
    ensures { result ≡ range_word r.now }
{
    mixed(address_word(r.first()), address_word(r.last()))
}

/// Of one level: its weight, and its first and last overrides.
pub fn level_word(weight: u32, overrides: &[(Addr, Value)]) -> u64
    ensures { result ≡ level_word weight (map plain_override overrides.now) }
{
    let first = first_word(overrides);
    let last = last_word(overrides);
    mixed(mixed(u64::from(weight), first), last)
}

fn first_word(overrides: &[(Addr, Value)]) -> u64
    ensures { result ≡ override_word (slice_get (map plain_override overrides.now) 0) }
{
    match overrides.first() {
        Some(o) => override_word(o),
        None => 0,
    }
}

fn last_word(overrides: &[(Addr, Value)]) -> u64
    ensures { result
        ≡ override_word
        (slice_get (map plain_override overrides.now)
        (length (map plain_override overrides.now) - 1)) }
{
    match overrides.last() {
        Some(o) => override_word(o),
        None => 0,
    }
}

fn override_word(o: &(Addr, Value)) -> u64
    ensures { result ≡ override_word (Some (plain_override o.now)) }
{
    mixed(address_word(o.0), value_word(&o.1))
}

#[tactic(auto, using(gl_value::specs::Forms::trees))]
fn value_word(value: &Value) -> u64
    ensures { result ≡ value_word (value_tree value.now) }
{
    match value {
        Value::One(x) => scalar_word(x),
        Value::Array(a) => array_word(a),
    }
}

fn array_word(a: &Array) -> u64
    ensures { result ≡ value_word (array_tree a.now) }
{
    2
}

/// Of an integer itself, and of another value its kind.
#[tactic(auto, using(gl_value::specs::Forms::trees))]
fn scalar_word(x: &Scalar) -> u64
    ensures { result ≡ scalar_word (scalar_tree x.now) }
{
    match x {
        Scalar::Int(n) => n.unsigned_abs(),
        Scalar::Blank => 1,
        Scalar::Bool(_) => 1,
        Scalar::Text(_) => 1,
        Scalar::Err(_) => 1,
        Scalar::Sheet(_) => 1,
    }
}

/// Of the count of an oracle's entries, and of the last one.
pub fn oracle_word(oracle: &Oracle) -> u64
    ensures { result ≡ oracle_word oracle.now }
{
    let count = oracle.len();
    match oracle.at(count.saturating_sub(1)) {
        Some(entry) => entry_word(count as u64, entry),
        None => 0,
    }
}

fn entry_word(count: u64, entry: Entry) -> u64
    ensures { result ≡ entry_word count (Some entry) }
{
    let size = u64::from(entry.size.rows()) * 65536 + u64::from(entry.size.cols());
    mixed(mixed(count, address_word(entry.root)), size)
}
