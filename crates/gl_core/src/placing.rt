//! The places of keys by their short forms.
ghost use Rattle.std.specs.Prelude.{◌≡◌, ◌<◌, ◌^◌, ◌⊎◌, Some, None, IsTrue, length, position};
ghost use Rattle.std.specs.Prelude.{slice_get, OnOk, OnErr, IfOk};
ghost use Rattle.gl_calculus.specs.Computation.Lists.{Member};
ghost use Rattle.gl_calculus.specs.Evaluation.Sound.{is_sound_key};
ghost use Rattle.gl_calculus.specs.Evaluation.Key as K;
ghost use Rattle.gl_demand.specs.View.{key_tree};
ghost use Rattle.gl_intern.specs.Numbered.{firsts, seconds, put_pair};
ghost use Rattle.gl_core.specs.{Numbers.Grows, Shorts.key_pairs, Shorts.IsShort};
ghost use Rattle.gl_core.specs.{contracts.short.ShortPartialEq.TheImpl.ghosts as form};

use crate::short::{Short, short_form};
use gl_demand::Key;
use gl_intern::Interner;
use gl_plane::NoMemory;
use indexmap::IndexMap;

/// The most keys of a book.
const MOST: usize = 4_000_000_000;

/// The place of a key, which goes last where it is new. The guess is the number of the parent frame
/// of its sheet value.
pub fn place_key(
    interner: &mut Interner,
    keys: &mut IndexMap<Short, Key>,
    key: Key,
    parent: Option<u32>,
) -> Result<u32, NoMemory>
    requires short { IsShort interner.old (key_pairs keys.old.entries) }
    requires sound { IsTrue (is_sound_key (key_tree key)) }
    ensures short { IsShort interner.new (key_pairs keys.new.entries) }
    ensures number { IfOk result
        (λ n. slice_get (seconds (key_pairs keys.new.entries)) n ≡ Some (key_tree key)) }
    ensures grows { Grows (seconds (key_pairs keys.old.entries))
        (seconds (key_pairs keys.new.entries)) }
    ensures members { (k : K.Key) → Member k (seconds (key_pairs keys.new.entries))
        → Member k (seconds (key_pairs keys.old.entries)) ⊎ (k ≡ key_tree key) }
    ensures err { OnErr result (keys.new.entries ≡ keys.old.entries) }
{
    let short = short_form(interner, &key, parent)?;
    place(keys, short, key)
}

/// The number of a short form: `None` exactly where it has none.
pub fn find_place(keys: &IndexMap<Short, Key>, short: Short) -> Option<u32>
    requires { length keys.now.entries < 2 ^ 32 }
    ensures { result ≡ position (form.eq short) (firsts (key_pairs keys.now.entries)) }
{
    match keys.get_index_of(&short) {
        Some(n) => Some(n as u32),
        None => None,
    }
}

/// The number of a key, by its short form. It goes last where it is new.
fn place(keys: &mut IndexMap<Short, Key>, short: Short, key: Key) -> Result<u32, NoMemory>
    requires { length keys.old.entries < 2 ^ 32 }
    ensures pairs { OnOk result (key_pairs keys.new.entries ≡
        put_pair form.eq (key_pairs keys.old.entries) short (key_tree key)) }
    ensures number { IfOk result
        (λ n. position (form.eq short) (firsts (key_pairs keys.new.entries)) ≡ Some n) }
    ensures err { OnErr result (keys.new.entries ≡ keys.old.entries) }
    ensures few { length keys.new.entries < 2 ^ 32 }
{
    match keys.get_index_of(&short) {
        Some(n) => Ok(n as u32),
        None => push(keys, short, key),
    }
}

/// One more key, which goes last.
fn push(keys: &mut IndexMap<Short, Key>, short: Short, key: Key) -> Result<u32, NoMemory>
    requires few { length keys.old.entries < 2 ^ 32 }
    requires new { position (form.eq short) (firsts (key_pairs keys.old.entries)) ≡ None }
    ensures pairs { OnOk result (key_pairs keys.new.entries ≡
        put_pair form.eq (key_pairs keys.old.entries) short (key_tree key)) }
    ensures number { IfOk result
        (λ n. position (form.eq short) (firsts (key_pairs keys.new.entries)) ≡ Some n) }
    ensures err { OnErr result (keys.new.entries ≡ keys.old.entries) }
    ensures few { length keys.new.entries < 2 ^ 32 }
{
    if keys.len() >= MOST {
        return Err(NoMemory);
    }
    match keys.insert_full(short, key) {
        Ok(found) => Ok(found.0 as u32),
        Err(_) => Err(NoMemory),
    }
}

/// The number of the frame of a key's short form.
pub fn frame_of(keys: &IndexMap<Short, Key>, n: u32) -> Option<u32> {
    match keys.get_index(n as usize) {
        Some((Short::In(frame, _), _)) => u32::try_from(*frame).ok(),
        _ => None,
    }
}
