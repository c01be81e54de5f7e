//! The words of keys in copies, by which their numbers are guessed. Equal keys have equal words; so
//! a key whose word is new is new, and another guess is checked.
ghost use Rattle.std.specs.Prelude.{◌≡◌, ℕ, IfNone, IfOk};
ghost use Rattle.gl_value.specs.View.{sheet_tree, frame_tree};
ghost use Rattle.gl_demand.specs.View.{key_tree};
ghost use Rattle.gl_core.specs.Words.{HasWord, key_word, cell_word, frame_word, sheet_word};

use gl_demand::{Key, level_word, oracle_word};
use gl_plane::{Addr, NoMemory, address_word, mixed};
use gl_value::{Env, SheetVal};
use indexmap::IndexMap;

/// The number that is remembered for a word.
pub fn guess(guesses: &IndexMap<u64, u32>, word: u64) -> Option<u32>
    ensures { IfNone result (HasWord guesses.now.entries word → ⊥) }
{
    guesses.get(&word).copied()
}

/// A number for a word, which may be new.
pub fn remember(guesses: &mut IndexMap<u64, u32>, word: u64, n: u32) -> Result<(), NoMemory>
    ensures has { IfOk result (λ _. HasWord guesses.new.entries word) }
    ensures keeps { (u : ℕ) → HasWord guesses.old.entries u → HasWord guesses.new.entries u }
{
    match guesses.insert(word, n) {
        Ok(_) => Ok(()),
        Err(_) => Err(NoMemory),
    }
}

/// Another number for a word that has one.
pub fn replace(guesses: &mut IndexMap<u64, u32>, word: u64, n: u32)
    requires { HasWord guesses.old.entries word }
    ensures keeps { (u : ℕ) → HasWord guesses.old.entries u → HasWord guesses.new.entries u }
{
    match guesses.insert(word, n) {
        Ok(_) => {}
        Err(_) => unreachable!(),
    }
}

/// The word of the frame of a cell in a copy.
pub fn own_word(key: &Key) -> Option<u64> {
    match key {
        Key::Cell(Env::Top, _) => None,
        Key::Cell(e, _) => Some(frame_word(e)),
        Key::Settle(_) => None,
    }
}

/// The number that the parent frame of a key's sheet value probably has.
pub fn guessed_parent(frames: &IndexMap<u64, u32>, key: &Key) -> Option<u32> {
    match key {
        Key::Cell(Env::Top, _) => None,
        Key::Cell(Env::In(s, _), _) => frames.get(&frame_word(&s.env)).copied(),
        Key::Settle(s) => frames.get(&frame_word(&s.env)).copied(),
    }
}

/// The number of a frame, to be guessed the next time if there is memory for it.
pub fn remember_frame(frames: &mut IndexMap<u64, u32>, word: Option<u64>, n: Option<u32>) {
    if let (Some(word), Some(n)) = (word, n) {
        let _ = frames.insert(word, n);
    }
}

/// The word of a key in a copy. A cell of the sheet itself is told apart in one step, and needs none.
#[tactic(auto, using(gl_value::specs::Forms::trees))]
pub fn copy_word(key: &Key) -> Option<u64>
    ensures { result ≡ key_word (key_tree key.now) }
{
    match key {
        Key::Cell(e, a) => cell_word(e, *a),
        Key::Settle(s) => Some(sheet_word(s)),
    }
}

#[tactic(auto, using(gl_value::specs::Forms::trees))]
fn cell_word(e: &Env, a: Addr) -> Option<u64>
    ensures { result ≡ cell_word (frame_tree e.now) a }
{
    match e {
        Env::Top => None,
        Env::In(_, _) => Some(mixed(frame_word(e), address_word(a))),
    }
}

#[cycle(words)]
#[tactic(auto, using(gl_value::specs::Forms::trees))]
fn frame_word(e: &Env) -> u64
    ensures { result ≡ frame_word (frame_tree e.now) }
{
    match e {
        Env::Top => 0,
        Env::In(s, oracle) => mixed(sheet_word(s), oracle_word(oracle)),
    }
}

#[cycle(words)]
fn sheet_word(s: &SheetVal) -> u64
    ensures { result ≡ sheet_word (sheet_tree s.now) }
{
    mixed(frame_word(&s.env), level_word(s.weight, &s.overrides))
}
