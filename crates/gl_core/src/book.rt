//! Keys by numbers.
ghost use Rattle.std.specs.Prelude.{◌≡◌, ◌<◌, ◌^◌, ◌⊎◌, [], Some, None, IsTrue, List, length};
ghost use Rattle.std.specs.Prelude.{slice_get, OnErr, IfOk};
ghost use Rattle.gl_calculus.specs.Computation.Lists.{Member};
ghost use Rattle.std.specs.Coded.{codes};
ghost use Rattle.gl_machine.specs.Codes.{coded_key};
ghost use Rattle.gl_calculus.specs.Evaluation.Sound.{is_sound_key};
ghost use Rattle.gl_calculus.specs.Evaluation.Key as K;
ghost use Rattle.gl_intern.specs.Numbered.{seconds};
ghost use Rattle.gl_demand.specs.View.{key_tree};
ghost use Rattle.gl_core.specs.Numbers.{IsNumber, AreBooked, GetsNumber, Grows};
ghost use Rattle.gl_core.specs.{Shorts.key_pairs, Shorts.IsShort, Words.HasWords, Words.key_word};

use crate::guesses::{
    copy_word, guess, guessed_parent, own_word, remember, remember_frame, replace,
};
use crate::placing::{find_place, frame_of, place_key};
use crate::short::{Short, find_short};
use gl_cells::Hint;
use gl_demand::Key;
use gl_intern::Interner;
use gl_plane::NoMemory;
use gl_value::Env;
use indexmap::IndexMap;
use std::alloc::Global;
use std::marker::Model;

/// Keys, each once, seen as a list of plain keys. A key's number is its place in the list, and
/// never changes. The keys stand beside their short forms, by which they are looked up. The number of
/// a key in a copy is guessed first, by its word: that takes one comparison in place of a walk, and
/// none where no key has the word.
pub struct Book {
    interner: Interner,
    keys: IndexMap<Short, Key>,
    // by the words of all keys in copies, which other keys may have as well
    guesses: IndexMap<u64, u32>,
    // the numbers of frames, by their words
    frames: IndexMap<u64, u32>,
}

// One call wherever it is dropped, in place of one for each part.
impl Drop for Book {
    fn drop(self) {
        let Book {
            interner,
            keys,
            guesses,
            frames,
        } = self;
        drop(interner);
        drop(keys);
        drop(guesses);
        drop(frames);
    }
}

impl Model for Book {
    ghost Value = { List K.Key };

    ghost coded = { Prim.hlevel (codes, coded_key) };

    ghost view = { λ b. seconds (key_pairs b.keys.entries) };

    ghost invariant = { λ b. IsShort b.interner (key_pairs b.keys.entries)
        × HasWords b.guesses.entries (seconds (key_pairs b.keys.entries)) };
}

/// The place of a key, by what frames are remembered. The number of its frame is remembered too.
fn place_anew(
    interner: &mut Interner,
    keys: &mut IndexMap<Short, Key>,
    frames: &mut IndexMap<u64, u32>,
    key: Key,
) -> Result<u32, NoMemory>
    requires short { IsShort interner.old (key_pairs keys.old.entries) }
    requires sound { IsTrue (is_sound_key (key_tree key)) }
    ensures short { IsShort interner.new (key_pairs keys.new.entries) }
    ensures number { IfOk result
        (λ n. slice_get (seconds (key_pairs keys.new.entries)) n ≡ Some (key_tree key)) }
    ensures grows { Grows (seconds (key_pairs keys.old.entries))
        (seconds (key_pairs keys.new.entries)) }
    ensures members { (k : K.Key) → Member k (seconds (key_pairs keys.new.entries))
        → Member k (seconds (key_pairs keys.old.entries)) ⊎ (k ≡ key_tree key) }
    ensures err { OnErr result (keys.new.entries ≡ keys.old.entries) }
{
    let frame = own_word(&key);
    let parent = guessed_parent(frames, &key);
    let n = place_key(interner, keys, key, parent)?;
    remember_frame(frames, frame, frame_of(keys, n));
    Ok(n)
}

/// The key is that of a cell of the sheet.
pub fn is_top(key: &Key) -> bool {
    match key {
        Key::Cell(Env::Top, _) => true,
        Key::Cell(Env::In(_, _), _) => false,
        Key::Settle(_) => false,
    }
}

impl Book {
    /// No key. It takes no memory yet.
    pub fn new(alloc: Global) -> Book
        ensures empty { result ≡ [] }
        ensures booked { AreBooked result }
    {
        Book {
            interner: Interner::new(alloc),
            keys: IndexMap::new(alloc),
            guesses: IndexMap::new(alloc),
            frames: IndexMap::new(alloc),
        }
    }

    /// How many keys have numbers.
    pub fn len(&self) -> usize
        ensures count { result ≡ length self.now }
        ensures booked { AreBooked self.now }
    {
        self.keys.len()
    }

    /// The number of a key: `None` exactly where it has none.
    pub fn find(&self, key: &Key) -> Option<u32>
        ensures { IsNumber self.now (key_tree key.now) result }
    {
        match copy_word(key) {
            Some(word) => self.find_by_word(word, key),
            None => self.look_up(key),
        }
    }

    /// The number of a key with this word. A word that no key has had belongs to no key.
    fn find_by_word(&self, word: u64, key: &Key) -> Option<u32>
        requires { key_word (key_tree key.now) ≡ Some word }
        ensures { IsNumber self.now (key_tree key.now) result }
    {
        match guess(&self.guesses, word) {
            Some(n) => self.find_by_guess(n, key),
            None => None,
        }
    }

    /// The number of a key that probably has this one.
    fn find_by_guess(&self, n: u32, key: &Key) -> Option<u32>
        ensures { IsNumber self.now (key_tree key.now) result }
    {
        if self.is_at(n as usize, key) {
            Some(n)
        } else {
            self.look_up(key)
        }
    }

    /// The number of a key, where the hint's is tried first. The hint is told.
    pub fn find_near(&self, key: &Key, hint: &mut Hint) -> Option<u32>
        ensures { IsNumber self.now (key_tree key.now) result }
    {
        let found = self.find_likely(hint.place(), key);
        if let Some(n) = found {
            hint.found(n as usize);
        }
        found
    }

    /// The number of a key, which at a cell of the sheet is likely to be this one. In copies a
    /// comparison is a walk, and guesses go by words.
    fn find_likely(&self, n: usize, key: &Key) -> Option<u32>
        ensures { IsNumber self.now (key_tree key.now) result }
    {
        if is_top(key) && self.is_at(n, key) {
            return Some(n as u32);
        }
        self.find(key)
    }

    /// The number of a key by its short form: `None` exactly where it has none.
    fn look_up(&self, key: &Key) -> Option<u32>
        ensures { IsNumber self.now (key_tree key.now) result }
    {
        match find_short(&self.interner, key) {
            Some(short) => find_place(&self.keys, short),
            None => None,
        }
    }

    /// The number of a key, which gets one where it has none. After `NoMemory` the keys are as
    /// before.
    pub fn number(&mut self, key: Key) -> Result<u32, NoMemory>
        requires { IsTrue (is_sound_key (key_tree key)) }
        ensures { GetsNumber (key_tree key) self.old result self.new }
    {
        match copy_word(&key) {
            Some(word) => self.number_by_word(word, key),
            None => self.number_by_form(key),
        }
    }

    /// The number of a key without word.
    fn number_by_form(&mut self, key: Key) -> Result<u32, NoMemory>
        requires sound { IsTrue (is_sound_key (key_tree key)) }
        requires word { key_word (key_tree key) ≡ None }
        ensures { GetsNumber (key_tree key) self.old result self.new }
    {
        place_key(&mut self.interner, &mut self.keys, key, None)
    }

    /// The number of a key with this word.
    fn number_by_word(&mut self, word: u64, key: Key) -> Result<u32, NoMemory>
        requires sound { IsTrue (is_sound_key (key_tree key)) }
        requires word { key_word (key_tree key) ≡ Some word }
        ensures { GetsNumber (key_tree key) self.old result self.new }
    {
        match guess(&self.guesses, word) {
            Some(n) => self.number_by_guess(word, n, key),
            None => self.number_anew(word, key),
        }
    }

    /// The number of a key that probably has this one. Else it is guessed the next time, in place of
    /// the other key with its word.
    fn number_by_guess(&mut self, word: u64, n: u32, key: Key) -> Result<u32, NoMemory>
        requires sound { IsTrue (is_sound_key (key_tree key)) }
        requires word { key_word (key_tree key) ≡ Some word }
        ensures { GetsNumber (key_tree key) self.old result self.new }
    {
        if self.is_at(n as usize, &key) {
            return Ok(n);
        }
        self.number_anew(word, key)
    }

    /// The number of a key that was not guessed. Its word is remembered first, so that no key is
    /// without it.
    fn number_anew(&mut self, word: u64, key: Key) -> Result<u32, NoMemory>
        requires sound { IsTrue (is_sound_key (key_tree key)) }
        requires word { key_word (key_tree key) ≡ Some word }
        ensures { GetsNumber (key_tree key) self.old result self.new }
    {
        let next = self.keys.len() as u32;
        remember(&mut self.guesses, word, next)?;
        let n = place_anew(&mut self.interner, &mut self.keys, &mut self.frames, key)?;
        replace(&mut self.guesses, word, n);
        Ok(n)
    }

    /// The key with a number.
    pub fn key(&self, n: u32) -> &Key
        requires { n < length self.now }
        ensures { slice_get self.now n ≡ Some (key_tree result.now) }
    {
        let (_, key) = self.keys.get_index(n as usize).unwrap();
        key
    }

    /// The number is that of the key. At a cell of the sheet this is one step.
    pub fn is_at(&self, n: usize, key: &Key) -> bool
        ensures { IsTrue result → (slice_get self.now n ≡ Some (key_tree key.now)) × (n < 2 ^ 32) }
    {
        match self.keys.get_index(n) {
            Some((_, k)) => k == key,
            None => false,
        }
    }
}
