//! The table of results.
ghost use Rattle.std.specs.Prelude.{◌≡◌, [], length, slice_get, option_map};
ghost use Rattle.std.specs.Prelude.{option_copied, OnOk, OnErr};
ghost use Rattle.std.specs.Map.{keys_of, lookup, remove_entry};
ghost use Rattle.std.specs.List.{IsDistinct};
ghost use Rattle.indexmap.specs.IndexMap.{insert_entry};
ghost use Rattle.gl_memo.specs.Notes.{notes_of};

use gl_plane::NoMemory;
use indexmap::IndexMap;
use std::alloc::Global;
use std::hash::Hash;

/// What a key came to, with the keys that it was read from and the places that were looked at.
#[derive(Drop)]
pub struct Noted<K, O, A> {
    pub outcome: O,
    pub reads: Vec<K>,
    pub looked: Vec<A>,
}

/// A table of results, seen as a list of pairs with distinct keys.
pub struct Memo<K: Eq + Hash, O, A> {
    map: IndexMap<K, Noted<K, O, A>>,
}

// One call wherever it is dropped, in place of one for each part.
impl<K: Eq + Hash + Drop, O: Drop, A: Drop> Drop for Memo<K, O, A> {
    fn drop(self) {
        let Memo { map } = self;
        drop(map);
    }
}

impl<K: Eq + Hash + Drop, O: Drop, A: Drop> Memo<K, O, A> {
    /// The empty table. It takes no memory yet.
    pub fn new(alloc: Global) -> Memo<K, O, A>
        ensures { notes_of result ≡ [] }
    {
        Memo {
            map: IndexMap::new(alloc),
        }
    }

    /// Notes a result. A new key goes last; a present one gets the new note in its place.
    pub fn insert(&mut self, k: K, n: Noted<K, O, A>) -> Result<(), NoMemory>
        ensures ok { OnOk result (notes_of self.new ≡ insert_entry K.eq (notes_of self.old) k n) }
        ensures err { OnErr result (notes_of self.new ≡ notes_of self.old) }
    {
        match self.map.insert(k, n) {
            Ok(_) => Ok(()),
            Err(_) => Err(NoMemory),
        }
    }

    /// The note of a key.
    pub fn get(&self, k: &K) -> Option<&Noted<K, O, A>>
        ensures { option_copied result ≡ lookup (K.eq k.now) (notes_of self.now) }
    {
        self.map.get(k)
    }

    /// Takes the note of a key out. The rest keep their order, so the cost is that of the table's
    /// length.
    pub fn remove(&mut self, k: &K) -> Option<Noted<K, O, A>>
        ensures value { result ≡ lookup (K.eq k.now) (notes_of self.old) }
        ensures rest { notes_of self.new ≡ remove_entry (K.eq k.now) (notes_of self.old) }
    {
        self.map.shift_remove(k)
    }

    /// How many notes there are.
    pub fn len(&self) -> usize
        ensures count { result ≡ length (notes_of self.now) }
        ensures distinct { IsDistinct K.eq (keys_of (notes_of self.now)) }
    {
        self.map.len()
    }

    /// The key and the note at a place, from 0.
    pub fn at(&self, i: usize) -> Option<(&K, &Noted<K, O, A>)>
        ensures { option_map (λ p. (p.0.now, p.1.now)) result ≡ slice_get (notes_of self.now) i }
    {
        self.map.get_index(i)
    }
}
