//! The keys that looked at what changed, as marks of their numbers.
ghost use Rattle.std.specs.Prelude.{◌≡◌, ◌||◌, ◌&&◌, ℕ, IfOk, vec_len};
ghost use Rattle.std.specs.List.{list_any};
ghost use Rattle.indexmap.specs.IndexSet.{index_set_len};
ghost use Rattle.gl_support.specs.{Affected.is_touched, Nodes.stands_at, Reach.is_marked};

use crate::site::{Site, touch};
use crate::triple::Triple;
use gl_plane::{NoMemory, Share};
use indexmap::IndexSet;
use std::alloc::Global;
use std::hash::Hash;

/// Marks the number of a key, where it has one.
fn mark_key<K: Share + Hash + Drop>(nodes: &IndexSet<K>, seeds: &mut Vec<bool>, k: &K)
    requires { vec_len seeds.old ≡ index_set_len nodes.now }
    ensures seeds { (c : ℕ)
        → is_marked seeds.new.items c
        ≡ (is_marked seeds.old.items c || stands_at K.eq nodes.now.keys k.now c) }
    ensures size { vec_len seeds.new ≡ vec_len seeds.old }
{
    if let Some(b) = nodes.get_index_of(k) {
        seeds[b] = true;
    }
}

/// Marks the key of one triple, where one of its places is touched.
fn add_seed<K: Share + Hash + Drop, A: Site>(
    nodes: &IndexSet<K>,
    seeds: &mut Vec<bool>,
    t: &Triple<K, A>,
    changed: &[A],
)
    requires { vec_len seeds.old ≡ index_set_len nodes.now }
    ensures seeds { (c : ℕ)
        → is_marked seeds.new.items c
        ≡ (is_marked seeds.old.items c
        || (is_touched A.touches t.now.looked.items changed.now
        && stands_at K.eq nodes.now.keys t.now.by c)) }
    ensures size { vec_len seeds.new ≡ vec_len seeds.old }
{
    if touch(&t.looked, changed) {
        mark_key(nodes, seeds, &t.by);
    }
}

/// The seeds of all triples.
pub fn seeds_of<K: Share + Hash + Drop, A: Site>(
    alloc: Global,
    nodes: &IndexSet<K>,
    triples: &[Triple<K, A>],
    changed: &[A],
) -> Result<Vec<bool>, NoMemory>
    ensures seeds { IfOk result (λ m.
        (c : ℕ)
        → is_marked m.items c
        ≡ list_any
        (λ t.
        is_touched A.touches t.looked.items changed.now && stands_at K.eq nodes.now.keys t.by c)
        triples.now) }
    ensures size { IfOk result (λ m. vec_len m ≡ index_set_len nodes.now) }
{
    let mut seeds = vec![in alloc; false; nodes.len()]?;
    for t in triples {
        add_seed(nodes, &mut seeds, t, changed);
    }
    Ok(seeds)
}
