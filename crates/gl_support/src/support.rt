//! The keys with what they read and looked at.
ghost use Rattle.std.specs.Prelude.{◌≡◌, ◌∷◌, ◌++◌, [], true, List, map, OnOk, OnErr, IfOk};
ghost use Rattle.std.specs.Prelude.{vec_len};
ghost use Rattle.std.specs.List.{AllZip};
ghost use Rattle.indexmap.specs.IndexSet.{index_set_len};
ghost use Rattle.gl_support.specs.{Affected.AreAffected, Triples.plain_triple, Triples.triples_of};
ghost use Rattle.gl_support.specs.{Marks.AreLeast};

use crate::edges::edges_of;
use crate::nodes::{nodes_of, picked};
use crate::reach::reached;
use crate::seeds::seeds_of;
use crate::site::Site;
use crate::triple::{Triple, others};
use gl_plane::{NoMemory, Share};
use indexmap::IndexSet;
use std::alloc::Global;
use std::hash::Hash;

/// The triples of a key, the keys that it read and the places that it looked at, in the order of
/// adding.
#[derive(Drop)]
pub struct Support<K, A> {
    triples: Vec<Triple<K, A>>,
}

impl<K: Share + Hash + Drop, A: Site + Copy> Support<K, A> {
    /// No triple. It takes no memory yet.
    pub fn new(alloc: Global) -> Support<K, A>
        ensures { triples_of result ≡ [] }
    {
        Support {
            triples: Vec::new(alloc),
        }
    }

    /// Adds the triple of `by`, with keys that are equal to those that it read. It goes last.
    pub fn add(&mut self, alloc: Global, by: K, reads: &[K], looked: &[A]) -> Result<(), NoMemory>
        ensures ok { OnOk result (
            (rs : List K)
            × (AllZip (λ x y. K.eq x y ≡ true) reads.now rs)
            × (triples_of self.new
            ≡ triples_of self.old ++ record { by = by; reads = rs; looked = looked.now } ∷ [])) }
        ensures err { OnErr result (triples_of self.new ≡ triples_of self.old) }
    {
        let looked = Vec::from_slice(alloc, looked)?;
        let reads = others(alloc, reads)?;
        self.triples.push(Triple { by, reads, looked })?;
        Ok(())
    }

    /// The keys that a change of these places may affect: the least set that holds each key one of
    /// whose places is touched, and each key that read a member. In the order of adding, each once.
    ///
    /// The time is that of what was added, and of each place that was looked at with each changed
    /// one: hand over few large places rather than many small ones.
    pub fn affected(&self, alloc: Global, changed: &[A]) -> Result<Vec<K>, NoMemory>
        ensures { IfOk result (λ v.
            AreAffected K.eq A.touches (triples_of self.now) changed.now v.items) }
    {
        affected_by(alloc, &self.triples, changed)
    }
}

fn affected_by<K: Share + Hash + Drop, A: Site>(
    alloc: Global,
    triples: &[Triple<K, A>],
    changed: &[A],
) -> Result<Vec<K>, NoMemory>
    ensures { IfOk result (λ v.
        AreAffected K.eq A.touches (map plain_triple triples.now) changed.now v.items) }
{
    let nodes = nodes_of(alloc, triples)?;
    let marks = marks_of(alloc, &nodes, triples, changed)?;
    picked(alloc, nodes.as_slice(), &marks)
}

/// Marks the numbers of the keys that the change may affect.
fn marks_of<K: Share + Hash + Drop, A: Site>(
    alloc: Global,
    nodes: &IndexSet<K>,
    triples: &[Triple<K, A>],
    changed: &[A],
) -> Result<Vec<bool>, NoMemory>
    ensures least { IfOk result (λ m.
        AreLeast
        K.eq
        A.touches
        nodes.now.keys
        (map plain_triple triples.now)
        changed.now
        m.items) }
    ensures size { IfOk result (λ m. vec_len m ≡ index_set_len nodes.now) }
{
    let edges = edges_of(alloc, nodes, triples)?;
    let seeds = seeds_of(alloc, nodes, triples, changed)?;
    Ok(reached(alloc, &edges, seeds)?)
}
