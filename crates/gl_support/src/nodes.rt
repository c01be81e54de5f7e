//! Keys by numbers.
ghost use Rattle.std.specs.Prelude.{◌≡◌, true, [], map, length, IfOk, OnOk};
ghost use Rattle.std.specs.List.{AllZip};
ghost use Rattle.indexmap.specs.IndexSet.{insert_all, insert_key, IsUnique};
ghost use Rattle.gl_support.specs.Nodes.{marked_keys};

use crate::triple::{Triple, another, push_another};
use gl_plane::{NoMemory, Share};
use indexmap::IndexSet;
use std::alloc::Global;
use std::hash::Hash;

/// Gives the key the next number, if no equal key has one.
fn add_node<K: Share + Hash + Drop>(nodes: &mut IndexSet<K>, k: &K) -> Result<(), NoMemory>
    ensures keys { OnOk result (
        (x : K)
        × (K.eq k.now x ≡ true)
        × (nodes.new.keys ≡ insert_key K.eq nodes.old.keys x)) }
    ensures unique { OnOk result (IsUnique K.eq nodes.new) }
{
    nodes.insert(another(k)?)?;
    Ok(())
}

/// The keys of the triples, each once, in the order of adding. A key's number is its place.
pub fn nodes_of<K: Share + Hash + Drop, A>(
    alloc: Global,
    triples: &[Triple<K, A>],
) -> Result<IndexSet<K>, NoMemory>
    ensures keys { IfOk result (λ s.
        AllZip (λ x y. K.eq x y ≡ true) (insert_all K.eq [] (map (λ t. t.by) triples.now)) s.keys) }
    ensures unique { IfOk result (IsUnique K.eq) }
{
    let mut nodes = IndexSet::new(alloc);
    for t in triples {
        add_node(&mut nodes, &t.by)?;
    }
    Ok(nodes)
}

/// Second owners of the marked keys.
pub fn picked<K: Share + Drop>(
    alloc: Global,
    keys: &[K],
    marks: &[bool],
) -> Result<Vec<K>, NoMemory>
    requires { length marks.now ≡ length keys.now }
    ensures { IfOk result (λ v.
        AllZip (λ x y. K.eq x y ≡ true) (marked_keys marks.now keys.now) v.items) }
{
    let mut found = Vec::new(alloc);
    for (i, k) in keys.iter().enumerate() {
        if marks[i] {
            push_another(&mut found, k)?;
        }
    }
    Ok(found)
}
