//! What is known of one key.
ghost use Rattle.std.specs.Prelude.{◌≡◌, ◌∷◌, ◌++◌, [], true, IfOk, OnOk};
ghost use Rattle.std.specs.List.{AllZip};

use gl_plane::{NoMemory, Share};
use std::alloc::Global;

/// A key with the keys that it read and the places that it looked at.
#[derive(Drop)]
pub struct Triple<K, A> {
    pub by: K,
    pub reads: Vec<K>,
    pub looked: Vec<A>,
}

/// A second owner of an equal key.
pub fn another<K: Share>(k: &K) -> Result<K, NoMemory>
    ensures { IfOk result (λ x. K.eq k.now x ≡ true) }
{
    k.share()
}

/// Adds a second owner of an equal key at the end.
pub fn push_another<K: Share + Drop>(keys: &mut Vec<K>, k: &K) -> Result<(), NoMemory>
    ensures { OnOk result (
        (x : K) × (K.eq k.now x ≡ true) × (keys.new.items ≡ keys.old.items ++ x ∷ [])) }
{
    keys.push(another(k)?)?;
    Ok(())
}

/// Second owners of equal keys, in their order.
pub fn others<K: Share + Drop>(alloc: Global, keys: &[K]) -> Result<Vec<K>, NoMemory>
    ensures { IfOk result (λ v. AllZip (λ x y. K.eq x y ≡ true) keys.now v.items) }
{
    let mut all = Vec::new(alloc);
    for k in keys {
        push_another(&mut all, k)?;
    }
    Ok(all)
}
