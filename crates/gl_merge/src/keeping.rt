//! Registers: edits in the order of their taking, with an index in the order of their addresses.
ghost use Rattle.std.specs.Prelude.{◌≡◌, ◌+◌, ◌<◌, ◌≤◌, ◌∷◌, [], ◌++◌, slice_get, vec_len};
ghost use Rattle.std.specs.Prelude.{vec_capacity};
ghost use Rattle.std.specs.{List.insert, Option.option_copied};
ghost use Rattle.gl_calculus.specs.Edits.Limits.{max_registers};
ghost use Rattle.gl_calculus.specs.Edits.Replicas.{missing};
ghost use Rattle.gl_merge.specs.Index.{IsIndex, listed, register_in, registers};
ghost use Rattle.gl_merge.specs.Keeping.{CanKeep, HasRoom, Keeps, Replaces};
ghost use Rattle.gl_merge.specs.Edit.{told};

use crate::Edit;
use crate::index::{Spot, spot_of};
use gl_plane::Addr;

/// A register, by its place in the order of addresses.
pub(crate) fn register<'a>(edits: &'a [Edit], index: &[(Addr, u32)], i: usize) -> Option<&'a Edit>
    requires { IsIndex edits.now index.now }
    ensures { option_copied result ≡ slice_get (listed edits.now index.now) i }
{
    match index.get(i) {
        Some((_, slot)) => edits.get(*slot as usize),
        None => None,
    }
}

/// The register of an address.
pub(crate) fn find<'a>(edits: &'a [Edit], index: &[(Addr, u32)], a: Addr) -> Option<&'a Edit>
    requires { IsIndex edits.now index.now }
    ensures { told result ≡ register_in edits.now index.now a }
{
    match spot_of(index, a) {
        Spot::Found(i) => register(edits, index, i),
        Spot::Gap(_) => None,
    }
}

/// How many of these addresses have no register.
pub(crate) fn count_missing(edits: &[Edit], index: &[(Addr, u32)], places: &[Addr]) -> usize
    requires { IsIndex edits.now index.now }
    ensures { result ≡ missing (registers edits.now index.now) places.now }
{
    let mut count = 0;
    for a in places {
        if find(edits, index, *a).is_none() {
            count += 1;
        }
    }
    count
}

/// The later of an edit and the one in a slot stays there.
fn replace(edits: &mut Vec<Edit>, slot: usize, e: Edit)
    requires { slot < vec_len edits.old }
    ensures kept { Replaces edits.old.items slot e edits.new.items }
    ensures len { vec_len edits.new ≡ vec_len edits.old }
    ensures capacity { vec_capacity edits.new ≡ vec_capacity edits.old }
{
    if edits[slot].stamp().is_earlier(e.stamp()) {
        edits[slot] = e;
    }
}

/// An edit of a new address. It takes no memory.
fn add(edits: &mut Vec<Edit>, index: &mut Vec<(Addr, u32)>, i: usize, e: Edit)
    requires i { i ≤ vec_len index.old }
    requires few { vec_len edits.old < max_registers }
    requires room { HasRoom edits.old index.old }
    ensures edits { edits.new.items ≡ edits.old.items ++ e ∷ [] }
    ensures index { index.new.items ≡ insert index.old.items i (e.place, vec_len edits.old) }
    ensures edits_len { vec_len edits.new ≡ vec_len edits.old + 1 }
    ensures index_len { vec_len index.new ≡ vec_len index.old + 1 }
    ensures edits_capacity { vec_capacity edits.new ≡ vec_capacity edits.old }
    ensures index_capacity { vec_capacity index.new ≡ vec_capacity index.old }
{
    let slot = edits.len() as u32;
    let _ = index.insert(i, (e.place(), slot));
    edits.push_reserved(e);
}

/// With an edit. It takes no memory.
pub(crate) fn keep(edits: &mut Vec<Edit>, index: &mut Vec<(Addr, u32)>, e: Edit)
    requires index { IsIndex edits.old.items index.old.items }
    requires room { CanKeep edits.old index.old e }
    ensures { Keeps edits.old index.old e edits.new index.new }
{
    match spot_of(index, e.place()) {
        Spot::Found(i) => replace(edits, index[i].1 as usize, e),
        Spot::Gap(i) => add(edits, index, i, e),
    }
}
