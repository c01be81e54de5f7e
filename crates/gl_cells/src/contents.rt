//! Contents by address: found by hash, listed in row-major order.
ghost use Rattle.std.specs.Prelude.{◌≡◌, ◌<◌, ◌+◌, ◌^◌, ◌++◌, ◌∷◌, [], length, filter, is_some};
ghost use Rattle.std.specs.Prelude.{None, IfSome, IfNone, IsSome, IfOk, OnOk, OnErr};
ghost use Rattle.std.specs.Prelude.{if◌then◌else◌};
ghost use Rattle.std.specs.BTreeMap.{insert_entry, is_at, keys};
ghost use Rattle.std.specs.List.Sorted.{IsStrictlySortedBy};
ghost use Rattle.std.specs.Map.{keys_of, lookup, remove_entry};
ghost use Rattle.std.specs.Option.{option_copied};
ghost use Rattle.gl_calculus.specs.Formulas.Formula.{formula_addresses};
ghost use Rattle.indexmap.specs.IndexMap.{get};
ghost use Rattle.gl_calculus.specs.Grid.Grid.{Addr as Plain, same_addr};
ghost use Rattle.gl_cells.specs.{Search.AtOrAfter};
ghost use Rattle.gl_cells.specs.Listed.{listed, IsListed};
ghost use Rattle.gl_cells.specs.Sheet.{addr_cmp, sheet};

use crate::{Content, Hint};
use gl_plane::{Addr, NoMemory};
use indexmap::IndexMap;
use std::alloc::Global;
use std::collections::BTreeMap;
use std::marker::Model;

/// Contents by address, seen as the list of them in row-major order. A content is found by the hash
/// of its address, since whole ranges are read; the order serves searches, and tells at which
/// addresses the formulas are.
pub struct Contents {
    found: IndexMap<Addr, Content>,
    order: BTreeMap<Addr, bool>,
}

// One call wherever it is dropped, in place of one for each part.
impl Drop for Contents {
    fn drop(self) {
        let Contents { found, order } = self;
    }
}

impl Model for Contents {
    ghost use Rattle.std.specs.{Coded.codes, BTreeMap.keys};
    ghost use Rattle.indexmap.specs.IndexMap.{get};
    ghost use Rattle.gl_ast.specs.contracts.Formula as formula;
    ghost use Rattle.gl_value.specs.contracts.Scalar as scalar;
    ghost use Rattle.gl_calculus.specs.Grid.Grid.{same_addr};
    ghost use Rattle.gl_cells.specs.{Sheet.Table, Listed.listed, Listed.IsListed};

    ghost Value = { Table };

    ghost coded = { Prim.hlevel (codes, scalar.the_row.coded, formula.the_row.coded) };

    ghost view = { λ a. listed (get same_addr a.found) (keys a.order) };

    ghost invariant = { λ a. IsListed (get same_addr a.found) a.order.entries };
}

/// Appends an address, if it holds a formula.
fn push_formula(places: &mut Vec<Addr>, a: Addr, formula: bool) -> Result<(), NoMemory>
    ensures { OnOk result (
        places.new.items ≡ places.old.items ++ keys_of (filter (λ k. k.1) ((a, formula) ∷ []))) }
{
    if !formula {
        return Ok(());
    }
    match places.push(a) {
        Ok(()) => Ok(()),
        Err(_) => Err(NoMemory),
    }
}

/// The addresses of the order that hold a formula.
fn formulas_in(alloc: Global, order: &BTreeMap<Addr, bool>) -> Result<Vec<Addr>, NoMemory>
    ensures { IfOk result (λ v. v.items ≡ keys_of (filter (λ k. k.1) order.now.entries)) }
{
    let mut places = Vec::new(alloc);
    for (a, formula) in order {
        push_formula(&mut places, *a, *formula)?;
    }
    Ok(places)
}

/// Puts a content, and answers the one before. Only a new address takes memory.
fn insert_in(
    found: &mut IndexMap<Addr, Content>,
    order: &mut BTreeMap<Addr, bool>,
    a: Addr,
    c: Content,
) -> Result<Option<Content>, NoMemory>
    requires listed { IsListed (get same_addr found.old) order.old.entries }
    ensures listed { IsListed (get same_addr found.new) order.new.entries }
    ensures old { IfOk result (λ was. was ≡ get same_addr found.old a) }
    ensures entries { OnOk result (listed (get same_addr found.new) (keys order.new)
        ≡ insert_entry addr_cmp (listed (get same_addr found.old) (keys order.old)) a c) }
    ensures absent { OnErr result (get same_addr found.old a ≡ None) }
    ensures err { OnErr result (listed (get same_addr found.new) (keys order.new)
        ≡ listed (get same_addr found.old) (keys order.old)) }
{
    let formula = c.is_formula();
    let Ok(was) = found.insert(a, c) else {
        return Err(NoMemory);
    };
    match order.insert(a, formula) {
        Ok(_) => Ok(was),
        Err(_) => {
            let _ = found.swap_remove(&a);
            Err(NoMemory)
        }
    }
}

impl Contents {
    /// No contents. They take no memory yet.
    pub fn new(alloc: Global) -> Contents
        ensures { result ≡ [] }
    {
        Contents {
            found: IndexMap::new(alloc),
            order: BTreeMap::new(alloc),
        }
    }

    /// The content of an address.
    pub fn get(&self, a: Addr) -> Option<&Content>
        ensures value { option_copied result ≡ lookup (is_at (addr_cmp a)) self.now }
    {
        self.found.get(&a)
    }

    /// The same, looked for where the hint says before it is looked for by its hash.
    pub fn get_near(&self, a: Addr, hint: &mut Hint) -> Option<&Content>
        ensures value { option_copied result ≡ lookup (is_at (addr_cmp a)) self.now }
    {
        let place = hint.place();
        if let Some((b, content)) = self.found.get_index(place) {
            if *b == a {
                hint.found(place);
                return Some(content);
            }
        }
        self.search(a, hint)
    }

    /// The same by its hash; the hint is told where it stands. A function of its own, so that
    /// `get_near` is short enough to become part of its callers' loops.
    #[cold]
    fn search(&self, a: Addr, hint: &mut Hint) -> Option<&Content>
        ensures value { option_copied result ≡ lookup (is_at (addr_cmp a)) self.now }
    {
        match self.found.get_full(&a) {
            Some((place, _, content)) => {
                hint.found(place);
                Some(content)
            }
            None => None,
        }
    }

    /// How many there are.
    pub fn len(&self) -> usize
        ensures len { result ≡ length self.now }
        ensures small { result < 2 ^ 63 }
    {
        self.order.len()
    }

    /// The first address from `from` on that holds a content.
    #[tactic(auto, using(crate::proofs::Order::orders))]
    pub fn first_from(&self, from: Addr) -> Option<Addr>
        ensures found { IfSome result (λ a.
            AtOrAfter from a × IsSome (lookup (is_at (addr_cmp a)) self.now)) }
        ensures least { IfSome result (λ a.
            (q : Plain)
            → AtOrAfter from q
            → IsSome (lookup (is_at (addr_cmp q)) self.now)
            → AtOrAfter a q) }
        ensures none { IfNone result
            ((q : Plain) → AtOrAfter from q → lookup (is_at (addr_cmp q)) self.now ≡ None) }
    {
        let mut rest = self.order.range(from..);
        match rest.next() {
            Some((a, _)) => Some(*a),
            None => None,
        }
    }

    /// The addresses that hold a formula, in row-major order.
    pub fn formula_addresses(&self, alloc: Global) -> Result<Vec<Addr>, NoMemory>
        ensures { IfOk result (λ v. v.items ≡ formula_addresses (sheet self.now)) }
    {
        formulas_in(alloc, &self.order)
    }

    /// Puts a content, and answers the one before. Only a new address takes memory.
    pub fn insert(&mut self, a: Addr, c: Content) -> Result<Option<Content>, NoMemory>
        ensures old { IfOk result (λ was. was ≡ lookup (is_at (addr_cmp a)) self.old) }
        ensures entries { OnOk result (self.new ≡ insert_entry addr_cmp self.old a c) }
        ensures absent { OnErr result (lookup (is_at (addr_cmp a)) self.old ≡ None) }
        ensures err { OnErr result (self.new ≡ self.old) }
        ensures ordered { IsStrictlySortedBy addr_cmp (keys_of self.new) }
    {
        insert_in(&mut self.found, &mut self.order, a, c)
    }

    /// Removes a content, and answers it. It takes no memory.
    pub fn remove(&mut self, a: Addr) -> Option<Content>
        ensures value { result ≡ lookup (is_at (addr_cmp a)) self.old }
        ensures entries { self.new ≡ remove_entry (is_at (addr_cmp a)) self.old }
        ensures others { (q : Plain)
            → lookup (is_at (addr_cmp q)) self.new
            ≡ (if is_at (addr_cmp a) q then None else lookup (is_at (addr_cmp q)) self.old) }
        ensures len { length self.new + (if is_some result then 1 else 0) ≡ length self.old }
        ensures ordered { IsStrictlySortedBy addr_cmp (keys_of self.new) }
    {
        self.order.remove(&a);
        self.found.swap_remove(&a)
    }
}
