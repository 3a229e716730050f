// A clause's list in the pool has each literal once, at its first place.

ghost use Rattle.std.specs.Prelude.{◌≡◌, ℕ, length, IfOk, OnErr, IsTrue, None};
ghost use Rattle.std.specs.FinMap as finmap;
ghost use Rattle.lit_pool.specs.Entry.{new_entry};
ghost use Rattle.lits.specs.Clause.{has, set_of};
ghost use Rattle.clause_store.specs.Clauses.{IsOnce, firsts, firsts_behind};
ghost use Rattle.clause_store.specs.Index.{key_of};

use crate::index;
use lit_pool::{Pool, Slot};
use lits::{Lit, LitSet};
use std::alloc::{AllocError, Global};
use std::collections::BTreeSet;

/// Each literal at its first place.
#[tactic(auto, unfolding(crate::specs::Clauses::firsts_behind))]
fn firsts(alloc: Global, lits: &[Lit]) -> Result<Vec<Lit>, AllocError>
    ensures { IfOk result (λ v. v.items ≡ firsts lits.now) }
{
    let mut kept = Vec::new(alloc);
    let mut seen = BTreeSet::new(alloc);
    for l in lits {
        let code = l.code();
        if !seen.contains(&code) {
            if seen.insert(code).is_err() {
                return Err(AllocError);
            }
            kept.push(*l)?;
        }
    }
    Ok(kept)
}

/// Puts a list into the pool, each literal at its first place. The set's size tells whether one stands twice.
fn add_once(alloc: Global, pool: &mut Pool, size: usize, lits: &[Lit]) -> Result<Slot, AllocError>
    requires { size ≡ length (set_of lits.now) }
    ensures fresh { IfOk result (λ s. finmap.get pool.old s ≡ None) }
    ensures ok { IfOk result (λ s. pool.new ≡ finmap.insert pool.old s (new_entry (firsts lits.now))) }
    ensures err { OnErr result (pool.new ≡ pool.old) }
{
    if size == lits.len() {
        return pool.add(lits);
    }
    let kept = firsts(alloc, lits)?;
    pool.add(kept.as_slice())
}

/// A list that has been put into the pool: its slot, and the key of its set where one was asked for.
pub(crate) struct Pooled {
    pub(crate) slot: Slot,
    pub(crate) key: u64,
}

/// Whether a list has a literal.
fn has_lit(lits: &[Lit], l: Lit) -> bool
    ensures { result ≡ has lits.now l }
{
    lits.iter().any(|m| l == *m)
}

/// Whether a list is short and has each literal once.
fn is_short(lits: &[Lit]) -> bool
    ensures { IsTrue result → IsOnce lits.now }
{
    if lits.len() > 16 {
        return false;
    }
    let mut at = lits.len();
    while at > 0 {
        if has_lit(&lits[at..], lits[at - 1]) {
            return false;
        }
        at -= 1;
    }
    true
}

/// The key of the set whose literals are listed once, where one is asked for.
fn key_if(keyed: bool, lits: &[Lit]) -> u64
    ensures { IsTrue keyed → result ≡ key_of lits.now }
{
    if keyed { index::key_of(lits) } else { 0 }
}

/// Puts a list into the pool, each literal at its first place, and tells the key of its set where it is asked for. A short
/// list without repeats is put as it is, with no set made of it.
pub(crate) fn put(
    alloc: Global,
    pool: &mut Pool,
    keyed: bool,
    lits: &[Lit],
) -> Result<Pooled, AllocError>
    ensures fresh { IfOk result (λ p. finmap.get pool.old p.slot ≡ None) }
    ensures ok { IfOk result (λ p. pool.new ≡ finmap.insert pool.old p.slot (new_entry (firsts lits.now))) }
    ensures key { IfOk result (λ p. IsTrue keyed → p.key ≡ key_of (set_of lits.now)) }
    ensures err { OnErr result (pool.new ≡ pool.old) }
{
    if is_short(lits) {
        let slot = pool.add(lits)?;
        let key = key_if(keyed, lits);
        return Ok(Pooled { slot, key });
    }
    let set = LitSet::of(alloc, lits)?;
    let key = key_if(keyed, set.as_slice());
    let slot = add_once(alloc, pool, set.len(), lits)?;
    Ok(Pooled { slot, key })
}
