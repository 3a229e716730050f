// The index of literal sets: pairs of a set's key and an id. Equal sets have one key, and different sets may share one, so a
// clause that is found is compared. Most keys have one id, which is found through a map from keys to ids. Further ids of a
// key stand in an ordered set of pairs, together and in ascending order.

ghost use Rattle.std.specs.Prelude.{◌≡◌, ℕ, ◌<◌, ◌≤◌, ◌&&◌, ◌||◌, not, nat_eq, length, Bool, true, false, IfSome, IfNone, OnOk, OnErr, IsTrue, ◌↔◌, Some};
ghost use Rattle.clause_store.specs.Index.{has_pair, in_more, is_given, first_of, least_of, folded, scrambled, key_of};
ghost use Rattle.clause_store.specs.Clauses.{IsOnce};
ghost use Rattle.clause_store.specs.Rows.{ArePooled, literals_in};
ghost use Rattle.lits.specs.Clause.{has, set_of};
ghost use Rattle.std.specs.List.{list_all};

use crate::table::Table;
use lit_pool::Pool;
use lits::{Lit, LitSet};
use std::alloc::{AllocError, Global};
use std::collections::{BTreeSet, HashMap};
use std::ops::Bound;

/// An index: for each key one of its ids, and the pairs of the others.
#[derive(Drop)]
pub(crate) struct Pairs {
    first: HashMap<u64, u64>,
    more: BTreeSet<(u64, u64)>,
}

const FACTOR: u64 = 6364136223846793005;

/// A number times one more than its upper half.
fn fold(x: u64) -> u64
    ensures { result ≡ folded x }
{
    x.wrapping_mul((x >> 32) + 1)
}

/// A literal as a term of a key. It is folded twice, since with one folding many small sets have one sum.
#[tactic(auto, unfolding(crate::specs::Index::scrambled))]
fn scramble(l: Lit) -> u64
    ensures { result ≡ scrambled l }
{
    fold(fold((l.code() as u64 + 1).wrapping_mul(FACTOR)))
}

/// The key of a literal set, which is given by any list that has each of its literals once.
#[tactic(auto, unfolding(crate::specs::Index::key_of), using(crate::proofs::Keys::key_more))]
pub(crate) fn key_of(lits: &[Lit]) -> u64
    ensures { result ≡ key_of lits.now }
{
    let mut key: u64 = 0;
    for l in lits {
        key = key.wrapping_add(scramble(*l));
    }
    key
}

/// Puts an id first at a key that has none.
fn put_first(first: &mut HashMap<u64, u64>, key: u64, id: u64) -> Result<(), AllocError>
    requires { first_of first.old.entries key ≡ None }
    ensures ok { OnOk result ((k i : ℕ) → is_given (first_of first.new.entries k) i ≡ ((nat_eq key k && nat_eq id i) || is_given (first_of first.old.entries k) i)) }
    ensures err { OnErr result ((k i : ℕ) → is_given (first_of first.new.entries k) i ≡ is_given (first_of first.old.entries k) i) }
{
    match first.insert(key, id) {
        Ok(_) => Ok(()),
        Err(_) => Err(AllocError),
    }
}

/// Takes the id of a key out, where it is this one.
fn cut_first(first: &mut HashMap<u64, u64>, key: u64, id: u64)
    ensures { (k i : ℕ) → is_given (first_of first.new.entries k) i ≡ (not (nat_eq key k && nat_eq id i) && is_given (first_of first.old.entries k) i) }
{
    if first_at(first, key) == Some(id) {
        let _ = first.remove(&key);
    }
}

/// The id that stands first at a key.
fn first_at(first: &HashMap<u64, u64>, key: u64) -> Option<u64>
    ensures { result ≡ first_of first.now.entries key }
{
    first.get(&key).copied()
}

/// Puts a pair among the further ones.
fn put_more(more: &mut BTreeSet<(u64, u64)>, key: u64, id: u64) -> Result<(), AllocError>
    ensures ok { OnOk result ((k i : ℕ) → in_more more.new k i ≡ ((nat_eq key k && nat_eq id i) || in_more more.old k i)) }
    ensures err { OnErr result ((k i : ℕ) → in_more more.new k i ≡ in_more more.old k i) }
{
    match more.insert((key, id)) {
        Ok(_) => Ok(()),
        Err(_) => Err(AllocError),
    }
}

/// Takes a pair out of the further ones, where it is among them.
fn cut_more(more: &mut BTreeSet<(u64, u64)>, key: u64, id: u64)
    ensures { (k i : ℕ) → in_more more.new k i ≡ (not (nat_eq key k && nat_eq id i) && in_more more.old k i) }
{
    if !more.is_empty() {
        let _ = more.remove(&(key, id));
    }
}

/// The least id from this one on that stands with a key among these pairs.
fn next_from(pairs: &BTreeSet<(u64, u64)>, key: u64, from: u64) -> Option<u64>
    ensures found { IfSome result (λ i. (in_more pairs.now key i ≡ true) × (from ≤ i) × ((x : ℕ) → from ≤ x → in_more pairs.now key x ≡ true → i ≤ x)) }
    ensures none { IfNone result ((x : ℕ) → from ≤ x → in_more pairs.now key x ≡ false) }
{
    match pairs.range((key, from)..).next() {
        Some(pair) => if pair.0 == key { Some(pair.1) } else { None },
        None => None,
    }
}

/// The least id beyond this one that stands with a key among these pairs.
fn next_after(pairs: &BTreeSet<(u64, u64)>, key: u64, id: u64) -> Option<u64>
    ensures found { IfSome result (λ i. (in_more pairs.now key i ≡ true) × (id < i) × ((x : ℕ) → id < x → in_more pairs.now key x ≡ true → i ≤ x)) }
    ensures none { IfNone result ((x : ℕ) → id < x → in_more pairs.now key x ≡ false) }
{
    match pairs
        .range((Bound::Excluded((key, id)), Bound::Unbounded))
        .next()
    {
        Some(pair) => if pair.0 == key { Some(pair.1) } else { None },
        None => None,
    }
}

/// Whether each literal of a list is in a set.
fn is_within(lits: &[Lit], set: &LitSet) -> bool
    ensures { result ≡ list_all (λ l. has set.now l) lits.now }
{
    lits.iter().all(|l| set.has(*l))
}

/// Whether a list that has each literal once has the literals of a set.
fn is_set(lits: &[Lit], set: &LitSet) -> bool
    requires { IsOnce lits.now }
    ensures { IsTrue result ↔ (set_of lits.now ≡ set.now) }
{
    set.as_slice().len() == lits.len() && is_within(lits, set)
}

/// Whether a clause that is kept has this set.
pub(crate) fn is_clause(clauses: &Table, pool: &Pool, id: u64, set: &LitSet) -> bool
    requires { ArePooled pool.now clauses.now }
    ensures { IsTrue result ↔ (literals_in pool.now clauses.now id ≡ Some set.now) }
{
    match clauses.get(id) {
        Some(kept) => is_set(pool.lits(kept.slot), set),
        None => false,
    }
}

/// The least id of the further ones whose clause has this set.
fn least_more(
    more: &BTreeSet<(u64, u64)>,
    clauses: &Table,
    pool: &Pool,
    key: u64,
    set: &LitSet,
) -> Option<u64>
    requires { ArePooled pool.now clauses.now }
    ensures found { IfSome result (λ i. (in_more more.now key i ≡ true) × (literals_in pool.now clauses.now i ≡ Some set.now)) }
    ensures least { IfSome result (λ i. (x : ℕ) → in_more more.now key x ≡ true → literals_in pool.now clauses.now x ≡ Some set.now → i ≤ x) }
    ensures none { IfNone result ((x : ℕ) → in_more more.now key x ≡ true → literals_in pool.now clauses.now x ≡ Some set.now → ⊥) }
{
    let mut next = next_from(more, key, 0);
    while let Some(id) = next {
        if is_clause(clauses, pool, id, set) {
            return Some(id);
        }
        next = next_after(more, key, id);
    }
    None
}

/// The id that stands first at a key, if its clause has this set.
fn least_first(
    first: &HashMap<u64, u64>,
    clauses: &Table,
    pool: &Pool,
    key: u64,
    set: &LitSet,
) -> Option<u64>
    requires { ArePooled pool.now clauses.now }
    ensures found { IfSome result (λ i. (first_of first.now.entries key ≡ Some i) × (literals_in pool.now clauses.now i ≡ Some set.now)) }
    ensures none { IfNone result ((x : ℕ) → first_of first.now.entries key ≡ Some x → literals_in pool.now clauses.now x ≡ Some set.now → ⊥) }
{
    match first_at(first, key) {
        Some(id) => if is_clause(clauses, pool, id, set) {
            Some(id)
        } else {
            None
        },
        None => None,
    }
}

/// The lesser of two ids, of which each may be missing.
pub(crate) fn lesser(a: Option<u64>, b: Option<u64>) -> Option<u64>
    ensures { result ≡ least_of a b }
{
    match (a, b) {
        (Some(x), Some(y)) => if x <= y { a } else { b },
        (Some(_), None) => a,
        _ => b,
    }
}

impl Pairs {
    /// An index with no pair.
    pub(crate) fn new(alloc: Global) -> Pairs
        ensures { (k i : ℕ) → has_pair result k i ≡ false }
    {
        Pairs {
            first: HashMap::new(alloc),
            more: BTreeSet::new(alloc),
        }
    }

    /// Puts a pair in.
    pub(crate) fn put(&mut self, key: u64, id: u64) -> Result<(), AllocError>
        ensures ok { OnOk result ((k i : ℕ) → has_pair self.new k i ≡ ((nat_eq key k && nat_eq id i) || has_pair self.old k i)) }
        ensures err { OnErr result ((k i : ℕ) → has_pair self.new k i ≡ has_pair self.old k i) }
    {
        match first_at(&self.first, key) {
            Some(_) => put_more(&mut self.more, key, id),
            None => put_first(&mut self.first, key, id),
        }
    }

    /// Takes a pair out.
    pub(crate) fn cut(&mut self, key: u64, id: u64)
        ensures { (k i : ℕ) → has_pair self.new k i ≡ (not (nat_eq key k && nat_eq id i) && has_pair self.old k i) }
    {
        cut_first(&mut self.first, key, id);
        cut_more(&mut self.more, key, id);
    }

    /// The least id whose clause has this set.
    pub(crate) fn least(&self, clauses: &Table, pool: &Pool, set: &LitSet) -> Option<u64>
        requires { ArePooled pool.now clauses.now }
        ensures found { IfSome result (λ i. (has_pair self.now (key_of set.now) i ≡ true) × (literals_in pool.now clauses.now i ≡ Some set.now)) }
        ensures least { IfSome result (λ i. (x : ℕ) → has_pair self.now (key_of set.now) x ≡ true → literals_in pool.now clauses.now x ≡ Some set.now → i ≤ x) }
        ensures none { IfNone result ((x : ℕ) → has_pair self.now (key_of set.now) x ≡ true → literals_in pool.now clauses.now x ≡ Some set.now → ⊥) }
    {
        let key = key_of(set.as_slice());
        let front = least_first(&self.first, clauses, pool, key, set);
        if self.more.is_empty() {
            return front;
        }
        lesser(front, least_more(&self.more, clauses, pool, key, set))
    }
}
