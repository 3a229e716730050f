//! Clauses by id, each active or weakened. The literals of a clause lie in a pool, each once, and the pool's slot is the
//! name by which propagation speaks of an active clause. An ordinary id is found by one read of a table, and one too large
//! for the count of clauses through a map, so that a few large ids take no long table.
//!
//! A proof without ids names a clause by its literals, in any order. The clauses of a literal set are found by a key of the
//! set that doesn't depend on the order, as DRAT-trim finds them (N. Wetzler, M. Heule and W. Hunt, 2014): a sum of one
//! scrambled number for each literal. One id of a key stands in a map, and the further ids in ordered pairs of key and id.
//! Without it each deletion would look at every clause, and a proof of a million deletions would take days. A clause that is
//! found is compared, since different sets may share a key. A store whose callers name clauses by ids keeps no such index.
#![tactic(auto)]

ghost use Rattle.std.specs.Prelude.{◌≡◌, ℕ, ◌<◌, ◌≤◌, List, length, slice_index, OnOk, IfOk, IfErr, IfSome, IfNone, IsTrue, true, false, Some, None};
ghost use Rattle.std.specs.FinMap as finmap;
ghost use Rattle.clause_store.specs.Clauses.{slot_at, lits_at, is_active, is_weakened, is_held, IsSlot, IsFresh, IsActiveWith, IsWeakenedWith, IsRestored, literals_at, kept_at, link_at, new_clause, weakened_entry, with_link, with_swap, IsStore};
ghost use Rattle.clause_store.specs.declared.StoreFault.TheVariants as fault;

use crate::rows::{Rows, SlotInfo, State};
use lit_pool::Pool;
pub use lit_pool::{Slot, Which};
use lits::{Lit, LitSet};
use std::alloc::Global;
use std::marker::Model;

mod index;
mod once;
mod rows;
mod table;

/// Why the store refuses. A rule's refusal comes before want of memory.
#[derive(Clone, Copy, PartialEq, Eq, Debug)]
pub enum StoreFault {
    /// The id isn't that of an active clause.
    NotActive = 1,
    /// The id isn't that of a weakened clause.
    NotWeakened = 2,
    /// The id is that of an active or a weakened clause.
    IdTaken = 3,
    /// Memory is wanting.
    Memory = 4,
}

/// The clauses. Contracts see a finite map from each id to its literal set and, where the clause is active, to its slot,
/// its list of literals and its two links.
#[derive(Drop)]
pub struct Store {
    pool: Pool,
    rows: Rows,
    // for each slot by its number
    noted: Vec<SlotInfo>,
    alloc: Global,
}

impl Model for Store {
    ghost use Rattle.std.specs.Ordering.{nat_cmp};
    ghost use Rattle.std.specs.FinMap as finmap;
    ghost use Rattle.std.specs.Coded.{coded_ℕ};
    ghost use Rattle.clause_store.specs.Clauses.{ClauseEntry, clause_code};

    ghost Value = { finmap.FinMap nat_cmp ClauseEntry };

    ghost coded = { finmap.code coded_ℕ clause_code };

    ghost use Rattle.clause_store.specs.Rows.{store_of, IsStoreInside};

    ghost view = { λ s. store_of s.pool s.rows.clauses };

    ghost invariant = { λ s. IsStoreInside s.rows.indexed s.pool s.rows.clauses s.rows.active s.rows.weakened s.noted.items };
}

impl Store {
    /// A store with no clause.
    pub fn new(alloc: Global) -> Store
        ensures { result ≡ finmap.empty }
    {
        Store {
            pool: Pool::new(alloc),
            rows: Rows::new(alloc),
            noted: Vec::new(alloc),
            alloc,
        }
    }

    /// A store with no clause, for callers that name clauses by ids. It keeps no index of literal sets, so each of
    /// `least_active` and `least_weakened` looks at every clause.
    pub fn without_index(alloc: Global) -> Store
        ensures { result ≡ finmap.empty }
    {
        Store {
            pool: Pool::new(alloc),
            rows: Rows::without_index(alloc),
            noted: Vec::new(alloc),
            alloc,
        }
    }

    /// Adds an active clause. Its list has the literals in the order of their first places, and its links are None. IdTaken
    /// comes exactly where the id is active or weakened; the store stays after each refusal.
    pub fn add(&mut self, id: u64, lits: &[Lit]) -> Result<Slot, StoreFault>
        ensures fresh { IfOk result (λ s. IsFresh self.old s) }
        ensures ok { IfOk result (λ s. self.new ≡ finmap.insert self.old id (new_clause lits.now s)) }
        ensures free { IfOk result (λ _. is_held self.old id ≡ false) }
        ensures err { IfErr result (λ _. self.new ≡ self.old) }
        ensures taken { IfErr result (λ e. IsTrue (is_held self.old id) → e ≡ fault.IdTaken) }
        ensures memory { IfErr result (λ e. is_held self.old id ≡ false → e ≡ fault.Memory) }
    {
        if self.rows.clauses.contains_key(id) {
            return Err(StoreFault::IdTaken);
        }
        let Ok(pooled) = once::put(self.alloc, &mut self.pool, self.rows.indexed, lits) else {
            return Err(StoreFault::Memory);
        };
        let once::Pooled { slot, key } = pooled;
        if rows::note(&mut self.noted, slot, id, key).is_err() {
            self.pool.free(slot);
            return Err(StoreFault::Memory);
        }
        let limit = table::dense_limit(self.noted.len());
        if self.rows.enter(id, key, slot, limit).is_err() {
            self.pool.free(slot);
            return Err(StoreFault::Memory);
        }
        Ok(slot)
    }

    /// Takes an active clause out. NotActive comes exactly where the id isn't active, and then the store stays. It takes no
    /// memory and never answers Memory.
    pub fn delete(&mut self, id: u64) -> Result<(), StoreFault>
        ensures ok { IfOk result (λ _. self.new ≡ finmap.remove self.old id) }
        ensures active { IfOk result (λ _. IsTrue (is_active self.old id)) }
        ensures err { IfErr result (λ e. (e ≡ fault.NotActive) × (self.new ≡ self.old)) }
        ensures inactive { IfErr result (λ _. is_active self.old id ≡ false) }
    {
        let Some(slot) = self.rows.active_slot(id) else {
            return Err(StoreFault::NotActive);
        };
        let key = rows::key_at(&self.noted, self.rows.indexed, slot);
        self.rows.leave(id, key);
        self.pool.free(slot);
        Ok(())
    }

    /// Makes an active clause a weakened one. NotActive comes exactly where the id isn't active; the store stays after each
    /// refusal.
    pub fn weaken(&mut self, id: u64) -> Result<(), StoreFault>
        ensures ok { IfOk result (λ _. self.new ≡ finmap.insert self.old id (weakened_entry (literals_at self.old id) (kept_at self.old id))) }
        ensures active { IfOk result (λ _. IsTrue (is_active self.old id)) }
        ensures err { IfErr result (λ _. self.new ≡ self.old) }
        ensures inactive { IfErr result (λ e. is_active self.old id ≡ false → e ≡ fault.NotActive) }
        ensures memory { IfErr result (λ e. IsTrue (is_active self.old id) → e ≡ fault.Memory) }
    {
        let Some(slot) = self.rows.active_slot(id) else {
            return Err(StoreFault::NotActive);
        };
        let key = rows::key_at(&self.noted, self.rows.indexed, slot);
        if self.rows.set_weakened(id, key).is_err() {
            return Err(StoreFault::Memory);
        }
        Ok(())
    }

    /// Makes a weakened clause an active one with no links, at the slot that kept it and no active clause has. NotWeakened comes exactly
    /// where the id isn't weakened; the store stays after each refusal.
    pub fn restore(&mut self, id: u64) -> Result<(), StoreFault>
        ensures ok { IfOk result (λ _. IsRestored self.old id self.new) }
        ensures weakened { IfOk result (λ _. IsTrue (is_weakened self.old id)) }
        ensures err { IfErr result (λ _. self.new ≡ self.old) }
        ensures held { IfErr result (λ e. is_weakened self.old id ≡ false → e ≡ fault.NotWeakened) }
        ensures memory { IfErr result (λ e. IsTrue (is_weakened self.old id) → e ≡ fault.Memory) }
    {
        let Some(slot) = self.rows.weakened_slot(id) else {
            return Err(StoreFault::NotWeakened);
        };
        let key = rows::key_at(&self.noted, self.rows.indexed, slot);
        if self.rows.set_active(id, key).is_err() {
            return Err(StoreFault::Memory);
        }
        self.pool.set_link(slot, Which::One, None);
        self.pool.set_link(slot, Which::Two, None);
        Ok(())
    }

    /// The least id of an active clause with this literal set; None exactly where there is none.
    pub fn least_active(&self, set: &LitSet) -> Option<u64>
        ensures found { IfSome result (λ id. IsActiveWith self.now set.now id) }
        ensures least { IfSome result (λ id. (x : ℕ) → IsActiveWith self.now set.now x → id ≤ x) }
        ensures none { IfNone result ((x : ℕ) → IsActiveWith self.now set.now x → ⊥) }
    {
        if !self.rows.indexed {
            return rows::least_noted(
                &self.noted,
                &self.rows.clauses,
                &self.pool,
                State::Active,
                set,
            );
        }
        self.rows.active.least(&self.rows.clauses, &self.pool, set)
    }

    /// The least id of a weakened clause with this literal set; None exactly where there is none.
    pub fn least_weakened(&self, set: &LitSet) -> Option<u64>
        ensures found { IfSome result (λ id. IsWeakenedWith self.now set.now id) }
        ensures least { IfSome result (λ id. (x : ℕ) → IsWeakenedWith self.now set.now x → id ≤ x) }
        ensures none { IfNone result ((x : ℕ) → IsWeakenedWith self.now set.now x → ⊥) }
    {
        if !self.rows.indexed {
            return rows::least_noted(
                &self.noted,
                &self.rows.clauses,
                &self.pool,
                State::Weakened,
                set,
            );
        }
        self.rows
            .weakened
            .least(&self.rows.clauses, &self.pool, set)
    }

    /// The slot of an active clause; None exactly where the id isn't active.
    #[inline(always)]
    pub fn find(&self, id: u64) -> Option<Slot>
        ensures slot { result ≡ slot_at self.now id }
        ensures sound { IsStore self.now }
    {
        self.rows.active_slot(id)
    }

    /// The id of the active clause at this slot.
    pub fn id_of(&self, s: Slot) -> u64
        requires { IsSlot self.now s }
        ensures { slot_at self.now result ≡ Some s }
    {
        self.noted[s.number() as usize].id
    }

    /// The literals of the active clause at this slot, in the order of its list.
    pub fn lits(&self, s: Slot) -> &[Lit]
        requires { IsSlot self.now s }
        ensures { (id : ℕ) → slot_at self.now id ≡ Some s → lits_at self.now id ≡ result.now }
    {
        self.pool.lits(s)
    }

    /// The literal at a place of the list of the active clause at this slot, counted from 0.
    pub fn at(&self, s: Slot, i: usize) -> Lit
        requires slot { IsSlot self.now s }
        requires within { (id : ℕ) → slot_at self.now id ≡ Some s → i < length (lits_at self.now id) }
        ensures { (id : ℕ) → slot_at self.now id ≡ Some s → result ≡ slice_index (lits_at self.now id) i }
    {
        self.pool.at(s, i)
    }

    /// The first two literals of the list of the active clause at this slot, which has two or more.
    pub fn pair(&self, s: Slot) -> (Lit, Lit)
        requires { (id : ℕ) × (slot_at self.now id ≡ Some s) × (2 ≤ length (lits_at self.now id)) }
        ensures { (id : ℕ) → slot_at self.now id ≡ Some s → (result.0 ≡ slice_index (lits_at self.now id) 0) × (result.1 ≡ slice_index (lits_at self.now id) 1) }
    {
        self.pool.pair(s)
    }

    /// Exchanges two places of the list of the active clause at this slot, counted from 0. Its set, its slot, its links and
    /// all other clauses stay.
    pub fn swap(&mut self, s: Slot, a: usize, b: usize)
        requires slot { IsSlot self.old s }
        requires a_in_bounds { (id : ℕ) → slot_at self.old id ≡ Some s → a < length (lits_at self.old id) }
        requires b_in_bounds { (id : ℕ) → slot_at self.old id ≡ Some s → b < length (lits_at self.old id) }
        ensures { (id : ℕ) → slot_at self.old id ≡ Some s → self.new ≡ with_swap self.old id a b }
    {
        self.pool.swap(s, a, b);
    }

    /// One of the links of the active clause at this slot.
    pub fn link(&self, s: Slot, which: Which) -> Option<Slot>
        requires { IsSlot self.now s }
        ensures { (id : ℕ) → slot_at self.now id ≡ Some s → result ≡ link_at self.now id which }
    {
        self.pool.link(s, which)
    }

    /// Sets one of the links of the active clause at this slot, to any slot or to none. All else stays.
    pub fn set_link(&mut self, s: Slot, which: Which, to: Option<Slot>)
        requires { IsSlot self.old s }
        ensures { (id : ℕ) → slot_at self.old id ≡ Some s → self.new ≡ with_link self.old id which to }
    {
        self.pool.set_link(s, which, to);
    }
}
