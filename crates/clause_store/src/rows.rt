// The rows of the clauses and the two indices together. Each call says what becomes of the rows and of the pairs, so the
// store's invariant, which ties both to the pool, may be broken between two of them.

ghost use Rattle.std.specs.Prelude.{◌≡◌, ◌≢◌, ℕ, ◌+◌, ◌<◌, ◌≤◌, Bool, true, false, not, nat_eq, List, length, OnOk, OnErr, IfSome, IfNone, IsTrue, is_some, MatchOption, Some, None, IfOk, if◌then◌else◌, option_map, option_and_then, ◌&&◌, ◌||◌, ◌↔◌};
ghost use Rattle.clause_store.specs.Index.{has_pair};
ghost use Rattle.clause_store.specs.Rows.{row, row_slot, is_state, with_state, noted as noted_at, SameListed, ArePooled, IsRowWith, says_active};

use crate::index;
use crate::index::Pairs;
use crate::table::{ClauseRow, Table};
use lit_pool::{Pool, Slot};
use lits::LitSet;
use std::alloc::{AllocError, Global};

/// The rows of the clauses, and the two indices of their sets where they are kept.
#[derive(Drop)]
pub(crate) struct Rows {
    pub(crate) clauses: Table,
    pub(crate) active: Pairs,
    pub(crate) weakened: Pairs,
    // whether the two indices are kept
    pub(crate) indexed: bool,
}

/// What is noted of a slot: the id of its clause, and in a store with an index the key of the clause's literal set.
#[derive(Clone, Copy)]
pub(crate) struct SlotInfo {
    pub(crate) id: u64,
    pub(crate) key: u64,
}

/// Notes an id and a key of a slot.
pub(crate) fn note(
    noted: &mut Vec<SlotInfo>,
    slot: Slot,
    id: u64,
    key: u64,
) -> Result<(), AllocError>
    ensures ok { OnOk result ((slot < length noted.new.items) × (noted_at noted.new.items slot ≡ record { id = id; key = key })) }
    ensures others { SameListed noted.old.items noted.new.items slot }
{
    let at = slot.number() as usize;
    let Some(end) = at.checked_add(1) else {
        return Err(AllocError);
    };
    if noted.len() < end {
        noted.resize(end, SlotInfo { id: 0, key: 0 })?;
    }
    noted[at] = SlotInfo { id, key };
    Ok(())
}

/// The key that is noted of a slot, in a store with an index.
pub(crate) fn key_at(noted: &Vec<SlotInfo>, indexed: bool, slot: Slot) -> u64
    requires { slot < length noted.now.items }
    ensures { IsTrue indexed → (noted_at noted.now.items slot).key ≡ result }
{
    if indexed {
        noted[slot.number() as usize].key
    } else {
        0
    }
}

/// Which clauses are asked for.
#[derive(Clone, Copy)]
pub(crate) enum State {
    Active,
    Weakened,
}

/// Whether an id is that of a clause in this state.
fn has_state(clauses: &Table, id: u64, state: State) -> bool
    ensures { result ≡ is_some (row_slot (says_active state) (row clauses.now id)) }
{
    match (clauses.get(id), state) {
        (Some(kept), State::Active) => kept.active,
        (Some(kept), State::Weakened) => !kept.active,
        (None, _) => false,
    }
}

/// Whether an id is that of a clause in this state with this set.
fn has_set(clauses: &Table, pool: &Pool, id: u64, state: State, set: &LitSet) -> bool
    requires { ArePooled pool.now clauses.now }
    ensures { IsTrue result ↔ IsRowWith (says_active state) pool.now clauses.now set.now id }
{
    has_state(clauses, id, state) && index::is_clause(clauses, pool, id, set)
}

/// The least id that is noted whose clause is in this state and has this set.
pub(crate) fn least_noted(
    noted: &Vec<SlotInfo>,
    clauses: &Table,
    pool: &Pool,
    state: State,
    set: &LitSet,
) -> Option<u64>
    requires { ArePooled pool.now clauses.now }
    ensures found { IfSome result (λ i. IsRowWith (says_active state) pool.now clauses.now set.now i) }
    ensures least { IfSome result (λ i. (s : ℕ) → s < length noted.now.items → IsRowWith (says_active state) pool.now clauses.now set.now (noted_at noted.now.items s).id → i ≤ (noted_at noted.now.items s).id) }
    ensures none { IfNone result ((s : ℕ) → s < length noted.now.items → IsRowWith (says_active state) pool.now clauses.now set.now (noted_at noted.now.items s).id → ⊥) }
{
    let mut least = None;
    let mut s = 0;
    while s < noted.len() {
        let id = noted[s].id;
        if has_set(clauses, pool, id, state, set) {
            least = index::lesser(least, Some(id));
        }
        s += 1;
    }
    least
}

impl Rows {
    /// No row. An index is kept.
    pub(crate) fn new(alloc: Global) -> Rows
        ensures rows { (q : ℕ) → row result.clauses q ≡ None }
        ensures active { (k i : ℕ) → has_pair result.active k i ≡ false }
        ensures weakened { (k i : ℕ) → has_pair result.weakened k i ≡ false }
    {
        Rows {
            clauses: Table::new(alloc),
            active: Pairs::new(alloc),
            weakened: Pairs::new(alloc),
            indexed: true,
        }
    }

    /// No row. No index is kept.
    pub(crate) fn without_index(alloc: Global) -> Rows
        ensures rows { (q : ℕ) → row result.clauses q ≡ None }
        ensures unindexed { result.indexed ≡ false }
    {
        Rows {
            clauses: Table::new(alloc),
            active: Pairs::new(alloc),
            weakened: Pairs::new(alloc),
            indexed: false,
        }
    }

    /// The slot of an active clause.
    #[inline(always)]
    pub(crate) fn active_slot(&self, id: u64) -> Option<Slot>
        ensures { result ≡ row_slot true (row self.now.clauses id) }
    {
        match self.clauses.get(id) {
            Some(kept) => if kept.active { Some(kept.slot) } else { None },
            None => None,
        }
    }

    /// The slot of a weakened clause.
    pub(crate) fn weakened_slot(&self, id: u64) -> Option<Slot>
        ensures { result ≡ row_slot false (row self.now.clauses id) }
    {
        match self.clauses.get(id) {
            Some(kept) => if kept.active { None } else { Some(kept.slot) },
            None => None,
        }
    }

    /// Enters an active row at a free id, and its pair where an index is kept. The table of rows grows to have a place for an
    /// id below `limit`.
    pub(crate) fn enter(
        &mut self,
        id: u64,
        key: u64,
        slot: Slot,
        limit: u64,
    ) -> Result<(), AllocError>
        requires { IsTrue self.old.indexed → has_pair self.old.active key id ≡ false }
        ensures ok { OnOk result ((q : ℕ) → row self.new.clauses q ≡ (if nat_eq id q then Some (record { slot = slot; active = true }) else row self.old.clauses q)) }
        ensures put { OnOk result (IsTrue self.old.indexed → (k i : ℕ) → has_pair self.new.active k i ≡ ((nat_eq key k && nat_eq id i) || has_pair self.old.active k i)) }
        ensures err { OnErr result ((q : ℕ) → row self.new.clauses q ≡ row self.old.clauses q) }
        ensures unput { OnErr result ((k i : ℕ) → has_pair self.new.active k i ≡ has_pair self.old.active k i) }
        ensures weakened { self.new.weakened ≡ self.old.weakened }
        ensures indexed { self.new.indexed ≡ self.old.indexed }
    {
        if self.indexed {
            self.active.put(key, id)?;
        }
        let kept = ClauseRow { slot, active: true };
        if self.clauses.insert(id, &kept, limit).is_err() {
            if self.indexed {
                self.active.cut(key, id);
            }
            return Err(AllocError);
        }
        Ok(())
    }

    /// Takes an active row out, and its pair where an index is kept.
    pub(crate) fn leave(&mut self, id: u64, key: u64)
        ensures rows { (q : ℕ) → row self.new.clauses q ≡ (if nat_eq id q then None else row self.old.clauses q) }
        ensures pairs { IsTrue self.old.indexed → (k i : ℕ) → has_pair self.new.active k i ≡ (not (nat_eq key k && nat_eq id i) && has_pair self.old.active k i) }
        ensures weakened { self.new.weakened ≡ self.old.weakened }
        ensures indexed { self.new.indexed ≡ self.old.indexed }
    {
        if self.indexed {
            self.active.cut(key, id);
        }
        self.clauses.remove(id);
    }

    /// Makes an active row a weakened one, and moves its pair from the one index to the other where they are kept.
    pub(crate) fn set_weakened(&mut self, id: u64, key: u64) -> Result<(), AllocError>
        ensures rows { OnOk result ((q : ℕ) → row self.new.clauses q ≡ (if nat_eq id q then option_map (with_state false) (row self.old.clauses q) else row self.old.clauses q)) }
        ensures cut { OnOk result (IsTrue self.old.indexed → (k i : ℕ) → has_pair self.new.active k i ≡ (not (nat_eq key k && nat_eq id i) && has_pair self.old.active k i)) }
        ensures put { OnOk result (IsTrue self.old.indexed → (k i : ℕ) → has_pair self.new.weakened k i ≡ ((nat_eq key k && nat_eq id i) || has_pair self.old.weakened k i)) }
        ensures same_rows { OnErr result ((q : ℕ) → row self.new.clauses q ≡ row self.old.clauses q) }
        ensures same_from { OnErr result ((k i : ℕ) → has_pair self.new.active k i ≡ has_pair self.old.active k i) }
        ensures same_to { OnErr result ((k i : ℕ) → has_pair self.new.weakened k i ≡ has_pair self.old.weakened k i) }
        ensures indexed { self.new.indexed ≡ self.old.indexed }
    {
        if self.indexed {
            self.weakened.put(key, id)?;
            self.active.cut(key, id);
        }
        self.clauses.set_active(id, false);
        Ok(())
    }

    /// Makes a weakened row an active one, and moves its pair from the one index to the other where they are kept.
    pub(crate) fn set_active(&mut self, id: u64, key: u64) -> Result<(), AllocError>
        ensures rows { OnOk result ((q : ℕ) → row self.new.clauses q ≡ (if nat_eq id q then option_map (with_state true) (row self.old.clauses q) else row self.old.clauses q)) }
        ensures cut { OnOk result (IsTrue self.old.indexed → (k i : ℕ) → has_pair self.new.weakened k i ≡ (not (nat_eq key k && nat_eq id i) && has_pair self.old.weakened k i)) }
        ensures put { OnOk result (IsTrue self.old.indexed → (k i : ℕ) → has_pair self.new.active k i ≡ ((nat_eq key k && nat_eq id i) || has_pair self.old.active k i)) }
        ensures same_rows { OnErr result ((q : ℕ) → row self.new.clauses q ≡ row self.old.clauses q) }
        ensures same_from { OnErr result ((k i : ℕ) → has_pair self.new.weakened k i ≡ has_pair self.old.weakened k i) }
        ensures same_to { OnErr result ((k i : ℕ) → has_pair self.new.active k i ≡ has_pair self.old.active k i) }
        ensures indexed { self.new.indexed ≡ self.old.indexed }
    {
        if self.indexed {
            self.active.put(key, id)?;
            self.weakened.cut(key, id);
        }
        self.clauses.set_active(id, true);
        Ok(())
    }
}
