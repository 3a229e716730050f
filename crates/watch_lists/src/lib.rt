//! Watch lists of a store's clauses. Unit propagation visits, for each literal that becomes false, the clauses that watch
//! it: two literals of each clause, as long as neither is false (M. Moskewicz and others, 2001). With a count of the false
//! literals of each clause in their place, each literal would have to visit all its clauses, and visit them again when it is
//! taken back.
//!
//! Here a clause of two or more literals watches the first two of its list, and the clauses that watch a literal stand side by
//! side in a list of its own, each with a blocker, some literal of the clause (N. Sörensson and N. Eén, 2008). So a walk over a
//! list reads one block of memory, and looks only at clauses whose blocker isn't true. Without the blockers each entry would
//! be a visit of a clause that lies elsewhere, most of which are for nothing.
//!
//! A session deletes clauses by the thousand. A clause is taken out of the middle of a list without a search, since a table
//! says where its entries stand. An entry that moves takes no memory, since each list has room for all clauses with its
//! literal; so propagation never wants memory on its way. A deletion takes none either, so a list gives places back only
//! where the next clause with its literal is added.
#![tactic(auto)]

ghost use Rattle.std.specs.Prelude.{◌≡◌, ℕ, ◌*◌, ◌-◌, ◌<◌, ◌≤◌, ◌↔◌, [], length, take, IsOk, OnOk, OnErr, IfOk, IfErr, IfSome, IfNone, IsTrue, true, false, Some, None};
ghost use Rattle.std.specs.FinMap as finmap;
ghost use Rattle.lits.specs.Clause.{has};
ghost use Rattle.clause_store.specs.Clauses.{slot_at, lits_at, literals_at, kept_at, is_active, is_weakened, is_held, new_clause, weakened_entry, with_swap, IsSlot, IsFresh, IsRestored, IsActiveWith, IsWeakenedWith};
ghost use Rattle.clause_store.specs.declared.StoreFault.TheVariants as fault;
ghost use Rattle.watch_lists.specs.Watched.{IsWatched, AreReserved, list_at, watch_at, watch_place, reserved, blocked};

use clause_store::Store;
pub use clause_store::{Slot, StoreFault};
use lits::{Lit, LitSet};
use std::alloc::{AllocError, Global};
use std::marker::Model;

mod lists;
mod row;
mod watch;

use crate::lists::WatchTable;
pub use crate::watch::Watch;

/// The clauses and their lists. Contracts see the clauses as those of a store, and for each literal of a reserved variable
/// the list of the clauses that watch it.
#[derive(Drop)]
pub struct Watches {
    store: Store,
    table: WatchTable,
    vars: u32,
}

impl Model for Watches {
    ghost use Rattle.watch_lists.specs.Watched.{Watched, watched_code};

    ghost Value = { Watched };

    ghost coded = { watched_code };

    ghost use Rattle.watch_lists.specs.Lists.{seen, AreWatchesInside};

    ghost view = { λ w. seen w.store w.table.rows.items };

    ghost invariant = { λ w. AreWatchesInside w.store w.table.rows.items w.table.places.items w.vars };
}

impl Watches {
    /// No clause, and no reserved variable.
    pub fn new(alloc: Global) -> Watches
        ensures clauses { result.clauses ≡ finmap.empty }
        ensures lists { result.lists ≡ [] }
    {
        Watches {
            store: Store::new(alloc),
            table: WatchTable::new(alloc),
            vars: 0,
        }
    }

    /// Reserves the variables up to this one; the lists of their literals are empty. After an error all is as it was. Where
    /// they are reserved it answers Ok, and all stays.
    pub fn reserve(&mut self, vars: u32) -> Result<(), AllocError>
        ensures ok { OnOk result (self.new ≡ reserved self.old vars) }
        ensures err { OnErr result (self.new ≡ self.old) }
        ensures enough { 2 * vars ≤ length self.old.lists → IsOk result }
        ensures stays { 2 * vars ≤ length self.old.lists → self.new ≡ self.old }
    {
        if vars > self.vars {
            lists::widen(&mut self.table.rows, 2 * vars as usize)?;
            self.vars = vars;
        }
        Ok(())
    }

    /// How many variables are reserved.
    pub fn vars(&self) -> u32
        ensures { length self.now.lists ≡ 2 * result }
    {
        self.vars
    }

    /// Whether the variable of a literal is reserved.
    pub fn is_reserved(&self, l: Lit) -> bool
        ensures { IsTrue result ↔ (l < length self.now.lists) }
    {
        (l.code() as usize) < self.table.rows.len()
    }

    /// Whether the variables of all these literals are reserved.
    pub fn are_reserved(&self, lits: &[Lit]) -> bool
        ensures { IsTrue result ↔ AreReserved self.now lits.now }
    {
        lists::are_below(lits, self.table.rows.len())
    }

    /// Adds an active clause, as the store does, and puts it into the lists of the first two literals of its list, if it has
    /// two or more. IdTaken comes exactly where the id is active or weakened; all stays after each refusal.
    pub fn add(&mut self, id: u64, lits: &[Lit]) -> Result<Slot, StoreFault>
        requires { AreReserved self.old lits.now }
        ensures fresh { IfOk result (λ s. IsFresh self.old.clauses s) }
        ensures ok { IfOk result (λ s. self.new.clauses ≡ finmap.insert self.old.clauses id (new_clause lits.now s)) }
        ensures free { IfOk result (λ _. is_held self.old.clauses id ≡ false) }
        ensures err { IfErr result (λ _. self.new ≡ self.old) }
        ensures taken { IfErr result (λ e. IsTrue (is_held self.old.clauses id) → e ≡ fault.IdTaken) }
        ensures memory { IfErr result (λ e. is_held self.old.clauses id ≡ false → e ≡ fault.Memory) }
        ensures wide { length self.new.lists ≡ length self.old.lists }
        ensures sound { IsWatched self.new }
    {
        let slot = match self.store.add(id, lits) {
            Ok(slot) => slot,
            Err(fault) => return Err(fault),
        };
        if self.table.make_room(&self.store, slot).is_err() {
            let _ = self.store.delete(id);
            return Err(StoreFault::Memory);
        }
        self.table.enter(&self.store, slot);
        Ok(slot)
    }

    /// Takes an active clause out, and its slot out of its lists. NotActive comes exactly where the id isn't active, and
    /// then all stays. It takes no memory and never answers Memory.
    pub fn delete(&mut self, id: u64) -> Result<(), StoreFault>
        ensures ok { IfOk result (λ _. self.new.clauses ≡ finmap.remove self.old.clauses id) }
        ensures active { IfOk result (λ _. IsTrue (is_active self.old.clauses id)) }
        ensures err { IfErr result (λ e. (e ≡ fault.NotActive) × (self.new ≡ self.old)) }
        ensures inactive { IfErr result (λ _. is_active self.old.clauses id ≡ false) }
        ensures wide { length self.new.lists ≡ length self.old.lists }
        ensures sound { IsWatched self.new }
    {
        let Some(slot) = self.store.find(id) else {
            return Err(StoreFault::NotActive);
        };
        let sides = self.table.sides_of(&self.store, slot);
        self.table.part(&self.store, sides);
        lists::lower(&mut self.table.rows, self.store.lits(slot));
        let _ = self.store.delete(id);
        Ok(())
    }

    /// Makes an active clause a weakened one, and takes its slot out of its lists. NotActive comes exactly where the id
    /// isn't active; all stays after each refusal.
    pub fn weaken(&mut self, id: u64) -> Result<(), StoreFault>
        ensures ok { IfOk result (λ _. self.new.clauses ≡ finmap.insert self.old.clauses id (weakened_entry (literals_at self.old.clauses id) (kept_at self.old.clauses id))) }
        ensures active { IfOk result (λ _. IsTrue (is_active self.old.clauses id)) }
        ensures err { IfErr result (λ _. self.new ≡ self.old) }
        ensures inactive { IfErr result (λ e. is_active self.old.clauses id ≡ false → e ≡ fault.NotActive) }
        ensures memory { IfErr result (λ e. IsTrue (is_active self.old.clauses id) → e ≡ fault.Memory) }
        ensures wide { length self.new.lists ≡ length self.old.lists }
        ensures sound { IsWatched self.new }
    {
        let Some(slot) = self.store.find(id) else {
            return Err(StoreFault::NotActive);
        };
        let sides = self.table.sides_of(&self.store, slot);
        if let Err(fault) = self.store.weaken(id) {
            return Err(fault);
        }
        self.table.part(&self.store, sides);
        Ok(())
    }

    /// Makes a weakened clause an active one, and puts it into the lists of the first two literals of its list, if it has two
    /// or more. NotWeakened comes exactly where the id isn't weakened; all stays after each refusal.
    pub fn restore(&mut self, id: u64) -> Result<(), StoreFault>
        ensures ok { IfOk result (λ _. IsRestored self.old.clauses id self.new.clauses) }
        ensures weakened { IfOk result (λ _. IsTrue (is_weakened self.old.clauses id)) }
        ensures err { IfErr result (λ _. self.new ≡ self.old) }
        ensures held { IfErr result (λ e. is_weakened self.old.clauses id ≡ false → e ≡ fault.NotWeakened) }
        ensures memory { IfErr result (λ e. IsTrue (is_weakened self.old.clauses id) → e ≡ fault.Memory) }
        ensures wide { length self.new.lists ≡ length self.old.lists }
        ensures sound { IsWatched self.new }
    {
        if let Err(fault) = self.store.restore(id) {
            return Err(fault);
        }
        if let Some(slot) = self.store.find(id) {
            self.table.enter(&self.store, slot);
        }
        Ok(())
    }

    /// The list of a literal, in no order that callers may rest on.
    #[inline(always)]
    pub fn list(&self, l: Lit) -> &[Watch]
        requires { l < length self.now.lists }
        ensures list { result.now ≡ list_at self.now.lists l }
        ensures sound { IsWatched self.now }
    {
        self.table.rows[l.code() as usize].list()
    }

    /// Gives an entry of a literal's list another literal of its clause as its blocker.
    #[inline(always)]
    pub fn block(&mut self, l: Lit, i: usize, blocker: Lit)
        requires within { i < length (list_at self.old.lists l) }
        requires member { (id : ℕ) → slot_at self.old.clauses id ≡ Some (watch_at self.old l i).slot → has (lits_at self.old.clauses id) blocker ≡ true }
        ensures blocked { self.new ≡ blocked self.old l i blocker }
        ensures front { take i (list_at self.new.lists l) ≡ take i (list_at self.old.lists l) }
        ensures sound { IsWatched self.new }
    {
        let row = &mut self.table.rows[l.code() as usize];
        let watch = row.list()[i];
        row.set(i, watch.with_blocker(blocker));
    }

    /// Exchanges the literal of an entry for a later one of its clause's list, at a place counted from 0. The entry leaves the
    /// list of the one, whose last comes to its place, and is put into that of the other.
    #[inline(always)]
    pub fn move_watch(&mut self, l: Lit, i: usize, k: usize)
        requires within { i < length (list_at self.old.lists l) }
        requires later { 2 ≤ k }
        requires in_bounds { (id : ℕ) → slot_at self.old.clauses id ≡ Some (watch_at self.old l i).slot → k < length (lits_at self.old.clauses id) }
        ensures exchanged { (id : ℕ) → slot_at self.old.clauses id ≡ Some (watch_at self.old l i).slot → self.new.clauses ≡ with_swap self.old.clauses id (watch_place (lits_at self.old.clauses id) l) k }
        ensures front { take i (list_at self.new.lists l) ≡ take i (list_at self.old.lists l) }
        ensures wide { length self.new.lists ≡ length self.old.lists }
        ensures sound { IsWatched self.new }
    {
        self.table.move_watch(&mut self.store, l, i, k);
    }

    /// Exchanges the first or the second literal of an active clause's list for a later one, at places counted from 0. The
    /// clause leaves the list of the one, and is put into that of the other.
    pub fn exchange(&mut self, s: Slot, place: usize, k: usize)
        requires slot { IsSlot self.old.clauses s }
        requires first_two { place ≤ 1 }
        requires later { 2 ≤ k }
        requires in_bounds { (id : ℕ) → slot_at self.old.clauses id ≡ Some s → k < length (lits_at self.old.clauses id) }
        ensures exchanged { (id : ℕ) → slot_at self.old.clauses id ≡ Some s → self.new.clauses ≡ with_swap self.old.clauses id place k }
        ensures wide { length self.new.lists ≡ length self.old.lists }
        ensures sound { IsWatched self.new }
    {
        let l = self.store.at(s, place);
        let i = self.table.places[2 * s.number() as usize + place] as usize;
        self.table.move_watch(&mut self.store, l, i, k);
    }

    /// The slot of an active clause; None exactly where the id isn't active.
    pub fn find(&self, id: u64) -> Option<Slot>
        ensures slot { result ≡ slot_at self.now.clauses id }
        ensures sound { IsWatched self.now }
    {
        self.store.find(id)
    }

    /// The id of the active clause at this slot.
    pub fn id_of(&self, s: Slot) -> u64
        requires { IsSlot self.now.clauses s }
        ensures id { slot_at self.now.clauses result ≡ Some s }
        ensures sound { IsWatched self.now }
    {
        self.store.id_of(s)
    }

    /// The literals of the active clause at this slot, in the order of its list.
    #[inline(always)]
    pub fn lits(&self, s: Slot) -> &[Lit]
        requires { IsSlot self.now.clauses s }
        ensures list { (id : ℕ) → slot_at self.now.clauses id ≡ Some s → lits_at self.now.clauses id ≡ result.now }
        ensures sound { IsWatched self.now }
    {
        self.store.lits(s)
    }

    /// The clauses.
    pub fn store(&self) -> &Store
        ensures clauses { result.now ≡ self.now.clauses }
        ensures sound { IsWatched self.now }
    {
        &self.store
    }

    /// The least id of an active clause with this literal set; None exactly where there is none.
    pub fn least_active(&self, set: &LitSet) -> Option<u64>
        ensures found { IfSome result (λ id. IsActiveWith self.now.clauses set.now id) }
        ensures least { IfSome result (λ id. (x : ℕ) → IsActiveWith self.now.clauses set.now x → id ≤ x) }
        ensures none { IfNone result ((x : ℕ) → IsActiveWith self.now.clauses set.now x → ⊥) }
    {
        self.store.least_active(set)
    }
}
