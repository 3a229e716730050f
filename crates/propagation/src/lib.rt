//! Unit propagation: what follows of clauses and of literals that are assumed, clause by clause.
//!
//! An [`Engine`] owns clauses and a trail, the literals that are true, oldest first. A literal on the trail was assumed, and
//! then it begins a level, or it follows of an active clause, its reason, whose other literals became false earlier.
//! `propagate` extends the trail until nothing more follows or a clause is false; `back_to` takes the higher levels off.
//!
//! Most of a checker's time goes into this, so that three things are to be known of how it is done.
//!
//! - **Two watched literals** (M. Moskewicz, C. Madigan, Y. Zhao, L. Zhang and S. Malik, 2001). As long as two literals of a
//!   clause aren't false, nothing follows of it. So each clause is entered in the lists of two of its literals, its watches,
//!   and it is looked at only when one of these becomes false. Without them each literal that becomes true would cost a look at
//!   each clause that has its negation. Taking literals off the trail costs nothing here: where two literals weren't false,
//!   they aren't false on a shorter trail.
//! - **Blockers** (N. Sörensson and N. Eén, in MiniSat 2.1, 2008). Each entry of a list holds another literal of the clause.
//!   Where it is true the clause is passed over without being read, which spares most reads of memory.
//! - **The trail is kept between the lines of a proof.** What follows without an assumption is propagated once, and not for each
//!   lemma anew. So clauses come and go while the trail stays. A clause that is added may begin with literals that are false
//!   already: two that aren't are brought to its front, and where it has no two such literals, its id goes to the *pending*
//!   clauses, which are looked at before the lists are walked. A clause that goes may be the reason of a literal:
//!   `replace_reason` looks for another one, or empties the trail. Without the first a unit would be missed; without the
//!   second a literal would stay true that nothing forces any more.
//!
//! How far propagation has come is told by two heads: so many literals of the trail have had their lists walked, and so many
//! pending clauses have been looked at. Both are saved where a level begins, so that going back restores them.
//!
//! Contracts see three things: the clauses (for each id its literal set, and its slot where it is active), the trail, and the
//! greatest reserved variable. They don't see the order of a clause's literals and the lists, so that a body may move
//! watches as it likes.
#![tactic(auto)]

ghost use Rattle.std.specs.Prelude.{◌≡◌, ◌≢◌, ℕ, ◌+◌, ◌<◌, ◌≤◌, List, [], ◌++◌, ◌∷◌, ◌⊎◌, ◌↔◌, length, take, drop, slice_index, max, OnOk, OnErr, IsOk, IfOk, IfErr, IfSome, IfNone, MatchOption, Contains, IsTrue, Bool, true, false, ◌||◌, nat_eq, Some, None, is_some};
ghost use Rattle.std.specs.List.{list_all};
ghost use Rattle.lits.specs.Literal.{max_var, neg};
ghost use Rattle.session_rules.specs.Logic as logic;
ghost use Rattle.std.specs.FinMap as finmap;
ghost use Rattle.clause_store.specs.Clauses.{is_held, slot_at, lits_at, IsFresh, IsStore, new_clause};
ghost use Rattle.propagation.specs.Watching.{engine_in, IsMoved, NeedsNoVisit};
ghost use Rattle.propagation.specs.declared.TrailEntry.{TrailEntry};
ghost use Rattle.propagation.specs.Clauses.{clauses_of, active, active_at, slot_of, literals_at, is_weakened};
ghost use Rattle.watch_lists.specs.Watched.{AreReserved, IsWatched};
ghost use Rattle.propagation.specs.Inside.{ArePending};
ghost use Rattle.lits.specs.Literal.{var};
ghost use Rattle.propagation.specs.Engine.{EngineView, literals, level_after, value_in, IsFree, IsEntry, IsEngine, IsFalseAt, IsPropagated, Grows, with_entry, with_trail, with_vars, with_added, without_clause, with_weakened, has_clause, has_active, has_weakened, IsFreshSlot, HasRoomFor, AreFalse, FellBefore, IsUnitClause, no_engine, reason_in, level_behind, IsNoReason, IsSomeReason, IsReasonOf, IsOtherUnit, IsRestored, place_in, ReasonsAre, AssumesFrom, IsOnce, up_to_level};

mod assignment;
mod watching;

use crate::assignment::Assignment;
use crate::watching::{keep_short, look_at, needs_no_visit, propagate_trail, recall_invariant};
use clause_store::{Slot, Store, StoreFault};
use lits::{Lit, LitSet};
use std::alloc::{AllocError, Global};
use std::marker::Model;
use watch_lists::Watches;

/// A literal of the trail and the clause that forced it, or none where it was assumed.
#[derive(Clone, Copy)]
pub struct TrailEntry {
    lit: Lit,
    reason: Option<Slot>,
}

/// What follows of a clause: it is false, all but one free literal are, or nothing follows.
#[derive(Clone, Copy)]
enum Consequence {
    False,
    Unit(Lit),
    Quiet,
}

/// The first of the literals that is true with this reason.
fn forced_among(trail: &Assignment, lits: &[Lit], slot: Slot) -> Option<Lit>
    ensures some { IfSome result (λ l. reason_in trail.now.entries l ≡ Some slot) }
    ensures none { IfNone result ((l : ℕ) → Contains lits.now l → reason_in trail.now.entries l ≡ Some slot → ⊥) }
{
    for l in lits {
        if let Some(reason) = trail.reason(*l) {
            if reason == slot {
                return Some(*l);
            }
        }
    }
    None
}

/// How many literals of the trail have been propagated, and how many ids have been looked at.
#[derive(Clone, Copy)]
struct Heads {
    trail: usize,
    pending: usize,
}

/// Clauses, and a trail of true literals. Contracts see the clauses without the order of their literals, the trail, and
/// the greatest reserved variable.
#[derive(Drop)]
pub struct Engine {
    watches: Watches,
    trail: Assignment,
    // how many literals of the trail have been propagated
    head: usize,
    // the ids of clauses that are looked at whatever they watch: those of fewer than two literals, and those of which something
    // followed when they were added
    pending: Vec<u64>,
    // how many of these have been looked at
    pending_head: usize,
    // how many ids there may be before those are taken out that needn't be looked at
    limit: usize,
    // for each level that has begun, both heads as they were then
    levels: Vec<Heads>,
}

impl Model for Engine {
    ghost use Rattle.propagation.specs.Engine.{EngineView, engine_code};

    ghost Value = { EngineView };

    ghost coded = { engine_code };

    ghost use Rattle.std.specs.Vec.{vec_capacity};
    ghost use Rattle.propagation.specs.Watching.{engine_of};
    ghost use Rattle.propagation.specs.Inside.{IsEngineInside};

    ghost view = { λ e. engine_of e.watches.clauses e.trail.entries e.trail.vars };

    ghost invariant = { λ e. IsEngineInside e.watches e.trail e.head e.pending.items e.pending_head e.levels.items (vec_capacity e.levels) };
}

impl Engine {
    /// No clause, no literal, no variable.
    pub fn new(alloc: Global) -> Engine
        ensures { result ≡ no_engine }
    {
        Engine {
            watches: Watches::new(alloc),
            trail: Assignment::new(alloc),
            head: 0,
            pending: Vec::new(alloc),
            pending_head: 0,
            limit: 0,
            levels: Vec::new(alloc),
        }
    }

    /// Makes room for the variables up to this one, so that their literals may be used. Where memory is wanting the engine
    /// stays; what is reserved already needs none.
    pub fn reserve(&mut self, vars: u32) -> Result<(), AllocError>
        requires { vars ≤ max_var }
        ensures ok { OnOk result (self.new ≡ with_vars self.old (max self.old.vars vars)) }
        ensures err { OnErr result (self.new ≡ self.old) }
        ensures enough { vars ≤ self.old.vars → IsOk result }
    {
        if vars <= self.trail.vars() {
            return Ok(());
        }
        self.watches.reserve(vars)?;
        self.levels.reserve(vars as usize)?;
        self.trail.reserve(vars)
    }

    /// Adds an active clause of literals of reserved variables, at level 0. IdTaken comes exactly where the id is active or
    /// weakened; the engine stays after each refusal.
    pub fn add(&mut self, id: u64, lits: &[Lit]) -> Result<Slot, StoreFault>
        requires level { level_after self.old.trail ≡ 0 }
        requires reserved { HasRoomFor self.old lits.now }
        ensures ok { IfOk result (λ s. self.new ≡ with_added self.old id lits.now s) }
        ensures err { IfErr result (λ _. self.new ≡ self.old) }
        ensures fresh { IfOk result (IsFreshSlot self.old) }
        ensures free { IfOk result (λ _. has_clause self.old id ≡ false) }
        ensures taken { IfErr result (λ e. IsTrue (has_clause self.old id) → e ≡ StoreFault.IdTaken) }
        ensures memory { IfErr result (λ e. has_clause self.old id ≡ false → e ≡ StoreFault.Memory) }
    {
        let slot = match add_listed(&mut self.watches, &mut self.pending, id, lits) {
            Ok(slot) => slot,
            Err(fault) => return Err(fault),
        };
        if needs_no_visit(&mut self.watches, &self.trail, slot) {
            let _ = self.pending.pop();
        }
        Ok(slot)
    }

    /// Adds an active clause at any level, which is looked at before the next propagation.
    fn insert(&mut self, id: u64, lits: &[Lit]) -> Result<Slot, StoreFault>
        requires { HasRoomFor self.old lits.now }
        ensures ok { IfOk result (λ s. self.new ≡ with_added self.old id lits.now s) }
        ensures err { IfErr result (λ _. self.new ≡ self.old) }
        ensures fresh { IfOk result (IsFreshSlot self.old) }
        ensures free { IfOk result (λ _. has_clause self.old id ≡ false) }
        ensures taken { IfErr result (λ e. IsTrue (has_clause self.old id) → e ≡ StoreFault.IdTaken) }
        ensures memory { IfErr result (λ e. has_clause self.old id ≡ false → e ≡ StoreFault.Memory) }
    {
        add_listed(&mut self.watches, &mut self.pending, id, lits)
    }

    /// Adds a clause whose first literal follows at the present level, and puts this on the trail with the clause as its reason.
    /// The literals are distinct, the first is free, all others are false, and the second is the one of these that was
    /// assigned last. Refusals are those of `add`.
    pub fn add_asserting(&mut self, id: u64, lits: &[Lit]) -> Result<Slot, StoreFault>
        requires some { 0 < length lits.now }
        requires reserved { HasRoomFor self.old lits.now }
        requires free { IsFree (literals self.old.trail) (slice_index lits.now 0) }
        requires others { AreFalse self.old (drop 1 lits.now) }
        requires distinct { IsOnce lits.now }
        requires last { FellBefore self.old (drop 2 lits.now) (slice_index lits.now 1) }
        ensures ok { IfOk result (λ s.
            self.new ≡ with_entry (with_added self.old id lits.now s) (slice_index lits.now 0) (Some s)) }
        ensures err { IfErr result (λ _. self.new ≡ self.old) }
        ensures fresh { IfOk result (IsFreshSlot self.old) }
        ensures free { IfOk result (λ _. has_clause self.old id ≡ false) }
        ensures taken { IfErr result (λ e. IsTrue (has_clause self.old id) → e ≡ StoreFault.IdTaken) }
        ensures memory { IfErr result (λ e. has_clause self.old id ≡ false → e ≡ StoreFault.Memory) }
    {
        match self.insert(id, lits) {
            Ok(slot) => {
                self.put(lits[0], slot);
                Ok(slot)
            }
            Err(fault) => Err(fault),
        }
    }

    /// Takes an active clause that is no reason out, at level 0. NotActive comes exactly where the id isn't active, and then
    /// the engine stays. It takes no memory.
    pub fn delete(&mut self, id: u64) -> Result<(), StoreFault>
        requires level { level_after self.old.trail ≡ 0 }
        requires no_reason { IsNoReason self.old id }
        ensures ok { IfOk result (λ _. self.new ≡ without_clause self.old id) }
        ensures active { IfOk result (λ _. IsTrue (has_active self.old id)) }
        ensures err { IfErr result (λ e. (e ≡ StoreFault.NotActive) × (self.new ≡ self.old)) }
        ensures inactive { IfErr result (λ _. has_active self.old id ≡ false) }
    {
        self.watches.delete(id)
    }

    /// Makes an active clause a weakened one, which takes no part in propagation. NotActive comes exactly where the id isn't
    /// active; the engine stays after each refusal.
    pub fn weaken(&mut self, id: u64) -> Result<(), StoreFault>
        requires level { level_after self.old.trail ≡ 0 }
        requires no_reason { IsNoReason self.old id }
        ensures ok { IfOk result (λ _. self.new ≡ with_weakened self.old id) }
        ensures active { IfOk result (λ _. IsTrue (has_active self.old id)) }
        ensures err { IfErr result (λ _. self.new ≡ self.old) }
        ensures inactive { IfErr result (λ e. has_active self.old id ≡ false → e ≡ StoreFault.NotActive) }
        ensures memory { IfErr result (λ e. IsTrue (has_active self.old id) → e ≡ StoreFault.Memory) }
    {
        self.watches.weaken(id)
    }

    /// Makes a weakened clause an active one, at a slot that no active clause had. NotWeakened comes exactly where the id
    /// isn't weakened; the engine stays after each refusal.
    pub fn restore(&mut self, id: u64) -> Result<(), StoreFault>
        requires level { level_after self.old.trail ≡ 0 }
        ensures ok { IfOk result (λ _. IsRestored self.old id self.new) }
        ensures weakened { IfOk result (λ _. IsTrue (has_weakened self.old id)) }
        ensures err { IfErr result (λ _. self.new ≡ self.old) }
        ensures held { IfErr result (λ e. has_weakened self.old id ≡ false → e ≡ StoreFault.NotWeakened) }
        ensures memory { IfErr result (λ e. IsTrue (has_weakened self.old id) → e ≡ StoreFault.Memory) }
    {
        if let Err(fault) = self.watches.restore(id) {
            return Err(fault);
        }
        recall_invariant(&self.watches);
        if !needs_no_visit_at(&mut self.watches, &self.trail, id) {
            self.head = 0;
            self.pending_head = 0;
        }
        Ok(())
    }

    /// Whether the clause is a literal's reason.
    pub fn is_reason(&self, id: u64) -> bool
        ensures yes { IsTrue result → IsSomeReason self.now id }
        ensures no { result ≡ false → IsNoReason self.now id }
        ensures sound { IsEngine self.now }
    {
        self.forced_by(id).is_some()
    }

    /// The literal whose reason the clause is.
    fn forced_by(&self, id: u64) -> Option<Lit>
        ensures some { IfSome result (λ l. IsReasonOf self.now id l) }
        ensures none { IfNone result (IsNoReason self.now id) }
        ensures sound { IsEngine self.now }
    {
        match self.watches.find(id) {
            Some(slot) => forced_among(&self.trail, self.watches.lits(slot), slot),
            None => None,
        }
    }

    /// The slot of an active clause of the literal alone, of that with the least id; None where this is the given id.
    fn other_unit(&self, id: u64, l: Lit) -> Option<Slot>
        ensures some { IfSome result (λ s. IsOtherUnit self.now id l s) }
        ensures none { IfNone result ((x : ℕ) → IsUnitClause self.now x l → IsUnitClause self.now id l) }
    {
        let Ok(set) = LitSet::of(*self.levels.allocator(), &[l]) else {
            return None;
        };
        match self.watches.least_active(&set) {
            Some(least) => if least == id {
                None
            } else {
                self.watches.find(least)
            },
            None => None,
        }
    }

    /// Makes an active clause no literal's reason, at level 0, so that it may be deleted or weakened. Where it forced a literal,
    /// the active clause of this literal alone with the least id takes its place; where there is none, or where it is this
    /// clause, the trail is emptied. It takes no memory.
    pub fn replace_reason(&mut self, id: u64)
        requires level { level_after self.old.trail ≡ 0 }
        ensures no_reason { IsNoReason self.new id }
        ensures level { level_after self.new.trail ≡ 0 }
        ensures clauses { self.new.clauses ≡ self.old.clauses }
        ensures vars { self.new.vars ≡ self.old.vars }
        ensures literals { (literals self.new.trail ≡ literals self.old.trail) ⊎ (self.new.trail ≡ []) }
        ensures kept { IsNoReason self.old id → self.new ≡ self.old }
        ensures stays { (x l : ℕ) → IsReasonOf self.old id l → IsUnitClause self.old x l
            → ¬ (IsUnitClause self.old id l) → literals self.new.trail ≡ literals self.old.trail }
    {
        let Some(l) = self.forced_by(id) else {
            return;
        };
        match self.other_unit(id, l) {
            Some(slot) => self.trail.replace_reason(l, slot),
            None => self.clear(),
        }
    }

    /// The level: how many literals of the trail were assumed.
    pub fn level(&self) -> u32
        ensures value { result ≡ level_after self.now.trail }
        ensures sound { IsEngine self.now }
    {
        self.trail.level()
    }

    /// The level at which the literal or its negation came on the trail; None exactly where it is free.
    pub fn level_of(&self, l: Lit) -> Option<u32>
        ensures value { result ≡ level_behind 0 self.now.trail l }
        ensures sound { IsEngine self.now }
    {
        self.trail.level_of(l)
    }

    /// The place of a literal on the trail, an index of `trail`; None exactly where it isn't on it. What came on the trail
    /// later has the greater place.
    pub fn place_of(&self, l: Lit) -> Option<usize>
        ensures value { result ≡ place_in (literals self.now.trail) l }
        ensures sound { IsEngine self.now }
    {
        self.trail.place_of(l)
    }

    /// The reason of a literal; None exactly where it isn't on the trail or was assumed.
    pub fn reason(&self, l: Lit) -> Option<Slot>
        ensures value { result ≡ reason_in self.now.trail l }
        ensures sound { IsEngine self.now }
    {
        self.trail.reason(l)
    }

    /// The clauses as they are stored. The list of an active clause's slot has the literals of its set.
    pub fn store(&self) -> &Store
        ensures clauses { clauses_of result.now ≡ self.now.clauses }
        ensures stored { IsStore result.now }
        ensures slots { (id : ℕ) → slot_at result.now id ≡ slot_of self.now.clauses id }
        ensures literals { (id : ℕ) (c : List ℕ) → active_at self.now.clauses id ≡ Some c
            → (l : ℕ) → logic.has (lits_at result.now id) l ≡ logic.has c l }
        ensures sound { IsEngine self.now }
    {
        self.watches.store()
    }

    /// Empties the trail.
    pub fn clear(&mut self)
        ensures { self.new ≡ with_trail self.old [] }
    {
        compact(&self.watches, &mut self.pending, &mut self.limit);
        self.trail.clear();
        self.head = 0;
        self.pending_head = 0;
        self.levels.clear();
    }

    /// The true literals, oldest first.
    pub fn trail(&self) -> &[Lit]
        ensures literals { result.now ≡ literals self.now.trail }
        ensures sound { IsEngine self.now }
    {
        self.trail.lits()
    }

    /// The greatest reserved variable, 0 where there is none.
    pub fn vars(&self) -> u32
        ensures value { result ≡ self.now.vars }
        ensures sound { IsEngine self.now }
    {
        self.trail.vars()
    }

    /// The value of a literal; None exactly where its variable is free.
    pub fn value(&self, l: Lit) -> Option<bool>
        ensures value { result ≡ value_in (literals self.now.trail) l }
        ensures sound { IsEngine self.now }
    {
        self.trail.value(l)
    }

    /// Puts a literal that follows at the trail's end.
    fn put(&mut self, l: Lit, reason: Slot)
        requires { IsEntry self.old.clauses self.old.vars self.old.trail (record { lit = l; reason = Some reason }) }
        ensures { self.new ≡ with_entry self.old l (Some reason) }
    {
        self.trail.put(l, Some(reason));
    }

    /// Begins a level with this literal.
    pub fn assume(&mut self, l: Lit)
        requires reserved { var l ≤ self.old.vars }
        requires free { IsFree (literals self.old.trail) l }
        ensures { self.new ≡ with_entry self.old l None }
    {
        self.levels.push_reserved(Heads {
            trail: self.head,
            pending: self.pending_head,
        });
        self.trail.put(l, None);
    }

    /// Extends the trail by all that follows, or until a clause is false. Some is the slot of an active clause all of whose
    /// literals are false. None means that no active clause is false, and none has all literals false but one that is free.
    pub fn propagate(&mut self) -> Option<Slot>
        ensures grows { Grows self.old self.new }
        ensures found { IfSome result (λ s. IsFalseAt self.new s) }
        ensures rest { IfNone result (IsPropagated self.new) }
        ensures sound { IsEngine self.new }
    {
        if let Some(slot) = look_at(
            &mut self.watches,
            &mut self.trail,
            &self.pending,
            &mut self.pending_head,
        ) {
            return Some(slot);
        }
        let found = propagate_trail(&mut self.watches, &mut self.trail, &mut self.head);
        recall_invariant(&self.watches);
        found
    }

    /// Takes off the literals of higher levels; the level isn't above the present one.
    pub fn back_to(&mut self, level: u32)
        requires { level ≤ level_after self.old.trail }
        ensures { self.new ≡ with_trail self.old (up_to_level level self.old.trail) }
    {
        let kept = level as usize;
        if kept < self.levels.len() {
            let heads = self.levels[kept];
            self.head = heads.trail;
            self.pending_head = heads.pending;
            self.levels.truncate(kept);
            self.trail.back_to(level);
        }
    }
}

/// Looks at the clause of an id. Whether it is active, nothing follows of it and it has two literals or more.
fn needs_no_visit_at(watches: &mut Watches, trail: &Assignment, id: u64) -> bool
    requires { IsEngine (engine_in watches.old trail.now) }
    ensures moved { IsMoved (literals trail.now.entries) watches.old.clauses watches.new.clauses }
    ensures wide { length watches.new.lists ≡ length watches.old.lists }
    ensures sound { IsWatched watches.new }
    ensures needs_no_visit { IsTrue result → (q s : ℕ) → slot_at watches.new.clauses id ≡ Some s
        → slot_at watches.new.clauses q ≡ Some s
        → NeedsNoVisit (literals trail.now.entries) (lits_at watches.new.clauses q) }
    ensures active { IsTrue result → IsTrue (is_some (slot_at watches.new.clauses id)) }
{
    match watches.find(id) {
        Some(slot) => needs_no_visit(watches, trail, slot),
        None => false,
    }
}

/// Takes out the ids that needn't be looked at where the trail is empty, if they have become many.
fn compact(watches: &Watches, ids: &mut Vec<u64>, limit: &mut usize)
    ensures kept { ArePending (clauses_of watches.now.clauses) ids.old.items
        → ArePending (clauses_of watches.now.clauses) ids.new.items }
    ensures sound { IsWatched watches.now }
{
    recall_invariant(watches);
    if ids.len() > *limit {
        keep_short(watches, ids);
        *limit = ids.len().saturating_mul(2);
    }
}

/// Adds a clause and its id to the ids that are looked at.
fn add_listed(
    watches: &mut Watches,
    ids: &mut Vec<u64>,
    id: u64,
    lits: &[Lit],
) -> Result<Slot, StoreFault>
    requires { AreReserved watches.old lits.now }
    ensures wide { length watches.new.lists ≡ length watches.old.lists }
    ensures listed { IfOk result (λ _. ids.new.items ≡ ids.old.items ++ id ∷ []) }
    ensures fresh { IfOk result (λ s. IsFresh watches.old.clauses s) }
    ensures ok { IfOk result (λ s. watches.new.clauses ≡ finmap.insert watches.old.clauses id (new_clause lits.now s)) }
    ensures free { IfOk result (λ _. is_held watches.old.clauses id ≡ false) }
    ensures err { IfErr result (λ _. (watches.new.clauses ≡ watches.old.clauses) × (ids.new.items ≡ ids.old.items)) }
    ensures taken { IfErr result (λ e. IsTrue (is_held watches.old.clauses id) → e ≡ StoreFault.IdTaken) }
    ensures memory { IfErr result (λ e. is_held watches.old.clauses id ≡ false → e ≡ StoreFault.Memory) }
{
    match watches.add(id, lits) {
        Ok(slot) => {
            if ids.push(id).is_ok() {
                Ok(slot)
            } else {
                let _ = watches.delete(id);
                Err(StoreFault::Memory)
            }
        }
        Err(fault) => Err(fault),
    }
}

/// What a trail says of closing sequences and of hints. Where nothing follows there is no closing sequence; the reasons along a
/// trail and a false clause close, and so do the reasons alone where a literal of the start is false.
pub fn law_of_trails()
    ensures quiet { (e : EngineView) (ls : List ℕ) → IsEngine e → IsPropagated e
        → ((l : ℕ) → IsTrue (logic.has ls l) → IsTrue (logic.has (literals e.trail) l))
        → logic.Closes (active e.clauses) ls → ⊥ }
    ensures hints { (e : EngineView) (ls ids : List ℕ) (s id : ℕ) → IsEngine e → AssumesFrom e.trail ls
        → ReasonsAre e.clauses e.trail ids → IsFalseAt e s → slot_of e.clauses id ≡ Some s
        → logic.hints_fail (active_at e.clauses) ls (ids ++ id ∷ []) ≡ None }
    ensures opposite { (e : EngineView) (ls ids : List ℕ) (l : ℕ) → IsEngine e → AssumesFrom e.trail ls
        → ReasonsAre e.clauses e.trail ids → IsTrue (logic.has ls l) → IsTrue (logic.has (literals e.trail) (neg l))
        → logic.hints_fail (active_at e.clauses) ls ids ≡ None }
    ensures once { (e : EngineView) (ids : List ℕ) (s id : ℕ) → IsEngine e → ReasonsAre e.clauses e.trail ids
        → IsFalseAt e s → slot_of e.clauses id ≡ Some s → IsOnce (ids ++ id ∷ []) }
    ensures once_reasons { (e : EngineView) (ids : List ℕ) → IsEngine e → ReasonsAre e.clauses e.trail ids → IsOnce ids }
    ensures lower { (n : ℕ) (ss : List TrailEntry) → level_after (up_to_level n ss) ≤ n }
{}

/// Without assumptions, and where propagation has ended and no clause is false, the literals of the trail are just the forced
/// ones. Those of level 0 are forced in any case.
pub fn law_of_forced_literals()
    ensures exactly { (e : EngineView) (l : ℕ) → IsEngine e → IsPropagated e → level_after e.trail ≡ 0
        → IsTrue (logic.has (literals e.trail) l) ↔ logic.Forced (active e.clauses) l }
    ensures sound { (e : EngineView) (l : ℕ) → IsEngine e → IsTrue (logic.has (literals (up_to_level 0 e.trail)) l)
        → logic.Forced (active e.clauses) l }
    ensures complete { (e : EngineView) (l : ℕ) → IsPropagated e → logic.Forced (active e.clauses) l
        → IsTrue (logic.has (literals e.trail) l) }
{}

/// What an entry of the trail says of its literal: its place, its level and its reason.
pub fn law_of_places()
    ensures place { (e : EngineView) (before after : List TrailEntry) (s : TrailEntry) → IsEngine e
        → e.trail ≡ before ++ s ∷ after → place_in (literals e.trail) s.lit ≡ Some (length before) }
    ensures level { (e : EngineView) (before after : List TrailEntry) (s : TrailEntry) → IsEngine e
        → e.trail ≡ before ++ s ∷ after → level_behind 0 e.trail s.lit ≡ Some (level_after (before ++ s ∷ [])) }
    ensures reason { (e : EngineView) (before after : List TrailEntry) (s : TrailEntry) → IsEngine e
        → e.trail ≡ before ++ s ∷ after → reason_in e.trail s.lit ≡ s.reason }
    ensures negation { (e : EngineView) (l : ℕ) → IsEngine e → IsTrue (logic.has (literals e.trail) l)
        → logic.has (literals e.trail) (neg l) ≡ false }
{}
