// The clauses of a board: each change of them is told to a log the moment it is made.
ghost use Rattle.std.specs.Prelude.{◌≡◌, ℕ, ◌+◌, ◌<◌, ◌≤◌, ◌^◌, [], ◌∷◌, List, length, false, Some, Contains, OnOk, IfOk, IfErr};
ghost use Rattle.lits.specs.Clause.{is_tautology};
ghost use Rattle.session_rules.specs.declared.Told.{Told};
ghost use Rattle.propagation.specs.Clauses.{active_at};
ghost use Rattle.propagation.specs.Engine.{HasRoomFor, IsNoReason};
ghost use Rattle.clause_store.specs.Clauses.{IsOnce};
ghost use Rattle.resolvents.specs.Held.{AreReserved};
ghost use Rattle.restore.specs.Stack.{has_set};
ghost use Rattle.elimination.specs.Steps.{TakesEach, standing, IsDue};
ghost use Rattle.elimination.specs.Inside.{IsInserted};
ghost use Rattle.elimination.specs.Databases.{IsDatabase, LeadTo, BreaksOff, HasDeleted, HasWeakened, irredundant_of};
ghost use Rattle.elimination.specs.Restoring.{Restores};

use crate::fault::BoardFault;
use crate::id_set::IdSet;
use crate::known::is_known;
use crate::listing::list_clause;
use crate::pairs::lits_of;
use lits::{Lit, Lits};
use occurrence_lists::Occurrences;
use propagation::Engine;
use resolvents::Resolver;
use restore::Kept;
use session_rules::{Id, Log};
use std::alloc::Global;

/// The clauses of a board: the engine that has them, the ids of the irredundant ones, the lists of these by literal, and the
/// next id.
#[derive(Drop)]
pub(crate) struct Database {
    pub(crate) engine: Engine,
    pub(crate) irredundant: IdSet,
    // for each literal the irredundant clauses that hold it
    pub(crate) occurrences: Occurrences,
    pub(crate) next_id: Id,
}

impl Database {
    /// Tells a lemma, and adds it under the next id as an irredundant clause. It is no tautology, and its variables are reserved.
    ///
    /// After a fault the clauses are given up.
    pub(crate) fn tell_lemma<L: Log>(
        &mut self,
        lits: &[Lit],
        hints: &[Id],
        log: &mut L,
    ) -> Result<(), BoardFault>
        requires sound { IsDatabase self.old }
        requires due { IsDue (standing self.old.engine.clauses) (Told.Lemma self.old.next_id lits.now hints.now) }
        requires clean { is_tautology lits.now ≡ false }
        requires reserved { HasRoomFor self.old.engine lits.now }
        requires room { self.old.next_id + L.room log.old ≤ 2 ^ 63 }
        ensures taken { OnOk result (L.takes log.old (Told.Lemma self.old.next_id lits.now hints.now) log.new) }
        ensures leads { OnOk result (LeadTo self.old (Told.Lemma self.old.next_id lits.now hints.now ∷ []) self.new) }
        ensures listed { OnOk result (IsInserted self.old.irredundant self.old.next_id self.new.irredundant) }
        ensures sound { OnOk result (IsDatabase self.new) }
        ensures room { OnOk result (self.new.next_id + L.room log.new ≤ 2 ^ 63) }
        ensures broken { IfErr result (λ e. BreaksOff L.takes L.refuses (standing self.old.engine.clauses) log.old e log.new) }
    {
        let id = self.next_id;
        if let Err(fault) = log.lemma(id, lits, hints) {
            return Err(BoardFault::Log(fault));
        }
        if self.engine.add(id, lits).is_err() {
            return Err(BoardFault::Memory);
        }
        let listed = list_clause(
            &self.engine,
            &mut self.irredundant,
            &mut self.occurrences,
            id,
        );
        if listed.is_err() {
            return Err(BoardFault::Memory);
        }
        self.next_id = id + 1;
        Ok(())
    }

    /// Tells that a weakened clause is restored, and restores it: it is irredundant again. It is no tautology.
    ///
    /// After a fault the clauses are given up.
    pub(crate) fn tell_restoring<L: Log>(
        &mut self,
        kept: &Kept,
        log: &mut L,
    ) -> Result<(), BoardFault>
        requires sound { IsDatabase self.old }
        requires due { IsDue (standing self.old.engine.clauses) (Told.Restore kept.now.id kept.now.lits) }
        requires clean { is_tautology kept.now.lits ≡ false }
        requires room { self.old.next_id + L.room log.old ≤ 2 ^ 63 }
        ensures restored { OnOk result (Restores L.takes log.old self.old (kept.now ∷ []) self.new log.new) }
        ensures room { OnOk result (self.new.next_id + L.room log.new ≤ 2 ^ 63) }
        ensures broken { IfErr result (λ e. BreaksOff L.takes L.refuses (standing self.old.engine.clauses) log.old e log.new) }
    {
        let _ = self.engine.level();
        let id = kept.id;
        if let Err(fault) = log.restore(id, kept.lits.as_slice()) {
            return Err(BoardFault::Log(fault));
        }
        if self.engine.restore(id).is_err() {
            return Err(BoardFault::Memory);
        }
        let listed = list_clause(
            &self.engine,
            &mut self.irredundant,
            &mut self.occurrences,
            id,
        );
        if listed.is_err() {
            return Err(BoardFault::Memory);
        }
        Ok(())
    }

    /// Tells that an active clause is deleted, and deletes it. It isn't irredundant, and it is no literal's reason.
    ///
    /// After a fault the clauses are given up.
    pub(crate) fn tell_deletion<L: Log>(&mut self, id: Id, log: &mut L) -> Result<(), BoardFault>
        requires sound { IsDatabase self.old }
        requires active { (c : List ℕ) × (active_at self.old.engine.clauses id ≡ Some c) }
        requires redundant { Contains self.old.irredundant id → ⊥ }
        requires no_reason { IsNoReason self.old.engine id }
        requires room { self.old.next_id + L.room log.old ≤ 2 ^ 63 }
        ensures deleted { OnOk result (HasDeleted L.takes log.old self.old id self.new log.new) }
        ensures room { OnOk result (self.new.next_id + L.room log.new ≤ 2 ^ 63) }
        ensures broken { IfErr result (λ e. BreaksOff L.takes L.refuses (standing self.old.engine.clauses) log.old e log.new) }
    {
        let store = self.engine.store();
        if let Err(fault) = log.delete(id, lits_of(store, id)) {
            return Err(BoardFault::Log(fault));
        }
        if self.engine.delete(id).is_err() {
            return Err(BoardFault::Memory);
        }
        Ok(())
    }

    /// Tells that an irredundant clause is weakened, and weakens it: it is taken out of the lists, and its literals are handed
    /// out. It is no literal's reason.
    ///
    /// After a fault the clauses are given up.
    pub(crate) fn tell_weakening<L: Log>(
        &mut self,
        alloc: Global,
        id: Id,
        log: &mut L,
    ) -> Result<Kept, BoardFault>
        requires sound { IsDatabase self.old }
        requires irredundant { Contains self.old.irredundant id }
        requires no_reason { IsNoReason self.old.engine id }
        requires room { self.old.next_id + L.room log.old ≤ 2 ^ 63 }
        ensures weakened { IfOk result (λ kept. HasWeakened L.takes log.old self.old id self.new log.new kept) }
        ensures room { OnOk result (self.new.next_id + L.room log.new ≤ 2 ^ 63) }
        ensures broken { IfErr result (λ e. BreaksOff L.takes L.refuses (standing self.old.engine.clauses) log.old e log.new) }
    {
        let store = self.engine.store();
        let mut lits = Vec::new(alloc);
        if lits.extend_from_slice(lits_of(store, id)).is_err() {
            return Err(BoardFault::Memory);
        }
        if let Err(fault) = log.weaken(id, &lits) {
            return Err(BoardFault::Log(fault));
        }
        if self.engine.weaken(id).is_err() {
            return Err(BoardFault::Memory);
        }
        self.irredundant.remove(id);
        self.occurrences.remove(id, &lits);
        Ok(Kept {
            id,
            lits: Lits::from_vec(lits),
        })
    }

    /// Whether some irredundant clause has the set of the clause that is held, which has a literal.
    pub(crate) fn knows(&self, resolver: &Resolver) -> bool
        requires sound { IsDatabase self.now }
        requires some { 0 < length resolver.now.clause }
        requires once { IsOnce resolver.now.clause }
        requires reserved { AreReserved self.now.engine.vars resolver.now.clause }
        requires room { self.now.engine.vars ≤ resolver.now.reserved }
        ensures { result ≡ has_set (irredundant_of self.now) resolver.now.clause }
    {
        let store = self.engine.store();
        is_known(resolver, store, &self.occurrences)
    }
}
