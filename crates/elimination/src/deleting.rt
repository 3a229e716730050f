// The lemmas with an eliminated variable are deleted.
ghost use Rattle.std.specs.Prelude.{◌≡◌, ◌+◌, ◌≤◌, ◌<◌, ◌^◌, true, false, Contains, OnOk, IfOk, IfErr};
ghost use Rattle.propagation.specs.Engine.{literals};
ghost use Rattle.restore.specs.Resolution.{has_variable};
ghost use Rattle.elimination.specs.Steps.{standing};
ghost use Rattle.elimination.specs.Databases.{IsDatabase, BreaksOff};
ghost use Rattle.elimination.specs.Deleting.{IsLemmaWith, DeletesLemmas};

use crate::database::Database;
use crate::eligible::is_frozen;
use crate::fault::BoardFault;
use crate::pairs::lits_of;
use lits::LitSet;
use session_rules::{Id, Log};
use std::alloc::{AllocError, Global};

/// Whether an id is that of a lemma with a variable: an active clause that isn't irredundant, and no tautology.
///
/// `AllocError` means out of memory.
fn is_lemma_with(clauses: &Database, alloc: Global, var: u32, id: Id) -> Result<bool, AllocError>
    ensures yes { IfOk result (λ b. b ≡ true → IsLemmaWith var clauses.now id) }
    ensures no { IfOk result (λ b. b ≡ false → IsLemmaWith var clauses.now id → ⊥) }
{
    let store = clauses.engine.store();
    let lits = lits_of(store, id);
    if !is_frozen(lits, var) {
        return Ok(false);
    }
    if clauses.irredundant.has(id) {
        return Ok(false);
    }
    let set = LitSet::of(alloc, lits)?;
    Ok(!set.tautology())
}

/// Deletes the clause of an id, and tells it, where this is a lemma with a variable that isn't assigned.
///
/// After a fault the clauses are given up.
fn delete_lemma<L: Log>(
    clauses: &mut Database,
    alloc: Global,
    var: u32,
    id: Id,
    log: &mut L,
) -> Result<(), BoardFault>
    requires sound { IsDatabase clauses.old }
    requires unassigned { has_variable var (literals clauses.old.engine.trail) ≡ false }
    requires room { clauses.old.next_id + L.room log.old ≤ 2 ^ 63 }
    ensures deleted { OnOk result (DeletesLemmas L.takes var log.old clauses.old id (id + 1) clauses.new log.new) }
    ensures room { OnOk result (clauses.new.next_id + L.room log.new ≤ 2 ^ 63) }
    ensures broken { IfErr result (λ e. BreaksOff L.takes L.refuses (standing clauses.old.engine.clauses) log.old e log.new) }
{
    let _ = clauses.engine.level();
    let Ok(due) = is_lemma_with(clauses, alloc, var, id) else {
        return Err(BoardFault::Memory);
    };
    if !due {
        return Ok(());
    }
    if let Err(fault) = clauses.tell_deletion(id, log) {
        return Err(fault);
    }
    Ok(())
}

/// Deletes all lemmas with a variable that isn't assigned, and tells each.
///
/// After a fault the clauses are given up.
pub(crate) fn delete_lemmas<L: Log>(
    clauses: &mut Database,
    alloc: Global,
    var: u32,
    log: &mut L,
) -> Result<(), BoardFault>
    requires sound { IsDatabase clauses.old }
    requires unassigned { has_variable var (literals clauses.old.engine.trail) ≡ false }
    requires room { clauses.old.next_id + L.room log.old ≤ 2 ^ 63 }
    ensures deleted { OnOk result (DeletesLemmas L.takes var log.old clauses.old 0 clauses.old.next_id clauses.new log.new) }
    ensures room { OnOk result (clauses.new.next_id + L.room log.new ≤ 2 ^ 63) }
    ensures broken { IfErr result (λ e. BreaksOff L.takes L.refuses (standing clauses.old.engine.clauses) log.old e log.new) }
{
    let end = clauses.next_id;
    for id in 0..end {
        if let Err(fault) = delete_lemma(clauses, alloc, var, id, log) {
            return Err(fault);
        }
    }
    Ok(())
}
