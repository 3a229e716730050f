// A variable is taken out of the clauses: its resolvents come, its lemmas go, and its irredundant clauses are weakened.
ghost use Rattle.std.specs.Prelude.{◌≡◌, ℕ, ◌+◌, ◌≤◌, ◌^◌, false, length, take, drop, Contains, OnOk, IfOk, IfErr};
ghost use Rattle.clause_store.specs.Clauses.{IsOnce};
ghost use Rattle.propagation.specs.Engine.{literals};
ghost use Rattle.restore.specs.Resolution.{has_variable};
ghost use Rattle.elimination.specs.Steps.{standing};
ghost use Rattle.elimination.specs.Databases.{IsDatabase, BreaksOff};
ghost use Rattle.elimination.specs.Resolving.{IsFirst, IsSecond};
ghost use Rattle.elimination.specs.Weakening.{TakesOut};

use crate::database::Database;
use crate::deleting::delete_lemmas;
use crate::fault::BoardFault;
use crate::resolving::{Workbench, resolve_all};
use crate::weakening::weaken_each;
use restore::KeptList;
use session_rules::{Id, Log};
use std::alloc::Global;

/// Takes a variable that isn't assigned out of the clauses. The first of the ids are those of the clauses that hold it, and the
/// rest those of the clauses that hold its negation: their resolvents are told and added, then the lemmas with the variable are
/// deleted, and then these clauses are weakened and handed out.
///
/// After a fault the clauses are given up.
pub(crate) fn take_out<L: Log>(
    clauses: &mut Database,
    bench: &mut Workbench,
    alloc: Global,
    var: u32,
    ids: &[Id],
    split: usize,
    log: &mut L,
) -> Result<KeptList, BoardFault>
    requires sound { IsDatabase clauses.old }
    requires split { split ≤ length ids.now }
    requires firsts { (i : ℕ) → Contains (take split ids.now) i → IsFirst var clauses.old i }
    requires seconds { (j : ℕ) → Contains (drop split ids.now) j → IsSecond var clauses.old j }
    requires once { IsOnce ids.now }
    requires unassigned { has_variable var (literals clauses.old.engine.trail) ≡ false }
    requires first_room { clauses.old.engine.vars ≤ bench.old.first.reserved }
    requires second_room { clauses.old.engine.vars ≤ bench.old.second.reserved }
    requires room { clauses.old.next_id + L.room log.old ≤ 2 ^ 63 }
    ensures taken { IfOk result (λ kept. TakesOut L.takes var log.old clauses.old (take split ids.now) (drop split ids.now) ids.now kept clauses.new log.new) }
    ensures first { bench.new.first.reserved ≡ bench.old.first.reserved }
    ensures second { bench.new.second.reserved ≡ bench.old.second.reserved }
    ensures room { OnOk result (clauses.new.next_id + L.room log.new ≤ 2 ^ 63) }
    ensures broken { IfErr result (λ e. BreaksOff L.takes L.refuses (standing clauses.old.engine.clauses) log.old e log.new) }
{
    let firsts = &ids[..split];
    let seconds = &ids[split..];
    if let Err(fault) = resolve_all(clauses, bench, var, firsts, seconds, log) {
        return Err(fault);
    }
    if let Err(fault) = delete_lemmas(clauses, alloc, var, log) {
        return Err(fault);
    }
    let mut kept = KeptList::new(alloc);
    if let Err(fault) = weaken_each(clauses, alloc, var, ids, &mut kept, log) {
        return Err(fault);
    }
    Ok(kept)
}
