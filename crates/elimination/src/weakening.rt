// The clauses of an eliminated variable are weakened, and kept for its entry.
ghost use Rattle.std.specs.Prelude.{◌≡◌, ℕ, ◌+◌, ◌≤◌, ◌^◌, [], true, false, Contains, OnOk, IfErr};
ghost use Rattle.clause_store.specs.Clauses.{IsOnce};
ghost use Rattle.propagation.specs.Clauses.{literals_at};
ghost use Rattle.propagation.specs.Engine.{literals};
ghost use Rattle.restore.specs.Resolution.{has_variable};
ghost use Rattle.elimination.specs.Steps.{standing};
ghost use Rattle.elimination.specs.Databases.{IsDatabase, BreaksOff};
ghost use Rattle.elimination.specs.Weakening.{WeakensEach};

use crate::database::Database;
use crate::fault::BoardFault;
use restore::KeptList;
use session_rules::{Id, Log};
use std::alloc::Global;

/// Weakens irredundant clauses with a variable that isn't assigned, one after another, tells each, and keeps each in a list that
/// was empty.
///
/// After a fault the clauses are given up.
pub(crate) fn weaken_each<L: Log>(
    clauses: &mut Database,
    alloc: Global,
    var: u32,
    ids: &[Id],
    kept: &mut KeptList,
    log: &mut L,
) -> Result<(), BoardFault>
    requires sound { IsDatabase clauses.old }
    requires irredundant { (id : ℕ) → Contains ids.now id → Contains clauses.old.irredundant id }
    requires once { IsOnce ids.now }
    requires holding { (id : ℕ) → Contains ids.now id → has_variable var (literals_at clauses.old.engine.clauses id) ≡ true }
    requires unassigned { has_variable var (literals clauses.old.engine.trail) ≡ false }
    requires empty { kept.old ≡ [] }
    requires room { clauses.old.next_id + L.room log.old ≤ 2 ^ 63 }
    ensures weakened { OnOk result (WeakensEach L.takes log.old clauses.old ids.now kept.new clauses.new log.new) }
    ensures room { OnOk result (clauses.new.next_id + L.room log.new ≤ 2 ^ 63) }
    ensures broken { IfErr result (λ e. BreaksOff L.takes L.refuses (standing clauses.old.engine.clauses) log.old e log.new) }
{
    for id in ids {
        let _ = clauses.engine.level();
        let clause = match clauses.tell_weakening(alloc, *id, log) {
            Ok(clause) => clause,
            Err(fault) => return Err(fault),
        };
        if kept.push(clause).is_err() {
            return Err(BoardFault::Memory);
        }
    }
    Ok(())
}
