// Steps with a list of ids. Each id changes one clause, in the list's order, and the first that doesn't stand as it must when
// its turn comes is told by its place, from 1 on.

ghost use Rattle.std.specs.Prelude.{ℕ, IfOk};
ghost use Rattle.session_rules.specs.declared.LStep.TheVariants as lsteps;
ghost use Rattle.session_rules.specs.declared.Standing.TheVariants.{Active, Weakened, Absent};
ghost use Rattle.session_rules.specs.Own.{is_active, is_weakened};
ghost use Rattle.side_laws.specs.ClauseStates.{clauses_of_store, AreWithin};
ghost use Rattle.pair_matcher.specs.Turns.{Turned};

use clause_store::{Store, StoreFault};
use session_rules::Id;
use std::alloc::AllocError;

/// Takes out the active clauses of these ids. It takes no memory.
pub fn delete_each(store: &mut Store, ids: &[Id]) -> Option<u64>
    ensures turned { Turned lsteps.Delete is_active Absent store.old store.new ids.now result }
    ensures within { (vars : ℕ) → AreWithin (clauses_of_store store.old) vars → AreWithin (clauses_of_store store.new) vars }
{
    for (i, id) in ids.iter().enumerate() {
        match store.delete(*id) {
            Ok(()) => {}
            Err(_) => return Some(i as u64 + 1),
        }
    }
    None
}

/// Makes the active clauses of these ids weakened.
pub fn weaken_each(store: &mut Store, ids: &[Id]) -> Result<Option<u64>, AllocError>
    ensures turned { IfOk result (λ place. Turned lsteps.Weaken is_active Weakened store.old store.new ids.now place) }
    ensures within { (vars : ℕ) → AreWithin (clauses_of_store store.old) vars → AreWithin (clauses_of_store store.new) vars }
{
    for (i, id) in ids.iter().enumerate() {
        match store.weaken(*id) {
            Ok(()) => {}
            Err(StoreFault::NotActive) => return Ok(Some(i as u64 + 1)),
            Err(_) => return Err(AllocError),
        }
    }
    Ok(None)
}

/// Makes the weakened clauses of these ids active.
pub fn restore_each(store: &mut Store, ids: &[Id]) -> Result<Option<u64>, AllocError>
    ensures turned { IfOk result (λ place. Turned lsteps.Restore is_weakened Active store.old store.new ids.now place) }
    ensures within { (vars : ℕ) → AreWithin (clauses_of_store store.old) vars → AreWithin (clauses_of_store store.new) vars }
{
    for (i, id) in ids.iter().enumerate() {
        match store.restore(*id) {
            Ok(()) => {}
            Err(StoreFault::NotWeakened) => return Ok(Some(i as u64 + 1)),
            Err(_) => return Err(AllocError),
        }
    }
    Ok(None)
}
