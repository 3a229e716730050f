// An active clause becomes an irredundant one: its id is put into the set of these, and into the list of each of its literals.
ghost use Rattle.std.specs.Prelude.{◌≡◌, ℕ, ◌+◌, ◌*◌, ◌<◌, ◌≤◌, ◌^◌, [], ◌∷◌, ◌++◌, List, length, false, Some, Contains, OnOk};
ghost use Rattle.lits.specs.Clause.{is_tautology, set_of};
ghost use Rattle.propagation.specs.Clauses.{active_at, literals_at};
ghost use Rattle.propagation.specs.Engine.{HasRoomFor, has_clause, level_after};
ghost use Rattle.occurrence_lists.specs.Occurring.{IsAdded};
ghost use Rattle.elimination.specs.Inside.{IsInserted, IsListed, IsAdmission};

use crate::id_set::IdSet;
use crate::pairs::lits_of;
use lits::{Lit, LitSet};
use occurrence_lists::Occurrences;
use propagation::Engine;
use session_events::ClauseList;
use session_rules::Id;
use std::alloc::{AllocError, Global};

/// Puts an active clause among the irredundant ones and into the lists of its literals.
///
/// `AllocError` means out of memory, and then the id may be in one of both alone.
pub(crate) fn list_clause(
    engine: &Engine,
    irredundant: &mut IdSet,
    occurrences: &mut Occurrences,
    id: Id,
) -> Result<(), AllocError>
    requires limit { id < 2 ^ 63 }
    requires wide { 2 * engine.now.vars ≤ length occurrences.old }
    requires fresh { Contains irredundant.old id → ⊥ }
    requires active { (c : List ℕ) × (active_at engine.now.clauses id ≡ Some c) }
    ensures inserted { OnOk result (IsInserted irredundant.old id irredundant.new) }
    ensures added { OnOk result (IsAdded occurrences.old id (literals_at engine.now.clauses id) occurrences.new) }
{
    let store = engine.store();
    occurrences.add(id, lits_of(store, id))?;
    irredundant.insert(id)
}

/// Lists an active clause, unless it is a tautology.
///
/// `AllocError` means out of memory, and then the id may be in one of both alone.
fn list_input(
    engine: &Engine,
    irredundant: &mut IdSet,
    occurrences: &mut Occurrences,
    id: Id,
    tautology: bool,
) -> Result<(), AllocError>
    requires limit { id < 2 ^ 63 }
    requires wide { 2 * engine.now.vars ≤ length occurrences.old }
    requires fresh { Contains irredundant.old id → ⊥ }
    requires active { (c : List ℕ) × (active_at engine.now.clauses id ≡ Some c) }
    ensures { OnOk result (IsListed tautology id (literals_at engine.now.clauses id) irredundant.old occurrences.old irredundant.new occurrences.new) }
{
    if tautology {
        return Ok(());
    }
    list_clause(engine, irredundant, occurrences, id)
}

/// Adds an input to the parts of a board.
///
/// `AllocError` means out of memory, and then the input may be in some of them alone.
pub(crate) fn add_input(
    engine: &mut Engine,
    irredundant: &mut IdSet,
    occurrences: &mut Occurrences,
    inputs: &mut ClauseList,
    alloc: Global,
    id: Id,
    lits: &[Lit],
) -> Result<(), AllocError>
    requires level { level_after engine.old.trail ≡ 0 }
    requires reserved { HasRoomFor engine.old lits.now }
    requires free { has_clause engine.old id ≡ false }
    requires limit { id < 2 ^ 63 }
    requires wide { 2 * engine.old.vars ≤ length occurrences.old }
    requires fresh { Contains irredundant.old id → ⊥ }
    ensures { OnOk result (IsAdmission engine.old irredundant.old occurrences.old inputs.old id lits.now engine.new irredundant.new occurrences.new inputs.new) }
{
    let set = LitSet::of(alloc, lits)?;
    let Ok(_) = engine.add(id, lits) else {
        return Err(AllocError);
    };
    list_input(engine, irredundant, occurrences, id, set.tautology())?;
    inputs.push(lits)
}
