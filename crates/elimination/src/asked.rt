// Whether a variable is eligible, asked without memory: each pair of clauses is compared literal by literal. It answers what
// [`crate::is_eligible_on`] does, which is faster where clauses are long.
ghost use Rattle.std.specs.Prelude.{◌≡◌, ℕ, ◌<◌, ◌≤◌, ◌*◌, ◌++◌, List, false, true, length, map, Contains};
ghost use Rattle.lits.specs.Literal.{max_var};
ghost use Rattle.lits.specs.Clause.{is_tautology};
ghost use Rattle.clause_store.specs.Clauses.{lits_at};
ghost use Rattle.propagation.specs.Clauses.{literals_at};
ghost use Rattle.propagation.specs.Engine.{literals};
ghost use Rattle.restore.specs.Resolution.{has_variable, holds, holds_negated};
ghost use Rattle.elimination_laws.specs.Eligible.{eligible, has_few_resolvents};
ghost use Rattle.occurrence_lists.specs.Occurring.{row, StandsFor};
ghost use Rattle.elimination.specs.Pairs.{clauses_at, found_with, may_go, AreClean};
ghost use Rattle.elimination.specs.Known.{numbered, AreListedBy};

use crate::eligible::is_frozen;
use crate::pairs::{MOST_HOLDING, lits_of};
use clause_store::Store;
use lits::Lit;
use occurrence_lists::Occurrences;
use propagation::Engine;
use resolvents::is_tautology_of;

/// How many resolvents of a clause with these are no tautologies.
fn count_of(store: &Store, var: u32, first: &[Lit], ids: &[u64]) -> usize
    requires first { is_tautology first.now ≡ false }
    requires clean { AreClean store.now ids.now }
    ensures found { result ≡ found_with var first.now (clauses_at store.now ids.now) }
    ensures few { result ≤ length ids.now }
{
    let mut count = 0;
    for id in ids {
        if !is_tautology_of(var, first, lits_of(store, *id)) {
            count += 1;
        }
    }
    count
}

/// Whether the resolvents that are no tautologies are at most as many as the clauses.
fn are_few(store: &Store, var: u32, with: &[u64], against: &[u64]) -> bool
    requires clean_with { AreClean store.now with.now }
    requires clean_against { AreClean store.now against.now }
    requires hold { (id : ℕ) → Contains with.now id → holds var (lits_at store.now id) ≡ true }
    requires hold_negation { (id : ℕ) → Contains against.now id → holds_negated var (lits_at store.now id) ≡ true }
    ensures { result ≡ has_few_resolvents (clauses_at store.now with.now ++ clauses_at store.now against.now) var }
{
    let most = with.len() + against.len();
    let mut count = 0;
    for id in with {
        count += count_of(store, var, lits_of(store, *id), against);
        if count > most {
            return false;
        }
    }
    true
}

/// Whether the clauses allow that a variable is eliminated.
fn could_go(store: &Store, var: u32, with: &[u64], against: &[u64]) -> bool
    requires clean_with { AreClean store.now with.now }
    requires clean_against { AreClean store.now against.now }
    requires hold { (id : ℕ) → Contains with.now id → holds var (lits_at store.now id) ≡ true }
    requires hold_negation { (id : ℕ) → Contains against.now id → holds_negated var (lits_at store.now id) ≡ true }
    ensures { result ≡ may_go (clauses_at store.now with.now ++ clauses_at store.now against.now) var }
{
    if with.len() + against.len() == 0 {
        return false;
    }
    if with.len() > MOST_HOLDING {
        return false;
    }
    if against.len() > MOST_HOLDING {
        return false;
    }
    are_few(store, var, with, against)
}

/// Whether a variable that isn't assigned is eligible by the irredundant clauses, for which the lists stand.
fn could_be_eligible(store: &Store, occurrences: &Occurrences, var: u32, frozen: &[Lit]) -> bool
    requires positive { 0 < var }
    requires limit { var ≤ max_var }
    requires listed { 2 * var ≤ length occurrences.now }
    requires clean { (l : ℕ) → AreClean store.now (row occurrences.now l) }
    requires stands { (ids : List ℕ) × StandsFor occurrences.now (numbered store.now ids) }
    ensures { (ids assigned : List ℕ) → StandsFor occurrences.now (numbered store.now ids) → has_variable var assigned ≡ false → result ≡ eligible (clauses_at store.now ids) frozen.now assigned var }
{
    if is_frozen(frozen, var) {
        return false;
    }
    let l = Lit::from_code(2 * (var - 1));
    could_go(store, var, occurrences.ids(l), occurrences.ids(l.neg()))
}

/// Whether a variable is eligible on an engine whose irredundant clauses the lists have: by its trail as it stands, and the
/// frozen literals. The variable has lists. It takes no memory.
pub fn would_be_eligible(
    engine: &Engine,
    occurrences: &Occurrences,
    var: u32,
    frozen: &[Lit],
) -> bool
    requires positive { 0 < var }
    requires limit { var ≤ max_var }
    requires listed { 2 * var ≤ length occurrences.now }
    requires stands { (ids : List ℕ) × AreListedBy engine.now.clauses occurrences.now ids }
    ensures { (ids : List ℕ) → AreListedBy engine.now.clauses occurrences.now ids → result ≡ eligible (map (literals_at engine.now.clauses) ids) frozen.now (literals engine.now.trail) var }
{
    let value = engine.value(Lit::from_code(2 * (var - 1)));
    if value.is_some() {
        return false;
    }
    let store = engine.store();
    could_be_eligible(store, occurrences, var, frozen)
}
