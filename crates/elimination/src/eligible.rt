// Whether a variable that isn't assigned is eligible, by the lists of its two literals.
ghost use Rattle.std.specs.Prelude.{◌≡◌, ℕ, ◌<◌, ◌≤◌, ◌*◌, List, false, length, map, IfOk};
ghost use Rattle.lits.specs.Literal.{max_var};
ghost use Rattle.propagation.specs.Clauses.{literals_at};
ghost use Rattle.propagation.specs.Engine.{literals};
ghost use Rattle.restore.specs.Resolution.{has_variable};
ghost use Rattle.elimination_laws.specs.Eligible.{eligible};
ghost use Rattle.occurrence_lists.specs.Occurring.{row, StandsFor};
ghost use Rattle.elimination.specs.Pairs.{clauses_at, AreUsable};
ghost use Rattle.elimination.specs.Known.{numbered, AreListedBy};

use crate::pairs::may_go;
use clause_store::Store;
use lits::Lit;
use occurrence_lists::Occurrences;
use propagation::Engine;
use resolvents::Resolver;
use std::alloc::AllocError;

/// Whether one of these literals has the variable.
pub(crate) fn is_frozen(frozen: &[Lit], var: u32) -> bool
    ensures { result ≡ has_variable var frozen.now }
{
    for l in frozen {
        if l.var() == var {
            return true;
        }
    }
    false
}

/// Whether a variable that isn't assigned is eligible by the irredundant clauses, for which the lists stand, and the frozen
/// literals. The variable has lists. The resolver may hold another clause then.
///
/// `AllocError` means out of memory.
pub fn is_eligible(
    resolver: &mut Resolver,
    store: &Store,
    occurrences: &Occurrences,
    var: u32,
    frozen: &[Lit],
) -> Result<bool, AllocError>
    requires positive { 0 < var }
    requires limit { var ≤ max_var }
    requires listed { 2 * var ≤ length occurrences.now }
    requires usable { (l : ℕ) → AreUsable store.now resolver.old.reserved (row occurrences.now l) }
    requires stands { (ids : List ℕ) × StandsFor occurrences.now (numbered store.now ids) }
    ensures eligible { IfOk result (λ b. (ids assigned : List ℕ) → StandsFor occurrences.now (numbered store.now ids) → has_variable var assigned ≡ false → b ≡ eligible (clauses_at store.now ids) frozen.now assigned var) }
    ensures reserved { resolver.new.reserved ≡ resolver.old.reserved }
{
    if is_frozen(frozen, var) {
        return Ok(false);
    }
    let l = Lit::from_code(2 * (var - 1));
    may_go(
        resolver,
        store,
        var,
        occurrences.ids(l),
        occurrences.ids(l.neg()),
    )
}

/// Whether a variable is eligible on an engine whose irredundant clauses the lists have: by its trail as it stands, and the
/// frozen literals. The variable has lists. The resolver may hold another clause then.
///
/// `AllocError` means out of memory.
pub fn is_eligible_on(
    resolver: &mut Resolver,
    engine: &Engine,
    occurrences: &Occurrences,
    var: u32,
    frozen: &[Lit],
) -> Result<bool, AllocError>
    requires positive { 0 < var }
    requires limit { var ≤ max_var }
    requires listed { 2 * var ≤ length occurrences.now }
    requires room { engine.now.vars ≤ resolver.old.reserved }
    requires stands { (ids : List ℕ) × AreListedBy engine.now.clauses occurrences.now ids }
    ensures eligible { IfOk result (λ b. (ids : List ℕ) → AreListedBy engine.now.clauses occurrences.now ids → b ≡ eligible (map (literals_at engine.now.clauses) ids) frozen.now (literals engine.now.trail) var) }
    ensures reserved { resolver.new.reserved ≡ resolver.old.reserved }
{
    let value = engine.value(Lit::from_code(2 * (var - 1)));
    if value.is_some() {
        return Ok(false);
    }
    let store = engine.store();
    is_eligible(resolver, store, occurrences, var, frozen)
}
