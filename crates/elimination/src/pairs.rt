// Whether a variable has few enough resolvents: the clauses that hold it are resolved with those that hold its negation, pair
// by pair, until there are too many.
ghost use Rattle.std.specs.Prelude.{◌≡◌, ℕ, ◌≤◌, ◌++◌, true, false, length, Contains, IfOk};
ghost use Rattle.lits.specs.Clause.{is_tautology};
ghost use Rattle.clause_store.specs.Clauses.{lits_at};
ghost use Rattle.restore.specs.Resolution.{holds, holds_negated};
ghost use Rattle.elimination_laws.specs.Eligible.{has_few_resolvents};
ghost use Rattle.elimination.specs.Pairs.{clauses_at, found_with, may_go, AreUsable};

use clause_store::Store;
use lits::Lit;
use resolvents::Resolver;
use std::alloc::AllocError;

/// The literals of an active clause; none where the id isn't active.
pub(crate) fn lits_of(store: &Store, id: u64) -> &[Lit]
    ensures { result.now ≡ lits_at store.now id }
{
    match store.find(id) {
        Some(slot) => store.lits(slot),
        None => &[],
    }
}

// So many clauses at most hold an eligible variable, and so many its negation.
pub(crate) const MOST_HOLDING: usize = 10;

/// How many resolvents of the clause that is held with these are no tautologies.
fn count_with(resolver: &Resolver, store: &Store, var: u32, ids: &[u64]) -> usize
    requires held { is_tautology resolver.now.clause ≡ false }
    requires usable { AreUsable store.now resolver.now.reserved ids.now }
    ensures found { result ≡ found_with var resolver.now.clause (clauses_at store.now ids.now) }
    ensures few { result ≤ length ids.now }
{
    let mut count = 0;
    for id in ids {
        if !resolver.is_tautology_with(var, lits_of(store, *id)) {
            count += 1;
        }
    }
    count
}

/// Whether the resolvents on a variable that are no tautologies are at most as many as the clauses with it. The first ids are
/// those of the clauses that hold the variable, and the second those of the clauses that hold its negation. It stops where it
/// knows. The resolver holds another clause then.
///
/// `AllocError` means out of memory.
pub fn has_few_resolvents(
    resolver: &mut Resolver,
    store: &Store,
    var: u32,
    with: &[u64],
    against: &[u64],
) -> Result<bool, AllocError>
    requires usable_with { AreUsable store.now resolver.old.reserved with.now }
    requires usable_against { AreUsable store.now resolver.old.reserved against.now }
    requires hold { (id : ℕ) → Contains with.now id → holds var (lits_at store.now id) ≡ true }
    requires hold_negation { (id : ℕ) → Contains against.now id → holds_negated var (lits_at store.now id) ≡ true }
    ensures few { IfOk result (λ b. b ≡ has_few_resolvents (clauses_at store.now with.now ++ clauses_at store.now against.now) var) }
    ensures reserved { resolver.new.reserved ≡ resolver.old.reserved }
{
    let most = with.len() + against.len();
    let mut count = 0;
    for id in with {
        resolver.hold(lits_of(store, *id))?;
        count += count_with(resolver, store, var, against);
        if count > most {
            return Ok(false);
        }
    }
    Ok(true)
}

/// Whether the clauses allow that a variable is eliminated: some clause has it, at most ten hold it, at most ten hold its
/// negation, and it has few enough resolvents. The first ids are those of the clauses that hold the variable, and the second
/// those of the clauses that hold its negation. The resolver may hold another clause then.
///
/// `AllocError` means out of memory.
pub fn may_go(
    resolver: &mut Resolver,
    store: &Store,
    var: u32,
    with: &[u64],
    against: &[u64],
) -> Result<bool, AllocError>
    requires usable_with { AreUsable store.now resolver.old.reserved with.now }
    requires usable_against { AreUsable store.now resolver.old.reserved against.now }
    requires hold { (id : ℕ) → Contains with.now id → holds var (lits_at store.now id) ≡ true }
    requires hold_negation { (id : ℕ) → Contains against.now id → holds_negated var (lits_at store.now id) ≡ true }
    ensures goes { IfOk result (λ b. b ≡ may_go (clauses_at store.now with.now ++ clauses_at store.now against.now) var) }
    ensures reserved { resolver.new.reserved ≡ resolver.old.reserved }
{
    if with.len() + against.len() == 0 {
        return Ok(false);
    }
    if with.len() > MOST_HOLDING {
        return Ok(false);
    }
    if against.len() > MOST_HOLDING {
        return Ok(false);
    }
    has_few_resolvents(resolver, store, var, with, against)
}
