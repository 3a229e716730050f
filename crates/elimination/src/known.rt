// Whether a clause is among the irredundant ones: it is looked for in the list of its rarest literal.
ghost use Rattle.std.specs.Prelude.{◌≡◌, ℕ, ◌<◌, List, true, length};
ghost use Rattle.std.specs.List.{list_any};
ghost use Rattle.lits.specs.Clause.{has, same_set};
ghost use Rattle.clause_store.specs.Clauses.{IsOnce};
ghost use Rattle.restore.specs.Stack.{has_set};
ghost use Rattle.occurrence_lists.specs.Occurring.{row, AreListed, StandsFor};
ghost use Rattle.elimination.specs.Pairs.{clauses_at};
ghost use Rattle.elimination.specs.Known.{numbered, AreComparable};

use crate::pairs::lits_of;
use clause_store::Store;
use lits::Lit;
use occurrence_lists::Occurrences;
use resolvents::Resolver;

/// The literal of a clause that fewest clauses hold.
fn rarest(occurrences: &Occurrences, lits: &[Lit]) -> Lit
    requires listed { AreListed occurrences.now lits.now }
    requires some { 0 < length lits.now }
    ensures { has lits.now result ≡ true }
{
    let mut best = lits[0];
    let mut fewest = occurrences.ids(best).len();
    for l in lits {
        let count = occurrences.ids(*l).len();
        if count < fewest {
            best = *l;
            fewest = count;
        }
    }
    best
}

/// Whether one of these clauses has the set of the one that is held.
fn is_among(resolver: &Resolver, store: &Store, ids: &[u64]) -> bool
    requires held { IsOnce resolver.now.clause }
    requires comparable { AreComparable store.now resolver.now.reserved ids.now }
    ensures { result ≡ list_any (same_set resolver.now.clause) (clauses_at store.now ids.now) }
{
    for id in ids {
        if resolver.is_same(lits_of(store, *id)) {
            return true;
        }
    }
    false
}

/// Whether some irredundant clause has the set of the clause that is held, which has a literal. The lists stand for the
/// irredundant clauses.
pub fn is_known(resolver: &Resolver, store: &Store, occurrences: &Occurrences) -> bool
    requires some { 0 < length resolver.now.clause }
    requires held { IsOnce resolver.now.clause }
    requires listed { AreListed occurrences.now resolver.now.clause }
    requires comparable { (l : ℕ) → AreComparable store.now resolver.now.reserved (row occurrences.now l) }
    ensures { (ids : List ℕ) → StandsFor occurrences.now (numbered store.now ids) → result ≡ has_set (clauses_at store.now ids) resolver.now.clause }
{
    let l = rarest(occurrences, resolver.held());
    is_among(resolver, store, occurrences.ids(l))
}
