// Whether a variable must be true for the clauses of its entry.
ghost use Rattle.std.specs.Prelude.{◌≡◌, All};
ghost use Rattle.std.specs.List.{list_any};
ghost use Rattle.session_rules.specs.Logic.{satisfies};
ghost use Rattle.restore.specs.Stack.{needs, IsCoveredClause};
ghost use Rattle.restore.specs.Values.{value, IsReserved};
ghost use Rattle.restore.specs.declared.lists.Kept.{Kept as KeptClause};
ghost use Rattle.lits.specs.Literal.{var};

use crate::{Kept, Values};
use lits::Lit;

/// Whether values satisfy a literal.
pub fn is_satisfied(values: &Values, l: Lit) -> bool
    requires { IsReserved values.now (var l) }
    ensures { result ≡ satisfies (value values.now) l }
{
    if l.positive() {
        values.get(l.var())
    } else {
        !values.get(l.var())
    }
}

/// Whether a clause holds the variable itself and no other true literal.
pub fn clause_needs(values: &Values, variable: u32, lits: &[Lit]) -> bool
    requires { IsCoveredClause values.now lits.now }
    ensures { result ≡ needs (value values.now) variable lits.now }
{
    let mut held = false;
    for l in lits {
        if l.var() == variable && l.positive() {
            held = true;
        } else if is_satisfied(values, *l) {
            return false;
        }
    }
    held
}

/// Whether one of the clauses holds the variable itself and no other true literal.
pub fn is_needed(values: &Values, variable: u32, clauses: &[Kept]) -> bool
    requires { All (λ (k : KeptClause). IsCoveredClause values.now k.lits) clauses.now }
    ensures { result ≡ list_any (λ (k : KeptClause). needs (value values.now) variable k.lits) clauses.now }
{
    clauses.iter().any(|kept| clause_needs(values, variable, kept.lits.as_slice()))
}
