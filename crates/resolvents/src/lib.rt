//! Resolvents of a clause with others on a variable, by marks.
//!
//! The clauses that hold a variable are resolved with those that hold its negation. One of the first is held here, and each
//! of its literals has a mark. A resolvent with another clause is then one walk over that clause: a literal that has a mark is
//! there already, and one whose negation has a mark makes the resolvent a tautology. So nothing is sorted and no set is made,
//! and a tautology is found before a literal is written. The marks are taken off at the cost of the clause that was held.
#![tactic(auto)]

ghost use Rattle.std.specs.Prelude.{◌≡◌, ◌≤◌, ◌<◌, ℕ, not, if◌then◌else◌, [], ◌++◌, length, filter, true, false, slice_index_or, OnOk, OnErr, IsOk};
ghost use Rattle.std.specs.List.{list_all, list_any};
ghost use Rattle.lits.specs.Literal.{neg};
ghost use Rattle.lits.specs.Clause.{has, same_set, is_tautology};
ghost use Rattle.clause_store.specs.Clauses.{IsOnce, firsts};
ghost use Rattle.restore.specs.Resolution.{of_variable, without, resolvent};
ghost use Rattle.resolvents.specs.Held.{AreReserved, AreBelow, empty, holding, reserving, clashing, clashing_by, marked, unmarked};

use lits::{Lit, MAX_VAR};
use std::alloc::{AllocError, Global};
use std::marker::Model;

/// One clause that is resolved with others. Contracts see the greatest reserved variable and the clause.
#[derive(Drop)]
pub struct Resolver {
    // for each literal by its code, whether the clause holds it
    marks: Vec<bool>,
    first: Vec<Lit>,
    vars: u32,
}

impl Model for Resolver {
    ghost use Rattle.resolvents.specs.Held.{Held, AreMarked};

    ghost Value = { Held };

    ghost view = { λ r. record { reserved = r.vars; clause = r.first.items } };

    ghost invariant = { λ r. AreMarked r.marks.items r.first.items r.vars };
}

/// Writes a mark at each of these literals.
fn write_marks(marks: &mut [bool], lits: &[Lit], to: bool)
    requires { AreBelow (length marks.old) lits.now }
    ensures { (l : ℕ) → slice_index_or marks.new l false ≡ (if has lits.now l then to else slice_index_or marks.old l false) }
{
    for l in lits {
        marks[l.code() as usize] = to;
    }
}

/// Writes a mark of a vector at each of these literals.
fn write_all_marks(marks: &mut Vec<bool>, lits: &[Lit], to: bool)
    requires { AreBelow (length marks.old.items) lits.now }
    ensures marks { (l : ℕ) → slice_index_or marks.new.items l false ≡ (if has lits.now l then to else slice_index_or marks.old.items l false) }
    ensures length { length marks.new.items ≡ length marks.old.items }
{
    write_marks(marks, lits, to);
}

/// Whether a literal isn't of the variable.
#[inline(always)]
fn is_other(var: u32, l: Lit) -> bool
    ensures { result ≡ not (of_variable var l) }
{
    l.var() != var
}

/// Whether a literal isn't of the variable, and its negation has a mark.
#[inline(always)]
fn clashes(marks: &[bool], var: u32, l: Lit) -> bool
    requires { neg l < length marks.now }
    ensures { result ≡ clashing marks.now var l }
{
    is_other(var, l) && marks[l.neg().code() as usize]
}

/// Whether a literal isn't of the variable and has no mark.
#[inline(always)]
fn is_new(marks: &[bool], var: u32, l: Lit) -> bool
    requires { l < length marks.now }
    ensures { result ≡ unmarked marks.now var l }
{
    is_other(var, l) && !marks[l.code() as usize]
}

/// Whether some literal of this clause isn't of the variable, and its negation has a mark.
fn has_clash(marks: &[bool], var: u32, second: &[Lit]) -> bool
    requires { (l : ℕ) → has second.now l ≡ true → neg l < length marks.now }
    ensures { result ≡ list_any (clashing marks.now var) second.now }
{
    for l in second {
        if clashes(marks, var, *l) {
            return true;
        }
    }
    false
}

/// Whether a clause has a literal.
fn has_lit(lits: &[Lit], l: Lit) -> bool
    ensures { result ≡ has lits.now l }
{
    lits.iter().any(|m| l == *m)
}

/// Whether a literal isn't of the variable, and a clause has its negation.
fn meets(first: &[Lit], var: u32, l: Lit) -> bool
    ensures { result ≡ clashing_by (has first.now) var l }
{
    is_other(var, l) && has_lit(first, l.neg())
}

/// Whether some literal of the second clause isn't of the variable, and the first has its negation.
fn has_meeting(first: &[Lit], var: u32, second: &[Lit]) -> bool
    ensures { result ≡ list_any (clashing_by (has first.now) var) second.now }
{
    for l in second {
        if meets(first, var, *l) {
            return true;
        }
    }
    false
}

/// Whether the resolvent of two clauses on a variable is a tautology, where neither of the two is one. It looks at each pair of
/// literals, and takes no memory; for one clause against many a [`Resolver`] is faster.
pub fn is_tautology_of(var: u32, first: &[Lit], second: &[Lit]) -> bool
    requires first { is_tautology first.now ≡ false }
    requires second { is_tautology second.now ≡ false }
    ensures { result ≡ is_tautology (resolvent var first.now second.now) }
{
    has_meeting(first, var, second)
}

/// Whether each of these literals has a mark.
fn are_marked(marks: &[bool], lits: &[Lit]) -> bool
    requires { AreBelow (length marks.now) lits.now }
    ensures { result ≡ list_all (marked marks.now) lits.now }
{
    for l in lits {
        if !marks[l.code() as usize] {
            return false;
        }
    }
    true
}

/// Adds the literals that aren't of the variable at the end. After an error some of them may be there.
fn push_others(out: &mut Vec<Lit>, var: u32, lits: &[Lit]) -> Result<(), AllocError>
    ensures { OnOk result (out.new.items ≡ out.old.items ++ without var lits.now) }
{
    for l in lits {
        if is_other(var, *l) {
            out.push(*l)?;
        }
    }
    Ok(())
}

/// Adds the literals that aren't of the variable and have no mark at the end. After an error some of them may be there.
fn push_unmarked(
    out: &mut Vec<Lit>,
    marks: &[bool],
    var: u32,
    lits: &[Lit],
) -> Result<(), AllocError>
    requires { AreBelow (length marks.now) lits.now }
    ensures { OnOk result (out.new.items ≡ out.old.items ++ filter (unmarked marks.now var) lits.now) }
{
    for l in lits {
        if is_new(marks, var, *l) {
            out.push(*l)?;
        }
    }
    Ok(())
}

impl Resolver {
    /// No variable is reserved, and the clause is empty. It takes no memory.
    pub fn new(alloc: Global) -> Resolver
        ensures { result ≡ empty }
    {
        Resolver {
            marks: Vec::new(alloc),
            first: Vec::new(alloc),
            vars: 0,
        }
    }

    /// Reserves the variables up to this one. The clause stays.
    ///
    /// `AllocError` means out of memory, and then nothing is changed. What is reserved already needs no memory.
    pub fn reserve(&mut self, vars: u32) -> Result<(), AllocError>
        requires { vars ≤ MAX_VAR }
        ensures ok { OnOk result (self.new ≡ reserving self.old vars) }
        ensures err { OnErr result (self.new ≡ self.old) }
        ensures already { vars ≤ self.old.reserved → IsOk result }
    {
        if vars > self.vars {
            self.marks.resize(2 * vars as usize, false)?;
            self.vars = vars;
        }
        Ok(())
    }

    /// Holds another clause, whose variables are reserved.
    ///
    /// `AllocError` means out of memory, and then the clause is empty.
    pub fn hold(&mut self, lits: &[Lit]) -> Result<(), AllocError>
        requires { AreReserved self.old.reserved lits.now }
        ensures ok { OnOk result (self.new ≡ holding self.old lits.now) }
        ensures err { OnErr result (self.new ≡ holding self.old []) }
    {
        write_all_marks(&mut self.marks, &self.first, false);
        self.first.clear();
        self.first.extend_from_slice(lits)?;
        write_all_marks(&mut self.marks, lits, true);
        Ok(())
    }

    /// The clause that is held.
    pub fn held(&self) -> &[Lit]
        ensures { result.now ≡ self.now.clause }
    {
        &self.first
    }

    /// Whether the resolvent with this clause on the variable is a tautology. Neither of the two is one. It takes no memory.
    pub fn is_tautology_with(&self, var: u32, second: &[Lit]) -> bool
        requires reserved { AreReserved self.now.reserved second.now }
        requires first { is_tautology self.now.clause ≡ false }
        requires second { is_tautology second.now ≡ false }
        ensures { result ≡ is_tautology (resolvent var self.now.clause second.now) }
    {
        has_clash(&self.marks, var, second)
    }

    /// Writes the resolvent with this clause on the variable into a vector, in place of what stood there: the other literals
    /// of the clause that is held in their order, and then those of this clause that it doesn't hold, so each of them once.
    ///
    /// `AllocError` means out of memory, and then some of the literals may be there.
    pub fn resolve(&self, var: u32, second: &[Lit], out: &mut Vec<Lit>) -> Result<(), AllocError>
        requires reserved { AreReserved self.now.reserved second.now }
        requires first { IsOnce self.now.clause }
        requires second { IsOnce second.now }
        ensures { OnOk result (out.new.items ≡ firsts (resolvent var self.now.clause second.now)) }
    {
        out.clear();
        push_others(out, var, &self.first)?;
        push_unmarked(out, &self.marks, var, second)
    }

    /// Whether this clause has the set of the one that is held. Both have each literal once. It takes no memory.
    pub fn is_same(&self, other: &[Lit]) -> bool
        requires reserved { AreReserved self.now.reserved other.now }
        requires held { IsOnce self.now.clause }
        requires once { IsOnce other.now }
        ensures { result ≡ same_set self.now.clause other.now }
    {
        if other.len() != self.first.len() {
            return false;
        }
        are_marked(&self.marks, other)
    }
}
