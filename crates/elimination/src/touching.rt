// What a line mentions comes back: the clauses of its entries are restored, and they are irredundant again.
ghost use Rattle.std.specs.Prelude.{◌≡◌, ◌+◌, ◌≤◌, ◌^◌, List, OnOk, OnErr, IfOk, IfErr};
ghost use Rattle.std.specs.List.{list_any};
ghost use Rattle.restore.specs.Resolution.{variables};
ghost use Rattle.restore.specs.Stack.{has_entry, is_wanted, taken, left_in};
ghost use Rattle.elimination.specs.Steps.{standing};
ghost use Rattle.elimination.specs.Databases.{IsDatabase, BreaksOff};
ghost use Rattle.elimination.specs.Restoring.{kept_of, AreCopies, Restores};

use crate::database::Database;
use crate::fault::BoardFault;
use lits::Lit;
use restore::{Elim, ElimList, Kept, Stack};
use session_rules::Log;
use std::alloc::{AllocError, Global};

/// Restores clauses one after another, and tells each. They are copies of weakened ones.
///
/// After a fault the clauses are given up.
fn restore_clauses<L: Log>(
    clauses: &mut Database,
    kept: &[Kept],
    log: &mut L,
) -> Result<(), BoardFault>
    requires sound { IsDatabase clauses.old }
    requires copies { AreCopies (standing clauses.old.engine.clauses) kept.now }
    requires room { clauses.old.next_id + L.room log.old ≤ 2 ^ 63 }
    ensures restored { OnOk result (Restores L.takes log.old clauses.old kept.now clauses.new log.new) }
    ensures room { OnOk result (clauses.new.next_id + L.room log.new ≤ 2 ^ 63) }
    ensures broken { IfErr result (λ e. BreaksOff L.takes L.refuses (standing clauses.old.engine.clauses) log.old e log.new) }
{
    for clause in kept {
        if let Err(fault) = clauses.tell_restoring(clause, log) {
            return Err(fault);
        }
    }
    Ok(())
}

/// Restores the clauses of entries, one entry after another.
///
/// After a fault the clauses are given up.
fn restore_entries<L: Log>(
    clauses: &mut Database,
    entries: &[Elim],
    log: &mut L,
) -> Result<(), BoardFault>
    requires sound { IsDatabase clauses.old }
    requires copies { AreCopies (standing clauses.old.engine.clauses) (kept_of entries.now) }
    requires room { clauses.old.next_id + L.room log.old ≤ 2 ^ 63 }
    ensures restored { OnOk result (Restores L.takes log.old clauses.old (kept_of entries.now) clauses.new log.new) }
    ensures room { OnOk result (clauses.new.next_id + L.room log.new ≤ 2 ^ 63) }
    ensures broken { IfErr result (λ e. BreaksOff L.takes L.refuses (standing clauses.old.engine.clauses) log.old e log.new) }
{
    for entry in entries {
        if let Err(fault) = restore_clauses(clauses, entry.clauses.as_slice(), log) {
            return Err(fault);
        }
    }
    Ok(())
}

/// Whether the variable of one of these literals has an entry.
fn has_any(stack: &Stack, lits: &[Lit]) -> bool
    ensures { result ≡ list_any (has_entry stack.now) (variables lits.now) }
{
    for l in lits {
        if stack.has(l.var()) {
            return true;
        }
    }
    false
}

/// The variables of literals, in their order.
fn variables_of(alloc: Global, lits: &[Lit]) -> Result<Vec<u32>, AllocError>
    ensures { IfOk result (λ vars. vars.items ≡ variables lits.now) }
{
    let mut vars = Vec::with_capacity(alloc, lits.len())?;
    for l in lits {
        vars.push(l.var())?;
    }
    Ok(vars)
}

/// Takes the entries of the least closed set for these literals out of a stack. It takes no memory where none of their
/// variables has an entry.
///
/// `AllocError` means out of memory, and then the stack stays.
fn take_entries(stack: &mut Stack, alloc: Global, lits: &[Lit]) -> Result<ElimList, AllocError>
    ensures taken { IfOk result (λ out. out ≡ taken (is_wanted stack.old (variables lits.now)) stack.old) }
    ensures left { OnOk result (stack.new ≡ left_in (is_wanted stack.old (variables lits.now)) stack.old) }
{
    if !has_any(stack, lits) {
        return Ok(ElimList::new(alloc));
    }
    let vars = variables_of(alloc, lits)?;
    stack.take_for(&vars)
}

/// Takes the entries of the least closed set for these literals out of a stack, and restores their clauses.
///
/// After a fault clauses and stack are given up.
pub(crate) fn bring_back<L: Log>(
    clauses: &mut Database,
    stack: &mut Stack,
    alloc: Global,
    lits: &[Lit],
    log: &mut L,
) -> Result<(), BoardFault>
    requires sound { IsDatabase clauses.old }
    requires copies { AreCopies (standing clauses.old.engine.clauses) (kept_of stack.old) }
    requires room { clauses.old.next_id + L.room log.old ≤ 2 ^ 63 }
    ensures left { OnOk result (stack.new ≡ left_in (is_wanted stack.old (variables lits.now)) stack.old) }
    ensures restored { OnOk result (Restores L.takes log.old clauses.old (kept_of (taken (is_wanted stack.old (variables lits.now)) stack.old)) clauses.new log.new) }
    ensures room { OnOk result (clauses.new.next_id + L.room log.new ≤ 2 ^ 63) }
    ensures broken { IfErr result (λ e. BreaksOff L.takes L.refuses (standing clauses.old.engine.clauses) log.old e log.new) }
{
    let Ok(entries) = take_entries(stack, alloc, lits) else {
        return Err(BoardFault::Memory);
    };
    if let Err(fault) = restore_entries(clauses, entries.as_slice(), log) {
        return Err(fault);
    }
    Ok(())
}
