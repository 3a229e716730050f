// Which entries are wanted: those of the asked variables, and with each entry those of the variables in its clauses.
// Each chosen entry is looked at once.
ghost use Rattle.std.specs.Prelude.{◌≡◌, ◌≤◌, ℕ, List, [], ◌∷◌, length, map, slice_index, vec_capacity, true, false, IfOk, OnOk};
ghost use Rattle.restore.specs.declared.lists.Elim.{Elim as Entry};
ghost use Rattle.restore.specs.declared.lists.Kept.{Kept as KeptClause};
ghost use Rattle.restore.specs.Indexed.{variables_of, IsIndexed};
ghost use Rattle.restore.specs.Resolution.{variables, all_variables};
ghost use Rattle.restore.specs.Stack.{is_wanted};
ghost use Rattle.restore.specs.Choice.{Chosen};
ghost use Rattle.restore.specs.Split.{with_choice, chosen_count};

use crate::stack::place_in;
use crate::{Elim, Kept, KeptList};
use lits::Lit;
use std::alloc::{AllocError, Global};
use std::mem;

/// Which entries are chosen to be taken out, by their places, and the chosen places that are still to be looked at.
#[derive(Drop)]
pub struct Choice {
    pub chosen: Vec<bool>,
    pub due: Vec<usize>,
}

/// Chooses the entry of a variable, if there is one.
pub fn choose(places: &[usize], var: u32, choice: &mut Choice) -> Result<(), AllocError>
    requires { (v : ℕ) → slice_index places.now v ≤ length choice.old.chosen.items }
    ensures size { length choice.new.chosen.items ≡ length choice.old.chosen.items }
    ensures ok { (vars : List ℕ) → IsIndexed vars places.now → length vars ≡ length choice.old.chosen.items
        → OnOk result (Chosen vars choice.old.chosen.items choice.new.chosen.items choice.old.due.items choice.new.due.items (var ∷ [])) }
{
    if let Some(place) = place_in(places, var) {
        if !choice.chosen[place] {
            choice.due.push(place)?;
            choice.chosen[place] = true;
        }
    }
    Ok(())
}

/// Chooses the entries of the variables of a clause.
pub fn choose_clause(places: &[usize], lits: &[Lit], choice: &mut Choice) -> Result<(), AllocError>
    requires { (v : ℕ) → slice_index places.now v ≤ length choice.old.chosen.items }
    ensures size { length choice.new.chosen.items ≡ length choice.old.chosen.items }
    ensures ok { (vars : List ℕ) → IsIndexed vars places.now → length vars ≡ length choice.old.chosen.items
        → OnOk result (Chosen vars choice.old.chosen.items choice.new.chosen.items choice.old.due.items choice.new.due.items (variables lits.now)) }
{
    for l in lits {
        choose(places, l.var(), choice)?;
    }
    Ok(())
}

/// Chooses the entries of the variables of clauses.
pub fn choose_clauses(
    places: &[usize],
    clauses: &[Kept],
    choice: &mut Choice,
) -> Result<(), AllocError>
    requires { (v : ℕ) → slice_index places.now v ≤ length choice.old.chosen.items }
    ensures size { length choice.new.chosen.items ≡ length choice.old.chosen.items }
    ensures ok { (vars : List ℕ) → IsIndexed vars places.now → length vars ≡ length choice.old.chosen.items
        → OnOk result (Chosen vars choice.old.chosen.items choice.new.chosen.items choice.old.due.items choice.new.due.items
        (all_variables (map (λ (k : KeptClause). k.lits) clauses.now))) }
{
    for kept in clauses {
        choose_clause(places, kept.lits.as_slice(), choice)?;
    }
    Ok(())
}

/// Chooses the entries of variables.
pub fn choose_each(places: &[usize], vars: &[u32], choice: &mut Choice) -> Result<(), AllocError>
    requires { (v : ℕ) → slice_index places.now v ≤ length choice.old.chosen.items }
    ensures size { length choice.new.chosen.items ≡ length choice.old.chosen.items }
    ensures ok { (each : List ℕ) → IsIndexed each places.now → length each ≡ length choice.old.chosen.items
        → OnOk result (Chosen each choice.old.chosen.items choice.new.chosen.items choice.old.due.items choice.new.due.items vars.now) }
{
    for var in vars {
        choose(places, *var, choice)?;
    }
    Ok(())
}

/// Which entries are wanted, by their places.
pub fn wanted(
    alloc: Global,
    entries: &[Elim],
    places: &[usize],
    vars: &[u32],
) -> Result<Vec<bool>, AllocError>
    requires { IsIndexed (variables_of entries.now) places.now }
    ensures { IfOk result (λ m. m.items ≡ map (λ (e : Entry). is_wanted entries.now vars.now e.var) entries.now) }
{
    let mut choice = Choice {
        chosen: vec![in alloc; false; entries.len()]?,
        due: Vec::new(alloc),
    };
    choose_each(places, vars, &mut choice)?;
    while let Some(place) = choice.due.pop() {
        choose_clauses(places, entries[place].clauses.as_slice(), &mut choice)?;
    }
    Ok(choice.chosen)
}

/// How many are chosen.
pub fn count_chosen(chosen: &[bool]) -> usize
    ensures { result ≡ chosen_count chosen.now }
{
    let mut count = 0;
    for m in chosen {
        if *m {
            count += 1;
        }
    }
    count
}

/// Splits the entries by the choice: those that aren't chosen stay, in their order, and the others are taken out. The
/// table of places follows.
pub fn split(
    alloc: Global,
    entries: &mut Vec<Elim>,
    places: &mut [usize],
    chosen: &[bool],
    taken: &mut Vec<Elim>,
)
    requires indexed { IsIndexed (variables_of entries.old.items) places.old }
    requires sized { length chosen.now ≡ length entries.old.items }
    requires empty { taken.old.items ≡ [] }
    requires room { chosen_count chosen.now ≤ vec_capacity taken.old }
    ensures left { entries.new.items ≡ with_choice false chosen.now entries.old.items }
    ensures taken { taken.new.items ≡ with_choice true chosen.now entries.old.items }
    ensures indexed { IsIndexed (variables_of entries.new.items) places.new }
{
    let mut left = 0;
    for place in 0..chosen.len() {
        let hollow = Elim {
            var: 0,
            clauses: KeptList::new(alloc),
        };
        let entry = mem::replace(&mut entries[place], hollow);
        let row = entry.var as usize;
        if chosen[place] {
            places[row] = 0;
            taken.push_reserved(entry);
        } else {
            entries[left] = entry;
            left += 1;
            places[row] = left;
        }
    }
    entries.truncate(left);
}
