// The stack: the entries in the order of their elimination, and a table of their places.
ghost use Rattle.std.specs.Prelude.{◌≡◌, ◌+◌, ◌++◌, ◌∷◌, [], true, false, All, length, slice_index, IfSome, IfNone, OnOk, OnErr, IfOk, IfErr, ℕ, ◌≤◌};
ghost use Rattle.std.specs.List.{list_any};
ghost use Rattle.restore.specs.Stack.{has_entry, taken, left_in, is_wanted, Extends, IsCovered};
ghost use Rattle.restore.specs.Values.{value, reserved};

use crate::extend::is_needed;
use crate::take::{count_chosen, split, wanted};
use crate::{Elim, ElimList, Values};
use std::alloc::{AllocError, Global};
use std::marker::Model;

/// The eliminated variables with their clauses, in the order of their elimination. No variable has two entries.
/// Contracts see the list of the entries.
#[derive(Drop)]
pub struct Stack {
    entries: Vec<Elim>,
    // for each variable its place plus one, or 0; a variable beyond the table has no entry
    places: Vec<usize>,
}

impl Model for Stack {
    ghost use Rattle.std.specs.Prelude.{List};
    ghost use Rattle.restore.specs.declared.lists.Elim.{Elim};

    ghost Value = { List Elim };

    ghost use Rattle.restore.specs.Indexed.{variables_of, IsIndexed};

    ghost view = { λ s. s.entries.items };

    ghost invariant = { λ s. IsIndexed (variables_of s.entries.items) s.places.items };
}

/// The place of a variable, where the table has one.
pub fn place_in(places: &[usize], var: u32) -> Option<usize>
    ensures some { IfSome result (λ i. slice_index places.now var ≡ i + 1) }
    ensures none { IfNone result (slice_index places.now var ≡ 0) }
{
    let row = var as usize;
    if row >= places.len() || places[row] == 0 {
        return None;
    }
    Some(places[row] - 1)
}

/// Makes a table at least this long, by rows that have no place.
fn make_room(places: &mut Vec<usize>, rows: usize) -> Result<(), AllocError>
    ensures room { OnOk result (rows ≤ length places.new.items) }
    ensures same { (k : ℕ) → slice_index places.new.items k ≡ slice_index places.old.items k }
{
    if rows > places.len() {
        places.resize(rows, 0)?;
    }
    Ok(())
}

impl Stack {
    /// A stack with no entry. It takes no memory.
    pub fn new(alloc: Global) -> Stack
        ensures { result ≡ [] }
    {
        Stack {
            entries: Vec::new(alloc),
            places: Vec::new(alloc),
        }
    }

    /// Whether a variable has an entry.
    pub fn has(&self, var: u32) -> bool
        ensures { result ≡ has_entry self.now var }
    {
        place_in(&self.places, var).is_some()
    }

    /// Adds an entry at the end. `Err` hands it back: it means want of memory, and then the stack stays.
    pub fn push(&mut self, entry: Elim) -> Result<(), Elim>
        requires { has_entry self.old entry.var ≡ false }
        ensures ok { OnOk result (self.new ≡ self.old ++ entry ∷ []) }
        ensures handed_back { IfErr result (λ e. e ≡ entry) }
        ensures err { OnErr result (self.new ≡ self.old) }
    {
        let row = entry.var as usize;
        match make_room(&mut self.places, row + 1) {
            Ok(()) => {}
            Err(_) => return Err(entry),
        }
        match self.entries.push(entry) {
            Ok(()) => {
                self.places[row] = self.entries.len();
                Ok(())
            }
            Err(e) => Err(e.value),
        }
    }

    /// Whether one of these variables has an entry.
    fn has_any(&self, vars: &[u32]) -> bool
        ensures { result ≡ list_any (has_entry self.now) vars.now }
    {
        vars.iter().any(|var| self.has(*var))
    }

    /// Takes out, in the order of the stack, the least set of entries that holds those of the asked variables and, with each
    /// entry, those of the variables in its clauses. All other entries stay, in their order.
    ///
    /// `AllocError` means want of memory, and then the stack stays.
    pub fn take_for(&mut self, vars: &[u32]) -> Result<ElimList, AllocError>
        ensures taken { IfOk result (λ out. out ≡ taken (is_wanted self.old vars.now) self.old) }
        ensures left { OnOk result (self.new ≡ left_in (is_wanted self.old vars.now) self.old) }
        ensures err { OnErr result (self.new ≡ self.old) }
    {
        let alloc = *self.entries.allocator();
        if !self.has_any(vars) {
            return Ok(ElimList::new(alloc));
        }
        let chosen = wanted(alloc, &self.entries, &self.places, vars)?;
        let mut out = Vec::with_capacity(alloc, count_chosen(&chosen))?;
        split(
            alloc,
            &mut self.entries,
            &mut self.places,
            &chosen,
            &mut out,
        );
        Ok(ElimList::from_vec(out))
    }

    /// Extends values over the stack, from the last entry to the first: each variable becomes true where a clause of its
    /// entry holds it and has no other true literal, and else false. It takes no memory.
    pub fn extend(&self, values: &mut Values)
        requires { All (IsCovered values.old) self.now }
        ensures extended { Extends self.now (value values.old) (value values.new) }
        ensures reserved { reserved values.new ≡ reserved values.old }
    {
        let mut left = self.entries.len();
        while left > 0 {
            left -= 1;
            let entry = &self.entries[left];
            let needed = is_needed(values, entry.var, entry.clauses.as_slice());
            values.set(entry.var, needed);
        }
    }
}
