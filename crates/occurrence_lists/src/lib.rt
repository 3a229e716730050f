//! For each literal the clauses that hold it, and how many they are.
//!
//! The elimination of a variable asks for the clauses that hold it and those that hold its negation, and how many there are,
//! again and again. So a clause's id is put into the list of each of its literals when the clause comes, and taken out of
//! them when it goes. An id is looked for from a list's end: clauses that go are mostly those that came last, since what a
//! later line restores is eliminated again before long. The last id of the list comes to its place.
//!
//! Contracts see for each literal the list of ids, in no order that callers may rest on.
#![tactic(auto)]

ghost use Rattle.std.specs.Prelude.{◌≡◌, ◌≤◌, ◌<◌, ◌+◌, ◌-◌, ◌*◌, ℕ, [], ◌++◌, ◌∷◌, length, take, replicate, nat_eq, slice_index, true, OnOk, OnErr, IsOk, IfSome, IfNone};
ghost use Rattle.lits.specs.Clause.{has};
ghost use Rattle.clause_store.specs.Clauses.{IsOnce};
ghost use Rattle.occurrence_lists.specs.Occurring.{row, times, one_if, with_rows, AreListed, IsAdded, IsRemoved, IsSame};

mod laws;

pub use laws::lists_stand_for_clauses;
use lits::{Lit, MAX_VAR};
use std::alloc::{AllocError, Global};
use std::marker::Model;

/// The ids of the clauses that hold a literal.
#[derive(Drop)]
struct Row {
    ids: Vec<u64>,
}

impl Model for Row {
    ghost use Rattle.std.specs.Prelude.{ℕ, List};

    ghost Value = { List ℕ };

    ghost view = { λ r. r.ids.items };
}

/// The last place of an id in a list.
fn last_place(ids: &[u64], id: u64) -> Option<usize>
    ensures within { IfSome result (λ i. i < length ids.now) }
    ensures there { IfSome result (λ i. slice_index ids.now i ≡ id) }
    ensures none { IfNone result (times id ids.now ≡ 0) }
{
    let mut at = ids.len();
    while at > 0 {
        at -= 1;
        if ids[at] == id {
            return Some(at);
        }
    }
    None
}

impl Row {
    /// An empty list.
    fn new(alloc: Global) -> Row
        ensures { result ≡ [] }
    {
        Row {
            ids: Vec::new(alloc),
        }
    }

    /// Puts an id at the end. After an error the list is as it was.
    fn push(&mut self, id: u64) -> Result<(), AllocError>
        ensures ok { OnOk result (self.new ≡ self.old ++ id ∷ []) }
        ensures err { OnErr result (self.new ≡ self.old) }
    {
        self.ids.push(id)?;
        Ok(())
    }

    /// Takes out an id once. The last id comes to its place.
    fn take_out(&mut self, id: u64)
        requires { 0 < times id self.old }
        ensures { (q : ℕ) → times q self.old ≡ times q self.new + one_if (nat_eq q id) }
    {
        if let Some(place) = last_place(&self.ids, id) {
            let _ = self.ids.swap_remove(place);
        }
    }
}

/// Makes so many rows, where there are fewer, with empty lists. After an error they are as they were.
fn widen(rows: &mut Vec<Row>, end: usize) -> Result<(), AllocError>
    ensures ok { OnOk result (rows.new.items ≡ with_rows rows.old.items end) }
    ensures err { OnErr result (rows.new.items ≡ rows.old.items) }
{
    let alloc = *rows.allocator();
    let more = end.saturating_sub(rows.len());
    rows.reserve(more)?;
    for _ in 0..more {
        let _ = rows.push(Row::new(alloc));
    }
    Ok(())
}

/// Puts an id into the lists of these literals, as far as it goes: so many of them have it then.
fn push_front(rows: &mut Vec<Row>, id: u64, lits: &[Lit]) -> usize
    requires listed { AreListed rows.old.items lits.now }
    requires once { IsOnce lits.now }
    ensures within { result ≤ length lits.now }
    ensures added { IsAdded rows.old.items id (take result lits.now) rows.new.items }
{
    let mut done = 0;
    for l in lits {
        let Ok(()) = rows[l.code() as usize].push(id) else {
            return done;
        };
        done += 1;
    }
    done
}

/// Puts an id into the lists of these literals. After an error each list has what it had.
fn push_each(rows: &mut Vec<Row>, id: u64, lits: &[Lit]) -> Result<(), AllocError>
    requires listed { AreListed rows.old.items lits.now }
    requires once { IsOnce lits.now }
    ensures ok { OnOk result (IsAdded rows.old.items id lits.now rows.new.items) }
    ensures err { OnErr result (IsSame rows.old.items rows.new.items) }
{
    let done = push_front(rows, id, lits);
    if done < lits.len() {
        take_each(rows, id, &lits[..done]);
        return Err(AllocError);
    }
    Ok(())
}

/// Takes an id out of the lists of these literals, which have it.
fn take_each(rows: &mut Vec<Row>, id: u64, lits: &[Lit])
    requires listed { AreListed rows.old.items lits.now }
    requires once { IsOnce lits.now }
    requires there { (l : ℕ) → has lits.now l ≡ true → 0 < times id (row rows.old.items l) }
    ensures { IsRemoved rows.old.items id lits.now rows.new.items }
{
    for l in lits {
        rows[l.code() as usize].take_out(id);
    }
}

/// For each literal of a reserved variable the ids of the clauses that hold it.
#[derive(Drop)]
pub struct Occurrences {
    // for each literal by its code
    rows: Vec<Row>,
}

impl Model for Occurrences {
    ghost use Rattle.std.specs.Prelude.{ℕ, List};

    ghost Value = { List (List ℕ) };

    ghost view = { λ o. o.rows.items };
}

impl Occurrences {
    /// No variable is reserved. It takes no memory.
    pub fn new(alloc: Global) -> Occurrences
        ensures { result ≡ [] }
    {
        Occurrences {
            rows: Vec::new(alloc),
        }
    }

    /// Reserves the variables up to this one; the lists of their literals are empty.
    ///
    /// `AllocError` means out of memory, and then nothing is changed. What is reserved already needs no memory.
    pub fn reserve(&mut self, vars: u32) -> Result<(), AllocError>
        requires { vars ≤ MAX_VAR }
        ensures ok { OnOk result (self.new ≡ with_rows self.old (2 * vars)) }
        ensures err { OnErr result (self.new ≡ self.old) }
    {
        widen(&mut self.rows, 2 * vars as usize)
    }

    /// Puts a clause's id into the lists of its literals, which are different.
    ///
    /// `AllocError` means out of memory, and then each list has the ids that it had, in some order.
    pub fn add(&mut self, id: u64, lits: &[Lit]) -> Result<(), AllocError>
        requires reserved { AreListed self.old lits.now }
        requires once { IsOnce lits.now }
        ensures ok { OnOk result (IsAdded self.old id lits.now self.new) }
        ensures err { OnErr result (IsSame self.old self.new) }
    {
        push_each(&mut self.rows, id, lits)
    }

    /// Takes a clause's id out of the lists of its literals, which are different and have it. It takes no memory.
    pub fn remove(&mut self, id: u64, lits: &[Lit])
        requires reserved { AreListed self.old lits.now }
        requires once { IsOnce lits.now }
        requires there { (l : ℕ) → has lits.now l ≡ true → 0 < times id (row self.old l) }
        ensures { IsRemoved self.old id lits.now self.new }
    {
        take_each(&mut self.rows, id, lits);
    }

    /// The ids of the clauses that hold a literal.
    pub fn ids(&self, l: Lit) -> &[u64]
        requires { l < length self.now }
        ensures { result.now ≡ row self.now l }
    {
        &self.rows[l.code() as usize].ids
    }
}
