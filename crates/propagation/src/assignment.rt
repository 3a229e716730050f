// The true literals in their order. The value of each literal lies in a table by its code, and of each variable with a value
// the level and the place of its entry in a table by variable, so that no question goes over the trail. The second table is
// never emptied: it is read only where the first says that the variable has a value.

ghost use Rattle.std.specs.Prelude.{◌≡◌, ℕ, ◌≤◌, ◌<◌, List, [], length, take, drop, max, OnOk, OnErr, IsOk, IsTrue, is_some};
ghost use Rattle.lits.specs.Literal.{max_var, var, neg};
ghost use Rattle.session_rules.specs.Logic.{has};
ghost use Rattle.propagation.specs.declared.TrailEntry.{TrailEntry};
ghost use Rattle.propagation.specs.Engine.{literals, level_after, level_behind, reason_in, value_in, place_in, up_to_level};
ghost use Rattle.propagation.specs.Assigned.{Assigned, nothing_assigned, with_last, with_entries, with_reason, raised, lowered, value_of, IsNew, AreFreed};

use crate::TrailEntry;
use clause_store::Slot;
use lits::Lit;
use std::alloc::{AllocError, Global};
use std::marker::Model;

/// The value of a literal.
#[derive(Clone, Copy)]
enum Value {
    Free,
    True,
    False,
}

/// The level of a variable that has a value, and the place of its entry, counted from 0.
#[derive(Clone, Copy)]
struct Origin {
    level: u32,
    place: u32,
}

/// The level behind an entry of this reason.
fn raised(level: u32, reason: Option<Slot>) -> u32
    requires { level < max_var }
    ensures { result ≡ raised level reason }
{
    if reason.is_none() { level + 1 } else { level }
}

/// The level before an entry of this reason.
fn lowered(level: u32, reason: Option<Slot>) -> u32
    ensures { result ≡ lowered level reason }
{
    if reason.is_none() {
        level.saturating_sub(1)
    } else {
        level
    }
}

/// Makes the literals from a place on free, and their negations.
fn free_from(values: &mut [Value], lits: &[Lit], n: usize)
    requires within { n ≤ length lits.now }
    requires reach { (l : ℕ) → IsTrue (has (drop n lits.now) l) → (l < length values.old) × (neg l < length values.old) }
    ensures { AreFreed values.old (drop n lits.now) values.new }
{
    let rest = &lits[n..];
    for l in rest {
        values[l.code() as usize] = Value::Free;
        values[l.neg().code() as usize] = Value::Free;
    }
}

/// The true literals. Contracts see the entries of the trail and the greatest reserved variable.
#[derive(Drop)]
pub(crate) struct Assignment {
    entries: Vec<TrailEntry>,
    lits: Vec<Lit>,
    // for each code the value of the literal
    values: Vec<Value>,
    // for each variable from 1 on its origin, which is read where the variable has a value
    origins: Vec<Origin>,
    level: u32,
}

impl Model for Assignment {
    ghost use Rattle.std.specs.Prelude.{length};
    ghost use Rattle.std.specs.Vec.{vec_capacity};
    ghost use Rattle.propagation.specs.Assigned.{Assigned, assigned_code, IsAssigned};

    ghost Value = { Assigned };

    ghost coded = { assigned_code };

    ghost view = { λ a. record { entries = a.entries.items; vars = length a.origins.items } };

    ghost invariant = { λ a. IsAssigned a.entries.items a.lits.items a.values.items a.origins.items a.level (vec_capacity a.entries) (vec_capacity a.lits) };
}

impl Assignment {
    /// No literal, no variable.
    pub(crate) fn new(alloc: Global) -> Assignment
        ensures { result ≡ nothing_assigned }
    {
        Assignment {
            entries: Vec::new(alloc),
            lits: Vec::new(alloc),
            values: Vec::new(alloc),
            origins: Vec::new(alloc),
            level: 0,
        }
    }

    /// Makes room for the variables up to this one. Where memory is wanting all stays.
    pub(crate) fn reserve(&mut self, vars: u32) -> Result<(), AllocError>
        requires { vars ≤ max_var }
        ensures ok { OnOk result (self.new ≡ record { entries = self.old.entries; vars = max self.old.vars vars }) }
        ensures err { OnErr result (self.new ≡ self.old) }
        ensures enough { vars ≤ self.old.vars → IsOk result }
    {
        let before = self.values.len();
        let count = vars as usize;
        if count <= self.origins.len() {
            return Ok(());
        }
        self.entries.reserve(count)?;
        self.lits.reserve(count)?;
        self.values.resize(2 * count, Value::Free)?;
        match self.origins.resize(count, Origin { level: 0, place: 0 }) {
            Ok(()) => Ok(()),
            Err(e) => {
                self.values.truncate(before);
                Err(e)
            }
        }
    }

    /// Puts a literal at the trail's end.
    pub(crate) fn put(&mut self, l: Lit, reason: Option<Slot>)
        requires { IsNew self.old.vars self.old.entries l }
        ensures { self.new ≡ with_last self.old (record { lit = l; reason = reason }) }
    {
        let entry = TrailEntry { lit: l, reason };
        let level = raised(self.level, entry.reason);
        let place = self.entries.len() as u32;
        let origin = Origin { level, place };
        self.values[l.code() as usize] = Value::True;
        self.values[l.neg().code() as usize] = Value::False;
        self.origins[(l.var() - 1) as usize] = origin;
        self.entries.push_reserved(entry);
        self.lits.push_reserved(l);
        self.level = level;
    }

    /// How many entries stay where the literals of higher levels go.
    fn kept(&self, level: u32) -> usize
        ensures within { result ≤ length self.now.entries }
        ensures entries { take result self.now.entries ≡ up_to_level level self.now.entries }
    {
        let mut now = self.level;
        let mut n = self.entries.len();
        while now > level {
            n -= 1;
            now = lowered(now, self.entries[n].reason);
        }
        n
    }

    /// Takes off all entries but the first so many, behind which this level is reached.
    fn cut(&mut self, n: usize, level: u32)
        requires within { n ≤ length self.old.entries }
        requires level { level ≡ level_after (take n self.old.entries) }
        ensures { self.new ≡ with_entries self.old (take n self.old.entries) }
    {
        free_from(&mut self.values, &self.lits, n);
        self.entries.truncate(n);
        self.lits.truncate(n);
        self.level = level;
    }

    /// Takes off the literals of higher levels.
    pub(crate) fn back_to(&mut self, level: u32)
        ensures { self.new ≡ with_entries self.old (up_to_level level self.old.entries) }
    {
        if self.level > level {
            let n = self.kept(level);
            self.cut(n, level);
        }
    }

    /// Takes off all literals.
    pub(crate) fn clear(&mut self)
        ensures { self.new ≡ with_entries self.old [] }
    {
        self.cut(0, 0);
    }

    /// The true literals, oldest first.
    pub(crate) fn lits(&self) -> &[Lit]
        ensures { result.now ≡ literals self.now.entries }
    {
        &self.lits
    }

    /// The greatest reserved variable.
    pub(crate) fn vars(&self) -> u32
        ensures { result ≡ self.now.vars }
    {
        self.origins.len() as u32
    }

    /// How many literals were assumed.
    pub(crate) fn level(&self) -> u32
        ensures { result ≡ level_after self.now.entries }
    {
        self.level
    }

    /// The value of a literal in the table.
    fn entry(&self, l: Lit) -> Value
        ensures { value_of result ≡ value_in (literals self.now.entries) l }
    {
        let place = l.code() as usize;
        if place < self.values.len() {
            self.values[place]
        } else {
            Value::Free
        }
    }

    /// The value of a literal.
    pub(crate) fn value(&self, l: Lit) -> Option<bool>
        ensures { result ≡ value_in (literals self.now.entries) l }
    {
        match self.entry(l) {
            Value::Free => None,
            Value::True => Some(true),
            Value::False => Some(false),
        }
    }

    /// Whether a literal of a reserved variable is true.
    #[inline(always)]
    pub(crate) fn is_true(&self, l: Lit) -> bool
        requires { var l ≤ self.now.vars }
        ensures { result ≡ has (literals self.now.entries) l }
    {
        match self.values[l.code() as usize] {
            Value::True => true,
            Value::False => false,
            Value::Free => false,
        }
    }

    /// Whether a literal of a reserved variable is false.
    #[inline(always)]
    pub(crate) fn is_false(&self, l: Lit) -> bool
        requires { var l ≤ self.now.vars }
        ensures { result ≡ has (literals self.now.entries) (neg l) }
    {
        match self.values[l.code() as usize] {
            Value::False => true,
            Value::True => false,
            Value::Free => false,
        }
    }

    /// The level of a literal's variable, where it has a value.
    pub(crate) fn level_of(&self, l: Lit) -> Option<u32>
        ensures { result ≡ level_behind 0 self.now.entries l }
    {
        match self.value(l) {
            Some(_) => Some(self.origins[(l.var() - 1) as usize].level),
            None => None,
        }
    }

    /// The place of a true literal, counted from 0.
    pub(crate) fn place_of(&self, l: Lit) -> Option<usize>
        ensures { result ≡ place_in (literals self.now.entries) l }
    {
        match self.entry(l) {
            Value::True => Some(self.origins[(l.var() - 1) as usize].place as usize),
            Value::False => None,
            Value::Free => None,
        }
    }

    /// The reason of a true literal.
    pub(crate) fn reason(&self, l: Lit) -> Option<Slot>
        ensures { result ≡ reason_in self.now.entries l }
    {
        match self.place_of(l) {
            Some(place) => self.entries[place].reason,
            None => None,
        }
    }

    /// Gives a true literal that has a reason this one in its place.
    pub(crate) fn replace_reason(&mut self, l: Lit, s: Slot)
        requires { IsTrue (is_some (reason_in self.old.entries l)) }
        ensures { self.new ≡ with_entries self.old (with_reason self.old.entries l s) }
    {
        let place = self.origins[(l.var() - 1) as usize].place as usize;
        self.entries[place] = TrailEntry {
            lit: l,
            reason: Some(s),
        };
    }
}
