// A mark for each variable, a list of the literals that were marked, so that all marks are taken off at the cost of their number,
// and how many are pending, so that a walk down the trail stops where none is.

ghost use Rattle.std.specs.Prelude.{[], ◌≡◌, ◌≢◌, ◌≤◌, ℕ, slice_index_or, ◌+◌, ◌/◌, ◌<◌, Bool, false, length, slice_set, OnOk, OnErr, max};
ghost use Rattle.lits.specs.Literal.{max_var};
ghost use Rattle.conflict_analysis.specs.Marked.{mark_at, is_pending, pending, one_if, AreNoted, IsClear};

use lits::Lit;
use std::alloc::{AllocError, Global};
use std::marker::Model;

/// What an analysis knows of a variable's literal on the trail.
#[derive(Clone, Copy)]
pub enum Mark {
    /// Nothing.
    Clear,
    /// Its step is yet to be visited, and its negation may come into the lemma.
    Kept,
    /// Its step is yet to be visited, and will be replaced by its reason.
    Needed,
    /// It follows of kept literals and those of level 0.
    Redundant,
    /// It doesn't, or too many steps were needed to see it.
    Failed,
}

impl Mark {
    /// Whether its step is yet to be visited.
    pub fn is_pending(self) -> bool
        ensures { result ≡ is_pending self }
    {
        match self {
            Mark::Kept => true,
            Mark::Needed => true,
            Mark::Clear => false,
            Mark::Redundant => false,
            Mark::Failed => false,
        }
    }

    /// Whether it needs no look.
    pub fn follows(self) -> bool
        ensures { result ≡ false → is_pending self ≡ false }
    {
        match self {
            Mark::Kept => true,
            Mark::Needed => true,
            Mark::Redundant => true,
            Mark::Clear => false,
            Mark::Failed => false,
        }
    }

    /// Whether a look at it was in vain.
    pub fn is_failed(self) -> bool {
        match self {
            Mark::Failed => true,
            _ => false,
        }
    }

    /// Whether it will be replaced by its reason.
    pub fn is_needed(self) -> bool {
        match self {
            Mark::Needed => true,
            _ => false,
        }
    }
}

/// The number of pending marks, of so many marks at most, behind a change of one.
fn recount(limit: usize, count: usize, was: bool, is: bool) -> usize
    requires counted { one_if was ≤ count }
    requires within { count + one_if is ≤ limit + one_if was }
    ensures { result + one_if was ≡ count + one_if is }
{
    let others = if was { count - 1 } else { count };
    if is { others + 1 } else { others }
}

/// Takes the mark of a place off, if there is such a place.
fn take_one(items: &mut [Mark], i: usize)
    ensures at { slice_index_or items.new i Mark.Clear ≡ Mark.Clear }
    ensures others { (j : ℕ) → j ≢ i → slice_index_or items.new j Mark.Clear ≡ slice_index_or items.old j Mark.Clear }
{
    if i < items.len() {
        items[i] = Mark::Clear;
    }
}

/// Takes the marks of these literals off.
fn take_off(items: &mut [Mark], noted: &[Lit])
    requires { AreNoted items.old noted.now }
    ensures { IsClear items.new }
{
    for l in noted {
        take_one(items, (l.code() / 2) as usize);
    }
}

/// Takes the marks of these literals off a vector.
fn take_all_off(items: &mut Vec<Mark>, noted: &[Lit])
    requires { AreNoted items.old.items noted.now }
    ensures clear { IsClear items.new.items }
    ensures length { length items.new.items ≡ length items.old.items }
{
    take_off(items, noted);
}

/// The marks. Contracts see them by variable.
#[derive(Drop)]
pub struct Marks {
    items: Vec<Mark>,
    // the literals that were marked since the marks were last clear
    noted: Vec<Lit>,
    // how many marks are pending
    pending: usize,
}

impl Model for Marks {
    ghost use Rattle.std.specs.Prelude.{List};
    ghost use Rattle.conflict_analysis.specs.declared.marks.Mark.{Mark};
    ghost use Rattle.conflict_analysis.specs.Marked.{AreMarks};

    ghost Value = { List Mark };

    ghost view = { λ m. m.items.items };

    ghost invariant = { λ m. AreMarks m.items.items m.noted.items m.pending };
}

impl Marks {
    /// No variable.
    pub fn new(alloc: Global) -> Marks
        ensures { result ≡ [] }
    {
        Marks {
            items: Vec::new(alloc),
            noted: Vec::new(alloc),
            pending: 0,
        }
    }

    /// Makes room for the variables up to this one. The marks stay.
    pub fn reserve(&mut self, vars: u32) -> Result<(), AllocError>
        ensures ok { OnOk result (vars ≤ length self.new) }
        ensures marks { (i : ℕ) → slice_index_or self.new i Mark.Clear ≡ slice_index_or self.old i Mark.Clear }
    {
        if vars as usize > self.items.len() {
            self.items.resize(vars as usize, Mark::Clear)?;
        }
        Ok(())
    }

    /// The mark of a literal's variable.
    pub fn at(&self, l: Lit) -> Mark
        requires { l / 2 < length self.now }
        ensures { result ≡ mark_at self.now l }
    {
        self.items[(l.code() / 2) as usize]
    }

    /// Marks a literal's variable. Where memory is wanting the marks stay.
    pub fn set(&mut self, l: Lit, mark: Mark) -> Result<(), AllocError>
        requires { l / 2 < length self.old }
        ensures ok { OnOk result (self.new ≡ slice_set self.old (l / 2) mark) }
        ensures err { OnErr result (self.new ≡ self.old) }
    {
        self.noted.push(l)?;
        let place = (l.code() / 2) as usize;
        let was = self.items[place].is_pending();
        self.pending = recount(self.items.len(), self.pending, was, mark.is_pending());
        self.items[place] = mark;
        Ok(())
    }

    /// Takes the mark of a literal's variable off.
    pub fn visit(&mut self, l: Lit)
        requires { l / 2 < length self.old }
        ensures { self.new ≡ slice_set self.old (l / 2) Mark.Clear }
    {
        let place = (l.code() / 2) as usize;
        let was = self.items[place].is_pending();
        self.pending = recount(
            self.items.len(),
            self.pending,
            was,
            Mark::Clear.is_pending(),
        );
        self.items[place] = Mark::Clear;
    }

    /// Whether a variable's entry is yet to be visited.
    pub fn has_pending(&self) -> bool
        ensures { result ≡ false → (l : ℕ) → pending self.now l ≡ false }
    {
        self.pending > 0
    }

    /// Takes all marks off.
    pub fn clear(&mut self)
        ensures clear { IsClear self.new }
        ensures length { length self.new ≡ length self.old }
    {
        take_all_off(&mut self.items, &self.noted);
        self.noted.clear();
        self.pending = 0;
    }
}
