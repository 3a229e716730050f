// A set of ids, as a mark for each id: it takes a byte an id, and no id is looked for.
ghost use Rattle.std.specs.Prelude.{◌≡◌, ◌<◌, ◌^◌, [], length, OnOk, OnErr, Contains};
ghost use Rattle.lits.specs.Clause.{has};
ghost use Rattle.elimination.specs.Inside.{ids_from, IsInserted};

use session_rules::Id;
use std::alloc::{AllocError, Global};
use std::marker::Model;

/// A set of ids. Contracts see them in ascending order.
#[derive(Drop)]
pub(crate) struct IdSet {
    // for each id from 0 on
    marks: Vec<bool>,
}

impl Model for IdSet {
    ghost use Rattle.std.specs.Prelude.{ℕ, List};
    ghost use Rattle.elimination.specs.Inside.{ids_from};

    ghost Value = { List ℕ };

    ghost view = { λ s. ids_from 0 s.marks.items };
}

/// Makes marks up to this row, where there are fewer. None of the new ones is set.
fn widen(marks: &mut Vec<bool>, row: usize) -> Result<(), AllocError>
    requires { row < 2 ^ 63 }
    ensures room { OnOk result (row < length marks.new.items) }
    ensures same { ids_from 0 marks.new.items ≡ ids_from 0 marks.old.items }
{
    if row >= marks.len() {
        marks.resize(row + 1, false)?;
    }
    Ok(())
}

impl IdSet {
    /// No id. It takes no memory.
    pub(crate) fn new(alloc: Global) -> IdSet
        ensures { result ≡ [] }
    {
        IdSet {
            marks: Vec::new(alloc),
        }
    }

    /// Adds an id that isn't there.
    ///
    /// `AllocError` means out of memory, and then nothing is changed.
    pub(crate) fn insert(&mut self, id: Id) -> Result<(), AllocError>
        requires limit { id < 2 ^ 63 }
        requires fresh { Contains self.old id → ⊥ }
        ensures ok { OnOk result (IsInserted self.old id self.new) }
        ensures err { OnErr result (self.new ≡ self.old) }
    {
        widen(&mut self.marks, id as usize)?;
        self.marks[id as usize] = true;
        Ok(())
    }

    /// Takes out an id that is there.
    pub(crate) fn remove(&mut self, id: Id)
        requires { Contains self.old id }
        ensures { IsInserted self.new id self.old }
    {
        self.marks[id as usize] = false;
    }

    /// Whether an id is there.
    pub(crate) fn has(&self, id: Id) -> bool
        ensures { result ≡ has self.now id }
    {
        if id >= self.marks.len() as u64 {
            return false;
        }
        self.marks[id as usize]
    }
}
