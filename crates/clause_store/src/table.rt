// The rows of the clauses by id: for each id the slot in the pool and whether the clause is active. The dense part has a
// place for each id below its length, so an ordinary id is found by one bounds test and one read. Ids too large for the count
// of clauses lie in the far part, a map. The dense part is asked first, so what the far part keeps of an id doesn't count once
// the dense part has it.

ghost use Rattle.std.specs.Prelude.{◌≡◌, ℕ, nat_eq, OnOk, OnErr, IsTrue, is_some, false, Some, None, if◌then◌else◌, option_map};
ghost use Rattle.clause_store.specs.Rows.{row, kept_of, dense_row, far_row, with_state};

use lit_pool::Slot;
use std::alloc::{AllocError, Global};
use std::collections::HashMap;

/// What is kept of a clause.
#[derive(Clone, Copy)]
pub(crate) struct ClauseRow {
    pub(crate) slot: Slot,
    pub(crate) active: bool,
}

/// A place of the dense part, in 8 bytes.
#[derive(Clone, Copy)]
pub(crate) enum Cell {
    Free,
    Active(Slot),
    Weakened(Slot),
}

/// The rows, each in one of two parts.
#[derive(Drop)]
pub(crate) struct Table {
    dense: Vec<Cell>,
    far: HashMap<u64, ClauseRow>,
}

/// The end of the ids that the dense part makes place for, by the count of clauses: its size is bounded by theirs.
pub(crate) fn dense_limit(count: usize) -> u64 {
    (count as u64).saturating_add(4096).saturating_mul(8)
}

/// The row that a cell has.
#[inline(always)]
fn kept_in(cell: &Cell) -> Option<ClauseRow>
    ensures { result ≡ kept_of cell.now }
{
    match *cell {
        Cell::Free => None,
        Cell::Active(slot) => Some(ClauseRow { slot, active: true }),
        Cell::Weakened(slot) => Some(ClauseRow {
            slot,
            active: false,
        }),
    }
}

/// The cell of a clause.
fn cell_for(slot: Slot, active: bool) -> Cell
    ensures { kept_of result ≡ Some (record { slot = slot; active = active }) }
{
    if active {
        Cell::Active(slot)
    } else {
        Cell::Weakened(slot)
    }
}

/// What the dense part has at an id.
#[inline(always)]
fn dense_at(dense: &Vec<Cell>, id: u64) -> Option<ClauseRow>
    ensures { result ≡ dense_row dense.now.items id }
{
    let at = id as usize;
    if at < dense.len() {
        kept_in(&dense[at])
    } else {
        None
    }
}

/// Gives the dense part places up to this id.
fn widen(dense: &mut Vec<Cell>, id: u64) -> Result<(), AllocError>
    ensures { (q : ℕ) → dense_row dense.new.items q ≡ dense_row dense.old.items q }
{
    let at = id as usize;
    let Some(end) = at.checked_add(1) else {
        return Err(AllocError);
    };
    if dense.len() < end {
        dense.resize(end, Cell::Free)?;
    }
    Ok(())
}

/// Writes the place of an id in the dense part, and tells whether there is one.
fn write(dense: &mut Vec<Cell>, id: u64, cell: Cell) -> bool
    ensures written { IsTrue result → (q : ℕ) → dense_row dense.new.items q ≡ (if nat_eq id q then kept_of cell else dense_row dense.old.items q) }
    ensures past { result ≡ false → (q : ℕ) → dense_row dense.new.items q ≡ (if nat_eq id q then None else dense_row dense.old.items q) }
    ensures same { result ≡ false → dense.new.items ≡ dense.old.items }
{
    let at = id as usize;
    if at < dense.len() {
        dense[at] = cell;
        return true;
    }
    false
}

/// What the far part has at an id.
#[inline(always)]
fn far_at(far: &HashMap<u64, ClauseRow>, id: u64) -> Option<ClauseRow>
    ensures { result ≡ far_row far.now.entries id }
{
    if far.is_empty() {
        return None;
    }
    match far.get(&id) {
        Some(kept) => Some(*kept),
        None => None,
    }
}

/// Enters a row into the far part.
fn put_far(far: &mut HashMap<u64, ClauseRow>, id: u64, kept: ClauseRow) -> Result<(), AllocError>
    ensures ok { OnOk result ((q : ℕ) → far_row far.new.entries q ≡ (if nat_eq id q then Some kept else far_row far.old.entries q)) }
    ensures err { OnErr result ((q : ℕ) → far_row far.new.entries q ≡ far_row far.old.entries q) }
{
    match far.insert(id, kept) {
        Ok(_) => Ok(()),
        Err(_) => Err(AllocError),
    }
}

/// Takes a row out of the far part, where there is one.
fn cut_far(far: &mut HashMap<u64, ClauseRow>, id: u64)
    ensures { (q : ℕ) → far_row far.new.entries q ≡ (if nat_eq id q then None else far_row far.old.entries q) }
{
    if !far.is_empty() {
        let _ = far.remove(&id);
    }
}

/// Sets whether a row of the far part is active.
fn set_far(far: &mut HashMap<u64, ClauseRow>, id: u64, active: bool)
    ensures { (q : ℕ) → far_row far.new.entries q ≡ (if nat_eq id q then option_map (with_state active) (far_row far.old.entries q) else far_row far.old.entries q) }
{
    if let Some(kept) = far.get_mut(&id) {
        kept.active = active;
    }
}

impl Table {
    /// A table with no row.
    pub(crate) fn new(alloc: Global) -> Table
        ensures { (q : ℕ) → row result q ≡ None }
    {
        Table {
            dense: Vec::new(alloc),
            far: HashMap::new(alloc),
        }
    }

    /// The row of an id.
    #[inline(always)]
    pub(crate) fn get(&self, id: u64) -> Option<ClauseRow>
        ensures { result ≡ row self.now id }
    {
        match dense_at(&self.dense, id) {
            Some(kept) => Some(kept),
            None => far_at(&self.far, id),
        }
    }

    /// Whether an id has a row.
    pub(crate) fn contains_key(&self, id: u64) -> bool
        ensures { result ≡ is_some (row self.now id) }
    {
        self.get(id).is_some()
    }

    /// Enters a row. The dense part grows to have a place for an id below `limit`.
    pub(crate) fn insert(&mut self, id: u64, kept: &ClauseRow, limit: u64) -> Result<(), AllocError>
        ensures ok { OnOk result ((q : ℕ) → row self.new q ≡ (if nat_eq id q then Some kept.now else row self.old q)) }
        ensures err { OnErr result ((q : ℕ) → row self.new q ≡ row self.old q) }
    {
        if id < limit {
            widen(&mut self.dense, id)?;
        }
        if write(&mut self.dense, id, cell_for(kept.slot, kept.active)) {
            return Ok(());
        }
        put_far(&mut self.far, id, *kept)
    }

    /// Takes the row of an id out of both parts.
    pub(crate) fn remove(&mut self, id: u64)
        ensures { (q : ℕ) → row self.new q ≡ (if nat_eq id q then None else row self.old q) }
    {
        let _ = write(&mut self.dense, id, Cell::Free);
        cut_far(&mut self.far, id);
    }

    /// Sets whether a row is active.
    pub(crate) fn set_active(&mut self, id: u64, active: bool)
        ensures { (q : ℕ) → row self.new q ≡ (if nat_eq id q then option_map (with_state active) (row self.old q) else row self.old q) }
    {
        match dense_at(&self.dense, id) {
            Some(kept) => {
                let _ = write(&mut self.dense, id, cell_for(kept.slot, active));
            }
            None => set_far(&mut self.far, id, active),
        }
    }
}
