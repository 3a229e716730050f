// The lists and the table of places together. A clause of two or more literals has an entry in the list of the literal in the
// first place of its own list, and one for that in the second. The table says where both stand, so an entry is taken out of
// the middle of a list without a search; the last one of the list comes to its place.

ghost use Rattle.std.specs.Prelude.{◌≡◌, ℕ, ◌+◌, ◌<◌, ◌≤◌, ◌-◌, ◌++◌, ◌∷◌, [], length, take, replicate, nat_lt, nat_eq, slice_index, slice_set, OnOk, OnErr, Some, true};
ghost use Rattle.std.specs.List.{list_all};
ghost use Rattle.lits.specs.Clause.{has};
ghost use Rattle.clause_store.specs.Clauses.{slot_at, with_swap, IsOnce, Store as Clauses};
ghost use Rattle.watch_lists.specs.Watch.{node_at};
ghost use Rattle.watch_lists.specs.Watched.{entry_at};
ghost use Rattle.watch_lists.specs.Lists.{no_row, row_at, watches_at, count_at, with_watches, IsCut, IsRowChanged, put_places, cut_places, last_in, lits_of, id_at, watch_places, nobody, AreKept, AreRaised, AreLowered, AreBeside, IsPlaced, sides_in, CanPart, CanMove};

use crate::row::Row;
use crate::watch::Watch;
use clause_store::{Slot, Store};
use lits::Lit;
use std::alloc::{AllocError, Global};

/// The lists, and where each entry stands in its own.
#[derive(Drop)]
pub(crate) struct WatchTable {
    // for each literal by its code
    pub(crate) rows: Vec<Row>,
    // where entries stand: that of a slot's first place at twice the slot's number, and that of its second behind it
    pub(crate) places: Vec<u32>,
}

/// The literals that a clause watches, and where its entries stand in their lists.
#[derive(Clone, Copy)]
pub(crate) struct Sides {
    one: Lit,
    one_at: u32,
    two: Lit,
    two_at: u32,
}

/// Whether the codes of all these literals are below an end.
pub(crate) fn are_below(lits: &[Lit], end: usize) -> bool
    ensures { result ≡ list_all (λ l. nat_lt l end) lits.now }
{
    lits.iter().all(|l| (l.code() as usize) < end)
}

/// Makes so many rows, where there are fewer, with empty lists. After an error they are as they were.
pub(crate) fn widen(rows: &mut Vec<Row>, end: usize) -> Result<(), AllocError>
    ensures ok { OnOk result (rows.new.items ≡ rows.old.items ++ replicate (end - length rows.old.items) no_row) }
    ensures err { OnErr result (rows.new.items ≡ rows.old.items) }
{
    let alloc = *rows.allocator();
    let more = end.saturating_sub(rows.len());
    rows.reserve(more)?;
    for _ in 0..more {
        let _ = rows.push(Row::new(alloc));
    }
    Ok(())
}

/// Makes the table so long, where it is shorter. After an error its numbers are as they were.
fn lengthen(places: &mut Vec<u32>, end: usize) -> Result<(), AllocError>
    ensures ok { OnOk result (end ≤ length places.new.items) }
    ensures longer { length places.old.items ≤ length places.new.items }
    ensures same { (n : ℕ) → n < length places.old.items → slice_index places.new.items n ≡ slice_index places.old.items n }
{
    if places.len() < end {
        places.resize(end, 0)?;
    }
    Ok(())
}

/// Makes room in the rows for one clause more of each of these literals. After an error some have it all the same.
fn raise(rows: &mut Vec<Row>, lits: &[Lit]) -> Result<(), AllocError>
    requires { (l : ℕ) → has lits.now l ≡ true → l < length rows.old.items }
    ensures raised { AreRaised [] rows.old.items rows.new.items }
    ensures ok { OnOk result (AreRaised lits.now rows.old.items rows.new.items) }
{
    for l in lits {
        rows[l.code() as usize].raise()?;
    }
    Ok(())
}

/// Gives up the room in the rows for one clause of each of these literals, which are different.
pub(crate) fn lower(rows: &mut Vec<Row>, lits: &[Lit])
    requires reserved { (l : ℕ) → has lits.now l ≡ true → l < length rows.old.items }
    requires once { IsOnce lits.now }
    ensures { AreLowered lits.now rows.old.items rows.new.items }
{
    for l in lits {
        rows[l.code() as usize].lower();
    }
}

/// At which of its first two places the clause of an entry has the list's literal, 0 or 1.
#[inline(always)]
fn place_of(store: &Store, s: Slot, l: Lit) -> usize
    requires slot { slot_at store.now (id_at store.now s) ≡ Some s }
    requires long { 2 ≤ length (lits_of store.now s) }
    ensures is { result ≡ watch_places store.now s l }
    ensures low { result ≤ 1 }
{
    if store.lits(s)[0] == l { 0 } else { 1 }
}

/// The same for an entry that stands at this place of the list. Mostly the table of places tells it, without a look at the
/// clause, which lies elsewhere.
#[inline(always)]
fn place_of_entry(places: &Vec<u32>, store: &Store, s: Slot, l: Lit, at: usize) -> usize
    requires { IsPlaced store.now places.now.items s l at }
    ensures is { result ≡ watch_places store.now s l }
    ensures low { result ≤ 1 }
{
    let node = 2 * s.number() as usize;
    if places[node] as usize != at {
        return 1;
    }
    if places[node + 1] as usize != at {
        return 0;
    }
    place_of(store, s, l)
}

impl WatchTable {
    /// No list, and no place.
    pub(crate) fn new(alloc: Global) -> WatchTable
        ensures rows { result.rows.items ≡ [] }
        ensures places { result.places.items ≡ [] }
    {
        WatchTable {
            rows: Vec::new(alloc),
            places: Vec::new(alloc),
        }
    }

    /// Puts the entry for a place of its clause's list at the end of a literal's list, which has room for it.
    #[inline(always)]
    fn put(&mut self, l: Lit, place: usize, watch: Watch)
        requires reserved { l < length self.old.rows.items }
        requires room { length (watches_at self.old.rows.items l) < count_at self.old.rows.items l }
        requires place { node_at watch.slot place < length self.old.places.items }
        ensures rows { self.new.rows.items ≡ slice_set self.old.rows.items l (with_watches (row_at self.old.rows.items l) (watches_at self.old.rows.items l ++ watch ∷ [])) }
        ensures places { self.new.places.items ≡ put_places self.old.places.items (watches_at self.old.rows.items l) watch.slot place }
    {
        let row = &mut self.rows[l.code() as usize];
        self.places[2 * watch.slot().number() as usize + place] = row.list().len() as u32;
        row.push(watch);
    }

    /// Takes out the entry at a place of a literal's list, to which the last one comes.
    #[inline(always)]
    fn cut(&mut self, store: &Store, l: Lit, i: usize)
        requires within { i < length (watches_at self.old.rows.items l) }
        requires reserved { l < length self.old.rows.items }
        requires few { length (watches_at self.old.rows.items l) ≤ count_at self.old.rows.items l }
        requires last { let es = watches_at self.old.rows.items l in i + 1 < length es → IsPlaced store.now self.old.places.items (last_in es).slot l (length es - 1) }
        ensures list { IsCut (watches_at self.old.rows.items l) (watches_at self.new.rows.items l) i }
        ensures rows { IsRowChanged l self.old.rows.items self.new.rows.items }
        ensures places { let es = watches_at self.old.rows.items l in self.new.places.items ≡ cut_places self.old.places.items es (watch_places store.now (last_in es).slot l) i }
    {
        let row = &mut self.rows[l.code() as usize];
        if let Some(last) = row.cut(i) {
            let slot = last.slot();
            let at = row.list().len();
            let place = place_of_entry(&self.places, store, slot, l, at);
            self.places[2 * slot.number() as usize + place] = i as u32;
        }
    }

    /// Makes room for the entries of the clause at a slot. After an error some of its literals have room all the same.
    pub(crate) fn make_room(&mut self, store: &Store, s: Slot) -> Result<(), AllocError>
        requires slot { slot_at store.now (id_at store.now s) ≡ Some s }
        requires reserved { (l : ℕ) → has (lits_of store.now s) l ≡ true → l < length self.old.rows.items }
        ensures raised { AreRaised [] self.old.rows.items self.new.rows.items }
        ensures longer { length self.old.places.items ≤ length self.new.places.items }
        ensures same { (n : ℕ) → n < length self.old.places.items → slice_index self.new.places.items n ≡ slice_index self.old.places.items n }
        ensures room { OnOk result (AreRaised (lits_of store.now s) self.old.rows.items self.new.rows.items) }
        ensures fits { OnOk result (node_at s 1 < length self.new.places.items) }
    {
        lengthen(&mut self.places, 2 * s.number() as usize + 2)?;
        raise(&mut self.rows, store.lits(s))
    }

    /// Puts both entries of a clause into their lists, if it has two literals or more.
    pub(crate) fn enter(&mut self, store: &Store, s: Slot)
        requires kept { AreKept (nat_eq s) store.now self.old.rows.items self.old.places.items }
        requires slot { slot_at store.now (id_at store.now s) ≡ Some s }
        ensures kept { AreKept nobody store.now self.new.rows.items self.new.places.items }
        ensures long { length self.new.rows.items ≡ length self.old.rows.items }
    {
        if store.lits(s).len() < 2 {
            return;
        }
        let (one, two) = store.pair(s);
        self.put(one, 0, Watch::new(s, two));
        self.put(two, 1, Watch::new(s, one));
    }

    /// Where the entries of a clause stand; None where its list has fewer than two literals.
    pub(crate) fn sides_of(&self, store: &Store, s: Slot) -> Option<Sides>
        requires slot { slot_at store.now (id_at store.now s) ≡ Some s }
        requires room { node_at s 1 < length self.now.places.items }
        ensures { result ≡ sides_in store.now self.now.places.items s }
    {
        if store.lits(s).len() < 2 {
            return None;
        }
        let (one, two) = store.pair(s);
        let node = 2 * s.number() as usize;
        Some(Sides {
            one,
            one_at: self.places[node],
            two,
            two_at: self.places[node + 1],
        })
    }

    /// Takes both entries of a clause out of their lists. The clause may have left the store since, but no other.
    pub(crate) fn part(&mut self, store: &Store, sides: Option<Sides>)
        requires { (m : Clauses) × (s : ℕ) × CanPart m store.now self.old.rows.items self.old.places.items s sides }
        ensures kept { (m : Clauses) (s : ℕ) → CanPart m store.now self.old.rows.items self.old.places.items s sides → AreKept (nat_eq s) m self.new.rows.items self.new.places.items }
        ensures long { length self.new.rows.items ≡ length self.old.rows.items }
    {
        if let Some(sides) = sides {
            self.cut(store, sides.one, sides.one_at as usize);
            self.cut(store, sides.two, sides.two_at as usize);
        }
    }

    /// Exchanges the literal of an entry for a later one of its clause's list, and moves the entry from the list of the one to the
    /// end of that of the other. The other watch becomes its blocker.
    #[inline(always)]
    pub(crate) fn move_watch(&mut self, store: &mut Store, l: Lit, i: usize, k: usize)
        requires { CanMove store.old self.old.rows.items self.old.places.items l i k }
        ensures exchanged { let e = entry_at (watches_at self.old.rows.items l) i in store.new ≡ with_swap store.old (id_at store.old e.slot) (watch_places store.old e.slot l) k }
        ensures kept { AreKept nobody store.new self.new.rows.items self.new.places.items }
        ensures long { length self.new.rows.items ≡ length self.old.rows.items }
        ensures front { take i (watches_at self.new.rows.items l) ≡ take i (watches_at self.old.rows.items l) }
    {
        let watch = self.rows[l.code() as usize].list()[i];
        let slot = watch.slot();
        let place = place_of(store, slot, l);
        let joined = store.at(slot, k);
        let other = store.at(slot, 1 - place);
        self.cut(store, l, i);
        store.swap(slot, place, k);
        self.put(joined, place, Watch::new(slot, other));
    }
}
