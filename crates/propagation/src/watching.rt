// Propagation by watches. A clause of two or more literals watches the first two of its list. The invariant is that each
// active clause is pending, has a true literal, or watches two literals that weren't made false by those true ones whose lists
// have been walked (`IsCovered`). It holds on each shorter trail too, so that going back needs no work on the lists.
//
// A list is walked from its end to its front. A clause that finds another literal to watch leaves the list, and the last entry
// takes its place, which has been visited already: so nothing is missed, and nothing is visited twice.

ghost use Rattle.std.specs.Prelude.{◌≡◌, ℕ, ◌+◌, ◌*◌, ◌-◌, ◌<◌, ◌≤◌, ◌⊎◌, [], List, Some, length, take, drop, slice_index, nat_lt, IfSome, IfNone, IsTrue, true, false};
ghost use Rattle.std.specs.List.{filter};
ghost use Rattle.lits.specs.Literal.{var, neg};
ghost use Rattle.session_rules.specs.Logic.{has};
ghost use Rattle.clause_store.specs.Clauses.{slot_at, lits_at, IsSlot};
ghost use Rattle.watch_lists.specs.Watched.{IsWatched, list_at, entry_at, watch_at, watch_place};
ghost use Rattle.propagation.specs.Engine.{literals, IsEngine, IsFalseAt};
ghost use Rattle.propagation.specs.Watching.{engine_in, AtSlot, IsVisited, IsNextFree, IsLastOpen, IsBrought, IsPair, IsMoved, IsConsequence, IsReady, IsDone, IsPassed, NeedsNoVisit, Advances};

use crate::Consequence;
use crate::assignment::Assignment;
use clause_store::Slot;
use lits::Lit;
use watch_lists::{Watch, Watches};

/// Recalls what holds of all watches for the proof of the function that calls it, and does nothing.
#[inline(always)]
pub(crate) fn recall_invariant(watches: &Watches)
    ensures { IsWatched watches.now }
{
    let _ = watches.store();
}

/// The first place from this one on whose literal isn't false.
#[inline(always)]
fn next_not_false(trail: &Assignment, lits: &[Lit], from: usize) -> Option<usize>
    requires { (k : ℕ) → k < length lits.now → var (slice_index lits.now k) ≤ trail.now.vars }
    ensures { IsNextFree (literals trail.now.entries) lits.now from result }
{
    for k in from..lits.len() {
        if !trail.is_false(lits[k]) {
            return Some(k);
        }
    }
    None
}

/// Brings the literal at a place of a clause's list to one of the first two places, where it stands already or from a later one.
fn bring(watches: &mut Watches, slot: Slot, place: usize, k: usize)
    requires slot { IsSlot watches.old.clauses slot }
    requires first_two { place ≤ 1 }
    requires later { (k ≡ place) ⊎ (2 ≤ k) }
    requires within { AtSlot watches.old.clauses slot (λ ls. k < length ls) }
    requires sound { IsWatched watches.old }
    ensures brought { (id : ℕ) → slot_at watches.old.clauses id ≡ Some slot
        → IsBrought id place k watches.old watches.new }
    ensures sound { IsWatched watches.new }
{
    if k == place {
        return;
    }
    watches.exchange(slot, place, k);
}

/// Brings the literals at two places to the first two, in one order or the other.
fn bring_both(watches: &mut Watches, slot: Slot, i: usize, j: usize)
    requires slot { IsSlot watches.old.clauses slot }
    requires order { i < j }
    requires within { AtSlot watches.old.clauses slot (λ ls. j < length ls) }
    requires sound { IsWatched watches.old }
    ensures pair { (id : ℕ) → slot_at watches.old.clauses id ≡ Some slot → IsPair id i j watches.old watches.new }
    ensures sound { IsWatched watches.new }
{
    if i == 1 {
        bring(watches, slot, 0, j);
        return;
    }
    bring(watches, slot, 0, i);
    bring(watches, slot, 1, j);
}

/// Looks at a clause: brings two literals that aren't false to its first two places, where it has them and the first isn't true.
/// Quiet says that it has a true literal, or that the first two aren't false.
fn find_two_watches(watches: &mut Watches, trail: &Assignment, slot: Slot) -> Consequence
    requires slot { IsSlot watches.old.clauses slot }
    requires engine { IsEngine (engine_in watches.old trail.now) }
    ensures moved { IsMoved (literals trail.now.entries) watches.old.clauses watches.new.clauses }
    ensures wide { length watches.new.lists ≡ length watches.old.lists }
    ensures found { IsConsequence (literals trail.now.entries) watches.old watches.new slot result }
    ensures sound { IsWatched watches.new }
{
    let lits = watches.lits(slot);
    let Some(i) = next_not_false(trail, lits, 0) else {
        return Consequence::False;
    };
    let first = lits[i];
    if trail.is_true(first) {
        return Consequence::Quiet;
    }
    let Some(j) = next_not_false(trail, lits, i + 1) else {
        return Consequence::Unit(first);
    };
    bring_both(watches, slot, i, j);
    Consequence::Quiet
}

/// Looks at a clause and puts the literal that follows of it on the trail. Whether the clause is false.
fn visit(watches: &mut Watches, trail: &mut Assignment, slot: Slot) -> bool
    requires slot { IsSlot watches.old.clauses slot }
    requires engine { IsEngine (engine_in watches.old trail.old) }
    ensures entries { Advances watches.old watches.new trail.old trail.new }
    ensures yes { IsTrue result → IsFalseAt (engine_in watches.new trail.new) slot }
    ensures no { result ≡ false
        → AtSlot watches.new.clauses slot (IsDone (literals trail.old.entries) (literals trail.new.entries)) }
    ensures sound { IsWatched watches.new }
{
    match find_two_watches(watches, trail, slot) {
        Consequence::False => true,
        Consequence::Unit(l) => {
            trail.put(l, Some(slot));
            false
        }
        Consequence::Quiet => false,
    }
}

/// The last entry of a list before this place whose blocker isn't true.
#[inline(always)]
fn last_open(trail: &Assignment, list: &[Watch], end: usize) -> Option<usize>
    requires within { end ≤ length list.now }
    requires reserved { (i : ℕ) → i < length list.now → var (entry_at list.now i).blocker ≤ trail.now.vars }
    ensures { IsLastOpen (literals trail.now.entries) list.now end result }
{
    let mut i = end;
    while i > 0 {
        i -= 1;
        if !trail.is_true(list[i].blocker()) {
            return Some(i);
        }
    }
    None
}

/// That of the first two literals of a list which isn't this one.
#[inline(always)]
fn other_watch(lits: &[Lit], w: Lit) -> Lit
    requires { 2 ≤ length lits.now }
    ensures { result ≡ slice_index lits.now (1 - watch_place lits.now w) }
{
    if lits[0] == w { lits[1] } else { lits[0] }
}

/// Where a literal beyond the first two of a clause's list isn't false, an entry for a false one needs no further look: a true
/// one becomes the blocker, and another is watched in place of the false one.
#[inline(always)]
fn watch_later(watches: &mut Watches, trail: &Assignment, w: Lit, i: usize, k: usize)
    requires within { i < length (list_at watches.old.lists w) }
    requires sound { IsWatched watches.old }
    requires engine { IsEngine (engine_in watches.old trail.now) }
    requires later { 2 ≤ k }
    requires in_bounds { AtSlot watches.old.clauses (watch_at watches.old w i).slot (λ ls. k < length ls) }
    requires falsified { has (literals trail.now.entries) (neg w) ≡ true }
    requires free { AtSlot watches.old.clauses (watch_at watches.old w i).slot
        (λ ls. has (literals trail.now.entries) (neg (slice_index ls k)) ≡ false) }
    ensures moved { IsMoved (literals trail.now.entries) watches.old.clauses watches.new.clauses }
    ensures wide { length watches.new.lists ≡ length watches.old.lists }
    ensures front { take i (list_at watches.new.lists w) ≡ take i (list_at watches.old.lists w) }
    ensures passed { IsVisited trail.now trail.now watches.old watches.new w i }
    ensures sound { IsWatched watches.new }
{
    let slot = watches.list(w)[i].slot();
    let l = watches.lits(slot)[k];
    if trail.is_true(l) {
        watches.block(w, i, l);
    } else {
        watches.move_watch(w, i, k);
    }
}

/// Visits the clause of an entry in a false literal's list. Some is its slot where it is false.
#[inline(always)]
fn visit_entry(watches: &mut Watches, trail: &mut Assignment, w: Lit, i: usize) -> Option<Slot>
    requires within { i < length (list_at watches.old.lists w) }
    requires sound { IsWatched watches.old }
    requires falsified { has (literals trail.old.entries) (neg w) ≡ true }
    requires engine { IsEngine (engine_in watches.old trail.old) }
    ensures entries { Advances watches.old watches.new trail.old trail.new }
    ensures front { take i (list_at watches.new.lists w) ≡ take i (list_at watches.old.lists w) }
    ensures found { IfSome result (λ s. IsFalseAt (engine_in watches.new trail.new) s) }
    ensures passed { IfNone result (IsVisited trail.old trail.new watches.old watches.new w i) }
    ensures sound { IsWatched watches.new }
{
    let watch = watches.list(w)[i];
    let slot = watch.slot();
    let lits = watches.lits(slot);
    let other = other_watch(lits, w);
    if trail.is_true(other) {
        watches.block(w, i, other);
        return None;
    }
    if let Some(k) = next_not_false(trail, lits, 2) {
        watch_later(watches, trail, w, i, k);
        return None;
    }
    if trail.is_false(other) {
        return Some(slot);
    }
    trail.put(other, Some(slot));
    None
}

/// Looks at the clause of an id, if it is active. Some is its slot where it is false.
fn visit_id(watches: &mut Watches, trail: &mut Assignment, id: u64) -> Option<Slot>
    requires engine { IsEngine (engine_in watches.old trail.old) }
    ensures entries { Advances watches.old watches.new trail.old trail.new }
    ensures found { IfSome result (λ s. IsFalseAt (engine_in watches.new trail.new) s) }
    ensures done { IfNone result ((s : ℕ) → slot_at watches.new.clauses id ≡ Some s
        → IsDone (literals trail.old.entries) (literals trail.new.entries) (lits_at watches.new.clauses id)) }
{
    match watches.find(id) {
        None => None,
        Some(slot) => {
            if visit(watches, trail, slot) {
                Some(slot)
            } else {
                None
            }
        }
    }
}

/// Looks at the clauses of these ids from a place on, which rises. Some is the slot of one that is false.
pub(crate) fn look_at(
    watches: &mut Watches,
    trail: &mut Assignment,
    ids: &[u64],
    from: &mut usize,
) -> Option<Slot>
    requires within { from.old ≤ length ids.now }
    requires engine { IsEngine (engine_in watches.old trail.old) }
    ensures entries { Advances watches.old watches.new trail.old trail.new }
    ensures ready { (h : ℕ) → h ≤ length trail.old.entries
        → IsReady watches.old.clauses (literals trail.old.entries) h (drop from.old ids.now)
        → IsReady watches.new.clauses (literals trail.new.entries) h (drop from.new ids.now) }
    ensures found { IfSome result (λ s. IsFalseAt (engine_in watches.new trail.new) s) }
    ensures all { IfNone result (from.new ≡ length ids.now) }
    ensures within { from.new ≤ length ids.now }
{
    while *from < ids.len() {
        if let Some(slot) = visit_id(watches, trail, ids[*from]) {
            return Some(slot);
        }
        *from += 1;
    }
    None
}

/// Visits the clauses that watch the negation of the true literal at this place, from the end of its list to the front, so that
/// a clause that leaves the list changes nothing of what is still to come. Some is the slot of one that is false.
fn propagate_literal(watches: &mut Watches, trail: &mut Assignment, head: usize) -> Option<Slot>
    requires head { head < length trail.old.entries }
    requires wide { 2 * trail.old.vars ≤ length watches.old.lists }
    requires engine { IsEngine (engine_in watches.old trail.old) }
    requires ready { IsReady watches.old.clauses (literals trail.old.entries) head [] }
    ensures entries { Advances watches.old watches.new trail.old trail.new }
    ensures found { IfSome result (λ s. IsFalseAt (engine_in watches.new trail.new) s) }
    ensures ready { IfSome result (λ _. IsReady watches.new.clauses (literals trail.new.entries) head []) }
    ensures done { IfNone result (IsReady watches.new.clauses (literals trail.new.entries) (head + 1) []) }
{
    let w = trail.lits()[head].neg();
    let mut end = watches.list(w).len();
    while let Some(i) = last_open(trail, watches.list(w), end) {
        end = i;
        if let Some(slot) = visit_entry(watches, trail, w, i) {
            return Some(slot);
        }
    }
    None
}

/// Propagates the true literals from a place on, which rises. Some is the slot of a clause that is false.
pub(crate) fn propagate_trail(
    watches: &mut Watches,
    trail: &mut Assignment,
    head: &mut usize,
) -> Option<Slot>
    requires head { head.old ≤ length trail.old.entries }
    requires wide { 2 * trail.old.vars ≤ length watches.old.lists }
    requires engine { IsEngine (engine_in watches.old trail.old) }
    requires ready { IsReady watches.old.clauses (literals trail.old.entries) head.old [] }
    ensures entries { Advances watches.old watches.new trail.old trail.new }
    ensures found { IfSome result (λ s. IsFalseAt (engine_in watches.new trail.new) s) }
    ensures ready { IsReady watches.new.clauses (literals trail.new.entries) head.new [] }
    ensures head { head.new ≤ length trail.new.entries }
    ensures all { IfNone result (head.new ≡ length trail.new.entries) }
{
    while *head < trail.lits().len() {
        if let Some(slot) = propagate_literal(watches, trail, *head) {
            return Some(slot);
        }
        *head += 1;
    }
    None
}

/// Looks at a clause that has been added. Whether nothing follows of it and it has two literals or more.
pub(crate) fn needs_no_visit(watches: &mut Watches, trail: &Assignment, slot: Slot) -> bool
    requires slot { IsSlot watches.old.clauses slot }
    requires engine { IsEngine (engine_in watches.old trail.now) }
    ensures moved { IsMoved (literals trail.now.entries) watches.old.clauses watches.new.clauses }
    ensures wide { length watches.new.lists ≡ length watches.old.lists }
    ensures sound { IsWatched watches.new }
    ensures needs_no_visit { IsTrue result
        → AtSlot watches.new.clauses slot (NeedsNoVisit (literals trail.now.entries)) }
{
    match find_two_watches(watches, trail, slot) {
        Consequence::Quiet => watches.lits(slot).len() >= 2,
        _ => false,
    }
}

/// Whether the clause of an id isn't active, or has fewer than two literals.
fn is_short(watches: &Watches, id: u64) -> bool
    ensures { result ≡ nat_lt (length (lits_at watches.now.clauses id)) 2 }
{
    match watches.find(id) {
        Some(slot) => watches.lits(slot).len() < 2,
        None => true,
    }
}

/// Takes out the ids of active clauses of two literals or more.
pub(crate) fn keep_short(watches: &Watches, ids: &mut Vec<u64>)
    ensures short { ids.new.items ≡ filter (λ id. nat_lt (length (lits_at watches.now.clauses id)) 2) ids.old.items }
    ensures sound { IsWatched watches.now }
{
    recall_invariant(watches);
    ids.retain(|id| is_short(watches, *id));
}
