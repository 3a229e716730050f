//! The row of a literal: the list of the clauses that watch it, and a number of clauses for which the list has room. The rows
//! of a clause's literals make room when the clause is added, so an entry that moves to another literal of its clause takes
//! no memory.
ghost use Rattle.std.specs.Prelude.{◌≡◌, ◌+◌, ◌-◌, ◌^◌, ◌<◌, ◌++◌, ◌∷◌, [], length, nat_le, slice_set, if◌then◌else◌, None, Some, OnOk, OnErr};
ghost use Rattle.watch_lists.specs.Watched.{entry_at};
ghost use Rattle.watch_lists.specs.Lists.{no_row, with_watches, with_count, IsCut};

use crate::watch::Watch;
use std::alloc::{AllocError, Global};
use std::marker::Model;

// A list keeps so many places, whatever it has room for.
const SPARE: usize = 16;

/// A list and its room. Contracts see the list and the number of clauses for which it has room.
#[derive(Drop)]
pub(crate) struct Row {
    watches: Vec<Watch>,
    count: u32,
}

impl Model for Row {
    ghost use Rattle.watch_lists.specs.Lists.{RowView, row_code};

    ghost Value = { RowView };

    ghost coded = { row_code };

    ghost use Rattle.std.specs.Prelude.{◌≤◌};
    ghost use Rattle.std.specs.Vec.{vec_capacity};

    ghost view = { λ r. record { watches = r.watches.items; count = r.count } };

    ghost invariant = { λ r. r.count ≤ vec_capacity r.watches };
}

impl Row {
    /// An empty list with room for nothing.
    pub(crate) fn new(alloc: Global) -> Row
        ensures { result ≡ no_row }
    {
        Row {
            watches: Vec::new(alloc),
            count: 0,
        }
    }

    /// Recalls that the number is one of 32 bits. It does nothing.
    #[inline(always)]
    fn recall_limit(&self)
        ensures { self.now.count < 2 ^ 32 }
    {
        let _count = self.count;
    }

    /// The list.
    #[inline(always)]
    pub(crate) fn list(&self) -> &[Watch]
        ensures list { result.now ≡ self.now.watches }
        ensures small { self.now.count < 2 ^ 32 }
    {
        self.recall_limit();
        &self.watches
    }

    /// Makes room for one clause more, and for some to come. A list of which most places aren't needed any more gives them
    /// back here, where memory may be taken, since it is moved then. Where memory is wanting all stays.
    pub(crate) fn raise(&mut self) -> Result<(), AllocError>
        ensures ok { OnOk result (self.new ≡ with_count self.old (self.old.count + 1)) }
        ensures err { OnErr result (self.new ≡ self.old) }
    {
        if self.count == u32::MAX {
            return Err(AllocError);
        }
        let want = self.count as usize + 1;
        let places = self.watches.capacity();
        if places < want {
            let more = (want + want / 2 + 2).saturating_sub(self.watches.len());
            self.watches.reserve_exact(more)?;
        } else if places > 2 * want + SPARE {
            self.watches.shrink_to(want + want / 2);
        }
        self.count += 1;
        Ok(())
    }

    /// Gives up the room for one clause. It takes no memory and gives none back.
    pub(crate) fn lower(&mut self)
        ensures { self.new ≡ with_count self.old (self.old.count - 1) }
    {
        self.count = self.count.saturating_sub(1);
    }

    /// Puts an entry at the end of a list that has room for it.
    #[inline(always)]
    pub(crate) fn push(&mut self, watch: Watch)
        requires { length self.old.watches < self.old.count }
        ensures { self.new ≡ with_watches self.old (self.old.watches ++ watch ∷ []) }
    {
        self.watches.push_reserved(watch);
    }

    /// Takes out the entry at a place, to which the last one comes. Some is that one, where it stood at another place.
    #[inline(always)]
    pub(crate) fn cut(&mut self, i: usize) -> Option<Watch>
        requires { i < length self.old.watches }
        ensures list { IsCut self.old.watches self.new.watches i }
        ensures count { self.new.count ≡ self.old.count }
        ensures small { self.old.count < 2 ^ 32 }
        ensures last { result ≡ (if nat_le (length self.old.watches) (i + 1) then None else Some (entry_at self.old.watches (length self.old.watches - 1))) }
    {
        self.recall_limit();
        let last = self.watches.pop()?;
        if i < self.watches.len() {
            self.watches[i] = last;
            Some(last)
        } else {
            None
        }
    }

    /// Puts another entry at a place.
    #[inline(always)]
    pub(crate) fn set(&mut self, i: usize, watch: Watch)
        requires { i < length self.old.watches }
        ensures { self.new ≡ with_watches self.old (slice_set self.old.watches i watch) }
    {
        self.watches[i] = watch;
    }
}
