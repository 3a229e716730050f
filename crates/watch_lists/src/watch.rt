//! An entry of a literal's list: the slot of a clause that watches the literal, and a blocker, some literal of the clause. Where
//! the blocker is true nothing follows of the clause, which is told without a look at it (N. Sörensson and N. Eén, 2008). At
//! which of its first two places the clause has the literal is read from the clause, so that a slot may have all 32 bits.
ghost use Rattle.std.specs.Prelude.{◌≡◌};
ghost use Rattle.watch_lists.specs.Watch.{with_blocker};

use clause_store::Slot;
use lits::Lit;
use std::marker::Model;

/// An entry of a list, in 8 bytes. Contracts see its slot and its blocker.
#[derive(Clone, Copy)]
pub struct Watch {
    slot: Slot,
    blocker: Lit,
}

impl Model for Watch {
    ghost use Rattle.watch_lists.specs.Watch.{WatchView, watch_code};

    ghost Value = { WatchView };

    ghost coded = { watch_code };

    ghost view = { λ w. record { slot = w.slot; blocker = w.blocker } };

    ghost inverse = { λ v. record { slot = v.slot; blocker = v.blocker } };
}

impl Watch {
    /// An entry.
    #[inline(always)]
    pub(crate) fn new(slot: Slot, blocker: Lit) -> Watch
        ensures { result ≡ record { slot = slot; blocker = blocker } }
    {
        Watch { slot, blocker }
    }

    /// The slot of the clause.
    #[inline(always)]
    pub fn slot(self) -> Slot
        ensures { result ≡ self.slot }
    {
        self.slot
    }

    /// Some literal of the clause.
    #[inline(always)]
    pub fn blocker(self) -> Lit
        ensures { result ≡ self.blocker }
    {
        self.blocker
    }

    /// The entry with another blocker.
    #[inline(always)]
    pub(crate) fn with_blocker(self, blocker: Lit) -> Watch
        ensures { result ≡ with_blocker self blocker }
    {
        Watch {
            slot: self.slot,
            blocker,
        }
    }
}
