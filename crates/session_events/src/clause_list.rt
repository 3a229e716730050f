// Clauses one behind another in one list of literals, with a list of the places where each ends.

ghost use Rattle.std.specs.Prelude.{◌≡◌, ◌++◌, ◌∷◌, [], length, not, All, OnOk, OnErr};
ghost use Rattle.std.specs.List.{list_any, position_from};
ghost use Rattle.session_events.specs.Ticks.{is_ticked, HasPlace};
ghost use Rattle.session_events.specs.Pieces.{pieces, ReachesFrom};

use crate::ticks::any_ticked;
use lits::Lit;
use std::alloc::{AllocError, Global};
use std::marker::Model;

/// A list of clauses.
#[derive(Drop)]
pub struct ClauseList {
    literals: Vec<Lit>,
    ends: Vec<usize>,
}

impl Model for ClauseList {
    ghost use Rattle.std.specs.Prelude.{ℕ, List, length};
    ghost use Rattle.session_events.specs.Pieces.{pieces, ReachesFrom};

    ghost Value = { List (List ℕ) };

    ghost view = { λ c. pieces c.literals.items 0 c.ends.items };

    ghost invariant = { λ c. ReachesFrom 0 c.ends.items (length c.literals.items) };
}

impl ClauseList {
    /// The empty list.
    pub fn new(alloc: Global) -> ClauseList
        ensures { result ≡ [] }
    {
        ClauseList {
            literals: Vec::new(alloc),
            ends: Vec::new(alloc),
        }
    }

    /// Adds a clause at the end. An error leaves the list as it was.
    pub fn push(&mut self, clause: &[Lit]) -> Result<(), AllocError>
        ensures ok { OnOk result (self.new ≡ self.old ++ clause.now ∷ []) }
        ensures err { OnErr result (self.new ≡ self.old) }
    {
        let before = self.literals.len();
        self.literals.extend_from_slice(clause)?;
        match self.ends.push(self.literals.len()) {
            Ok(()) => Ok(()),
            Err(_) => {
                self.literals.truncate(before);
                Err(AllocError)
            }
        }
    }

    /// The number, from 1 on, of the first clause of which no literal is ticked.
    pub(crate) fn first_unmet(&self, ticks: &[bool]) -> Option<u64>
        requires { All (λ c. All (HasPlace (length ticks.now)) c) self.now }
        ensures { result ≡ position_from (λ c. not (list_any (is_ticked ticks.now) c)) 1 self.now }
    {
        first_unmet(ticks, &self.literals, &self.ends)
    }
}

/// The number, from 1 on, of the first of the clauses that lie one behind another, of which no literal is ticked.
fn first_unmet(ticks: &[bool], literals: &[Lit], ends: &[usize]) -> Option<u64>
    requires reach { ReachesFrom 0 ends.now (length literals.now) }
    requires place { All (λ c. All (HasPlace (length ticks.now)) c) (pieces literals.now 0 ends.now) }
    ensures { result ≡ position_from (λ c. not (list_any (is_ticked ticks.now) c)) 1 (pieces literals.now 0 ends.now) }
{
    let mut start = 0;
    for i in 0..ends.len() {
        let end = ends[i];
        if !any_ticked(ticks, &literals[start..end]) {
            return Some(i as u64 + 1);
        }
        start = end;
    }
    None
}
