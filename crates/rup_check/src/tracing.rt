// What tests with hints work with, from one to the next.

ghost use Rattle.std.specs.Prelude.{◌≡◌, ◌≤◌, ◌∷◌, [], IsTrue, max, OnOk, OnErr, IfOk};
ghost use Rattle.lits.specs.Literal.{neg};
ghost use Rattle.session_rules.specs.Logic.{has};
ghost use Rattle.propagation.specs.Engine.{IsFalseAt, literals};
ghost use Rattle.rup_check.specs.Assuming.{AreTraced};

use clause_store::Slot;
use conflict_analysis::{Marks, core_of_assumption, core_of_conflict};
use lits::Lit;
use propagation::Engine;
use session_rules::Ids;
use std::alloc::{AllocError, Global};
use std::marker::Model;
use std::mem;

/// Marks of variables and lists, in which a test finds its hints. One serves all tests, and then none of them takes memory where an
/// earlier one had as much. Contracts see for how many variables there are marks; all are clear between two tests.
#[derive(Drop)]
pub struct Tracer {
    marks: Marks,
    core: Vec<Lit>,
    found: Vec<u64>,
}

impl Model for Tracer {
    ghost use Rattle.std.specs.Prelude.{ℕ, length};
    ghost use Rattle.conflict_analysis.specs.Marked.{IsClear};

    ghost Value = { ℕ };

    ghost view = { λ t. length t.marks };

    ghost invariant = { λ t. IsClear t.marks };
}

impl Tracer {
    /// One without room.
    pub fn new(alloc: Global) -> Tracer
        ensures { result ≡ 0 }
    {
        Tracer {
            marks: Marks::new(alloc),
            core: Vec::new(alloc),
            found: Vec::new(alloc),
        }
    }

    /// Makes marks for so many variables. An error comes only where memory runs out.
    pub(crate) fn reserve(&mut self, vars: u32) -> Result<(), AllocError>
        ensures { OnOk result (vars ≤ self.new) }
    {
        self.marks.reserve(vars)
    }

    /// Hints by which a false clause closes from what was assumed.
    pub(crate) fn conflict(
        &mut self,
        engine: &Engine,
        slot: Slot,
        hints: &mut Ids,
    ) -> Result<(), AllocError>
        requires conflict { IsFalseAt engine.now slot }
        requires room { engine.now.vars ≤ self.old }
        ensures ok { OnOk result (AreTraced engine.now [] hints.new) }
        ensures err { OnErr result (hints.new ≡ hints.old) }
    {
        core_of_conflict(
            engine,
            &mut self.marks,
            slot,
            &mut self.core,
            &mut self.found,
        )?;
        give(&mut self.found, hints);
        Ok(())
    }

    /// Hints by which a false literal closes with what was assumed.
    pub(crate) fn assumption(
        &mut self,
        engine: &Engine,
        l: Lit,
        hints: &mut Ids,
    ) -> Result<(), AllocError>
        requires fails { IsTrue (has (literals engine.now.trail) (neg l)) }
        requires room { engine.now.vars ≤ self.old }
        ensures ok { OnOk result (AreTraced engine.now (l ∷ []) hints.new) }
        ensures err { OnErr result (hints.new ≡ hints.old) }
    {
        core_of_assumption(engine, &mut self.marks, l, &mut self.core, &mut self.found)?;
        give(&mut self.found, hints);
        Ok(())
    }
}

/// Hands the ids that were found out, and keeps the memory of the list that was there.
fn give(found: &mut Vec<u64>, hints: &mut Ids)
    ensures { hints.new ≡ found.old.items }
{
    let empty = Vec::new(*found.allocator());
    let ids = mem::replace(found, empty);
    let before = mem::replace(hints, Ids::from_vec(ids));
    *found = before.into_vec();
}
