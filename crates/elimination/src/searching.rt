// A board on which nothing is left to eliminate, and a board while it is searched.
ghost use Rattle.std.specs.Prelude.{◌≡◌, ℕ, ◌+◌, ◌≤◌, ◌^◌, ◌∷◌, [], Contains, None, OnOk, OnErr, IfOk, IfErr, IfSome, IfNone};
ghost use Rattle.lits.specs.Literal.{var};
ghost use Rattle.session_rules.specs.declared.Told.{Told};
ghost use Rattle.propagation.specs.Engine.{IsFree, IsPropagated, IsFalseAt, Grows, literals, level_after, up_to_level, with_entry, with_trail};
ghost use Rattle.restore.specs.Stack.{has_entry};
ghost use Rattle.elimination.specs.Boards.{IsSearched};
ghost use Rattle.elimination.specs.Steps.{standing};
ghost use Rattle.elimination.specs.Databases.{BreaksOff};
ghost use Rattle.elimination.specs.Searching.{with_engine, IsReady, IsLearnable, IsLearned};

use crate::board::Board;
use crate::database::Database;
use crate::fault::BoardFault;
use crate::id_set::IdSet;
use clause_store::Slot;
use lits::Lit;
use occurrence_lists::Occurrences;
use propagation::Engine;
use restore::Stack;
use session_events::ClauseList;
use session_rules::{Id, Log};
use std::alloc::Global;
use std::marker::Model;

/// A board after `simplify`: propagation has ended, and no clause is false. Contracts see the board.
#[derive(Drop)]
pub struct Simplified {
    board: Board,
}

impl Model for Simplified {
    ghost use Rattle.elimination.specs.Boards.{BoardView, board_code};
    ghost use Rattle.elimination.specs.Searching.{IsReady};

    ghost Value = { BoardView };

    ghost coded = { board_code };

    ghost view = { λ s. s.board };

    ghost invariant = { λ s. IsReady s.board };
}

impl Simplified {
    /// The board.
    pub fn board(&self) -> &Board
        ensures value { result.now ≡ self.now }
        ensures ready { IsReady self.now }
    {
        &self.board
    }

    /// The board.
    pub fn into_board(self) -> Board
        ensures { result ≡ self }
    {
        self.board
    }

    /// The board, to be searched. It stands at level 0.
    pub fn into_search(self) -> Searching
        ensures value { result ≡ self }
        ensures ready { IsReady result }
        ensures level { level_after result.engine.trail ≡ 0 }
    {
        let board = self.board;
        let clauses = board.clauses;
        Searching {
            engine: clauses.engine,
            irredundant: clauses.irredundant,
            occurrences: clauses.occurrences,
            stack: board.stack,
            inputs: board.inputs,
            next_id: clauses.next_id,
            alloc: board.alloc,
        }
    }
}

/// A board while it is searched: its engine stands at any level. Contracts see the board.
#[derive(Drop)]
pub struct Searching {
    engine: Engine,
    irredundant: IdSet,
    // for each literal the irredundant clauses that hold it
    occurrences: Occurrences,
    stack: Stack,
    inputs: ClauseList,
    next_id: Id,
    alloc: Global,
}

impl Model for Searching {
    ghost use Rattle.elimination.specs.Boards.{BoardView, board_code};
    ghost use Rattle.elimination.specs.Searching.{IsSearchedInside};

    ghost Value = { BoardView };

    ghost coded = { board_code };

    ghost view = { λ b. record { engine = b.engine; irredundant = b.irredundant; stack = b.stack; inputs = b.inputs; next_id = b.next_id } };

    ghost invariant = { λ b. IsSearchedInside (record { engine = b.engine; irredundant = b.irredundant; stack = b.stack; inputs = b.inputs; next_id = b.next_id }) b.occurrences };
}

impl Searching {
    /// The engine, at the level that it has.
    pub fn engine(&self) -> &Engine
        ensures value { result.now ≡ self.now.engine }
        ensures sound { IsSearched self.now }
    {
        &self.engine
    }

    /// The allocator.
    pub fn alloc(&self) -> Global {
        self.alloc
    }

    /// Whether a variable is that of an entry of the stack. Such a variable is in no active clause but in tautologies.
    pub fn stacked(&self, var: u32) -> bool
        ensures value { result ≡ has_entry self.now.stack var }
        ensures sound { IsSearched self.now }
    {
        self.stack.has(var)
    }

    /// Extends the trail as `Engine::propagate` does, with the same answer.
    pub fn propagate(&mut self) -> Option<Slot>
        ensures grows { Grows self.old.engine self.new.engine }
        ensures rest { self.new ≡ with_engine self.old self.new.engine }
        ensures found { IfSome result (λ s. IsFalseAt self.new.engine s) }
        ensures none { IfNone result (IsPropagated self.new.engine) }
        ensures sound { IsSearched self.new }
    {
        self.engine.propagate()
    }

    /// Begins a level with this literal, which is free.
    pub fn assume(&mut self, l: Lit)
        requires reserved { var l ≤ self.old.engine.vars }
        requires free { IsFree (literals self.old.engine.trail) l }
        ensures { self.new ≡ with_engine self.old (with_entry self.old.engine l None) }
    {
        self.engine.assume(l);
        let _ = self.engine.level();
    }

    /// Takes off the literals of higher levels; the level isn't above the present one.
    pub fn back_to(&mut self, level: u32)
        requires { level ≤ level_after self.old.engine.trail }
        ensures { self.new ≡ with_engine self.old (with_trail self.old.engine (up_to_level level self.old.engine.trail)) }
    {
        self.engine.back_to(level);
        let _ = self.engine.level();
    }

    /// Tells a lemma with its hints, and adds it under the next id, at the present level; its first literal is true then.
    ///
    /// After a fault nothing was learned: the log refused the lemma, or it was told and memory was wanting to add it.
    pub fn learn<L: Log>(
        &mut self,
        lits: &[Lit],
        hints: &[Id],
        log: &mut L,
    ) -> Result<(), BoardFault>
        requires learnable { IsLearnable self.old lits.now hints.now }
        requires room { self.old.next_id + L.room log.old ≤ 2 ^ 63 }
        ensures taken { OnOk result (L.takes log.old (Told.Lemma self.old.next_id lits.now hints.now) log.new) }
        ensures learned { OnOk result (IsLearned self.old lits.now self.new) }
        ensures room { OnOk result (self.new.next_id + L.room log.new ≤ 2 ^ 63) }
        ensures stays { OnErr result (self.new ≡ self.old) }
        ensures broken { IfErr result (λ e. BreaksOff L.takes L.refuses (standing self.old.engine.clauses) log.old e log.new) }
    {
        let id = self.next_id;
        if let Err(fault) = log.lemma(id, lits, hints) {
            return Err(BoardFault::Log(fault));
        }
        if self.engine.add_asserting(id, lits).is_err() {
            return Err(BoardFault::Memory);
        }
        let _ = self.engine.level();
        self.next_id = id + 1;
        Ok(())
    }

    /// The board, at level 0.
    pub fn into_board(mut self) -> Board
        ensures { result ≡ with_engine self (with_trail self.engine (up_to_level 0 self.engine.trail)) }
    {
        self.engine.back_to(0);
        let _ = self.engine.level();
        Board {
            clauses: Database {
                engine: self.engine,
                irredundant: self.irredundant,
                occurrences: self.occurrences,
                next_id: self.next_id,
            },
            stack: self.stack,
            inputs: self.inputs,
            alloc: self.alloc,
        }
    }
}
