// The board between two calls: clauses, stack, inputs and the next id.
ghost use Rattle.std.specs.Prelude.{◌≡◌, ℕ, ◌+◌, ◌<◌, ◌≤◌, ◌^◌, ◌++◌, List, true, false, max, Contains, IfOk, IfErr, OnOk, OnErr};
ghost use Rattle.lits.specs.Literal.{var};
ghost use Rattle.propagation.specs.Engine.{HasRoomFor};
ghost use Rattle.session_rules.specs.Logic.{satisfies_formula};
ghost use Rattle.restore.specs.Stack.{stacked, has_entry};
ghost use Rattle.restore.specs.Values.{value, reserved};
ghost use Rattle.session_rules.specs.declared.Told.{Told};
ghost use Rattle.elimination.specs.Steps.{TakesEach, standing};
ghost use Rattle.elimination.specs.Databases.{BreaksOff};
ghost use Rattle.elimination.specs.Calls.{IsTouched, IsAdmitted};
ghost use Rattle.elimination.specs.Boards.{IsBoard, no_board, with_reserved, irredundant_clauses, eligible_on};

use crate::asked::would_be_eligible;
use crate::database::Database;
use crate::fault::BoardFault;
use crate::id_set::IdSet;
use crate::listing::add_input;
use crate::touching::bring_back;
use lits::{Lit, MAX_VAR};
use occurrence_lists::Occurrences;
use propagation::Engine;
use restore::{Stack, Values};
use session_events::ClauseList;
use session_rules::{Id, Log};
use std::alloc::{AllocError, Global};
use std::marker::Model;

/// The state of a solver between queries. Contracts see the engine, the ids of the irredundant clauses, the stack of eliminated
/// variables, the inputs as they were given, and the next id.
#[derive(Drop)]
pub struct Board {
    pub(crate) clauses: Database,
    pub(crate) stack: Stack,
    pub(crate) inputs: ClauseList,
    pub(crate) alloc: Global,
}

impl Model for Board {
    ghost use Rattle.elimination.specs.Boards.{BoardView, board_code};
    ghost use Rattle.elimination.specs.Inside.{IsBoardInside};
    ghost use Rattle.elimination.specs.Databases.{board_of};

    ghost Value = { BoardView };

    ghost coded = { board_code };

    ghost view = { λ b. board_of b.clauses b.stack b.inputs };

    ghost invariant = { λ b. IsBoardInside (board_of b.clauses b.stack b.inputs) b.clauses.occurrences };
}

impl Board {
    /// No clause, no reserved variable, and the first id is 1. It takes no memory.
    pub fn new(alloc: Global) -> Board
        ensures { result ≡ no_board }
    {
        Board {
            clauses: Database {
                engine: Engine::new(alloc),
                irredundant: IdSet::new(alloc),
                occurrences: Occurrences::new(alloc),
                next_id: 1,
            },
            stack: Stack::new(alloc),
            inputs: ClauseList::new(alloc),
            alloc,
        }
    }

    /// Reserves the variables up to this one.
    ///
    /// `AllocError` means out of memory, and then nothing is changed.
    pub fn reserve(&mut self, vars: u32) -> Result<(), AllocError>
        requires { vars ≤ MAX_VAR }
        ensures ok { OnOk result (self.new ≡ with_reserved self.old (max self.old.engine.vars vars)) }
        ensures err { OnErr result (self.new ≡ self.old) }
    {
        self.clauses.occurrences.reserve(vars)?;
        self.clauses.engine.reserve(vars)
    }

    /// The id that the next clause takes.
    pub fn next_id(&self) -> Id
        ensures value { result ≡ self.now.next_id }
        ensures sound { IsBoard self.now }
    {
        self.clauses.next_id
    }

    /// Takes the entries that literals mention out of the stack, with each entry whose variable their clauses hold, and so on,
    /// and restores their clauses: each is told the moment it is restored, and is irredundant again. Then no variable of the
    /// literals has an entry. Where none has one before, nothing is told, and no memory is taken.
    ///
    /// `Log` means that the log refused a step, and `Memory` want of memory; the board is given up then, and left as a new one.
    pub fn touch<L: Log>(&mut self, lits: &[Lit], log: &mut L) -> Result<(), BoardFault>
        requires room { self.old.next_id + L.room log.old ≤ 2 ^ 63 }
        ensures touched { OnOk result ((ts : List Told) × TakesEach L.takes log.old ts log.new × IsTouched self.old lits.now ts self.new) }
        ensures room { OnOk result (self.new.next_id + L.room log.new ≤ 2 ^ 63) }
        ensures broken { IfErr result (λ e. BreaksOff L.takes L.refuses (standing self.old.engine.clauses) log.old e log.new) }
        ensures given_up { OnErr result (self.new ≡ no_board) }
    {
        let alloc = self.alloc;
        if let Err(fault) = bring_back(&mut self.clauses, &mut self.stack, alloc, lits, log) {
            *self = Board::new(alloc);
            return Err(fault);
        }
        let _ = self.clauses.engine.level();
        Ok(())
    }

    /// Adds an input as a clause with the next id, and answers this id. The clause is irredundant, unless it is a tautology. Its
    /// variables are reserved, and none of them has an entry in the stack.
    ///
    /// `AllocError` means out of memory; the board is given up then, and left as a new one.
    pub fn admit(&mut self, lits: &[Lit]) -> Result<Id, AllocError>
        requires reserved { HasRoomFor self.old.engine lits.now }
        requires present { (l : ℕ) → Contains lits.now l → has_entry self.old.stack (var l) ≡ false }
        requires limit { self.old.next_id < 2 ^ 63 }
        ensures id { IfOk result (λ id. id ≡ self.old.next_id) }
        ensures admitted { OnOk result (IsAdmitted self.old lits.now self.new) }
        ensures given_up { OnErr result (self.new ≡ no_board) }
    {
        let id = self.clauses.next_id;
        let alloc = self.alloc;
        let added = add_input(
            &mut self.clauses.engine,
            &mut self.clauses.irredundant,
            &mut self.clauses.occurrences,
            &mut self.inputs,
            alloc,
            id,
            lits,
        );
        if added.is_err() {
            *self = Board::new(alloc);
            return Err(AllocError);
        }
        let _ = self.clauses.engine.level();
        self.clauses.next_id = id + 1;
        Ok(id)
    }

    /// Extends values that satisfy the irredundant clauses over the stack: they satisfy the irredundant clauses, those of each
    /// entry and each input then. Each variable without an entry keeps its value. Each variable that is reserved in the board is
    /// reserved in the values. It takes no memory.
    pub fn model(&self, values: &mut Values)
        requires room { self.now.engine.vars ≤ reserved values.old }
        requires satisfied { satisfies_formula (value values.old) (irredundant_clauses self.now) ≡ true }
        ensures satisfied { satisfies_formula (value values.new) (stacked self.now.stack ++ irredundant_clauses self.now) ≡ true }
        ensures inputs { satisfies_formula (value values.new) self.now.inputs ≡ true }
        ensures outside { (x : ℕ) → has_entry self.now.stack x ≡ false → value values.new x ≡ value values.old x }
        ensures reserved { reserved values.new ≡ reserved values.old }
    {
        self.stack.extend(values);
    }

    /// Whether a variable is eligible for elimination: it is neither frozen nor assigned, some irredundant clause has it, at
    /// most ten hold it and at most ten its negation, and it has few enough resolvents. It takes no memory.
    pub fn eligible(&self, var: u32, frozen: &[Lit]) -> bool
        ensures { result ≡ eligible_on self.now frozen.now var }
    {
        if var == 0 {
            return false;
        }
        if var > self.clauses.engine.vars() {
            return false;
        }
        would_be_eligible(&self.clauses.engine, &self.clauses.occurrences, var, frozen)
    }
}
