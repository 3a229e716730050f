//! The rules of sessions and their proofs: the lines, what each must meet, and the verdict on a pair.
#![tactic(auto)]

ghost use Rattle.std.specs.Prelude.{◌≡◌, ◌++◌, ◌∷◌, [], length, IsTrue, ◌↔◌, OnOk, OnErr};
ghost use Rattle.session_rules.specs.History.{event_literals};
ghost use Rattle.session_rules.specs.Numbers.{rule_number};

mod laws;
mod log;
mod reading_laws;
mod verdict_laws;

pub use laws::{closing_is_sound, hints_are_sound, rounds_find_closing, texts_are_read_back};
use lits::{Lit, Lits};
pub use log::Log;
pub use reading_laws::{
    a_line_spells_one_value, broken_lines_break_a_rule, missing_words_are_due,
    unbroken_lines_are_spelled, what_is_read_is_spelled, wrong_words_are_the_first,
};
use std::alloc::{AllocError, Global};
use std::marker::Model;
pub use verdict_laws::{
    earlier_faults_come_first, most_bytes_bound_the_verdict, own_verdict_is_least_own_fault,
    verdict_is_least_fault,
};

/// The number of a clause, from 1 to 2^63 - 1 in a file.
pub type Id = u64;

/// A list of ids, in order and with repeats.
#[derive(Debug, Drop)]
pub struct Ids {
    items: Vec<Id>,
}

impl Model for Ids {
    ghost use Rattle.std.specs.Prelude.{ℕ, List};

    ghost Value = { List ℕ };

    ghost view = { λ a. a.items.items };
}

impl Ids {
    /// The empty list.
    pub fn new(alloc: Global) -> Ids
        ensures { result ≡ [] }
    {
        Ids {
            items: Vec::new(alloc),
        }
    }

    /// The list of a vector's ids.
    pub fn from_vec(items: Vec<Id>) -> Ids
        ensures { result ≡ items.items }
    {
        Ids { items }
    }

    /// The vector of the ids.
    pub fn into_vec(self) -> Vec<Id>
        ensures { result.items ≡ self }
    {
        self.items
    }

    /// Adds an id at the end. An error, which means want of memory, leaves the list as it was.
    pub fn push(&mut self, x: Id) -> Result<(), AllocError>
        ensures ok { OnOk result (self.new ≡ self.old ++ x ∷ []) }
        ensures err { OnErr result (self.new ≡ self.old) }
    {
        self.items.push(x)?;
        Ok(())
    }

    /// The ids.
    pub fn as_slice(&self) -> &[Id]
        ensures { result.now ≡ self.now }
    {
        &self.items
    }

    /// How many there are.
    pub fn len(&self) -> usize
        ensures { result ≡ length self.now }
    {
        self.items.len()
    }

    /// Whether there is none.
    pub fn is_empty(&self) -> bool
        ensures { IsTrue result ↔ (length self.now ≡ 0) }
    {
        self.items.is_empty()
    }
}

/// The two forms of a proof: by literals, and by ids with hints.
#[derive(Clone, Copy, Debug, PartialEq, Eq)]
pub enum Form {
    Idrup,
    Lidrup,
}

/// The file that a refusal names.
#[derive(Clone, Copy, Debug, PartialEq, Eq)]
pub enum Side {
    Interaction,
    Proof,
}

/// The answer to a query.
#[derive(Clone, Copy, Debug, PartialEq, Eq)]
pub enum StatusWord {
    Satisfiable,
    Unsatisfiable,
    Unknown,
}

/// The first word of a line, where it is one of the letters of all forms.
#[derive(Clone, Copy, Debug, PartialEq, Eq)]
pub enum Letter {
    Input,
    Query,
    Status,
    Model,
    Core,
    Lemma,
    Deletion,
    Weakening,
    Restoring,
    Values,
    Failed,
    NoLetter,
}

/// Where the last query stands: it is over, was asked, or its answer was told.
#[derive(Clone, Copy, Debug, PartialEq, Eq)]
pub enum Phase {
    Idle,
    Asked,
    Told(StatusWord),
}

/// What is left of a clause whose false literals are taken away: nothing, one literal, or more.
#[derive(Clone, Copy, Debug, PartialEq, Eq)]
pub enum Left {
    Falsified,
    UnitLiteral(Lit),
    Open,
}

/// What became of an id: its clause is active, is weakened, or the id names none.
#[derive(Clone, Copy, Debug, PartialEq, Eq)]
pub enum Standing {
    Active,
    Weakened,
    Absent,
}

/// A line of the interaction. `Values` and `Failed` are parts of a model and of a core that were asked for; they are lines of
/// the interaction alone, and the events of a proof are the other five.
#[derive(Debug, Drop)]
pub enum Event {
    Input(Lits),
    Query(Lits),
    Status(StatusWord),
    Model(Lits),
    Core(Lits),
    Values(Lits),
    Failed(Lits),
}

/// A line of a proof without ids.
#[derive(Debug, Drop)]
pub enum Step {
    Event(Event),
    Lemma(Lits),
    Delete(Lits),
    Weaken(Lits),
    Restore(Lits),
}

/// A line of a proof with ids and hints.
#[derive(Debug, Drop)]
pub enum LStep {
    Input { id: Id, lits: Lits },
    Lemma { id: Id, lits: Lits, hints: Ids },
    Delete(Ids),
    Weaken(Ids),
    Restore(Ids),
    Query(Lits),
    Status(StatusWord),
    Model(Lits),
    Core { lits: Lits, hints: Ids },
}

/// What a line breaks, with the detail that is printed behind the rule's name. Positions and numbers count from 1.
#[derive(Clone, Copy, Debug, PartialEq, Eq)]
pub enum Rule {
    Header,
    Letter,
    Number,
    Range,
    Unclosed,
    Excess,
    Word,
    Length,
    Order,
    IdTaken,
    NotActive(u64),
    NotWeakened(u64),
    Lemma,
    Hint(u64),
    ModelClash(Lit),
    ModelAssumption(Lit),
    ModelInput(u64),
    CoreStranger(Lit),
    CoreOpen,
    Ended,
    Kind,
    Content,
    Status,
    ModelPart(Lit),
    CorePart(Lit),
    CoreClaim(Lit),
    Unfinished,
    Surplus,
    FailedPart(Lit),
}

/// What is said of a pair.
#[derive(Clone, Copy, Debug, PartialEq, Eq)]
pub enum Verdict {
    Accepted { queries: u64 },
    Refused { side: Side, line: u64, rule: Rule },
}

/// Why a line was not read: it breaks a rule, a read failed, or memory is wanting.
#[derive(Clone, Copy, Debug, PartialEq, Eq)]
pub enum LineFault {
    Syntax(Rule),
    Read,
    Memory,
}

/// Why a line was not written: a write failed, or the line is longer than the room.
#[derive(Clone, Copy, Debug, PartialEq, Eq)]
pub enum WriteFault {
    Write,
    Exhausted,
}

/// Why a log refused a step: a write failed, or the step's line is longer than the room.
#[derive(Clone, Copy, Debug, PartialEq, Eq)]
pub enum LogFault {
    Write,
    Exhausted,
}

/// A step that a solver tells.
#[derive(Debug, Drop)]
pub enum Told {
    Lemma { id: Id, lits: Lits, hints: Ids },
    Delete { id: Id, lits: Lits },
    Weaken { id: Id, lits: Lits },
    Restore { id: Id, lits: Lits },
}

impl Event {
    /// The literals; none for a status.
    pub fn lits(&self) -> &[Lit]
        ensures { result.now ≡ event_literals self.now }
    {
        match self {
            Event::Input(ls)
            | Event::Query(ls)
            | Event::Model(ls)
            | Event::Core(ls)
            | Event::Values(ls)
            | Event::Failed(ls) => ls.as_slice(),
            Event::Status(_) => &[],
        }
    }
}

impl Rule {
    /// The rule's number.
    pub fn number(&self) -> u8
        ensures { result ≡ rule_number self.now }
    {
        match self {
            Rule::Header => 1,
            Rule::Letter => 2,
            Rule::Number => 3,
            Rule::Range => 4,
            Rule::Unclosed => 5,
            Rule::Excess => 6,
            Rule::Word => 7,
            Rule::Length => 8,
            Rule::Order => 9,
            Rule::IdTaken => 10,
            Rule::NotActive(_) => 11,
            Rule::NotWeakened(_) => 12,
            Rule::Lemma => 13,
            Rule::Hint(_) => 14,
            Rule::ModelClash(_) => 15,
            Rule::ModelAssumption(_) => 16,
            Rule::ModelInput(_) => 17,
            Rule::CoreStranger(_) => 18,
            Rule::CoreOpen => 19,
            Rule::Ended => 20,
            Rule::Kind => 21,
            Rule::Content => 22,
            Rule::Status => 23,
            Rule::ModelPart(_) => 24,
            Rule::CorePart(_) => 25,
            Rule::CoreClaim(_) => 26,
            Rule::Unfinished => 27,
            Rule::Surplus => 28,
            Rule::FailedPart(_) => 29,
        }
    }
}
