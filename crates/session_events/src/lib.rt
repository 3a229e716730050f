//! The running state of a session's events, and the rules that events keep in both forms of proofs.
//!
//! `Events` takes the events of a proof one after another. Before each it says the first rule that the event breaks: it
//! doesn't fit the phase, a model clashes with itself or misses an assumption or an input, a core has a stranger. Models
//! and cores are ticked in a table by the literals' codes, so that each list is gone through once; the inputs lie one
//! behind another in one list of literals.
#![tactic(auto)]

ghost use Rattle.std.specs.Prelude.{◌≡◌, ◌≤◌, ◌∷◌, ◌++◌, ℕ, [], List, slice_get, IsOk, OnOk, OnErr, IfNone};
ghost use Rattle.lits.specs.Literal.{max_var};
ghost use Rattle.session_rules.specs.History.{phase_told};
ghost use Rattle.session_events.specs.State.{StandsFor, AreReserved, start, with_reserved, behind, kind_of, fits, order_rules, model_rules, core_rules};

mod clause_list;
mod laws;
mod rules;
mod ticks;

pub use clause_list::ClauseList;
pub use laws::{rules_are_faults, states_stand_for_events};
use lits::Lit;
use session_rules::{Event, Phase, Rule, StatusWord};
use std::alloc::{AllocError, Global};
use std::marker::Model;

/// The kinds of events. A part of a model or of a core has no place in a proof, and fits no phase.
#[derive(Clone, Copy, Debug, PartialEq, Eq)]
pub enum Kind {
    Input,
    Query,
    Status,
    Model,
    Core,
    Part,
}

impl Kind {
    /// The kind of an event.
    pub fn of(event: &Event) -> Kind
        ensures { result ≡ kind_of event.now }
    {
        match event {
            Event::Input(_) => Kind::Input,
            Event::Query(_) => Kind::Query,
            Event::Status(_) => Kind::Status,
            Event::Model(_) => Kind::Model,
            Event::Core(_) => Kind::Core,
            Event::Values(_) | Event::Failed(_) => Kind::Part,
        }
    }

    /// Whether an event of this kind fits a phase: an input and a query where no query is open, a status where one was
    /// asked, a model and a core where their status was told.
    fn fits(self, phase: Phase) -> bool
        ensures { result ≡ fits self phase }
    {
        match self {
            Kind::Input | Kind::Query => matches!(phase, Phase::Idle),
            Kind::Status => matches!(phase, Phase::Asked),
            Kind::Model => matches!(phase, Phase::Told(StatusWord::Satisfiable)),
            Kind::Core => matches!(phase, Phase::Told(StatusWord::Unsatisfiable)),
            Kind::Part => false,
        }
    }
}

/// What the events so far say.
///
/// Contracts see the phase, the literals of the last query (none before the first), all inputs in their order, and the
/// greatest reserved variable. It stands for a list of events where the first three are those of the list.
#[derive(Drop)]
pub struct Events {
    phase: Phase,
    assumed: Vec<Lit>,
    inputs: ClauseList,
    ticks: Vec<bool>,
    reserved: u32,
}

impl Model for Events {
    ghost use Rattle.session_events.specs.State.{State};
    ghost use Rattle.session_events.specs.Room.{HasRoom};

    ghost Value = { State };

    ghost view = { λ e. record { phase = e.phase; assumed = e.assumed.items; inputs = e.inputs; reserved = e.reserved } };

    ghost invariant = { λ e. HasRoom e.ticks.items e.assumed.items e.inputs e.reserved };
}

impl Events {
    /// The state before the first event, with no reserved variable. It takes no memory.
    pub fn new(alloc: Global) -> Events
        ensures state { result ≡ start }
        ensures stands { StandsFor result [] }
    {
        Events {
            phase: Phase::Idle,
            assumed: Vec::new(alloc),
            inputs: ClauseList::new(alloc),
            ticks: Vec::new(alloc),
            reserved: 0,
        }
    }

    /// Reserves the variables up to this one. It takes no memory where they are reserved already; an error, which means that
    /// memory was wanting, leaves all as it was.
    pub fn reserve(&mut self, vars: u32) -> Result<(), AllocError>
        requires { vars ≤ max_var }
        ensures ok { OnOk result (self.new ≡ with_reserved self.old vars) }
        ensures err { OnErr result (self.new ≡ self.old) }
        ensures enough { vars ≤ self.old.reserved → IsOk result }
        ensures stands { (es : List Event) → StandsFor self.old es → StandsFor self.new es }
    {
        if vars <= self.reserved {
            return Ok(());
        }
        self.ticks.resize(2 * vars as usize, false)?;
        self.reserved = vars;
        Ok(())
    }

    /// Where the last query stands.
    pub fn phase(&self) -> Phase
        ensures { result ≡ self.now.phase }
    {
        self.phase
    }

    /// The literals of the last query, in its order and with its repeats; none before the first query.
    pub fn assumed(&self) -> &[Lit]
        ensures { result.now ≡ self.now.assumed }
    {
        &self.assumed
    }

    /// The greatest reserved variable, 0 where none is. No literal of the last query is beyond it.
    pub fn reserved(&self) -> u32
        ensures value { result ≡ self.now.reserved }
        ensures assumed { AreReserved self.now self.now.assumed }
        ensures limit { result ≤ max_var }
    {
        self.reserved
    }

    /// The rule Order where an event of this kind doesn't fit the phase, else `None`.
    pub fn order_rule(&self, kind: Kind) -> Option<Rule>
        ensures { result ≡ slice_get (order_rules self.now kind) 0 }
    {
        if kind.fits(self.phase) {
            None
        } else {
            Some(Rule::Order)
        }
    }

    /// The first rule that a model breaks: ModelClash with its first literal whose negation stands before it,
    /// ModelAssumption with the first literal of the last query that it lacks, or ModelInput with the number of the first
    /// input, from 1 on, of which it has no literal. `None` where it breaks none. It takes no memory.
    pub fn model_rule(&mut self, m: &[Lit]) -> Option<Rule>
        requires { AreReserved self.old m.now }
        ensures rule { result ≡ slice_get (model_rules self.old m.now) 0 }
        ensures unchanged { self.new ≡ self.old }
    {
        let assumed = self.assumed.as_slice();
        let inputs = &self.inputs;
        rules::of_model(self.ticks.as_mut_slice(), assumed, inputs, m)
    }

    /// CoreStranger with the first literal of a core that isn't one of the last query, or `None` where there is none, and
    /// then the core's variables are reserved. It takes no memory.
    pub fn core_rule(&mut self, u: &[Lit]) -> Option<Rule>
        ensures reserved { IfNone result (AreReserved self.new u.now) }
        ensures rule { result ≡ slice_get (core_rules self.old u.now) 0 }
        ensures unchanged { self.new ≡ self.old }
    {
        let assumed = self.assumed.as_slice();
        rules::of_core(self.ticks.as_mut_slice(), assumed, u)
    }

    /// Takes an input. An error, which means want of memory, leaves all as it was.
    pub fn take_input(&mut self, lits: &[Lit]) -> Result<(), AllocError>
        requires { AreReserved self.old lits.now }
        ensures ok { OnOk result (self.new ≡ behind self.old (Event.Input lits.now)) }
        ensures err { OnErr result (self.new ≡ self.old) }
        ensures stands { OnOk result ((es : List Event) → StandsFor self.old es → StandsFor self.new (es ++ Event.Input lits.now ∷ [])) }
    {
        self.inputs.push(lits)?;
        self.phase = Phase::Idle;
        Ok(())
    }

    /// Takes a query: its literals are the assumptions now. An error, which means want of memory, leaves all as it was.
    pub fn take_query(&mut self, lits: &[Lit]) -> Result<(), AllocError>
        requires { AreReserved self.old lits.now }
        ensures ok { OnOk result (self.new ≡ behind self.old (Event.Query lits.now)) }
        ensures err { OnErr result (self.new ≡ self.old) }
        ensures stands { OnOk result ((es : List Event) → StandsFor self.old es → StandsFor self.new (es ++ Event.Query lits.now ∷ [])) }
    {
        refill(&mut self.assumed, lits)?;
        self.phase = Phase::Asked;
        Ok(())
    }

    /// Takes a status. It takes no memory.
    pub fn take_status(&mut self, word: StatusWord)
        ensures state { self.new ≡ behind self.old (Event.Status word) }
        ensures stands { (es : List Event) → StandsFor self.old es → StandsFor self.new (es ++ Event.Status word ∷ []) }
    {
        self.phase = phase_told(word);
    }

    /// Takes a model, whichever it is. It takes no memory.
    pub fn take_model(&mut self)
        ensures state { (m : List ℕ) → self.new ≡ behind self.old (Event.Model m) }
        ensures stands { (es : List Event) (m : List ℕ) → StandsFor self.old es → StandsFor self.new (es ++ Event.Model m ∷ []) }
    {
        self.phase = Phase::Idle;
    }

    /// Takes a core, whichever it is. It takes no memory.
    pub fn take_core(&mut self)
        ensures state { (u : List ℕ) → self.new ≡ behind self.old (Event.Core u) }
        ensures stands { (es : List Event) (u : List ℕ) → StandsFor self.old es → StandsFor self.new (es ++ Event.Core u ∷ []) }
    {
        self.phase = Phase::Idle;
    }
}

/// Where a query stands behind its status.
fn phase_told(word: StatusWord) -> Phase
    ensures { result ≡ phase_told word }
{
    match word {
        StatusWord::Unknown => Phase::Idle,
        told => Phase::Told(told),
    }
}

/// Puts literals in the place of a vector's. An error leaves it as it was.
fn refill(items: &mut Vec<Lit>, lits: &[Lit]) -> Result<(), AllocError>
    ensures ok { OnOk result (items.new.items ≡ lits.now) }
    ensures err { OnErr result (items.new.items ≡ items.old.items) }
{
    items.reserve(lits.len().saturating_sub(items.len()))?;
    items.clear();
    items.extend_from_slice(lits)
}
