// What the check of a pair needs of the side of a proof, whichever the proof's form: how a line is read, what a step breaks by
// itself, and which event of the interaction it is.

ghost use Rattle.std.specs.Prelude.{◌≡◌, ℕ, ◌+◌, ◌<◌, ◌≤◌, ◌^◌, Bool, true, List, [], ◌∷◌, ◌++◌, filter_map, IsTrue, IfOk, IfNone, IfSome, IsErrOf, is_some};
ghost use Rattle.outside.specs.Faults.{Rose};
ghost use Rattle.session_rules.specs.declared.Rule.TheVariants as rules;
ghost use Rattle.session_rules.specs.declared.LineFault.{LineFault};
ghost use Rattle.session_rules.specs.History.{phase, broken_unless, event_literals};
ghost use Rattle.session_rules.specs.History as history;
ghost use Rattle.session_rules.specs.Pair.{ProofForm, is_idle, without_ids, with_ids};
ghost use Rattle.icnf_lines.specs.Marks.{AreKnown};
ghost use Rattle.slice_tokens.specs.Place.{ahead, WhereTold};
ghost use Rattle.slice_tokens.specs.Calls.{Moves};
ghost use Rattle.line_reading.specs.Whole.{LineAnswers};
ghost use Rattle.pair_matcher.specs.Sides.{StandsFor, StandsForIds, first_rule};

use crate::idrup::IdrupSide;
use crate::lidrup::LidrupSide;
use line_reading::Spare;
use lits::{Dense, Lit};
use outside::Source;
use session_rules::{Event, LStep, LineFault, Rule, Step};
use slice_tokens::Window;
use std::alloc::{AllocError, Global};

/// The side of a proof of one form.
pub trait ProofSide: Drop {
    type Step: Drop;

    /// The form.
    ghost form: { ProofForm Self.Step };

    /// The side stands for these steps.
    ghost stands: { Self → List Self.Step → Type 0 };

    /// Whether it may take a step.
    ghost live: { Self → Bool };

    /// What must stay small, and grows by one a step.
    ghost next: { Self → ℕ };

    /// The literals of the last query.
    ghost assumed: { Self → List ℕ };

    /// The variables of the proof so far, in the order of their numbers.
    ghost vars: { Self → List ℕ };

    /// The side before the first step.
    fn start(alloc: Global) -> Result<Self, AllocError>
        ensures live { IfOk result (λ s. live s ≡ true) }
        ensures next { IfOk result (λ s. next s ≤ 1) }
        ensures stands { IfOk result (λ s. stands s []) };

    /// The next content line of the proof, its lists in the memory that is spare; none exactly at its end.
    fn read_step<S: Source>(
        spare: &mut Spare,
        window: &mut Window,
        src: &mut S,
    ) -> Result<Option<Self::Step>, LineFault>
        ensures moves { Moves window.old window.new }
        ensures progress { IfOk result (λ v. IsTrue (is_some v) → window.old.passed < window.new.passed) }
        ensures told { WhereTold (ahead window.old (S.left src.old)) (ahead window.new (S.left src.new))
            (λ bytes rest. LineAnswers form.read window.old bytes window.new rest result) }
        ensures count { S.faults src.old ≤ S.faults src.new }
        ensures read { IsErrOf result LineFault.Read → Rose (S.faults src.old) (S.faults src.new) };

    /// The first own rule that the step breaks, or `None`, and then the side stands for the steps with this one at their end.
    fn take_step(&mut self, step: &Self::Step) -> Result<Option<Rule>, AllocError>
        requires live { live self.old ≡ true }
        requires next { next self.old < 2 ^ 63 }
        ensures rule { IfOk result (λ r. (ps : List Self.Step) → stands self.old ps → r ≡ first_rule (form.faults ps step.now)) }
        ensures stands { IfOk result (λ r. IfNone r ((ps : List Self.Step) → stands self.old ps → stands self.new (ps ++ step.now ∷ []))) }
        ensures known { IfOk result (λ r. IfNone r (IfSome (form.event step.now) (λ e. AreKnown (vars self.new) (event_literals e)))) }
        ensures live { IfOk result (λ r. IfNone r (live self.new ≡ true)) }
        ensures next { next self.new ≤ next self.old + 1 };

    /// The rule Unfinished where a query is open.
    fn end_rule(&self) -> Option<Rule>
        ensures { (ps : List Self.Step) → stands self.now ps → result ≡ first_rule (broken_unless (is_idle (phase (filter_map form.event ps))) rules.Unfinished) };

    /// The literals of the last query. Their variables have numbers.
    fn assumptions(&self) -> &[Lit]
        ensures value { result.now ≡ assumed self.now }
        ensures known { AreKnown (vars self.now) (assumed self.now) }
        ensures last { (ps : List Self.Step) → stands self.now ps → assumed self.now ≡ history.assumed (filter_map form.event ps) };

    /// The numbers of the proof's variables.
    fn dense(&self) -> &Dense
        ensures { result.now ≡ vars self.now };

    /// The event of a step, where it is one. Lists of the step that aren't the event's are spare from then on.
    fn into_event(step: Self::Step, spare: &mut Spare) -> Option<Event>
        ensures { result ≡ form.event step };
}

impl ProofSide for IdrupSide {
    type Step = Step;

    ghost form = { without_ids };

    ghost stands = { StandsFor };

    ghost live = { λ s. s.live };

    ghost next = { λ s. s.next };

    ghost assumed = { λ s. s.asked };

    ghost vars = { λ s. s.vars };

    fn start(alloc: Global) -> Result<IdrupSide, AllocError> {
        IdrupSide::new(alloc)
    }

    fn read_step<S: Source>(
        spare: &mut Spare,
        window: &mut Window,
        src: &mut S,
    ) -> Result<Option<Step>, LineFault> {
        idrup_lines::read_line(spare, window, src)
    }

    fn take_step(&mut self, step: &Step) -> Result<Option<Rule>, AllocError> {
        self.step(step)
    }

    fn end_rule(&self) -> Option<Rule> {
        self.finish()
    }

    fn assumptions(&self) -> &[Lit] {
        self.assumed()
    }

    fn dense(&self) -> &Dense {
        self.dense()
    }

    fn into_event(step: Step, spare: &mut Spare) -> Option<Event> {
        match step {
            Step::Event(event) => Some(event),
            Step::Lemma(lits) | Step::Delete(lits) | Step::Weaken(lits) | Step::Restore(lits) => {
                spare.lits = Some(lits);
                None
            }
        }
    }
}

impl ProofSide for LidrupSide {
    type Step = LStep;

    ghost form = { with_ids };

    ghost stands = { StandsForIds };

    ghost live = { λ s. s.live };

    ghost next = { λ s. 0 };

    ghost assumed = { λ s. s.asked };

    ghost vars = { λ s. s.vars };

    fn start(alloc: Global) -> Result<LidrupSide, AllocError> {
        LidrupSide::new(alloc)
    }

    fn read_step<S: Source>(
        spare: &mut Spare,
        window: &mut Window,
        src: &mut S,
    ) -> Result<Option<LStep>, LineFault> {
        lidrup_lines::read_line(spare, window, src)
    }

    fn take_step(&mut self, step: &LStep) -> Result<Option<Rule>, AllocError> {
        self.step(step)
    }

    fn end_rule(&self) -> Option<Rule> {
        self.finish()
    }

    fn assumptions(&self) -> &[Lit] {
        self.assumed()
    }

    fn dense(&self) -> &Dense {
        self.dense()
    }

    fn into_event(step: LStep, spare: &mut Spare) -> Option<Event> {
        match step {
            LStep::Input { id: _, lits } => Some(Event::Input(lits)),
            LStep::Query(lits) => Some(Event::Query(lits)),
            LStep::Status(word) => Some(Event::Status(word)),
            LStep::Model(lits) => Some(Event::Model(lits)),
            LStep::Core { lits, hints } => {
                spare.ids = Some(hints);
                Some(Event::Core(lits))
            }
            LStep::Lemma { id: _, lits, hints } => {
                spare.lits = Some(lits);
                spare.ids = Some(hints);
                None
            }
            LStep::Delete(ids) | LStep::Weaken(ids) | LStep::Restore(ids) => {
                spare.ids = Some(ids);
                None
            }
        }
    }
}
