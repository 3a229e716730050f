// The check of a pair, line by line. Each line of the proof is read, judged by itself, and held against its partners where it is
// an event; so the first fault that is met is the first of all, and the check ends with it.

ghost use Rattle.std.specs.Prelude.{codes, ◌≡◌, ℕ, ◌+◌, ◌<◌, ◌≤◌, ◌^◌, true, List, Option, Some, None, Err, length, max, OnOk, OnErr, IfOk, IfNone, IfSome, IsErrOf};
ghost use Rattle.outside.specs.Faults.{Rose};
ghost use Rattle.session_rules.specs.declared.Verdict.TheVariants as verdicts;
ghost use Rattle.session_rules.specs.History.{event_literals};
ghost use Rattle.session_rules.specs.Pair.{verdict, verdict_by};
ghost use Rattle.icnf_lines.specs.Marks.{AreKnown};
ghost use Rattle.slice_tokens.specs.Place.{at_start, ahead, WhereTold};
ghost use Rattle.slice_tokens.specs.Calls.{Moves};
ghost use Rattle.pair_matcher.specs.Taken.{TakenBy};
ghost use Rattle.pair_matcher.specs.Checks.{BothTold, BothTell, HasBrokenHeader, IsBehindHeader, PassesHeader, Knows, IsVerdictOf, query_count, Checking, AtStep, AtEvent, AtProofEnd, AtSurplus, Turns};

use crate::idrup::IdrupSide;
use crate::lidrup::LidrupSide;
use crate::proof_side::ProofSide;
use icnf_lines::{HeaderFault, Marks, Match, MatchFault, match_line, read_header};
use line_reading::Spare;
use lits::Lits;
use outside::{Failed, Source};
use session_rules::{Event, Form, LineFault, Rule, Side, Verdict};
use slice_tokens::{TokenFault, Window};
use std::alloc::{AllocError, Global};

/// Why a pair was not checked: a read of one of its files failed, or memory is wanting.
#[derive(Clone, Copy, Debug, PartialEq, Eq)]
pub enum CheckFault {
    ReadInteraction = 1,
    ReadProof = 2,
    Memory = 3,
}

/// How far a check has come: a window over each file, and how many queries were passed.
#[derive(Drop)]
struct Position {
    interaction: Window,
    proof: Window,
    queries: u64,
}

/// What a check is made of: the side of the proof, room for marks, how far it has come, and the memory for the lists of the
/// next line.
#[derive(Drop)]
struct Check<P> {
    side: P,
    marks: Marks,
    at: Position,
    spare: Spare,
}

// A refusal.
fn refused(side: Side, line: u64, rule: Rule) -> Verdict
    ensures { result ≡ verdicts.Refused side line rule }
{
    Verdict::Refused { side, line, rule }
}

// Passes over the header of a stream: the rule that it breaks, at the window's line, or none.
fn pass_header<S: Source>(
    window: &mut Window,
    src: &mut S,
    name: &[u8],
) -> Result<Option<Rule>, Failed>
    requires start { window.old ≡ at_start }
    requires short { length name.now ≤ 32 }
    ensures moves { Moves window.old window.new }
    ensures told { IfOk result (λ r. WhereTold (S.left src.old) (ahead window.new (S.left src.new)) (λ bytes rest. PassesHeader name.now r bytes window.new rest)) }
    ensures count { S.faults src.old ≤ S.faults src.new }
    ensures read { OnErr result (Rose (S.faults src.old) (S.faults src.new)) }
{
    match read_header(window, src, name) {
        Ok(()) => Ok(None),
        Err(HeaderFault::Syntax(rule)) => Ok(Some(rule)),
        Err(HeaderFault::Read) => Err(Failed),
    }
}

// One for a query, else 0.
fn query_count(event: &Event) -> u64
    ensures { result ≡ query_count (Some event.now) }
{
    match event {
        Event::Query(_) => 1,
        _ => 0,
    }
}

// The literals of an event, where it has some.
fn into_literals(event: Event) -> Option<Lits>
    ensures { IfSome result (λ ls. ls ≡ event_literals event) }
{
    match event {
        Event::Input(lits)
        | Event::Query(lits)
        | Event::Model(lits)
        | Event::Core(lits)
        | Event::Values(lits)
        | Event::Failed(lits) => Some(lits),
        Event::Status(_) => None,
    }
}

// Makes room for the marks of all variables that have a number.
fn reserve_marks<P: ProofSide>(marks: &mut Marks, side: &P) -> Result<(), AllocError>
    ensures { OnOk result (length (P.vars side.now) ≤ marks.new) }
{
    marks.reserve(side.dense().count())
}

// Holds the interaction's next lines, as far as they are partners of an event of the proof, against it.
fn take_event<A: Source, P: ProofSide>(
    c: &mut Check<P>,
    interaction: &mut A,
    event: &Event,
) -> Result<Option<Verdict>, CheckFault>
    requires queries { c.old.at.queries < 2 ^ 63 }
    requires known { AreKnown (P.vars c.old.side) (event_literals event.now) }
    ensures side { c.new.side ≡ c.old.side }
    ensures place { c.new.at.proof ≡ c.old.at.proof }
    ensures queries { c.new.at.queries ≤ c.old.at.queries + 1 }
    ensures told { IfOk result (λ v. (a b tb : Option (List ℕ))
        → BothTold a (ahead c.old.at.interaction (A.left interaction.old)) b tb (AtEvent P.form (P.stands c.old.side) c.old.at (Some event.now))
        → BothTold a (ahead c.new.at.interaction (A.left interaction.new)) b tb (Turns P.form (P.stands c.new.side) v c.new.at)) }
    ensures count { A.faults interaction.old ≤ A.faults interaction.new }
    ensures read { IsErrOf result CheckFault.ReadInteraction → Rose (A.faults interaction.old) (A.faults interaction.new) }
    ensures proof { IsErrOf result CheckFault.ReadProof → ⊥ }
{
    if reserve_marks(&mut c.marks, &c.side).is_err() {
        return Err(CheckFault::Memory);
    }
    match match_line(
        &mut c.at.interaction,
        interaction,
        event,
        c.side.assumptions(),
        &mut c.marks,
        c.side.dense(),
    ) {
        Ok(Match::Agrees) => {
            c.at.queries += query_count(event);
            Ok(None)
        }
        Ok(Match::Ended) => Ok(Some(refused(Side::Proof, c.at.proof.line(), Rule::Ended))),
        Ok(Match::Differs(rule)) => Ok(Some(refused(
            Side::Interaction,
            c.at.interaction.line(),
            rule,
        ))),
        Err(MatchFault::Syntax(rule)) => {
            Ok(Some(refused(Side::Interaction, c.at.interaction.line(), rule)))
        }
        Err(MatchFault::Read) => Err(CheckFault::ReadInteraction),
    }
}

// Judges a step that was read, and holds it against its partner where it is an event.
fn take_step<A: Source, P: ProofSide>(
    c: &mut Check<P>,
    interaction: &mut A,
    step: P::Step,
) -> Result<Option<Verdict>, CheckFault>
    requires live { P.live c.old.side ≡ true }
    requires next { P.next c.old.side < 2 ^ 63 }
    requires queries { c.old.at.queries < 2 ^ 63 }
    ensures live { IfOk result (λ v. IfNone v (P.live c.new.side ≡ true)) }
    ensures next { P.next c.new.side ≤ P.next c.old.side + 1 }
    ensures place { c.new.at.proof ≡ c.old.at.proof }
    ensures queries { c.new.at.queries ≤ c.old.at.queries + 1 }
    ensures told { IfOk result (λ v. (a b tb : Option (List ℕ))
        → BothTold a (ahead c.old.at.interaction (A.left interaction.old)) b tb (AtStep P.form (P.stands c.old.side) c.old.at step)
        → BothTold a (ahead c.new.at.interaction (A.left interaction.new)) b tb (Turns P.form (P.stands c.new.side) v c.new.at)) }
    ensures count { A.faults interaction.old ≤ A.faults interaction.new }
    ensures read { IsErrOf result CheckFault.ReadInteraction → Rose (A.faults interaction.old) (A.faults interaction.new) }
    ensures proof { IsErrOf result CheckFault.ReadProof → ⊥ }
{
    match c.side.take_step(&step) {
        Ok(None) => {}
        Ok(Some(rule)) => return Ok(Some(refused(Side::Proof, c.at.proof.line(), rule))),
        Err(_) => return Err(CheckFault::Memory),
    }
    match P::into_event(step, &mut c.spare) {
        Some(event) => {
            let taken = take_event(c, interaction, &event);
            c.spare.lits = into_literals(event);
            match taken {
                Ok(answer) => Ok(answer),
                Err(fault) => Err(fault),
            }
        }
        None => Ok(None),
    }
}

// What is left of the interaction at the proof's end.
fn take_surplus<A: Source, P: ProofSide>(
    c: &mut Check<P>,
    interaction: &mut A,
) -> Result<Verdict, CheckFault>
    ensures told { IfOk result (λ v. (a b tb : Option (List ℕ))
        → BothTold a (ahead c.old.at.interaction (A.left interaction.old)) b tb (AtSurplus P.form c.old.at)
        → BothTold a (ahead c.new.at.interaction (A.left interaction.new)) b tb (IsVerdictOf P.form v c.new.at)) }
    ensures place { c.new.at.proof ≡ c.old.at.proof }
    ensures count { A.faults interaction.old ≤ A.faults interaction.new }
    ensures read { IsErrOf result CheckFault.ReadInteraction → Rose (A.faults interaction.old) (A.faults interaction.new) }
    ensures proof { IsErrOf result CheckFault.ReadProof → ⊥ }
{
    match c.at.interaction.next_line(interaction) {
        Ok(true) => Ok(refused(Side::Interaction, c.at.interaction.line(), Rule::Surplus)),
        Ok(false) => Ok(Verdict::Accepted {
            queries: c.at.queries,
        }),
        Err(TokenFault::Read) => Err(CheckFault::ReadInteraction),
        Err(TokenFault::Length) => Ok(refused(
            Side::Interaction,
            c.at.interaction.line(),
            Rule::Length,
        )),
        Err(TokenFault::LongWord) => Ok(refused(
            Side::Interaction,
            c.at.interaction.line(),
            Rule::Length,
        )),
    }
}

// The verdict at the proof's end.
fn take_end<A: Source, P: ProofSide>(
    c: &mut Check<P>,
    interaction: &mut A,
) -> Result<Verdict, CheckFault>
    ensures told { IfOk result (λ v. (a b tb : Option (List ℕ))
        → BothTold a (ahead c.old.at.interaction (A.left interaction.old)) b tb (AtProofEnd P.form (P.stands c.old.side) c.old.at)
        → BothTold a (ahead c.new.at.interaction (A.left interaction.new)) b tb (IsVerdictOf P.form v c.new.at)) }
    ensures place { c.new.at.proof ≡ c.old.at.proof }
    ensures count { A.faults interaction.old ≤ A.faults interaction.new }
    ensures read { IsErrOf result CheckFault.ReadInteraction → Rose (A.faults interaction.old) (A.faults interaction.new) }
    ensures proof { IsErrOf result CheckFault.ReadProof → ⊥ }
{
    match c.side.end_rule() {
        Some(rule) => Ok(refused(Side::Proof, c.at.proof.line(), rule)),
        None => match take_surplus(c, interaction) {
            Ok(verdict) => Ok(verdict),
            Err(fault) => Err(fault),
        },
    }
}

// Takes the proof's next line.
fn turn<A: Source, B: Source, P: ProofSide>(
    c: &mut Check<P>,
    interaction: &mut A,
    proof: &mut B,
) -> Result<Option<Verdict>, CheckFault>
    requires live { P.live c.old.side ≡ true }
    requires next { P.next c.old.side < 2 ^ 63 }
    requires queries { c.old.at.queries < 2 ^ 63 }
    ensures live { IfOk result (λ v. IfNone v (P.live c.new.side ≡ true)) }
    ensures next { IfOk result (λ v. IfNone v (P.next c.new.side ≤ P.next c.old.side + 1)) }
    ensures queries { IfOk result (λ v. IfNone v (c.new.at.queries ≤ c.old.at.queries + 1)) }
    ensures moves { Moves c.old.at.proof c.new.at.proof }
    ensures progress { IfOk result (λ v. IfNone v (c.old.at.proof.passed < c.new.at.proof.passed)) }
    ensures told { IfOk result (λ v. (a b : Option (List ℕ)) → Knows a b (A.left interaction.old) (B.left proof.old) c.old.at (Checking P.form (P.stands c.old.side))
        → Knows a b (A.left interaction.new) (B.left proof.new) c.new.at (Turns P.form (P.stands c.new.side) v)) }
    ensures interaction_count { A.faults interaction.old ≤ A.faults interaction.new }
    ensures proof_count { B.faults proof.old ≤ B.faults proof.new }
    ensures read_interaction { IsErrOf result CheckFault.ReadInteraction → Rose (A.faults interaction.old) (A.faults interaction.new) }
    ensures read_proof { IsErrOf result CheckFault.ReadProof → Rose (B.faults proof.old) (B.faults proof.new) }
{
    match P::read_step(&mut c.spare, &mut c.at.proof, proof) {
        Ok(Some(step)) => match take_step(c, interaction, step) {
            Ok(answer) => Ok(answer),
            Err(fault) => Err(fault),
        },
        Ok(None) => match take_end(c, interaction) {
            Ok(verdict) => Ok(Some(verdict)),
            Err(fault) => Err(fault),
        },
        Err(LineFault::Syntax(rule)) => Ok(Some(refused(Side::Proof, c.at.proof.line(), rule))),
        Err(LineFault::Read) => Err(CheckFault::ReadProof),
        Err(LineFault::Memory) => Err(CheckFault::Memory),
    }
}

// Takes the lines of the proof, and then the rest of the interaction.
fn take_lines<A: Source, B: Source, P: ProofSide>(
    c: &mut Check<P>,
    interaction: &mut A,
    proof: &mut B,
) -> Result<Verdict, CheckFault>
    requires live { P.live c.old.side ≡ true }
    requires next { P.next c.old.side ≤ 1 + c.old.at.proof.passed }
    requires queries { c.old.at.queries ≤ c.old.at.proof.passed }
    requires bound { c.old.at.proof.passed ≤ 2 ^ 62 }
    ensures told { IfOk result (λ v. (a b : Option (List ℕ)) → Knows a b (A.left interaction.old) (B.left proof.old) c.old.at (Checking P.form (P.stands c.old.side))
        → Knows a b (A.left interaction.new) (B.left proof.new) c.new.at (IsVerdictOf P.form v)) }
    ensures interaction_count { A.faults interaction.old ≤ A.faults interaction.new }
    ensures proof_count { B.faults proof.old ≤ B.faults proof.new }
    ensures read_interaction { IsErrOf result CheckFault.ReadInteraction → Rose (A.faults interaction.old) (A.faults interaction.new) }
    ensures read_proof { IsErrOf result CheckFault.ReadProof → Rose (B.faults proof.old) (B.faults proof.new) }
{
    'lines: loop {
        match turn(c, interaction, proof) {
            Ok(None) => {}
            Ok(Some(verdict)) => return Ok(verdict),
            Err(fault) => return Err(fault),
        }
    }
}

// Checks a pair whose interaction is behind its header, where this window stands.
fn check_behind<A: Source, B: Source, P: ProofSide>(
    alloc: Global,
    name: &[u8],
    interaction_window: Window,
    interaction: &mut A,
    proof: &mut B,
) -> Result<Verdict, CheckFault>
    requires name { name.now ≡ P.form.name }
    requires short { length name.now ≤ 32 }
    ensures verdict { IfOk result (λ v. (a b : List ℕ) → (left : Option (List ℕ))
        → WhereTold left (ahead interaction_window (A.left interaction.old)) (λ all rest. IsBehindHeader (codes "icnf") all interaction_window rest)
        → BothTell left (B.left proof.old) a b → v ≡ verdict_by P.form a b) }
    ensures taken { IfOk result (λ v. (a b : List ℕ) → (left : Option (List ℕ))
        → WhereTold left (ahead interaction_window (A.left interaction.old)) (λ all rest. IsBehindHeader (codes "icnf") all interaction_window rest)
        → BothTell left (B.left proof.old) a b → TakenBy v a b (A.left interaction.new) (B.left proof.new)) }
    ensures interaction_count { A.faults interaction.old ≤ A.faults interaction.new }
    ensures proof_count { B.faults proof.old ≤ B.faults proof.new }
    ensures read_interaction { IsErrOf result CheckFault.ReadInteraction → Rose (A.faults interaction.old) (A.faults interaction.new) }
    ensures read_proof { IsErrOf result CheckFault.ReadProof → Rose (B.faults proof.old) (B.faults proof.new) }
{
    let Ok(mut proof_window) = Window::new(alloc) else {
        return Err(CheckFault::Memory);
    };
    match pass_header(&mut proof_window, proof, name) {
        Ok(None) => {}
        Ok(Some(rule)) => {
            proof_window.recall_bounds();
            return Ok(refused(Side::Proof, proof_window.line(), rule));
        }
        Err(Failed) => return Err(CheckFault::ReadProof),
    }
    let Ok(side) = P::start(alloc) else {
        return Err(CheckFault::Memory);
    };
    let mut check = Check {
        side,
        marks: Marks::new(alloc),
        at: Position {
            interaction: interaction_window,
            proof: proof_window,
            queries: 0,
        },
        spare: Spare::new(alloc),
    };
    match take_lines(&mut check, interaction, proof) {
        Ok(verdict) => {
            check.at.interaction.recall_bounds();
            check.at.proof.recall_bounds();
            Ok(verdict)
        }
        Err(fault) => Err(fault),
    }
}

// Checks a pair whose proof has the form of this side. The interaction's header is read and judged before the proof is looked at.
fn check_by<A: Source, B: Source, P: ProofSide>(
    alloc: Global,
    name: &[u8],
    interaction: &mut A,
    proof: &mut B,
) -> Result<Verdict, CheckFault>
    requires name { name.now ≡ P.form.name }
    requires short { length name.now ≤ 32 }
    ensures verdict { IfOk result (λ v. (a b : List ℕ) → BothTell (A.left interaction.old) (B.left proof.old) a b → v ≡ verdict_by P.form a b) }
    ensures taken { IfOk result (λ v. (a b : List ℕ) → BothTell (A.left interaction.old) (B.left proof.old) a b → TakenBy v a b (A.left interaction.new) (B.left proof.new)) }
    ensures header { HasBrokenHeader (codes "icnf") (A.left interaction.old) → proof.new ≡ proof.old }
    ensures interaction_count { A.faults interaction.old ≤ A.faults interaction.new }
    ensures proof_count { B.faults proof.old ≤ B.faults proof.new }
    ensures read_interaction { IsErrOf result CheckFault.ReadInteraction → Rose (A.faults interaction.old) (A.faults interaction.new) }
    ensures read_proof { IsErrOf result CheckFault.ReadProof → Rose (B.faults proof.old) (B.faults proof.new) }
{
    let Ok(mut window) = Window::new(alloc) else {
        return Err(CheckFault::Memory);
    };
    match pass_header(&mut window, interaction, b"icnf") {
        Ok(None) => {}
        Ok(Some(rule)) => {
            window.recall_bounds();
            return Ok(refused(Side::Interaction, window.line(), rule));
        }
        Err(Failed) => return Err(CheckFault::ReadInteraction),
    }
    match check_behind::<A, B, P>(alloc, name, window, interaction, proof) {
        Ok(verdict) => Ok(verdict),
        Err(fault) => Err(fault),
    }
}

/// The verdict on an interaction and a proof of this form. Each file is read once, from its start, and at most 2^62 bytes of it;
/// the room grows with the clauses that are active or weakened, the inputs, and the longest line.
///
/// The interaction's header is judged first: where it is broken, no byte of the proof is asked for. Of the file that a refusal
/// names, at most 65,536 bytes behind the line that it names were taken.
///
/// # Errors
///
/// `ReadInteraction` and `ReadProof` come only where that file's count of faults rose, and `Memory` is want of memory. No error
/// says anything of the pair.
pub fn check_pair<A: Source, B: Source>(
    alloc: Global,
    form: Form,
    interaction: &mut A,
    proof: &mut B,
) -> Result<Verdict, CheckFault>
    ensures verdict { IfOk result (λ v. (a b : List ℕ) → BothTell (A.left interaction.old) (B.left proof.old) a b → v ≡ verdict form a b) }
    ensures taken { IfOk result (λ v. (a b : List ℕ) → BothTell (A.left interaction.old) (B.left proof.old) a b → TakenBy v a b (A.left interaction.new) (B.left proof.new)) }
    ensures header { HasBrokenHeader (codes "icnf") (A.left interaction.old) → proof.new ≡ proof.old }
    ensures interaction_count { A.faults interaction.old ≤ A.faults interaction.new }
    ensures proof_count { B.faults proof.old ≤ B.faults proof.new }
    ensures read_interaction { IsErrOf result CheckFault.ReadInteraction → Rose (A.faults interaction.old) (A.faults interaction.new) }
    ensures read_proof { IsErrOf result CheckFault.ReadProof → Rose (B.faults proof.old) (B.faults proof.new) }
{
    match form {
        Form::Idrup => check_by::<A, B, IdrupSide>(alloc, b"idrup", interaction, proof),
        Form::Lidrup => check_by::<A, B, LidrupSide>(alloc, b"lidrup", interaction, proof),
    }
}
