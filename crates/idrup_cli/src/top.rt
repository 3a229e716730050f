// The top call of the program.
ghost use Rattle.std.specs.Prelude.{◌≡◌, ◌⊎◌, ◌↔◌, ◌≤◌, ℕ, codes, map, None, true, string_bytes};
ghost use Rattle.std.specs.Io.KnownBytes.{Appends};
ghost use Rattle.outside.specs.Faults.{Rose};
ghost use Rattle.outside.specs.Streams.{Becomes};
ghost use Rattle.session_rules.specs.declared.Side.{Side as SideData};
ghost use Rattle.session_rules.specs.declared.Rule.{Rule as RuleData};
ghost use Rattle.session_rules.specs.declared.Verdict.TheVariants.{Accepted, Refused};
ghost use Rattle.session_rules.specs.Pair.{verdict, Certified, events_in};
ghost use Rattle.session_rules.specs.Verdicts.{events_among, steps_in};
ghost use Rattle.session_laws.specs.Refusals.{IsWhole};
ghost use Rattle.pair_matcher.specs.Taken.{TakenBy};
ghost use Rattle.pair_matcher.specs.Checks.{HasBrokenHeader};
ghost use Rattle.idrup_cli.specs.declared.ending.Ending.{Ending as EndingData};
ghost use Rattle.idrup_cli.specs.Plan.{plan, IsCheck, IfCheck};
ghost use Rattle.idrup_cli.specs.Report.{Cause, Takes, GetsLine, Reports, line_of, verdict_status};

use crate::ending::Ending;
use crate::telling::tell;
use crate::words::places;
use outside::{Sink, Source};
use pair_matcher::{CheckFault, check_pair};
use std::alloc::Global;

// Does what the words ask for. `check` alone has a plan.
fn ending_of<A: Source, B: Source>(
    alloc: Global,
    words: &[String],
    first: &mut A,
    second: &mut B,
) -> Ending
    ensures cause { Cause (plan (map string_bytes words.now)) (A.left first.old) (B.left second.old)
        (A.faults first.old, A.faults first.new) (B.faults second.old, B.faults second.new) result }
    ensures taken { Takes (plan (map string_bytes words.now)) (A.left first.old) (B.left second.old) (A.left first.new) (B.left second.new) result }
    ensures untouched { plan (map string_bytes words.now) ≡ None → (first.new ≡ first.old) × (second.new ≡ second.old) }
    ensures header { HasBrokenHeader (codes "icnf") (A.left first.old) → second.new ≡ second.old }
    ensures first_count { A.faults first.old ≤ A.faults first.new }
    ensures second_count { B.faults second.old ≤ B.faults second.new }
{
    let Some(places) = places(words) else {
        return Ending::Usage;
    };
    match check_pair(alloc, places.form, first, second) {
        Ok(verdict) => Ending::Checked(verdict),
        Err(CheckFault::ReadInteraction) => Ending::ReadInteraction,
        Err(CheckFault::ReadProof) => Ending::ReadProof,
        Err(CheckFault::Memory) => Ending::NoMemory,
    }
}

/// Does what the words ask for over the objects that are handed in, writes one line to the report, and answers the
/// status of the program:
///
/// - 0: `check` accepted the pair. 1: `check` refused it, and the line names the file, the line and the rule. Both mean
///   that the whole line was written and the report finished.
/// - 2: the words have no plan. Nothing is read.
/// - 3: a read failed. The line names the file.
/// - 4: the line of a verdict couldn't be written, or the report not finished.
/// - 5: want of memory.
///
/// With `check` the interaction is read from `first` and the proof from `second`; `out` and `proof` aren't used.
pub fn run<A: Source, B: Source, C: Sink, D: Sink, E: Sink>(
    alloc: Global,
    words: &[String],
    first: &mut A,
    second: &mut B,
    out: &mut C,
    proof: &mut D,
    report: &mut E,
) -> u8
    // 0 and 1 of a check are the verdict on the bytes of both sources, told whole. An accepted interaction is certified
    // by its proof, and each of its lines is spelled and held against the proof.
    ensures accepted { IfCheck (plan (map string_bytes words.now)) (A.left first.old) (B.left second.old) (λ form a b.
        result ≡ 0 → (queries : ℕ) × (verdict form a b ≡ Accepted queries)
        × Appends (E.written report.old) (E.written report.new) (line_of (Ending.Checked (Accepted queries)))) }
    ensures refused { IfCheck (plan (map string_bytes words.now)) (A.left first.old) (B.left second.old) (λ form a b.
        result ≡ 1 → (side : SideData) × (line : ℕ) × (rule : RuleData) × (verdict form a b ≡ Refused side line rule)
        × Appends (E.written report.old) (E.written report.new) (line_of (Ending.Checked (Refused side line rule)))) }
    ensures certified { IfCheck (plan (map string_bytes words.now)) (A.left first.old) (B.left second.old) (λ form a b.
        result ≡ 0 → Certified (events_in a) (events_among form (steps_in form b)) × IsWhole a) }
    ensures finished { result ≤ 1 → Becomes (E.finished report.old) (E.finished report.new) true }

    // With 1 no more of the file that the line names was taken behind its line than one buffer.
    ensures taken { IfCheck (plan (map string_bytes words.now)) (A.left first.old) (B.left second.old) (λ form a b.
        result ≡ 1 → TakenBy (verdict form a b) a b (A.left first.new) (B.left second.new)) }

    // A check comes to a verdict where no count rose and memory was there.
    ensures answered { IsCheck (plan (map string_bytes words.now)) → ¬ Rose (A.faults first.old) (A.faults first.new) → ¬ Rose (B.faults second.old) (B.faults second.new)
        → ¬ Rose (E.faults report.old) (E.faults report.new) → ¬ (result ≡ 5) → result ≤ 1 }
    ensures complete { IfCheck (plan (map string_bytes words.now)) (A.left first.old) (B.left second.old) (λ form a b.
        ¬ Rose (A.faults first.old) (A.faults first.new) → ¬ Rose (B.faults second.old) (B.faults second.new)
        → ¬ Rose (E.faults report.old) (E.faults report.new) → ¬ (result ≡ 5) → result ≡ verdict_status (verdict form a b)) }

    // 2 comes exactly where the words have no plan.
    ensures usage { (result ≡ 2) ↔ (plan (map string_bytes words.now) ≡ None) }

    // 3 comes only where the count of a source rose in this call, and the line names a source whose count rose.
    ensures read { result ≡ 3
        → (Rose (A.faults first.old) (A.faults first.new)
        × GetsLine (E.written report.old) (E.written report.new) (E.faults report.old) (E.faults report.new) (line_of Ending.ReadInteraction))
        ⊎ (Rose (B.faults second.old) (B.faults second.new)
        × GetsLine (E.written report.old) (E.written report.new) (E.faults report.old) (E.faults report.new) (line_of Ending.ReadProof)) }

    // 4 comes only where the count of the report rose in this call: a check writes to no other sink.
    ensures write { result ≡ 4 → Rose (E.faults report.old) (E.faults report.new) }
    ensures no_other { result ≤ 5 }

    // With every status the report got the line of an ending that has its cause: whole where its count didn't rise, else
    // a first part of it.
    ensures line { (ending : EndingData) × Cause (plan (map string_bytes words.now)) (A.left first.old) (B.left second.old)
        (A.faults first.old, A.faults first.new) (B.faults second.old, B.faults second.new) ending
        × Reports (E.written report.old) (E.written report.new) (E.finished report.old) (E.finished report.new)
        (E.faults report.old) (E.faults report.new) ending result }

    // What isn't used stays as it was, and no count falls. Where the interaction's header is broken the proof isn't used.
    ensures header { HasBrokenHeader (codes "icnf") (A.left first.old) → second.new ≡ second.old }
    ensures untouched { plan (map string_bytes words.now) ≡ None → (first.new ≡ first.old) × (second.new ≡ second.old) × (out.new ≡ out.old) × (proof.new ≡ proof.old) }
    ensures unwritten { IsCheck (plan (map string_bytes words.now)) → (out.new ≡ out.old) × (proof.new ≡ proof.old) }
    ensures first_count { A.faults first.old ≤ A.faults first.new }
    ensures second_count { B.faults second.old ≤ B.faults second.new }
    ensures out_count { C.faults out.old ≤ C.faults out.new }
    ensures proof_count { D.faults proof.old ≤ D.faults proof.new }
    ensures report_count { E.faults report.old ≤ E.faults report.new }
{
    let ending = ending_of(alloc, words, first, second);
    tell(report, ending)
}
