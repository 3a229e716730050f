// What each pair of lines gives, each text in pieces of one byte and as a whole.

ghost use Rattle.std.specs.Prelude.{◌≡◌, ◌<◌, IsTrue};
ghost use Rattle.icnf_lines.specs.Marks.{AreKnown};

use icnf_lines::{Marks, Match, MatchFault, match_line, read_line};
use line_reading::Spare;
use lits::{Dense, Lit};
use outside::MemorySource;
use session_rules::{Event, Rule};
use slice_tokens::Window;
use std::alloc::{AllocError, Global};
use std::process::Abort;
use std::test::Fail;

// A source that gives these bytes in pieces of so many.
fn source(alloc: Global, bytes: &[u8], most: usize) -> Result<MemorySource, AllocError>
    requires { 0 < most }
{
    let mut pieces = Vec::new(alloc);
    for piece in bytes.chunks(most) {
        pieces.push(piece.to_vec(alloc)?)?;
    }
    Ok(MemorySource::new(pieces, Vec::new(alloc)))
}

// Whether the variables of literals have numbers.
fn are_known(dense: &Dense, lits: &[Lit]) -> bool
    ensures { IsTrue result → AreKnown dense.now lits.now }
{
    for l in lits {
        if dense.find_lit(*l).is_none() {
            return false;
        }
    }
    true
}

// Numbers the variables of literals.
fn number_all(dense: &mut Dense, lits: &[Lit]) -> Result<(), AllocError> {
    for l in lits {
        let _ = dense.number_lit(*l)?;
    }
    Ok(())
}

// Holds the next line against an event; none where a variable has no number, or more than 9 have one.
fn held_against(
    window: &mut Window,
    lines: &mut MemorySource,
    event: &Event,
    assumed: &[Lit],
    marks: &mut Marks,
    dense: &Dense,
) -> Option<Result<Match, MatchFault>>
    requires { marks.old ≡ 9 }
    ensures { marks.new ≡ 9 }
{
    if dense.count() > 9 {
        return None;
    }
    let lits = event.lits();
    if !are_known(dense, lits) {
        return None;
    }
    if !are_known(dense, assumed) {
        return None;
    }
    Some(match_line(window, lines, event, assumed, marks, dense))
}

// Holds the lines of an interaction against those of a proof in turn, with one table, and gives the last answer.
fn matched(
    alloc: Global,
    proof: &str,
    interaction: &str,
    assumed: &[Lit],
    most: usize,
) -> Result<Option<Result<Match, MatchFault>>, AllocError>
    requires { 0 < most }
{
    let mut spare = Spare::new(alloc);
    let mut events = source(alloc, proof.as_bytes(), most)?;
    let mut events_window = Window::new(alloc)?;
    let mut lines = source(alloc, interaction.as_bytes(), most)?;
    let mut lines_window = Window::new(alloc)?;
    let mut marks = Marks::new(alloc);
    marks.reserve(9)?;
    let mut dense = Dense::new(alloc);
    number_all(&mut dense, assumed)?;
    let mut answer = None;
    for _ in 0..9 {
        match read_line(&mut spare, &mut events_window, &mut events) {
            Ok(Some(event)) => {
                number_all(&mut dense, event.lits())?;
                answer = held_against(
                    &mut lines_window,
                    &mut lines,
                    &event,
                    assumed,
                    &mut marks,
                    &dense,
                );
            }
            _ => return Ok(answer),
        }
    }
    Ok(answer)
}

// The literal of a number.
fn lit(rt: &impl Abort, n: i64) -> Lit {
    Lit::new(n).expect(rt, "a literal")
}

#[test]
fn pairs_of_lines(rt: HostRuntime) -> Result<(), Fail> {
    let alloc = rt.alloc();
    let assumed = [lit(&rt, 1), lit(&rt, 3)];
    let proofs = [
        "i 1 0",
        "i 2 1 0",
        "i 2 0",
        "q -1 0",
        "q 1 2 0",
        "s SATISFIABLE",
        "s UNKNOWN",
        "s UNKNOWN",
        "m 1 2 0",
        "m 1 2 0",
        "u 1 3 0",
        "u 2 1 3 0",
        "u 1 0",
        "u 2 0",
        "i 1 0",
        "i 1 0",
        "i 1 0",
        "i 1 0\ni 1 2 0",
        "i 2 1 2 0",
        "i 2 1 0",
        "q 2 -1 0",
        "m 3 0",
        "i 1 2 0",
        "i 1 2 0",
        "i 1 2 0",
        "q 1 0",
        "u 3 1 0",
        "u 3 2 0",
    ];
    let interactions = [
        "q 0",
        "i 1 2 1 0\n",
        "i 2 1 0",
        "q 1 0",
        "c nothing\n\nq 2 1 0\n",
        "s UNSATISFIABLE",
        "s UNKNOWN",
        "m 0",
        "m 1 1 -2 2 9 0",
        "m 2 2 0",
        "u 3 0",
        "u 3 1 2 0",
        "u 1 4 8 0",
        "u 8 0",
        "\nc 1 0\n",
        "q 01 0",
        "i 8000000 0 1",
        "i 2 0\ni 2 1 0",
        "i 2 1 2 0",
        "i 2  1\t0 \r\n",
        "q 2 -1 0\nq 1 0",
        "m 3 0 0",
        "i 1 2",
        "i 1 20 0",
        "i 1 2 3 0",
        "q -1 0",
        "u 3 1 0",
        "u 3 2 0",
    ];
    let wanted = [
        Ok(Match::Differs(Rule::Kind)),
        Ok(Match::Agrees),
        Ok(Match::Differs(Rule::Content)),
        Ok(Match::Differs(Rule::Content)),
        Ok(Match::Agrees),
        Ok(Match::Differs(Rule::Status)),
        Ok(Match::Agrees),
        Ok(Match::Differs(Rule::Kind)),
        Ok(Match::Differs(Rule::ModelPart(lit(&rt, -2)))),
        Ok(Match::Agrees),
        Ok(Match::Differs(Rule::CorePart(lit(&rt, 1)))),
        Ok(Match::Differs(Rule::CoreClaim(lit(&rt, 2)))),
        Ok(Match::Differs(Rule::CoreClaim(lit(&rt, 4)))),
        Ok(Match::Differs(Rule::CorePart(lit(&rt, 2)))),
        Ok(Match::Ended),
        Err(MatchFault::Syntax(Rule::Number)),
        Err(MatchFault::Syntax(Rule::Excess)),
        Ok(Match::Agrees),
        Ok(Match::Agrees),
        Ok(Match::Agrees),
        Ok(Match::Agrees),
        Err(MatchFault::Syntax(Rule::Excess)),
        Err(MatchFault::Syntax(Rule::Unclosed)),
        Ok(Match::Differs(Rule::Content)),
        Ok(Match::Differs(Rule::Content)),
        Ok(Match::Differs(Rule::Content)),
        Ok(Match::Agrees),
        Ok(Match::Differs(Rule::CoreClaim(lit(&rt, 2)))),
    ];
    for i in 0..28usize {
        for most in [1, 1_000] {
            let answer = matched(alloc, proofs[i], interactions[i], &assumed, most)?;
            assert_eq!(rt; answer, Some(wanted[i]), "pair {i}, pieces of {most}");
        }
    }
    Ok(())
}

#[test]
fn runs_of_lines(rt: HostRuntime) -> Result<(), Fail> {
    let alloc = rt.alloc();
    let assumed = [lit(&rt, 1), lit(&rt, 3)];
    let proofs = [
        "m 1 -2 0",
        "m 1 -2 0",
        "m 1 2 0\nq 3 0",
        "m 1 2 0\nq 3 0",
        "m 1 2 0",
        "m 1 2 0\nq 3 0",
        "m 1 2 0\nq 3 0",
        "m 1 2 0\nq 3 0",
        "u 1 3 0",
        "u 1 0",
        "u 1 0\nm 2 0",
        "m 1 0\ni 1 0",
        "m 1 0",
        "m 1 0\nq 0",
        "s UNKNOWN",
    ];
    let interactions = [
        "v 1 0\nv -2 1 0\nv 0\n",
        "v 1 0\nc 2\n\nv -2 2 0",
        "v 1 0\nv 2 0\nq 3 0",
        "v 1 0\nq 4 0",
        "c nothing\n",
        "q 3 0",
        "v 1 0\nm 1 2 0",
        "m 1 0\nv 1 0",
        "f 3 0\nf 1 1 0",
        "f 1 0\nf 3 0",
        "f 1 0\nv 1 0",
        "f 1 0",
        "v 1 0\nv 1 x 0",
        "vv 1 0",
        "v 1 0",
    ];
    let wanted = [
        Ok(Match::Agrees),
        Ok(Match::Differs(Rule::ModelPart(lit(&rt, 2)))),
        Ok(Match::Agrees),
        Ok(Match::Differs(Rule::Content)),
        Ok(Match::Agrees),
        Ok(Match::Agrees),
        Ok(Match::Differs(Rule::Kind)),
        Ok(Match::Differs(Rule::Kind)),
        Ok(Match::Agrees),
        Ok(Match::Differs(Rule::FailedPart(lit(&rt, 3)))),
        Ok(Match::Differs(Rule::ModelPart(lit(&rt, 1)))),
        Ok(Match::Differs(Rule::Kind)),
        Err(MatchFault::Syntax(Rule::Number)),
        Err(MatchFault::Syntax(Rule::Letter)),
        Ok(Match::Differs(Rule::Kind)),
    ];
    for i in 0..15usize {
        for most in [1, 1_000] {
            let answer = matched(alloc, proofs[i], interactions[i], &assumed, most)?;
            assert_eq!(rt; answer, Some(wanted[i]), "run {i}, pieces of {most}");
        }
    }
    Ok(())
}
