// Candidates are picked by score, in their phase, and assigned ones are passed over.

ghost use Rattle.std.specs.Prelude.{◌≡◌, ◌≤◌, IfOk};
ghost use Rattle.lits.specs.Literal.{var};
ghost use Rattle.propagation.specs.Engine.{no_engine, with_vars};

use decisions::Decisions;
use lits::Lit;
use propagation::Engine;
use std::alloc::{AllocError, Global};
use std::test::Fail;

// The literal of a number of at most 4, or the default for any other number.
fn lit(n: i64) -> Lit
    ensures { var result ≤ 4 }
{
    match Lit::new(n) {
        Some(l) => if l.var() <= 4 { l } else { Lit::default() },
        None => Lit::default(),
    }
}

// Four variables, the second assumed as false.
fn second_assumed(alloc: Global) -> Result<Engine, AllocError> {
    let mut engine = Engine::new(alloc);
    engine.reserve(4)?;
    engine.assume(lit(-2));
    Ok(engine)
}

// Four candidates, of which the second and the third are decided as true, and the third comes first.
fn four_candidates(alloc: Global) -> Result<Decisions, AllocError>
    ensures { IfOk result (λ d. d.reserved ≡ 4) }
{
    let mut decisions = Decisions::new(alloc);
    decisions.reserve(4)?;
    for n in [-1, 2, 3, -4] {
        decisions.release(lit(n));
    }
    decisions.raise(lit(3));
    decisions.grow();
    Ok(decisions)
}

#[test]
fn the_best_free_variable_is_picked_in_its_phase(rt: HostRuntime) -> Result<(), Fail> {
    let engine = second_assumed(rt.alloc())?;
    let mut decisions = four_candidates(rt.alloc())?;
    assert_eq!(rt; decisions.pick(&engine), Some(lit(3)));
    assert_eq!(rt; decisions.pick(&engine), Some(lit(-1)));
    assert_eq!(rt; decisions.pick(&engine), Some(lit(-4)));
    assert_eq!(rt; decisions.pick(&engine), None);
    Ok(())
}
