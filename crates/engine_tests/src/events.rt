// A session's events in their order, and what each broken rule names.

ghost use Rattle.std.specs.Prelude.{◌≡◌, ◌≤◌, IfOk};
ghost use Rattle.lits.specs.Literal.{var};

use lits::Lit;
use session_events::{Events, Kind};
use session_rules::{Event, Phase, Rule, StatusWord};
use std::alloc::{AllocError, Global};
use std::test::Fail;

// The greatest variable that the tests reserve.
const VARS: u32 = 1_000;

// The literal of a number, or the default for a number that has none up to `VARS`.
fn lit(n: i64) -> Lit
    ensures { var result ≤ 1000 }
{
    let l = Lit::new(n).unwrap_or(Lit::default());
    if l.var() > VARS {
        return Lit::default();
    }
    l
}

// Behind the inputs `1 2` and `-1 3` and the query `2 -4`.
fn asked(alloc: Global) -> Result<Events, AllocError>
    ensures { IfOk result (λ e. e.reserved ≡ 1000) }
{
    let mut events = Events::new(alloc);
    events.reserve(VARS)?;
    events.take_input(&[lit(1), lit(2)])?;
    events.take_input(&[lit(-1), lit(3)])?;
    events.take_query(&[lit(2), lit(-4)])?;
    Ok(events)
}

#[test]
fn a_model_breaks_its_first_rule(rt: HostRuntime) -> Result<(), Fail> {
    let mut events = asked(rt.alloc())?;
    events.take_status(StatusWord::Satisfiable);
    assert_eq!(rt;
        events.model_rule(&[lit(1), lit(-5), lit(-1), lit(5)]),
        Some(Rule::ModelClash(lit(-1)))
    );
    assert_eq!(rt;
        events.model_rule(&[lit(2), lit(1)]),
        Some(Rule::ModelAssumption(lit(-4)))
    );
    assert_eq!(rt;
        events.model_rule(&[lit(-4), lit(2)]),
        Some(Rule::ModelInput(2))
    );
    assert_eq!(rt;
        events.model_rule(&[lit(2), lit(-4), lit(-1), lit(2)]),
        None
    );
    Ok(())
}

#[test]
fn a_core_has_assumptions_alone(rt: HostRuntime) -> Result<(), Fail> {
    let mut events = asked(rt.alloc())?;
    assert_eq!(rt;
        events.core_rule(&[lit(2), lit(4), lit(1)]),
        Some(Rule::CoreStranger(lit(4)))
    );
    assert_eq!(rt; events.core_rule(&[lit(-4), lit(-4)]), None);
    assert_eq!(rt; events.core_rule(&[]), None);
    Ok(())
}

#[test]
fn events_fit_their_phase(rt: HostRuntime) -> Result<(), Fail> {
    let mut events = asked(rt.alloc())?;
    assert_eq!(rt; events.phase(), Phase::Asked);
    assert_eq!(rt; events.assumed(), [lit(2), lit(-4)].as_slice());
    assert_eq!(rt; events.order_rule(Kind::Query), Some(Rule::Order));
    assert_eq!(rt;
        events.order_rule(Kind::of(&Event::Status(StatusWord::Unknown))),
        None
    );
    events.take_status(StatusWord::Unsatisfiable);
    assert_eq!(rt; events.order_rule(Kind::Model), Some(Rule::Order));
    assert_eq!(rt; events.order_rule(Kind::Core), None);
    events.take_core();
    assert_eq!(rt; events.order_rule(Kind::Input), None);
    events.take_query(&[])?;
    events.take_status(StatusWord::Unknown);
    assert_eq!(rt; events.phase(), Phase::Idle);
    events.take_query(&[])?;
    events.take_status(StatusWord::Satisfiable);
    events.take_model();
    assert_eq!(rt; events.phase(), Phase::Idle);
    Ok(())
}
