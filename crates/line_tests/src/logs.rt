// The lines of told steps in both forms, and what a caller knows of a sink behind a log.

ghost use Rattle.std.specs.Prelude.{◌≤◌};

use lits::{Dense, Lit};
use outside::{MemorySink, Sink};
use session_rules::{Form, Log, LogFault};
use std::alloc::{AllocError, Global};
use std::test::Fail;
use step_log::StepLog;

// The literal of a number, or the default for a number that has none.
fn lit(n: i64) -> Lit {
    Lit::new(n).unwrap_or(Lit::default())
}

// The variables 7 and 2,147,483,647 have the numbers 1 and 2.
fn two_variables(alloc: Global) -> Result<Dense, AllocError> {
    let mut dense = Dense::new(alloc);
    let _ = dense.number(7)?;
    let _ = dense.number(2_147_483_647)?;
    Ok(dense)
}

// Tells one step of each kind.
fn tell_each<K: Sink>(sink: &mut K, dense: &Dense, form: Form, room: u64) -> Result<u64, LogFault>
    ensures { K.faults sink.old ≤ K.faults sink.new }
{
    let mut log = StepLog::new(sink, dense, form, room);
    log.lemma(5, &[lit(2), lit(-1)], &[4, 3])?;
    log.weaken(1, &[lit(1)])?;
    log.restore(1, &[lit(1)])?;
    log.delete(5, &[lit(2), lit(-1)])?;
    Ok(log.room())
}

#[test]
fn steps_are_written_in_both_forms(rt: HostRuntime) -> Result<(), Fail> {
    let dense = two_variables(rt.alloc())?;
    let by_literals = "l 2147483647 -7 0\nw 7 0\nr 7 0\nd 2147483647 -7 0\n";
    let by_ids = "l 5 2147483647 -7 0 4 3 0\nw 1 0\nr 1 0\nd 5 0\n";
    for (form, text) in [(Form::Idrup, by_literals), (Form::Lidrup, by_ids)] {
        let mut sink = MemorySink::new(rt.alloc(), 7, Vec::new(rt.alloc()));
        let room = text.len() as u64 + 3;
        assert_eq!(rt; tell_each(&mut sink, &dense, form, room), Ok(3));
        assert_eq!(rt; sink.bytes(), text.as_bytes());
        let mut sink = MemorySink::new(rt.alloc(), 7, Vec::new(rt.alloc()));
        let answer = tell_each(&mut sink, &dense, form, text.len() as u64 - 1);
        assert_eq!(rt; answer, Err(LogFault::Exhausted));
    }
    Ok(())
}
