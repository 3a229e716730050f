// The header, the line of each event, and one for which there is no room.
use icnf_lines::{write_header, write_line};
use lits::{Lit, Lits};
use outside::MemorySink;
use session_rules::StatusWord::{Satisfiable, Unknown, Unsatisfiable};
use session_rules::{Event, WriteFault};
use std::alloc::{AllocError, Global};
use std::process::Abort;
use std::test::Fail;

// A list of the literals that numbers are written for.
fn lits(rt: &impl Abort, alloc: Global, numbers: &[i64]) -> Result<Lits, AllocError> {
    let mut list = Lits::new(alloc);
    for n in numbers {
        list.push(Lit::new(*n).expect(rt, "a literal"))?;
    }
    Ok(list)
}

#[test]
fn each_event_has_its_line(rt: HostRuntime) -> Result<(), Fail> {
    let alloc = rt.alloc();
    let mut sink = MemorySink::new(alloc, 7, Vec::new(alloc));
    let mut room = 1_000;
    assert_eq!(rt; write_header(&mut sink, &mut room, b"icnf"), Ok(()));
    let events = [
        Event::Input(lits(&rt, alloc, &[1, -2, 2_147_483_647])?),
        Event::Input(lits(&rt, alloc, &[])?),
        Event::Query(lits(&rt, alloc, &[-2, -2])?),
        Event::Status(Satisfiable),
        Event::Model(lits(&rt, alloc, &[-1, 2])?),
        Event::Status(Unsatisfiable),
        Event::Core(lits(&rt, alloc, &[-2])?),
        Event::Status(Unknown),
    ];
    for event in &events {
        assert_eq!(rt; write_line(&mut sink, &mut room, event), Ok(()));
    }
    let text =
        b"p icnf\ni 1 -2 2147483647 0\ni 0\nq -2 -2 0\ns SATISFIABLE\nm -1 2 0\ns UNSATISFIABLE\nu -2 0\ns UNKNOWN\n";
    assert_eq!(rt; sink.bytes(), text.as_slice());
    assert_eq!(rt; room, 1_000 - text.len() as u64);
    room = 12;
    assert_eq!(rt;
        write_line(&mut sink, &mut room, &events[3]),
        Err(WriteFault::Exhausted)
    );
    assert_eq!(rt; sink.bytes(), text.as_slice());
    Ok(())
}

#[test]
fn parts_of_answers_have_their_lines(rt: HostRuntime) -> Result<(), Fail> {
    let alloc = rt.alloc();
    let mut sink = MemorySink::new(alloc, 7, Vec::new(alloc));
    let mut room = 100;
    let values = Event::Values(lits(&rt, alloc, &[2, -1])?);
    let failed = Event::Failed(lits(&rt, alloc, &[])?);
    assert_eq!(rt; write_line(&mut sink, &mut room, &values), Ok(()));
    assert_eq!(rt; write_line(&mut sink, &mut room, &failed), Ok(()));
    assert_eq!(rt; sink.bytes(), b"v 2 -1 0\nf 0\n".as_slice());
    assert_eq!(rt; room, 87);
    Ok(())
}
