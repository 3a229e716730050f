// The header and the line of each step, byte for byte.
use icnf_lines::write_header;
use idrup_lines::{write_line, write_lits};
use lits::{Lit, Lits};
use outside::MemorySink;
use session_rules::{Event, StatusWord, Step};
use std::alloc::{AllocError, Global};
use std::process::Abort;
use std::test::Fail;

// A list of the literals that numbers are written for.
fn lits(rt: &impl Abort, alloc: Global, numbers: &[i64]) -> Result<Lits, AllocError> {
    let mut list = Lits::new(alloc);
    for n in numbers {
        list.push(Lit::new(*n).expect(rt, "a literal"))?;
    }
    Ok(list)
}

#[test]
fn each_step_has_its_line(rt: HostRuntime) -> Result<(), Fail> {
    let alloc = rt.alloc();
    let mut sink = MemorySink::new(alloc, 7, Vec::new(alloc));
    let mut room = 1_000;
    let steps = [
        Step::Lemma(lits(&rt, alloc, &[10, -9])?),
        Step::Weaken(lits(&rt, alloc, &[1, -2])?),
        Step::Restore(lits(&rt, alloc, &[-2, 1])?),
        Step::Delete(lits(&rt, alloc, &[])?),
    ];
    for step in &steps {
        assert_eq!(rt; write_line(&mut sink, &mut room, step), Ok(()));
    }
    let text = b"l 10 -9 0\nw 1 -2 0\nr -2 1 0\nd 0\n";
    assert_eq!(rt; sink.bytes(), text.as_slice());
    assert_eq!(rt; room, 1_000 - text.len() as u64);
    Ok(())
}

#[test]
fn headers_events_and_single_lines_are_written(rt: HostRuntime) -> Result<(), Fail> {
    let alloc = rt.alloc();
    let mut sink = MemorySink::new(alloc, 7, Vec::new(alloc));
    let mut room = 1_000;
    let input = Step::Event(Event::Input(lits(&rt, alloc, &[1, -2])?));
    let status = Step::Event(Event::Status(StatusWord::Unknown));
    let lemma = lits(&rt, alloc, &[5])?;
    assert_eq!(rt; write_header(&mut sink, &mut room, b"idrup"), Ok(()));
    assert_eq!(rt; write_line(&mut sink, &mut room, &input), Ok(()));
    assert_eq!(rt; write_line(&mut sink, &mut room, &status), Ok(()));
    assert_eq!(rt;
        write_lits(&mut sink, &mut room, b'l', lemma.as_slice()),
        Ok(())
    );
    let text = b"p idrup\ni 1 -2 0\ns UNKNOWN\nl 5 0\n";
    assert_eq!(rt; sink.bytes(), text.as_slice());
    assert_eq!(rt; room, 1_000 - text.len() as u64);
    Ok(())
}
