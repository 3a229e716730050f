// Lines through sinks that take a few bytes at a time, sinks that fail, and a line that is too long to be held back.
use line_writing::{Part, write_parts};
use lits::{Dense, Lit};
use outside::MemorySink;
use session_rules::WriteFault;
use std::alloc::{AllocError, Global};
use std::process::Abort;
use std::test::Fail;

const LINE: &[u8] = b"l 18446744073709551615 word -16777215 1 -10 0 0 9 10 99 100 0\n";

// The literal that a number is written for.
fn lit(rt: &impl Abort, n: i64) -> Lit {
    Lit::new(n).expect(rt, "a literal")
}

// Writes the line above.
fn write_one(rt: &impl Abort, sink: &mut MemorySink, room: &mut u64) -> Result<(), WriteFault> {
    let lits = [lit(rt, -16_777_215), lit(rt, 1), lit(rt, -10)];
    let parts = [
        Part::Id(u64::MAX),
        Part::Word(b"word"),
        Part::Lits(&lits),
        Part::Ids(&[0, 9, 10, 99, 100]),
    ];
    write_parts(sink, room, b'l', &parts)
}

#[test]
fn a_line_is_whole_in_writes_of_any_size(rt: HostRuntime) -> Result<(), Fail> {
    for most in [1, 7, 65_536] {
        let mut sink = MemorySink::new(rt.alloc(), most, Vec::new(rt.alloc()));
        let mut room = LINE.len() as u64 - 1;
        let answer = write_one(&rt, &mut sink, &mut room);
        assert_eq!(rt; answer, Err(WriteFault::Exhausted), "{most}");
        assert!(rt; sink.bytes().is_empty(), "{most}");
        assert_eq!(rt; room, LINE.len() as u64 - 1, "{most}");
        room += 1;
        assert_eq!(rt; write_one(&rt, &mut sink, &mut room), Ok(()), "{most}");
        assert_eq!(rt; sink.bytes(), LINE, "{most}");
        assert_eq!(rt; room, 0, "{most}");
    }
    Ok(())
}

#[test]
fn a_failed_write_leaves_a_first_part(rt: HostRuntime) -> Result<(), Fail> {
    for (most, writes) in [(1, 62), (7, 9), (65_536, 1)] {
        for call in 1..writes as u64 + 2 {
            let mut sink = MemorySink::new(rt.alloc(), most, vec![in rt.alloc(); call]?);
            let mut room = 100;
            let answer = write_one(&rt, &mut sink, &mut room);
            if call <= writes {
                assert_eq!(rt; answer, Err(WriteFault::Write), "{most} {call}");
                let done = most * (call as usize - 1);
                assert_eq!(rt; Some(sink.bytes()), LINE.get(..done), "{most} {call}");
                assert_eq!(rt; room, 100, "{most} {call}");
            } else {
                assert_eq!(rt; answer, Ok(()), "{most} {call}");
            }
        }
    }
    Ok(())
}

// A list of so many literals.
fn many(rt: &impl Abort, alloc: Global, count: u32) -> Result<Vec<Lit>, AllocError> {
    let mut lits = Vec::new(alloc);
    for _ in 0..count {
        lits.push(lit(rt, -16_777_215))?;
    }
    Ok(lits)
}

// The line has 20,004 bytes, and at most 2,048 are held back.
#[test]
fn a_long_line_takes_few_writes(rt: HostRuntime) -> Result<(), Fail> {
    let lits = many(&rt, rt.alloc(), 2_000)?;
    let parts = [Part::Lits(&lits)];
    let mut room = 20_004;
    let mut sink = MemorySink::new(rt.alloc(), 65_536, vec![in rt.alloc(); 11]?);
    assert_eq!(rt; write_parts(&mut sink, &mut room, b'q', &parts), Ok(()));
    assert_eq!(rt; sink.bytes().len(), 20_004);
    assert!(rt; sink.bytes().starts_with(b"q -16777215 -16777215 "));
    assert!(rt; sink.bytes().ends_with(b" -16777215 -16777215 0\n"));
    assert_eq!(rt; sink.bytes().iter().filter(|b| **b == b' ').count(), 2_001);
    assert_eq!(rt; room, 0);
    Ok(())
}

// The variables 7 and 2,147,483,647 have the numbers 1 and 2.
#[test]
fn variables_stand_in_place_of_their_numbers(rt: HostRuntime) -> Result<(), Fail> {
    let mut dense = Dense::new(rt.alloc());
    let _ = dense.number_lit(lit(&rt, 7))?;
    let _ = dense.number_lit(lit(&rt, 2_147_483_647))?;
    let lits = [lit(&rt, -2), lit(&rt, 1)];
    let parts = [Part::Numbered(&dense, &lits)];
    let mut room = 18;
    let mut sink = MemorySink::new(rt.alloc(), 65_536, Vec::new(rt.alloc()));
    assert_eq!(rt; write_parts(&mut sink, &mut room, b'l', &parts), Ok(()));
    assert_eq!(rt; sink.bytes(), b"l -2147483647 7 0\n".as_slice());
    assert_eq!(rt; room, 0);
    Ok(())
}
