// The header and the line of each step, byte for byte.
use icnf_lines::write_header;
use lidrup_lines::{write_id, write_lemma, write_line};
use lits::{Lit, Lits};
use outside::MemorySink;
use session_rules::{Id, Ids, LStep, StatusWord};
use std::alloc::{AllocError, Global};
use std::process::Abort;
use std::test::Fail;

// A list of the literals that numbers are written for.
fn lits(rt: &impl Abort, alloc: Global, numbers: &[i64]) -> Result<Lits, AllocError> {
    let mut list = Lits::new(alloc);
    for n in numbers {
        list.push(Lit::new(*n).expect(rt, "a literal"))?;
    }
    Ok(list)
}

// A list of ids.
fn ids(alloc: Global, numbers: &[Id]) -> Result<Ids, AllocError> {
    Ok(Ids::from_vec(numbers.to_vec(alloc)?))
}

#[test]
fn each_step_has_its_line(rt: HostRuntime) -> Result<(), Fail> {
    let alloc = rt.alloc();
    let mut sink = MemorySink::new(alloc, 7, Vec::new(alloc));
    let mut room = 1_000;
    assert_eq!(rt; write_header(&mut sink, &mut room, b"lidrup"), Ok(()));
    let steps = [
        LStep::Input {
            id: 1,
            lits: lits(&rt, alloc, &[1, -2])?,
        },
        LStep::Query(lits(&rt, alloc, &[-1])?),
        LStep::Lemma {
            id: 9_223_372_036_854_775_807,
            lits: lits(&rt, alloc, &[-2])?,
            hints: ids(alloc, &[2, 1])?,
        },
        LStep::Weaken(ids(alloc, &[1, 2])?),
        LStep::Restore(ids(alloc, &[2])?),
        LStep::Delete(ids(alloc, &[])?),
        LStep::Status(StatusWord::Satisfiable),
        LStep::Model(lits(&rt, alloc, &[1])?),
        LStep::Status(StatusWord::Unsatisfiable),
        LStep::Core {
            lits: lits(&rt, alloc, &[-1])?,
            hints: ids(alloc, &[3])?,
        },
    ];
    for step in &steps {
        assert_eq!(rt; write_line(&mut sink, &mut room, step), Ok(()));
    }
    let lemma = lits(&rt, alloc, &[])?;
    assert_eq!(rt;
        write_lemma(&mut sink, &mut room, 4, lemma.as_slice(), &[3, 2, 1]),
        Ok(())
    );
    assert_eq!(rt; write_id(&mut sink, &mut room, b'd', 12), Ok(()));
    let text =
        b"p lidrup\ni 1 1 -2 0\nq -1 0\nl 9223372036854775807 -2 0 2 1 0\nw 1 2 0\nr 2 0\nd 0\ns SATISFIABLE\nm 1 0\ns UNSATISFIABLE\nu -1 0 3 0\nl 4 0 3 2 1 0\nd 12 0\n";
    assert_eq!(rt; sink.bytes(), text.as_slice());
    assert_eq!(rt; room, 1_000 - text.len() as u64);
    Ok(())
}
