// Lines that are read by their letter, and one whose word is no number.
use line_reading::{Spare, enter_line, literals_body, literals_ids_body, peek_letter, status_body};
use outside::MemorySource;
use session_rules::{Letter, LineFault, Rule, StatusWord};
use slice_tokens::Window;
use std::alloc::{AllocError, Global};
use std::test::Fail;

// A source that gives these bytes in one piece.
fn source(alloc: Global, bytes: &[u8]) -> Result<MemorySource, AllocError> {
    let mut pieces = Vec::new(alloc);
    pieces.push(bytes.to_vec(alloc)?)?;
    Ok(MemorySource::new(pieces, Vec::new(alloc)))
}

#[test]
fn lines_are_read_by_their_letter(rt: HostRuntime) -> Result<(), Fail> {
    let alloc = rt.alloc();
    let mut source = source(
        alloc,
        b"c a comment\ni 3 -1 0\ns UNKNOWN\nu 2 0 7 0\nl 01 0\n",
    )?;
    let mut window = Window::new(alloc)?;
    let mut spare = Spare::new(alloc);
    assert_eq!(rt;
        enter_line(&mut window, &mut source).ok().flatten(),
        Some(Letter::Input)
    );
    let input = literals_body(&mut spare, &mut window, &mut source)
        .ok()
        .ok_or("input")?;
    assert_eq!(rt; input.len(), 2);
    spare.lits = Some(input);
    assert_eq!(rt;
        enter_line(&mut window, &mut source).ok().flatten(),
        Some(Letter::Status)
    );
    assert_eq!(rt;
        status_body(&mut window, &mut source).ok(),
        Some(StatusWord::Unknown)
    );
    assert_eq!(rt;
        enter_line(&mut window, &mut source).ok().flatten(),
        Some(Letter::Core)
    );
    let (core, hints) = literals_ids_body(&mut spare, &mut window, &mut source)
        .ok()
        .ok_or("core")?;
    assert_eq!(rt; core.len(), 1);
    assert_eq!(rt; hints.as_slice(), [7].as_slice());
    assert_eq!(rt;
        enter_line(&mut window, &mut source).ok().flatten(),
        Some(Letter::Lemma)
    );
    let fault = literals_body(&mut spare, &mut window, &mut source).err();
    assert_eq!(rt; fault, Some(LineFault::Syntax(Rule::Number)));
    assert_eq!(rt; window.line(), 5);
    Ok(())
}

#[test]
fn a_letter_is_seen_before_it_is_taken(rt: HostRuntime) -> Result<(), Fail> {
    let alloc = rt.alloc();
    let mut source = source(alloc, b"c v\nv 1 0\n\nvv 2 0\n")?;
    let mut window = Window::new(alloc)?;
    let mut spare = Spare::new(alloc);
    for _ in 0..2usize {
        assert_eq!(rt;
            peek_letter(&mut window, &mut source),
            Ok(Some(Letter::Values))
        );
        assert_eq!(rt; window.line(), 2);
    }
    assert_eq!(rt;
        enter_line(&mut window, &mut source),
        Ok(Some(Letter::Values))
    );
    let values = literals_body(&mut spare, &mut window, &mut source)
        .ok()
        .ok_or("values")?;
    assert_eq!(rt; values.len(), 1);
    assert_eq!(rt;
        peek_letter(&mut window, &mut source),
        Ok(Some(Letter::NoLetter))
    );
    assert_eq!(rt;
        enter_line(&mut window, &mut source),
        Err(LineFault::Syntax(Rule::Letter))
    );
    assert_eq!(rt; peek_letter(&mut window, &mut source), Ok(None));
    assert_eq!(rt; window.line(), 5);
    Ok(())
}
