// A variable of no clause, asked through the whole way from an engine and lists.
use elimination::{Board, is_eligible_on, would_be_eligible};
use lits::Lit;
use occurrence_lists::Occurrences;
use propagation::Engine;
use resolvents::Resolver;
use std::test::Fail;

#[test]
fn a_variable_of_no_clause_stays(rt: HostRuntime) -> Result<(), Fail> {
    let alloc = rt.alloc();
    let mut resolver = Resolver::new(alloc);
    resolver.reserve(3)?;
    let engine = Engine::new(alloc);
    let mut lists = Occurrences::new(alloc);
    lists.reserve(3)?;
    assert!(rt; !is_eligible_on(&mut resolver, &engine, &lists, 2, &[])?);
    assert!(rt; !would_be_eligible(&engine, &lists, 2, &[]));
    Ok(())
}

#[test]
fn inputs_are_numbered_from_one(rt: HostRuntime) -> Result<(), Fail> {
    let one_two = [Lit::from_code(0), Lit::from_code(2)];
    let mut board = Board::new(rt.alloc());
    board.reserve(3)?;
    assert_eq!(rt; board.admit(&one_two)?, 1);
    assert_eq!(rt; board.admit(&one_two)?, 2);
    assert_eq!(rt; board.next_id(), 3);
    Ok(())
}

#[test]
fn a_variable_of_one_input_is_eligible(rt: HostRuntime) -> Result<(), Fail> {
    let one_two = [Lit::from_code(0), Lit::from_code(2)];
    let mut board = Board::new(rt.alloc());
    board.reserve(3)?;
    board.admit(&one_two)?;
    assert!(rt; board.eligible(1, &[]));
    assert!(rt; !board.eligible(1, &[Lit::from_code(0)]));
    Ok(())
}
