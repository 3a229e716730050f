// Clauses that come and go, and who is left in the lists.
use lits::Lit;
use occurrence_lists::Occurrences;
use std::test::Fail;

#[test]
fn a_clause_comes_and_goes(rt: HostRuntime) -> Result<(), Fail> {
    let one_two = [Lit::from_code(0), Lit::from_code(2)];
    let not_one_two = [Lit::from_code(1), Lit::from_code(2)];
    let mut lists = Occurrences::new(rt.alloc());
    lists.reserve(2)?;
    lists.add(7, &one_two)?;
    lists.add(9, &not_one_two)?;
    assert_eq!(rt; lists.ids(Lit::from_code(0)).len(), 1);
    assert_eq!(rt; lists.ids(Lit::from_code(2)).len(), 2);
    assert_eq!(rt; lists.ids(Lit::from_code(3)).len(), 0);
    lists.remove(7, &one_two);
    assert_eq!(rt; lists.ids(Lit::from_code(0)).len(), 0);
    assert_eq!(rt; lists.ids(Lit::from_code(2)).len(), 1);
    Ok(())
}
