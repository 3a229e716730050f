// Two lists that are numbered, one that is looked up, and one with an unknown variable.

use lits::Lit;
use numbered_lits::Numbers;
use std::test::Fail;

// The literal of a number, or the default for a number that has none.
fn lit(n: i64) -> Lit {
    Lit::new(n).unwrap_or(Lit::default())
}

#[test]
fn lists_are_translated_as_they_come(rt: HostRuntime) -> Result<(), Fail> {
    let mut numbers = Numbers::new(rt.alloc());
    assert_eq!(rt; numbers.count(), 0);
    numbers.number(&[lit(-7), lit(3), lit(7)])?;
    assert_eq!(rt; numbers.lits(), [lit(-1), lit(2), lit(1)].as_slice());
    numbers.number(&[lit(9), lit(-3)])?;
    assert_eq!(rt; numbers.lits(), [lit(3), lit(-2)].as_slice());
    assert_eq!(rt; numbers.count(), 3);
    assert_eq!(rt; numbers.find(&[lit(3), lit(-9)])?, true);
    assert_eq!(rt; numbers.lits(), [lit(2), lit(-3)].as_slice());
    assert_eq!(rt; numbers.find(&[lit(3), lit(4)])?, false);
    assert_eq!(rt; numbers.dense().find(9), Some(3));
    Ok(())
}
