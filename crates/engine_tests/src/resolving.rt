// A resolvent with a shared literal, a tautology, the same set in another order, and what is held after another clause.
use lits::Lit;
use resolvents::{Resolver, is_tautology_of};
use std::test::Fail;

#[test]
fn shared_literals_are_listed_once(rt: HostRuntime) -> Result<(), Fail> {
    let one_two_three = [Lit::from_code(0), Lit::from_code(2), Lit::from_code(4)];
    let not_one_three_four = [Lit::from_code(1), Lit::from_code(4), Lit::from_code(6)];
    let not_one_not_two = [Lit::from_code(1), Lit::from_code(3)];
    let two = [Lit::from_code(2)];
    let mut resolver = Resolver::new(rt.alloc());
    resolver.reserve(4)?;
    resolver.hold(&one_two_three)?;
    assert!(rt; resolver.is_tautology_with(1, &not_one_not_two));
    assert!(rt; !resolver.is_tautology_with(1, &not_one_three_four));
    assert!(rt; is_tautology_of(1, &one_two_three, &not_one_not_two));
    assert!(rt; !is_tautology_of(1, &one_two_three, &not_one_three_four));
    let mut out = Vec::new(rt.alloc());
    resolver.resolve(1, &not_one_three_four, &mut out)?;
    let two_three_four = [Lit::from_code(2), Lit::from_code(4), Lit::from_code(6)];
    assert_eq!(rt; out.as_slice(), two_three_four.as_slice());
    let three_one_two = [Lit::from_code(4), Lit::from_code(0), Lit::from_code(2)];
    assert!(rt; resolver.is_same(&three_one_two));
    assert!(rt; !resolver.is_same(&two));
    resolver.hold(&two)?;
    assert_eq!(rt; resolver.held(), two.as_slice());
    assert!(rt; !resolver.is_tautology_with(1, &not_one_three_four));
    Ok(())
}
