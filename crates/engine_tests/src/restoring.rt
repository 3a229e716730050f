// One entry that is pushed, found, extended and taken out, and entries of which one asks for another.
ghost use Rattle.std.specs.Prelude.{◌≡◌, ◌∷◌, [], IfOk};
ghost use Rattle.lits.specs.Literal.{of_number, IsNumber};

use lits::{Lit, Lits};
use restore::{Elim, ElimList, Kept, KeptList, Stack, Values};
use std::alloc::Global;
use std::test::Fail;

/// A clause of two literals, with its id.
fn kept(alloc: Global, id: u64, first: i64, second: i64) -> Result<Kept, Fail>
    ensures { IfOk result (λ k. k.lits ≡ of_number first ∷ of_number second ∷ []) }
{
    let mut lits = Lits::new(alloc);
    lits.push(Lit::new(first).ok_or("no literal")?)?;
    lits.push(Lit::new(second).ok_or("no literal")?)?;
    Ok(Kept { id, lits })
}

#[test]
fn a_needed_variable_becomes_true_and_its_entry_is_taken_out(rt: HostRuntime) -> Result<(), Fail> {
    let alloc = rt.alloc();
    let mut clauses = KeptList::new(alloc);
    clauses.push(kept(alloc, 1, 1, 2)?)?;
    clauses.push(kept(alloc, 2, -1, 3)?)?;
    assert_eq!(rt; clauses.len(), 2);
    let mut stack = Stack::new(alloc);
    assert!(rt; stack.push(Elim { var: 1, clauses }).is_ok());
    assert!(rt; stack.has(1));

    let mut values = Values::new(alloc);
    values.reserve(3)?;
    values.set(3, true);
    stack.extend(&mut values);
    assert!(rt; values.get(1));
    assert!(rt; !values.get(2));
    assert!(rt; values.get(3));

    let out = stack.take_for(&[1])?;
    assert_eq!(rt; out.len(), 1);
    for entry in out.as_slice() {
        assert_eq!(rt; entry.var, 1);
        assert_eq!(rt; entry.clauses.len(), 2);
    }
    assert!(rt; !stack.has(1));
    Ok(())
}

/// An entry of one clause, that of its variable and another one.
fn entry(alloc: Global, var: u32, other: u32) -> Result<Elim, Fail>
    ensures { IfOk result (λ e. e.var ≡ var) }
{
    let mut clauses = KeptList::new(alloc);
    clauses.push(kept(alloc, var as u64, var as i64, other as i64)?)?;
    Ok(Elim { var, clauses })
}

#[test]
fn what_a_wanted_entry_holds_is_taken_out_with_it(rt: HostRuntime) -> Result<(), Fail> {
    let alloc = rt.alloc();
    let mut stack = Stack::new(alloc);
    for (var, other) in [(1, 2), (3, 4), (5, 3)] {
        assert!(rt; !stack.has(var));
        assert!(rt; stack.push(entry(alloc, var, other)?).is_ok());
    }
    let out: ElimList = stack.take_for(&[5])?;
    assert_eq!(rt; out.len(), 2);
    for (entry, var) in out.as_slice().iter().zip([3, 5]) {
        assert_eq!(rt; entry.var, var);
    }
    assert!(rt; stack.has(1));
    assert!(rt; !stack.has(3));
    assert!(rt; !stack.has(5));

    let mut chain = Stack::new(alloc);
    for var in 1..1002u32 {
        assert!(rt; !chain.has(var));
        assert!(rt; chain.push(entry(alloc, var, var + 1)?).is_ok());
    }
    assert_eq!(rt; chain.take_for(&[1])?.len(), 1001);
    assert!(rt; !chain.has(1001));
    Ok(())
}
