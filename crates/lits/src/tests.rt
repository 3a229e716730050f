// Words at the limits, a set and a list, and each printed form once.

use crate::{Dense, IdWord, Lit, LitSet, LitWord, Lits, MAX_VAR, id_word, literal_word};
use std::collections::{BTreeMap, HashSet};
use std::test::Fail;

// The literal of a number, or the default for a number that has none.
fn lit(n: i64) -> Lit {
    Lit::new(n).unwrap_or(Lit::default())
}

#[test]
fn literals_reach_the_limit(rt: HostRuntime) {
    let limit = MAX_VAR as i64;
    assert_eq!(rt; Lit::new(0), None);
    assert_eq!(rt; Lit::new(limit + 1), None);
    assert_eq!(rt; Lit::new(-limit - 1), None);
    assert_eq!(rt; Lit::new(i64::MIN), None);
    for (n, code) in [
        (1, 0),
        (-1, 1),
        (2, 2),
        (limit, 2 * limit - 2),
        (-limit, 2 * limit - 1),
    ] {
        let l = lit(n);
        assert_eq!(rt; l.code() as i64, code, "at {n}");
        assert_eq!(rt; l.number(), n);
        assert_eq!(rt; l.neg().number(), -n);
        assert_eq!(rt; l.var() as i64, n.abs());
        assert_eq!(rt; l.positive(), n > 0);
    }
}

#[test]
fn words_are_read_as_literals(rt: HostRuntime) -> Result<(), Fail> {
    let greatest = format!(in rt.alloc(); "-{}", MAX_VAR)?;
    let beyond = format!(in rt.alloc(); "{}", MAX_VAR as u64 + 1)?;
    assert_eq!(rt;
        literal_word(greatest.as_bytes()),
        LitWord::Value(lit(-(MAX_VAR as i64)))
    );
    assert_eq!(rt; literal_word(beyond.as_bytes()), LitWord::OutOfRange);
    for (word, want) in [
        ("0", LitWord::Zero),
        ("7", LitWord::Value(lit(7))),
        ("-120", LitWord::Value(lit(-120))),
        ("-0", LitWord::NotNumber),
        ("00", LitWord::NotNumber),
        ("01", LitWord::NotNumber),
        ("+1", LitWord::NotNumber),
        ("", LitWord::NotNumber),
        ("-", LitWord::NotNumber),
        ("--1", LitWord::NotNumber),
        ("1x", LitWord::NotNumber),
        ("18446744073709551617", LitWord::OutOfRange),
        ("-1111111111111111111111111111111", LitWord::OutOfRange),
        ("11111111111111111111111111111111", LitWord::OutOfRange),
        ("111111111111111111111111111111111", LitWord::NotNumber),
        ("-11111111111111111111111111111111", LitWord::NotNumber),
    ] {
        assert_eq!(rt; literal_word(word.as_bytes()), want, "at {word}");
    }
    Ok(())
}

#[test]
fn words_are_read_as_ids(rt: HostRuntime) {
    for (word, want) in [
        ("0", IdWord::Zero),
        ("1", IdWord::Value(1)),
        (
            "9223372036854775807",
            IdWord::Value(9_223_372_036_854_775_807),
        ),
        ("9223372036854775808", IdWord::OutOfRange),
        ("18446744073709551617", IdWord::OutOfRange),
        ("99999999999999999999999999999999", IdWord::OutOfRange),
        ("999999999999999999999999999999999", IdWord::NotNumber),
        ("-1", IdWord::NotNumber),
        ("01", IdWord::NotNumber),
        ("", IdWord::NotNumber),
    ] {
        assert_eq!(rt; id_word(word.as_bytes()), want, "at {word}");
    }
}

#[test]
fn sets_are_sorted(rt: HostRuntime) -> Result<(), Fail> {
    let set = LitSet::of(rt.alloc(), &[lit(2), lit(1), lit(2)])?;
    assert_eq!(rt; set.as_slice(), [lit(1), lit(2)].as_slice());
    assert!(rt; set.copy()? == set);
    assert!(rt; set.has(lit(2)));
    assert!(rt; !set.tautology());
    Ok(())
}

#[test]
fn sets_are_keys(rt: HostRuntime) -> Result<(), Fail> {
    let wide = LitSet::of(rt.alloc(), &[lit(-2), lit(2), lit(3)])?;
    let set = LitSet::of(rt.alloc(), &[lit(3), lit(2)])?;
    assert!(rt; wide.tautology());
    assert!(rt; set.is_part_of(&wide));
    let mut counts = BTreeMap::new(rt.alloc());
    counts.insert(wide, 1)?;
    counts.insert(set.copy()?, 5)?;
    assert_eq!(rt; counts.get(&set), Some(&5));
    Ok(())
}

#[test]
fn long_sets_spill(rt: HostRuntime) -> Result<(), Fail> {
    let mut list = Lits::new(rt.alloc());
    for n in 0..100u32 {
        list.push(lit(50 - (n % 50) as i64))?;
    }
    assert_eq!(rt; list.len(), 100);
    let set = LitSet::of(rt.alloc(), list.as_slice())?;
    assert_eq!(rt; set.len(), 50);
    assert!(rt; set.copy()? == set);
    let back = Lits::from_vec(list.into_vec());
    assert!(rt; !back.is_empty());
    Ok(())
}

#[test]
fn forms_are_printed(rt: HostRuntime) -> Result<(), Fail> {
    let mut list = Lits::new(rt.alloc());
    list.push(lit(-1))?;
    let text = format!(in rt.alloc(); "{:?}", list)?;
    assert_eq!(rt; text.as_str(), "Lits { items: [Lit { code: 1 }] }");
    let set = LitSet::of(rt.alloc(), list.as_slice())?;
    let text = format!(in rt.alloc(); "{:?}", set)?;
    assert_eq!(rt; text.as_str(), "LitSet { items: [Lit { code: 1 }] }");
    let mut seen = HashSet::new(rt.alloc());
    assert!(rt; seen.insert(lit(3))? && !seen.insert(lit(3))?);
    Ok(())
}

#[test]
fn variables_are_numbered_in_order(rt: HostRuntime) -> Result<(), Fail> {
    let mut dense = Dense::new(rt.alloc());
    assert_eq!(rt; dense.count(), 0);
    assert_eq!(rt; dense.find(1), None);
    for (var, number) in [
        (7, 1),
        (MAX_VAR, 2),
        (7, 1),
        (1, 3),
        (MAX_VAR, 2),
        (4097, 4),
        (4096, 5),
        (4097, 4),
    ] {
        assert_eq!(rt; dense.number(var)?, number, "at {var}");
        assert_eq!(rt; dense.find(var), Some(number));
    }
    assert_eq!(rt; dense.count(), 5);
    for var in [0, 2, 4095, 4098, MAX_VAR - 1, MAX_VAR + 1, u32::MAX] {
        assert_eq!(rt; dense.find(var), None, "at {var}");
    }
    for (number, var) in [(1, 7), (2, MAX_VAR), (3, 1), (4, 4097), (5, 4096)] {
        let back = if number <= dense.count() {
            dense.var(number)
        } else {
            0
        };
        assert_eq!(rt; back, var, "at {number}");
    }
    Ok(())
}

// The variable 20,000 is far when it comes, and the table has grown over it when the last ones come.
#[test]
fn the_table_grows_over_a_far_variable(rt: HostRuntime) -> Result<(), Fail> {
    let mut dense = Dense::new(rt.alloc());
    assert_eq!(rt; dense.number(20_000)?, 1);
    for var in 1..4000u32 {
        assert_eq!(rt; dense.number(5 * var)?, var + 1);
    }
    assert_eq!(rt; dense.number(30_000)?, 4001);
    assert_eq!(rt; dense.find(20_000), Some(1));
    assert_eq!(rt; dense.number(20_000)?, 1);
    assert_eq!(rt; dense.find(20_000), Some(1));
    assert_eq!(rt; dense.count(), 4001);
    Ok(())
}

#[test]
fn literals_are_translated(rt: HostRuntime) -> Result<(), Fail> {
    let mut dense = Dense::new(rt.alloc());
    assert_eq!(rt; dense.number_lit(lit(-9))?.number(), -1);
    assert_eq!(rt; dense.number_lit(lit(MAX_VAR as i64))?.number(), 2);
    assert_eq!(rt; dense.number_lit(lit(9))?.number(), 1);
    assert_eq!(rt; dense.find_lit(lit(-(MAX_VAR as i64))), Some(lit(-2)));
    assert_eq!(rt; dense.find_lit(lit(1)), None);
    let known = lit(-1);
    if known.var() <= dense.count() {
        assert_eq!(rt; dense.file_lit(known), lit(-9));
    }
    Ok(())
}

#[test]
fn variables_spread_evenly_are_found(rt: HostRuntime) -> Result<(), Fail> {
    let mut dense = Dense::new(rt.alloc());
    for number in 1..=3000u32 {
        assert_eq!(rt; dense.number(700_000 * number)?, number);
    }
    for number in 1..=3000u32 {
        assert_eq!(rt; dense.find(700_000 * number), Some(number));
    }
    assert_eq!(rt; dense.find(700_001), None);
    Ok(())
}
