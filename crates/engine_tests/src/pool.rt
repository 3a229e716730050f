// Entries that are added, changed and freed, and random calls held against a plain list.
use crate::plain::Plain;
use lit_pool::{Pool, Slot, Which};
use lits::Lit;
use std::alloc::{AllocError, Global};
use std::test::Fail;

fn lit(n: i64) -> Result<Lit, Fail> {
    Ok(Lit::new(n).ok_or("no literal")?)
}

#[test]
fn an_entry_is_added_and_changed(rt: HostRuntime) -> Result<(), Fail> {
    let two = [lit(1)?, lit(-2)?];
    let mut pool = Pool::new(rt.alloc());
    let s = pool.add(&two)?;
    pool.swap(s, 0, 1);
    pool.set_link(s, Which::Two, Some(s));
    assert_eq!(rt; pool.link(s, Which::One), None);
    assert_eq!(rt; pool.link(s, Which::Two), Some(s));
    assert_eq!(rt; pool.at(s, 1).number(), 1);
    let lits = pool.lits(s);
    assert_eq!(rt; lits.len(), 2);
    assert_eq!(rt; lits[0].number(), -2);
    assert_eq!(rt; lits[1].number(), 1);
    Ok(())
}

#[test]
fn a_slot_is_made_of_its_number(rt: HostRuntime) {
    assert_eq!(rt; Slot::from_number(7).number(), 7);
}

#[test]
fn an_entry_is_freed_beside_another(rt: HostRuntime) -> Result<(), Fail> {
    let mut pool = Pool::new(rt.alloc());
    let a = pool.add(&[])?;
    let b = pool.add(&[])?;
    assert!(rt; a != b);
    assert_eq!(rt; pool.count(), 2);
    pool.free(a);
    assert_eq!(rt; pool.count(), 1);
    assert_eq!(rt; pool.lits(b).len(), 0);
    Ok(())
}

/// The list of the literals of the variables from 1 on, in turn plain and negated.
fn many(alloc: Global, count: usize) -> Result<Vec<Lit>, Fail> {
    let mut lits = Vec::new(alloc);
    for n in 0..count {
        let var = (n % 10_000) as i64 + 1;
        lits.push(lit(if n % 2 == 0 { var } else { -var })?)?;
    }
    Ok(lits)
}

#[test]
fn entries_of_all_lengths_are_freed_in_another_order(rt: HostRuntime) -> Result<(), Fail> {
    let alloc = rt.alloc();
    let mut pool = Pool::new(alloc);
    let long = many(alloc, 1000)?;
    let none = pool.add(&[])?;
    let one = pool.add(&many(alloc, 1)?)?;
    let two = pool.add(&many(alloc, 2)?)?;
    let all = pool.add(&long)?;
    for s in [none, one, two, all] {
        assert!(rt; pool.is_live(s));
        pool.set_link(s, Which::One, Some(all));
        assert!(rt; pool.is_live(s));
        pool.set_link(s, Which::Two, Some(none));
    }
    for (left, s) in [(4, two), (3, none), (2, all), (1, one)] {
        assert_eq!(rt; pool.count(), left);
        assert!(rt; pool.is_live(s));
        assert_eq!(rt; pool.link(s, Which::One), Some(all));
        assert!(rt; long.starts_with(pool.lits(s)));
        pool.free(s);
        assert!(rt; !pool.is_live(s));
    }
    assert_eq!(rt; pool.count(), 0);
    Ok(())
}

#[test]
fn a_freed_piece_serves_a_later_entry(rt: HostRuntime) -> Result<(), Fail> {
    let alloc = rt.alloc();
    let mut pool = Pool::new(alloc);
    let a = pool.add(&many(alloc, 3)?)?;
    let b = pool.add(&many(alloc, 1000)?)?;
    assert!(rt; pool.is_live(a));
    pool.free(a);
    assert!(rt; pool.is_live(b));
    pool.free(b);
    let c = pool.add(&many(alloc, 900)?)?;
    assert_eq!(rt; c, b);
    let d = pool.add(&many(alloc, 4)?)?;
    assert_eq!(rt; d, a);
    assert_eq!(rt; pool.link(d, Which::One), None);
    assert_eq!(rt; pool.lits(d).len(), 4);
    assert!(rt; pool.is_live(c));
    pool.free(c);
    // one unit for a list of at most 4 literals, 128 for one of 509 to 1,020, and 8 for one of 60: so 16 of these have the units of
    // the one that was freed
    let sixty = many(alloc, 60)?;
    let mut shorter = Vec::new(alloc);
    for _ in 0..16 {
        let s = pool.add(&sixty)?;
        assert!(rt; s.number() < 129);
        shorter.push(s)?;
    }
    for s in &shorter {
        assert!(rt; pool.is_live(*s) && pool.lits(*s) == sixty.as_slice());
    }
    let longest = many(alloc, 20_000)?;
    let e = pool.add(&longest)?;
    assert!(rt; pool.lits(e) == longest.as_slice());
    assert_eq!(rt; e.number(), 129);
    Ok(())
}

#[test]
fn freed_pieces_side_by_side_serve_a_long_entry(rt: HostRuntime) -> Result<(), Fail> {
    let alloc = rt.alloc();
    let mut pool = Pool::new(alloc);
    let one = many(alloc, 1)?;
    let mut slots = Vec::new(alloc);
    for _ in 0..128 {
        slots.push(pool.add(&one)?)?;
    }
    for s in &slots {
        assert!(rt; pool.is_live(*s));
        pool.free(*s);
    }
    // the first block has places for 128 units, and each of them is a freed piece of its own
    let long = many(alloc, 900)?;
    let s = pool.add(&long)?;
    assert!(rt; pool.lits(s) == long.as_slice());
    assert!(rt; s.number() < 128);
    Ok(())
}

/// The next of a row of numbers that look like chance (D. H. Lehmer, 1949, with the numbers of D. E. Knuth).
fn next(state: &mut u64) -> usize {
    *state = state
        .wrapping_mul(6364136223846793005)
        .wrapping_add(1442695040888963407);
    (*state >> 33) as usize
}

/// An entry by its two names.
#[derive(Clone, Copy)]
struct Named {
    slot: Slot,
    number: usize,
}

/// The first two literals of an entry, if it is live and has so many.
fn pair_of(pool: &Pool, s: Slot) -> Option<(Lit, Lit)> {
    if !pool.is_live(s) || pool.lits(s).len() < 2 {
        return None;
    }
    Some(pool.pair(s))
}

/// Whether all entries are alike.
fn are_alike(pool: &Pool, plain: &Plain, entries: &[Named]) -> bool {
    for e in entries {
        if !pool.is_live(e.slot)
            || pool.lits(e.slot) != plain.lits(e.number)
            || pair_of(pool, e.slot) != plain.pair(e.number)
            || pool.link(e.slot, Which::One) != plain.link(e.number, Which::One)
            || pool.link(e.slot, Which::Two) != plain.link(e.number, Which::Two)
        {
            return false;
        }
    }
    pool.count() == plain.count()
}

/// One call of both pools, by chance.
fn call(
    state: &mut u64,
    long: &[Lit],
    pool: &mut Pool,
    plain: &mut Plain,
    entries: &mut Vec<Named>,
) -> Result<(), Fail> {
    let kind = next(state) % 8;
    if kind < 3 || entries.len() == 0 {
        let most = if kind == 0 { 200 } else { 12 };
        let count = next(state) % (most + 1);
        let first = next(state) % 100;
        if first + count <= long.len() {
            let lits = &long[first..first + count];
            entries.push(Named {
                slot: pool.add(lits)?,
                number: plain.add(lits)?,
            })?;
        }
        return Ok(());
    }
    let place = next(state) % entries.len();
    let Named { slot, number } = entries[place];
    if !pool.is_live(slot) {
        return Ok(());
    }
    let which = if next(state) % 2 == 0 {
        Which::One
    } else {
        Which::Two
    };
    if kind < 5 {
        pool.free(slot);
        plain.free(number);
        entries.swap_remove(place);
    } else if kind < 6 {
        let other = entries[next(state) % entries.len()].slot;
        let to = if next(state) % 4 == 0 {
            None
        } else {
            Some(other)
        };
        pool.set_link(slot, which, to);
        plain.set_link(number, which, to);
    } else {
        let count = pool.lits(slot).len();
        if count > 0 {
            let a = next(state) % count;
            let b = next(state) % count;
            pool.swap(slot, a, b);
            plain.swap(number, a, b);
        }
    }
    Ok(())
}

#[test]
fn the_pool_does_what_a_plain_list_does(rt: HostRuntime) -> Result<(), Fail> {
    let alloc = rt.alloc();
    let long = many(alloc, 300)?;
    let mut state = 2024;
    let mut pool = Pool::new(alloc);
    let mut plain = Plain::new(alloc);
    let mut entries = Vec::new(alloc);
    for _ in 0..2000 {
        call(&mut state, &long, &mut pool, &mut plain, &mut entries)?;
        assert!(rt; are_alike(&pool, &plain, &entries));
    }
    assert!(rt; entries.len() > 10);
    // some 750 entries were added, of about 7 units in the middle: without those that were freed there would be over 5,000
    let last = pool.add(&long)?;
    assert!(rt; last.number() < 3500);
    for entry in &entries {
        assert!(rt; entry.slot.number() < 3500);
    }
    Ok(())
}
