// A tie, scores that stay at the end and are scaled to a tie, and a thousand operations held against a plain scan.
ghost use Rattle.std.specs.Prelude.{◌<◌, ◌≤◌, IfSome};

use decide_order::Order;
use std::test::Fail;

#[test]
fn the_least_variable_is_taken_on_a_tie(rt: HostRuntime) -> Result<(), Fail> {
    let mut order = Order::new(rt.alloc());
    order.reserve(4)?;
    order.raise(4, 1);
    order.raise(2, 1);
    order.insert(4);
    order.insert(2);
    assert_eq!(rt; order.take_best(), Some(2));
    assert_eq!(rt; order.take_best(), Some(4));
    assert_eq!(rt; order.take_best(), None);
    Ok(())
}

#[test]
fn scores_stay_at_the_end_and_tie_when_scaled(rt: HostRuntime) -> Result<(), Fail> {
    let mut order = Order::new(rt.alloc());
    order.reserve(4)?;
    order.raise(3, u64::MAX);
    order.raise(3, 5);
    order.raise(4, u64::MAX);
    order.raise(1, u64::MAX - 1);
    order.insert(4);
    order.insert(3);
    order.insert(1);
    assert_eq!(rt; order.take_best(), Some(3));
    order.scale(1);
    assert_eq!(rt; order.take_best(), Some(1));
    assert_eq!(rt; order.take_best(), Some(4));
    Ok(())
}

#[test]
fn a_score_that_is_set_moves_the_member(rt: HostRuntime) -> Result<(), Fail> {
    let mut order = Order::new(rt.alloc());
    order.reserve(4)?;
    order.raise(3, 7);
    order.insert(1);
    order.insert(2);
    order.insert(3);
    order.set(3, 4);
    order.set(2, 5);
    assert_eq!(rt; order.score(3), 4);
    assert_eq!(rt; order.take_best(), Some(2));
    assert_eq!(rt; order.take_best(), Some(3));
    assert_eq!(rt; order.take_best(), Some(1));
    Ok(())
}

/// The best member, by a look at each.
fn scan(scores: &[u64; 40], members: &[bool; 40]) -> Option<u32>
    ensures { IfSome result (λ v. (0 < v) × (v ≤ 40)) }
{
    let mut found = false;
    let mut best = 0usize;
    for i in 0..40usize {
        if members[i] && (!found || scores[i] > scores[best]) {
            found = true;
            best = i;
        }
    }
    if found { Some(best as u32 + 1) } else { None }
}

#[test]
fn a_thousand_operations_agree_with_a_scan(rt: HostRuntime) -> Result<(), Fail> {
    let mut order = Order::new(rt.alloc());
    order.reserve(40)?;
    let mut scores = [0u64; 40];
    let mut members = [false; 40];
    let mut state = 1u64;
    for step in 0..1000usize {
        state = state
            .wrapping_mul(6_364_136_223_846_793_005)
            .wrapping_add(1_442_695_040_888_963_407);
        let i = (state >> 33) as usize % 40;
        match (state >> 59) % 16 {
            0 => {
                let bits = i as u32 % 4;
                order.scale(bits);
                for k in 0..40usize {
                    scores[k] >>= bits;
                }
            }
            1..=4 => {
                let best = scan(&scores, &members);
                assert_eq!(rt; order.take_best(), best, "step {step}");
                if let Some(var) = best {
                    members[var as usize - 1] = false;
                }
            }
            5..=9 => {
                order.insert(i as u32 + 1);
                members[i] = true;
            }
            _ => {
                let by = (state >> 40) % 50;
                order.raise(i as u32 + 1, by);
                scores[i] = scores[i].saturating_add(by);
            }
        }
    }
    Ok(())
}
