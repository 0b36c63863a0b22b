//! Fractions, ranks, divisors and the threshold, on numbers.

use std::cmp::Ordering;
use tally_frac::{
    DHondt, DivisorRule, Divisors, ModifiedSainteLague, RankKey, SainteLague, Share, is_at_least,
};

/// How the values of two shares compare.
fn compared(left: (u64, u64), right: (u64, u64)) -> Option<Ordering> {
    Some(Share::new(left.0, left.1)?.cmp_value(&Share::new(right.0, right.1)?))
}

/// The whole part of a share, and 0 where there is no share.
fn floor(num: u64, den: u64) -> u64 {
    match Share::new(num, den) {
        Some(share) => share.floor(),
        None => 0,
    }
}

/// Whether of two pairs of votes, divisor and place the first ranks above the other.
fn ranks_above(above: (u64, u64, u32), below: (u64, u64, u32)) -> bool {
    let above = RankKey::new(above.0, above.1, above.2);
    let below = RankKey::new(below.0, below.1, below.2);
    above.is_some() && below.is_some() && above > below
}

/// The first, second, third and last divisor of a rule, and its unit.
fn divisors<D: Divisors>(rule: &D) -> [u64; 5] {
    [
        rule.nth(1),
        rule.nth(2),
        rule.nth(3),
        rule.nth(501),
        rule.unit(),
    ]
}

#[test]
fn seventeen_and_a_half_is_more_than_seventeen_and_a_third(rt: HostRuntime) {
    let long = (333_333_333_333_333_333, 999_999_999_999_999_999);
    assert!(rt; compared((35, 2), (52, 3)) == Some(Ordering::Greater));
    assert!(rt; compared((52, 3), (35, 2)) == Some(Ordering::Less));
    assert!(rt; compared((1, 3), long) == Some(Ordering::Equal));
    assert!(rt; compared((1, 0), (1, 1)).is_none());
    assert!(rt; floor(35, 2) == 17 && floor(52, 3) == 17);
    // by quotient; equal quotients, and more votes; votes alike, and the earlier place; the
    // greatest products
    assert!(rt; ranks_above((35, 2, 2), (52, 3, 1)));
    assert!(rt; ranks_above((200, 2, 2), (100, 1, 1)));
    assert!(rt; ranks_above((100, 1, 1), (100, 1, 2)));
    assert!(rt; ranks_above((5_000_000_000, 5_004, 60), (5_000_000_000, 5_005, 1)));
    // no votes, a divisor that no rule has, a place after the last
    for (votes, divisor, place) in [(0, 1, 1), (1, 5_006, 1), (1, 1, 61)] {
        assert!(rt; RankKey::new(votes, divisor, place).is_none());
    }
}

#[test]
fn the_rules_have_their_divisors_and_three_per_cent_is_reached_exactly(rt: HostRuntime) {
    assert!(rt; divisors(&DivisorRule::DHondt) == [1, 2, 3, 501, 1]);
    assert!(rt; divisors(&DivisorRule::SainteLague) == [1, 3, 5, 1001, 1]);
    assert!(rt; divisors(&DivisorRule::ModifiedSainteLague) == [7, 15, 25, 5005, 5]);
    assert!(rt; divisors(&DHondt) == [1, 2, 3, 501, 1]);
    assert!(rt; divisors(&SainteLague) == [1, 3, 5, 1001, 1]);
    assert!(rt; divisors(&ModifiedSainteLague) == [7, 15, 25, 5005, 5]);
    assert!(rt; is_at_least(300, 300, 10_000) && !is_at_least(299, 300, 10_000));
}
