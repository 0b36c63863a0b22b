//! Shares.

ghost use Rattle.std.specs.Prelude.{◌≡◌, ◌≤◌, ◌^◌, ◌↔◌, IsSome, IfSome};
ghost use Rattle.std.specs.declared.cmp.Ordering.TheVariants.{Less, Equal, Greater};
ghost use Rattle.tally_frac.specs.Fraction.{IsGreater, IsLevel, whole_part};

use std::cmp::Ordering;
use std::marker::Model;

/// The greatest numerator and denominator of a share, 10^18.
const LARGEST_TERM: u64 = 1_000_000_000_000_000_000;

/// A fraction of whole numbers, as the votes of a list over its divisor. Its denominator is at
/// least 1, and both numbers are at most 10^18. Contracts see the fraction as it was given, which
/// need not be in lowest terms.
#[derive(Clone, Copy, Debug)]
pub struct Share {
    num: u64,
    den: u64,
}

impl Model for Share {
    ghost use Rattle.std.specs.Prelude.{◌≤◌, ◌^◌};
    ghost use Rattle.tally_frac.specs.Fraction.{Fraction};

    ghost Value = { Fraction };

    ghost view = { λ s. record { num = s.num; den = s.den } };

    ghost invariant = { λ s. (1 ≤ s.den) × (s.den ≤ 10 ^ 18) × (s.num ≤ 10 ^ 18) };

    ghost inverse = { λ x. record { num = x.num; den = x.den } };
}

impl Share {
    /// The fraction `num / den`, or `None` where `den` is 0 or either number is above 10^18.
    pub fn new(num: u64, den: u64) -> Option<Share>
        ensures limits { IsSome result ↔ ((1 ≤ den) × (den ≤ 10 ^ 18) × (num ≤ 10 ^ 18)) }
        ensures value { IfSome result (λ share. share ≡ record { num = num; den = den }) }
    {
        if den == 0 || den > LARGEST_TERM || num > LARGEST_TERM {
            return None;
        }
        Some(Share { num, den })
    }

    /// How this share's value compares with another's.
    pub fn cmp_value(&self, other: &Share) -> Ordering
        ensures greater { (result ≡ Greater) ↔ IsGreater self.now other.now }
        ensures level { (result ≡ Equal) ↔ IsLevel self.now other.now }
        ensures less { (result ≡ Less) ↔ IsGreater other.now self.now }
    {
        // Two numbers of up to 10^18 have a product of up to 10^36, which 64 bits do not hold.
        let mine = u128::from(self.num) * u128::from(other.den);
        let theirs = u128::from(other.num) * u128::from(self.den);
        mine.cmp(&theirs)
    }

    /// The whole part, rounded down.
    pub fn floor(&self) -> u64
        ensures { result ≡ whole_part self.now }
    {
        self.num / self.den
    }
}
