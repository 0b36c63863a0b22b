//! The divisors of the divisor rules.

ghost use Rattle.std.specs.Prelude.{◌≡◌, ℕ, ◌<◌, ◌≤◌};
ghost use Rattle.tally_frac.specs.Divisors.{divisor_of, unit_of as unit_of_rule};
ghost use Rattle.tally_frac.specs.Limits.{greatest_divisor, last_divisor};
ghost use Rattle.tally_frac.specs.declared.divisors.DivisorRule.TheVariants as rule;
ghost use Rattle.tally_frac.specs.internal.DivisorLaws.{divisors-at_most, divisors-positive};
ghost use Rattle.tally_frac.specs.internal.DivisorLaws.{divisors-rise, units-from_one};
ghost use Rattle.tally_frac.specs.internal.DivisorLaws.{units-to_five};

/// The divisors of a divisor rule, counted from 1: the `k`th seat of a list has the quotient of its
/// votes by `nth(k) / unit()`. The unit is 1 where the divisors are whole numbers, and otherwise
/// the number, up to 5, that makes them whole.
pub trait Divisors {
    ghost divisor: { Self → ℕ → ℕ };

    ghost unit_of: { Self → ℕ };

    /// The `k`th divisor, in `unit()`ths, for `k` from 1 to 501: one more than the seats that a
    /// constituency may have.
    fn nth(&self, k: u32) -> u64
        requires first { 1 ≤ k }
        requires last { k ≤ last_divisor }
        ensures { result ≡ divisor self.now k };

    /// The number that each `nth(k)` is to be divided by, 1 to 5.
    fn unit(&self) -> u64
        ensures { result ≡ unit_of self.now };

    ghost positive: { (rule : Self) (k : ℕ) → 1 ≤ k → 1 ≤ divisor rule k };

    ghost rises: { (rule : Self) (j k : ℕ) → 1 ≤ j → j < k → divisor rule j < divisor rule k };

    ghost at_most: { (rule : Self) (k : ℕ) → 1 ≤ k → k ≤ last_divisor →
        divisor rule k ≤ greatest_divisor };

    ghost unit_from_one: { (rule : Self) → 1 ≤ unit_of rule };

    ghost unit_to_five: { (rule : Self) → unit_of rule ≤ 5 };
}

/// A divisor rule.
#[derive(Clone, Copy, Debug)]
pub enum DivisorRule {
    /// The divisors 1, 2, 3 and so on of D'Hondt's rule (LOREG article 163.1 b) and c)).
    DHondt,
    /// The odd divisors 1, 3, 5 and so on of Sainte-Laguë's rule.
    SainteLague,
    /// The divisors 1.4, 3, 5, 7 and so on of the modified rule of Sainte-Laguë, in fifths.
    ModifiedSainteLague,
}

impl Divisors for DivisorRule {
    ghost divisor = { divisor_of };

    ghost unit_of = { unit_of_rule };

    fn nth(&self, k: u32) -> u64 {
        let k = u64::from(k);
        match self {
            DivisorRule::DHondt => k,
            DivisorRule::SainteLague => 2 * k - 1,
            DivisorRule::ModifiedSainteLague => { if k == 1 { 7 } else { 10 * k - 5 } }
        }
    }

    fn unit(&self) -> u64 {
        match self {
            DivisorRule::DHondt => 1,
            DivisorRule::SainteLague => 1,
            DivisorRule::ModifiedSainteLague => 5,
        }
    }

    ghost positive = { divisors-positive };

    ghost rises = { divisors-rise };

    ghost at_most = { divisors-at_most };

    ghost unit_from_one = { units-from_one };

    ghost unit_to_five = { units-to_five };
}

/// The divisors of D'Hondt's rule, as a type of their own.
#[derive(Clone, Copy, Debug)]
pub struct DHondt;

impl Divisors for DHondt {
    ghost divisor = { λ _. divisor_of rule.DHondt };

    ghost unit_of = { λ _. unit_of_rule rule.DHondt };

    fn nth(&self, k: u32) -> u64 {
        DivisorRule::DHondt.nth(k)
    }

    fn unit(&self) -> u64 {
        DivisorRule::DHondt.unit()
    }

    ghost positive = { λ _. divisors-positive rule.DHondt };

    ghost rises = { λ _. divisors-rise rule.DHondt };

    ghost at_most = { λ _. divisors-at_most rule.DHondt };

    ghost unit_from_one = { λ _. units-from_one rule.DHondt };

    ghost unit_to_five = { λ _. units-to_five rule.DHondt };
}

/// The divisors of Sainte-Laguë's rule, as a type of their own.
#[derive(Clone, Copy, Debug)]
pub struct SainteLague;

impl Divisors for SainteLague {
    ghost divisor = { λ _. divisor_of rule.SainteLague };

    ghost unit_of = { λ _. unit_of_rule rule.SainteLague };

    fn nth(&self, k: u32) -> u64 {
        DivisorRule::SainteLague.nth(k)
    }

    fn unit(&self) -> u64 {
        DivisorRule::SainteLague.unit()
    }

    ghost positive = { λ _. divisors-positive rule.SainteLague };

    ghost rises = { λ _. divisors-rise rule.SainteLague };

    ghost at_most = { λ _. divisors-at_most rule.SainteLague };

    ghost unit_from_one = { λ _. units-from_one rule.SainteLague };

    ghost unit_to_five = { λ _. units-to_five rule.SainteLague };
}

/// The divisors of the modified rule of Sainte-Laguë, as a type of their own.
#[derive(Clone, Copy, Debug)]
pub struct ModifiedSainteLague;

impl Divisors for ModifiedSainteLague {
    ghost divisor = { λ _. divisor_of rule.ModifiedSainteLague };

    ghost unit_of = { λ _. unit_of_rule rule.ModifiedSainteLague };

    fn nth(&self, k: u32) -> u64 {
        DivisorRule::ModifiedSainteLague.nth(k)
    }

    fn unit(&self) -> u64 {
        DivisorRule::ModifiedSainteLague.unit()
    }

    ghost positive = { λ _. divisors-positive rule.ModifiedSainteLague };

    ghost rises = { λ _. divisors-rise rule.ModifiedSainteLague };

    ghost at_most = { λ _. divisors-at_most rule.ModifiedSainteLague };

    ghost unit_from_one = { λ _. units-from_one rule.ModifiedSainteLague };

    ghost unit_to_five = { λ _. units-to_five rule.ModifiedSainteLague };
}
