//! Profiles: how the seats of a constituency are allotted.

ghost use Rattle.std.specs.Prelude.{◌≡◌, ◌↔◌, None};
ghost use Rattle.tally_setup.specs.Method.{divisor_rule_of, method_named};
ghost use Rattle.tally_setup.specs.declared.profile.Method.TheVariants.{Hare as by_hare};

use tally_frac::DivisorRule;

/// How votes become seats.
#[derive(Clone, Copy, Debug, PartialEq, Eq)]
pub enum Method {
    /// Division by 1, 2, 3 and so on: the method of LOREG article 163.1 b) and c).
    DHondt,
    /// Division by 1, 3, 5 and so on, also Webster's method.
    SainteLague,
    /// Division by 1.4, 3, 5 and so on, the first divisor of the Scandinavian election laws.
    ModifiedSainteLague,
    /// Whole quotas and then the greatest remainders, also Hamilton's method.
    Hare,
}

impl Method {
    /// The method of a word of a setup, such as `modified-sainte-lague`.
    pub fn named(word: &str) -> Option<Method>
        ensures { result ≡ method_named word.now }
    {
        match word {
            "dhondt" => Some(Method::DHondt),
            "sainte-lague" => Some(Method::SainteLague),
            "modified-sainte-lague" => Some(Method::ModifiedSainteLague),
            "hare" => Some(Method::Hare),
            _ => None,
        }
    }

    /// The divisor rule, and `None` for Hare's method, which has no divisors.
    pub fn divisor_rule(&self) -> Option<DivisorRule>
        ensures rule { result ≡ divisor_rule_of self.now }
        ensures none { (result ≡ None) ↔ (self.now ≡ by_hare) }
    {
        match self {
            Method::DHondt => Some(DivisorRule::DHondt),
            Method::SainteLague => Some(DivisorRule::SainteLague),
            Method::ModifiedSainteLague => Some(DivisorRule::ModifiedSainteLague),
            Method::Hare => None,
        }
    }
}

/// The votes that a threshold is a part of.
#[derive(Clone, Copy, Debug, PartialEq, Eq)]
pub enum Base {
    /// The valid votes: those of the lists and the blank ones (LOREG article 96.5).
    Valid,
    /// The votes of the lists alone.
    Lists,
}

/// How the order of a lot decides among lists whose quotients and votes are equal.
#[derive(Clone, Copy, Debug, PartialEq, Eq)]
pub enum LotRule {
    /// The order of the lot decides every tie.
    Fixed,
    /// Where the seat that lists tie for is an even one of theirs, the second, the fourth and so
    /// on, the order of the lot is turned round. Hare's method reads it as fixed.
    Alternating,
}

/// The rule of allotment of a constituency.
#[derive(Clone, Copy, Debug, PartialEq, Eq)]
pub struct Profile {
    /// How votes become seats.
    pub method: Method,
    /// The part of the base that a list has to reach, in ten-thousandths, 0 to 10,000. LOREG
    /// article 163.1 a) has 300, which is 3 per cent.
    pub threshold: u32,
    /// The votes that the threshold is a part of.
    pub base: Base,
    /// How a lot decides.
    pub lot: LotRule,
}
