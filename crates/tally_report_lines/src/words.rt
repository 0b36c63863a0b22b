//! The words that a setup has for a rule.

ghost use Rattle.std.specs.Prelude.{◌≡◌};
ghost use Rattle.tally_report_lines.specs.Words.{base_word, lot_rule_word, method_word};

use tally_setup::{Base, LotRule, Method};

/// `dhondt`, `sainte-lague`, `modified-sainte-lague` or `hare`.
pub fn method_word(method: Method) -> &'static str
    ensures { result.now ≡ method_word method }
{
    match method {
        Method::DHondt => "dhondt",
        Method::SainteLague => "sainte-lague",
        Method::ModifiedSainteLague => "modified-sainte-lague",
        Method::Hare => "hare",
    }
}

/// `valid` or `lists`.
pub fn base_word(base: Base) -> &'static str
    ensures { result.now ≡ base_word base }
{
    match base {
        Base::Valid => "valid",
        Base::Lists => "lists",
    }
}

/// `fixed` or `alternating`.
pub fn lot_rule_word(rule: LotRule) -> &'static str
    ensures { result.now ≡ lot_rule_word rule }
{
    match rule {
        LotRule::Fixed => "fixed",
        LotRule::Alternating => "alternating",
    }
}
