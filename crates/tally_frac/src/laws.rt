//! The laws of fractions and ranks. The functions do nothing: each contract is a law.

ghost use Rattle.std.specs.Prelude.{ℕ, ◌≡◌, ◌*◌, ◌<◌, ◌≤◌, ◌⊎◌, ◌↔◌};
ghost use Rattle.std.specs.declared.cmp.Ordering.TheVariants.{Equal};
ghost use Rattle.tally_frac.specs.Fraction.{Fraction, IsGreater, IsLevel, whole_part};
ghost use Rattle.tally_frac.specs.LawStatements.{AreAlike, Chain, IsGreaterWhereAbove};
ghost use Rattle.tally_frac.specs.LawStatements.{IsLessWhereBelow, IsSameInAnyUnit};
ghost use Rattle.tally_frac.specs.LawStatements.{IsTransitiveAt, of_turned};
ghost use Rattle.tally_frac.specs.Rank.{Pair, RanksAboveByVotes, TiesByVotes, RanksAbove};
ghost use Rattle.tally_frac.specs.Rank.{TiesByVotesAndPlace, RanksAboveTurned, IsWithinLimits};
ghost use Rattle.tally_frac.specs.Rank.{turned_pair};

use crate::RankKey;

/// Of two fractions one is greater or they are level, and only one of these holds.
pub fn fractions_are_ordered()
    ensures total { (x y : Fraction) → IsGreater x y ⊎ (IsLevel x y ⊎ IsGreater y x) }
    ensures one_way { (x y : Fraction) → IsGreater x y → ¬ (IsGreater y x) }
    ensures not_level { (x y : Fraction) → IsGreater x y → ¬ (IsLevel x y) }
{}

/// A fraction that is greater than a greater one is greater.
pub fn greater_fractions_chain()
    ensures { (x y z : Fraction) → 1 ≤ x.den → IsTransitiveAt IsGreater x y z }
{}

/// Level fractions are of equal value: being level is an equivalence, holds between a fraction and
/// itself in other terms, and holds exactly where no third fraction distinguishes the two.
pub fn level_fractions_are_equal()
    ensures reflexive { (x : Fraction) → IsLevel x x }
    ensures symmetric { (x y : Fraction) → IsLevel x y → IsLevel y x }
    ensures transitive { (x y z : Fraction) → 1 ≤ y.den → IsTransitiveAt IsLevel x y z }
    ensures other_terms { (x : Fraction) (k : ℕ) →
        IsLevel x (record { num = k * x.num; den = k * x.den }) }
    ensures alike { (x y : Fraction) → 1 ≤ x.den → 1 ≤ y.den →
        IsLevel x y ↔ AreAlike x y }
{}

/// The whole part is the greatest whole number that is not above the fraction, and a greater
/// fraction has none that is less.
pub fn whole_parts_are_rounded_down()
    ensures greatest { (x : Fraction) (n : ℕ) → 1 ≤ x.den → (n ≤ whole_part x) ↔
        (n * x.den ≤ x.num) }
    ensures rises { (x y : Fraction) → 1 ≤ x.den → 1 ≤ y.den → IsGreater x y →
        whole_part y ≤ whole_part x }
{}

/// Quotients compare alike with the rule's unit and without it.
pub fn units_cancel()
    ensures greater { IsSameInAnyUnit IsGreater }
    ensures level { IsSameInAnyUnit IsLevel }
{}

/// Of two pairs one ranks above the other by votes or they tie, and only one of these holds.
pub fn weak_rank_is_ordered()
    ensures total { (p q : Pair) → RanksAboveByVotes p q ⊎
        (TiesByVotes p q ⊎ RanksAboveByVotes q p) }
    ensures one_way { (p q : Pair) → RanksAboveByVotes p q → ¬ (RanksAboveByVotes q p) }
    ensures not_tied { (p q : Pair) → RanksAboveByVotes p q → ¬ (TiesByVotes p q) }
{}

/// A pair that ranks by votes above one that ranks above a third ranks above the third. Pairs that
/// tie rank alike.
pub fn weak_ranks_chain()
    ensures above { Chain RanksAboveByVotes RanksAboveByVotes RanksAboveByVotes }
    ensures ties { Chain TiesByVotes TiesByVotes TiesByVotes }
    ensures tied_above { Chain TiesByVotes RanksAboveByVotes RanksAboveByVotes }
    ensures tied_below { Chain RanksAboveByVotes TiesByVotes RanksAboveByVotes }
{}

/// Two pairs that tie by votes have the same divisor, and so are for seats of the same number.
pub fn ties_have_one_divisor()
    ensures { (p q : Pair) → 1 ≤ p.votes → TiesByVotes p q → p.divisor ≡ q.divisor }
{}

/// Of two seats of one list the one with the lesser divisor ranks above.
pub fn earlier_seats_rank_above()
    ensures { (p q : Pair) → 1 ≤ p.votes → p.votes ≡ q.votes → p.divisor < q.divisor →
        RanksAboveByVotes p q }
{}

/// Of two pairs one ranks above the other, or they tie by votes and have the same place, and only
/// one of these holds.
pub fn strict_rank_is_ordered()
    ensures total { (p q : Pair) → RanksAbove p q ⊎
        (TiesByVotesAndPlace p q ⊎ RanksAbove q p) }
    ensures one_way { (p q : Pair) → RanksAbove p q → ¬ (RanksAbove q p) }
    ensures not_tied { (p q : Pair) → RanksAbove p q → ¬ (TiesByVotesAndPlace p q) }
{}

/// A pair that ranks above one that ranks above a third ranks above the third.
pub fn strict_ranks_chain()
    ensures { Chain RanksAbove RanksAbove RanksAbove }
{}

/// The order of keys is the strict rank, and keys are equal exactly where their pairs are.
pub fn keys_follow_the_strict_rank()
    ensures greater { IsGreaterWhereAbove ⟦<RankKey as Ord>⟧.cmp RanksAbove }
    ensures less { IsLessWhereBelow ⟦<RankKey as Ord>⟧.cmp RanksAbove }
    ensures equal { (p q : Pair) → (⟦<RankKey as Ord>⟧.cmp p q ≡ Equal) ↔ (p ≡ q) }
{}

/// Keys made with 61 less the place follow the strict rank that is turned round, in which pairs
/// that tie by votes go by later place. Such keys are made where a lot alternates and a seat is
/// even.
pub fn turned_keys_follow_the_turned_rank()
    ensures has_key { (p : Pair) → IsWithinLimits p → IsWithinLimits (turned_pair p) }
    ensures greater { IsGreaterWhereAbove (of_turned ⟦<RankKey as Ord>⟧.cmp) RanksAboveTurned }
    ensures less { IsLessWhereBelow (of_turned ⟦<RankKey as Ord>⟧.cmp) RanksAboveTurned }
{}
