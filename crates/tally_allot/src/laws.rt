//! The laws of allotments and lots. The functions do nothing: each contract is a law.

ghost use Rattle.tally_law.specs.LawExample.{TheExampleByOtherMethods, TheExampleOfTheLaw};
ghost use Rattle.tally_law.specs.LawExample.{TheMethodsDiffer};
ghost use Rattle.tally_law.specs.LawStatements.{AllotmentsAreUnique, AllotmentsExist};
ghost use Rattle.tally_law.specs.LawStatements.{EachChoiceComesFromAnOrder, EachOrderGivesAChoice};
ghost use Rattle.tally_law.specs.LawStatements.{GroupsAreOfOneNumberOfVotes};
ghost use Rattle.tally_law.specs.LawStatements.{LotsChooseAmongWhatVotesAllow};
ghost use Rattle.tally_law.specs.LawStatements.{NoLotIsNeededWhereVotesDecide};
ghost use Rattle.tally_law.specs.LawStatements.{TheOrderOfTheSetupIsNothingWhereVotesDecide};
ghost use Rattle.tally_law.specs.LawStatements.{VotesDecideOrALotIsNeeded};

/// The definitions give the result that LOREG's article 163.1 c) prints for its example: of eight
/// seats, lists with 168,000, 104,000, 72,000 and 64,000 of 480,000 valid votes get 4, 2, 1 and 1,
/// those with 40,000 and 32,000 none. By the other methods the same votes get 3, 2, 1, 1, 1 and 0.
/// Of two seats, 53, 24 and 23 votes get 2, 0 and 0 by D'Hondt and by modified Sainte-Laguë, and 1,
/// 1 and 0 by Sainte-Laguë and by Hare.
pub fn the_example_of_the_law()
    ensures printed { TheExampleOfTheLaw }
    ensures other_methods { TheExampleByOtherMethods }
    ensures apart { TheMethodsDiffer }
{}

/// Under any lot, at most one vector of seats is the allotment.
pub fn allotments_are_unique()
    ensures { AllotmentsAreUnique }
{}

/// Wherever a list is eligible there is an allotment where no lot is drawn. Under the orders of a
/// group it is `each_order_gives_a_choice` that says so.
pub fn allotments_exist()
    ensures { AllotmentsExist }
{}

/// Whatever the lot, the allotment is one that the votes allow.
pub fn lots_choose_among_what_votes_allow()
    ensures { LotsChooseAmongWhatVotesAllow }
{}

/// Wherever a list is eligible, either the votes decide, or there are a group among which a lot is
/// needed and a number of seats in question; never both.
pub fn votes_decide_or_a_lot_is_needed()
    ensures either { VotesDecideOrALotIsNeeded }
    ensures never_both { NoLotIsNeededWhereVotesDecide }
{}

/// The group of a lot is all the eligible lists of one number of votes.
pub fn groups_are_of_one_number_of_votes()
    ensures { GroupsAreOfOneNumberOfVotes }
{}

/// Each order of the group gives an allotment, and it is one that the votes allow.
pub fn each_order_gives_a_choice()
    ensures { EachOrderGivesAChoice }
{}

/// Each allotment that the votes allow comes from some order of the group.
pub fn each_choice_comes_from_an_order()
    ensures { EachChoiceComesFromAnOrder }
{}

/// Where the votes decide, they decide in any other order of the lists in the setup, and each list
/// has the seats that it had.
pub fn the_order_of_the_setup_is_nothing_where_votes_decide()
    ensures { TheOrderOfTheSetupIsNothingWhereVotesDecide }
{}
