//! What is known of lots, by which the votes of a certificate allot its seats.

ghost use Rattle.tally_law.specs.LawStatements.{GroupsAreOfOneNumberOfVotes};
ghost use Rattle.tally_law.specs.LawStatements.{NoLotIsNeededWhereVotesDecide};

use tally_allot::laws;

/// The laws by which a lot that is to be taken is neither missing nor wrong.
pub(crate) fn laws_of_lots()
    ensures groups { GroupsAreOfOneNumberOfVotes }
    ensures never_both { NoLotIsNeededWhereVotesDecide }
{
    // Called for what its contract says: each call here is a law of lots.
    laws::groups_are_of_one_number_of_votes();
    laws::votes_decide_or_a_lot_is_needed();
}
