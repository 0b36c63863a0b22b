//! The laws of what happens to a keeper. The functions do nothing: each contract is a law.

ghost use Rattle.tally_theorems.specs.KeeperLaws as law;

use tally_machine::laws as machine;

/// The acts of a keeper from one state to another are a run of the machine, so that the laws of the
/// machine hold of it. A keeper that a failed disk has shut has no state, and its answers are those
/// of a run up to then.
pub fn the_run_of_a_keeper_is_a_run()
    ensures shut { law.AnswersOfAShutKeeperAreARun }
    ensures open { law.RequestsOfAKeeperAreARun }
{}

/// An import is the run of its Lodge commands, one by one, bad rows passed over, and its count is
/// that of the answers.
pub fn an_import_is_a_run()
    ensures { law.ImportsAreRuns }
{}

/// Requests and imports in any order are a run of the machine with the answers that they got, so
/// that the laws of the machine hold of them; with a keeper that a failed disk has shut, up to
/// then.
pub fn requests_and_imports_are_a_run()
    ensures shut { law.WhatHappensToAShutKeeperIsARun }
    ensures open { law.WhatHappensToAKeeperIsARun }
{}

/// Whatever happens to a keeper, its state stays lawful.
pub fn a_keeper_keeps_a_lawful_state()
    ensures { law.KeepersKeepStatesLawful }
{}

/// Whatever happened to a keeper since its state was a lawful one, as the opening one is, a
/// certified constituency has all its stations closed, exactly its seats are allotted, by the one
/// allotment of its closed votes, and a lot is recorded wherever one is needed.
pub fn a_certificate_of_a_keeper_is_of_closed_votes()
    ensures { law.CertificatesOfKeepersAreRight }
{
    // Called for what its contract says: the same law of the runs of the machine.
    machine::a_certificate_is_of_closed_votes();
}

/// A certificate that was reopened stays on record, word for word, whatever happens to a keeper.
pub fn records_stay()
    ensures { law.RecordsOfKeepersStay }
{
    // Called for what its contract says: the same law of the runs of the machine.
    machine::records_stay();
}

/// A certificate on record after all that happened to a keeper was on record before, with the same
/// seats, or one of its requests reopened it: then the seats are the one allotment of the closed
/// votes in the state that the keeper had, in which the constituency was certified at that edition.
pub fn records_are_of_allotments()
    ensures { law.RecordsOfKeepersAreOfAllotments }
{
    // Called for what its contract says: the same law of the runs of the machine.
    machine::records_are_of_allotments();
}

/// No two equal requests of all that happened to a keeper acted: where one acted, the same one at a
/// later place did not, whatever came between. The rows of imports count as requests.
pub fn no_two_equal_requests_act()
    ensures { law.NoTwoEqualRequestsAct }
{}

/// Where the returns of a constituency are entered twice, each closed one was, whatever happened to
/// a keeper since its content was the opening state of its setup: a request, or a row of an import,
/// brought it, and a later request brought the same slip and counts, with no other act on the
/// station between them or after. So in a certified constituency every vote that counts was typed
/// twice, and the same.
pub fn what_counts_was_entered_twice()
    ensures requests { law.ClosedReturnsOfRequestsWereEnteredTwice }
    ensures open { law.ClosedReturnsOfKeepersWereEnteredTwice }
    ensures rows { law.ClosedReturnsOfRowsWereEnteredTwice }
    ensures shut { law.ClosedReturnsOfAShutKeeperWereEnteredTwice }
    ensures certified { law.CertifiedReturnsOfKeepersWereEnteredTwice }
{
    // Called for what its contract says: the same law of the runs of the machine.
    machine::what_counts_was_entered_twice();
}

/// Without what does not act, the same happens to a keeper, with the same answers, and it has the
/// same last state. That holds too where only some of it is left out.
pub fn what_does_not_act_can_be_left_out()
    ensures all { law.ActsAloneHappen }
    ensures some { law.EventsThatDoNotActCanBeLeftOut }
{}

/// An import lodges nothing when the same rows come again, whatever happened between.
pub fn the_same_import_again_lodges_nothing()
    ensures { law.TheSameImportLodgesNothing }
{}
