//! The laws of the office's steps and runs. The functions do nothing: each contract is a law.

ghost use Rattle.tally_law.specs.LawStatements.{AllotmentsAreUnique, AllotmentsExist};
ghost use Rattle.tally_law.specs.LawStatements.{EachOrderGivesAChoice, GroupsAreOfOneNumberOfVotes};
ghost use Rattle.tally_law.specs.LawStatements.{NoLotIsNeededWhereVotesDecide};
ghost use Rattle.tally_law.specs.LawStatements.{VotesDecideOrALotIsNeeded};
ghost use Rattle.tally_machine_law.specs.Decisions as decision;
ghost use Rattle.tally_machine_law.specs.EnteredTwice as entries;
ghost use Rattle.tally_machine_law.specs.LawStatements as law;
ghost use Rattle.tally_machine_law.specs.Records as records;

use tally_allot::laws as allotment;

/// The state that an office opens with is lawful, a step from a lawful state leads to a lawful one,
/// and so does a run.
pub fn a_step_keeps_a_lawful_state()
    ensures opening { law.OpeningStatesAreLawful }
    ensures step { law.StepsKeepStatesLawful }
    ensures run { law.RunsKeepStatesLawful }
{}

/// In every state that a run reaches from a lawful one, and so from the opening one, a certified
/// constituency has all its stations closed, exactly its seats are allotted, by the one allotment
/// of its closed votes, and a lot is recorded wherever one is needed. The same holds in any
/// lawful state and of each view, and there is at most one view.
pub fn a_certificate_is_of_closed_votes()
    ensures of_run { law.CertificatesOfRunsAreRight }
    ensures each { law.CertificatesAreRight }
    ensures one { law.ViewsAreOne }
{
    // Called for what its contract says: the laws of allotments.
    laws_of_allotments();
}

/// A constituency has a view in each lawful state, and one on which a command is decided. The lot
/// of a lawful view is not a wrong one, so a refusal of a command on it is that of the machine, or
/// out of memory.
pub fn a_constituency_has_a_view()
    ensures exists { law.ConstituenciesHaveViews }
    ensures lawful { law.ViewsAreLawful }
    ensures lot { law.LotsOfLawfulViewsAreRight }
{
    // Called for what its contract says: the laws of allotments.
    laws_of_allotments();
}

/// Where a lot is recorded that is not the one to be taken, and some list is eligible, the closed
/// votes come to no outcome. So, once the checks before it have passed, the only refusals of
/// Certify and Draw there are the one for the lot and out of memory.
pub fn a_wrong_lot_leads_to_no_outcome()
    ensures { law.WrongLotsLeadToNoOutcome }
{}

/// In a lawful state each command is decided: there is a step.
pub fn each_command_has_a_step()
    ensures decided { law.CommandsAreDecided }
    ensures state { law.CommandsHaveSteps }
{
    // Called for what its contract says: the laws of allotments.
    laws_of_allotments();
}

/// Where the checks before it pass and some list is eligible, Certify answers that a lot is missing
/// exactly where the votes leave a choice and no lot is recorded, with the group and the seats in
/// question.
pub fn a_missing_lot_is_reported()
    ensures missing { law.MissingLotsAreReported }
    ensures needed { law.MissingLotsAreReportedAsNeeded }
{
    // Called for what its contract says: the laws of allotments.
    laws_of_allotments();
}

/// In a run, from any state, no two equal commands act: where one acted, the same one at a later
/// place did not, whatever comes between.
pub fn no_two_equal_commands_act()
    ensures { law.NoTwoEqualCommandsAct }
{}

/// Without the requests that do not act a run has the same last state, and the others the same
/// answers. That holds too where only some of them are left out.
pub fn requests_that_do_not_act_can_be_left_out()
    ensures all { law.ActsAloneAreARun }
    ensures some { law.WhatDoesNotActCanBeLeftOut }
{}

/// A request that is refused changes nothing, and neither does one that repeats what is recorded or
/// shows something.
pub fn what_does_not_act_changes_nothing()
    ensures { law.WhatDoesNotActChangesNothing }
{}

/// A candidate who is gone stays gone through every later request, a reopening among them.
pub fn the_gone_stay_gone()
    ensures { law.TheGoneStayGone }
{}

/// From a state and a command there is at most one answer and one state. No step has the refusal
/// `Memory` or `Store`. What is answered is of the command's kind, and a view that is shown fits
/// its constituency.
pub fn a_step_is_one()
    ensures one { decision.StepsAreOne }
    ensures of_the_machine { decision.StepsAreOfTheMachine }
    ensures kind { decision.AnswersAreOfTheirKind }
{
    // Called for what its contract says: the laws of allotments.
    laws_of_allotments();
}

/// The decision on a command on a return, by what a state says of its station, is a step: its
/// refusal is that of the step, or its change leads to the state of the step and gives its answer.
pub fn a_decision_on_a_return_is_a_step()
    ensures limits { decision.LimitsAreThoseOfTheSetup }
    ensures refused { decision.RefusalsOnReturnsAreSteps }
    ensures changed { decision.ChangesOfReturnsAreSteps }
    ensures unknown { decision.UnknownStationsAreRefused }
{}

/// The decision on a command on a constituency, by its view in a state, is a step. In a lawful
/// state its change can be carried out: the edition stays within its limit, nobody goes twice, and
/// a certificate that is put on record is of a later edition than those that are.
pub fn a_decision_on_a_constituency_is_a_step()
    ensures decided { decision.DecisionsOnConstituenciesAreSteps }
    ensures unknown { decision.UnknownConstituenciesAreRefused }
    ensures edition { decision.EditionsStayWithinTheirLimit }
    ensures gone { decision.NobodyGoesTwice }
    ensures past { decision.RecordsComeLast }
{}

/// A certificate that was reopened stays on record, word for word, through every later request.
pub fn records_stay()
    ensures step { records.RecordsStay }
    ensures run { records.RecordsStayInRuns }
{}

/// The seats on record for a constituency and an edition are those of a certificate that a request
/// reopened: the one allotment of the closed votes in a state in which the constituency was
/// certified at that edition. After a run from any lawful state it was on record before, with the
/// same seats, or a request of the run reopened it.
pub fn records_are_of_allotments()
    ensures step { records.RecordsAreOfAllotments }
    ensures run { records.RecordsOfRunsAreOfAllotments }
{
    // Called for what its contract says: the laws of allotments.
    laws_of_allotments();
}

/// Where the returns of a constituency are entered twice, each closed one was, in every state that
/// a run reaches from the opening one: a request brought it, and a later one brought the same slip
/// and counts, with no other act on the station between them or after. So in a certified
/// constituency every vote that counts was entered twice, and the same. One request alone enters no
/// return twice.
pub fn what_counts_was_entered_twice()
    ensures closed { entries.ClosedReturnsWereEnteredTwice }
    ensures certified { entries.CertifiedReturnsWereEnteredTwice }
    ensures one { entries.OneRequestEntersNothingTwice }
{}

/// The laws of allotments that the laws here rest on.
fn laws_of_allotments()
    ensures unique { AllotmentsAreUnique }
    ensures exist { AllotmentsExist }
    ensures orders_give { EachOrderGivesAChoice }
    ensures groups { GroupsAreOfOneNumberOfVotes }
    ensures either { VotesDecideOrALotIsNeeded }
    ensures never_both { NoLotIsNeededWhereVotesDecide }
{
    // Called for what its contract says: each call here is a law of allotments.
    allotment::allotments_are_unique();
    allotment::allotments_exist();
    allotment::each_order_gives_a_choice();
    allotment::groups_are_of_one_number_of_votes();
    allotment::votes_decide_or_a_lot_is_needed();
}
