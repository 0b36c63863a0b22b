//! The laws of messages. The functions do nothing: each contract is a law.

ghost use Rattle.tally_theorems.specs.EnteredTwice as twice;
ghost use Rattle.tally_theorems.specs.MessageLaws as law;
ghost use Rattle.tally_theorems.specs.ReadBack as back;
ghost use Rattle.tally_theorems.specs.Trials as trial;

use crate::keepers;
use tally_desk_message::laws as message;
use tally_machine::laws as machine;

/// The effect of a message's answer on an office is one request, one import or nothing, as they
/// happen to a keeper, and all messages of a serving are requests and imports, one after the other.
/// So the laws of keepers hold of messages.
pub fn messages_are_what_happens_to_a_keeper()
    ensures answers { law.AnswersAreWhatHappens }
    ensures servings { law.ServingsAreWhatHappens }
{}

/// A message that is sent again acts no second time. Where it acted, it does not when it comes
/// again, whatever came between. Where it was answered otherwise than with 503, it does not when it
/// comes again in the state that it left; and an import then lodges nothing at any later time.
pub fn a_message_that_is_sent_again_acts_no_second_time()
    ensures later { law.WhatActedActsNoSecondTime }
    ensures at_once { law.WhatComesAgainAtOnceDoesNotAct }
    ensures import { law.ImportsLodgeNothingAgain }
{
    // Called for what its contract says: each call here is a law of keepers or of steps.
    keepers::no_two_equal_requests_act();
    keepers::requests_and_imports_are_a_run();
    keepers::the_same_import_again_lodges_nothing();
    keepers::what_does_not_act_can_be_left_out();
    machine::a_step_is_one();
}

/// Bytes that are sent again act no second time. Where a connection acted, another one that gives
/// the same bytes does not, whatever came between; and where it brought an import that was answered
/// otherwise than with 503, the other one lodges nothing.
pub fn the_same_bytes_act_no_second_time()
    ensures later { law.SameBytesActNoSecondTime }
    ensures import { law.SameBytesLodgeNothingAgain }
{
    // Called for what its contract says: each call here is a law of messages.
    message::bytes_are_one_message();
    a_message_that_is_sent_again_acts_no_second_time();
}

/// Each connection of a serving does one thing, or nothing. An act on a station and an import that
/// is done are what its message asks, and what is written to it, as far as there is room, is the
/// answer that reports each act and each import that is done. Where the returns of a constituency
/// are entered twice, each closed one was, by the connections since the office was in its opening
/// state, with no other act on the station between the two or after. The first is a message that
/// lodges or corrects the return, or an import with such a row; the second is one that confirms it,
/// with the same slip and counts. So in a certified constituency every vote that counts was typed
/// twice, and the same.
pub fn what_counts_was_entered_twice()
    ensures servings { twice.ServingsAreDone }
    ensures closed { twice.ClosedReturnsOfMessagesWereEnteredTwice }
    ensures certified { twice.CertifiedReturnsOfMessagesWereEnteredTwice }
    ensures first { twice.FirstEntriesAreMessages }
    ensures second { twice.SecondEntriesAreMessages }
{}

/// The trial of an import leaves the state, whatever it is answered. Where it was answered
/// otherwise than with 503, and then the import too, the import is answered with the counts of the
/// trial; or neither was done, for the same cause.
pub fn imports_come_to_their_trials()
    ensures state { trial.TrialsLeaveTheState }
    ensures import { trial.ImportsComeToTheirTrials }
{}

/// The returns text of a constituency of a lawful state is read back: its rows are one Lodge for
/// each return that is recorded, in the order of the setup, with its slip and counts, no bad row
/// and no fault. So an import of it into the opening state that is done is counted lodged, once for
/// each of them, and nothing else; and then the returns of the constituency are those that were
/// recorded, with revision 1, received, and an empty note.
pub fn returns_read_back()
    ensures rows { back.ReturnsAreReadBack }
    ensures count { back.ReadBackIsCountedLodged }
    ensures after { back.ReadBackReturnsAreThose }
{}
