// The number of an answer (01, "The answer numbers").
ghost use Rattle.std.specs.Prelude.{◌≡◌};
ghost use Rattle.service.specs.Answer.{fault_number, refusal_number, answer_number};
ghost use Rattle.server.specs.Answers.{answer_of};

use crate::answer::Answer;
use service::Refusal;
use zone::BatchFault;

// Functions, and no From for u32: the numbers of three crates' types are one list of 01's, which stands in one place.

// 01: answers 1 to 5 take the time, and 10 to 20 change nothing.
pub const LAST_ACCEPTED: u32 = 5;

#[tactic(auto, unfolding(service::specs::Answer::fault_number))]
pub fn fault_number(fault: BatchFault) -> u32
    ensures { result ≡ fault_number fault }
{
    match fault {
        BatchFault::Unreadable => 14,
        BatchFault::BadValue => 15,
        BatchFault::TooManyEdits => 16,
        BatchFault::StoreFull => 17,
    }
}

#[tactic(auto, unfolding(service::specs::Answer::refusal_number))]
pub fn refusal_number(refusal: Refusal) -> u32
    ensures { result ≡ refusal_number refusal }
{
    match refusal {
        Refusal::NoSession => 10,
        Refusal::TimeBackwards => 11,
        Refusal::OutputTooShort => 12,
        Refusal::AllOpen => 13,
        Refusal::Batch(fault) => fault_number(fault),
        Refusal::MessageTooLong => 18,
        Refusal::NotAName => 20,
    }
}

#[tactic(auto, unfolding(service::specs::Answer::answer_number, crate::specs::Answers::answer_of))]
pub fn answer_number(answer: Answer) -> u32
    ensures { result ≡ answer_number (answer_of answer) }
{
    match answer {
        Answer::Done | Answer::Opened(_) | Answer::Ended(_) => 1,
        Answer::Sent(_) => 2,
        Answer::NotOurs => 3,
        Answer::Aborted => 4,
        Answer::Reconfirm(_) => 5,
        Answer::Refused(refusal) => refusal_number(refusal),
    }
}
