// What a call that needs no octets decides: so much, and not all the numbers, has to be written then.
ghost use Rattle.std.specs.Prelude.{◌≡◌};
ghost use Rattle.server.specs.Changes.{change_answer, change_numbers, answer_by, numbers_by, decided_by};

use crate::answer::{Answer, Flags, Outcome};
use crate::state::{Server, at_time, opened, replaced, vacant};
use crate::ticking::swept;
use service::{Refusal, SessionNumber};

#[derive(Clone, Copy)]
pub enum Change {
    // A session is opened at a number.
    Opens(u64),
    // The session of a number is closed.
    Closes(u64),
    // The sessions that are flagged are aborted.
    Ends(Flags),
}

// A change, or a refusal: nothing changes.
pub type Decision = Result<Change, Refusal>;

#[tactic(auto, unfolding(crate::specs::Changes::change_answer))]
fn change_answer(change: Change) -> Answer
    ensures { result ≡ change_answer change }
{
    match change {
        Change::Opens(i) => Answer::Opened(SessionNumber(i)),
        Change::Closes(_) => Answer::Done,
        Change::Ends(flags) => Answer::Ended(flags),
    }
}

#[tactic(auto, unfolding(crate::specs::Changes::answer_by))]
pub fn decision_answer(decision: Decision) -> Answer
    ensures { result ≡ answer_by decision }
{
    match decision {
        Ok(change) => change_answer(change),
        Err(why) => Answer::Refused(why),
    }
}

// The numbers after a change at a time.
#[tactic(auto, unfolding(crate::specs::Changes::change_numbers))]
fn change_numbers(server: Server, t: u64, change: Change) -> Server
    ensures { result ≡ change_numbers t change server }
{
    match change {
        Change::Opens(i) => replaced(server, t, i, opened(t)),
        Change::Closes(i) => replaced(server, t, i, vacant()),
        Change::Ends(flags) => at_time(swept(server, flags), t),
    }
}

#[tactic(auto, unfolding(crate::specs::Changes::numbers_by))]
fn decision_numbers(server: Server, t: u64, decision: Decision) -> Server
    ensures { result ≡ numbers_by t decision server }
{
    match decision {
        Ok(change) => change_numbers(server, t, change),
        Err(_) => server,
    }
}

pub fn decided(server: Server, t: u64, decision: Decision) -> Outcome
    ensures { result ≡ decided_by server t decision }
{
    Outcome {
        server: decision_numbers(server, t, decision),
        answer: decision_answer(decision),
    }
}
