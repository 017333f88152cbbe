// What a call gives: the server's numbers as they are then, and the answer.
ghost use Rattle.std.specs.Prelude.{◌≡◌};
ghost use Rattle.server.specs.Answers.{refusing};

use crate::state::{SESSIONS, Server, Session};
use dso::RecordPlaces;
use service::{Refusal, SessionNumber};

// For each session, whether it was aborted.
pub type Flags = [bool; SESSIONS as usize];

// For each session, how many bytes stand at its output's start.
pub type Counts = [usize; SESSIONS as usize];

#[derive(Clone, Copy)]
pub enum Answer {
    // Done, nothing to send.
    Done,
    // Done: the session that is now open.
    Opened(SessionNumber),
    // Done: the sessions that were aborted.
    Ended(Flags),
    // Done, with bytes to send.
    Sent(Counts),
    // The opcode is not 6: another part of the host handles the message.
    NotOurs,
    // The session was forcibly aborted.
    Aborted,
    // RECONFIRM, with the places of its four parts in the message.
    Reconfirm(RecordPlaces),
    // Refused: nothing changed. (No Err around the others: the service's answers are one list, which is numbered as one.)
    Refused(Refusal),
}

#[derive(Clone, Copy)]
pub struct Outcome {
    pub server: Server,
    pub answer: Answer,
}

// What a message gives: the numbers of its session as they are then, and the answer.
#[derive(Clone, Copy)]
pub struct Heard {
    pub session: Session,
    pub answer: Answer,
}

// A refusal: the numbers go back as they came.
pub fn refused(server: Server, why: Refusal) -> Outcome
    ensures { result ≡ refusing server why }
{
    let answer = Answer::Refused(why);
    Outcome { server, answer }
}
