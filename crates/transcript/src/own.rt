// The one line of open, close and msg: which session it names, and which bytes.
ghost use Rattle.std.specs.Prelude.{◌≡◌, option_copied};
ghost use Rattle.server.specs.Answers.{answer_of};
ghost use Rattle.transcript.specs.Lines.{session_named, counts_in, sent_to, bytes_for, line_for_one, Printed};

use crate::lines::{Output, Text, Told};
use script::{OutputLine, write_line};
use server::{Answer, Counts, SESSIONS, answer_number};
use table::part;

// 01: "session s writes from s x 16,384".
pub const SESSION_OUTPUT: usize = 16384;

#[tactic(auto, unfolding(crate::specs::Lines::session_named, server::specs::Answers::answer_of))]
fn named(own: Option<u64>, answer: Answer) -> Option<u64>
    ensures { result ≡ session_named own (answer_of answer) }
{
    match answer {
        Answer::Opened(s) => Some(s.0),
        _ => own,
    }
}

// The bytes at the start of the output of the session of a number; past the last one none.
#[tactic(auto, using(crate::proofs::Telling::sending), unfolding(crate::specs::Lines::sent_to, crate::specs::Lines::count_for))]
fn sent_to(s: u64, counts: Counts, out: &[u8]) -> &[u8]
    ensures { result.now ≡ sent_to counts s out.now }
{
    if s < SESSIONS {
        // From u64 to usize there is no From.
        let at = s as usize;
        return part(out, at * SESSION_OUTPUT, counts[at]);
    }
    part(out, 0, 0)
}

// Those of the line's own session, where the answer sends any.
#[tactic(auto, unfolding(crate::specs::Lines::bytes_for, crate::specs::Lines::counts_in, server::specs::Answers::answer_of))]
fn bytes_for(own: Option<u64>, answer: Answer, out: &[u8]) -> Option<&[u8]>
    ensures { option_copied result ≡ bytes_for own (counts_in (answer_of answer)) out.now }
{
    match answer {
        Answer::Sent(counts) => Some(sent_to(own?, counts, out)),
        _ => None,
    }
}

pub fn write_for_one(told: Told, out: &Output, text: &mut Text) -> usize
    ensures { Printed text.old
        (line_for_one told.verb told.own (answer_of told.answer) out.now) text.new result }
{
    let line = OutputLine {
        verb: told.verb,
        answer: answer_number(told.answer),
        session: named(told.own, told.answer),
        bytes: bytes_for(told.own, told.answer, out),
    };
    write_line(text, 0, line)
}
