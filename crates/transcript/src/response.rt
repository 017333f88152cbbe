// The lines that a line of input writes: those of its call's answer, or the one of an unreadable line.
ghost use Rattle.std.specs.Prelude.{ℕ, ◌≤◌, ◌≡◌, List, length, option_map};
ghost use Rattle.server.specs.Answers.{answer_of};
ghost use Rattle.script.specs.Code.{command_line};
ghost use Rattle.transcript.specs.Lines.{text_room, Printed};
ghost use Rattle.transcript.specs.Responses.{verb_in, own_in, unread_line, lines_told};

use crate::lines::{Output, Text, Told, write_lines};
use script::{Command, OutputLine, Verb, write_line};
use server::Answer;

fn verb_in(command: Option<Command>) -> Option<Verb>
    ensures { (o : List ℕ) → result ≡ verb_in (command_line command o) }
{
    match command? {
        Command::Open(_) => Some(Verb::Open),
        Command::Close(_, _) => Some(Verb::Close),
        Command::Message(_, _, _) => Some(Verb::Message),
        Command::Batch(_, _) => Some(Verb::Batch),
        Command::Tick(_) => Some(Verb::Tick),
    }
}

fn own_in(command: Option<Command>) -> Option<u64>
    ensures { (o : List ℕ) → result ≡ own_in (command_line command o) }
{
    match command? {
        Command::Close(_, s) | Command::Message(_, s, _) => Some(s),
        Command::Open(_) | Command::Batch(_, _) | Command::Tick(_) => None,
    }
}

// 01: an unreadable line "writes ?, 19, -, -".
#[tactic(auto, using(crate::proofs::Responding::unread), unfolding(crate::specs::Responses::unread_line, crate::specs::Responses::number_told))]
fn write_unread(text: &mut [u8]) -> usize
    requires { text_room ≤ length text.old }
    ensures { Printed text.old unread_line text.new result }
{
    let line = OutputLine {
        verb: None,
        answer: 19,
        session: None,
        bytes: None,
    };
    write_line(text, 0, line)
}

// At the front of the text; how many octets they are. Nothing was called where there is no answer, since the line is unreadable.
#[tactic(auto, using(crate::proofs::Responding::responding))]
pub fn write_response(
    command: Option<Command>,
    answered: Option<Answer>,
    out: &Output,
    text: &mut Text,
) -> usize
    ensures { (o : List ℕ) →
        Printed text.old (lines_told (command_line command o) (option_map answer_of answered) out.now) text.new result }
{
    let Some(answer) = answered else {
        return write_unread(text);
    };
    let told = Told {
        verb: verb_in(command),
        own: own_in(command),
        answer,
    };
    write_lines(told, out, text)
}
