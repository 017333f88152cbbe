// The lines that an answer writes.
ghost use Rattle.std.specs.Prelude.{◌≤◌, ◌<◌, ◌≡◌, length};
ghost use Rattle.server.specs.Answers.{answer_of};
ghost use Rattle.script.specs.Code.{Written};
ghost use Rattle.transcript.specs.Lines.{tells_all, note_line, note_lines, lines_for_all, lines_of, Printed};

use crate::note::{Note, Notes, all_silent, noted};
use crate::own::{SESSION_OUTPUT, write_for_one};
use script::{OutputLine, Verb, write_line};
use server::{Answer, answer_number};
use table::part;

// The sessions' outputs, as a call left them.
pub type Output = [u8; 65536];

// Room for the lines of any answer.
pub type Text = [u8; 327880];

// What is told of a line: its verb and its own session, if it has them, and its call's answer. (The outputs stand beside it: tried as
// a field, they had no length that the proof of `write_for_all` knew.)
#[derive(Clone, Copy)]
pub struct Told {
    pub verb: Option<Verb>,
    pub own: Option<u64>,
    pub answer: Answer,
}

// What is noted of session s, if anything is. `verb, out, text` stay apart here and in `write_notes`: `Written` says of `text` by
// itself what is left in it, and a struct of the three would be made for one call, `write_for_all`'s.
#[tactic(auto, using(crate::proofs::Telling::noting), unfolding(crate::specs::Lines::note_line))]
fn write_note(
    verb: Option<Verb>,
    s: usize,
    note: Note,
    out: &[u8],
    text: &mut [u8],
    at: usize,
) -> usize
    requires { (s < 4) × (at ≤ length text.old) }
    ensures { Written text.old at (note_line verb out.now s note) text.new result }
{
    let ended = OutputLine {
        verb,
        answer: 4,
        session: Some(s as u64),
        bytes: None,
    };
    match note {
        Note::Quiet => at,
        Note::Bytes(n) => {
            let bytes = Some(part(out, s * SESSION_OUTPUT, n));
            write_line(
                text,
                at,
                OutputLine {
                    answer: 2,
                    bytes,
                    ..ended
                },
            )
        }
        Note::Ended => write_line(text, at, ended),
    }
}

#[tactic(auto, using(crate::proofs::Telling::lines))]
fn write_notes(verb: Option<Verb>, notes: Notes, out: &[u8], text: &mut [u8]) -> usize
    ensures { Written text.old 0 (note_lines verb out.now 0 notes) text.new result }
{
    let mut next = 0;
    for (s, note) in notes.iter().enumerate() {
        next = write_note(verb, s, *note, out, text, next);
    }
    next
}

fn write_for_all(told: Told, out: &Output, text: &mut Text) -> usize
    ensures { Printed text.old (lines_for_all told.verb (answer_of told.answer) out.now)
        text.new result }
{
    let notes = noted(told.answer);
    if all_silent(&notes) {
        let line = OutputLine {
            verb: told.verb,
            answer: answer_number(told.answer),
            session: None,
            bytes: None,
        };
        return write_line(text, 0, line);
    }
    write_notes(told.verb, notes, out, text)
}

#[tactic(auto, unfolding(crate::specs::Lines::tells_all))]
fn tells_all(verb: Option<Verb>) -> bool
    ensures { result ≡ tells_all verb }
{
    matches!(verb, Some(Verb::Batch | Verb::Tick))
}

// At the front of the text; how many octets they are.
#[tactic(auto, unfolding(crate::specs::Lines::lines_of))]
pub fn write_lines(told: Told, out: &Output, text: &mut Text) -> usize
    ensures { Printed text.old
        (lines_of told.verb told.own (answer_of told.answer) out.now) text.new result }
{
    if tells_all(told.verb) {
        write_for_all(told, out, text)
    } else {
        write_for_one(told, out, text)
    }
}
