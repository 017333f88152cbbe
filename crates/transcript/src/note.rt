// What a batch or a tick has to say of each session.
ghost use Rattle.std.specs.Prelude.{◌≡◌};
ghost use Rattle.server.specs.Answers.{answer_of};
ghost use Rattle.transcript.specs.Lines.{count_note, flag_note, is_quiet, all_quiet, notes_of};

use server::Answer;

// Three cases, and none is the lack of another: that a session was aborted is no count.
#[derive(Clone, Copy)]
pub enum Note {
    // Nothing.
    Quiet,
    // So many bytes are sent to it.
    Bytes(usize),
    // It was aborted.
    Ended,
}

impl Note {
    #[tactic(auto, unfolding(crate::specs::Lines::is_quiet))]
    fn is_quiet(self) -> bool
        ensures { result ≡ is_quiet self }
    {
        matches!(self, Note::Quiet)
    }
}

// Of each session.
pub type Notes = [Note; 4];

#[tactic(auto, unfolding(crate::specs::Lines::count_note))]
fn count_note(n: usize) -> Note
    ensures { result ≡ count_note n }
{
    if n == 0 { Note::Quiet } else { Note::Bytes(n) }
}

#[tactic(auto, unfolding(crate::specs::Lines::flag_note))]
fn flag_note(ended: bool) -> Note
    ensures { result ≡ flag_note ended }
{
    if ended { Note::Ended } else { Note::Quiet }
}

#[tactic(auto, unfolding(crate::specs::Lines::notes_of, server::specs::Answers::answer_of))]
pub fn noted(answer: Answer) -> Notes
    ensures { result ≡ notes_of (answer_of answer) }
{
    match answer {
        Answer::Ended(flags) => flags.map(flag_note),
        Answer::Sent(counts) => counts.map(count_note),
        _ => [Note::Quiet; 4],
    }
}

pub fn all_silent(notes: &Notes) -> bool
    ensures { result ≡ all_quiet notes.now }
{
    notes.iter().all(|note| note.is_quiet())
}
