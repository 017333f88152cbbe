// How far the input has come, which is read in chunks and cut into lines.
ghost use Rattle.std.specs.Prelude.{◌≡◌, take};
ghost use Rattle.input.specs.Reading.{idle_with, begun_from, Resumes};

use script::{Line, cut, place};
use table::part;

// The chunk that was read last.
pub type Input = [u8; 65536];

// `ready` and `more` stay flags: each goes with either of the other, and the numbers mean the same in all four cases, so an enum would
// have them in each of its variants.
#[derive(Clone, Copy)]
pub struct Progress {
    // The chunk stands at the front of lent memory, so many octets of it.
    pub end: usize,
    // So many of them are used.
    pub used: usize,
    // So many octets of a line are held.
    pub held: usize,
    // Whether the line that is held is whole.
    pub ready: bool,
    // Whether more input may come.
    pub more: bool,
}

// Nothing is held, and nothing is left of a chunk.
pub fn idle(more: bool) -> Progress
    ensures { result ≡ idle_with more }
{
    Progress {
        end: 0,
        used: 0,
        held: 0,
        ready: false,
        more,
    }
}

// The line before is done with: nothing is held of the next one.
pub fn begun(p: Progress) -> Progress
    ensures { result ≡ begun_from p }
{
    Progress {
        held: 0,
        ready: false,
        ..p
    }
}

// The line that is held.
pub fn held_line(p: Progress, line: &Line) -> &[u8]
    ensures { result.now ≡ take p.held line.now }
{
    part(line, 0, p.held)
}

// Cuts the chunk up to the end of the line, or of the chunk.
#[tactic(auto, using(crate::proofs::Resuming::resumes))]
pub fn resume(p: Progress, input: &Input, line: &mut Line) -> Progress
    ensures { Resumes p input.now line.old result line.new }
{
    let chunk = part(input, 0, p.end);
    let c = cut(part(chunk, p.used, p.end), line, p.held);
    Progress {
        used: place(chunk.len(), p.used, c.used),
        held: c.held,
        ready: c.ended,
        ..p
    }
}
