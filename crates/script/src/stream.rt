// The input cut into lines, a piece at a time, so that it may have any size.
ghost use Rattle.script.specs.Stream.{Cuts};

use crate::search::first;
use crate::writer::put;

// The line that is being read, as far as it has come: octets at the front of lent memory, which has room for one more than a
// line may have. What would go beyond is dropped: the line is unreadable without it.
pub type Line = [u8; 32769];

// `ended` stays a flag: both numbers mean the same with it and without, so an enum would have them in each of its variants.
#[derive(Clone, Copy)]
pub struct Taken {
    // How many octets of the line are held now.
    pub held: usize,
    // How many octets of the input were used.
    pub used: usize,
    // Whether the line's LF came.
    pub ended: bool,
}

// Takes the input up to the line's LF, or all of it, onto the line that is held in so many octets. The memory is written and the count
// handed back, so they are no one value.
#[tactic(auto, using(crate::proofs::Streaming::cutting))]
pub fn cut(input: &[u8], line: &mut Line, held: usize) -> Taken
    ensures { Cuts input.now line.old held line.new result }
{
    match first(input, b'\n') {
        Some(n) => Taken {
            held: put(line, held, &input[..n]),
            used: n + 1,
            ended: true,
        },
        None => Taken {
            held: put(line, held, input),
            used: input.len(),
            ended: false,
        },
    }
}
