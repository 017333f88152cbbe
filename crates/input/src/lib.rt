// Lines of standard input, read in large chunks. What a source gives, no contract can say; what is cut from it is promised.
#![tactic(auto)]

mod progress;
mod source;

ghost use Rattle.std.specs.Prelude.{◌≡◌, true, [], take, IsSome, IfOk, IfErr, OnErr};
ghost use Rattle.script.specs.Stream.{piece_of};
ghost use Rattle.input.specs.Reading.{left_of, Refills, ReadsOn, ReadsLine, NextLine, ReadFails, NextFails};

use progress::begun;
pub use progress::{Input, Progress, held_line, idle, resume};
use script::Line;
pub use source::Source;
use std::io;

// So many octets were read. Where the input ended, the last line's LF may be missing.
#[tactic(auto, using(crate::proofs::Taking::refills))]
fn refilled(n: usize, held: usize) -> Progress
    ensures { Refills held result }
{
    if n > 0 {
        return Progress {
            end: n,
            held,
            ..idle(true)
        };
    }
    if held > 0 {
        return Progress {
            held,
            ready: true,
            ..idle(false)
        };
    }
    idle(false)
}

// Each hands on the source's error, and says so of its own result (`error`), whose type is std's.
// `held, input, line, source` stay apart from here to `next_line`: its contract, and each below it, says of `input` and of `line` by
// itself what is left in it (`NextLine .. input.new line.new`), and nothing of the source. A struct of the three `&mut`s would
// need a clause for each field on what it lends, and no fewer names.

// Reads once. Where the read fails, its error is handed on, and a line that is not whole is dropped.
fn refill<S: Source>(held: usize, input: &mut Input, source: &mut S) -> io::Result<Progress>
    ensures ok { IfOk result (λ q. Refills held q) }
    ensures error { IfErr result S.fails }
{
    let got = source.read_chunk(input)?;
    Ok(refilled(got, held))
}

// The next chunk, and what it brings to the line. Where the read fails, the line stays as it is.
#[tactic(auto, using(crate::proofs::Taking::refilled))]
fn advance<S: Source>(
    held: usize,
    input: &mut Input,
    line: &mut Line,
    source: &mut S,
) -> io::Result<Progress>
    ensures ok { IfOk result (λ q. ReadsOn (take held line.old) q input.new line.new) }
    ensures err { OnErr result (line.new ≡ line.old) }
    ensures error { IfErr result S.fails }
{
    let p = refill(held, input, source)?;
    Ok(if p.more { resume(p, input, line) } else { p })
}

// Reads until the line is whole. A proved loop has to end, and nothing says that the input does: the turns are counted, up to a
// number that no run reaches.
#[tactic(auto, using(crate::proofs::Taking::reading))]
fn read_on<S: Source>(
    held: usize,
    more: bool,
    input: &mut Input,
    line: &mut Line,
    source: &mut S,
) -> io::Result<Option<Progress>>
    ensures ok { IfOk result (λ r. ReadsLine (take held line.old) r input.new line.new) }
    ensures err { OnErr result (ReadFails (take held line.old) line.new) }
    ensures error { IfErr result S.fails }
{
    let mut q = Progress { held, ..idle(more) };
    for _ in 0..u64::MAX {
        if q.ready || !q.more {
            break;
        }
        q = advance(q.held, input, line, source)?;
    }
    Ok(q.ready.then_some(q))
}

// Takes the next line, if there is one: from the chunk that was read last, and from the next ones where it goes on. Where the chunk has
// the line's end, the line is there. An error is one that a read of the source gave: what came of the line then stands in `line`, and of what `input`
// holds nothing is promised.
pub fn next_line<S: Source>(
    p: Progress,
    input: &mut Input,
    line: &mut Line,
    source: &mut S,
) -> io::Result<Option<Progress>>
    ensures ok { IfOk result (λ r. NextLine (left_of p input.old) r input.new line.new) }
    ensures there { IfOk result (λ r. (piece_of [] (left_of p input.old)).ended ≡ true → IsSome r) }
    ensures err { OnErr result (NextFails (left_of p input.old) line.new) }
    ensures error { IfErr result S.fails }
{
    let q = resume(begun(p), input, line);
    if q.ready {
        return Ok(Some(q));
    }
    read_on(q.held, q.more, input, line, source)
}
