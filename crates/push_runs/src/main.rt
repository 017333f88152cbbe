// One session's subscriptions and the records of shop.example: runs the lines of standard input on zone, session and notify, and
// writes a line for each.
//   fresh                            no record, no subscription from here on: fresh -
//   subscribe ID TYPE CLASS NAMEHEX  subscribe, and the first PUSH in hexadecimal digits, or -
//   unsubscribe ID                   unsubscribe -
//   batch EDITSHEX                   batch, the answer's number, and the PUSH, or -
// Fields are parted by tabs. A line that is none of these is answered by ?.
#![tactic(auto)]

mod answer;
mod command;
mod run;

use input::{held_line, idle, next_line};
use run::Run;
use std::io;

// A proved loop has to end, and nothing says that the input does: the turns are counted.
// The loop stands in each program over lines: what a line does is done to the program's own state, here the run. As a closure in one
// loop of input it would bring that state into each clause there.
fn main(rt: HostRuntime) -> io::Result<()> {
    let mut stdin = rt.stdin();
    let mut input = [0u8; 65536];
    let mut line = [0u8; 32769];
    let mut run = Run::new();
    let mut p = idle(true);
    for _ in 0..u64::MAX {
        let Some(next) = next_line(p, &mut input, &mut line, &mut stdin)? else {
            break;
        };
        p = next;
        run.run_line(&rt, held_line(p, &line))?;
    }
    Ok(())
}
