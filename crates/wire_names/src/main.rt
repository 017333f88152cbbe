// Asks the wire layer about names, a question to a line of standard input, its fields parted by tabs, and writes an answer
// to a line:
//   read PLACE HEX           the length of the name at that place, or -
//   same HEX HEX             yes or no, or - where one is no whole name
//   within ZONEHEX NAMEHEX   likewise
// A line that is none of these is answered by ?, and so is one that is too long to be held whole: a field of it is too long.
#![tactic(auto)]

mod question;

use input::{held_line, idle, next_line};
use question::ask;
use std::io;

// A proved loop has to end, and nothing says that the input does: the turns are counted.
// The loop stands in each program over lines, though a line changes no state here: one loop of input for all of them would take a
// closure, and in push_runs and replay the program's own state with it.
fn main(rt: HostRuntime) -> io::Result<()> {
    let mut stdin = rt.stdin();
    let mut input = [0u8; 65536];
    let mut line = [0u8; 32769];
    let mut p = idle(true);
    for _ in 0..u64::MAX {
        let Some(next) = next_line(p, &mut input, &mut line, &mut stdin)? else {
            break;
        };
        p = next;
        ask(&rt, held_line(p, &line))?;
    }
    Ok(())
}
