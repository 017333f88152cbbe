// Replays a script of calls on a server for the zone shop.example: lines on standard input, what came of each on standard
// output (01, "The replay program").
#![tactic(auto)]

mod respond;

use input::{Source, held_line, idle, next_line};
use respond::respond;
use server::{Name, Server, start};
use server_message::Areas;
use std::io;
use table::part;

// Answers each line in turn, with what the lines before it left: `respond` promises the lines that are written for it
// (`transcript/Responses.response_to`). Where a read or a write fails, the program stops. However the input comes in chunks, what is cut from it (`resume`) is answered as its lines
// are: `transcript/Responding.replayed-chunks`. What goes through the streams no contract can say.
fn replay(rt: &impl Print, source: &mut impl Source, start: Server, zone: &Name) -> io::Result<()> {
    let mut first = [0u8; zone::AREA];
    let mut second = [0u8; zone::AREA];
    // Four arrays: where each turn took an array of them apart into four `&mut`s, the borrow checker's proof wasn't covered (tried).
    let mut s0 = [0u8; session::AREA];
    let mut s1 = [0u8; session::AREA];
    let mut s2 = [0u8; session::AREA];
    let mut s3 = [0u8; session::AREA];
    let mut input = [0u8; 65536];
    let mut line = [0u8; 32769];
    let mut bytes = [0u8; 16384];
    let mut out = [0u8; 65536];
    let mut text = [0u8; 327880];
    let mut server = start;
    let mut p = idle(true);
    for _ in 0..u64::MAX {
        let Some(next) = next_line(p, &mut input, &mut line, source)? else {
            break;
        };
        p = next;
        let areas = Areas {
            first: &mut first,
            second: &mut second,
            s0: &mut s0,
            s1: &mut s1,
            s2: &mut s2,
            s3: &mut s3,
        };
        let r = respond(
            server,
            zone,
            areas,
            held_line(p, &line),
            &mut bytes,
            &mut out,
            &mut text,
        );
        server = r.server;
        rt.write_all(part(&text, 0, r.length))?;
    }
    Ok(())
}

fn main(rt: HostRuntime) -> io::Result<()> {
    let mut zone = [0u8; 255];
    match start(b"\x04shop\x07example\x00", &mut zone) {
        Ok(server) => replay(&rt, &mut rt.stdin(), server, &zone),
        Err(_) => Ok(()),
    }
}
