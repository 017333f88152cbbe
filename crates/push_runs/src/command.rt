// A line of input: a verb and its fields, parted by tabs.
use dso::{Question, is_name};
use script::{Bytes, parted, read_bytes, read_number};

// The longest line, its end aside.
const LINE: usize = 32768;

// A name and edits stand in lent memory.
#[derive(Clone, Copy)]
pub enum Command<'a> {
    Fresh,
    Subscribe(u16, Question<'a>),
    Unsubscribe(u16),
    Batch(&'a [u8]),
}

// A number of 16 bits.
fn read_short(s: &[u8]) -> Option<u16> {
    u16::try_from(read_number(s)?).ok()
}

fn read_octets<'a>(hex: &[u8], bytes: &'a mut Bytes) -> Option<&'a [u8]> {
    let n = read_bytes(hex, bytes)?;
    Some(table::part(bytes, 0, n))
}

// A tab too many is no digit of the last field.
fn read_subscribe<'a>(rest: &[u8], bytes: &'a mut Bytes) -> Option<Command<'a>> {
    let (id, rest) = parted(rest)?;
    let (rrtype, rest) = parted(rest)?;
    let (rrclass, rest) = parted(rest)?;
    let id = read_short(id)?;
    let rrtype = read_short(rrtype)?;
    let rrclass = read_short(rrclass)?;
    let name = read_octets(rest, bytes)?;
    if !is_name(name) {
        return None;
    }
    Some(Command::Subscribe(
        id,
        Question {
            name,
            rrtype,
            rrclass,
        },
    ))
}

// A verb with fields behind it.
fn read_verb<'a>(verb: &[u8], rest: &[u8], bytes: &'a mut Bytes) -> Option<Command<'a>> {
    match verb {
        b"batch" => Some(Command::Batch(read_octets(rest, bytes)?)),
        b"unsubscribe" => Some(Command::Unsubscribe(read_short(rest)?)),
        b"subscribe" => read_subscribe(rest, bytes),
        _ => None,
    }
}

pub fn read_command<'a>(line: &[u8], bytes: &'a mut Bytes) -> Option<Command<'a>> {
    if line == b"fresh".as_slice() {
        return Some(Command::Fresh);
    }
    if LINE < line.len() {
        return None;
    }
    let (verb, rest) = parted(line)?;
    read_verb(verb, rest, bytes)
}
