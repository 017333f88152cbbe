// A line of input read as a command (01, "The replay program").
ghost use Rattle.std.specs.Prelude.{◌*◌, ◌≤◌, ◌≡◌, length, take, [], option_map};
ghost use Rattle.script.specs.Hex.{hex_bytes, hex_bytes_in};
ghost use Rattle.script.specs.Code.{command_line, Is};
ghost use Rattle.script.specs.Fields.{fields};
ghost use Rattle.script.specs.Line.{max_line, line_of, timed, spoken};
ghost use Rattle.script.specs.declared.verb.Verb.TheVariants.{Close, Message, Batch};

use crate::number::{digit, read_number};
use crate::search::first;
use crate::verb::{Verb, verb_of};

// Room for the bytes of any line: half of 32,768 hexadecimal digits.
pub type Bytes = [u8; 16384];

// How many octets stand at the front of the lent memory then; none where the digits are no whole octets.
#[tactic(auto, using(crate::proofs::Bytes::decoding))]
fn decode(s: &[u8], bytes: &mut [u8]) -> Option<usize>
    requires { length s.now ≤ 2 * length bytes.old }
    ensures { option_map (λ n. take n bytes.new) result ≡ hex_bytes s.now }
{
    if s.len() % 2 != 0 {
        return None;
    }
    let n = s.len() / 2;
    for i in 0..n {
        let high = digit(s[2 * i])?;
        let low = digit(s[2 * i + 1])?;
        bytes[i] = high * 16 + low;
    }
    Some(n)
}

// The same for memory of any length: octets that it has no room for are not read.
#[tactic(auto, using(crate::proofs::Bytes::room))]
pub fn read_bytes(s: &[u8], bytes: &mut [u8]) -> Option<usize>
    ensures { option_map (λ n. take n bytes.new) result ≡ hex_bytes_in (length bytes.old) s.now }
{
    if bytes.len() < s.len() - s.len() / 2 {
        return None;
    }
    decode(s, bytes)
}

// Times and sessions are the line's own numbers; of a message or a batch, so many octets stand at the front of the memory
// that was lent. (A count and no slice: the lines that a command writes are promised whatever that memory holds by then.)
#[derive(Clone, Copy)]
pub enum Command {
    Open(u64),
    Close(u64, u64),
    Message(u64, u64, usize),
    Batch(u64, usize),
    Tick(u64),
}

// Tested once, in `read_line`. The readers behind it ask for it: as a type it would have to be made anew of each rest of a line.
const MAX_LINE: usize = 32_768;

// A verb and its time, and nothing behind them.
#[tactic(auto, unfolding(crate::specs::Line::timed))]
fn read_short(verb: Verb, time: u64) -> Option<Command>
    ensures { Is result (timed verb time []) }
{
    match verb {
        Verb::Open => Some(Command::Open(time)),
        Verb::Tick => Some(Command::Tick(time)),
        Verb::Close | Verb::Message | Verb::Batch => None,
    }
}

#[tactic(auto, using(crate::proofs::Lines::closing))]
fn read_close(time: u64, s: &[u8]) -> Option<Command>
    ensures { Is result (timed Close time (fields s.now)) }
{
    let session = read_number(s)?;
    Some(Command::Close(time, session))
}

#[tactic(auto, using(crate::proofs::Lines::batching))]
fn read_batch(time: u64, s: &[u8], bytes: &mut Bytes) -> Option<Command>
    requires { length s.now ≤ max_line }
    ensures { command_line result bytes.new ≡ timed Batch time (fields s.now) }
{
    let n = decode(s, bytes)?;
    Some(Command::Batch(time, n))
}

#[tactic(auto, using(crate::proofs::Lines::messaging))]
fn read_message(time: u64, s: &[u8], bytes: &mut Bytes) -> Option<Command>
    requires { length s.now ≤ max_line }
    ensures { command_line result bytes.new ≡ timed Message time (fields s.now) }
{
    let t = first(s, b'\t')?;
    let session = read_number(&s[..t])?;
    let n = decode(&s[t + 1..], bytes)?;
    Some(Command::Message(time, session, n))
}

// A verb and its time, and the fields behind them.
#[tactic(auto, using(crate::proofs::Lines::alone))]
fn read_timed(verb: Verb, time: u64, s: &[u8], bytes: &mut Bytes) -> Option<Command>
    requires { length s.now ≤ max_line }
    ensures { command_line result bytes.new ≡ timed verb time (fields s.now) }
{
    match verb {
        Verb::Close => read_close(time, s),
        Verb::Message => read_message(time, s, bytes),
        Verb::Batch => read_batch(time, s, bytes),
        Verb::Open | Verb::Tick => None,
    }
}

// A verb, and the fields behind it.
#[tactic(auto, using(crate::proofs::Lines::speaking))]
fn read_spoken(verb: Verb, s: &[u8], bytes: &mut Bytes) -> Option<Command>
    requires { length s.now ≤ max_line }
    ensures { command_line result bytes.new ≡ spoken verb (fields s.now) }
{
    let Some(t) = first(s, b'\t') else {
        return read_short(verb, read_number(s)?);
    };
    let time = read_number(&s[..t])?;
    read_timed(verb, time, &s[t + 1..], bytes)
}

// A line without its LF. What stands in the memory behind the octets that the command names is left over.
#[tactic(auto, using(crate::proofs::Lines::lining))]
pub fn read_line(line: &[u8], bytes: &mut Bytes) -> Option<Command>
    ensures { command_line result bytes.new ≡ line_of line.now }
{
    if MAX_LINE < line.len() {
        return None;
    }
    let t = first(line, b'\t')?;
    let verb = verb_of(&line[..t])?;
    read_spoken(verb, &line[t + 1..], bytes)
}
