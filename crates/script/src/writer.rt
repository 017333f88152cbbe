// A line of output, octet for octet (01, "The replay program"). Each function answers the place behind what it wrote, which
// is the end of the memory where it did not all fit.
ghost use Rattle.std.specs.Prelude.{◌+◌, ◌<◌, min, ◌≡◌, option_copied};
ghost use Rattle.std.proofs.lemmas.List.Edits.{sets};
ghost use Rattle.script.specs.Digit.{digit_octet};
ghost use Rattle.script.specs.Number.{decimal};
ghost use Rattle.script.specs.Hex.{hex_octets};
ghost use Rattle.script.specs.Output.{verb_octets, session_octets, bytes_octets, line_octets};
ghost use Rattle.script.specs.Code.{Written};

use crate::verb::Verb;
use wire::write_octets;

// What a line of output says: the verb that was read, if one was, the answer's number, which session and which bytes it names.
#[derive(Clone, Copy)]
pub struct OutputLine<'a> {
    pub verb: Option<Verb>,
    pub answer: u32,
    pub session: Option<u64>,
    pub bytes: Option<&'a [u8]>,
}

// By hand: `char::from_digit` gives a char, if there is one, of which an octet would have to be made.
#[tactic(auto, unfolding(crate::specs::Digit::digit_octet))]
fn digit_octet(d: u8) -> u8
    requires { d < 16 }
    ensures { result ≡ digit_octet d }
{
    if d < 10 { b'0' + d } else { b'a' - 10 + d }
}

// The place n octets behind another, as far as the memory goes.
pub fn place(length: usize, at: usize, n: usize) -> usize
    ensures { result ≡ min (at + n) length }
{
    at.saturating_add(n).min(length)
}

pub fn put(out: &mut [u8], at: usize, text: &[u8]) -> usize
    ensures { Written out.old at text.now out.new result }
{
    write_octets(out, at, text);
    place(out.len(), at, text.len())
}

// From the front of a slice on: two octets for each, at a place that its number gives. Over `put`, which hands a place on, push_runs took
// three times as long to write long PUSHes.
fn hex(out: &mut [u8], bytes: &[u8])
    ensures { out.new ≡ sets out.old 0 (hex_octets bytes.now) }
{
    for (i, b) in bytes.iter().enumerate() {
        write_octets(out, 2 * i, &[digit_octet(*b / 16), digit_octet(*b % 16)]);
    }
}

// Where no room is left, the octets are not gone through.
#[tactic(auto, using(crate::proofs::Writing::hex_past))]
pub fn put_hex(out: &mut [u8], at: usize, bytes: &[u8]) -> usize
    ensures { Written out.old at (hex_octets bytes.now) out.new result }
{
    if out.len() <= at {
        return out.len();
    }
    hex(&mut out[at..], bytes);
    place(out.len(), at, 2 * bytes.len())
}

// Memory that is lent for lines, and the next free place in it.
#[derive(Drop)]
// Each method says that `out` is still the slice that was lent (`same`): of a `&mut` in a struct that is a fact about two moments, which no
// field can hold.
struct LineWriter<'a> {
    out: &'a mut [u8],
    at: usize,
}

impl LineWriter<'_> {
    fn put(&mut self, text: &[u8])
        ensures same { self.new.out.ghost_name ≡ self.old.out.ghost_name }
        ensures written { Written self.old.out.now self.old.at text.now self.new.out.now self.new.at }
    {
        self.at = put(self.out, self.at, text);
    }

    // The digits before the last one, if there are any, and the last one.
    fn number(&mut self, x: u64)
        ensures same { self.new.out.ghost_name ≡ self.old.out.ghost_name }
        ensures written { Written self.old.out.now self.old.at (decimal x) self.new.out.now self.new.at }
    {
        // Below ten: the cast loses nothing.
        let last = digit_octet((x % 10) as u8);
        if 10 <= x {
            self.number(x / 10);
        }
        self.put(&[last]);
    }

    fn hex(&mut self, bytes: &[u8])
        ensures same { self.new.out.ghost_name ≡ self.old.out.ghost_name }
        ensures written { Written self.old.out.now self.old.at (hex_octets bytes.now) self.new.out.now self.new.at }
    {
        self.at = put_hex(self.out, self.at, bytes);
    }

    #[tactic(auto, unfolding(crate::specs::Output::verb_octets))]
    fn verb(&mut self, verb: Option<Verb>)
        ensures same { self.new.out.ghost_name ≡ self.old.out.ghost_name }
        ensures written { Written self.old.out.now self.old.at (verb_octets verb) self.new.out.now self.new.at }
    {
        match verb {
            Some(v) => self.put(v.text()),
            None => self.put(b"?"),
        }
    }

    #[tactic(auto, unfolding(crate::specs::Output::session_octets))]
    fn session(&mut self, session: Option<u64>)
        ensures same { self.new.out.ghost_name ≡ self.old.out.ghost_name }
        ensures written { Written self.old.out.now self.old.at (session_octets session) self.new.out.now self.new.at }
    {
        match session {
            Some(s) => self.number(s),
            None => self.put(b"-"),
        }
    }

    #[tactic(auto, unfolding(crate::specs::Output::bytes_octets))]
    fn bytes(&mut self, bytes: Option<&[u8]>)
        ensures same { self.new.out.ghost_name ≡ self.old.out.ghost_name }
        ensures written { Written self.old.out.now self.old.at (bytes_octets (option_copied bytes.entry)) self.new.out.now self.new.at }
    {
        match bytes {
            Some(b) => self.hex(b),
            None => self.put(b"-"),
        }
    }

    fn line(&mut self, line: OutputLine)
        ensures same { self.new.out.ghost_name ≡ self.old.out.ghost_name }
        ensures written { Written self.old.out.now self.old.at
            (line_octets line.entry.verb line.entry.answer line.entry.session (option_copied line.entry.bytes))
            self.new.out.now self.new.at }
    {
        self.verb(line.verb);
        self.put(b"\t");
        self.number(u64::from(line.answer));
        self.put(b"\t");
        self.session(line.session);
        self.put(b"\t");
        self.bytes(line.bytes);
        self.put(b"\n");
    }
}

// One line from a place on.
pub fn write_line(out: &mut [u8], at: usize, line: OutputLine) -> usize
    ensures { Written out.old at (line_octets line.entry.verb line.entry.answer line.entry.session (option_copied line.entry.bytes))
        out.new result }
{
    let mut writer = LineWriter { out, at };
    writer.line(line);
    writer.at
}
