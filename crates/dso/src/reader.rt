// A reader that holds the lent message and a place in it: the TLVs from there on, one behind the other, or the name that
// stands there.
ghost use Rattle.std.specs.Prelude.{◌≡◌, ◌-◌, ◌≤◌, IfSome, length};
ghost use Rattle.std.specs.Iterator.{at_most};
ghost use Rattle.wire.specs.Name.{max_name};
ghost use Rattle.wire.specs.Reading.{name_at};
ghost use Rattle.dso.specs.Tlv.{tlv_at, ReadsNext};

use crate::judgment::Place;
use wire::{name_at, read_field};

#[derive(Clone, Copy)]
pub struct Reader<'a> {
    message: &'a [u8],
    at: usize,
}

// A whole TLV in a message: its type, where its data stands (`value`), and where the next one begins. Its type is a number,
// since a TLV of any type is read.
#[derive(Clone, Copy)]
pub struct TlvPlace {
    pub kind: u16,
    pub value: Place,
    pub next: usize,
}

// The message's end cuts a TLV short.
#[derive(Clone, Copy)]
pub struct CutShort;

impl<'a> Reader<'a> {
    pub fn new(message: &'a [u8], at: usize) -> Reader<'a>
        ensures message { result.message.now ≡ message.now }
        ensures at { result.at ≡ at }
    {
        Reader { message, at }
    }

    pub fn name(self) -> Option<usize>
        ensures reads { result ≡ name_at self.entry.message.now self.entry.at }
        ensures short { IfSome result (λ n. n ≤ max_name) }
    {
        name_at(self.message, self.at)
    }
}

// What stands at a place of a message: a whole TLV, one that is cut short, or nothing more.
#[tactic(auto, unfolding(crate::specs::Tlv::tlv_at))]
fn tlv_at(m: &[u8], at: usize) -> Option<Result<TlvPlace, CutShort>>
    ensures { result ≡ tlv_at m.now at }
{
    if m.len() <= at {
        return None;
    }
    if m.len() - at < 4 {
        return Some(Err(CutShort));
    }
    let start = at + 4;
    let len = usize::from(read_field::<u16>(m, at + 2));
    if m.len() - start < len {
        return Some(Err(CutShort));
    }
    Some(Ok(TlvPlace {
        kind: read_field(m, at),
        value: Place { start, len },
        next: start + len,
    }))
}

impl<'a> Iterator for Reader<'a> {
    type Item = Result<TlvPlace, CutShort>;

    ghost next_gives = { ReadsNext };

    ghost remaining = { λ r. at_most (length r.message.now - r.at) };

    // Nothing is read behind a TLV that is cut short.
    fn next(&mut self) -> Option<Result<TlvPlace, CutShort>> {
        let tlv = tlv_at(self.message, self.at)?;
        self.at = match tlv {
            Ok(t) => t.next,
            Err(_) => self.message.len(),
        };
        Some(tlv)
    }
}
