// What the server answers to a request, and its octets.
ghost use Rattle.std.specs.Prelude.{◌≡◌, ◌++◌, length as count};
ghost use Rattle.std.proofs.lemmas.List.Edits.{sets};
ghost use Rattle.wire.specs.Field.{octets};
ghost use Rattle.dso.specs.Response.{rcode_of, retry_delay, granted as granted_timeouts, header, response_flags, response_octets};
ghost use Rattle.dso.specs.declared.response.Response.TheVariants.{Error, Keepalive};

use crate::judgment::{MessageId, ReplyCode};
use crate::number::{OPCODE, TlvType};
use wire::{write_field, write_octets};

// The session timeouts of a Keepalive TLV, in milliseconds (RFC 8490, 7.1).
#[derive(Clone, Copy)]
pub struct Timeouts {
    pub inactivity: u32,
    pub keepalive: u32,
}

#[derive(Clone, Copy)]
pub enum Response {
    Error(ReplyCode),
    Keepalive(Timeouts),
    Subscribed,
}

const GRANTED_INACTIVITY: u32 = 15_000;

const GRANTED_KEEPALIVE: u32 = 60_000;

const DELAY: u32 = 300_000;

const DELAY_NOT_IMPLEMENTED: u32 = 3_600_000;

// The flags of a response without an error: QR 1 and the opcode; the RCODE is added.
const RESPONSE: u16 = 0x8000 + OPCODE * 0x800;

// What the server grants to every Keepalive request.
pub fn granted() -> Timeouts
    ensures { result ≡ granted_timeouts }
{
    Timeouts {
        inactivity: GRANTED_INACTIVITY,
        keepalive: GRANTED_KEEPALIVE,
    }
}

impl ReplyCode {
    fn flags(self) -> u16
        ensures { result ≡ response_flags (rcode_of self) }
    {
        RESPONSE + u16::from(self)
    }

    fn retry_delay(self) -> u32
        ensures { result ≡ retry_delay self }
    {
        match self {
            ReplyCode::FormErr | ReplyCode::ServFail | ReplyCode::NotAuth => DELAY,
            ReplyCode::DsoTypeNi => DELAY_NOT_IMPLEMENTED,
        }
    }
}

// A message's two-octet length prefix and its header, from the front of a slice on.
#[tactic(auto, using(crate::proofs::Responses::octets_16, crate::proofs::Responses::header_octets))]
pub fn write_header(out: &mut [u8], length: u16, id: MessageId, flags: u16)
    ensures { out.new ≡ sets out.old 0 (octets 2 length ++ header id.0 flags) }
{
    let mut front = [0; 14];
    front[..2].copy_from_slice(&length.to_be_bytes());
    front[2..4].copy_from_slice(&id.0.to_be_bytes());
    front[4..6].copy_from_slice(&flags.to_be_bytes());
    write_octets(out, 0, &front);
}

// The type and the length of a TLV. Any number is a type here: a `TlvType` would ask more of callers.
#[tactic(auto, using(crate::proofs::Responses::octets_16))]
pub fn write_tlv(out: &mut [u8], at: usize, kind: u16, length: u16)
    ensures { out.new ≡ sets out.old at (octets 2 kind ++ octets 2 length) }
{
    let mut head = [0; 4];
    head[..2].copy_from_slice(&kind.to_be_bytes());
    head[2..].copy_from_slice(&length.to_be_bytes());
    write_octets(out, at, &head);
}

fn write_error(out: &mut [u8], id: MessageId, code: ReplyCode)
    ensures { out.new ≡ sets out.old 0 (response_octets id.0 (Error code)) }
{
    write_header(out, 20, id, code.flags());
    write_tlv(out, 14, TlvType::RetryDelay.into(), 4);
    write_field(out, 18, code.retry_delay());
}

#[tactic(auto, using(crate::proofs::Responses::octets_32))]
fn write_timeouts(out: &mut [u8], at: usize, timeouts: Timeouts)
    ensures { out.new ≡ sets out.old at (octets 4 timeouts.inactivity ++ octets 4 timeouts.keepalive) }
{
    let mut data = [0; 8];
    data[..4].copy_from_slice(&timeouts.inactivity.to_be_bytes());
    data[4..].copy_from_slice(&timeouts.keepalive.to_be_bytes());
    write_octets(out, at, &data);
}

fn write_keepalive(out: &mut [u8], id: MessageId, timeouts: Timeouts)
    ensures { out.new ≡ sets out.old 0 (response_octets id.0 (Keepalive timeouts)) }
{
    write_header(out, 24, id, RESPONSE);
    write_tlv(out, 14, TlvType::Keepalive.into(), 8);
    write_timeouts(out, 18, timeouts);
}

// A response with its length prefix, from the front of a lent part on; how many octets it has. What does not fit is not
// written.
#[tactic(auto, using(crate::proofs::Responses::kinds))]
pub fn write_response(out: &mut [u8], id: MessageId, response: Response) -> usize
    ensures { (result ≡ count (response_octets id.0 response)) × (out.new ≡ sets out.old 0 (response_octets id.0 response)) }
{
    match response {
        Response::Error(code) => {
            write_error(out, id, code);
            22
        }
        Response::Keepalive(timeouts) => {
            write_keepalive(out, id, timeouts);
            26
        }
        Response::Subscribed => {
            write_header(out, 12, id, RESPONSE);
            14
        }
    }
}
