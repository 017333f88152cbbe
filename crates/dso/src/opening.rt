// Steps 1 to 3: the header, and the TLVs as a whole. They settle the judgment, or the first TLV decides.
ghost use Rattle.std.specs.Prelude.{◌≡◌, drop};
ghost use Rattle.dso.specs.Header.{header_length, message_id};
ghost use Rattle.dso.specs.Judge.{bad_form, form_of, opening};
ghost use Rattle.dso.specs.Steps.{first_place, start_of};
ghost use Rattle.dso.specs.Tlv.{tlvs};

use crate::header::{is_response, no_records, opcode_of};
use crate::judgment::{Judgment, MessageId, ReplyCode};
use crate::number::{HEADER, OPCODE};
use crate::reader::{Reader, TlvPlace};
use crate::tlv::tlvs_fill;
use wire::read_field;

#[tactic(auto, unfolding(crate::specs::Judge::bad_form, crate::specs::Header::message_id))]
fn bad_form(m: &[u8]) -> Judgment
    ensures { result ≡ bad_form (message_id m.now) }
{
    let id = read_field::<u16>(m, 0);
    if id == 0 {
        Judgment::Abort
    } else {
        Judgment::Reply(MessageId(id), ReplyCode::FormErr)
    }
}

// The first TLV, where TLVs fill the message behind its header.
#[tactic(auto, using(crate::proofs::Openings::reading))]
fn first_tlv(m: &[u8]) -> Option<TlvPlace>
    ensures { result ≡ first_place (tlvs (drop header_length m.now)) }
{
    let mut tlvs = Reader::new(m, HEADER);
    let first = tlvs.next()?.ok()?;
    tlvs_fill(tlvs).then_some(first)
}

// The counts first: TLVs are gone through only where they are zero.
#[tactic(auto, using(crate::proofs::Openings::forming))]
fn form(m: &[u8]) -> Result<TlvPlace, Judgment>
    ensures { result ≡ start_of (form_of m.now) }
{
    if !no_records(m) {
        return Err(bad_form(m));
    }
    match first_tlv(m) {
        Some(first) => Ok(first),
        None => Err(bad_form(m)),
    }
}

#[tactic(auto, unfolding(crate::specs::Judge::opening))]
pub fn opened(m: &[u8]) -> Result<TlvPlace, Judgment>
    ensures { result ≡ start_of (opening m.now) }
{
    if m.len() < HEADER {
        return Err(Judgment::Abort);
    }
    if opcode_of(m) != OPCODE {
        return Err(Judgment::NotOurs);
    }
    if is_response(m) {
        return Err(Judgment::Abort);
    }
    form(m)
}
