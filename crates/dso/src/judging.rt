// Step 4, by the first TLV, and the whole judgment.
ghost use Rattle.std.specs.Prelude.{◌≡◌, ◌+◌, ◌≤◌, length};
ghost use Rattle.dso.specs.Header.{message_id};
ghost use Rattle.dso.specs.Judge.{by_type, judged};
ghost use Rattle.dso.specs.Tlv.{placed};

use crate::data::{keepalive, reconfirm, subscribe, unsubscribe};
use crate::judgment::{Judged, Judgment, MessageId, ReplyCode};
use crate::number::{NotImplemented, TlvType};
use crate::opening::opened;
use crate::reader::TlvPlace;
use wire::read_field;

// With an ID to answer. The number becomes a type here and in the next function: done once before both, a judgment takes a
// tenth more instructions.
#[tactic(auto, unfolding(crate::specs::Judge::by_type, crate::specs::Types::type_of))]
fn request(id: MessageId, kind: u16, s: &[u8]) -> Judgment
    requires { id.0 ≡ 0 → ⊥ }
    ensures { result ≡ by_type id.0 kind s.now }
{
    match TlvType::try_from(kind) {
        Ok(TlvType::Keepalive) => keepalive(id, s),
        Ok(TlvType::Subscribe) => subscribe(id, s),
        Ok(_) => Judgment::Abort,
        Err(NotImplemented) => Judgment::Reply(id, ReplyCode::DsoTypeNi),
    }
}

// With ID zero: nothing is ever answered.
#[tactic(auto, unfolding(crate::specs::Judge::by_type, crate::specs::Types::type_of))]
fn unidirectional(kind: u16, s: &[u8]) -> Judgment
    ensures { result ≡ by_type 0 kind s.now }
{
    match TlvType::try_from(kind) {
        Ok(TlvType::Unsubscribe) => unsubscribe(s),
        Ok(TlvType::Reconfirm) => reconfirm(s),
        _ => Judgment::Abort,
    }
}

fn by_type(id: MessageId, kind: u16, s: &[u8]) -> Judgment
    ensures { result ≡ by_type id.0 kind s.now }
{
    if id.0 == 0 {
        unidirectional(kind, s)
    } else {
        request(id, kind, s)
    }
}

// The first TLV decides, by its type and its data.
#[tactic(auto, unfolding(crate::specs::Header::message_id))]
fn primary(m: &[u8], t: TlvPlace) -> Judgment
    requires { t.value.start + t.value.len ≤ length m.now }
    ensures { result ≡ by_type (message_id m.now) t.kind (placed m.now t).value }
{
    let id = MessageId(read_field(m, 0));
    let start = t.value.start;
    let end = start + t.value.len;
    by_type(id, t.kind, &m[start..end])
}

// Steps 1 to 5 of 01, without the tests that need the session. Total: a message of any length is judged.
#[tactic(auto, using(crate::proofs::Openings::judging))]
pub fn judge(m: &[u8]) -> Judged
    ensures { result ≡ judged m.now }
{
    match opened(m) {
        Ok(first) => Judged {
            judgment: primary(m, first),
            keepalive: first.kind == u16::from(TlvType::Keepalive),
        },
        Err(settled) => Judged {
            judgment: settled,
            keepalive: false,
        },
    }
}
