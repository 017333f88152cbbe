// The data of a first TLV, by its type. `s` is the TLV's data alone: nothing is read past its end.
ghost use Rattle.std.specs.Prelude.{◌≡◌, ◌≤◌};
ghost use Rattle.wire.specs.Name.{max_name};
ghost use Rattle.dso.specs.Judge.{question as question_of, keepalive as keepalive_of, subscribe as subscribe_of, unsubscribe as unsubscribe_of, reconfirm as reconfirm_of};

use crate::judgment::{Judgment, MessageId, Place, QuestionPlaces, RecordPlaces, ReplyCode};
use crate::number::{ANY, DATA};
use crate::reader::Reader;
use wire::read_field;

#[tactic(auto, unfolding(crate::specs::Judge::keepalive))]
pub fn keepalive(id: MessageId, s: &[u8]) -> Judgment
    ensures { result ≡ keepalive_of id.0 s.now }
{
    if s.len() == 8 {
        Judgment::Keepalive(id)
    } else {
        Judgment::Reply(id, ReplyCode::FormErr)
    }
}

// The places of a name of n octets at the data's front, and of the type and the class behind it.
fn question(n: usize) -> QuestionPlaces
    requires { n ≤ max_name }
    ensures { result ≡ question_of n }
{
    let at = DATA + n;
    QuestionPlaces {
        name: Place {
            start: DATA,
            len: n,
        },
        rtype: Place { start: at, len: 2 },
        class: Place {
            start: at + 2,
            len: 2,
        },
    }
}

#[tactic(auto, unfolding(crate::specs::Judge::subscribe))]
pub fn subscribe(id: MessageId, s: &[u8]) -> Judgment
    ensures { result ≡ subscribe_of id.0 s.now }
{
    let Some(n) = Reader::new(s, 0).name() else {
        return Judgment::Reply(id, ReplyCode::FormErr);
    };
    if s.len() == n + 4 {
        Judgment::Subscribe(id, question(n))
    } else {
        Judgment::Reply(id, ReplyCode::FormErr)
    }
}

#[tactic(auto, unfolding(crate::specs::Judge::unsubscribe))]
pub fn unsubscribe(s: &[u8]) -> Judgment
    ensures { result ≡ unsubscribe_of s.now }
{
    if s.len() == 2 {
        Judgment::Unsubscribe(MessageId(read_field(s, 0)))
    } else {
        Judgment::Abort
    }
}

#[tactic(auto, unfolding(crate::specs::Judge::reconfirm))]
pub fn reconfirm(s: &[u8]) -> Judgment
    ensures { result ≡ reconfirm_of s.now }
{
    let Some(n) = Reader::new(s, 0).name() else {
        return Judgment::Abort;
    };
    let front = n + 4;
    if s.len() < front || read_field::<u16>(s, n) == ANY || read_field::<u16>(s, n + 2) == ANY {
        return Judgment::Abort;
    }
    let asked = question(n);
    Judgment::Reconfirm(RecordPlaces {
        name: asked.name,
        rtype: asked.rtype,
        class: asked.class,
        rdata: Place {
            start: DATA + front,
            len: s.len() - front,
        },
    })
}
