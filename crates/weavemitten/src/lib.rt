// The library for the host's C program: the service, and three questions. Each answer is a number of 01 that is never 0.
// A slice is any bytes: none, with any pointer, or more than a message can have.
#![tactic(auto)]

mod calls;

ghost use Rattle.std.specs.Prelude.{◌≡◌};
ghost use Rattle.weavemitten.specs.Questions.{kind_of, reply_kind, message_kind, compared, answer_number, same_names, record_match};

pub use calls::{
    weavemitten_server_batch, weavemitten_server_close, weavemitten_server_message,
    weavemitten_server_open, weavemitten_server_start, weavemitten_server_tick,
};
use dso::{Judgment, ReplyCode, asks_for, is_name, judge};
use wire::same_name;

// Kinds are numbers for C, as the header's `enum weavemitten_kind` has them.
fn kind_of(judgment: Judgment) -> u32
    ensures { result ≡ kind_of judgment }
{
    match judgment {
        Judgment::NotOurs => 40,
        Judgment::Abort => 41,
        Judgment::Reply(_, code) => reply_kind(code),
        Judgment::Keepalive(_) => 44,
        Judgment::Subscribe(_, _) => 45,
        Judgment::Unsubscribe(_) => 46,
        Judgment::Reconfirm(_) => 47,
    }
}

// Numbers for C too, of the same enum.
fn reply_kind(code: ReplyCode) -> u32
    ensures { result ≡ reply_kind code }
{
    match code {
        ReplyCode::FormErr | ReplyCode::ServFail | ReplyCode::NotAuth => 42,
        ReplyCode::DsoTypeNi => 43,
    }
}

// What kind of message the bytes are: 40 to 47, or 18 where there are more than 65,535.
#[tactic(auto, unfolding(crate::specs::Questions::message_kind, dso::specs::Judge::judged))]
#[unsafe(no_mangle)]
pub extern "C" fn weavemitten_message_kind(message: &[u8]) -> u32
    ensures { result ≡ message_kind message.now }
{
    if 65535 < message.len() {
        return 18;
    }
    kind_of(judge(message).judgment)
}

// Whether two whole names are the same name; nothing where one of them is no name.
fn compared(a: &[u8], b: &[u8]) -> Option<bool>
    ensures { result ≡ compared a.now b.now }
{
    if is_name(a) && is_name(b) {
        Some(same_name(a, b))
    } else {
        None
    }
}

// An answer is a number for C, as the header's `enum weavemitten_answer` has it.
fn answer_number(answer: Option<bool>) -> u32
    ensures { result ≡ answer_number answer }
{
    match answer {
        Some(true) => 1,
        Some(false) => 2,
        None => 3,
    }
}

// Whether two whole names are the same name: 1 yes, 2 no, 3 where one of them is no name.
#[tactic(auto, using(crate::proofs::Answers::same_names_compared))]
#[unsafe(no_mangle)]
pub extern "C" fn weavemitten_same_name(a: &[u8], b: &[u8]) -> u32
    ensures { result ≡ same_names a.now b.now }
{
    answer_number(compared(a, b))
}

// Whether a subscription's name, type and class match a record's: 1 yes, 2 no, 3 where a name is no name.
#[unsafe(no_mangle)]
pub extern "C" fn weavemitten_match(
    qname: &[u8],
    qtype: u16,
    qclass: u16,
    name: &[u8],
    rtype: u16,
    class: u16,
) -> u32
    ensures { result ≡ record_match qname.now qtype qclass name.now rtype class }
{
    let same = compared(qname, name);
    if same == Some(true) {
        return answer_number(Some(asks_for(qtype, qclass, rtype, class)));
    }
    answer_number(same)
}
