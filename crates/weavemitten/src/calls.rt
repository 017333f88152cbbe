// The calls of the service for a C host: start writes all words; of the others each reads the server's numbers from the lent words,
// calls the server, and keeps what it gave: a batch all numbers, the others the time and those of the sessions that they change. No
// answer is 0, and the calls take any words and any octets.
ghost use Rattle.std.specs.Prelude.{[], ◌≡◌, ◌≤◌, ◌<◌};
ghost use Rattle.std.specs.Fn.{FnOnceReturnsAtMut};
ghost use Rattle.service.specs.Answer.{answer_number};
ghost use Rattle.service.specs.Call.{Bytes, Call, outcome, opens, closes, receives, edits, ticks};
ghost use Rattle.server.specs.Memory.{Memory, memory_of};
ghost use Rattle.server.specs.Answers.{answer_of, last_accepted};
ghost use Rattle.server.specs.Changes.{decided_by};
ghost use Rattle.words.specs.Words.{server_of};
ghost use Rattle.weavemitten.specs.Calls.{held_by, Keeps, Begins, Returns, ReturnsWith, ReturnsOn};

use server::{
    Answer, Decision, LAST_ACCEPTED, Name, answer_number, decide_close, decide_open, decide_tick,
    decision_answer, refusal_number, start,
};
use server_batch::batch;
use server_message::{Stores, Tables, hear};
use service::SessionNumber;
use words::{Values, Words, load, load_context, put, save, save_decision, save_session};

// What an answer changes is kept, unless it is a refusal.
fn keep<F: FnOnce(&mut Words)>(words: &mut Words, answer: Answer, save: F) -> u32
    requires { F.IsAlwaysCallable save }
    ensures number { result ≡ answer_number (answer_of answer) }
    ensures saved { result ≤ last_accepted → FnOnceReturnsAtMut F.FnOnce save words.old tt words.new }
    ensures unchanged { last_accepted < result → words.new ≡ words.old }
{
    let number = answer_number(answer);
    if number <= LAST_ACCEPTED {
        save(words);
    }
    number
}

// Of a decision the time and the words of the sessions that change are kept, unless it is a refusal: a decision says so itself, and no
// number is tested.
fn keep_decision(words: &mut Words, t: u64, decision: Decision) -> u32
    ensures { Keeps words.old words.new (decided_by (server_of words.old) t decision) result }
{
    save_decision(words, t, decision);
    answer_number(decision_answer(decision))
}

#[unsafe(no_mangle)]
pub extern "C" fn weavemitten_server_start(words: &mut Words, octets: &mut Name, zone: &[u8]) -> u32
    ensures { Begins zone.now words.old words.new octets.old octets.new result }
{
    match start(zone, octets) {
        Ok(server) => {
            save(words, server);
            1
        }
        Err(why) => refusal_number(why),
    }
}

// Open and tick end alike. Tried: one function for both ends; a tick of no session then takes 102 instructions for 87, and an open with
// its close 147 for 142.
#[unsafe(no_mangle)]
pub extern "C" fn weavemitten_server_open(words: &mut Words, time: u64, values: &mut Values) -> u32
    ensures { (m : Memory)
        → ReturnsWith values.new words.old words.new m [] result
        (outcome (held_by words.old m) (opens time)) }
{
    let decision = decide_open(load(words), time);
    put(values, decision_answer(decision));
    keep_decision(words, time, decision)
}

#[unsafe(no_mangle)]
pub extern "C" fn weavemitten_server_close(words: &mut Words, time: u64, session: u64) -> u32
    ensures { (m : Memory)
        → Returns words.old words.new m [] result
        (outcome (held_by words.old m) (closes time session)) }
{
    let decision = decide_close(load(words), time, SessionNumber(session));
    keep_decision(words, time, decision)
}

// The parameters of this call and the next are those of the C functions (include/weavemitten.h).
#[unsafe(no_mangle)]
pub extern "C" fn weavemitten_server_message(
    words: &mut Words,
    zone: &Name,
    first: &zone::Area,
    second: &zone::Area,
    s0: &mut session::Area,
    s1: &mut session::Area,
    s2: &mut session::Area,
    s3: &mut session::Area,
    time: u64,
    session: u64,
    m: &[u8],
    out: &mut [u8],
    values: &mut Values,
) -> u32
    ensures { (
        let before = memory_of zone.now first.now second.now s0.old s1.old s2.old s3.old in
        let after = memory_of zone.now first.now second.now s0.new s1.new s2.new s3.new in
        let call : Bytes → Call = λ bytes. receives time session bytes out.old in
        ReturnsOn m.now values.new words.old words.new after out.new result
        (λ bytes. outcome (held_by words.old before) (call bytes))) }
{
    let stores = Stores {
        name: zone,
        first,
        second,
    };
    let tables = Tables { s0, s1, s2, s3 };
    let context = load_context(words, session);
    let heard = hear(
        context,
        stores,
        tables,
        time,
        SessionNumber(session),
        m,
        out,
    );
    put(values, heard.answer);
    keep(words, heard.answer, |words| {
        save_session(words, time, session, heard.session)
    })
}

#[unsafe(no_mangle)]
pub extern "C" fn weavemitten_server_batch(
    words: &mut Words,
    zone: &Name,
    first: &mut zone::Area,
    second: &mut zone::Area,
    s0: &session::Area,
    s1: &session::Area,
    s2: &session::Area,
    s3: &session::Area,
    time: u64,
    bytes: &[u8],
    out: &mut [u8],
    values: &mut Values,
) -> u32
    ensures { (
        let before = memory_of zone.now first.old second.old s0.now s1.now s2.now s3.now in
        let after = memory_of zone.now first.new second.new s0.now s1.now s2.now s3.now in
        let call : Bytes → Call = λ lent. edits time lent out.old in
        ReturnsOn bytes.now values.new words.old words.new after out.new result
        (λ lent. outcome (held_by words.old before) (call lent))) }
{
    let server = load(words);
    let tables = [s0, s1, s2, s3];
    let outcome = batch(server, zone, first, second, tables, time, bytes, out);
    put(values, outcome.answer);
    keep(words, outcome.answer, |words| save(words, outcome.server))
}

#[unsafe(no_mangle)]
pub extern "C" fn weavemitten_server_tick(words: &mut Words, time: u64, values: &mut Values) -> u32
    ensures { (m : Memory)
        → ReturnsWith values.new words.old words.new m [] result
        (outcome (held_by words.old m) (ticks time)) }
{
    let decision = decide_tick(load(words), time);
    put(values, decision_answer(decision));
    keep_decision(words, time, decision)
}
