// Message: one whole DNS message of a session, without its length prefix, and how its session receives it.
ghost use Rattle.std.specs.Prelude.{◌*◌, ◌≤◌, ◌<◌, ◌≡◌, true, cond, length};
ghost use Rattle.std.proofs.Math.Pow.{are_bytes};
ghost use Rattle.service.specs.State.{max_sessions};
ghost use Rattle.service.specs.Checks.{output_size, least_output};
ghost use Rattle.service.specs.Call.{Bytes, Call, receives};
ghost use Rattle.server.specs.Answers.{Serves, heard_in};
ghost use Rattle.server_message.specs.Delivery.{count_at, answer_to, session_after, concluded_of, declined_of, effect_in};
ghost use Rattle.server_message.specs.Lent.{memory_lent, memory_left};
ghost use Rattle.server_message.specs.Delivery.{DoesAt, Turns, Delivers, Hears};

use crate::lent::{Stores, Tables};
use receive::{Effect, Received, receive};
use server::{
    Answer, Context, Counts, Heard, LAST_ACCEPTED, Outcome, SESSIONS, Server, Session,
    answer_number, check_message, context_at, output_at, replaced, vacant,
};
use service::{Refusal, SessionNumber};

// That a number is one of four and that the output has room, the inner functions ask: `check_message` found both, and they are used where
// the output is cut and an array written. As types they would be a number with an invariant, which the public call's is not, and a
// struct of a `&mut`, whose clauses name its reference. Time, number, octets and output go on as they came, since clauses speak of each.

// So many bytes for one session, none for the others.
#[tactic(auto, unfolding(crate::specs::Delivery::count_at))]
fn count_at(i: u64, n: usize) -> Counts
    requires { i < max_sessions }
    ensures { result ≡ count_at i n }
{
    let mut counts = [0; SESSIONS as usize];
    counts[i as usize] = n;
    counts
}

#[tactic(auto, unfolding(crate::specs::Delivery::answer_to))]
fn answer_to(i: u64, effect: Effect) -> Answer
    requires { i < max_sessions }
    ensures { result ≡ answer_to i effect }
{
    match effect {
        Effect::Abort => Answer::Aborted,
        Effect::Nothing => Answer::Done,
        Effect::Reply(n) => Answer::Sent(count_at(i, n)),
        Effect::Others => Answer::NotOurs,
        Effect::Places(places) => Answer::Reconfirm(places),
    }
}

// The session is gone after an abort.
#[tactic(auto, unfolding(crate::specs::Delivery::gone_or))]
fn session_after(r: Received) -> Session
    ensures { result ≡ session_after r }
{
    match r.effect {
        Effect::Abort => vacant(),
        _ => Session {
            live: true,
            clocks: r.clocks,
            count: r.count,
        },
    }
}

fn concluded(i: u64, r: Received) -> Heard
    requires { i < max_sessions }
    ensures { result ≡ concluded_of i r }
{
    Heard {
        session: session_after(r),
        answer: answer_to(i, r.effect),
    }
}

// The zone's name is the front of its octets; one of two areas holds the store; the session's part of the output is lent on.
#[tactic(auto, using(crate::proofs::Delivered::attended))]
fn attend(
    c: Context,
    stores: Stores<'_>,
    subs: &mut session::Area,
    t: u64,
    i: u64,
    m: &[u8],
    out: &mut [u8],
) -> Received
    requires { (i < max_sessions) × (least_output ≤ length out.old) }
    ensures { let store = cond c.second stores.entry.second.now stores.entry.first.now in
        let effect = effect_in c t stores.entry.name.now store m.now subs.old in
        DoesAt (i * output_size) effect result subs.new out.old out.new }
{
    let x = c.session;
    let zone = stores.zone(c);
    let at = output_at(i as u32);
    receive(zone, x.clocks, subs, x.count, t, m, &mut out[at..])
}

#[tactic(auto, using(crate::proofs::Delivered::turned))]
fn turn(
    c: Context,
    stores: Stores<'_>,
    subs: &mut session::Area,
    t: u64,
    i: u64,
    m: &[u8],
    out: &mut [u8],
) -> Heard
    requires known { (i < max_sessions) × (least_output ≤ length out.old) }
    requires alive { c.session.live ≡ true }
    ensures { let store = cond c.second stores.entry.second.now stores.entry.first.now in
        Turns c t i stores.entry.name.now store subs.old subs.new
        m.now out.old out.new result }
{
    concluded(i, attend(c, stores, subs, t, i, m, out))
}

// The session of a number has its own subscriptions.
#[tactic(auto, using(crate::proofs::Delivered::delivered), unfolding(server::specs::Memory::put_area))]
fn deliver(
    c: Context,
    stores: Stores<'_>,
    tables: Tables,
    t: u64,
    i: u64,
    m: &[u8],
    out: &mut [u8],
) -> Heard
    requires known { (i < max_sessions) × (least_output ≤ length out.old) }
    requires alive { c.session.live ≡ true }
    ensures { let before = memory_lent stores.entry tables.entry in
        let after = memory_left stores.entry tables.exit in
        Delivers c before after t i m.now out.old out.new result }
{
    match i {
        0 => turn(c, stores, tables.s0, t, i, m, out),
        1 => turn(c, stores, tables.s1, t, i, m, out),
        2 => turn(c, stores, tables.s2, t, i, m, out),
        _ => turn(c, stores, tables.s3, t, i, m, out),
    }
}

fn declined(x: Session, why: Refusal) -> Heard
    ensures { result ≡ declined_of x why }
{
    Heard {
        session: x,
        answer: Answer::Refused(why),
    }
}

// A message of the session of a number, given what it needs of the server's numbers.
pub fn hear(
    c: Context,
    stores: Stores<'_>,
    tables: Tables,
    time: u64,
    session: SessionNumber,
    m: &[u8],
    out: &mut [u8],
) -> Heard
    ensures { let before = memory_lent stores.entry tables.entry in
        let after = memory_left stores.entry tables.exit in
        Hears c before after time session.0 m.now out.old out.new result }
{
    let i = session.0;
    match check_message(c, time, i, out.len(), m.len()) {
        Ok(()) => deliver(c, stores, tables, time, i, m, out),
        Err(why) => declined(c.session, why),
    }
}

// A refusal hands back the very numbers that came in.
#[tactic(auto, unfolding(server::specs::Answers::kept_by))]
fn kept(server: Server, time: u64, i: u64, h: Heard) -> Outcome
    ensures { result ≡ heard_in server time i h }
{
    let answer = h.answer;
    if LAST_ACCEPTED < answer_number(answer) {
        return Outcome { server, answer };
    }
    Outcome {
        server: replaced(server, time, i, h.session),
        answer,
    }
}

#[tactic(auto, using(crate::proofs::Delivered::served))]
pub fn message(
    server: Server,
    stores: Stores<'_>,
    tables: Tables,
    time: u64,
    session: SessionNumber,
    m: &[u8],
    out: &mut [u8],
) -> Outcome
    ensures serves { (
        let before = memory_lent stores.entry tables.entry in
        let after = memory_left stores.entry tables.exit in
        let call : Bytes → Call = λ bytes. receives time session.0 bytes out.old in
        (small : are_bytes m.now ≡ true)
        → Serves server before (call (record { list = m.now; small = small })) result after out.new) }
    ensures small { are_bytes m.now ≡ true }
{
    let i = session.0;
    let c = context_at(server, i);
    let h = hear(c, stores, tables, time, session, m, out);
    kept(server, time, i, h)
}
