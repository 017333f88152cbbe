// SUBSCRIBE, and the answer to any message.
ghost use Rattle.std.specs.Prelude.{◌≤◌, ◌≡◌, length};
ghost use Rattle.wire.specs.Field.{field};
ghost use Rattle.wire.specs.Name.{max_name};
ghost use Rattle.zone.specs.Table.{records_in};
ghost use Rattle.session.specs.Table.{subscriptions_in};
ghost use Rattle.service.specs.Message.{part_at, asked, subscribed, answered, message_effect};
ghost use Rattle.receive.specs.Effect.{Does, Writes, session_of};
ghost use Rattle.receive.specs.Subscribe.{subscription_of, admission, accepted, accepting};
ghost use Rattle.dso.specs.Judge.{judged as judged_as};

use crate::effect::{Effect, Numbers, Received};
use crate::keepalive::keep_alive;
use dso::{Judgment, MessageId, Place, Question, QuestionPlaces, ReplyCode, Response};
use session::{Clocks, Subscriptions};
use zone::{Store, Zone};

// The octets at a place of a message.
fn part_at(m: &[u8], at: Place) -> &[u8]
    ensures { result.now ≡ part_at m.now at }
{
    table::part(m, at.start, at.len)
}

fn field_at(m: &[u8], at: Place) -> u16
    ensures { result ≡ field 2 (part_at m.now at) }
{
    wire::read_field(part_at(m, at), 0)
}

// A SUBSCRIBE: its ID, and what it asks for.
#[derive(Clone, Copy)]
pub struct Request<'a> {
    pub id: MessageId,
    pub question: Question<'a>,
}

// Why a SUBSCRIBE is not accepted: it ends the session, or is answered by an error.
#[derive(Clone, Copy)]
pub enum Denial {
    Abort,
    Refuse(ReplyCode),
}

// In the order of 01; nothing is changed yet.
#[tactic(auto, unfolding(crate::specs::Subscribe::admission, session::specs::Subscriptions::asks_already))]
fn admit(zone: Zone<'_>, subs: Subscriptions<'_>, request: Request<'_>) -> Result<(), Denial>
    ensures { result ≡ admission zone.entry.name.now (subscription_of request.entry) (subscriptions_in subs.entry) }
{
    let question = request.question;
    if subs.uses_id(request.id.0) {
        return Err(Denial::Abort);
    }
    if !wire::within(zone.name, question.name) {
        return Err(Denial::Refuse(ReplyCode::NotAuth));
    }
    if subs.asks_already(question) {
        return Err(Denial::Abort);
    }
    if session::is_full(subs.count) {
        return Err(Denial::Refuse(ReplyCode::ServFail));
    }
    Ok(())
}

// The response to an accepted SUBSCRIBE, and behind it the first PUSH; how many octets they have.
fn write_accepted(store: Store<'_>, request: Request<'_>, out: &mut [u8]) -> usize
    ensures { Writes (accepted (records_in store.entry) (subscription_of request.entry)) result out.old out.new }
{
    let n = dso::write_response(out, request.id, Response::Subscribed);
    n + notify::write_first(store, request.question, out, n)
}

// The session is as it was, but for one more subscription.
#[tactic(auto, unfolding(crate::specs::Subscribe::accepting))]
fn accept(
    store: Store<'_>,
    numbers: Numbers,
    subs: &mut session::Area,
    request: Request<'_>,
    out: &mut [u8],
) -> Received
    ensures { Does (accepting (records_in store.entry) (subscription_of request.entry) (session_of numbers.clocks numbers.count subs.old)) result subs.new out.old out.new }
{
    let count = session::append(subs, numbers.count, request.id.0, request.question);
    let n = write_accepted(store, request, out);
    Numbers { count, ..numbers }.with(Effect::Reply(n))
}

#[tactic(auto, using(crate::proofs::Admitted::subscribed_admitted), unfolding(crate::specs::Subscribe::accepting))]
fn ask(
    zone: Zone<'_>,
    numbers: Numbers,
    subs: &mut session::Area,
    request: Request<'_>,
    out: &mut [u8],
) -> Received
    requires { length request.question.name.now ≤ max_name }
    ensures { Does (subscribed zone.entry.name.now (records_in zone.entry.store) (subscription_of request.entry) (session_of numbers.clocks numbers.count subs.old)) result subs.new out.old out.new }
{
    let count = numbers.count;
    match admit(zone, Subscriptions { area: subs, count }, request) {
        Ok(()) => accept(zone.store, numbers, subs, request, out),
        Err(Denial::Abort) => numbers.with(Effect::Abort),
        Err(Denial::Refuse(code)) => numbers.reply(request.id, Response::Error(code), out),
    }
}

// The question's parts are read at their places in the message.
#[tactic(auto, unfolding(service::specs::Message::asked))]
fn subscribe(
    zone: Zone<'_>,
    numbers: Numbers,
    subs: &mut session::Area,
    m: &[u8],
    id: MessageId,
    places: QuestionPlaces,
    out: &mut [u8],
) -> Received
    requires { places.name.len ≤ max_name }
    ensures { Does (subscribed zone.entry.name.now (records_in zone.entry.store) (asked m.now id places) (session_of numbers.clocks numbers.count subs.old)) result subs.new out.old out.new }
{
    let question = Question {
        name: part_at(m, places.name),
        rrtype: field_at(m, places.rtype),
        rrclass: field_at(m, places.class),
    };
    ask(zone, numbers, subs, Request { id, question }, out)
}

// The clocks are restarted already.
#[tactic(auto, unfolding(service::specs::Message::answered))]
fn answer(
    zone: Zone<'_>,
    numbers: Numbers,
    subs: &mut session::Area,
    m: &[u8],
    j: Judgment,
    out: &mut [u8],
) -> Received
    requires { j ≡ (judged_as m.now).judgment }
    ensures { Does (answered zone.entry.name.now (records_in zone.entry.store) m.now j (session_of numbers.clocks numbers.count subs.old)) result subs.new out.old out.new }
{
    match j {
        Judgment::NotOurs => numbers.with(Effect::Others),
        Judgment::Abort => numbers.with(Effect::Abort),
        Judgment::Reply(id, code) => numbers.reply(id, Response::Error(code), out),
        Judgment::Keepalive(id) => keep_alive(numbers, subs, id, out),
        Judgment::Subscribe(id, places) => subscribe(zone, numbers, subs, m, id, places, out),
        Judgment::Unsubscribe(id) => {
            let count = session::remove(subs, numbers.count, id.0);
            Numbers { count, ..numbers }.with(Effect::Nothing)
        }
        Judgment::Reconfirm(record) => numbers.with(Effect::Places(record)),
    }
}

// One received message: the session's next state, and what is to be answered. Total: a message of any length, any table of
// subscriptions and any output are taken; what does not fit the output is not written.
#[tactic(auto, unfolding(service::specs::Message::message_effect))]
pub fn receive(
    zone: Zone<'_>,
    clocks: Clocks,
    subs: &mut session::Area,
    count: usize,
    t: u64,
    m: &[u8],
    out: &mut [u8],
) -> Received
    ensures { Does (message_effect zone.entry.name.now (records_in zone.entry.store) t m.now (session_of clocks count subs.old)) result subs.new out.old out.new }
{
    let judged = dso::judge(m);
    let mut clocks = clocks;
    clocks.restart(judged.keepalive, t);
    answer(
        zone,
        Numbers { clocks, count },
        subs,
        m,
        judged.judgment,
        out,
    )
}
