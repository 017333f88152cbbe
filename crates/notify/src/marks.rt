// Which records of a store have departed, arrived, or match subscriptions: a mark for each.
ghost use Rattle.std.specs.Prelude.{◌&&◌, ◌<◌, ◌≡◌, min, take, drop, get_or};
ghost use Rattle.zone.specs.Batch.{max_records};
ghost use Rattle.zone.specs.Lists.{keep};
ghost use Rattle.zone.specs.Record.{key_of};
ghost use Rattle.zone.specs.Store.{find, held};
ghost use Rattle.zone.specs.Match.{matches as matching, wanted as wanted_by, view};
ghost use Rattle.zone.specs.Table.{rec_of, records_in};
ghost use Rattle.session.specs.Table.{subscriptions_in, subscription_for};
ghost use Rattle.push.specs.List.{has_ttl, leaving, entering};
ghost use Rattle.notify.specs.Marks.{marked};

use dso::Question;
use session::Subscriptions;
use zone::{Block, Store};

// A mark for each record of a store.
pub type Marks = [bool; zone::RECORDS];

// What a function gives for each record of a store, by its place; behind the last record what stands for none.
pub(crate) fn for_each<T: Copy, F: Fn(usize) -> T>(
    store: Store,
    none: T,
    value: F,
) -> [T; zone::RECORDS]
    requires { (i : _) → i < min store.count max_records → F.pre value i }
    ensures { (i : _) → i < min store.entry.count max_records → F.post value i (get_or result i none) }
{
    let mut values = [none; zone::RECORDS];
    for i in 0..store.len() {
        values[i] = value(i);
    }
    values
}

// Whether a block's record stands at a place of a store.
#[tactic(auto, using(crate::proofs::Lookups::standing))]
fn stands_at(store: Store, place: usize, b: Block) -> bool
    ensures { result ≡ held (key_of (rec_of b.entry.octets.now)) (take 1 (drop place (records_in store.entry))) }
{
    place < store.len() && store.block(place).has_key(b.key())
}

// Whether a store has a block's record. The place where it should stand is looked at first.
#[tactic(auto, using(crate::proofs::Lookups::record_held))]
fn is_held(store: Store, place: usize, b: Block) -> bool
    ensures { result ≡ held (key_of (rec_of b.entry.octets.now)) (records_in store.entry) }
{
    stands_at(store, place, b) || store.find(b.key()).is_some()
}

// Whether a store has a block's record with the block's TTL.
#[tactic(auto, using(crate::proofs::Lookups::ttl_held))]
fn has_ttl(store: Store, b: Block) -> bool
    ensures { result ≡ has_ttl (find (key_of (rec_of b.entry.octets.now)) (records_in store.entry)) (rec_of b.entry.octets.now).ttl }
{
    match store.find(b.key()) {
        Some(i) => store.block(i).ttl() == b.ttl(),
        None => false,
    }
}

// Whether one of a session's subscriptions matches a block's record.
#[tactic(auto, using(crate::proofs::Lookups::record_wanted))]
fn is_wanted(subs: Subscriptions, b: Block) -> bool
    ensures { result ≡ wanted_by (subscriptions_in subs.entry) (rec_of b.entry.octets.now) }
{
    subs.wanted(Question {
        name: b.owner(),
        rrtype: b.rrtype(),
        rrclass: b.rrclass(),
    })
}

// Whether a subscription to a question matches a block's record.
#[tactic(auto, using(crate::proofs::Lookups::record_matched))]
fn matches(question: Question, b: Block) -> bool
    ensures { result ≡ matching (subscription_for 0 question.entry) (rec_of b.entry.octets.now) }
{
    dso::asks_for(question.rrtype, question.rrclass, b.rrtype(), b.rrclass())
        && wire::same_name(question.name, b.owner())
}

// The records of the old store that the new one doesn't have. Those that stay keep their order, so the next of them should
// stand behind the last: no promise rests on where is looked first. The loop is its own, since that place changes on the way.
pub fn departed(old: Store, new: Store) -> Marks
    ensures { marked result (records_in old.entry) ≡ leaving (records_in old.entry) (records_in new.entry) }
{
    let mut marks = [false; zone::RECORDS];
    let mut place = 0;
    for i in 0..old.len() {
        let held = is_held(new, place, old.block(i));
        marks[i] = !held;
        if held {
            place += 1;
        }
    }
    marks
}

// The records of the new store that the old one doesn't have, or has with another TTL.
pub fn arrived(old: Store, new: Store) -> Marks
    ensures { marked result (records_in new.entry) ≡ entering (records_in old.entry) (records_in new.entry) }
{
    for_each(new, false, |i| !has_ttl(old, new.block(i)))
}

// Those of marked records that one of a session's subscriptions matches.
pub fn visible(store: Store, among: &Marks, subs: Subscriptions) -> Marks
    ensures { marked result (records_in store.entry) ≡ view (subscriptions_in subs.entry) (marked among.now (records_in store.entry)) }
{
    for_each(store, false, |i| {
        among[i] && is_wanted(subs, store.block(i))
    })
}

pub fn matched(store: Store, question: Question) -> Marks
    ensures { marked result (records_in store.entry) ≡ keep (matching (subscription_for 0 question.entry)) (records_in store.entry) }
{
    for_each(store, false, |i| matches(question, store.block(i)))
}
