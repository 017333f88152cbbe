// PUSH messages (RFC 8765, 6.3.1) in lent memory: the removals and additions of a list, and the whole message: that of a session
// from an old and a new store, and the first of a subscription.
ghost use Rattle.std.specs.Prelude.{None, false, ◌+◌, ◌≤◌, ◌<◌, ◌^◌, ◌*◌, min, ◌≡◌, ◌++◌, [], map, length, take, get_or};
ghost use Rattle.std.proofs.lemmas.List.Edits.{sets};
ghost use Rattle.zone.specs.Table.{rec_of, block_at, records_in};
ghost use Rattle.push.specs.Change.{removal};
ghost use Rattle.push.specs.Octets.{changes_octets, push_of};
ghost use Rattle.notify.specs.Marks.{marked, removals_of, is_head, heads, kind_covers, head_at, addition_at, sent, changes_for};
ghost use Rattle.notify.specs.Written.{Step, Gives, AllShort, WroteEach, room, front_length, Fronted, Pushed};
ghost use Rattle.zone.specs.Batch.{max_records};
ghost use Rattle.push.specs.List.{additions};
ghost use Rattle.zone.specs.Lists.{keep};
ghost use Rattle.zone.specs.Match.{matches, view};
ghost use Rattle.session.specs.Table.{subscriptions_in, subscription_for};

use crate::choice::{Kinds, choose};
use crate::fields::{self, Fields};
use crate::marks::{Marks, matched, visible};
use crate::removal::{RemovalKind, covers};
use dso::Question;
use session::Subscriptions;
use zone::{Block, Store};

// Whether a record's removal, where it has one, covers b's. (Tried: `is_some_and`, here and in `has_ttl`; it was not proved.)
#[tactic(auto, unfolding(crate::specs::Marks::kind_covers))]
fn kind_covers(kind: Option<RemovalKind>, e: Block, b: Block) -> bool
    ensures { result ≡ kind_covers kind (rec_of e.entry.octets.now) (rec_of b.entry.octets.now) }
{
    match kind {
        Some(kind) => covers(kind, e, b),
        None => false,
    }
}

// Whether no removal of an earlier record covers record i.
#[tactic(auto, using(crate::proofs::Heads::first_removal))]
fn is_first(old: Store, kinds: &Kinds, i: usize) -> bool
    requires { i < min old.count max_records }
    ensures { result ≡ is_head (removals_of kinds.now (take i (records_in old.entry))) (rec_of (block_at old.entry.area.now i)) }
{
    let b = old.block(i);
    for j in 0..i {
        if kind_covers(kinds[j], old.block(j), b) {
            return false;
        }
    }
    true
}

// The removal of record i, if it is sent. (Tried: `then`, here, in `addition_sent` and in `choose`; it was not proved.)
fn removal_sent<'a>(old: Store<'a>, kinds: &Kinds, i: usize) -> Option<Fields<'a>>
    requires { i < min old.count max_records }
    ensures { Gives (head_at (removals_of kinds.now (take i (records_in old.entry))) (get_or kinds.now i None) (rec_of (block_at old.entry.area.now i))) result }
{
    let kind = kinds[i]?;
    if is_first(old, kinds, i) {
        return Some(fields::removal(kind, old.block(i)));
    }
    None
}

// The addition of record i, if it is marked.
fn addition_sent<'a>(new: Store<'a>, marks: &Marks, i: usize) -> Option<Fields<'a>>
    requires { i < min new.count max_records }
    ensures { Gives (addition_at (get_or marks.now i false) (rec_of (block_at new.entry.area.now i))) result }
{
    if marks[i] {
        return Some(fields::addition(new.block(i)));
    }
    None
}

// The changes that a function gives for the records of a store, one behind another from a place on; the place behind them.
fn write_each<'a, F: Fn(usize) -> Option<Fields<'a>>>(
    out: &mut [u8],
    at: usize,
    store: Store,
    change: F,
) -> usize
    requires near { at ≤ 65536 }
    requires callable { (i : _) → i < min store.count max_records → F.pre change i }
    requires short { (i : _) (o : _) → i < min store.count max_records → F.post change i o → AllShort o }
    ensures { WroteEach (F.post change) (min store.entry.count max_records) out.old at out.new result }
{
    let mut end = at;
    for i in 0..store.len() {
        end = fields::write(out, end, change(i));
    }
    end
}

// One contract for each list: what `write_each` wrote can be said of each of the two closures, and not of any. That there is room for a
// message before a place is a bound on the place, which is a number that the writers hand on.
fn write_removals(out: &mut [u8], at: usize, old: Store, kinds: &Kinds) -> usize
    requires { at ≤ 65536 }
    ensures { Step (room * max_records) out.old at (changes_octets (map removal (heads [] kinds.now (records_in old.entry)))) out.new result }
{
    write_each(out, at, old, |i| removal_sent(old, kinds, i))
}

fn write_additions(out: &mut [u8], at: usize, new: Store, marks: &Marks) -> usize
    requires { at ≤ 65536 }
    ensures { Step (room * max_records) out.old at (changes_octets (additions (marked marks.now (records_in new.entry)))) out.new result }
{
    write_each(out, at, new, |i| addition_sent(new, marks, i))
}

// The length prefix, the header, and the TLV's type and length.
const FRONT: usize = 18;

const UNIDIRECTIONAL: u16 = 0x3000;

// What stands in front of changes that end at a place; the length of the whole. An empty list sends no PUSH. The casts are proved to
// lose nothing.
fn finish(out: &mut [u8], end: usize) -> usize
    requires { (front_length ≤ end) × (end < 2 ^ 16) }
    ensures { Fronted out.old end out.new result }
{
    if end == FRONT {
        return 0;
    }
    dso::write_header(out, (end - 2) as u16, dso::MessageId(0), UNIDIRECTIONAL);
    dso::write_tlv(out, 14, dso::TlvType::Push.into(), (end - FRONT) as u16);
    end
}

// The PUSH of additions alone.
fn write_added(out: &mut [u8], new: Store, added: &Marks) -> usize
    ensures { Pushed out.old (additions (marked added.now (records_in new.entry))) out.new result }
{
    let end = write_additions(out, FRONT, new, added);
    finish(out, end)
}

// What has changed in the store: the records that are gone from the old one, and those that are fresh in the new one.
#[derive(Clone, Copy)]
pub struct Change<'a> {
    pub old: Store<'a>,
    pub gone: &'a Marks,
    pub new: Store<'a>,
    pub fresh: &'a Marks,
}

// The kinds of the removals that a session is sent.
fn removal_kinds(change: Change, subs: Subscriptions) -> Kinds
    ensures { heads [] result (records_in change.entry.old) ≡ sent (records_in change.entry.new) (view (subscriptions_in subs.entry) (marked change.entry.gone.now (records_in change.entry.old))) }
{
    let leaving = visible(change.old, change.gone, subs);
    choose(change.old, &leaving, change.new)
}

// The PUSH that a session with these subscriptions is sent, from the front of its output on; how many octets it has. What does
// not fit is not written.
pub fn write_push(change: Change, subs: Subscriptions, out: &mut [u8]) -> usize
    ensures { Pushed out.old (changes_for (subscriptions_in subs.entry) (records_in change.entry.new) (marked change.entry.gone.now (records_in change.entry.old)) (marked change.entry.fresh.now (records_in change.entry.new))) out.new result }
{
    let kinds = removal_kinds(change, subs);
    let added = visible(change.new, change.fresh, subs);
    let middle = write_removals(out, FRONT, change.old, &kinds);
    let end = write_additions(out, middle, change.new, &added);
    finish(out, end)
}

// The first PUSH of a subscription to a question, from a place of the output on; how many octets it has.
pub fn write_first(store: Store, question: Question, out: &mut [u8], at: usize) -> usize
    ensures { (out.new ≡ sets out.old at (push_of (additions (keep (matches (subscription_for 0 question.entry)) (records_in store.entry))))) × (result ≡ length (push_of (additions (keep (matches (subscription_for 0 question.entry)) (records_in store.entry))))) }
{
    let marks = matched(store, question);
    let from = at.min(out.len());
    write_added(&mut out[from..], store, &marks)
}
