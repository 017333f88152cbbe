// Batch: record edits, and the PUSH for each session whose view they change.
// That the output is no shorter than `least_output` is found by `check` alone, and asked as far as `tell`, which cuts the output: a type that
// holds it would be a struct with a `&mut`, and each clause would name its reference. That i is a session's number is the loop's bound, asked there too.
ghost use Rattle.std.specs.Prelude.{◌*◌, ◌≤◌, ◌<◌, ◌≡◌, length, true};
ghost use Rattle.zone.specs.Table.{records_in};
ghost use Rattle.service.specs.Call.{Bytes, Call, push_to, edits};
ghost use Rattle.service.specs.State.{max_sessions};
ghost use Rattle.service.specs.Checks.{output_size, least_output};
ghost use Rattle.server.specs.Memory.{slot_of};
ghost use Rattle.server.specs.Answers.{Serves};
ghost use Rattle.server_batch.specs.Pushing.{Tells, Changed, TellsAll, told_in, committed_of, Edits};
ghost use Rattle.server_batch.specs.Pushing.{slots_at, areas_in, memory_lent, given};
ghost use Rattle.std.proofs.Math.Pow.{are_bytes};

use notify::{Change, arrived, departed, write_push};
use server::{
    Answer, Brought, Counts, Name, Outcome, SESSIONS, Server, Session, check, output_at, refused,
};
use service::Refusal;
use session::Subscriptions;
use table::part;
use zone::Store;

// Each session's subscriptions.
pub type Tables<'a> = [&'a session::Area; SESSIONS as usize];

// The PUSH of session i, in its part of the output; how many bytes it has.
fn tell(x: Session, i: usize, change: Change<'_>, subs: &session::Area, out: &mut [u8]) -> usize
    requires { (i < max_sessions) × (least_output ≤ length out.old) × Changed change }
    ensures { let push = push_to (records_in change.entry.old) (records_in change.entry.new) (slot_of x subs.now) in
        Tells push (i * output_size) out.old out.new result }
{
    if x.live {
        let at = output_at(i as u32);
        let subs = Subscriptions {
            area: subs,
            count: x.count,
        };
        return write_push(change, subs, &mut out[at..]);
    }
    0
}

// Those of all sessions.
fn tell_all(server: Server, change: Change<'_>, tables: Tables<'_>, out: &mut [u8]) -> Counts
    requires { (least_output ≤ length out.old) × Changed change }
    ensures { let slots = slots_at server (areas_in tables.entry) in
        TellsAll (records_in change.entry.old) (records_in change.entry.new) slots out.old out.new result }
{
    let mut counts = [0; SESSIONS as usize];
    for i in 0..SESSIONS as usize {
        counts[i] = tell(server.sessions[i], i, change, tables[i], out);
    }
    counts
}

// 1 where nothing is written.
#[tactic(auto, unfolding(crate::specs::Pushing::told_in))]
fn told(counts: Counts) -> Answer
    ensures { result ≡ told_in counts }
{
    if counts.iter().all(|n| *n == 0) {
        return Answer::Done;
    }
    Answer::Sent(counts)
}

// The other area holds the store.
#[tactic(auto, unfolding(crate::specs::Pushing::committed_of))]
fn committed(server: Server, t: u64, records: usize) -> Server
    ensures { result ≡ committed_of t records server }
{
    Server {
        latest: t,
        records,
        second: !server.second,
        ..server
    }
}

// What the batch changes is found once, for all sessions.
fn announced(
    server: Server,
    old: Store<'_>,
    new: Store<'_>,
    tables: Tables<'_>,
    out: &mut [u8],
) -> Counts
    requires { least_output ≤ length out.old }
    ensures { let slots = slots_at server (areas_in tables.entry) in
        TellsAll (records_in old.entry) (records_in new.entry) slots out.old out.new result }
{
    let change = Change {
        old,
        gone: &departed(old, new),
        new,
        fresh: &arrived(old, new),
    };
    tell_all(server, change, tables, out)
}

// What a batch that is not refused comes to: how many records there are then, and how many bytes for each session.
#[derive(Clone, Copy)]
struct Stored {
    records: usize,
    counts: Counts,
}

// From the area that holds the store into the other one, which then holds it. A fault leaves the first as it was. The parameters of this
// function and of `checked` are those of `batch`, the documented call: of the two areas one is read and the other written, in turn.
fn edit(
    server: Server,
    zone: &Name,
    old: &zone::Area,
    new: &mut zone::Area,
    tables: Tables<'_>,
    t: u64,
    bytes: &[u8],
    out: &mut [u8],
) -> Result<Stored, Refusal>
    requires { least_output ≤ length out.old }
    ensures { Edits server t zone.now old.now new.new (areas_in tables.entry) bytes.now out.old out.new (given server t result) }
{
    let old = Store {
        area: old,
        count: server.records,
    };
    let records = zone::batch(part(zone, 0, server.zone), bytes, old, new)?;
    let new = Store {
        area: new,
        count: records,
    };
    Ok(Stored {
        records,
        counts: announced(server, old, new, tables, out),
    })
}

// The checks, and then the edits.
fn checked(
    server: Server,
    zone: &Name,
    first: &mut zone::Area,
    second: &mut zone::Area,
    tables: Tables<'_>,
    t: u64,
    bytes: &[u8],
    out: &mut [u8],
) -> Result<Stored, Refusal>
    ensures { (
        let before = memory_lent zone.now first.old second.old (areas_in tables.entry) in
        let after = memory_lent zone.now first.new second.new (areas_in tables.entry) in
        let call : Bytes → Call = λ lent. edits t lent out.old in
        (small : are_bytes bytes.now ≡ true)
        → Serves server before (call (record { list = bytes.now; small = small })) (given server t result) after out.new) }
{
    let b = Brought {
        output: Some(out.len() as u64),
        ..Brought::at(t)
    };
    check(server, b)?;
    // Two calls: a pair of areas chosen first, `let (old, new) = if ..`, isn't covered by the borrow checker, and a function that hands such
    // a pair back would owe in a clause what the caller's writes make of each area.
    if server.second {
        edit(server, zone, second, first, tables, t, bytes, out)
    } else {
        edit(server, zone, first, second, tables, t, bytes, out)
    }
}

// A refusal hands back the very numbers that came in.
fn concluded(server: Server, t: u64, r: Result<Stored, Refusal>) -> Outcome
    ensures { result ≡ given server t r }
{
    match r {
        Ok(stored) => Outcome {
            server: committed(server, t, stored.records),
            answer: told(stored.counts),
        },
        Err(why) => refused(server, why),
    }
}

pub fn batch(
    server: Server,
    zone: &Name,
    first: &mut zone::Area,
    second: &mut zone::Area,
    tables: Tables<'_>,
    t: u64,
    bytes: &[u8],
    out: &mut [u8],
) -> Outcome
    ensures serves { (
        let before = memory_lent zone.now first.old second.old (areas_in tables.entry) in
        let after = memory_lent zone.now first.new second.new (areas_in tables.entry) in
        let call : Bytes → Call = λ lent. edits t lent out.old in
        (small : are_bytes bytes.now ≡ true)
        → Serves server before (call (record { list = bytes.now; small = small })) result after out.new) }
    ensures small { are_bytes bytes.now ≡ true }
{
    let r = checked(server, zone, first, second, tables, t, bytes, out);
    concluded(server, t, r)
}
