// A server's numbers in the words that a C host lends, which any words are. Between `usize` and `u64` there is no `From`, so the casts stay.
ghost use Rattle.std.specs.Prelude.{◌+◌, ◌<◌, ◌≤◌, ◌≡◌, length, []};
ghost use Rattle.service.specs.State.{max_sessions};
ghost use Rattle.server.specs.Numbers.{session_at, context_of, at_time, swept_by};
ghost use Rattle.server.specs.Changes.{change_numbers};
ghost use Rattle.words.specs.Words.{timeout, place_of, session_in, server_of, ended_at};
ghost use Rattle.words.specs.Words.{session_words, Timed, Saved, Stored, SavedSession, SavedDecision};

use server::{Change, Context, Decision, Flags, SESSIONS, Server, Session, opened, vacant};
use session::Clocks;

pub const WORDS: usize = 28;

// Four words of the server, then six of each session.
pub type Words = [u64; WORDS];

// 32 bits of a word count.
fn timeout_of(word: u64) -> u32
    ensures { result ≡ timeout word }
{
    (word % 4294967296) as u32
}

// Where the words of a session begin.
fn place_of(i: u64) -> usize
    requires { i < max_sessions }
    ensures { result ≡ place_of i }
{
    4 + 6 * (i as usize)
}

// The session whose words begin at a place.
fn session_in(words: &Words, at: usize) -> Session
    requires { at + 6 ≤ 28 }
    ensures { result ≡ session_in words.now at }
{
    let clocks = Clocks {
        active: words[at + 1],
        alive: words[at + 2],
        inactivity: timeout_of(words[at + 3]),
        keepalive: timeout_of(words[at + 4]),
    };
    Session {
        live: words[at] != 0,
        clocks,
        count: words[at + 5] as usize,
    }
}

#[tactic(auto, unfolding(crate::specs::Words::server_of))]
pub fn load(words: &Words) -> Server
    ensures { result ≡ server_of words.now }
{
    Server {
        latest: words[0],
        zone: words[1] as usize,
        records: words[2] as usize,
        second: words[3] != 0,
        // By their places: over a map of the four numbers it was not proved that each place lies within the words.
        sessions: [
            session_in(words, place_of(0)),
            session_in(words, place_of(1)),
            session_in(words, place_of(2)),
            session_in(words, place_of(3)),
        ],
    }
}

// The session of a number; past the last one a vacant place.
fn session_at(words: &Words, i: u64) -> Session
    ensures { result ≡ session_at i (server_of words.now) }
{
    if i < SESSIONS {
        session_in(words, place_of(i))
    } else {
        vacant()
    }
}

// What a message of one session needs. It reads the server's words itself, as `load` does: through `load` a message would read all 28
// (docs/DECISIONS.md, "A message reads and writes its session's words alone").
#[tactic(auto, unfolding(crate::specs::Words::server_of))]
pub fn load_context(words: &Words, i: u64) -> Context
    ensures { result ≡ context_of i (server_of words.now) }
{
    Context {
        latest: words[0],
        zone: words[1] as usize,
        records: words[2] as usize,
        second: words[3] != 0,
        session: session_at(words, i),
    }
}

// A session's six words.
fn session_words(x: Session) -> [u64; 6]
    ensures words { result ≡ session_words x [] }
    ensures timed { Timed x }
{
    let clocks = x.clocks;
    [
        u64::from(x.live),
        clocks.active,
        clocks.alive,
        u64::from(clocks.inactivity),
        u64::from(clocks.keepalive),
        x.count as u64,
    ]
}

// A session's six words from a place on. One by one: with `copy_from_slice` of the array a message took 31 instructions in this crate's
// functions, where it takes 10.
fn store_session(words: &mut [u64], at: usize, x: Session)
    requires { at + 6 ≤ length words.old }
    ensures { Stored x at words.old words.new }
{
    let [live, active, alive, inactivity, keepalive, count] = session_words(x);
    words[at] = live;
    words[at + 1] = active;
    words[at + 2] = alive;
    words[at + 3] = inactivity;
    words[at + 4] = keepalive;
    words[at + 5] = count;
}

pub fn save(words: &mut Words, server: Server)
    ensures { Saved server words.new }
{
    words[0] = server.latest;
    words[1] = server.zone as u64;
    words[2] = server.records as u64;
    words[3] = u64::from(server.second);
    for i in 0..SESSIONS {
        store_session(words, place_of(i), server.sessions[i as usize]);
    }
}

// The time and one session's words alone: what a message, an open or a close changes. Past the last session there are no words.
pub fn save_session(words: &mut Words, t: u64, i: u64, x: Session)
    ensures { SavedSession t i x words.old words.new }
{
    words[0] = t;
    if i < SESSIONS {
        store_session(words, place_of(i), x);
    }
}

// The time, and a session's words where it is aborted: past the last session there are none to write.
fn end_session(words: &mut Words, t: u64, ended: bool, i: u64)
    ensures { server_of words.new ≡ ended_at t ended i (server_of words.old) }
{
    if ended {
        save_session(words, t, i, vacant());
    } else {
        words[0] = t;
    }
}

// The time, and the words of the sessions that are aborted.
fn end_sessions(words: &mut Words, t: u64, flags: Flags)
    ensures { server_of words.new ≡ at_time t (swept_by flags (server_of words.old)) }
{
    words[0] = t;
    for i in 0..SESSIONS {
        end_session(words, t, flags[i as usize], i);
    }
}

// The words that a change at a time leaves.
#[tactic(auto, unfolding(server::specs::Changes::change_numbers))]
fn save_change(words: &mut Words, t: u64, change: Change)
    ensures { server_of words.new ≡ change_numbers t change (server_of words.old) }
{
    match change {
        Change::Opens(i) => save_session(words, t, i, opened(t)),
        Change::Closes(i) => save_session(words, t, i, vacant()),
        Change::Ends(flags) => end_sessions(words, t, flags),
    }
}

// A refusal leaves them all.
pub fn save_decision(words: &mut Words, t: u64, decision: Decision)
    ensures { SavedDecision t decision words.old words.new }
{
    if let Ok(change) = decision {
        save_change(words, t, change);
    }
}
