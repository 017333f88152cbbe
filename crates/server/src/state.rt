// The server's numbers. The octets of names, RDATA and subscriptions stand in memory that the caller lends with each call.
ghost use Rattle.std.specs.Prelude.{◌≡◌};
ghost use Rattle.server.specs.Numbers.{bare_of, vacancy, newcomer, session_at, context_of, put_session, at_time, fresh_of};

use session::Clocks;

// Numbers of sessions are u64, as C has them, and an array's places usize: between the two there is no From, but `as` alone.
pub const SESSIONS: u64 = 4;

// One session: whether it is open, its clocks, and how many subscriptions it has. No Option of the other two: any words of a
// C host are a server (words/Words.server_of), and what a closed place's words hold is loaded and saved as it is (Words.Saved).
#[derive(Clone, Copy)]
pub struct Session {
    pub live: bool,
    pub clocks: Clocks,
    pub count: usize,
}

#[derive(Clone, Copy)]
pub struct Server {
    // The latest accepted time.
    pub latest: u64,
    // How many octets the zone's name has.
    pub zone: usize,
    // How many records there are.
    pub records: usize,
    // Which of the two areas holds the records: the second or the first (a word of the C host that is 0 or not).
    pub second: bool,
    pub sessions: [Session; SESSIONS as usize],
}

// What a message of one session needs of the numbers.
#[derive(Clone, Copy)]
pub struct Context {
    pub latest: u64,
    pub zone: usize,
    pub records: usize,
    // As the server has it.
    pub second: bool,
    pub session: Session,
}

// With no subscription, and both clocks started at a time.
fn bare(live: bool, t: u64) -> Session
    ensures { result ≡ bare_of live t }
{
    Session {
        live,
        clocks: Clocks::started(t),
        count: 0,
    }
}

// A place that no session has.
pub fn vacant() -> Session
    ensures { result ≡ vacancy }
{
    bare(false, 0)
}

// A session that is opened at a time.
pub fn opened(t: u64) -> Session
    ensures { result ≡ newcomer t }
{
    bare(true, t)
}

// A server whose zone's name has so many octets: no session, no record, the clock at 0.
#[tactic(auto, unfolding(crate::specs::Numbers::fresh_of))]
pub fn fresh(zone: usize) -> Server
    ensures { result ≡ fresh_of zone }
{
    Server {
        latest: 0,
        zone,
        records: 0,
        second: false,
        sessions: [vacant(); SESSIONS as usize],
    }
}

// The session of a number; past the last one a vacant place. (Tried: `copied` and `unwrap_or`; what it returns was not proved.)
pub fn session_at(server: Server, i: u64) -> Session
    ensures { result ≡ session_at i server }
{
    match server.sessions.get(i as usize) {
        Some(x) => *x,
        None => vacant(),
    }
}

pub fn context_at(server: Server, i: u64) -> Context
    ensures { result ≡ context_of i server }
{
    Context {
        latest: server.latest,
        zone: server.zone,
        records: server.records,
        second: server.second,
        session: session_at(server, i),
    }
}

// With another session at a number; past the last one nothing changes.
pub fn with_session(mut server: Server, i: u64, s: Session) -> Server
    ensures { result ≡ put_session i s server }
{
    if i < SESSIONS {
        server.sessions[i as usize] = s;
    }
    server
}

// With the time as the latest.
#[tactic(auto, unfolding(crate::specs::Numbers::at_time))]
pub fn at_time(mut server: Server, t: u64) -> Server
    ensures { result ≡ at_time t server }
{
    server.latest = t;
    server
}

// A session is replaced at a time.
pub fn replaced(server: Server, t: u64, i: u64, s: Session) -> Server
    ensures { result ≡ at_time t (put_session i s server) }
{
    at_time(with_session(server, i, s), t)
}
