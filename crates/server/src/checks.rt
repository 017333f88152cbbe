// The checks that calls share, in 01's order: 12, 11, 10, 18.
ghost use Rattle.std.specs.Prelude.{◌≡◌};
ghost use Rattle.service.specs.Checks.{is_short, is_long, is_absent, refusal_of};
ghost use Rattle.server.specs.Memory.{Memory, state_of};
ghost use Rattle.server.specs.Checks.{option_of, brought_of, time_alone, refused_by, first_of, tested_of, missing, message_brought};

use crate::output::LEAST_OUTPUT;
use crate::places::is_free;
use crate::state::{Context, SESSIONS, Server, Session};
use service::Refusal;

// 01: "Message: 65,535 bytes."
const MAX_MESSAGE: u64 = 65535;

// What a call brings to be checked: the length of its output slice, its time, its session number, the length of its message.
// It has the time always, and the others where they are given.
#[derive(Clone, Copy)]
pub struct Brought {
    pub output: Option<u64>,
    pub time: u64,
    pub session: Option<u64>,
    pub message: Option<u64>,
}

impl Brought {
    // A time alone.
    pub fn at(time: u64) -> Brought
        ensures { result ≡ time_alone time }
    {
        Brought {
            output: None,
            time,
            session: None,
            message: None,
        }
    }
}

fn is_short(output: Option<u64>) -> bool
    ensures { result ≡ is_short (option_of output) }
{
    output.is_some_and(|n| n < LEAST_OUTPUT)
}

fn is_long(message: Option<u64>) -> bool
    ensures { result ≡ is_long (option_of message) }
{
    message.is_some_and(|n| MAX_MESSAGE < n)
}

fn is_absent(server: Server, session: Option<u64>) -> bool
    ensures { (m : Memory) → result ≡ is_absent (state_of server m) (option_of session) }
{
    session.is_some_and(|i| is_free(server, i))
}

// The first of the four that fails decides. Four truths, as in the service's own order of its checks (service/Checks.refusal_of).
#[tactic(auto, unfolding(crate::specs::Checks::first_of))]
fn first_of(short: bool, early: bool, absent: bool, long: bool) -> Result<(), Refusal>
    ensures { refused_by result ≡ first_of short early absent long }
{
    if short {
        return Err(Refusal::OutputTooShort);
    }
    if early {
        return Err(Refusal::TimeBackwards);
    }
    if absent {
        return Err(Refusal::NoSession);
    }
    if long {
        return Err(Refusal::MessageTooLong);
    }
    Ok(())
}

// The four, where the latest time and whether the session is absent are known.
fn tested(latest: u64, absent: bool, b: Brought) -> Result<(), Refusal>
    ensures { refused_by result ≡ tested_of latest absent (brought_of b) }
{
    first_of(
        is_short(b.output),
        b.time < latest,
        absent,
        is_long(b.message),
    )
}

#[tactic(auto, unfolding(service::specs::Checks::refusal_of, crate::specs::Checks::first_of, crate::specs::Memory::state_of))]
pub fn check(server: Server, b: Brought) -> Result<(), Refusal>
    ensures { (m : Memory) → refused_by result ≡ refusal_of (state_of server m) (brought_of b) }
{
    tested(server.latest, is_absent(server, b.session), b)
}

// Whether a session of a number is absent, by its own numbers.
fn is_missing(i: u64, x: Session) -> bool
    ensures { result ≡ missing i x }
{
    SESSIONS <= i || !x.live
}

// The checks of a message on session i, given the lengths of its output slice and of its octets. (From usize to u64 there is no From.)
pub fn check_message(
    c: Context,
    time: u64,
    i: u64,
    output: usize,
    message: usize,
) -> Result<(), Refusal>
    ensures { refused_by result ≡ tested_of c.latest (missing i c.session) (message_brought time i output message) }
{
    let b = Brought {
        output: Some(output as u64),
        time,
        session: Some(i),
        message: Some(message as u64),
    };
    tested(c.latest, is_missing(i, c.session), b)
}
