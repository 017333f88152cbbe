// The calls that need no octets: open, close, tick. Of each what it decides is told alone, and then with all the numbers.
ghost use Rattle.std.specs.Prelude.{[]};
ghost use Rattle.service.specs.Call.{open_outcome, opens, closes, ticks};
ghost use Rattle.server.specs.Memory.{Memory, state_of};
ghost use Rattle.server.specs.Answers.{Gives, Serves};
ghost use Rattle.server.specs.Changes.{decided_by};

use crate::answer::Outcome;
use crate::change::{Change, Decision, decided};
use crate::checks::{Brought, check};
use crate::places::lowest_free;
use crate::state::Server;
use crate::ticking::due;
use service::{Refusal, SessionNumber};

// After the checks.
fn open_lowest(server: Server, time: u64) -> Decision
    ensures { (m : Memory) → Gives server (decided_by server time result) m [] (open_outcome (state_of server m) time) }
{
    let i = lowest_free(server).ok_or(Refusal::AllOpen)?;
    Ok(Change::Opens(i))
}

pub fn decide_open(server: Server, time: u64) -> Decision
    ensures { (m : Memory) → Serves server m (opens time) (decided_by server time result) m [] }
{
    check(server, Brought::at(time))?;
    open_lowest(server, time)
}

pub fn decide_close(server: Server, time: u64, session: SessionNumber) -> Decision
    ensures { (m : Memory) → Serves server m (closes time session.0) (decided_by server time result) m [] }
{
    let i = session.0;
    let b = Brought {
        session: Some(i),
        ..Brought::at(time)
    };
    check(server, b)?;
    Ok(Change::Closes(i))
}

pub fn decide_tick(server: Server, time: u64) -> Decision
    ensures { (m : Memory) → Serves server m (ticks time) (decided_by server time result) m [] }
{
    check(server, Brought::at(time))?;
    Ok(Change::Ends(due(server, time)))
}

pub fn open(server: Server, time: u64) -> Outcome
    ensures { (m : Memory) → Serves server m (opens time) result m [] }
{
    decided(server, time, decide_open(server, time))
}

pub fn close(server: Server, time: u64, session: SessionNumber) -> Outcome
    ensures { (m : Memory) → Serves server m (closes time session.0) result m [] }
{
    decided(server, time, decide_close(server, time, session))
}

pub fn tick(server: Server, time: u64) -> Outcome
    ensures { (m : Memory) → Serves server m (ticks time) result m [] }
{
    decided(server, time, decide_tick(server, time))
}
