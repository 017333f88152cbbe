// What a tick does to the sessions.
ghost use Rattle.std.specs.Prelude.{◌≡◌, List, map, ℕ};
ghost use Rattle.service.specs.Call.{ends_at};
ghost use Rattle.server.specs.Memory.{Memory, slot_of, state_of};
ghost use Rattle.server.specs.Numbers.{kept_of, swept_by};

use crate::answer::Flags;
use crate::state::{Server, Session, vacant};

// Whether a tick at a time aborts a session.
fn ends(s: Session, t: u64) -> bool
    ensures { (area : List ℕ) → result ≡ ends_at t (slot_of s area) }
{
    s.live && s.clocks.expired(0 < s.count, t)
}

// Which sessions a tick at a time aborts.
pub fn due(server: Server, t: u64) -> Flags
    ensures { (m : Memory) → result ≡ map (ends_at t) (state_of server m).slots }
{
    server.sessions.map(|s| ends(s, t))
}

#[tactic(auto, unfolding(crate::specs::Numbers::kept_of))]
fn kept(s: Session, ended: bool) -> Session
    ensures { result ≡ kept_of ended s }
{
    if ended { vacant() } else { s }
}

// Without the sessions that are flagged.
pub fn swept(mut server: Server, flags: Flags) -> Server
    ensures { result ≡ swept_by flags server }
{
    for i in 0..flags.len() {
        server.sessions[i] = kept(server.sessions[i], flags[i]);
    }
    server
}
