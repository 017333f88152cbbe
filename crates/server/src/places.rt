// Which places are free.
ghost use Rattle.std.specs.Prelude.{◌≡◌};
ghost use Rattle.service.specs.State.{slot_at, lowest_free};
ghost use Rattle.service.specs.Checks.{is_free};
ghost use Rattle.server.specs.Memory.{Memory, state_of};
ghost use Rattle.server.specs.Checks.{option_of};

use crate::state::{SESSIONS, Server, session_at};

// Whether no session is open at a number; above 3 there never is.
#[tactic(auto, using(crate::proofs::Vacancies::free_at))]
pub fn is_free(server: Server, i: u64) -> bool
    ensures { (m : Memory) → result ≡ is_free (slot_at (state_of server m) i) }
{
    !session_at(server, i).live
}

// The lowest free number.
pub fn lowest_free(server: Server) -> Option<u64>
    ensures { (m : Memory) → option_of result ≡ lowest_free (state_of server m).slots }
{
    (0..SESSIONS).find(|i| is_free(server, *i))
}
