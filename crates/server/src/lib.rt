// The server: its numbers, its answers, the checks that calls share, and the calls that need no octets. Message and batch are
// crates above this one.
#![tactic(auto)]

mod answer;
mod calls;
mod change;
mod checks;
mod number;
mod output;
mod places;
mod starting;
mod state;
mod ticking;

pub use answer::{Answer, Counts, Flags, Heard, Outcome, refused};
pub use calls::{close, decide_close, decide_open, decide_tick, open, tick};
pub use change::{Change, Decision, decision_answer};
pub use checks::{Brought, check, check_message};
pub use number::{LAST_ACCEPTED, answer_number, fault_number, refusal_number};
pub use output::output_at;
pub use starting::{Name, start};
pub use state::{Context, SESSIONS, Server, Session, context_at, opened, replaced, vacant};
