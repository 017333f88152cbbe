// The service as definitions (specs/) and demand 3 proved of them (proofs/). The code here is only the types that the
// definitions share with the server.
#![tactic(auto)]

mod refusal;

pub use refusal::{Refusal, SessionNumber};
