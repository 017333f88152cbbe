// The server's call batch: record edits, and what the sessions are told of them.
#![tactic(auto)]

mod pushing;

pub use pushing::{Tables, batch};
