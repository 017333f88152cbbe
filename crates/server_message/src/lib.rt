// The server's call message: how a session hears a DNS message.
#![tactic(auto)]

mod delivery;
mod lent;

pub use delivery::{hear, message};
pub use lent::{Areas, Stores, Tables};
