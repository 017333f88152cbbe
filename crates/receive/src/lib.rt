// What a received message does to its session: the judgment of its octets carried out.
#![tactic(auto)]

mod effect;
mod keepalive;
mod subscribing;

pub use effect::{Effect, Received};
pub use subscribing::receive;
