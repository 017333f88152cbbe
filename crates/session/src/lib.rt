// A session's two clocks and its table of subscriptions.
#![tactic(auto)]

mod clocks;
mod subscriptions;

pub use clocks::Clocks;
pub use subscriptions::{AREA, Area, SUBSCRIPTIONS, Subscriptions, append, is_full, remove};
