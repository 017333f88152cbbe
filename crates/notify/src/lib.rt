// Change notifications in octets: the PUSH for a session from an old and a new store, and the first PUSH of a subscription.
#![tactic(auto)]

mod choice;
mod fields;
mod marks;
mod message;
mod removal;

pub use marks::{Marks, arrived, departed};
pub use message::{Change, write_first, write_push};
