// What a C host lends beside the octets: the server's numbers as words, and the values of an answer.
#![tactic(auto)]

mod values;
mod words;

pub use values::{Values, put};
pub use words::{Words, load, load_context, save, save_decision, save_session};
