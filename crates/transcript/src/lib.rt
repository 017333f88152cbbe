// The lines that the replay program writes for a line of input (01, "The replay program").
#![tactic(auto)]

mod lines;
mod note;
mod own;
mod response;

pub use lines::{Output, Text, Told, write_lines};
pub use response::write_response;
