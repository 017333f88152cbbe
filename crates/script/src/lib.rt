// The lines of the replay program (01, "The replay program"): the input cut into lines, reading one, and writing one. Fields,
// numbers and octets in hexadecimal digits are there for other programs over lines too.
#![tactic(auto)]

mod number;
mod reader;
mod search;
mod stream;
mod verb;
mod writer;

pub use number::read_number;
pub use reader::{Bytes, Command, read_bytes, read_line};
pub use search::{first, parted};
pub use stream::{Line, Taken, cut};
pub use verb::Verb;
pub use writer::{OutputLine, place, put_hex, write_line};
