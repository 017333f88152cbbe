// The wire layer: fields of 16 and 32 bits, names, and octets written into lent memory.
#![tactic(auto)]

mod field;
mod name;
mod write;

pub use field::{Field, read_field, write_field};
pub use name::{name_at, same_name, same_octets, within};
pub use write::write_octets;
