// The zone: resource records, the store in lent memory, and batches of edits.
#![tactic(auto)]

mod editing;
mod reading;
mod records;

pub use editing::{EDITS, batch};
pub use reading::{Edit, allowed, checked_edit, read_edit};
pub use records::{AREA, Area, BLOCK, Block, RECORDS, RecordKey, Store, Zone, clamped};

// Why a batch is refused (01, answers 16, 14, 15 and 17).
#[derive(Clone, Copy, PartialEq, Eq, Debug)]
pub enum BatchFault {
    TooManyEdits,
    Unreadable,
    BadValue,
    StoreFull,
}
