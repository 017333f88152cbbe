// DNS Stateful Operations (RFC 8490): the judgment of a message from its octets alone, and the responses.
#![tactic(auto)]

mod data;
mod header;
mod judging;
mod judgment;
mod matching;
mod number;
mod opening;
mod reader;
mod response;
mod tlv;

pub use judging::judge;
pub use judgment::{Judged, Judgment, MessageId, Place, QuestionPlaces, RecordPlaces, ReplyCode};
pub use matching::{Question, asks_for, is_name};
pub use number::{NotImplemented, TlvType};
pub use response::{Response, Timeouts, granted, write_header, write_response, write_tlv};
