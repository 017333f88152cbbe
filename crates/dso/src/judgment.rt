// What a message's octets alone say.
ghost use Rattle.std.specs.Prelude.{◌≡◌};
ghost use Rattle.dso.specs.Response.{rcode_of};

// A message ID (RFC 8490, 5.4.1), a type of its own so that no session number can be passed for it.
#[derive(Clone, Copy)]
pub struct MessageId(pub u16);

// Where a part stands in a message: its first octet, and how many octets it has.
#[derive(Clone, Copy)]
pub struct Place {
    pub start: usize,
    pub len: usize,
}

// The places of what a SUBSCRIBE asks for.
#[derive(Clone, Copy)]
pub struct QuestionPlaces {
    pub name: Place,
    pub rtype: Place,
    pub class: Place,
}

// The places of the record that a RECONFIRM disputes.
#[derive(Clone, Copy)]
pub struct RecordPlaces {
    pub name: Place,
    pub rtype: Place,
    pub class: Place,
    pub rdata: Place,
}

// The RCODE of a reply with an error. The octets alone lead to the first and the last; the other two are the server's.
#[derive(Clone, Copy)]
pub enum ReplyCode {
    FormErr = 1,
    ServFail = 2,
    NotAuth = 9,
    DsoTypeNi = 11,
}

impl From<ReplyCode> for u16 {
    ghost from_gives = { λ code number. number ≡ rcode_of code };

    fn from(code: ReplyCode) -> u16 {
        code as u16
    }
}

#[derive(Clone, Copy)]
pub enum Judgment {
    // The opcode is not 6: another part of the host handles the message.
    NotOurs,
    // The session is to be forcibly aborted.
    Abort,
    // A reply with an error, to the request of this ID.
    Reply(MessageId, ReplyCode),
    Keepalive(MessageId),
    Subscribe(MessageId, QuestionPlaces),
    // The ID of the subscription to cancel.
    Unsubscribe(MessageId),
    Reconfirm(RecordPlaces),
}

// A judgment, and whether the message's first TLV is a Keepalive and was looked at (step 4 of 01 reached, a malformed
// one too): such a message restarts the keepalive clock alone. The flag is no variant of the judgment, since it stands beside
// an error and an abort too (`specs/Judge.judged`, of which the definitions of the service speak).
#[derive(Clone, Copy)]
pub struct Judged {
    pub judgment: Judgment,
    pub keepalive: bool,
}
