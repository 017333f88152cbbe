// What became of a session by a message.
ghost use Rattle.std.specs.Prelude.{◌≡◌};
ghost use Rattle.std.proofs.lemmas.List.Edits.{sets};
ghost use Rattle.dso.specs.Response.{response_octets};
ghost use Rattle.receive.specs.Effect.{handed, replied};

use dso::{MessageId, RecordPlaces, Response};
use session::Clocks;

#[derive(Clone, Copy)]
pub enum Effect {
    // The session is forcibly aborted.
    Abort,
    // Nothing is sent.
    Nothing,
    // So many octets stand at the front of the output.
    Reply(usize),
    // The opcode is not 6: another part of the host handles the message.
    Others,
    // RECONFIRM: where the parts of its record stand in the message.
    Places(RecordPlaces),
}

// The session's clocks, how many subscriptions it has, and the effect. After an abort the session is gone, and the first two
// say nothing.
#[derive(Clone, Copy)]
pub struct Received {
    pub clocks: Clocks,
    pub count: usize,
    pub effect: Effect,
}

// A session's numbers while a message is received: its clocks, and how many subscriptions it has. The memory of the subscriptions and
// the output are written, so they are lent beside them: each contract then says what it leaves in either.
#[derive(Clone, Copy)]
pub struct Numbers {
    pub clocks: Clocks,
    pub count: usize,
}

impl Numbers {
    pub fn with(self, effect: Effect) -> Received
        ensures { result ≡ handed self.clocks self.count effect }
    {
        Received {
            clocks: self.clocks,
            count: self.count,
            effect,
        }
    }

    // A response alone, at the front of the output.
    pub fn reply(self, id: MessageId, response: Response, out: &mut [u8]) -> Received
        ensures { (result ≡ replied self.clocks self.count (response_octets id.0 response)) × (out.new ≡ sets out.old 0 (response_octets id.0 response)) }
    {
        self.with(Effect::Reply(dso::write_response(out, id, response)))
    }
}
