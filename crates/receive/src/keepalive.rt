// Keepalive (RFC 8490, 7.1).
ghost use Rattle.service.specs.Message.{kept_alive};
ghost use Rattle.receive.specs.Effect.{Does, session_of};

use crate::effect::{Effect, Numbers, Received};
use dso::{MessageId, Response};
use session::Subscriptions;

// The reply's timeouts hold from then on.
#[tactic(auto, unfolding(service::specs::Message::kept_alive))]
pub fn keep_alive(numbers: Numbers, subs: &session::Area, id: MessageId, out: &mut [u8]) -> Received
    ensures { Does (kept_alive id (session_of numbers.clocks numbers.count subs.now)) result subs.now out.old out.new }
{
    let count = numbers.count;
    if (Subscriptions { area: subs, count }).uses_id(id.0) {
        return numbers.with(Effect::Abort);
    }
    let timeouts = dso::granted();
    let clocks = numbers.clocks.granted(timeouts);
    Numbers { clocks, count }.reply(id, Response::Keepalive(timeouts), out)
}
