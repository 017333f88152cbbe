// Demand 3 stated about the calls' own promises; and calls in code, one after the other, of which it is proved.
#![tactic(auto)]

ghost use Rattle.server_message.specs.Lent.{areas_lent, areas_left};
ghost use Rattle.views.specs.Plays.{Continues, Plays};

use server::{Name, Outcome, Server, open, start};
use server_batch::batch;
use server_message::{Areas, Stores, Tables, message};
use service::{Refusal, SessionNumber};

// What an open, a message and a batch gave.
#[derive(Clone, Copy)]
pub struct Ran {
    pub opened: Outcome,
    pub heard: Outcome,
    pub told: Outcome,
}

// After any run: an open, a message to session 0, and a batch.
pub fn proceed(
    server: Server,
    zone: &Name,
    areas: Areas,
    t: u64,
    m: &[u8],
    bytes: &[u8],
    reply: &mut [u8],
    out: &mut [u8],
) -> Ran
    ensures { let before = areas_lent zone.now areas.entry in
        let after = areas_left zone.now areas.exit in
        Continues server before t m.now bytes.now
        reply.old reply.new out.old out.new result after }
{
    let Areas {
        first,
        second,
        s0,
        s1,
        s2,
        s3,
    } = areas;
    let opened = open(server, t);
    let stores = Stores {
        name: zone,
        first,
        second,
    };
    let tables = Tables { s0, s1, s2, s3 };
    let heard = message(opened.server, stores, tables, t, SessionNumber(0), m, reply);
    let told = batch(
        heard.server,
        zone,
        first,
        second,
        [s0, s1, s2, s3],
        t,
        bytes,
        out,
    );
    Ran {
        opened,
        heard,
        told,
    }
}

// The same on a fresh server, from its start; refused where the zone's name is no name.
pub fn play(
    name: &[u8],
    zone: &mut Name,
    areas: Areas,
    t: u64,
    m: &[u8],
    bytes: &[u8],
    reply: &mut [u8],
    out: &mut [u8],
) -> Result<Ran, Refusal>
    ensures { let after = areas_left zone.new areas.exit in
        Plays name.now t m.now bytes.now
        reply.old reply.new out.old out.new result after }
{
    let server = start(name, zone)?;
    Ok(proceed(server, zone, areas, t, m, bytes, reply, out))
}
