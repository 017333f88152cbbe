// One line of input, answered.
ghost use Rattle.std.specs.Prelude.{◌≡◌, true, Some};
ghost use Rattle.std.proofs.Math.Pow.{are_bytes};
ghost use Rattle.script.specs.Line.{octets_in};
ghost use Rattle.script.specs.Code.{command_line};
ghost use Rattle.server.specs.Memory.{state_of};
ghost use Rattle.transcript.specs.Responses.{step_of, response_to, Tells};
ghost use Rattle.server_message.specs.Lent.{areas_lent, areas_left};
ghost use Rattle.replay.specs.Performing.{Performs};

use script::{Bytes, Command, read_line};
use server::{Name, Outcome, Server, close, open, tick};
use server_batch::batch;
use server_message::{Areas, Stores, Tables, message};
use service::SessionNumber;
use table::part;
use transcript::{Output, Text, write_response};

// The server's numbers as they are then, and how many octets of lines stand at the front of the text.
#[derive(Clone, Copy)]
pub struct Response {
    pub server: Server,
    pub length: usize,
}

// Makes the call that a line is.
fn perform(
    server: Server,
    zone: &Name,
    areas: Areas,
    command: Command,
    bytes: &Bytes,
    out: &mut Output,
) -> Outcome
    ensures { let before = areas_lent zone.now areas.entry in
        let after = areas_left zone.now areas.exit in
        let line = command_line (Some command) bytes.now in
        (small : are_bytes (octets_in line) ≡ true)
        → Performs server result after out.new (step_of (state_of server before) out.old line small) }
{
    let Areas {
        first,
        second,
        s0,
        s1,
        s2,
        s3,
    } = areas;
    match command {
        Command::Open(t) => open(server, t),
        Command::Close(t, s) => close(server, t, SessionNumber(s)),
        Command::Message(t, s, n) => {
            let stores = Stores {
                name: zone,
                first,
                second,
            };
            let tables = Tables { s0, s1, s2, s3 };
            let m = part(bytes, 0, n);
            message(server, stores, tables, t, SessionNumber(s), m, out)
        }
        Command::Batch(t, n) => {
            let edits = part(bytes, 0, n);
            batch(server, zone, first, second, [s0, s1, s2, s3], t, edits, out)
        }
        Command::Tick(t) => tick(server, t),
    }
}

pub fn respond(
    server: Server,
    zone: &Name,
    areas: Areas,
    line: &[u8],
    bytes: &mut Bytes,
    out: &mut Output,
    text: &mut Text,
) -> Response
    ensures { let before = areas_lent zone.now areas.entry in
        let after = areas_left zone.now areas.exit in
        Tells server result.server after out.new text.old text.new result.length
        (response_to (state_of server before) out.old line.now) }
{
    let Some(command) = read_line(line, bytes) else {
        return Response {
            server,
            length: write_response(None, None, out, text),
        };
    };
    let done = perform(server, zone, areas, command, bytes, out);
    Response {
        server: done.server,
        length: write_response(Some(command), Some(done.answer), out, text),
    }
}
