// Prints each response that dso writes, in hex with its length prefix: bench example 11 of 01 is the flags of NOTAUTH, 12 the
// data of the Keepalive response.
#![tactic(auto)]

use dso::{MessageId, ReplyCode, Response};
use std::fmt::Write;
use std::{fmt, io};

// Octets in hexadecimal digits. A line is one format, and so one write: a format of each octet took longer.
#[derive(Clone, Copy)]
struct Octets<'a>(&'a [u8]);

impl fmt::Display for Octets<'_> {
    fn fmt<W: fmt::Write>(&self, f: &mut fmt::Formatter<W>) -> fmt::Result {
        for b in self.0 {
            write!(f, "{b:02x}")?;
        }
        Ok(())
    }
}

fn show(rt: &impl Print, name: &str, id: u16, response: Response) -> io::Result<()> {
    let mut out = [0u8; 64];
    let n = dso::write_response(&mut out, MessageId(id), response);
    println!(rt; "{name} {}", Octets(&out[..n.min(out.len())]))
}

fn main(rt: HostRuntime) -> io::Result<()> {
    show(&rt, "FORMERR", 1, Response::Error(ReplyCode::FormErr))?;
    show(&rt, "SERVFAIL", 2, Response::Error(ReplyCode::ServFail))?;
    show(&rt, "NOTAUTH", 3, Response::Error(ReplyCode::NotAuth))?;
    show(&rt, "DSOTYPENI", 4, Response::Error(ReplyCode::DsoTypeNi))?;
    show(&rt, "Keepalive", 5, Response::Keepalive(dso::granted()))?;
    show(&rt, "SUBSCRIBE", 65535, Response::Subscribed)
}
