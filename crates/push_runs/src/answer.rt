// What is written: a line for each line of input.
use std::io;
use table::part;
use zone::BatchFault;

// Room for the digits of the longest PUSH, and the end of the line. An even number: two digits then fit or none does, which the compiler
// sees.
const TEXT: usize = 32770;

// A PUSH in hexadecimal digits, or that there is none, and the end of the line. The digits are script's, since those are promised;
// and a format of each octet takes longer.
fn end_line(rt: &impl Print, push: &[u8]) -> io::Result<()> {
    if push.is_empty() {
        return rt.write_all(b"-\n");
    }
    let mut text = [0u8; TEXT];
    let n = script::put_hex(&mut text, 0, push);
    if let Some(end) = text.get_mut(n) {
        *end = b'\n';
    }
    rt.write_all(part(&text, 0, n.saturating_add(1)))
}

pub fn unreadable(rt: &impl Print) -> io::Result<()> {
    println!(rt; "?")
}

pub fn fresh(rt: &impl Print) -> io::Result<()> {
    println!(rt; "fresh\t-")
}

pub fn subscribed(rt: &impl Print, push: &[u8]) -> io::Result<()> {
    print!(rt; "subscribe\t")?;
    end_line(rt, push)
}

pub fn unsubscribed(rt: &impl Print) -> io::Result<()> {
    println!(rt; "unsubscribe\t-")
}

fn batch(rt: &impl Print, answer: u32, push: &[u8]) -> io::Result<()> {
    print!(rt; "batch\t{answer}\t")?;
    end_line(rt, push)
}

// 01, "The answer numbers": 2 where there is a PUSH, 1 where there is none.
pub fn stored(rt: &impl Print, push: &[u8]) -> io::Result<()> {
    batch(rt, if push.is_empty() { 1 } else { 2 }, push)
}

pub fn refused(rt: &impl Print, fault: BatchFault) -> io::Result<()> {
    batch(rt, server::fault_number(fault), &[])
}
