// The three questions and their answers.
use dso::is_name;
use script::{parted, read_bytes, read_number};
use std::io;
use table::part;

// Room for a name and more: longer fields are unreadable.
type Octets = [u8; 300];

fn unreadable(rt: &impl Print) -> io::Result<()> {
    rt.write_all(b"?\n")
}

fn read(rt: &impl Print, octets: &[u8], at: usize) -> io::Result<()> {
    rt.write_all(b"read\t")?;
    let Some(n) = wire::name_at(octets, at) else {
        return rt.write_all(b"-\n");
    };
    println!(rt; "{n}")
}

fn ask_read(rt: &impl Print, place: &[u8], hex: &[u8]) -> io::Result<()> {
    let mut space: Octets = [0u8; 300];
    let Some(n) = read_bytes(hex, &mut space) else {
        return unreadable(rt);
    };
    let Some(at) = read_number(place) else {
        return unreadable(rt);
    };
    // Rust has no From for a usize of a u64; here both have 64 bits, so the cast loses nothing and there is no refusal to answer.
    read(rt, part(&space, 0, n), at as usize)
}

// Whether something holds of two names; neither yes nor no where one is no whole name.
fn compare<F: Fn(&[u8], &[u8]) -> bool>(
    rt: &impl Print,
    left: &[u8],
    right: &[u8],
    holds: F,
) -> io::Result<()>
    requires { F.IsAlwaysCallable holds }
{
    if !is_name(left) || !is_name(right) {
        rt.write_all(b"-\n")
    } else if holds(left, right) {
        rt.write_all(b"yes\n")
    } else {
        rt.write_all(b"no\n")
    }
}

fn ask_two<F: Fn(&[u8], &[u8]) -> bool>(
    rt: &impl Print,
    label: &[u8],
    first: &[u8],
    second: &[u8],
    holds: F,
) -> io::Result<()>
    requires { F.IsAlwaysCallable holds }
{
    let mut left: Octets = [0u8; 300];
    let Some(n) = read_bytes(first, &mut left) else {
        return unreadable(rt);
    };
    let mut right: Octets = [0u8; 300];
    let Some(m) = read_bytes(second, &mut right) else {
        return unreadable(rt);
    };
    rt.write_all(label)?;
    compare(rt, part(&left, 0, n), part(&right, 0, m), holds)
}

// The verb and its two fields. A tab too many is no digit of the last field.
fn fields(line: &[u8]) -> Option<(&[u8], &[u8], &[u8])> {
    let (verb, rest) = parted(line)?;
    let (first, second) = parted(rest)?;
    Some((verb, first, second))
}

pub fn ask(rt: &impl Print, line: &[u8]) -> io::Result<()> {
    let Some((verb, first, second)) = fields(line) else {
        return unreadable(rt);
    };
    put(rt, verb, first, second)
}

fn put(rt: &impl Print, verb: &[u8], first: &[u8], second: &[u8]) -> io::Result<()> {
    match verb {
        b"read" => ask_read(rt, first, second),
        b"same" => ask_two(rt, b"same\t", first, second, |a, b| wire::same_name(a, b)),
        b"within" => ask_two(rt, b"within\t", first, second, |a, b| wire::within(a, b)),
        _ => unreadable(rt),
    }
}
