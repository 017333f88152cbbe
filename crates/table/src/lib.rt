// Blocks of one size in lent memory: lending one, a text in one, and closing the gap that a removed one leaves.
#![tactic(auto)]

ghost use Rattle.std.specs.Prelude.{◌+◌, ◌≤◌, ◌≡◌, length};
ghost use Rattle.std.proofs.lemmas.List.Edits.{sets};
ghost use Rattle.wire.specs.Part.{part as part_of};
ghost use Rattle.table.specs.Blocks.{slid, text_at};

// A part of a slice, as far as the slice goes. Tried: `get` and `unwrap_or`, here and in `text`; batches that only change TTLs then
// take up to 1.05 times the instructions.
#[tactic(auto, using(crate::proofs::Blocks::parting))]
pub fn part(s: &[u8], at: usize, n: usize) -> &[u8]
    ensures { result.now ≡ part_of s.now at n }
{
    if s.len() <= at {
        return &s[0..0];
    }
    if s.len() - at < n {
        return &s[at..];
    }
    &s[at..at + n]
}

// The octets from a place of a block on, of which the octet at another place says how many.
#[tactic(auto, using(crate::proofs::Blocks::texts))]
pub fn text(block: &[u8], counted: usize, from: usize) -> &[u8]
    ensures { result.now ≡ text_at block.now counted from }
{
    if block.len() <= counted {
        return part(block, from, 0);
    }
    let n = usize::from(block[counted]);
    part(block, from, n)
}

// Octet by octet, and not by `copy_within`, for which the C library would ask its host for `memmove` beside `memcpy` and `memset`.
fn shift(area: &mut [u8], to: usize, from: usize, n: usize)
    requires { (to ≤ from) × (from + n ≤ length area.old) }
    ensures { area.new ≡ sets area.old to (part_of area.old from n) }
{
    for i in 0..n {
        area[to + i] = area[from + i];
    }
}

// Moves n octets down from a place to one before it. What lies past the end is not there to move.
#[tactic(auto, using(crate::proofs::Blocks::sliding))]
pub fn slide(area: &mut [u8], to: usize, from: usize, n: usize)
    ensures { area.new ≡ slid area.old to from n }
{
    if from < to || area.len() <= from {
        return;
    }
    let left = area.len() - from;
    if n <= left {
        shift(area, to, from, n);
    } else {
        shift(area, to, from, left);
    }
}
