// Octets written into lent memory: every octet of the whole slice at exit is stated. What does not fit is not written.
ghost use Rattle.std.specs.Prelude.{◌≤◌, ◌≡◌, length, take};
ghost use Rattle.std.proofs.lemmas.List.Edits.{sets};

// The first n octets of a source. Octet by octet, of which the compiler makes a `memcpy`: for `copy_from_slice` the C library would ask
// its host for `memmove` too.
fn fill(dst: &mut [u8], src: &[u8], n: usize)
    requires { (n ≤ length dst.old) × (n ≤ length src.now) }
    ensures { dst.new ≡ sets dst.old 0 (take n src.now) }
{
    for i in 0..n {
        dst[i] = src[i];
    }
}

// From the front of a slice on. Two calls: where the source's length is known, the first is compiled as one store.
#[tactic(auto, using(crate::proofs::Writes::copied_all, crate::proofs::Writes::copied_room))]
fn copy(dst: &mut [u8], src: &[u8])
    ensures { dst.new ≡ sets dst.old 0 src.now }
{
    let n = src.len();
    let room = dst.len();
    if n <= room {
        fill(dst, src, n);
    } else {
        fill(dst, src, room);
    }
}

// From a place on: the part that begins there is lent on.
#[tactic(auto, using(crate::proofs::Writes::written_from))]
pub fn write_octets(out: &mut [u8], at: usize, src: &[u8])
    ensures { out.new ≡ sets out.old at src.now }
{
    if at < out.len() {
        copy(&mut out[at..], src);
    }
}
