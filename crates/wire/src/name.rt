// Names: reading one, comparing two, and one being at or below another.
ghost use Rattle.std.specs.Prelude.{◌≤◌, ◌≡◌, ℕ, map, length};
ghost use Rattle.wire.specs.Name.{lower, name_length, same_octets, same_name, within as is_within};
ghost use Rattle.wire.specs.Case.{Gives, caseless};
ghost use Rattle.wire.specs.Reading.{name_at};

// The octets of the name at the front, the zero octet at its end counted, if a name stands there. The loop goes from label to label,
// by their lengths.
fn name_front(s: &[u8]) -> Option<usize>
    ensures { result ≡ name_length s.now }
{
    let front = &s[..s.len().min(255)];
    let mut i = 0;
    while let Some(n) = front.get(i) {
        match *n {
            0 => return Some(i + 1),
            1..=63 => i += usize::from(*n) + 1,
            _ => return None,
        }
    }
    None
}

#[tactic(auto, using(crate::proofs::Loops::name_at_past))]
pub fn name_at(s: &[u8], at: usize) -> Option<usize>
    ensures { result ≡ name_at s.now at }
{
    name_front(s.get(at..)?)
}

#[tactic(auto, unfolding(crate::specs::Name::lower))]
fn lower(b: u8) -> u8
    ensures { result ≡ lower b }
{
    b.to_ascii_lowercase()
}

// What is left of an octet by 32 is the same in both cases of a letter.
#[tactic(auto, unfolding(crate::specs::Case::caseless))]
fn caseless(b: u8) -> u8
    ensures { result ≡ caseless b }
{
    b % 32
}

// By what `key` makes of each octet, without leaving early: octets of a count that the compiler knows are compared all at once.
fn same_part<K: Fn(u8) -> u8>(a: &[u8], b: &[u8], key: K) -> bool
    requires { (length a.now ≡ length b.now) × K.IsAlwaysCallable key }
    ensures { (f : ℕ → ℕ) → Gives K.Fn key f → result ≡ same_octets (map f a.now) (map f b.now) }
{
    let mut same = true;
    for i in 0..a.len() {
        same = same & (key(a[i]) == key(b[i]));
    }
    same
}

// How two parts of one length are compared: by what is seen of each octet.
trait Likeness {
    ghost seen: { ℕ → ℕ };

    fn alike(a: &[u8], b: &[u8]) -> bool
        requires { length a.now ≡ length b.now }
        ensures { result ≡ same_octets (map seen a.now) (map seen b.now) };
}

struct Octets;

impl Likeness for Octets {
    ghost seen = { λ x. x };

    fn alike(a: &[u8], b: &[u8]) -> bool {
        same_part(a, b, |x| x)
    }
}

struct Letters;

// But for the case of letters. Parts are mostly the same as they stand, or not at all; octets that differ in more than case are
// told apart before they are lowered, which costs more.
impl Likeness for Letters {
    ghost seen = { lower };

    fn alike(a: &[u8], b: &[u8]) -> bool {
        same_part(a, b, |x| x) || same_part(a, b, caseless) && same_part(a, b, lower)
    }
}

// Part by part, leaving at the first that differs. The last part ends where the octets end, so it may overlap the one before it:
// of `chunks` the last would be short, and not of a width that the compiler knows. Tried: `(0..last).step_by(width)`, which ends in two
// ways; what is returned behind the loop (`returns`) was not proved of the second.
fn by_parts<L: Likeness>(a: &[u8], b: &[u8], width: usize) -> bool
    requires { (length a.now ≡ length b.now) × (1 ≤ width) × (width ≤ length a.now) }
    ensures { result ≡ same_octets (map L.seen a.now) (map L.seen b.now) }
{
    let last = a.len() - width;
    let mut i = 0;
    while i < last {
        if !L::alike(&a[i..i + width], &b[i..i + width]) {
            return false;
        }
        i += width;
    }
    L::alike(&a[last..], &b[last..])
}

// The octets of a part, where there are so many; and of one in a short text, such as an address.
const PART: usize = 16;

const SHORT: usize = 4;

// Octets of unlike length are told apart without looking at them. A way for each length, each with its return: as one expression the
// three ways would be an `if` within the `&&`.
#[tactic(auto, using(crate::proofs::Loops::as_they_stand, crate::proofs::Loops::unlike_length))]
pub fn same_octets(a: &[u8], b: &[u8]) -> bool
    ensures { result ≡ same_octets a.now b.now }
{
    if a.len() != b.len() {
        return false;
    }
    if PART <= a.len() {
        return by_parts::<Octets>(a, b, PART);
    }
    if SHORT <= a.len() {
        return by_parts::<Octets>(a, b, SHORT);
    }
    Octets::alike(a, b)
}

// Names of unlike length likewise.
#[tactic(auto, using(crate::proofs::Loops::unlike_names), unfolding(crate::specs::Name::same_name))]
pub fn same_name(a: &[u8], b: &[u8]) -> bool
    ensures { result ≡ same_name a.now b.now }
{
    if a.len() != b.len() {
        return false;
    }
    if PART <= a.len() {
        return by_parts::<Letters>(a, b, PART);
    }
    Letters::alike(a, b)
}

// From label to label, by their lengths. Tried: `while let Some(n) = name.get(at)`, 1.09 times the instructions.
pub fn within(zone: &[u8], name: &[u8]) -> bool
    ensures { result ≡ is_within zone.now name.now }
{
    let mut at = 0;
    while at < name.len() {
        if same_name(zone, &name[at..]) {
            return true;
        }
        at += usize::from(name[at]) + 1;
    }
    false
}
