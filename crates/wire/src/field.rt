// Fields of 16 and 32 bits, the most significant octet first. An octet past the end counts as 0; what does not fit is not written.
ghost use Rattle.std.specs.Prelude.{◌≡◌, ℕ, drop, get_or};
ghost use Rattle.std.proofs.lemmas.List.Edits.{sets};
ghost use Rattle.wire.specs.Field.{field, octets};

use crate::write::write_octets;

// A number that stands in a message as `size` octets.
pub trait Field: Copy {
    ghost size: { ℕ };

    ghost number: { Self → ℕ };

    fn from_octets(s: &[u8]) -> Self
        ensures { number result ≡ field size s.now };

    fn write(self, out: &mut [u8], at: usize)
        ensures { out.new ≡ sets out.old at (octets size (number self)) };
}

impl Field for u16 {
    ghost size = { 2 };

    ghost number = { λ x. x };

    #[tactic(auto, using(crate::proofs::Fields::be_two))]
    fn from_octets(s: &[u8]) -> u16 {
        u16::from_be_bytes([octet(s, 0), octet(s, 1)])
    }

    #[tactic(auto, using(crate::proofs::Fields::two_be))]
    fn write(self, out: &mut [u8], at: usize) {
        write_octets(out, at, &u16::to_be_bytes(self));
    }
}

impl Field for u32 {
    ghost size = { 4 };

    ghost number = { λ x. x };

    #[tactic(auto, using(crate::proofs::Fields::be_four))]
    fn from_octets(s: &[u8]) -> u32 {
        u32::from_be_bytes([octet(s, 0), octet(s, 1), octet(s, 2), octet(s, 3)])
    }

    #[tactic(auto, using(crate::proofs::Fields::four_be))]
    fn write(self, out: &mut [u8], at: usize) {
        write_octets(out, at, &u32::to_be_bytes(self));
    }
}

fn octet(s: &[u8], at: usize) -> u8
    ensures { result ≡ get_or s.now at 0 }
{
    s.get(at).copied().unwrap_or(0)
}

pub fn read_field<T: Field>(s: &[u8], at: usize) -> T
    ensures { T.number result ≡ field T.size (drop at s.now) }
{
    if s.len() <= at {
        return T::from_octets(&[]);
    }
    T::from_octets(&s[at..])
}

pub fn write_field<T: Field>(out: &mut [u8], at: usize, x: T)
    ensures { out.new ≡ sets out.old at (octets T.size (T.number x)) }
{
    x.write(out, at);
}
