// The header's fields.
ghost use Rattle.std.specs.Prelude.{◌≡◌};
ghost use Rattle.dso.specs.Header.{opcode, is_response, no_records};

use wire::read_field;

#[tactic(auto, unfolding(crate::specs::Header::opcode, crate::specs::Header::flags))]
pub fn opcode_of(m: &[u8]) -> u16
    ensures { result ≡ opcode m.now }
{
    read_field::<u16>(m, 2) / 2048 % 16
}

#[tactic(auto, unfolding(crate::specs::Header::is_response, crate::specs::Header::flags))]
pub fn is_response(m: &[u8]) -> bool
    ensures { result ≡ is_response m.now }
{
    32768 <= read_field::<u16>(m, 2)
}

#[tactic(auto, unfolding(crate::specs::Header::no_records))]
pub fn no_records(m: &[u8]) -> bool
    ensures { result ≡ no_records m.now }
{
    read_field::<u16>(m, 4) == 0
        && read_field::<u16>(m, 6) == 0
        && read_field::<u16>(m, 8) == 0
        && read_field::<u16>(m, 10) == 0
}
