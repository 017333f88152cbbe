// Which records a subscription asks for, and whether octets are a whole name.
ghost use Rattle.std.specs.Prelude.{◌≡◌};
ghost use Rattle.wire.specs.Name.{is_name};
ghost use Rattle.dso.specs.Match.{asks_class, asks_type, asks_for};

use crate::number::{ANY, CNAME};
use wire::name_at;

// What a SUBSCRIBE asks for, and what a resource record answers to: a name, a type and a class.
#[derive(Clone, Copy)]
pub struct Question<'a> {
    pub name: &'a [u8],
    pub rrtype: u16,
    pub rrclass: u16,
}

#[tactic(auto, unfolding(crate::specs::Match::asks_class))]
fn asks_class(qclass: u16, class: u16) -> bool
    ensures { result ≡ asks_class qclass class }
{
    qclass == class || qclass == ANY
}

#[tactic(auto, unfolding(crate::specs::Match::asks_type))]
fn asks_type(qtype: u16, rtype: u16) -> bool
    ensures { result ≡ asks_type qtype rtype }
{
    qtype == rtype || qtype == ANY || rtype == CNAME
}

// Four numbers and not two questions: names are compared first, and the C question of this test (weavemitten) has none.
#[tactic(auto, unfolding(crate::specs::Match::asks_for))]
pub fn asks_for(qtype: u16, qclass: u16, rtype: u16, class: u16) -> bool
    ensures { result ≡ asks_for qtype qclass rtype class }
{
    asks_class(qclass, class) && asks_type(qtype, rtype)
}

#[tactic(auto, unfolding(wire::specs::Name::is_name))]
pub fn is_name(s: &[u8]) -> bool
    ensures { result ≡ is_name s.now }
{
    name_at(s, 0) == Some(s.len())
}
