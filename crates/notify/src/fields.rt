// The fields in which a change is written (RFC 8765, 6.3.1), and their octets.
ghost use Rattle.std.specs.Prelude.{◌+◌, ◌<◌, ◌^◌, ◌≡◌, ◌++◌, length};
ghost use Rattle.std.proofs.lemmas.List.Edits.{sets};
ghost use Rattle.wire.specs.Field.{octets};
ghost use Rattle.zone.specs.Table.{rec_of};
ghost use Rattle.push.specs.Change.{removal as removed, fields_of};
ghost use Rattle.notify.specs.Marks.{removal_at};
ghost use Rattle.notify.specs.Written.{record_in, given_octets, AllShort, Step, room};

use crate::removal::RemovalKind;
use zone::Block;

// Type or class ANY.
const ANY: u16 = 255;

const REMOVE_ONE: u32 = 0xFFFF_FFFF;

const REMOVE_ALL: u32 = 0xFFFF_FFFE;

// Flat, where `zone::Edit` has a key and a TTL: a removal sets type, class and RDATA each by itself.
#[derive(Clone, Copy)]
pub struct Fields<'a> {
    pub name: &'a [u8],
    pub rrtype: u16,
    pub rrclass: u16,
    pub ttl: u32,
    pub rdata: &'a [u8],
}

// The addition of a block's record.
pub fn addition(b: Block<'_>) -> Fields<'_>
    ensures { record_in result ≡ rec_of b.entry.octets.now }
{
    Fields {
        name: b.owner(),
        rrtype: b.rrtype(),
        rrclass: b.rrclass(),
        ttl: b.ttl(),
        rdata: b.rdata(),
    }
}

// The removal of a kind at a block's record. One of all classes names type 0.
#[tactic(auto, unfolding(crate::specs::Marks::removal_at, push::specs::Change::fields_of))]
pub fn removal(kind: RemovalKind, b: Block<'_>) -> Fields<'_>
    ensures { record_in result ≡ fields_of (removed (removal_at kind (rec_of b.entry.octets.now))) }
{
    let one = Fields {
        ttl: REMOVE_ONE,
        ..addition(b)
    };
    let all = Fields {
        ttl: REMOVE_ALL,
        rdata: &[],
        ..one
    };
    match kind {
        RemovalKind::Single => one,
        RemovalKind::Rrset => all,
        RemovalKind::AllTypes => Fields { rrtype: ANY, ..all },
        RemovalKind::AllClasses => Fields {
            rrtype: 0,
            rrclass: ANY,
            ..all
        },
    }
}

// Type, class, TTL and RDLEN, of which the cast is proved to lose nothing.
#[tactic(auto, using(crate::proofs::Writing::fixed_part))]
fn write_fixed(out: &mut [u8], at: usize, fields: Fields)
    requires { (at + 10 < 2 ^ 64) × (length fields.rdata.now < 2 ^ 16) }
    ensures { out.new ≡ sets out.old at (octets 2 fields.entry.rrtype ++ (octets 2 fields.entry.rrclass ++ (octets 4 fields.entry.ttl ++ octets 2 (length fields.entry.rdata.now)))) }
{
    wire::write_field(out, at, fields.rrtype);
    wire::write_field(out, at + 2, fields.rrclass);
    wire::write_field(out, at + 4, fields.ttl);
    wire::write_field(out, at + 8, fields.rdata.len() as u16);
}

// A change from a place on, if there is one; the place behind it. The memory and the place go by themselves: a value that held both
// would owe in each clause that its reference is still the same one.
pub(crate) fn write(out: &mut [u8], at: usize, change: Option<Fields>) -> usize
    requires { (at + room < 2 ^ 64) × AllShort change }
    ensures { Step room out.old at (given_octets change.entry) out.new result }
{
    let Some(fields) = change else {
        return at;
    };
    let fixed = at + fields.name.len();
    wire::write_octets(out, at, fields.name);
    write_fixed(out, fixed, fields);
    wire::write_octets(out, fixed + 10, fields.rdata);
    fixed + 10 + fields.rdata.len()
}
