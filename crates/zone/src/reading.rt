// One edit of a batch: reading it, and whether its values are allowed.
ghost use Rattle.std.specs.Prelude.{◌+◌, ◌^◌, ◌≤◌, ◌<◌, ◌≡◌, length, drop, option_map, IfOk};
ghost use Rattle.zone.specs.Layout.{size, read_record};
ghost use Rattle.zone.specs.Batch.{is_plain, allowed as allowed_in};
ghost use Rattle.zone.specs.Edit.{record_of, FitsBlock, ttl_may, ok_map, checked_at};

use crate::BatchFault;
use crate::records::{MAX_RDATA, RecordKey};
use table::part;
use wire::{name_at, read_field};

// A TTL up to this one puts; the other one removes.
pub(crate) const MAX_TTL: u32 = 0x7fff_ffff;

const REMOVE_TTL: u32 = 0xffff_ffff;

// The value that asks for any type or class.
const ANY: u16 = 255;

// The octets of type, class, TTL and RDLEN.
const FIXED: usize = 10;

// An edit of a batch, as it stands in the batch's octets: the record that it puts or removes.
#[derive(Clone, Copy)]
pub struct Edit<'a> {
    pub key: RecordKey<'a>,
    pub ttl: u32,
}

impl<'a> Edit<'a> {
    // The octets of the edit.
    #[tactic(auto, unfolding(crate::specs::Layout::size))]
    pub(crate) fn size(self) -> usize
        requires { size (record_of self) < 2 ^ 64 }
        ensures { result ≡ size (record_of self.entry) }
    {
        self.key.name.len() + FIXED + self.key.rdata.len()
    }
}

#[tactic(auto, using(crate::proofs::Readings::of_reading))]
pub fn read_edit(bytes: &[u8], at: usize) -> Option<Edit<'_>>
    ensures { option_map record_of result ≡ read_record (drop at bytes.now) }
{
    let namelen = name_at(bytes, at)?;
    let fixed = at + namelen;
    let rdlen = usize::from(read_field::<u16>(bytes, fixed + 8));
    if bytes.len() - fixed < FIXED + rdlen {
        return None;
    }
    Some(Edit {
        key: RecordKey {
            name: part(bytes, at, namelen),
            rrtype: read_field(bytes, fixed),
            rrclass: read_field(bytes, fixed + 2),
            rdata: part(bytes, fixed + FIXED, rdlen),
        },
        ttl: read_field(bytes, fixed + 4),
    })
}

fn ttl_may(ttl: u32) -> bool
    ensures { result ≡ ttl_may ttl }
{
    ttl <= MAX_TTL || ttl == REMOVE_TTL
}

// A type or class that a record may have.
fn plain(x: u16) -> bool
    ensures { result ≡ is_plain x }
{
    x != 0 && x != ANY
}

#[tactic(auto, using(crate::proofs::Readings::allowed_turned))]
pub fn allowed(zone: &[u8], edit: Edit<'_>) -> bool
    ensures { result ≡ allowed_in zone.now (record_of edit.entry) }
{
    edit.key.rdata.len() <= MAX_RDATA
        && ttl_may(edit.ttl)
        && plain(edit.key.rrtype)
        && plain(edit.key.rrclass)
        && wire::within(zone, edit.key.name)
}

// An edit that was read and whose values are allowed; or why not. One that is taken lies within the octets, and has room in a block.
#[tactic(auto, using(crate::proofs::Readings::read_room))]
pub fn checked_edit<'a>(zone: &[u8], bytes: &'a [u8], at: usize) -> Result<Edit<'a>, BatchFault>
    ensures edit { ok_map record_of result ≡ checked_at zone.now bytes.now at }
    ensures within { IfOk result (λ e. at + size (record_of e) ≤ length bytes.now) }
    ensures room { IfOk result FitsBlock }
{
    let edit = read_edit(bytes, at).ok_or(BatchFault::Unreadable)?;
    if allowed(zone, edit) {
        Ok(edit)
    } else {
        Err(BatchFault::BadValue)
    }
}
