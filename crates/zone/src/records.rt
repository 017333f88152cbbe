// The store in lent memory: a count of records, and an area of blocks, each of which holds one record.
ghost use Rattle.std.specs.Prelude.{min, ◌≡◌};
ghost use Rattle.zone.specs.Record.{key_of, same_key};
ghost use Rattle.zone.specs.Batch.{max_records};
ghost use Rattle.zone.specs.Table.{block_at, rec_of, key_in, records_in, index_of};
ghost use Rattle.zone.specs.Update.{keyed, Passes};

// The most records, and the most octets of an owner and of RDATA.
pub const RECORDS: usize = 40;

const MAX_NAME: usize = 255;

pub const MAX_RDATA: usize = 128;

// Where a block has its parts; the owner's length comes first.
pub(crate) const OWNER_LENGTH: usize = 0;

pub(crate) const RDATA_LENGTH: usize = 1;

pub(crate) const RRTYPE: usize = 2;

pub(crate) const RRCLASS: usize = 4;

pub(crate) const TTL: usize = 6;

pub(crate) const OWNER: usize = 10;

pub(crate) const RDATA: usize = OWNER + MAX_NAME;

pub const BLOCK: usize = RDATA + MAX_RDATA;

pub const AREA: usize = RECORDS * BLOCK;

// The lent memory of a store.
pub type Area = [u8; AREA];

// A store: lent memory, and how many records stand in it. A count over 40 counts as 40.
#[derive(Clone, Copy)]
pub struct Store<'a> {
    pub area: &'a Area,
    pub count: usize,
}

// The zone: its name, and its records.
#[derive(Clone, Copy)]
pub struct Zone<'a> {
    pub name: &'a [u8],
    pub store: Store<'a>,
}

// The parts of a record that tell it from others: all but the TTL.
#[derive(Clone, Copy)]
pub struct RecordKey<'a> {
    pub name: &'a [u8],
    pub rrtype: u16,
    pub rrclass: u16,
    pub rdata: &'a [u8],
}

// A block of a store's area holds one record. Any octets are a block.
#[derive(Clone, Copy)]
pub struct Block<'a> {
    pub octets: &'a [u8],
}

impl<'a> Block<'a> {
    #[tactic(auto, unfolding(crate::specs::Table::rec_of))]
    pub fn owner(self) -> &'a [u8]
        ensures { result.now ≡ (rec_of self.entry.octets.now).owner }
    {
        table::text(self.octets, OWNER_LENGTH, OWNER)
    }

    #[tactic(auto, unfolding(crate::specs::Table::rec_of))]
    pub fn rrtype(self) -> u16
        ensures { result ≡ (rec_of self.entry.octets.now).rrtype }
    {
        wire::read_field(self.octets, RRTYPE)
    }

    #[tactic(auto, unfolding(crate::specs::Table::rec_of))]
    pub fn rrclass(self) -> u16
        ensures { result ≡ (rec_of self.entry.octets.now).rrclass }
    {
        wire::read_field(self.octets, RRCLASS)
    }

    #[tactic(auto, unfolding(crate::specs::Table::rec_of))]
    pub fn ttl(self) -> u32
        ensures { result ≡ (rec_of self.entry.octets.now).ttl }
    {
        wire::read_field(self.octets, TTL)
    }

    #[tactic(auto, unfolding(crate::specs::Table::rec_of))]
    pub fn rdata(self) -> &'a [u8]
        ensures { result.now ≡ (rec_of self.entry.octets.now).rdata }
    {
        table::text(self.octets, RDATA_LENGTH, RDATA)
    }

    pub fn key(self) -> RecordKey<'a>
        ensures { key_in result ≡ key_of (rec_of self.entry.octets.now) }
    {
        RecordKey {
            name: self.owner(),
            rrtype: self.rrtype(),
            rrclass: self.rrclass(),
            rdata: self.rdata(),
        }
    }

    // The numbers and the RDATA are looked at before the name. Inlined: a loop knows the block's length and has the key at hand.
    #[inline(always)]
    #[tactic(auto, using(crate::proofs::Memory::same_key_turned))]
    pub fn has_key(self, key: RecordKey<'_>) -> bool
        ensures { result ≡ same_key (key_of (rec_of self.entry.octets.now)) (key_in key.entry) }
    {
        self.rrtype() == key.rrtype
            && self.rrclass() == key.rrclass
            && wire::same_octets(self.rdata(), key.rdata)
            && wire::same_name(self.owner(), key.name)
    }
}

// A quick look at octets: their number, the first and the last.
fn may_be_same(a: &[u8], b: &[u8]) -> bool
    ensures { Passes a.now b.now result }
{
    a.len() == b.len() && a.first() == b.first() && a.last() == b.last()
}

// A count over 40 counts as 40.
pub fn clamped(count: usize) -> usize
    ensures { result ≡ min count max_records }
{
    count.min(RECORDS)
}

impl<'a> Store<'a> {
    pub fn len(self) -> usize
        ensures { result ≡ min self.entry.count max_records }
    {
        clamped(self.count)
    }

    // Past the last block of the area nothing.
    #[tactic(auto, using(crate::proofs::Memory::block_past))]
    pub fn block(self, i: usize) -> Block<'a>
        ensures { result.octets.now ≡ block_at self.entry.area.now i }
    {
        let area = self.area;
        let (at, size) = if i < RECORDS {
            (i * BLOCK, BLOCK)
        } else {
            (AREA, 0)
        };
        Block {
            octets: table::part(area, at, size),
        }
    }

    // Whether the record in a block has a key. Loops ask this: mostly a quick look at the RDATA says no.
    #[inline(always)]
    #[tactic(auto, using(crate::proofs::Memory::key_apart))]
    pub(crate) fn has_key_at(self, i: usize, key: RecordKey<'_>) -> bool
        ensures { result ≡ keyed self.entry.area.now i (key_in key.entry) }
    {
        let block = self.block(i);
        may_be_same(block.rdata(), key.rdata) && block.has_key(key)
    }

    // Where the first record with a key stands.
    pub fn find(self, key: RecordKey<'_>) -> Option<usize>
        ensures { result ≡ index_of (key_in key.entry) (records_in self.entry) }
    {
        (0..self.len()).find(|&i| self.has_key_at(i, key))
    }
}
