// Edits of the store in lent memory: a TTL set, a record removed and the gap closed, a record added at the end; and a batch of them,
// applied in a second area: the old one is only read, so a refused batch leaves the store as it was.
ghost use Rattle.std.specs.Prelude.{◌+◌, ◌-◌, ◌≤◌, ◌<◌, ◌≡◌, [], ◌∷◌, ◌++◌, map, Some};
ghost use Rattle.table.specs.Blocks.{cut};
ghost use Rattle.zone.specs.Store.{set_if, remove as removed};
ghost use Rattle.zone.specs.Batch.{max_records, max_ttl, batch_of};
ghost use Rattle.zone.specs.Table.{block_size, area_size, records_in, key_in, index_of};
ghost use Rattle.zone.specs.Edit.{record_of, FitsBlock};
ghost use Rattle.zone.specs.Update.{TtlSet, applied, numbered};
ghost use Rattle.zone.specs.Batches.{edited_of};

use crate::BatchFault;
use crate::reading::{Edit, MAX_TTL, checked_edit};
use crate::records::{Area, BLOCK, OWNER, RDATA, RECORDS, RRCLASS, RRTYPE, RecordKey, Store, TTL};
use table::part;

// The store that a batch makes: lent memory, and how many records stand in it, never more than a store has.
// That an edit fits a block (`FitsBlock`) is asked where one is put, and not of every `Edit`: `allowed` takes any. That the memory is the
// one that was lent (`SameMemory`) is a fact about two moments, which no field can hold.
// Its methods name the area before they lend it: a slice of it taken at the call isn't covered beside a ghost field.
#[derive(Drop)]
struct Draft<'a> {
    area: &'a mut Area,
    count: usize,
    ghost few: { count ≤ max_records },
}

impl Draft<'_> {
    ghost use Rattle.zone.specs.Drafts.{drafted, SameMemory, Kept, stored_as};

    fn store(&self) -> Store<'_>
        ensures { (result.area.now ≡ self.now.area.now) × (result.count ≡ self.now.count) }
    {
        Store {
            area: self.area,
            count: self.count,
        }
    }

    #[tactic(auto, using(crate::proofs::Updates::ttl_set))]
    fn set_ttl(&mut self, i: usize, ttl: u32)
        requires { i < max_records }
        ensures kept { Kept self.old self.new }
        ensures set { TtlSet ttl self.old.area.now i self.new.area.now }
    {
        let area = &mut *self.area;
        wire::write_field(area, i * BLOCK + TTL, ttl);
    }

    // The TTL of every record with the edit's key, from the first of them on.
    #[tactic(auto, using(crate::proofs::Applies::of_sweeping))]
    fn set_ttls(&mut self, first: usize, edit: Edit<'_>)
        requires { index_of (key_in edit.key) (drafted self.old) ≡ Some first }
        ensures kept { Kept self.old self.new }
        ensures set { drafted self.new ≡ map (set_if (key_in edit.entry.key) edit.entry.ttl) (drafted self.old) }
    {
        for i in first..self.count {
            if self.store().has_key_at(i, edit.key) {
                self.set_ttl(i, edit.ttl);
            }
        }
    }

    #[tactic(auto, using(crate::proofs::Updates::records_slid))]
    fn close_gap(&mut self, i: usize)
        requires { i < self.old.count }
        ensures same_memory { SameMemory self.old self.new }
        ensures fewer { self.new.count ≡ self.old.count - 1 }
        ensures gone { drafted self.new ≡ cut i (drafted self.old) }
    {
        let at = i * BLOCK;
        let count = self.count - 1;
        let area = &mut *self.area;
        table::slide(area, at, at + BLOCK, (count - i) * BLOCK);
        self.count = count;
    }

    // Every record with a key, from the last to the first.
    #[tactic(auto, using(crate::proofs::Updates::of_thinning))]
    fn remove(&mut self, key: RecordKey<'_>)
        ensures same_memory { SameMemory self.old self.new }
        ensures gone { drafted self.new ≡ removed (key_in key.entry) (drafted self.old) }
    {
        for i in (0..self.count).rev() {
            if self.store().has_key_at(i, key) {
                self.close_gap(i);
            }
        }
    }

    // A record behind the last one.
    #[tactic(auto, using(crate::proofs::Filled::appended))]
    fn append(&mut self, edit: Edit<'_>)
        requires { (self.old.count < max_records) × FitsBlock edit }
        ensures same_memory { SameMemory self.old self.new }
        ensures more { self.new.count ≡ self.old.count + 1 }
        ensures added { drafted self.new ≡ drafted self.old ++ (record_of edit.entry ∷ []) }
    {
        let at = self.count * BLOCK;
        let name = edit.key.name;
        let rdata = edit.key.rdata;
        // Both fit an octet, as the check proves: `try_from` would bring a refusal that has no case here.
        let lengths = [name.len() as u8, rdata.len() as u8];
        let area = &mut *self.area;
        wire::write_octets(area, at, &lengths);
        write_numbers(area, at, edit);
        wire::write_octets(area, at + OWNER, name);
        wire::write_octets(area, at + RDATA, rdata);
        self.count += 1;
    }

    // Refused where there are 40 others.
    #[tactic(auto, using(crate::proofs::Applies::of_putting))]
    fn put(&mut self, edit: Edit<'_>) -> Result<(), BatchFault>
        requires { FitsBlock edit × (edit.ttl ≤ max_ttl) }
        ensures same_memory { SameMemory self.old self.new }
        ensures store { stored_as result self.new ≡ applied (drafted self.old) (record_of edit.entry) }
    {
        if let Some(i) = self.store().find(edit.key) {
            self.set_ttls(i, edit);
            return Ok(());
        }
        if RECORDS <= self.count {
            return Err(BatchFault::StoreFull);
        }
        self.append(edit);
        Ok(())
    }

    // One edit: a put, or the removal of what has the key.
    #[tactic(auto, using(crate::proofs::Applies::removed))]
    fn apply(&mut self, edit: Edit<'_>) -> Result<(), BatchFault>
        requires { FitsBlock edit }
        ensures same_memory { SameMemory self.old self.new }
        ensures store { stored_as result self.new ≡ applied (drafted self.old) (record_of edit.entry) }
    {
        if edit.ttl <= MAX_TTL {
            return self.put(edit);
        }
        self.remove(edit.key);
        Ok(())
    }

    // How many records there are in the end.
    #[tactic(auto, using(crate::proofs::Steps::of_batches))]
    fn apply_all(&mut self, zone: &[u8], bytes: &[u8]) -> Result<usize, BatchFault>
        ensures same_memory { SameMemory self.old self.new }
        ensures outcome { edited_of result self.new.area.now ≡ batch_of zone.now bytes.now (drafted self.old) }
    {
        let mut at = 0;
        for _turn in 0..EDITS {
            if bytes.len() <= at {
                return Ok(self.count);
            }
            let edit = checked_edit(zone, bytes, at)?;
            self.apply(edit)?;
            at += edit.size();
        }
        if at < bytes.len() {
            return Err(BatchFault::TooManyEdits);
        }
        Ok(self.count)
    }
}

fn write_numbers(area: &mut Area, at: usize, edit: Edit<'_>)
    requires { at + block_size ≤ area_size }
    ensures { area.new ≡ numbered area.old at edit.entry.key.rrtype edit.entry.key.rrclass edit.entry.ttl }
{
    wire::write_field(area, at + RRTYPE, edit.key.rrtype);
    wire::write_field(area, at + RRCLASS, edit.key.rrclass);
    wire::write_field(area, at + TTL, edit.ttl);
}

// The most edits of a batch.
pub const EDITS: usize = 32;

// How many records the new store has. Only the blocks in use are copied.
#[tactic(auto, using(crate::proofs::Steps::batched))]
pub fn batch(zone: &[u8], bytes: &[u8], old: Store<'_>, new: &mut Area) -> Result<usize, BatchFault>
    ensures { edited_of result new.new ≡ batch_of zone.now bytes.now (records_in old.entry) }
{
    let count = old.len();
    let area = old.area;
    wire::write_octets(new, 0, part(area, 0, count * BLOCK));
    let mut draft = Draft { area: new, count };
    draft.apply_all(zone, bytes)
}
