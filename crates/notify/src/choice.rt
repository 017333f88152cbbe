// Which removal is sent for a record that leaves a view.
ghost use Rattle.std.specs.Prelude.{◌≡◌, ◌≢◌, []};
ghost use Rattle.zone.specs.Record.{key_of};
ghost use Rattle.zone.specs.Table.{rec_of, records_in};
ghost use Rattle.push.specs.List.{alike as are_alike, chosen as chosen_at};
ghost use Rattle.notify.specs.Marks.{removal_at, kind_of, marked, told_apart, heads, sent};

use crate::marks::{Marks, for_each};
use crate::removal::{RemovalKind, same_numbers, widest};
use zone::{Block, Store};

// For each record of a store the kind of its removal, where it has one.
pub type Kinds = [Option<RemovalKind>; zone::RECORDS];

// Whether just one of two collective removals at a's record covers b's, where b is marked. It takes two that differ in b's numbers.
#[tactic(auto, using(crate::proofs::Removals::removal_covers), unfolding(crate::specs::Marks::told_apart))]
fn tells_apart(mark: bool, narrow: RemovalKind, wide: RemovalKind, a: Block, b: Block) -> bool
    requires { (narrow ≢ RemovalKind.Single) × (wide ≢ RemovalKind.Single) }
    ensures { result ≡ told_apart mark (removal_at narrow (rec_of a.entry.octets.now)) (removal_at wide (rec_of a.entry.octets.now)) (key_of (rec_of b.entry.octets.now)) }
{
    mark && same_numbers(narrow, a, b) != same_numbers(wide, a, b)
        && wire::same_name(a.owner(), b.owner())
}

// Whether two collective removals at a's record cover the same of the marked records.
#[tactic(auto, using(crate::proofs::Choices::agreed))]
fn alike(narrow: RemovalKind, wide: RemovalKind, a: Block, old: Store, gone: &Marks) -> bool
    requires { (narrow ≢ RemovalKind.Single) × (wide ≢ RemovalKind.Single) }
    ensures { result ≡ are_alike (marked gone.now (records_in old.entry)) (removal_at narrow (rec_of a.entry.octets.now)) (removal_at wide (rec_of a.entry.octets.now)) }
{
    if narrow == wide {
        return true;
    }
    for i in 0..old.len() {
        if tells_apart(gone[i], narrow, wide, a, old.block(i)) {
            return false;
        }
    }
    true
}

// The kind of the removal that 01 fixes for a's record, where the marked records of the old store leave the view.
#[tactic(auto, using(crate::proofs::Choices::chosen_kind))]
fn chosen(a: Block, old: Store, gone: &Marks, new: Store) -> RemovalKind
    ensures { result ≡ kind_of (chosen_at (records_in new.entry) (marked gone.now (records_in old.entry)) (rec_of a.entry.octets.now)) }
{
    let wide = widest(a, new);
    if wide == RemovalKind::Single {
        return RemovalKind::Single;
    }
    if alike(RemovalKind::Rrset, wide, a, old, gone) {
        return RemovalKind::Rrset;
    }
    if alike(RemovalKind::AllTypes, wide, a, old, gone) {
        return RemovalKind::AllTypes;
    }
    RemovalKind::AllClasses
}

// The kinds of the removals of the marked records.
pub fn choose(old: Store, gone: &Marks, new: Store) -> Kinds
    ensures { heads [] result (records_in old.entry) ≡ sent (records_in new.entry) (marked gone.now (records_in old.entry)) }
{
    for_each(old, None, |i| {
        if gone[i] {
            Some(chosen(old.block(i), old, gone, new))
        } else {
            None
        }
    })
}
