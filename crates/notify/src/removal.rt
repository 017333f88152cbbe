// The removals that hold a record, by kind: what they cover, and which are true.
ghost use Rattle.std.specs.Prelude.{◌≡◌};
ghost use Rattle.zone.specs.Record.{key_of};
ghost use Rattle.zone.specs.Table.{rec_of, records_in};
ghost use Rattle.push.specs.Change.{covers as is_covered};
ghost use Rattle.push.specs.List.{widest as widest_true};
ghost use Rattle.notify.specs.Marks.{removal_at, kind_of, same_numbers, narrower, narrowed};

use zone::{Block, Store};

// From the narrowest to the widest.
#[derive(Clone, Copy, PartialEq, Eq)]
pub enum RemovalKind {
    Single,
    Rrset,
    AllTypes,
    AllClasses,
}

impl RemovalKind {
    // The next narrower kind; none is narrower than Single.
    fn narrower(self) -> RemovalKind
        ensures { result ≡ narrower self }
    {
        match self {
            RemovalKind::AllClasses => RemovalKind::AllTypes,
            RemovalKind::AllTypes => RemovalKind::Rrset,
            RemovalKind::Rrset | RemovalKind::Single => RemovalKind::Single,
        }
    }
}

// Whether b has the class and the type that a collective removal of a kind at a names.
#[tactic(auto, unfolding(crate::specs::Marks::same_numbers))]
pub fn same_numbers(kind: RemovalKind, a: Block, b: Block) -> bool
    ensures { result ≡ same_numbers kind (rec_of a.entry.octets.now) (rec_of b.entry.octets.now) }
{
    match kind {
        RemovalKind::AllClasses => true,
        RemovalKind::AllTypes => a.rrclass() == b.rrclass(),
        RemovalKind::Rrset | RemovalKind::Single => {
            a.rrclass() == b.rrclass() && a.rrtype() == b.rrtype()
        }
    }
}

// Whether the removal of a kind at a's record covers b's. Numbers are looked at before names.
#[tactic(auto, using(crate::proofs::Removals::removal_covers))]
pub fn covers(kind: RemovalKind, a: Block, b: Block) -> bool
    ensures { result ≡ is_covered (removal_at kind (rec_of a.entry.octets.now)) (key_of (rec_of b.entry.octets.now)) }
{
    match kind {
        RemovalKind::Single => a.has_key(b.key()),
        _ => same_numbers(kind, a, b) && wire::same_name(a.owner(), b.owner()),
    }
}

// The widest kind up to one whose removal at a's record spares b's, or Single. The loop goes from kind to kind and counts nothing.
#[tactic(auto, using(crate::proofs::Removals::removal_spares))]
fn sparing(most: RemovalKind, a: Block, b: Block) -> RemovalKind
    ensures { result ≡ narrowed most (rec_of a.entry.octets.now) (rec_of b.entry.octets.now) }
{
    let mut kind = most;
    while kind != RemovalKind::Single && covers(kind, a, b) {
        kind = kind.narrower();
    }
    kind
}

// The kind of the widest true removal: the widest that spares each record of a store.
#[tactic(auto, using(crate::proofs::Removals::widest_removal))]
pub fn widest(a: Block, store: Store) -> RemovalKind
    ensures { result ≡ kind_of (widest_true (records_in store.entry) (rec_of a.entry.octets.now)) }
{
    let mut kind = RemovalKind::AllClasses;
    for i in 0..store.len() {
        kind = sparing(kind, a, store.block(i));
    }
    kind
}
