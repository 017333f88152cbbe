// What is lent with a message.
ghost use Rattle.std.specs.Prelude.{cond, ◌≡◌};
ghost use Rattle.wire.specs.Part.{part};
ghost use Rattle.zone.specs.Table.{records_of, records_in};

use server::{Context, Name};

// To be read alone: the zone's name, and two areas of which one holds the store.
#[derive(Clone, Copy)]
pub struct Stores<'a> {
    pub name: &'a Name,
    pub first: &'a zone::Area,
    pub second: &'a zone::Area,
}

impl<'a> Stores<'a> {
    // The zone by a server's numbers: the front of the name's octets, and as many records of the area that holds the store.
    pub fn zone(self, c: Context) -> zone::Zone<'a>
        ensures name { result.name.now ≡ part self.entry.name.now 0 c.zone }
        ensures store { records_in result.store ≡ records_of c.records (cond c.second self.entry.second.now self.entry.first.now) }
    {
        let octets = self.name;
        let area = if c.second { self.second } else { self.first };
        zone::Zone {
            name: table::part(octets, 0, c.zone),
            store: zone::Store {
                area,
                count: c.records,
            },
        }
    }
}

// Each session's subscriptions. Fields and no array: an array of `&mut`s that is passed on from a parameter got no proof (tried). A
// lifetime for each: with one for all, a caller that lends its four parameters twice got no proof.
#[derive(Drop)]
pub struct Tables<'a, 'b, 'c, 'd> {
    pub s0: &'a mut session::Area,
    pub s1: &'b mut session::Area,
    pub s2: &'c mut session::Area,
    pub s3: &'d mut session::Area,
}

// What a caller lends from call to call beside the zone's name: the two areas for records, of which a batch writes the one that
// doesn't hold the store, and each session's subscriptions. In fields, as `Tables` has them: an array of `&mut`s that is passed on
// got no proof there; and no `Tables` in it, since a batch takes the four as an array to be read.
#[derive(Drop)]
pub struct Areas<'a, 'b, 'c, 'd, 'e, 'f> {
    pub first: &'a mut zone::Area,
    pub second: &'b mut zone::Area,
    pub s0: &'c mut session::Area,
    pub s1: &'d mut session::Area,
    pub s2: &'e mut session::Area,
    pub s3: &'f mut session::Area,
}
