// A session's subscriptions in lent memory: blocks of one size, `count` of which hold one each, in the order in which they
// came. A block: message ID, type and class, 16 bits each; the length of the name, one octet; the name.
ghost use Rattle.std.specs.Prelude.{ℕ, ◌+◌, ◌-◌, ◌≤◌, ◌<◌, ◌≡◌, Bool, List, ◌∷◌, ◌++◌, length, position, eqb};
ghost use Rattle.std.proofs.lemmas.List.Edits.{sets};
ghost use Rattle.wire.specs.Field.{octets};
ghost use Rattle.wire.specs.Name.{max_name};
ghost use Rattle.table.specs.Blocks.{blocks, cut};
ghost use Rattle.zone.specs.Lists.{any_of};
ghost use Rattle.zone.specs.Match.{Subscription, matches as matching, wanted as wanted_by};
ghost use Rattle.session.specs.Subscriptions.{max_subscriptions, uses_id, same_question, asks_already, is_full, without};
ghost use Rattle.session.specs.Table.{block_size, sub_of, sub_octets, subscriptions_of, subscriptions_in, subscription_for, record_for, appended, Tests};

use dso::Question;

// 01: "Subscriptions: 16 a session". The limit is stated here and in the definitions.
pub const SUBSCRIPTIONS: usize = 16;

const MAX_NAME: usize = 255;

const BLOCK: usize = OWNER + MAX_NAME;

pub const AREA: usize = SUBSCRIPTIONS * BLOCK;

// A session's lent memory. (One generic table would serve zone's records too, but an array's length can't be computed from const
// arguments.)
pub type Area = [u8; AREA];

// A session's subscriptions: lent memory, and how many stand in it. A count over the limit counts as the limit.
#[derive(Clone, Copy)]
pub struct Subscriptions<'a> {
    pub area: &'a Area,
    pub count: usize,
}

// Where a block has its parts.
const ID: usize = 0;

const RRTYPE: usize = 2;

const RRCLASS: usize = 4;

const OWNER_LENGTH: usize = 6;

const OWNER: usize = 7;

// ---- one block

// The octets of one subscription.
#[derive(Clone, Copy)]
struct Block<'a> {
    octets: &'a [u8],
}

impl<'a> Block<'a> {
    #[tactic(auto, unfolding(crate::specs::Table::sub_of))]
    fn has_id(self, id: u16) -> bool
        ensures { result ≡ eqb (sub_of self.entry.octets.now).id id }
    {
        wire::read_field::<u16>(self.octets, ID) == id
    }

    #[tactic(auto, unfolding(crate::specs::Table::sub_of))]
    fn owner(self) -> &'a [u8]
        ensures { result.now ≡ (sub_of self.entry.octets.now).owner }
    {
        table::text(self.octets, OWNER_LENGTH, OWNER)
    }

    // Type and class first: they are cheap to compare, and tell most apart.
    #[tactic(auto, unfolding(crate::specs::Table::sub_of))]
    fn asks_same(self, question: Question<'_>) -> bool
        ensures { result ≡ same_question (subscription_for 0 question.entry) (sub_of self.entry.octets.now) }
    {
        wire::read_field::<u16>(self.octets, RRTYPE) == question.rrtype
            && wire::read_field::<u16>(self.octets, RRCLASS) == question.rrclass
            && wire::same_name(question.name, self.owner())
    }

    #[tactic(auto, using(crate::proofs::Table::matches_split), unfolding(crate::specs::Table::sub_of))]
    fn matches(self, of: Question<'_>) -> bool
        ensures { result ≡ matching (sub_of self.entry.octets.now) (record_for of.entry) }
    {
        let rrtype = wire::read_field::<u16>(self.octets, RRTYPE);
        let rrclass = wire::read_field::<u16>(self.octets, RRCLASS);
        dso::asks_for(rrtype, rrclass, of.rrtype, of.rrclass)
            && wire::same_name(self.owner(), of.name)
    }
}

// ---- all of them

// Whether there are as many as there may be, whatever the memory holds: a count alone tells.
#[tactic(auto, using(crate::proofs::Table::length_subscriptions_of), unfolding(crate::specs::Subscriptions::is_full))]
pub fn is_full(count: usize) -> bool
    ensures { (area : List ℕ) → result ≡ is_full (subscriptions_of count area) }
{
    SUBSCRIPTIONS <= count
}

impl<'a> Subscriptions<'a> {
    // A count over the limit counts as the limit.
    #[tactic(auto, using(crate::proofs::Table::length_subscriptions_of))]
    pub fn len(self) -> usize
        ensures { result ≡ length (subscriptions_in self.entry) }
    {
        self.count.min(SUBSCRIPTIONS)
    }

    // Where the first stands that passes a test.
    fn position<F: Fn(Block<'a>) -> bool>(self, test: F) -> Option<usize>
        requires { F.IsAlwaysCallable test }
        ensures { (p : Subscription → Bool) → Tests (F.post test) p → result ≡ position p (subscriptions_in self.entry) }
    {
        let area = self.area;
        for i in 0..self.len() {
            let octets = table::part(area, i * BLOCK, BLOCK);
            if test(Block { octets }) {
                return Some(i);
            }
        }
        None
    }

    // Whether one of them passes a test.
    fn any<F: Fn(Block<'a>) -> bool>(self, test: F) -> bool
        requires { F.IsAlwaysCallable test }
        ensures { (p : Subscription → Bool) → Tests (F.post test) p → result ≡ any_of p (subscriptions_in self.entry) }
    {
        self.position(test).is_some()
    }

    // Whether a message ID is held by one of them.
    #[tactic(auto, unfolding(crate::specs::Subscriptions::uses_id, crate::specs::Table::sub_of))]
    pub fn uses_id(self, id: u16) -> bool
        ensures { result ≡ uses_id id (subscriptions_in self.entry) }
    {
        self.any(|b| b.has_id(id))
    }

    // Whether one of them has the same name, type and class, whatever its ID.
    #[tactic(auto, unfolding(crate::specs::Subscriptions::asks_already))]
    pub fn asks_already(self, question: Question<'_>) -> bool
        ensures { result ≡ asks_already (subscription_for 0 question.entry) (subscriptions_in self.entry) }
    {
        self.any(|b| b.asks_same(question))
    }

    // Whether one of them matches a record of this name, type and class.
    pub fn wanted(self, of: Question<'_>) -> bool
        ensures { result ≡ wanted_by (subscriptions_in self.entry) (record_for of.entry) }
    {
        self.any(|b| b.matches(of))
    }
}

// ---- one more and fewer: functions on the memory, since it is written, and the count that goes with it is handed back

fn write_numbers(area: &mut [u8], at: usize, id: u16, question: Question<'_>)
    requires { at + block_size ≤ length area.old }
    ensures { area.new ≡ sets area.old at (octets 2 id ++ (octets 2 question.entry.rrtype ++ octets 2 question.entry.rrclass)) }
{
    wire::write_field(area, at, id);
    wire::write_field(area, at + RRTYPE, question.rrtype);
    wire::write_field(area, at + RRCLASS, question.rrclass);
}

// A name behind its length. The length is cast, since it is known to fit: a `try_from` would bring a case that can't be.
fn write_owner(area: &mut [u8], at: usize, name: &[u8])
    requires { (at + max_name < length area.old) × (length name.now ≤ max_name) }
    ensures { area.new ≡ sets area.old at (length name.now ∷ name.now) }
{
    area[at] = name.len() as u8;
    wire::write_octets(area, at + 1, name);
}

fn write_block(area: &mut [u8], at: usize, id: u16, question: Question<'_>)
    requires { (at + block_size ≤ length area.old) × (length question.name.now ≤ max_name) }
    ensures { area.new ≡ sets area.old at (sub_octets (subscription_for id question.entry)) }
{
    write_numbers(area, at, id, question);
    write_owner(area, at + OWNER_LENGTH, question.name);
}

// One more at the end. How many there are then: as many as before where there is no room for it, or no name is so long.
#[tactic(auto, using(crate::proofs::Table::length_subscriptions_of), unfolding(crate::specs::Table::appended, crate::specs::Subscriptions::is_full))]
pub fn append(area: &mut Area, count: usize, id: u16, question: Question<'_>) -> usize
    ensures { subscriptions_of result area.new ≡ appended (subscription_for id question.entry) (subscriptions_of count area.old) }
{
    if SUBSCRIPTIONS <= count || MAX_NAME < question.name.len() {
        return count;
    }
    write_block(area, count * BLOCK, id, question);
    count + 1
}

// Block i of n is gone: those behind it move down by one. How many are left. Out of line: the loop that looks for it stays small.
#[inline(never)]
fn close_gap(area: &mut Area, i: usize, n: usize) -> usize
    requires { (i < n) × (n ≤ max_subscriptions) }
    ensures { (result ≡ n - 1) × (blocks block_size (n - 1) area.new ≡ cut i (blocks block_size n area.old)) }
{
    let to = i * BLOCK;
    table::slide(area, to, to + BLOCK, (n - 1 - i) * BLOCK);
    n - 1
}

// Without those of an ID: in a run there is at most one. How many are left. From the last on: what moves down was looked at.
pub fn remove(area: &mut Area, count: usize, id: u16) -> usize
    ensures { subscriptions_of result area.new ≡ without id (subscriptions_of count area.old) }
{
    let mut n = count.min(SUBSCRIPTIONS);
    for i in (0..n).rev() {
        let octets = table::part(area, i * BLOCK, BLOCK);
        if (Block { octets }).has_id(id) {
            n = close_gap(area, i, n);
        }
    }
    n
}
