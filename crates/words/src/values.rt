// The values that go with an answer: eight words that a C host lends.
ghost use Rattle.std.specs.Prelude.{◌≡◌, [], ◌∷◌};
ghost use Rattle.server.specs.Answers.{answer_of};
ghost use Rattle.words.specs.Values.{eight, place_numbers, values_of};

use dso::RecordPlaces;
use server::Answer;

pub const VALUES: usize = 8;

pub type Values = [u64; VALUES];

fn first_value(n: u64) -> Values
    ensures { result ≡ eight (n ∷ []) }
{
    [n, 0, 0, 0, 0, 0, 0, 0]
}

fn four_values(n: [u64; 4]) -> Values
    ensures { result ≡ eight n }
{
    let [a, b, c, d] = n;
    [a, b, c, d, 0, 0, 0, 0]
}

fn place_values(p: RecordPlaces) -> Values
    ensures { result ≡ eight (place_numbers p) }
{
    let name = p.name;
    let rtype = p.rtype;
    let class = p.class;
    let rdata = p.rdata;
    [
        name.start as u64,
        name.len as u64,
        rtype.start as u64,
        rtype.len as u64,
        class.start as u64,
        class.len as u64,
        rdata.start as u64,
        rdata.len as u64,
    ]
}

#[tactic(auto, unfolding(crate::specs::Values::values_of, server::specs::Answers::answer_of))]
fn values_of(answer: Answer) -> Values
    ensures { result ≡ values_of (answer_of answer) }
{
    match answer {
        Answer::Opened(session) => first_value(session.0),
        Answer::Ended(flags) => four_values(flags.map(u64::from)),
        Answer::Sent(counts) => four_values(counts.map(|n| n as u64)),
        Answer::Reconfirm(places) => place_values(places),
        Answer::Done | Answer::NotOurs | Answer::Aborted | Answer::Refused(_) => first_value(0),
    }
}

pub fn put(values: &mut Values, answer: Answer)
    ensures { values.new ≡ values_of (answer_of answer) }
{
    *values = values_of(answer);
}
