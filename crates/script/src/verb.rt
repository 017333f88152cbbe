// The verbs of the lines.
ghost use Rattle.std.specs.Prelude.{◌≡◌};
ghost use Rattle.script.specs.Verb.{verb_text, verb_of};

use wire::same_octets;

#[derive(Clone, Copy)]
pub enum Verb {
    Open,
    Close,
    Message,
    Batch,
    Tick,
}

impl Verb {
    #[tactic(auto, unfolding(crate::specs::Verb::verb_text))]
    pub fn text(self) -> &'static [u8]
        ensures { result.now ≡ verb_text self }
    {
        match self {
            Verb::Open => b"open",
            Verb::Close => b"close",
            Verb::Message => b"msg",
            Verb::Batch => b"batch",
            Verb::Tick => b"tick",
        }
    }
}

const VERBS: [Verb; 5] = [
    Verb::Open,
    Verb::Close,
    Verb::Message,
    Verb::Batch,
    Verb::Tick,
];

pub fn verb_of(s: &[u8]) -> Option<Verb>
    ensures { result ≡ verb_of s.now }
{
    VERBS.iter().copied().find(|v| same_octets(s, v.text()))
}
