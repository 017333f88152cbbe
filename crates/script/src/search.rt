// Where an octet stands, and a field's end.
ghost use Rattle.std.specs.Prelude.{◌≡◌, [], ◌∷◌, MatchOption};
ghost use Rattle.script.specs.Fields.{First, fields};

// The place of the first one, if there is one.
pub fn first(s: &[u8], octet: u8) -> Option<usize>
    ensures { First octet s.now result }
{
    s.iter().position(|b| *b == octet)
}

// The first field, and what stands behind its tab; none where there is one field alone.
#[tactic(auto, using(crate::proofs::Parting::parting))]
pub fn parted(s: &[u8]) -> Option<(&[u8], &[u8])>
    ensures { MatchOption result (fields s.now ≡ s.now ∷ []) (λ r. fields s.now ≡ r.0.now ∷ fields r.1.now) }
{
    let t = first(s, b'\t')?;
    Some((&s[..t], &s[t + 1..]))
}
