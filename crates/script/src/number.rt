// Numbers in decimal digits, and what one digit stands for.
ghost use Rattle.std.specs.Prelude.{◌<◌, ◌≡◌, IfSome};
ghost use Rattle.script.specs.Digit.{digit_value};
ghost use Rattle.script.specs.Number.{number as number_of, value_of};

#[tactic(auto, unfolding(crate::specs::Digit::digit_value))]
pub fn digit(b: u8) -> Option<u8>
    ensures value { result ≡ digit_value b }
    ensures small { IfSome result (λ d. d < 16) }
{
    match b {
        b'0'..=b'9' => Some(b - b'0'),
        b'a'..=b'f' => Some(b - b'a' + 10),
        _ => None,
    }
}

// The value of decimal digits, whether or not a zero leads them.
#[tactic(auto, using(crate::proofs::Numbers::summed))]
fn value(s: &[u8]) -> Option<u64>
    ensures { result ≡ value_of s.now }
{
    let mut x: u64 = 0;
    for b in s {
        let d = digit(*b)?;
        if 9 < d {
            return None;
        }
        x = x.checked_mul(10)?.checked_add(u64::from(d))?;
    }
    Some(x)
}

// What a field of digits stands for, if it is a number of at most 64 bits.
#[tactic(auto, using(crate::proofs::Numbers::numbers))]
pub fn read_number(s: &[u8]) -> Option<u64>
    ensures { result ≡ number_of s.now }
{
    if s.is_empty() || s[0] == b'0' && 1 < s.len() {
        return None;
    }
    value(s)
}
